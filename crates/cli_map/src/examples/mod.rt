//! Worked examples of the definitions, proved by computing: each is the `ensures` of a function
//! that does nothing.

ghost use Rattle.std.specs.Prelude.{◌≡◌, ◌∷◌, ◌++◌, codes, None, Some, Ok, Err, true, false};
ghost use Rattle.block_loop.specs.declared.fault.LoopFault.TheVariants.{Broken, Overlap};
ghost use Rattle.image_check.specs.declared.why.Why.{Why};
ghost use Rattle.slot_choice.specs.declared.unit.Member.TheVariants.{A, B};
ghost use Rattle.boot_map.specs.declared.places.MapPlace.{MapPlace};
ghost use Rattle.svg_map.specs.Maps.{window_span_text};
ghost use Rattle.text_lines.specs.Examples.{example_image};
ghost use Rattle.cli_map.specs.Examples.{bare_map, bare_row_at, some_pairing, row_with, table_map, three_rows};
ghost use Rattle.cli_map.specs.Texts.{bar_of, row_text};
ghost use Rattle.cli_map.specs.Works.{map_line};

/// The addresses of a window's first byte and of its last.
pub fn texts_of_spans()
    ensures sector { window_span_text (record { start = 0x1000; len = 0x1000 })
        ≡ codes "0x10001000 to 0x10001fff" }
    ensures whole { window_span_text (record { start = 0; len = 0x1000000 })
        ≡ codes "0x10000000 to 0x10ffffff" }
{}

/// Windows of a flash with a table: the slots with what they have or lack, partitions with their
/// images, and a free stretch.
pub fn texts_with_a_table()
    ensures slot_0 { row_text table_map (bare_row_at (MapPlace.Slot 0) 0 0x1000) ≡ codes
        "0x10000000 to 0x10000fff slot 0 table version=1.9 partitions=2 singleton=no" }
    ensures slot_1 { row_text table_map (bare_row_at (MapPlace.Slot 1) 0x1000 0x1000)
        ≡ codes "0x10001000 to 0x10001fff slot 1 fault=no-block" }
    ensures named { row_text table_map (row_with (MapPlace.Partition 0) 0x2000 0x2000
        (Ok (example_image 2 7 (Some 3) true)) (some_pairing A 1) true)
        ≡ codes "0x10002000 to 0x10003fff partition 0 name="
        ++ (0x22 ∷ codes "main" ++ (0x22 ∷ codes " families=rp2040,rp2350-arm-s version=2.7 "
        ++ codes "rollback=3 pair A with 1")) }
    ensures second { row_text table_map (row_with (MapPlace.Partition 1) 0x4000 0x2000
        (Err Why.Digest) (some_pairing B 0) false) ≡ codes
        "0x10004000 to 0x10005fff partition 1 name=none families=none fault=digest pair B with 0" }
    ensures alone { row_text table_map (row_with (MapPlace.Partition 1) 0x4000 0x2000
        (Ok (example_image 1 10 None false)) None false)
        ≡ codes "0x10004000 to 0x10005fff partition 1 name=none families=none version=1.10 "
        ++ codes "rollback=none" }
    ensures free { row_text table_map (bare_row_at MapPlace.Free 0x6000 0xffa000)
        ≡ codes "0x10006000 to 0x10ffffff free" }
{}

/// Windows of a flash without a table: the slots with their images, what is free after them, and
/// the whole flash.
pub fn texts_without_a_table()
    ensures slot_0 { row_text bare_map (row_with (MapPlace.Slot 0) 0 0x20000
        (Ok (example_image 0 0 None false)) (some_pairing A 1) true)
        ≡ codes "0x10000000 to 0x1001ffff slot 0 version=0.0 rollback=none pair A with 1" }
    ensures slot_1 { row_text bare_map (row_with (MapPlace.Slot 1) 0x20000 0x20000
        (Err (Why.Loop (Overlap 1 3))) (some_pairing B 0) false)
        ≡ codes "0x10020000 to 0x1003ffff slot 1 fault=loop overlap 1 3 pair B with 0" }
    ensures free { row_text bare_map (bare_row_at MapPlace.Free 0x40000 0x1000)
        ≡ codes "0x10040000 to 0x10040fff free" }
    ensures whole { row_text bare_map (row_with MapPlace.Whole 0 0x2000
        (Ok (example_image 65535 65535 (Some 768) false)) None true)
        ≡ codes "0x10000000 to 0x10001fff whole version=65535.65535 rollback=768" }
    ensures no_image { row_text bare_map (row_with MapPlace.Whole 0 0x2000
        (Err (Why.Loop (Broken 0x100))) None false)
        ≡ codes "0x10000000 to 0x10001fff whole fault=loop broken at=0x00000100" }
{}

/// What is drawn of a window: whether it is free, and whether a boot starts it; its words do not
/// say this. Also the line of a map.
pub fn windows_that_are_drawn()
    ensures started { bar_of bare_map (row_with MapPlace.Whole 0 0x2000
        (Ok (example_image 0 0 None false)) None true) ≡ record {
          window = record { start = 0; len = 0x2000 };
          words = codes "0x10000000 to 0x10001fff whole version=0.0 rollback=none";
          free = false;
          starts = true;
        } }
    ensures free { bar_of bare_map (bare_row_at MapPlace.Free 0x2000 0x1000) ≡ record {
      window = record { start = 0x2000; len = 0x1000 };
      words = codes "0x10002000 to 0x10002fff free";
      free = true;
      starts = false;
    } }
    ensures slot { (bar_of table_map (bare_row_at (MapPlace.Slot 1) 0x1000 0x1000)).free ≡ false }
    ensures part { (bar_of table_map (bare_row_at (MapPlace.Partition 1) 0x4000 0x2000)).free
        ≡ false }
    ensures line { map_line three_rows ≡ codes "map windows=3\n" }
{}
