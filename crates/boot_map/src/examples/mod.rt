//! Worked examples of the definitions, proved by computing: each is the `ensures` of a function
//! that does nothing.

ghost use Rattle.std.specs.Prelude.{◌≡◌, [], ◌∷◌, true, false, None, Some};
ghost use Rattle.pico_board.specs.declared.boot.Cpu.TheVariants.{Arm};
ghost use Rattle.worked_flashes.specs.Tables.{owned_table, pair_table};
ghost use Rattle.worked_flashes.specs.Tables.{small_pair, three_table};
ghost use Rattle.slot_choice.specs.Examples.{table_without_families, window_at};
ghost use Rattle.slot_choice.specs.declared.unit.Member.TheVariants.{A, B};
ghost use Rattle.boot_rules.specs.declared.decision.Decision.TheVariants.{Bootsel, Start};
ghost use Rattle.boot_rules.specs.declared.decision.Fall.TheVariants.{NoImage};
ghost use Rattle.boot_map.specs.declared.places.MapPlace.TheVariants.{Slot, Partition as Part, Whole, Free};
ghost use Rattle.boot_map.specs.Windows.{map_windows};
ghost use Rattle.boot_map.specs.Maps.{has_image, map_in, paired, pairing, starts};
ghost use Rattle.boot_map.specs.Examples.{empty, empty_map, lone_table, mixed_table, placed, start_in_window, turned_table, two_images, two_images_map, two_slots, two_slots_map};

/// The windows of a flash with a table. Its partitions are out of order, with gaps and without.
/// The last one ends at the flash's end, a sector before it and far before it. Other tables have a
/// gap after the slots, or no partition, with something after the slots and with nothing.
pub fn windows_of_tables()
    ensures mixed { map_windows (Some mixed_table) 0x20000 0x4000
        ≡ placed (Slot 0) 0 0x4000 ∷ placed (Slot 1) 0x4000 0x4000 ∷ placed (Part 1) 0x8000 0x2000
        ∷ placed (Part 2) 0xa000 0x2000 ∷ placed Free 0xc000 0x8000
        ∷ placed (Part 0) 0x14000 0x4000 ∷ placed Free 0x18000 0x6000
        ∷ placed (Part 3) 0x1e000 0x2000 ∷ [] }
    ensures sector_left { map_windows (Some mixed_table) 0x21000 0x2000
        ≡ placed (Slot 0) 0 0x2000 ∷ placed (Slot 1) 0x2000 0x2000 ∷ placed Free 0x4000 0x4000
        ∷ placed (Part 1) 0x8000 0x2000
        ∷ placed (Part 2) 0xa000 0x2000 ∷ placed Free 0xc000 0x8000
        ∷ placed (Part 0) 0x14000 0x4000 ∷ placed Free 0x18000 0x6000
        ∷ placed (Part 3) 0x1e000 0x2000 ∷ placed Free 0x20000 0x1000 ∷ [] }
    ensures lone { map_windows (Some lone_table) 0x10000 0x1000
        ≡ placed (Slot 0) 0 0x1000 ∷ placed (Slot 1) 0x1000 0x1000 ∷ placed Free 0x2000 0x8000
        ∷ placed (Part 0) 0xa000 0x2000 ∷ placed Free 0xc000 0x4000 ∷ [] }
    ensures none { map_windows (Some (table_without_families [])) 0x3000 0x1000
        ≡ placed (Slot 0) 0 0x1000 ∷ placed (Slot 1) 0x1000 0x1000 ∷ placed Free 0x2000 0x1000
        ∷ [] }
    ensures filled { map_windows (Some (table_without_families [])) 0x2000 0x1000
        ≡ placed (Slot 0) 0 0x1000 ∷ placed (Slot 1) 0x1000 0x1000 ∷ [] }
{}

/// The windows of a flash without a table: the whole flash, or two slots and what is after them,
/// where there is anything.
pub fn windows_without_tables()
    ensures whole { map_windows None 0x10000 0x1000 ≡ placed Whole 0 0x10000 ∷ [] }
    ensures least { map_windows None 0x2000 0x1000 ≡ placed Whole 0 0x2000 ∷ [] }
    ensures above { map_windows None 0x10000 0x1001
        ≡ placed (Slot 0) 0 0x1001 ∷ placed (Slot 1) 0x1001 0x1001 ∷ placed Free 0x2002 0xdffe
        ∷ [] }
    ensures slots { map_windows None 0x10000 0x2000
        ≡ placed (Slot 0) 0 0x2000 ∷ placed (Slot 1) 0x2000 0x2000 ∷ placed Free 0x4000 0xc000
        ∷ [] }
    ensures filled { map_windows None 0x4000 0x2000
        ≡ placed (Slot 0) 0 0x2000 ∷ placed (Slot 1) 0x2000 0x2000 ∷ [] }
{}

/// The pairs of a table, also where A has an owner or is ignored, and where B stands before A; of
/// partitions without links; and of slots, with a table and without.
pub fn pairs_are_told()
    ensures first { pairing (Some pair_table) (Part 0) ≡ Some (paired A 1) }
    ensures second { pairing (Some pair_table) (Part 1) ≡ Some (paired B 0) }
    ensures owned { pairing (Some owned_table) (Part 2) ≡ Some (paired A 3) }
    ensures owned_second { pairing (Some owned_table) (Part 3) ≡ Some (paired B 2) }
    ensures ignored { pairing (Some (small_pair 0x20600 0x20002)) (Part 0) ≡ Some (paired A 1) }
    ensures ignored_second { pairing (Some (small_pair 0x20000 0x20602)) (Part 1)
        ≡ Some (paired B 0) }
    ensures turned { pairing (Some turned_table) (Part 0) ≡ Some (paired B 1) }
    ensures turned_second { pairing (Some turned_table) (Part 1) ≡ Some (paired A 0) }
    ensures alone { pairing (Some three_table) (Part 1) ≡ None }
    ensures slot { pairing None (Slot 0) ≡ Some (paired A 1) }
    ensures other_slot { pairing None (Slot 1) ≡ Some (paired B 0) }
    ensures table_slot { pairing (Some pair_table) (Slot 0) ≡ None }
    ensures other_table_slot { pairing (Some pair_table) (Slot 1) ≡ None }
    ensures whole { pairing None Whole ≡ None }
    ensures free { pairing None Free ≡ None }
    ensures free_of_table { pairing (Some pair_table) Free ≡ None }
{}

/// Which windows have an image, and which of them a decision starts: that of its image's start and
/// length.
pub fn images_and_starts_are_told()
    ensures partition { has_image (Some pair_table) (Part 0) ≡ true }
    ensures table_slot { has_image (Some pair_table) (Slot 0) ≡ false }
    ensures slot { has_image None (Slot 1) ≡ true }
    ensures whole { has_image None Whole ≡ true }
    ensures free { has_image None Free ≡ false }
    ensures free_of_table { has_image (Some pair_table) Free ≡ false }
    ensures started { starts (Start (start_in_window (window_at 0x2000 0x2000)))
        (window_at 0x2000 0x2000)
        ≡ true }
    ensures elsewhere { starts (Start (start_in_window (window_at 0x2000 0x2000)))
        (window_at 0x4000 0x2000) ≡ false }
    ensures longer { starts (Start (start_in_window (window_at 0x2000 0x2000)))
        (window_at 0x2000 0x3000)
        ≡ false }
    ensures nothing { starts (Bootsel NoImage) (window_at 0x2000 0x2000) ≡ false }
{}

/// Whole maps: of a pair in a table, where B has the greater version; of two slots without a
/// table, where the second has a trial image; and of a flash with nothing in it.
pub fn maps_are_told()
    ensures pair { map_in two_images Arm ≡ two_images_map }
    ensures slots { map_in two_slots Arm ≡ two_slots_map }
    ensures nothing { map_in empty Arm ≡ empty_map }
{}
