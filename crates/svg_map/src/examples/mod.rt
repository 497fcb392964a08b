//! Worked examples of the definitions, proved by computing: each is the `ensures` of a function
//! that does nothing.

ghost use Rattle.std.specs.Prelude.{◌≡◌, [], ◌∷◌, codes, true};
ghost use Rattle.svg_marks.specs.declared.class.Class.TheVariants as classes;
ghost use Rattle.svg_marks.specs.declared.mark.Colour.TheVariants.{Blue, Grey, Orange, Sky};
ghost use Rattle.svg_marks.specs.Marks.{Rect};
ghost use Rattle.svg_map.specs.Maps.{bar_colour, column_height, counted_in_map, map_words, middle, bar_height, rows_height, window_mark};
ghost use Rattle.svg_map.specs.Places.{LieFrom};
ghost use Rattle.svg_map.specs.Examples.{free_window, started_slot, three_windows, two_lines, unstarted_slot, whole_line};

/// What is said of a flash of three windows, and what its picture has.
pub fn a_flash_of_three_windows()
    ensures words { map_words 3 ≡ codes "map windows=3" }
    ensures row { counted_in_map classes.Row three_windows
        ≡ codes "0x10000000 to 0x10000fff slot 0 version=1.0 rollback=0 pair A with 1 starts"
        ∷ codes "0x10001000 to 0x10001fff slot 1 fault=loop no-block pair B with 0"
        ∷ codes "0x10002000 to 0x10003fff free" ∷ [] }
    ensures join { counted_in_map classes.Join three_windows ≡ codes "0x10000000 to 0x10000fff"
        ∷ codes "0x10001000 to 0x10001fff" ∷ codes "0x10002000 to 0x10003fff" ∷ [] }
    ensures starts { counted_in_map classes.Starts three_windows ≡ codes "starts" ∷ [] }
    ensures former { counted_in_map classes.Former three_windows ≡ [] }
    ensures column { column_height three_windows ≡ 400 }
    ensures side_by_side { LieFrom 16384 0 three_windows }
{}

/// Rows are as high as their lines, and a column is at least 400 high and as high as the rows.
pub fn heights()
    ensures one { bar_height unstarted_slot ≡ 28 }
    ensures whole { bar_height whole_line ≡ 28 }
    ensures two { bar_height two_lines ≡ 48 }
    ensures rows { rows_height three_windows ≡ 84 }
    ensures middle { middle 16384 400 (record { start = 8192; len = 8192 }) ≡ 300 }
    ensures first { middle 16384 400 (record { start = 0; len = 4096 }) ≡ 50 }
{}

/// Windows in turn are dark and light; a free one and the one that starts have colours of their
/// own.
pub fn colours()
    ensures dark { bar_colour 0 unstarted_slot ≡ Blue }
    ensures light { bar_colour 1 unstarted_slot ≡ Sky }
    ensures starts { bar_colour 1 started_slot ≡ Orange }
    ensures free { bar_colour 0 free_window ≡ Grey }
    ensures mark { window_mark 2 free_window
        ≡ Rect classes.Window (record { x = 0; y = 8192; width = 1; height = 8192 }) Grey
        (codes "0x10002000 to 0x10003fff free") }
{}
