//! Laws of pictures of a flash, each the contract of a function that does nothing.

ghost use Rattle.std.specs.Prelude.{◌≡◌, ℕ, List, length, map, true};
ghost use Rattle.std.specs.List.{flat_map, list_all};
ghost use Rattle.svg_marks.specs.declared.class.Class.{Class};
ghost use Rattle.svg_marks.specs.declared.class.Class.TheVariants.{Window, Row, Join};
ghost use Rattle.svg_marks.specs.Marks.{class_text, escaped, picture_text, rects_of};
ghost use Rattle.svg_marks.specs.Reading.{marks_in, times};
ghost use Rattle.svg_marks.specs.Texts.{is_printed_text, is_written};
ghost use Rattle.svg_map.specs.Maps.{MapBarView, counted_in_map, map_marks, map_picture};
ghost use Rattle.svg_map.specs.Places.{FillFrom, LieFrom};

/// The marks of a class that stand in the bytes of a picture are those of its windows, in their
/// order, each with its words. The class, written as in `class="window"`, stands there as often,
/// and nowhere else.
pub fn marks_are_those_of_the_windows()
    ensures words { (class : Class) (flash : ℕ) (bars : List MapBarView) (desc : List ℕ)
        → marks_in class (picture_text (map_picture flash bars desc))
        ≡ map escaped (counted_in_map class bars) }
    ensures count { (class : Class) (flash : ℕ) (bars : List MapBarView) (desc : List ℕ)
        → times (class_text class) (picture_text (map_picture flash bars desc))
        ≡ length (counted_in_map class bars) }
{}

/// Each window has one rectangle, one row and one line that joins them.
pub fn each_window_has_its_marks()
    ensures windows { (bars : List MapBarView) → length (counted_in_map Window bars) ≡ length bars }
    ensures rows { (bars : List MapBarView) → length (counted_in_map Row bars) ≡ length bars }
    ensures joins { (bars : List MapBarView) → length (counted_in_map Join bars) ≡ length bars }
{}

/// Suppose that what is said of windows, and what the picture shows, have bytes from the blank to
/// the tilde alone. Then the picture has only such bytes and line feeds.
pub fn pictures_of_texts_are_ascii()
    ensures { (flash : ℕ) (bars : List MapBarView) (desc : List ℕ) → is_printed_text desc ≡ true
        → is_printed_text (flat_map (λ (bar : MapBarView). bar.words) bars) ≡ true
        → list_all is_written (picture_text (map_picture flash bars desc)) ≡ true }
{}

/// The rectangles of windows that lie side by side fill the column, which is as many units high as
/// the flash has bytes. Each begins where the one before ends, and is as high as its window has
/// bytes. The first begins at the top, and the last ends at the bottom. Units are whole, so
/// nothing is rounded.
pub fn rectangles_fill_the_column()
    ensures { (flash high : ℕ) (bars : List MapBarView) → LieFrom flash 0 bars
        → FillFrom flash 0 bars (rects_of (map_marks flash high bars)) }
{}
