//! Laws of charts, each the contract of a function that does nothing.

ghost use Rattle.std.specs.Prelude.{◌≡◌, ℕ, List, length, map, true};
ghost use Rattle.std.specs.List.{list_all};
ghost use Rattle.svg_marks.specs.declared.class.Class.{Class};
ghost use Rattle.svg_marks.specs.Marks.{class_text, escaped, picture_text, rects_of};
ghost use Rattle.svg_marks.specs.Reading.{marks_in, times};
ghost use Rattle.svg_marks.specs.Texts.{is_printed_text, is_written};
ghost use Rattle.svg_sweep.specs.declared.runs.Run.{Run};
ghost use Rattle.pico_board.specs.declared.Step.{Step};
ghost use Rattle.svg_marks.specs.declared.mark.Area.{Area};
ghost use Rattle.svg_sweep.specs.Charts.{Chart, class_of_step, counted_in_chart, kind_row, picture_of, result_row};
ghost use Rattle.svg_sweep.specs.Places.{FillFrom, run_length};
ghost use Rattle.svg_sweep.specs.Runs.{AreRuns, runs};

/// The runs of steps are all of them in their order, each of one class, and neighbours differ.
pub fn runs_are_runs()
    ensures { (classes : List Class) → AreRuns classes (runs classes) }
{}

/// No other list of runs is that of these steps.
pub fn runs_are_the_only_ones()
    ensures { (classes : List Class) (a b : List Run)
        → AreRuns classes a → AreRuns classes b → a ≡ b }
{}

/// The marks of a class that stand in the bytes of a picture are those of its data, in their
/// order, each with its words. The class, written as in `class="span"`, stands there as often, and
/// nowhere else.
pub fn marks_are_those_of_the_data()
    ensures words { (class : Class) (chart : Chart) (desc : List ℕ)
        → marks_in class (picture_text (picture_of chart desc))
        ≡ map escaped (counted_in_chart class chart) }
    ensures count { (class : Class) (chart : Chart) (desc : List ℕ)
        → times (class_text class) (picture_text (picture_of chart desc))
        ≡ length (counted_in_chart class chart) }
{}

/// Suppose that the words on what a picture shows have bytes from the blank to the tilde alone.
/// Then the picture has only such bytes and line feeds.
pub fn pictures_are_ascii()
    ensures { (chart : Chart) (desc : List ℕ) → is_printed_text desc ≡ true
        → list_all is_written (picture_text (picture_of chart desc)) ≡ true }
{}

/// The rectangles of a row fill its strip, which is as many units wide as there are steps. Each
/// begins where the one before ends. The first begins at the left edge, and the last ends at the
/// right edge. Each is as wide as its run has steps. Units are whole, so nothing is rounded.
pub fn bars_fill_their_strips()
    ensures results { (part : List ℕ) (top : ℕ) (classes : List Class)
        → FillFrom (length classes) 0 (rects_of (result_row part top classes)) }
    ensures kinds { (top : ℕ) (steps : List Step)
        → FillFrom (length steps) 0 (rects_of (kind_row top steps)) }
    ensures widths { (part : List ℕ) (top : ℕ) (classes : List Class)
        → map (λ (area : Area). area.width) (rects_of (result_row part top classes))
        ≡ map run_length (runs classes) }
    ensures kind_widths { (top : ℕ) (steps : List Step)
        → map (λ (area : Area). area.width) (rects_of (kind_row top steps))
        ≡ map run_length (runs (map class_of_step steps)) }
{}
