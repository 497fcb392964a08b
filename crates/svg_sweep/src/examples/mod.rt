//! Worked examples of the definitions, proved by computing: each is the `ensures` of a function
//! that does nothing.

ghost use Rattle.std.specs.Prelude.{◌≡◌, [], ◌∷◌, codes};
ghost use Rattle.svg_marks.specs.declared.class.Class.TheVariants.{Chance, Erase, Finished, Former, Legend, Program, Span};
ghost use Rattle.svg_marks.specs.Marks.{area_at};
ghost use Rattle.svg_sweep.specs.Charts.{chart_words, counted_in_chart, spans_height};
ghost use Rattle.svg_sweep.specs.Examples.{no_steps, three_steps};
ghost use Rattle.svg_sweep.specs.Places.{FillFrom};
ghost use Rattle.svg_sweep.specs.Runs.{runs};

/// Runs of results.
pub fn runs_of_results()
    ensures none { runs [] ≡ [] }
    ensures one { runs (Former ∷ []) ≡ record { first = 0; last = 0; class = Former } ∷ [] }
    ensures whole { runs (Chance ∷ Chance ∷ Chance ∷ [])
        ≡ record { first = 0; last = 2; class = Chance } ∷ [] }
    ensures changes { runs (Former ∷ Former ∷ Chance ∷ Former ∷ [])
        ≡ record { first = 0; last = 1; class = Former }
        ∷ record { first = 2; last = 2; class = Chance }
        ∷ record { first = 3; last = 3; class = Former } ∷ [] }
{}

/// What is said of a session of three steps, and what its picture has.
pub fn a_chart_of_three_steps()
    ensures words { chart_words three_steps.steps three_steps.before three_steps.within
        ≡ codes "chart steps=3 former=4 finished=0 chance=2" }
    ensures former { counted_in_chart Former three_steps
        ≡ codes "before 0 to 2 former" ∷ codes "within 1 to 1 former" ∷ [] }
    ensures finished { counted_in_chart Finished three_steps ≡ codes "end finished" ∷ [] }
    ensures chance { counted_in_chart Chance three_steps
        ≡ codes "within 0 to 0 chance" ∷ codes "within 2 to 2 chance" ∷ [] }
    ensures span { counted_in_chart Span three_steps ≡ codes "0 to 0" ∷ codes "2 to 2" ∷ [] }
    ensures erase { counted_in_chart Erase three_steps
        ≡ codes "erase 0x00020000 to 0x00020000" ∷ [] }
    ensures program { counted_in_chart Program three_steps
        ≡ codes "program 0x00021000 to 0x00020000" ∷ [] }
    ensures legend { counted_in_chart Legend three_steps
        ≡ codes "former 4" ∷ codes "finished 0" ∷ codes "chance 2" ∷ [] }
{}

/// A sweep of no step has the end and the legend alone.
pub fn a_chart_of_no_steps()
    ensures former { counted_in_chart Former no_steps ≡ codes "end former" ∷ [] }
    ensures erase { counted_in_chart Erase no_steps ≡ [] }
    ensures legend { counted_in_chart Legend no_steps
        ≡ codes "former 0" ∷ codes "finished 0" ∷ codes "chance 0" ∷ [] }
    ensures words { chart_words no_steps.steps no_steps.before no_steps.within
        ≡ codes "chart steps=0 former=0 finished=0 chance=0" }
{}

/// Five names of chance runs stand in a line.
pub fn lines_of_names()
    ensures none { spans_height 0 ≡ 0 }
    ensures five { spans_height 5 ≡ 20 }
    ensures six { spans_height 6 ≡ 40 }
{}

/// Two bars fill a strip of three units. They do not where one of them has no width, or where there
/// is a gap before, between or behind them.
pub fn bars_of_a_strip()
    ensures whole { FillFrom 3 0 (area_at 0 0 1 1 ∷ area_at 1 0 2 1 ∷ []) }
    ensures no_width { FillFrom 3 0 (area_at 0 0 0 1 ∷ area_at 0 0 3 1 ∷ []) → ⊥ }
    ensures before { FillFrom 3 0 (area_at 1 0 2 1 ∷ []) → ⊥ }
    ensures between { FillFrom 3 0 (area_at 0 0 1 1 ∷ area_at 2 0 1 1 ∷ []) → ⊥ }
    ensures behind { FillFrom 3 0 (area_at 0 0 2 1 ∷ []) → ⊥ }
{}
