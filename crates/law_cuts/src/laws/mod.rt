//! Laws on the cuts of scripts that are one session of a host, each the contract of a function that
//! does nothing.

ghost use Rattle.std.specs.Prelude.{◌≡◌, ℕ, ◌<◌, All, List, Some, length, map, slice_get, true};
ghost use Rattle.std.specs.List.{AllByRecursion};
ghost use Rattle.pico_board.specs.declared.boot.Cpu.{Cpu};
ghost use Rattle.pico_board.specs.declared.window.Window.{Window};
ghost use Rattle.pico_board.specs.Content.{Content};
ghost use Rattle.pico_board.specs.Steps.{CutOf, after_all};
ghost use Rattle.boot_script.specs.Events.{EventView};
ghost use Rattle.boot_session.specs.Sessions.{session};
ghost use Rattle.boot_sweep.specs.declared.results.CutResult.{CutResult};
ghost use Rattle.boot_sweep.specs.Results.{IsCutResult};
ghost use Rattle.boot_sweep.specs.Sweeps.{Line, sweep_lines};
ghost use Rattle.boot_sweep.specs.Moving.{Done};
ghost use Rattle.cut_class.specs.declared.class.Class.{Class};
ghost use Rattle.boot_cuts.specs.Classes.{IsClass};
ghost use Rattle.boot_cuts.specs.Contents.{cut_contents};
ghost use Rattle.boot_tape.specs.Traces.{trace, trace_steps, traced_from};
ghost use Rattle.law_cuts.specs.Sessions.{is_one_session};
ghost use Rattle.law_cuts.specs.Cases.{ArmsNoCut, EndsFor, HasClassFor, IsAccident, IsGatedScript, IsOther, IsSweptScript, IsWholeOrNone};

/// The trace of a script that is one session of a host has the steps of its session, each with the
/// content before it; and the script leaves what they do.
pub fn a_trace_is_a_session()
    ensures steps { (c : Content) (cpu : Cpu) (events : List EventView)
        → is_one_session c cpu events ≡ true
        → (trace c cpu events).done ≡ traced_from c (session c cpu events) }
    ensures last { (c : Content) (cpu : Cpu) (events : List EventView)
        → is_one_session c cpu events ≡ true
        → (trace c cpu events).last ≡ after_all c (session c cpu events) }
    ensures moves { (c : Content) (cpu : Cpu) (events : List EventView)
        → is_one_session c cpu events ≡ true
        → (trace c cpu events).moves ≡ map (λ step. Done step) (session c cpu events) }
{}

/// A sweep is a case, of a script that is one session of a host and whose boots write nothing.
/// Where it refuses nothing, there are as many cuts as lines before the last one. Each line
/// `former` is a cut of class `former`, each `finished` a `finished`, and each `chance` a `whole`,
/// `tail`, `mixed` or `bootsel`; and so it is with the result of the last line and the class of
/// what the script leaves.
pub fn a_sweep_is_a_case()
    ensures lines { (c : Content) (cpu : Cpu) (events : List EventView) (pattern : List ℕ) (n : ℕ)
        (line : Line)
        → IsSweptScript c cpu events
        → slice_get (sweep_lines c cpu pattern (session c cpu events)) n ≡ Some line
        → HasClassFor c cpu events pattern n line.result }
    ensures count { (c : Content) (cpu : Cpu) (events : List EventView) (pattern : List ℕ)
        → IsSweptScript c cpu events
        → length (cut_contents pattern (trace c cpu events).done)
        ≡ length (sweep_lines c cpu pattern (session c cpu events)) }
    ensures last { (c : Content) (cpu : Cpu) (events : List EventView) (result : CutResult)
        → IsSweptScript c cpu events
        → IsCutResult c (trace c cpu events).last (trace c cpu events).last cpu result
        → EndsFor c cpu events result }
{}

/// A gated session leaves the former or the finished image, but by an accidental image. Let it be
/// all of a script whose boots write nothing, on a slot in which no normal boot before it starts,
/// and let it leave the table. What a cut of another class left is unfinished, and has another
/// table, or an accidental image in the slot. So it is with the pattern that a cut within leaves,
/// and whatever bytes it leaves.
pub fn a_gated_session_leaves_one_of_two_images()
    ensures cuts { (c : Content) (cpu : Cpu) (events : List EventView) (pattern : List ℕ)
        (w : Window) (n : ℕ) (d : Content) (class : Class)
        → All (λ b. b < 256) pattern → IsGatedScript c cpu events w
        → slice_get (cut_contents pattern (trace c cpu events).done) n ≡ Some d
        → IsClass c (trace c cpu events).last (trace c cpu events).moves d cpu class
        → IsOther class → IsAccident c cpu events w d }
    ensures torn { (c : Content) (cpu : Cpu) (events : List EventView) (w : Window) (d : Content)
        (class : Class)
        → IsGatedScript c cpu events w → CutOf c (trace_steps (trace c cpu events).done) d
        → IsClass c (trace c cpu events).last (trace c cpu events).moves d cpu class
        → IsOther class → IsAccident c cpu events w d }
{}

/// What a script without a Cut event leaves is of class `former`, `finished` or `bootsel`: what
/// starts at the end is the finished image, or as before.
pub fn an_end_without_a_cut_is_whole_or_none()
    ensures { (c : Content) (cpu : Cpu) (events : List EventView) (class : Class)
        → AllByRecursion ArmsNoCut events
        → IsClass c (trace c cpu events).last (trace c cpu events).moves
        (trace c cpu events).last cpu class
        → IsWholeOrNone class }
{}
