//! Laws of cuts, each the contract of a function that does nothing.

ghost use Rattle.std.specs.Prelude.{◌≡◌, ◌↔◌, ◌⊎◌, ◌+◌, ◌*◌, ◌++◌, ◌∷◌, [], ℕ, Bool, List, None, Some, false, length, map, slice_get, true};
ghost use Rattle.pico_board.specs.Content.{Content};
ghost use Rattle.pico_board.specs.declared.boot.Cpu.{Cpu};
ghost use Rattle.pico_board.specs.Cuts.{cut_by, cut_with};
ghost use Rattle.pico_board.specs.declared.boot.BootKind.TheVariants.{Normal};
ghost use Rattle.boot_rules.specs.Choosing.{decision_in};
ghost use Rattle.boot_rules.specs.Chosen.{Chosen};
ghost use Rattle.boot_rules.specs.declared.decision.Decision.TheVariants.{Start};
ghost use Rattle.slot_choice.specs.declared.choice.Choice.{Choice};
ghost use Rattle.image_check.specs.SameImage.{SameImage};
ghost use Rattle.pico_board.specs.declared.window.Window.{Window};
ghost use Rattle.boot_sweep.specs.Moving.{MoveView};
ghost use Rattle.boot_script.specs.Events.{EventView};
ghost use Rattle.boot_machine.specs.Machines.{MachineView};
ghost use Rattle.text_lines.specs.declared.outcome.EventOutcome.TheVariants as event_outcomes;
ghost use Rattle.boot_machine.specs.Plays.{played, powerless};
ghost use Rattle.boot_cuts.specs.declared.answers.Answer.{Answer};
ghost use Rattle.cut_class.specs.declared.class.Class.{Class};
ghost use Rattle.cut_class.specs.declared.class.Class.TheVariants.{Whole};
ghost use Rattle.boot_cuts.specs.declared.runs.Run.{Run};
ghost use Rattle.boot_cuts.specs.Answers.{answer_of};
ghost use Rattle.boot_cuts.specs.Classes.{IsClass};
ghost use Rattle.boot_cuts.specs.Classing.{class_of};
ghost use Rattle.boot_cuts.specs.Contents.{cut_content, cut_contents};
ghost use Rattle.boot_tape.specs.Playing.{cut_in};
ghost use Rattle.boot_cuts.specs.Replaying.{replay_of};
ghost use Rattle.boot_tape.specs.Traces.{Traced, event_steps, traced, traced_from};
ghost use Rattle.boot_cuts.specs.Runs.{AreRuns, runs_of};
ghost use Rattle.boot_cuts.specs.Tears.{IsLeftTorn, is_left_torn, left_torn};
ghost use Rattle.boot_cuts.specs.Told.{AreAnswers};

/// The class of a cut is the first of its six sentences that holds, and the function finds it.
pub fn classes_are_judged()
    ensures { (c z d : Content) (moves : List MoveView) (cpu : Cpu) (class : Class)
        → IsClass c z moves d cpu class ↔ (class ≡ class_of c z (left_torn moves) cpu d) }
{}

/// A window is left torn exactly where the function finds a step in it that is.
pub fn windows_left_torn_are_found()
    ensures { (moves : List MoveView) (w : Window)
        → IsLeftTorn moves w ↔ (is_left_torn (left_torn moves) w ≡ true) }
{}

/// The answers of cuts are those that the function finds, and no others.
pub fn answers_are_judged()
    ensures are { (c z : Content) (moves : List MoveView) (cpu : Cpu) (contents : List Content)
        → AreAnswers c z moves cpu contents
        (map (answer_of c z (left_torn moves) cpu) contents) }
    ensures only { (c z : Content) (moves : List MoveView) (cpu : Cpu) (contents : List Content)
        (answers : List Answer)
        → AreAnswers c z moves cpu contents answers
        → answers ≡ map (answer_of c z (left_torn moves) cpu) contents }
{}

/// A whole image is whole: where the class is `whole`, a normal boot on what the cut leaves starts
/// an image that has there the bytes that it has before the script or after it.
pub fn a_whole_image_is_whole()
    ensures { (c z d : Content) (moves : List MoveView) (cpu : Cpu)
        → IsClass c z moves d cpu Whole
        → (choice : Choice) × Chosen d cpu Normal (Start choice)
        × (SameImage c d choice.image cpu ⊎ SameImage z d choice.image cpu) }
{}

/// The runs of cuts are all of them in their order, each of one answer, and neighbours differ.
pub fn runs_are_runs()
    ensures { (answers : List Answer) → AreRuns answers (runs_of answers) }
{}

/// No other list of runs is that of these cuts.
pub fn runs_are_the_only_ones()
    ensures { (answers : List Answer) (a b : List Run)
        → AreRuns answers a → AreRuns answers b → a ≡ b }
{}

/// A cut is a replay. Take the events before one, and a Cut event that is due in step k of that
/// event. Then come that event, and power that comes back. This script comes to a boot with the
/// decision of a normal boot on the content that the cut leaves. A cut that was armed there is
/// replaced. The step stands in the trace behind those of the events before it. The cuts before
/// and within step k of a trace have the numbers 2k and 2k + 1.
pub fn a_cut_is_a_replay()
    ensures boots { (c : Content) (cpu : Cpu) (before : List EventView) (event : EventView) (k : ℕ)
        (within : Bool) (pattern : List ℕ) (t : Traced) → cut_in event ≡ None
        → slice_get (traced_from (played (powerless c cpu) before).last.content
        (event_steps (played (powerless c cpu) before).last event)) k ≡ Some t
        → (played (powerless c cpu) (replay_of before event k within pattern)).outcomes
        ≡ (played (powerless c cpu) before).outcomes ++ (event_outcomes.CutArmed
        ∷ event_outcomes.PowerLost ∷ event_outcomes.Booted (decision_in
        (cut_by (cut_with 0 within pattern) t.before t.step) cpu Normal) ∷ []) }
    ensures stands { (m : MachineView) (before others : List EventView) (event : EventView) (k : ℕ)
        (t : Traced)
        → slice_get (traced_from (played m before).last.content
        (event_steps (played m before).last event)) k ≡ Some t
        → slice_get (traced m (before ++ event ∷ others)) (length (traced m before) + k)
        ≡ Some t }
    ensures numbers { (pattern : List ℕ) (done : List Traced) (k : ℕ) (t : Traced)
        → slice_get done k ≡ Some t
        → (slice_get (cut_contents pattern done) (2 * k) ≡ Some (cut_content pattern t false))
        × (slice_get (cut_contents pattern done) (2 * k + 1)
        ≡ Some (cut_content pattern t true)) }
{}
