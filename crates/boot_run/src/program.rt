//! The top call.

ghost use Rattle.std.specs.Prelude.{◌≡◌, ◌⊎◌, ◌↔◌, ℕ, List, Some, None, IsTrue, true};
ghost use Rattle.pico_board.specs.declared.boot.Cpu.{Cpu};
ghost use Rattle.pico_board.specs.declared.boot.BootKind.{BootKind};
ghost use Rattle.pico_board.specs.Board.{Rose};
ghost use Rattle.pico_board.specs.Content.{Content};
ghost use Rattle.pico_board.specs.Steps.{after_all};
ghost use Rattle.pico_board.specs.declared.Step.{Step};
ghost use Rattle.pico_board.specs.declared.boot.BootKind.TheVariants.{Normal};
ghost use Rattle.pico_board.specs.declared.window.Window.{Window};
ghost use Rattle.boot_session.specs.CutSessions.{CutSession, ConfinedSession, StartsFinished, StartsThere};
ghost use Rattle.pico_board.specs.Files.{File, file_of};
ghost use Rattle.pico_board.specs.Puts.{IsPut};
ghost use Rattle.image_check.specs.NotBelow.{NotBelow};
ghost use Rattle.slot_choice.specs.declared.choice.Choice.{Choice};
ghost use Rattle.boot_rules.specs.declared.decision.Decision.{Decision};
ghost use Rattle.boot_rules.specs.declared.decision.Decision.TheVariants.{Start};
ghost use Rattle.boot_rules.specs.Chosen.{Chosen};
ghost use Rattle.cli_words.specs.Rows.{CommandLineView, Boot, asked, command_from};
ghost use Rattle.cli_inputs.specs.Forms.{HasForm, content_of_files};
ghost use Rattle.text_lines.specs.Texts.{decision_line};
ghost use Rattle.cli_inputs.specs.Inputs.{readings};
ghost use Rattle.boot_run.specs.Inputs.{inputs_of};
ghost use Rattle.cli_course.specs.Outcomes.{AnswerView, is_finished};
ghost use Rattle.boot_run.specs.Commands.{inputs_in, outcome_in, outcome_on, command_outcome, Names, Obeys, IsRefusedCommand};
ghost use Rattle.cli_course.specs.Courses.{Runs};
ghost use Rattle.cli_boot.specs.Rules.{decided_status};
ghost use Rattle.cli_course.specs.Ends.{DoesRun, ShowsOutcome, LacksOne, IsCutShort, IsPutShort};

use crate::inputs::inputs_of;
use crate::work::answer;
use cli_course::{Status, finish, put_text, read_all};
use cli_inputs::{Form, readings};
use cli_words::{CommandLine, find_command};
use pico_board::{Sink, SinkFail, Store};
use std::alloc::Global;

/// Runs a command: it reads its inputs, answers, and ends.
fn run_command<S: Store, K: Sink>(
    alloc: Global,
    command: &CommandLine<'_>,
    store: &mut S,
    out: &mut K,
) -> Status
    ensures { Runs S.state S.history K.state K.history
        (readings (inputs_of (command_from command.now)))
        (command_outcome (command_from command.now))
        store.old out.old result store.new out.new }
{
    let inputs = match inputs_of(alloc, command) {
        Ok(inputs) => inputs,
        Err(_) => return Status::Memory,
    };
    let to_read = match readings(alloc, &inputs) {
        Ok(to_read) => to_read,
        Err(_) => return Status::Memory,
    };
    let files = match read_all(alloc, &to_read, store) {
        Ok(files) => files,
        Err(status) => return status,
    };
    match answer(alloc, command, files) {
        Ok(answer) => finish(&answer, store, out),
        Err(_) => Status::Memory,
    }
}

/// What [`run`] does, by its course alone.
fn run_asked<S: Store, K: Sink>(
    alloc: Global,
    words: &Vec<String>,
    store: &mut S,
    out: &mut K,
) -> Status
    ensures { Runs S.state S.history K.state K.history (inputs_in (asked words.now))
        (outcome_in (asked words.now))
        store.old out.old result store.new out.new }
{
    match find_command(words) {
        Some(command) => run_command(alloc, &command, store, out),
        None => put_text(out, b"words not understood\n", Status::Words),
    }
}

/// All that the program does, for its arguments without the program's own name. It reads the input
/// files in the order of the arguments, does the work in memory, writes the output files, and puts
/// the text in one call. The answer is the status with which the program ends.
///
/// - `Words`: the arguments are no command.
/// - `Input`: the line names the first input, in the order of the arguments, that breaks its form.
///   Where each has its form it names the input that the work refuses.
/// - `Bootsel`: a boot that was asked for falls to BOOTSEL.
/// - `ReadFault`, `WriteFault` and `OutputFault`: the count of read faults, of write faults or of
///   the sink's faults rose.
/// - `Memory`: there was no memory; it may come anywhere.
pub fn run<S: Store, K: Sink>(
    alloc: Global,
    words: &Vec<String>,
    store: &mut S,
    out: &mut K,
) -> Status
    // The first half of the headline, on told files, for every content, processor and boot type.
    // Where the whole text was put, `boot` names exactly the image, or the fall to BOOTSEL, that
    // the rules choose. The image is never below its rollback rows.
    ensures boot { (flash otp f g : List ℕ) (cpu : Cpu) (kind : BootKind) (files : List File)
        (d : Decision)
        → asked words.now ≡ Some (Boot flash otp cpu kind) → (S.state store.old).files ≡ Some files
        → file_of files flash ≡ Some f → file_of files otp ≡ Some g → HasForm Form.Flash f
        → HasForm Form.Otp g
        → is_finished result ≡ true → Chosen (content_of_files f g) cpu kind d
        → (result ≡ decided_status d)
        × IsPut (K.state out.old).bytes (decision_line d) (K.state out.new).bytes
        × ((choice : Choice) → d ≡ Start choice
        → NotBelow (content_of_files f g).otp choice.image) }

    // The second half of the headline, on told files of what lost power left. Suppose that a gated
    // session on one slot of a pair was cut before or within any erase or page program. Then a
    // normal boot names the former answer, or the finished image, which is there whole.
    ensures session { (flash otp f g : List ℕ) (cpu : Cpu) (files : List File) (c : Content)
        (w : Window) (steps : List Step) (former : Decision)
        → asked words.now ≡ Some (Boot flash otp cpu Normal)
        → (S.state store.old).files ≡ Some files
        → file_of files flash ≡ Some f → file_of files otp ≡ Some g → HasForm Form.Flash f
        → HasForm Form.Otp g
        → is_finished result ≡ true → CutSession c w cpu steps (content_of_files f g) former
        → Names former result (K.state out.old) (K.state out.new)
        ⊎ ((whole : StartsFinished (after_all c steps) (content_of_files f g) cpu)
        × Names (Start whole.choice) result (K.state out.old) (K.state out.new)) }

    // Suppose that a session writes only one slot of a pair, and is done or cut anywhere. Suppose
    // also that the former answer is not in that slot. Then a normal boot names the former answer,
    // or an image that is valid in the written slot. The cut may leave an accidental image; of the
    // table it is asked only that none came.
    ensures confined { (flash otp f g : List ℕ) (cpu : Cpu) (files : List File) (c : Content)
        (w : Window) (steps : List Step) (former : Decision)
        → asked words.now ≡ Some (Boot flash otp cpu Normal)
        → (S.state store.old).files ≡ Some files
        → file_of files flash ≡ Some f → file_of files otp ≡ Some g → HasForm Form.Flash f
        → HasForm Form.Otp g
        → is_finished result ≡ true → ConfinedSession c w cpu steps (content_of_files f g) former
        → Names former result (K.state out.old) (K.state out.new)
        ⊎ ((there : StartsThere (content_of_files f g) w cpu)
        × Names (Start there.choice) result (K.state out.old) (K.state out.new)) }

    // What the rules say, on every store: the run read some bytes, and the text that it put, its
    // files and its status are right for the command on those bytes. `Input` comes exactly where
    // an input breaks its form, or each has its form and the work refuses one.
    ensures obeys { (command : CommandLineView) → asked words.now ≡ Some command
        → is_finished result ≡ true
        → (read : List (List ℕ)) × (o : AnswerView) × Obeys command read o × (result ≡ o.status)
        × ((result ≡ Status.Input) ↔ IsRefusedCommand command read)
        × DoesRun S.state S.history K.state K.history
        (readings (inputs_of command)) read o store.old out.old store.new out.new }

    // The calls of a run in their order, how it ends, and its outcome by the bytes that were read.
    ensures course { Runs S.state S.history K.state K.history (inputs_in (asked words.now))
        (outcome_in (asked words.now))
        store.old out.old result store.new out.new }

    // On told files: the status, the text and the files are those of the arguments on whole files.
    ensures told { (files : List File) → (S.state store.old).files ≡ Some files
        → is_finished result ≡ true
        → ShowsOutcome (outcome_on (asked words.now) files) (S.state store.old) (K.state out.old)
        result (S.state store.new) (K.state out.new) }
    ensures lacking { (files : List File) → (S.state store.old).files ≡ Some files
        → LacksOne (Some files) (inputs_in (asked words.now))
        → (result ≡ Status.ReadFault) ⊎ (result ≡ Status.Memory) }

    // Each early end has its cause, and what it leaves.
    ensures words { (result ≡ Status.Words → asked words.now ≡ None)
        × (asked words.now ≡ None → (result ≡ Status.Words)
        ⊎ ((result ≡ Status.OutputFault) ⊎ (result ≡ Status.Memory))) }
    ensures read_fault { result ≡ Status.ReadFault
        → Rose (S.state store.old).read_faults (S.state store.new).read_faults
        × (out.new ≡ out.old) × ((S.state store.new).files ≡ (S.state store.old).files) }
    ensures write_fault { result ≡ Status.WriteFault
        → Rose (S.state store.old).write_faults (S.state store.new).write_faults
        × (out.new ≡ out.old) × IsCutShort (S.state store.old).files (inputs_in (asked words.now))
        (outcome_in (asked words.now)) (S.state store.new).files }
    ensures output_fault { result ≡ Status.OutputFault
        → Rose (K.state out.old).faults (K.state out.new).faults
        × IsPutShort K.state K.history (S.state store.old).files (inputs_in (asked words.now))
        (outcome_in (asked words.now))
        (S.state store.new).files out.old SinkFail.Fault out.new }
    ensures memory { result ≡ Status.Memory
        → ((out.new ≡ out.old) × (((S.state store.new).files ≡ (S.state store.old).files)
        ⊎ IsCutShort (S.state store.old).files (inputs_in (asked words.now))
        (outcome_in (asked words.now))
        (S.state store.new).files))
        ⊎ IsPutShort K.state K.history (S.state store.old).files (inputs_in (asked words.now))
        (outcome_in (asked words.now))
        (S.state store.new).files out.old SinkFail.Memory out.new }

    // Each run is finished, or one of these holds: there was no memory, or a count of faults rose.
    ensures complete { (is_finished result ≡ true) ⊎ ((result ≡ Status.Memory)
        ⊎ (Rose (S.state store.old).read_faults (S.state store.new).read_faults
        ⊎ (Rose (S.state store.old).write_faults (S.state store.new).write_faults
        ⊎ Rose (K.state out.old).faults (K.state out.new).faults))) }
    ensures steady { IsTrue (S.state store.old).steady → IsTrue (K.state out.old).steady
        → (LacksOne (S.state store.old).files (inputs_in (asked words.now)) → ⊥)
        → (is_finished result ≡ true) ⊎ (result ≡ Status.Memory) }
{
    run_asked(alloc, words, store, out)
}
