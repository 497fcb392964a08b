//! The commands: what each does on the files of its inputs.

ghost use Rattle.std.specs.Prelude.{◌≡◌, IfErr, IfOk, None, OnOk, Option, length};
ghost use Rattle.std.specs.Option.{option_or};
ghost use Rattle.pico_board.specs.MemBoard.{new_state, state_of};
ghost use Rattle.cli_course.specs.Outcomes.{AnswerView};
ghost use Rattle.cli_inputs.specs.declared.forms.Form.TheVariants as forms;
ghost use Rattle.cli_inputs.specs.Forms.{filled_flash, form_fault, otp_of};
ghost use Rattle.cli_inputs.specs.Inputs.{Tells, named_fault};
ghost use Rattle.cli_course.specs.Views.{answer_from, bytes_of_files};
ghost use Rattle.cli_words.specs.Rows.{command_from};
ghost use Rattle.cli_words.specs.declared.rows.Verb.TheVariants as verbs;
ghost use Rattle.boot_run.specs.Inputs.{inputs_of};
ghost use Rattle.boot_run.specs.Commands.{IsDone, command_outcome};

use cli_boot::{boot, data, info};
use cli_caveats::caveats;
use cli_check::{check, check_asked, cuts};
use cli_course::{Answer, told};
use cli_explain::explain;
use cli_inputs::{
    InputFail, five, four, one, read_binary, read_board, read_elf, read_image, read_otp,
    read_pattern, read_require, read_script, read_source, read_spec, read_table, read_text,
    read_uf2, three, two,
};
use cli_map::map_flash;
use cli_otp::otp;
use cli_scripts::{copy_uf2, list_script, replay, write_script};
use cli_stage::stage_image;
use cli_sweep::{chart_script, firm_image, sweep_script};
use cli_tools::{load, made_flash, pack_elf, plan_image, seal_binary, table, uf2};
use cli_words::{CommandLine, Values, Verb, help_text, release_line, usage_text};
use pico_board::MemBoard;
use std::alloc::{AllocError, Global};

/// What the work on a command's files gives.
type Done<'a> = Result<Answer<'a>, InputFail>;

/// The board of a command's flash file and OTP file.
fn board(
    alloc: Global,
    values: &Values<'_>,
    files: (Vec<u8>, Vec<u8>),
) -> Result<MemBoard, InputFail>
    ensures board { IfOk result (λ board. state_of board
        ≡ new_state (filled_flash files.0.items) (otp_of files.1.items)) }
    ensures flash { OnOk result (form_fault forms.Flash files.0.items ≡ None) }
    ensures otp { OnOk result (form_fault forms.Otp files.1.items ≡ None) }
    ensures refused { IfErr result (λ fail. (behind : Option AnswerView) → Tells fail
        (option_or
        (named_fault (record { name = values.now.flash.now; form = forms.Flash }) files.0.items)
        (option_or
        (named_fault (record { name = values.now.otp.now; form = forms.Otp }) files.1.items)
        behind))) }
{
    read_board(alloc, values.flash, files.0, values.otp, &files.1)
}

/// What a script does to a machine.
fn replay_on<'a>(alloc: Global, files: Vec<Vec<u8>>, values: &Values<'a>) -> Done<'a>
    requires { length files.items ≡ 3 }
    ensures { IsDone verbs.Replay values.now (bytes_of_files files.items) result }
{
    let (out_flash, out_otp) = (values.out_flash, values.out_otp);
    let (flash, otp, script) = three(files);
    let board = read_board(alloc, values.flash, flash, values.otp, &otp)?;
    let events = read_script(alloc, values.file, &script)?;
    Ok(replay(alloc, board, values.cpu, events, out_flash, out_otp)?)
}

/// What a normal boot makes of each loss of power in a script's session.
fn sweep_on<'a>(alloc: Global, files: Vec<Vec<u8>>, values: &Values<'a>) -> Done<'a>
    requires { length files.items ≡ 4 }
    ensures { IsDone verbs.Sweep values.now (bytes_of_files files.items) result }
{
    let (flash, otp, script, pattern) = four(files);
    let board = read_board(alloc, values.flash, flash, values.otp, &otp)?;
    let events = read_script(alloc, values.file, &script)?;
    let bytes = read_pattern(alloc, values.pattern, &pattern)?;
    Ok(sweep_script(alloc, board, values.cpu, values.file, events, bytes)?)
}

/// A picture of a sweep.
fn chart_on<'a>(alloc: Global, files: Vec<Vec<u8>>, values: &Values<'a>) -> Done<'a>
    requires { length files.items ≡ 4 }
    ensures { IsDone verbs.Chart values.now (bytes_of_files files.items) result }
{
    let file = values.file;
    let (flash, otp, script, pattern) = four(files);
    let board = read_board(alloc, values.flash, flash, values.otp, &otp)?;
    let events = read_script(alloc, file, &script)?;
    let bytes = read_pattern(alloc, values.pattern, &pattern)?;
    Ok(chart_script(alloc, board, values.cpu, file, events, bytes, values.out)?)
}

/// What a normal boot makes of each loss of power in a script.
fn cuts_on<'a>(alloc: Global, files: Vec<Vec<u8>>, values: &Values<'a>) -> Done<'a>
    requires { length files.items ≡ 4 }
    ensures { IsDone verbs.Cuts values.now (bytes_of_files files.items) result }
{
    let (flash, otp, script, pattern) = four(files);
    let board = read_board(alloc, values.flash, flash, values.otp, &otp)?;
    let events = read_script(alloc, values.file, &script)?;
    let bytes = read_pattern(alloc, values.pattern, &pattern)?;
    Ok(cuts(alloc, board, values.cpu, values.file, events, bytes)?)
}

/// Whether an update does what it is for, wherever it loses power.
fn check_on<'a>(alloc: Global, files: Vec<Vec<u8>>, values: &Values<'a>) -> Done<'a>
    requires { length files.items ≡ 4 }
    ensures { IsDone verbs.Check values.now (bytes_of_files files.items) result }
{
    let (flash, otp, script, pattern) = four(files);
    let board = read_board(alloc, values.flash, flash, values.otp, &otp)?;
    let events = read_script(alloc, values.file, &script)?;
    let bytes = read_pattern(alloc, values.pattern, &pattern)?;
    Ok(check(alloc, board, values.cpu, values.file, events, bytes)?)
}

/// Whether an update meets what a team asks of it.
fn check_asked_on<'a>(alloc: Global, files: Vec<Vec<u8>>, values: &Values<'a>) -> Done<'a>
    requires { length files.items ≡ 5 }
    ensures { IsDone verbs.CheckAsked values.now (bytes_of_files files.items) result }
{
    let (flash, otp, script, pattern, require) = five(files);
    let board = read_board(alloc, values.flash, flash, values.otp, &otp)?;
    let events = read_script(alloc, values.file, &script)?;
    let bytes = read_pattern(alloc, values.pattern, &pattern)?;
    let ask = read_require(alloc, values.require, &require)?;
    Ok(check_asked(alloc, board, values.cpu, values.file, events, bytes, &ask)?)
}

/// The sealed image of a binary.
fn seal_on<'a>(alloc: Global, files: Vec<Vec<u8>>, values: &Values<'a>) -> Done<'a>
    requires { length files.items ≡ 2 }
    ensures { IsDone verbs.Seal values.now (bytes_of_files files.items) result }
{
    let (binary, spec) = two(files);
    let bytes = read_binary(alloc, values.file, &binary)?;
    let asked = read_spec(alloc, values.spec, &spec)?;
    Ok(seal_binary(alloc, values.file, values.spec, values.out, bytes, &asked)?)
}

/// The sealed image of an ELF file.
fn elf_on<'a>(alloc: Global, files: Vec<Vec<u8>>, values: &Values<'a>) -> Done<'a>
    requires { length files.items ≡ 2 }
    ensures { IsDone verbs.Elf values.now (bytes_of_files files.items) result }
{
    let (elf, spec) = two(files);
    let bytes = read_elf(alloc, values.file, &elf)?;
    let asked = read_spec(alloc, values.spec, &spec)?;
    Ok(pack_elf(alloc, values.file, values.spec, values.out, bytes, &asked)?)
}

/// The script of a text that takes bytes of an image.
fn image_script_on<'a>(alloc: Global, files: Vec<Vec<u8>>, values: &Values<'a>) -> Done<'a>
    requires { length files.items ≡ 2 }
    ensures { IsDone verbs.WriteImageScript values.now (bytes_of_files files.items) result }
{
    let (text, image) = two(files);
    let lines = read_text(alloc, values.file, &text)?;
    let source = read_source(alloc, values.image, &image)?;
    Ok(write_script(alloc, values.file, lines, source.bytes, values.out)?)
}

/// The script that writes an image to where a download goes.
fn plan_on<'a>(alloc: Global, files: Vec<Vec<u8>>, values: &Values<'a>) -> Done<'a>
    requires { length files.items ≡ 3 }
    ensures { IsDone verbs.Plan values.now (bytes_of_files files.items) result }
{
    let (flash, otp, image) = three(files);
    let board = read_board(alloc, values.flash, flash, values.otp, &otp)?;
    let bytes = read_image(alloc, values.file, image)?;
    Ok(plan_image(alloc, board, values.cpu, values.file, values.out, &bytes)?)
}

/// The script that writes an image in ascending order.
fn load_on<'a>(alloc: Global, files: Vec<Vec<u8>>, values: &Values<'a>) -> Done<'a>
    requires { length files.items ≡ 3 }
    ensures { IsDone verbs.Load values.now (bytes_of_files files.items) result }
{
    let (flash, otp, image) = three(files);
    let board = read_board(alloc, values.flash, flash, values.otp, &otp)?;
    let bytes = read_image(alloc, values.file, image)?;
    Ok(load(alloc, board, values.cpu, values.file, values.out, &bytes)?)
}

/// The script that writes an image with the page of its first block last.
fn stage_on<'a>(alloc: Global, files: Vec<Vec<u8>>, values: &Values<'a>) -> Done<'a>
    requires { length files.items ≡ 3 }
    ensures { IsDone verbs.Stage values.now (bytes_of_files files.items) result }
{
    let (flash, otp, image) = three(files);
    let board = read_board(alloc, values.flash, flash, values.otp, &otp)?;
    let bytes = read_image(alloc, values.file, image)?;
    Ok(stage_image(alloc, board, values.cpu, values.file, values.out, &bytes)?)
}

/// What a command does on the files of its inputs: it reads each into what its form gives, in the
/// order of the arguments, and works on these. The first file that breaks its form is refused.
fn perform<'a>(alloc: Global, command: &CommandLine<'a>, files: Vec<Vec<u8>>) -> Done<'a>
    requires { length files.items ≡ length (inputs_of (command_from command.now)) }
    ensures { IsDone command.now.verb command.now.values (bytes_of_files files.items) result }
{
    let args = &command.values;
    let (cpu, kind, file, out) = (args.cpu, args.kind, args.file, args.out);
    match command.verb {
        Verb::Boot => Ok(boot(alloc, board(alloc, args, two(files))?, cpu, kind)?),
        Verb::Info => Ok(info(alloc, board(alloc, args, two(files))?, cpu)?),
        Verb::OwnedData => Ok(data(alloc, board(alloc, args, two(files))?, cpu, kind)?),
        Verb::Explain => Ok(explain(alloc, board(alloc, args, two(files))?, cpu, kind)?),
        Verb::Caveats => Ok(caveats(alloc, board(alloc, args, two(files))?, cpu, kind)?),
        Verb::Map => Ok(map_flash(alloc, board(alloc, args, two(files))?, cpu, out)?),
        Verb::Replay => replay_on(alloc, files, args),
        Verb::Sweep => sweep_on(alloc, files, args),
        Verb::Chart => chart_on(alloc, files, args),
        Verb::Cuts => cuts_on(alloc, files, args),
        Verb::Check => check_on(alloc, files, args),
        Verb::CheckAsked => check_asked_on(alloc, files, args),
        Verb::Seal => seal_on(alloc, files, args),
        Verb::Elf => elf_on(alloc, files, args),
        Verb::Firm => {
            let image = read_image(alloc, file, one(files))?;
            Ok(firm_image(alloc, file, image, cpu)?)
        }
        Verb::Table => Ok(table(alloc, &read_table(alloc, file, &one(files))?, out)?),
        Verb::OtpFile => Ok(otp(alloc, &read_otp(alloc, file, &one(files))?, out)?),
        Verb::Uf2 => {
            let image = read_image(alloc, file, one(files))?;
            Ok(uf2(alloc, file, args.family, out, &image)?)
        }
        Verb::Plan => plan_on(alloc, files, args),
        Verb::Load => load_on(alloc, files, args),
        Verb::Stage => stage_on(alloc, files, args),
        Verb::Copy => Ok(copy_uf2(alloc, read_uf2(alloc, file, &one(files))?, out)?),
        Verb::ListScript => Ok(list_script(alloc, read_script(alloc, file, &one(files))?)?),
        Verb::WriteScript => {
            let text = one(files);
            Ok(write_script(alloc, file, read_text(alloc, file, &text)?, &[], out)?)
        }
        Verb::WriteImageScript => image_script_on(alloc, files, args),
        Verb::Gen => Ok(made_flash(alloc, args.number)?),
        Verb::Usage | Verb::ShortUsage | Verb::WordUsage => Ok(told(alloc, usage_text(alloc)?)),
        Verb::Help => Ok(told(alloc, help_text(alloc, args.command)?)),
        Verb::Release => Ok(told(alloc, release_line(alloc)?)),
    }
}

/// The answer of a command on the files of its inputs: the refusal of the first that breaks its
/// form, or the work's. It fails only where memory is out.
pub fn answer<'a>(
    alloc: Global,
    command: &CommandLine<'a>,
    files: Vec<Vec<u8>>,
) -> Result<Answer<'a>, AllocError>
    requires { length files.items ≡ length (inputs_of (command_from command.now)) }
    ensures { IfOk result
        (λ answer. answer_from answer
        ≡ command_outcome (command_from command.now) (bytes_of_files files.items)) }
{
    match perform(alloc, command, files) {
        Ok(answer) => Ok(answer),
        Err(InputFail::Refused(answer)) => Ok(answer),
        Err(InputFail::Memory) => Err(AllocError),
    }
}
