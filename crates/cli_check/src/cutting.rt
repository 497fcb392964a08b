//! The cuts of a script on a board in memory.

ghost use Rattle.std.specs.Prelude.{◌≡◌, ◌∷◌, IfOk, codes};
ghost use Rattle.pico_board.specs.MemBoard.{state_of};
ghost use Rattle.boot_session.specs.Standing.{IsUnarmed};
ghost use Rattle.cli_course.specs.Outcomes.{ended, refused, verdict_status, worked};
ghost use Rattle.cli_course.specs.Views.{answer_from};
ghost use Rattle.cli_check.specs.CutsTexts.{cuts_text};
ghost use Rattle.cli_check.specs.CutsWorks.{cuts_work, has_any, run_answers, verdict_of};

use crate::cut_lines::cuts_text;
use boot_cuts::{Class, Cuts, Run, cuts_on, is_same_class};
use boot_script::Script;
use cli_course::{Answer, Status, ended, refusal};
use cli_inputs::Pattern;
use pico_board::{Cpu, MemBoard};
use std::alloc::{AllocError, Global};

/// Whether one of the runs has an answer of this class.
fn has_any(class: Class, runs: &[Run]) -> bool
    ensures { result ≡ has_any class (run_answers runs.now) }
{
    for run in runs {
        if is_same_class(class, run.answer.class) {
            return true;
        }
    }
    false
}

/// Whether one of the lines has an answer of this class.
fn has_line(class: Class, found: &Cuts) -> bool
    ensures { result ≡ has_any class (record {
      class = found.now.end_;
      decision = found.now.finished;
    } ∷ run_answers found.now.runs.items) }
{
    is_same_class(class, found.end_) || has_any(class, &found.runs)
}

/// The status of the lines.
fn status_of(found: &Cuts) -> Status
    ensures { result ≡ verdict_status (verdict_of (record {
      class = found.now.end_;
      decision = found.now.finished;
    } ∷ run_answers found.now.runs.items)) }
{
    if has_line(Class::Mixed, found) {
        Status::Mixed
    } else if has_line(Class::Bootsel, found) {
        Status::Unbootable
    } else {
        Status::Done
    }
}

/// The answer that tells what was found.
fn told_cuts<'a>(alloc: Global, found: &Cuts) -> Result<Answer<'a>, AllocError>
    ensures { IfOk result (λ answer. answer_from answer ≡ ended (verdict_status (verdict_of
        (record { class = found.now.end_; decision = found.now.finished }
        ∷ run_answers found.now.runs.items)))
        (cuts_text found.now.steps.items found.now.numbers.items found.now.runs.items
        found.now.end_ found.now.finished)) }
{
    let text = cuts_text(alloc, found)?;
    Ok(ended(alloc, status_of(found), text))
}

/// The answer that refuses a script whose trace is too long.
fn too_long<'a>(alloc: Global, name: &str) -> Result<Answer<'a>, AllocError>
    ensures { IfOk result (λ answer. answer_from answer
        ≡ refused name.now (codes "too-many-steps")) }
{
    refusal(alloc, name, "too-many-steps")
}

/// The work of `cuts` on a board, a script and a pattern. It tells what the next normal boot makes
/// of a loss of power before and within each step that the script completes. A line tells as many
/// cuts as have one class and one decision, and the lines decide the status. It fails only where
/// memory is out.
pub fn cuts<'a>(
    alloc: Global,
    board: MemBoard,
    cpu: Cpu,
    script_name: &str,
    script: Script<'_>,
    pattern: Pattern<'_>,
) -> Result<Answer<'a>, AllocError>
    requires ready { IsUnarmed (state_of board) }
    ensures { IfOk result (λ answer. answer_from answer ≡ worked (cuts_work
        (state_of board).content cpu script_name.now script.entry.bytes.now
        pattern.entry.bytes.now)) }
{
    match cuts_on(alloc, board, cpu, &script, pattern.bytes)? {
        Some(found) => told_cuts(alloc, &found),
        None => too_long(alloc, script_name),
    }
}
