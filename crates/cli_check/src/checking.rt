//! The answer of `check`.

ghost use Rattle.std.specs.Prelude.{◌≡◌, IfOk};
ghost use Rattle.pico_board.specs.MemBoard.{state_of};
ghost use Rattle.boot_script.specs.Scripts.{script_events};
ghost use Rattle.boot_session.specs.Standing.{IsUnarmed};
ghost use Rattle.boot_tape.specs.Playing.{IsTraceOf};
ghost use Rattle.check_require.specs.Requires.{default_require, require_from};
ghost use Rattle.cli_course.specs.Outcomes.{verdict_status, worked};
ghost use Rattle.cli_course.specs.Views.{answer_from};
ghost use Rattle.cli_check.specs.CheckWorks.{check_work, found_work, verdict_of};
ghost use Rattle.cli_check.specs.Finding.{findings_of};

use crate::finding::findings_on;
use crate::lines::check_text;
use crate::reporting::report_of;
use boot_script::Script;
use boot_tape::{Trace, trace_on};
use check_require::{Require, Verdict, default_require, unmet, verdict_on};
use cli_course::{Answer, Status, ended, refusal};
use cli_inputs::Pattern;
use pico_board::{Cpu, MemBoard};
use std::alloc::{AllocError, Global};

/// The status of a verdict.
fn status_of(verdict: Verdict) -> Status
    ensures { result ≡ verdict_status (verdict_of verdict) }
{
    match verdict {
        Verdict::Passed => Status::Done,
        Verdict::Mixed => Status::Mixed,
        Verdict::Unbootable => Status::Unbootable,
        Verdict::Refused => Status::Refused,
        Verdict::NoEffect => Status::NoEffect,
        Verdict::Unmet => Status::Unmet,
    }
}

/// The answer on a script that completes few enough steps, by what it does to the board.
fn judged<'a>(
    alloc: Global,
    board: &MemBoard,
    cpu: Cpu,
    trace: &Trace<'_>,
    script: &Script<'_>,
    pattern: Pattern<'_>,
    ask: &Require,
) -> Result<Answer<'a>, AllocError>
    requires ready { IsUnarmed (state_of board.now) }
    requires trace { IsTraceOf (state_of board.now).content cpu
        (script_events script.now.bytes.now) trace.now }
    ensures { IfOk result (λ answer. answer_from answer
        ≡ worked (found_work (require_from ask.now) (findings_of (state_of board.now).content cpu
        (script_events script.now.bytes.now) pattern.entry.bytes.now))) }
{
    let found = findings_on(alloc, board, cpu, trace, script, pattern)?;
    let report = report_of(alloc, &found)?;
    let unmet = unmet(ask, &report);
    let text = check_text(alloc, &found, unmet.as_slice())?;
    Ok(ended(alloc, status_of(verdict_on(ask, &report)), text))
}

/// The work of `check` by what a team asks of an update, on a powered board of which no cut is
/// armed, a script and a pattern. It tells the lines of what is found and of what is not met, with
/// the status of the verdict. Where the script completes too many steps, it refuses the script by
/// its word. It fails only where memory is out.
pub fn check_asked<'a>(
    alloc: Global,
    board: MemBoard,
    cpu: Cpu,
    name: &str,
    script: Script<'_>,
    pattern: Pattern<'_>,
    ask: &Require,
) -> Result<Answer<'a>, AllocError>
    requires ready { IsUnarmed (state_of board) }
    ensures { IfOk result (λ answer. answer_from answer ≡ worked (check_work
        (state_of board).content cpu name.now script.entry.bytes.now
        pattern.entry.bytes.now (require_from ask.now))) }
{
    match trace_on(alloc, &board, cpu, &script)? {
        Some(trace) => judged(alloc, &board, cpu, &trace, &script, pattern, ask),
        None => refusal(alloc, name, "too-many-steps"),
    }
}

/// The work of `check` where a team says nothing of what it asks.
pub fn check<'a>(
    alloc: Global,
    board: MemBoard,
    cpu: Cpu,
    name: &str,
    script: Script<'_>,
    pattern: Pattern<'_>,
) -> Result<Answer<'a>, AllocError>
    requires ready { IsUnarmed (state_of board) }
    ensures { IfOk result (λ answer. answer_from answer ≡ worked (check_work
        (state_of board).content cpu name.now script.entry.bytes.now
        pattern.entry.bytes.now default_require)) }
{
    let ask = default_require(alloc)?;
    check_asked(alloc, board, cpu, name, script, pattern, &ask)
}
