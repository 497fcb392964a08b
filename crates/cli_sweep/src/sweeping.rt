//! The sweep of a script's session on a board in memory.

ghost use Rattle.std.specs.Prelude.{◌≡◌, IfOk, string_bytes};
ghost use Rattle.pico_board.specs.MemBoard.{state_of};
ghost use Rattle.cli_course.specs.Outcomes.{refused, worked};
ghost use Rattle.cli_course.specs.Views.{answer_from};
ghost use Rattle.cli_sweep.specs.SweepWorks.{sweep_fault, sweep_work};

use boot_script::Script;
use boot_sweep::{SweepError, sweep};
use cli_course::{Answer, refusal, told_bytes};
use cli_inputs::{Pattern, new_pool};
use pico_board::{Cpu, MemBoard};
use std::alloc::{AllocError, Global};

/// Why a session is not swept.
fn sweep_fault(alloc: Global, reason: SweepError) -> Result<String, AllocError>
    ensures { IfOk result (λ t. string_bytes t ≡ sweep_fault reason) }
{
    match reason {
        SweepError::NotConfined(k) => format!(in alloc; "not-confined {k}"),
        SweepError::NotGated(k) => format!(in alloc; "not-gated {k}"),
        SweepError::TooManySteps => format!(in alloc; "too-many-steps"),
        SweepError::FormerInSlot => format!(in alloc; "former-in-slot"),
        SweepError::Memory => format!(in alloc; "memory"),
        SweepError::TableChanged => format!(in alloc; "table-changed"),
    }
}

/// The answer that refuses a script whose session is not swept. It fails only where memory is out.
pub fn unswept<'a>(alloc: Global, name: &str, reason: SweepError) -> Result<Answer<'a>, AllocError>
    ensures { IfOk result
        (λ answer. answer_from answer ≡ refused name.now (sweep_fault reason)) }
{
    let fault = sweep_fault(alloc, reason)?;
    refusal(alloc, name, &fault)
}

/// The work of `sweep` on a board, a script and a pattern. It prints the lines of the script's
/// session for the processor, each with what a normal boot makes of its loss of power. Or it
/// refuses the script, by its argument, with the reason why the session is not swept. It fails
/// only where memory is out.
pub fn sweep_script<'a>(
    alloc: Global,
    board: MemBoard,
    cpu: Cpu,
    name: &str,
    script: Script<'_>,
    pattern: Pattern<'_>,
) -> Result<Answer<'a>, AllocError>
    ensures { IfOk result (λ answer. answer_from answer ≡ worked (sweep_work
        (state_of board).content cpu name.now script.entry.bytes.now
        pattern.entry.bytes.now)) }
{
    let (flash, otp) = board.into_parts();
    let mut pool = new_pool(alloc)?;
    let mut text = Vec::new(alloc);
    match sweep(
        alloc,
        &flash,
        &otp,
        &mut pool,
        cpu,
        script.bytes,
        pattern.bytes,
        &mut text,
    ) {
        Ok(()) => Ok(told_bytes(alloc, text)),
        Err(SweepError::Memory) => Err(AllocError),
        Err(reason) => unswept(alloc, name, reason),
    }
}
