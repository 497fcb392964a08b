//! The work of `caveats`.

ghost use Rattle.std.specs.Prelude.{◌≡◌, IfOk, IsTrue};
ghost use Rattle.pico_board.specs.MemBoard.{state_of};
ghost use Rattle.sector_pool.specs.Pool.{HasFree};
ghost use Rattle.cli_boot.specs.Works.{is_fall};
ghost use Rattle.cli_course.specs.Outcomes.{answered_status, worked};
ghost use Rattle.cli_course.specs.Views.{answer_from};
ghost use Rattle.cli_caveats.specs.Works.{caveats_work};

use crate::texts::caveat_lines;
use boot_caveats::caveats_by;
use boot_reasons::gather;
use boot_rules::Decision;
use cli_course::{Answer, Status, ended};
use cli_inputs::new_pool;
use pico_board::{Board, BootKind, Cpu, MemBoard};
use sector_pool::SectorPool;
use std::alloc::{AllocError, Global};
use text_lines::decision_line;

/// The status of a decision.
fn decision_status(decision: &Decision) -> Status
    ensures { result ≡ answered_status (is_fall decision.now) }
{
    match decision {
        Decision::Start(_) => Status::Done,
        Decision::Bootsel(_) => Status::Bootsel,
    }
}

/// The answer of `caveats`: the decision, and the caveats of this answer.
fn caveats_answer<'a, B: Board>(
    alloc: Global,
    board: &B,
    pool: &mut SectorPool,
    cpu: Cpu,
    kind: BootKind,
) -> Result<Answer<'a>, AllocError>
    requires power { IsTrue (B.state board.now).powered }
    requires free { HasFree pool.old }
    ensures { IfOk result (λ answer. answer_from answer
        ≡ worked (caveats_work (B.state board.now).content cpu kind)) }
{
    let reasons = gather(board, pool, cpu, kind);
    let mut text = decision_line(alloc, &reasons.decision)?;
    let caveats = caveats_by(alloc, board, pool, cpu, kind, &reasons)?;
    let lines = caveat_lines(alloc, caveats.as_slice())?;
    text.push_str(&lines)?;
    Ok(ended(alloc, decision_status(&reasons.decision), text))
}

/// The work of `caveats` on a board. It prints the decision of a boot of this type for the
/// processor. Then it prints one line for each point of this very answer at which the chip may
/// decide otherwise. It fails only where memory is out.
pub fn caveats<'a>(
    alloc: Global,
    board: MemBoard,
    cpu: Cpu,
    kind: BootKind,
) -> Result<Answer<'a>, AllocError>
    requires power { IsTrue (state_of board).powered }
    ensures { IfOk result (λ answer. answer_from answer
        ≡ worked (caveats_work (state_of board).content cpu kind)) }
{
    let mut pool = new_pool(alloc)?;
    caveats_answer(alloc, &board, &mut pool, cpu, kind)
}
