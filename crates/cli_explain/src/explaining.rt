//! The work of `explain`.

ghost use Rattle.std.specs.Prelude.{◌≡◌, IfOk, IsTrue};
ghost use Rattle.pico_board.specs.MemBoard.{state_of};
ghost use Rattle.sector_pool.specs.Pool.{HasFree};
ghost use Rattle.cli_course.specs.Outcomes.{worked};
ghost use Rattle.cli_course.specs.Views.{answer_from};
ghost use Rattle.cli_explain.specs.Works.{explain_work};

use crate::texts::explain_text;
use boot_reasons::gather;
use cli_course::{Answer, told};
use cli_inputs::new_pool;
use pico_board::{Board, BootKind, Cpu, MemBoard};
use sector_pool::SectorPool;
use std::alloc::{AllocError, Global};

/// The answer of `explain`: the reasons of a boot.
fn explain_answer<'a, B: Board>(
    alloc: Global,
    board: &B,
    pool: &mut SectorPool,
    cpu: Cpu,
    kind: BootKind,
) -> Result<Answer<'a>, AllocError>
    requires power { IsTrue (B.state board.now).powered }
    requires free { HasFree pool.old }
    ensures { IfOk result (λ answer. answer_from answer
        ≡ worked (explain_work (B.state board.now).content cpu kind)) }
{
    let reasons = gather(board, pool, cpu, kind);
    let text = explain_text(alloc, &reasons)?;
    Ok(told(alloc, text))
}

/// The work of `explain` on a board with power: why a boot of this type decides for the processor
/// as it does. It fails only where memory is out.
pub fn explain<'a>(
    alloc: Global,
    board: MemBoard,
    cpu: Cpu,
    kind: BootKind,
) -> Result<Answer<'a>, AllocError>
    requires { IsTrue (state_of board).powered }
    ensures { IfOk result (λ answer. answer_from answer
        ≡ worked (explain_work (state_of board).content cpu kind)) }
{
    let mut pool = new_pool(alloc)?;
    explain_answer(alloc, &board, &mut pool, cpu, kind)
}
