//! The board after the steps that a normal boot does.

ghost use Rattle.std.specs.Prelude.{◌≡◌, IfOk, IsTrue};
ghost use Rattle.pico_board.specs.MemBoard.{state_of};
ghost use Rattle.pico_board.specs.Steps.{after_all};
ghost use Rattle.pico_board.specs.declared.boot.BootKind.TheVariants.{Normal};
ghost use Rattle.sector_pool.specs.Pool.{HasFree};
ghost use Rattle.sector_pool.specs.Keeping.{KeepsOut};
ghost use Rattle.boot_machine.specs.Boots.{decided_steps};
ghost use Rattle.boot_rules.specs.Chosen.{Chosen};
ghost use Rattle.boot_session.specs.Standing.{IsUnarmed};
ghost use Rattle.check_images.specs.Boots.{after_boot};

use boot_rules::Decision;
use boot_tape::copy_of;
use pico_board::{Cpu, MemBoard};
use sector_pool::SectorPool;
use std::alloc::{AllocError, Global};
use trial_buy::settle;

/// Does what a normal boot that decides so writes to a board on which no cut is armed.
fn settle_by(board: &mut MemBoard, pool: &mut SectorPool, cpu: Cpu, decision: &Decision)
    requires ready { IsUnarmed (state_of board.old) }
    requires lease { HasFree pool.old }
    requires chosen { Chosen (state_of board.old).content cpu Normal decision.now }
    ensures content { (state_of board.new).content ≡ after_all (state_of board.old).content
        (decided_steps (state_of board.old).content cpu decision.now) }
    ensures ready { IsUnarmed (state_of board.new) }
    ensures pool { KeepsOut pool.old pool.new }
{
    match decision {
        Decision::Start(choice) => {
            let _ = settle(board, pool, cpu, choice);
        }
        Decision::Bootsel(_) => {}
    }
}

/// A board as it is after the steps that a normal boot does on this one, which decides so. It fails
/// only where memory is out, and the pool keeps what is out.
pub fn after_boot(
    alloc: Global,
    board: &MemBoard,
    pool: &mut SectorPool,
    cpu: Cpu,
    decision: &Decision,
) -> Result<MemBoard, AllocError>
    requires power { IsTrue (state_of board.now).powered }
    requires lease { HasFree pool.old }
    requires chosen { Chosen (state_of board.now).content cpu Normal decision.now }
    ensures content { IfOk result
        (λ after. (state_of after).content ≡ after_boot (state_of board.now).content cpu) }
    ensures ready { IfOk result (λ after. IsUnarmed (state_of after)) }
    ensures pool { KeepsOut pool.old pool.new }
{
    let mut after = copy_of(alloc, board)?;
    settle_by(&mut after, pool, cpu, decision);
    Ok(after)
}
