//! Boots.

ghost use Rattle.std.specs.Prelude.{◌≡◌, IfOk, IfSome, IsTrue, OnOk, is_ok, true};
ghost use Rattle.pico_board.specs.Board.{DoesAll};
ghost use Rattle.sector_pool.specs.Keeping.{KeepsOut};
ghost use Rattle.sector_pool.specs.Pool.{HasFree};
ghost use Rattle.pico_board.specs.declared.boot.BootKind.{BootKind};
ghost use Rattle.boot_rules.specs.Choosing.{decision_in};
ghost use Rattle.boot_rules.specs.Chosen.{Chosen};
ghost use Rattle.boot_machine.specs.Boots.{choice_in, decided_steps};
ghost use Rattle.boot_machine.specs.Standing.{IsHeldChoice};

use crate::watched::Watched;
use boot_rules::Decision;
use pico_board::{Board, BootKind, Cpu, PowerLost};
use sector_pool::SectorPool;

/// Does what a decision on the content writes.
fn carry_out<B: Board>(
    board: &mut Watched<B>,
    pool: &mut SectorPool,
    cpu: Cpu,
    decision: &Decision,
) -> Result<(), PowerLost>
    requires power { IsTrue (B.state board.old).powered }
    requires lease { HasFree pool.old }
    requires chosen { (kind : BootKind)
        × Chosen (B.state board.old).content cpu kind decision.now }
    ensures steps { DoesAll B.state B.history board.old
        (decided_steps (B.state board.old).content cpu decision.now) (is_ok result) board.new }
    ensures held { OnOk result (IfSome (choice_in decision.now)
        (IsHeldChoice (B.state board.new).content cpu)) }
    ensures kept { KeepsOut pool.old pool.new }
{
    match decision {
        Decision::Start(choice) => {
            board.settle(pool, cpu, choice)?;
            Ok(())
        }
        Decision::Bootsel(_) => Ok(()),
    }
}

/// Decides a boot, and does what the decision writes.
pub fn boot<B: Board>(
    board: &mut Watched<B>,
    pool: &mut SectorPool,
    cpu: Cpu,
    kind: BootKind,
) -> Result<Decision, PowerLost>
    requires power { IsTrue (B.state board.old).powered }
    requires lease { HasFree pool.old }
    ensures steps { DoesAll B.state B.history board.old (decided_steps
        (B.state board.old).content cpu (decision_in (B.state board.old).content cpu kind))
        (is_ok result) board.new }
    ensures decision { IfOk result (λ decision. decision
        ≡ decision_in (B.state board.old).content cpu kind) }
    ensures held { IfOk result (λ decision.
        IfSome (choice_in decision) (IsHeldChoice (B.state board.new).content cpu)) }
    ensures kept { KeepsOut pool.old pool.new }
{
    let decision = board.decide(pool, cpu, kind);
    carry_out(board, pool, cpu, &decision)?;
    Ok(decision)
}
