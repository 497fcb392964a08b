//! The caveats of the contents that cuts leave.

ghost use Rattle.std.specs.Prelude.{◌≡◌, IfOk, IsTrue};
ghost use Rattle.pico_board.specs.declared.boot.BootKind.TheVariants.{Normal};
ghost use Rattle.pico_board.specs.MemBoard.{state_of};
ghost use Rattle.sector_pool.specs.Keeping.{KeepsOut};
ghost use Rattle.sector_pool.specs.Pool.{HasFree};
ghost use Rattle.image_check.specs.Digests.{Knows};
ghost use Rattle.boot_caveats.specs.Caveats.{caveats_in};

use boot_caveats::{Caveat, caveats_with};
use boot_machine::Watched;
use boot_reasons::gather_by;
use image_check::Digests;
use pico_board::{BootKind, Cpu, MemBoard};
use sector_pool::SectorPool;
use std::alloc::{AllocError, Global};

/// The caveats of a normal boot on a board. A digest is made only where it is not remembered.
pub(crate) fn caveats_by(
    alloc: Global,
    board: &MemBoard,
    pool: &mut SectorPool,
    digests: &mut Digests,
    cpu: Cpu,
) -> Result<Vec<Caveat>, AllocError>
    requires power { IsTrue (state_of board.now).powered }
    requires free { HasFree pool.old }
    requires knows { Knows digests.old (state_of board.now).content }
    ensures exact { IfOk result
        (λ list. list.items ≡ caveats_in (state_of board.now).content cpu Normal) }
    ensures knows { Knows digests.new (state_of board.now).content }
    ensures kept { KeepsOut pool.old pool.new }
{
    let kind = BootKind::Normal;
    let reasons = gather_by(board, pool, digests, cpu, kind);
    caveats_with(alloc, board, pool, digests, cpu, kind, &reasons)
}

/// The caveats of a normal boot on the board. A digest is made only where the board does not
/// remember it.
pub(crate) fn caveats_on(
    alloc: Global,
    board: &mut Watched<MemBoard>,
    pool: &mut SectorPool,
    cpu: Cpu,
) -> Result<Vec<Caveat>, AllocError>
    requires power { IsTrue (state_of board.old).powered }
    requires free { HasFree pool.old }
    ensures exact { IfOk result
        (λ list. list.items ≡ caveats_in (state_of board.old).content cpu Normal) }
    ensures same { board.new ≡ board.old }
    ensures kept { KeepsOut pool.old pool.new }
{
    let mut digests = board.take_digests();
    let caveats = caveats_by(alloc, board.board(), pool, &mut digests, cpu);
    board.give_digests(digests);
    caveats
}
