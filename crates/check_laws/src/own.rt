//! Whether a law speaks of each loss of power in the writes of a boot, or of a buy.

ghost use Rattle.std.specs.Prelude.{◌≡◌, ◌↔◌, IsTrue, true};
ghost use Rattle.std.specs.List.{list_all};
ghost use Rattle.pico_board.specs.MemBoard.{state_of};
ghost use Rattle.sector_pool.specs.Pool.{HasFree};
ghost use Rattle.slot_choice.specs.declared.choice.Choice.{Choice as Chose};
ghost use Rattle.check_laws.specs.OwnLaws.{IsBootKept, IsBuyKept, boot_kept, is_raise, raises_own, starts_image};

use crate::triples::are_triples_apart;
use boot_rules::{Decision, decide, find_table};
use boot_sweep::is_same_started;
use image_check::Started;
use pico_board::{BootKind, Cpu, MemBoard, Step};
use sector_pool::SectorPool;

/// Whether the step raises a row.
fn is_raise(step: &Step) -> bool
    ensures { result ≡ is_raise step.now }
{
    match step {
        Step::Raise(_, _) => true,
        Step::Erase(_) | Step::Program(_, _) => false,
    }
}

/// Whether each of the steps raises a row.
fn are_raises(steps: &[Step]) -> bool
    ensures { result ≡ list_all is_raise steps.now }
{
    steps.iter().all(|step| is_raise(step))
}

/// Whether the decision starts this image.
fn starts_image(decision: &Decision, image: &Started) -> bool
    ensures { result ≡ starts_image decision.now image.now }
{
    match decision {
        Decision::Start(choice) => is_same_started(&choice.image, image),
        Decision::Bootsel(_) => false,
    }
}

/// Whether the flash has a table, and the steps of this image raise no row of a triple that an
/// image of another boot unit lists.
pub(crate) fn raises_own(
    board: &MemBoard,
    pool: &mut SectorPool,
    cpu: Cpu,
    image: &Started,
    done: &[Step],
) -> bool
    requires power { IsTrue (state_of board.now).powered }
    requires free { HasFree pool.old }
    ensures free { HasFree pool.new }
    ensures exact { result ≡ raises_own (state_of board.now).content cpu image.now done.now }
{
    find_table(board).is_some() && are_triples_apart(board, pool, cpu, image, done)
}

/// Whether a boot of this kind starts the image that a normal boot would start and raises rows
/// alone, or raises rows of its own triples alone.
pub(crate) fn boot_kept(
    board: &MemBoard,
    pool: &mut SectorPool,
    cpu: Cpu,
    kind: BootKind,
    done: &[Step],
) -> bool
    requires power { IsTrue (state_of board.now).powered }
    requires free { HasFree pool.old }
    ensures free { HasFree pool.new }
    ensures exact { result ≡ boot_kept (state_of board.now).content cpu kind done.now }
{
    match decide(board, pool, cpu, kind) {
        Decision::Start(choice) => {
            let normal = decide(board, pool, cpu, BootKind::Normal);
            (starts_image(&normal, &choice.image) && are_raises(done))
                || raises_own(board, pool, cpu, &choice.image, done)
        }
        Decision::Bootsel(_) => false,
    }
}

/// Whether the law of boots speaks of one that is made on this board and completes these steps.
pub fn is_boot_kept(
    board: &MemBoard,
    pool: &mut SectorPool,
    cpu: Cpu,
    kind: BootKind,
    done: &[Step],
) -> bool
    requires power { IsTrue (state_of board.now).powered }
    requires free { HasFree pool.old }
    ensures { (result ≡ true) ↔ IsBootKept cpu (record {
      before = (state_of board.now).content;
      kind = kind;
      done = done.now;
    }) }
{
    boot_kept(board, pool, cpu, kind, done)
}

/// Whether the law of buys speaks of the buy of this image, which is made on this board and
/// completes these steps.
pub fn is_buy_kept(
    board: &MemBoard,
    pool: &mut SectorPool,
    cpu: Cpu,
    image: &Started,
    done: &[Step],
) -> bool
    requires power { IsTrue (state_of board.now).powered }
    requires free { HasFree pool.old }
    ensures { (choice : Chose) → choice.image ≡ image.now → (result ≡ true) ↔ IsBuyKept cpu
        (record { before = (state_of board.now).content; choice = choice; done = done.now }) }
{
    raises_own(board, pool, cpu, image, done)
}
