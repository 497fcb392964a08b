//! Judges of the contents that losses of power leave.

ghost use Rattle.std.specs.Prelude.{◌≡◌, ◌+◌, ℕ, IfOk, IsTrue, OnOk, length};
ghost use Rattle.pico_board.specs.Content.{Content};
ghost use Rattle.sector_pool.specs.Keeping.{KeepsOut};
ghost use Rattle.sector_pool.specs.Pool.{HasFree};
ghost use Rattle.boot_sweep.specs.EachCut.{Compared, Remembers};

use crate::slots::{Last, Slot};
use pico_board::Bench;
use sector_pool::SectorPool;
use std::alloc::AllocError;

/// A judge of the contents that losses of power leave on a board.
pub trait Judge<B: Bench> {
    /// What it makes of a content.
    type Answer: Drop;
    /// What the answers are taken into.
    type Found;

    // It judges boards with a flash of so many bytes.
    ghost serves: { Self → ℕ → Type 0 };

    // The content may be the one before all steps.
    ghost is_first: { Self → Content → Type 0 };

    // The decisions that it knows.
    ghost compared: { Self → Compared };

    // What it makes of a content.
    ghost answer: { Self → Content → Self.Answer };

    // There is room for the answers of so many steps.
    ghost has_room: { Self.Found → ℕ → Type 0 };

    // The answers of the cuts before and within a step were taken.
    ghost takes: { Self.Found → Self.Answer → Self.Answer → Self.Found → Type 0 };

    /// What it makes of the board's content. Where the steps lie in a slot, it may recall the
    /// decision that was made last.
    fn judge(
        &self,
        board: &mut B,
        pool: &mut SectorPool,
        slot: Option<Slot>,
        last: &mut Option<Last>,
    ) -> Result<Self::Answer, AllocError>
        requires power { IsTrue (B.state board.old).powered }
        requires free { HasFree pool.old }
        requires long { serves self.now (length (B.state board.old).content.flash) }
        requires known { Remembers (compared self.now) (is_first self.now) slot last.old
            (B.state board.old).content }
        ensures exact { IfOk result (λ found. found
            ≡ answer self.now (B.state board.old).content) }
        ensures known { OnOk result (Remembers (compared self.now) (is_first self.now) slot
            last.new (B.state board.old).content) }
        ensures same { B.state board.new ≡ B.state board.old }
        ensures kept { KeepsOut pool.old pool.new };

    /// Takes the answers of the cuts before and within a step.
    fn take(
        found: &mut Self::Found,
        before: Self::Answer,
        within: Self::Answer,
    ) -> Result<(), AllocError>
        requires room { (n : ℕ) × has_room found.old (n + 1) }
        ensures taken { OnOk result (takes found.old before within found.new) }
        ensures room { OnOk result
            ((n : ℕ) → has_room found.old (n + 1) → has_room found.new n) };
}
