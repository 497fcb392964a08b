//! The cuts of a session, each before and within each step, and what a normal boot makes of them.

ghost use Rattle.std.specs.Prelude.{◌≡◌, ◌+◌, ◌++◌, ◌∷◌, [], ℕ, ⊤, All, IfOk, IsTrue, OnOk, length, true};
ghost use Rattle.pico_board.specs.Cuts.{IsPattern};
ghost use Rattle.pico_board.specs.MemBoard.{state_of};
ghost use Rattle.pico_board.specs.Steps.{IsStepIn, after_all};
ghost use Rattle.sector_pool.specs.Keeping.{KeepsOut};
ghost use Rattle.sector_pool.specs.Pool.{HasFree};
ghost use Rattle.boot_sweep.specs.Comparing.{result_by};
ghost use Rattle.boot_sweep.specs.EachCut.{compared_with};
ghost use Rattle.boot_session.specs.Standing.{IsUnarmed};
ghost use Rattle.boot_sweep.specs.StepResults.{both_results, results_from};

use crate::cutting::each_cut;
use crate::judge::Judge;
use crate::results::{CutResult, Ends, StepResults};
use crate::slots::{Last, Slot, result_beside, slot_of};
use pico_board::{Board, MemBoard, Step};
use sector_pool::SectorPool;
use std::alloc::{AllocError, Global};

impl<Z: Board> Judge<MemBoard> for Ends<'_, Z> {
    type Answer = CutResult;

    type Found = Vec<StepResults>;

    ghost serves = { λ ends n. IsTrue (Z.state ends.board.now).powered
        × (length (Z.state ends.board.now).content.flash ≡ n) };

    ghost is_first = { λ ends c. ⊤ };

    ghost compared = { λ ends. compared_with ends.cpu ends.former ends.finished };

    ghost answer = { λ ends d. result_by ends.former ends.finished ends.cpu d
        (Z.state ends.board.now).content };

    ghost has_room = { λ found n. ⊤ };

    ghost takes = { λ old before within new. new.items
        ≡ old.items ++ both_results before within ∷ [] };

    fn judge(
        &self,
        board: &mut MemBoard,
        pool: &mut SectorPool,
        slot: Option<Slot>,
        last: &mut Option<Last>,
    ) -> Result<CutResult, AllocError> {
        Ok(result_beside(board, pool, self, slot, last))
    }

    fn take(
        found: &mut Vec<StepResults>,
        before: CutResult,
        within: CutResult,
    ) -> Result<(), AllocError>
        requires room { (n : ℕ) × ⊤ }
        ensures taken { OnOk result (found.new.items
            ≡ found.old.items ++ both_results before within ∷ []) }
        ensures room { OnOk result ((n : ℕ) → ⊤ → ⊤) }
    {
        found.push(StepResults { before, within })?;
        Ok(())
    }
}

/// The results of the steps, which the board does. Nothing is copied for a step. Where the steps
/// lie in one member of a pair, the images elsewhere are judged again only where that member's
/// image has become another one.
pub fn results_of<Z: Board>(
    alloc: Global,
    board: &mut MemBoard,
    pool: &mut SectorPool,
    ends: &Ends<'_, Z>,
    steps: &[Step],
    pattern: &[u8],
) -> Result<Vec<StepResults>, AllocError>
    requires ready { IsUnarmed (state_of board.old) }
    requires range { All (IsStepIn (length (state_of board.old).content.flash)) steps.now }
    requires pattern { IsPattern true pattern.now }
    requires free { HasFree pool.old }
    requires finished { IsTrue (Z.state ends.now.board.now).powered }
    requires long { length (Z.state ends.now.board.now).content.flash
        ≡ length (state_of board.old).content.flash }
    ensures results { IfOk result (λ results. results.items ≡ results_from
        (λ d. result_by ends.now.former ends.now.finished ends.now.cpu d
        (Z.state ends.now.board.now).content) pattern.now (state_of board.old).content steps.now) }
    ensures ready { OnOk result (IsUnarmed (state_of board.new)) }
    ensures done { OnOk result
        ((state_of board.new).content ≡ after_all (state_of board.old).content steps.now) }
    ensures kept { KeepsOut pool.old pool.new }
{
    let slot = slot_of(board, ends.cpu, steps);
    let mut results = Vec::new(alloc);
    each_cut(board, pool, ends, slot, &mut results, steps, pattern)?;
    Ok(results)
}
