//! The cuts of what a script does, one after another.

ghost use Rattle.std.specs.Prelude.{◌≡◌, ◌+◌, ◌*◌, ◌^◌, ◌≤◌, ◌∷◌, ℕ, true, IfOk, None, List, OnOk, length};
ghost use Rattle.pico_board.specs.Cuts.{IsPattern};
ghost use Rattle.pico_board.specs.MemBoard.{state_of};
ghost use Rattle.sector_pool.specs.Keeping.{KeepsOut};
ghost use Rattle.sector_pool.specs.Pool.{HasFree};
ghost use Rattle.boot_session.specs.Standing.{IsUnarmed};
ghost use Rattle.boot_sweep.specs.EachCut.{compared_with};
ghost use Rattle.boot_sweep.specs.Verdicts.{Knows};
ghost use Rattle.boot_cuts.specs.Beside.{AreMovesBeside};
ghost use Rattle.boot_cuts.specs.declared.answers.Answer.{Answer as Told};
ghost use Rattle.boot_cuts.specs.Judging.{AreEnds, judge, told_answers};
ghost use Rattle.boot_tape.specs.Moving.{AreMovesIn, done_count, moves_from};
ghost use Rattle.boot_cuts.specs.Runs.{all_runs, runs_of};

use crate::answers::Answer;
use crate::beside::answer_beside;
use crate::judging::Ends;
use crate::runs::{Run, Runs};
use boot_machine::Watched;
use boot_sweep::{Judge, Last, Slot, each_cut};
use boot_tape::Move;
use pico_board::MemBoard;
use sector_pool::SectorPool;
use std::alloc::{AllocError, Global};

impl Judge<Watched<MemBoard>> for Ends<'_> {
    type Answer = Answer;

    type Found = Runs;

    ghost serves = { AreEnds };

    ghost is_first = { λ ends c. c ≡ (state_of ends.start.now).content };

    ghost compared = { λ ends. compared_with ends.ends.cpu ends.ends.former ends.ends.finished };

    ghost answer = { judge };

    ghost has_room = { λ runs n. runs.next + 2 * n ≤ 2 ^ 31 };

    ghost takes = { λ old before within new. (answers : List Told)
        → all_runs new answers ≡ all_runs old (before ∷ within ∷ answers) };

    fn judge(
        &self,
        board: &mut Watched<MemBoard>,
        pool: &mut SectorPool,
        slot: Option<Slot>,
        last: &mut Option<Last>,
    ) -> Result<Answer, AllocError> {
        answer_beside(board, pool, self, slot, last)
    }

    fn take(found: &mut Runs, before: Answer, within: Answer) -> Result<(), AllocError>
        requires room { (n : ℕ) × (found.old.next + 2 * (n + 1) ≤ 2 ^ 31) }
        ensures taken { OnOk result ((answers : List Told) → all_runs found.new answers
            ≡ all_runs found.old (before ∷ within ∷ answers)) }
        ensures room { OnOk result ((n : ℕ) → found.old.next + 2 * (n + 1) ≤ 2 ^ 31
            → found.new.next + 2 * n ≤ 2 ^ 31) }
    {
        found.add(before)?;
        found.add(within)
    }
}

/// The runs of the cuts before and within each step that a script completes, on a board before it.
pub fn runs_on(
    alloc: Global,
    board: &mut Watched<MemBoard>,
    pool: &mut SectorPool,
    ends: &Ends<'_>,
    slot: Option<Slot>,
    moves: &[Move<'_>],
    pattern: &[u8],
) -> Result<Vec<Run>, AllocError>
    requires ready { IsUnarmed (state_of board.old) }
    requires range { AreMovesIn (length (state_of board.old).content.flash) moves.now }
    requires pattern { IsPattern true pattern.now }
    requires free { HasFree pool.old }
    requires ends { AreEnds ends.now (length (state_of board.old).content.flash) }
    requires known { Knows (state_of ends.now.start.now).content ends.now.ends.cpu
        ends.now.ends.former ends.now.ends.finished slot None (state_of board.old).content }
    requires slot { AreMovesBeside slot moves.now }
    requires few { done_count (moves_from moves.now) ≤ 262144 }
    ensures told { IfOk result (λ runs. runs.items ≡ runs_of (told_answers ends.now pattern.now
        (state_of board.old).content (moves_from moves.now))) }
    ensures kept { KeepsOut pool.old pool.new }
{
    let mut runs = Runs::begin(alloc);
    each_cut(board, pool, ends, slot, &mut runs, moves, pattern)?;
    runs.end()
}
