//! Each cut of a list of steps, before and within each step.

ghost use Rattle.std.specs.Prelude.{◌≡◌, ◌+◌, ◌∷◌, ℕ, None, List, OnOk, length, map, true};
ghost use Rattle.pico_board.specs.Cuts.{IsPattern, torn_by};
ghost use Rattle.pico_board.specs.Steps.{IsStepIn, after};
ghost use Rattle.sector_pool.specs.Keeping.{KeepsOut};
ghost use Rattle.sector_pool.specs.Pool.{HasFree};
ghost use Rattle.boot_session.specs.Standing.{IsUnarmed};
ghost use Rattle.boot_sweep.specs.EachCut.{AreAllIn, AreTaken, LieIn, Remembers};
ghost use Rattle.boot_sweep.specs.Moving.{IsMoveIn, MoveView, after_move, after_moves, done_count, moved_step};
ghost use Rattle.boot_sweep.specs.Verdicts.{LiesIn};

use crate::act::Act;
use crate::judge::Judge;
use crate::moves::Move;
use crate::slots::{Last, Slot};
use crate::steps::{complete, cut};
use pico_board::{Bench, Step};
use sector_pool::SectorPool;
use std::alloc::AllocError;

/// Judges the cuts before and within a step, which the board then does. A step that is done where
/// it was torn leaves the same as where it was not.
fn judge_step<B: Bench, J: Judge<B>>(
    board: &mut B,
    pool: &mut SectorPool,
    judge: &J,
    slot: Option<Slot>,
    last: &mut Option<Last>,
    found: &mut J::Found,
    step: &Step,
    pattern: &[u8],
) -> Result<(), AllocError>
    requires ready { IsUnarmed (B.state board.old) }
    requires range { IsStepIn (length (B.state board.old).content.flash) step.now }
    requires pattern { IsPattern true pattern.now }
    requires free { HasFree pool.old }
    requires long { J.serves judge.now (length (B.state board.old).content.flash) }
    requires known { Remembers (J.compared judge.now) (J.is_first judge.now) slot last.old
        (B.state board.old).content }
    requires slot { LiesIn slot step.now }
    requires room { (n : ℕ) × J.has_room found.old (n + 1) }
    ensures ready { OnOk result (IsUnarmed (B.state board.new)) }
    ensures done { OnOk result ((B.state board.new).content
        ≡ after (B.state board.old).content step.now) }
    ensures size { OnOk result (length (B.state board.new).content.flash
        ≡ length (B.state board.old).content.flash) }
    ensures taken { OnOk result (J.takes found.old
        (J.answer judge.now (B.state board.old).content)
        (J.answer judge.now (torn_by pattern.now (B.state board.old).content step.now))
        found.new) }
    ensures known { OnOk result (Remembers (J.compared judge.now) (J.is_first judge.now) slot
        last.new (B.state board.new).content) }
    ensures room { OnOk result
        ((n : ℕ) → J.has_room found.old (n + 1) → J.has_room found.new n) }
    ensures kept { KeepsOut pool.old pool.new }
{
    let before = judge.judge(board, pool, slot, last)?;
    cut(board, step, true, pattern);
    let within = judge.judge(board, pool, slot, last)?;
    complete(board, step);
    J::take(found, before, within)
}

/// Judges the cuts of what is done to a board, which the board then does. A step that is cut on its
/// way has none.
fn judge_act<B: Bench, J: Judge<B>, A: Act>(
    board: &mut B,
    pool: &mut SectorPool,
    judge: &J,
    slot: Option<Slot>,
    last: &mut Option<Last>,
    found: &mut J::Found,
    act: &A,
    pattern: &[u8],
) -> Result<(), AllocError>
    requires ready { IsUnarmed (B.state board.old) }
    requires range { IsMoveIn (length (B.state board.old).content.flash) (A.act act.now) }
    requires pattern { IsPattern true pattern.now }
    requires free { HasFree pool.old }
    requires long { J.serves judge.now (length (B.state board.old).content.flash) }
    requires known { Remembers (J.compared judge.now) (J.is_first judge.now) slot last.old
        (B.state board.old).content }
    requires slot { LiesIn slot (moved_step (A.act act.now)) }
    requires room { (moves : List MoveView)
        × J.has_room found.old (done_count (A.act act.now ∷ moves)) }
    ensures ready { OnOk result (IsUnarmed (B.state board.new)) }
    ensures done { OnOk result ((B.state board.new).content
        ≡ after_move (B.state board.old).content (A.act act.now)) }
    ensures size { OnOk result (length (B.state board.new).content.flash
        ≡ length (B.state board.old).content.flash) }
    ensures taken { OnOk result ((moves : List MoveView) (end_ : J.Found)
        → AreTaken J.takes (J.answer judge.now) pattern.now found.new
        (after_move (B.state board.old).content (A.act act.now)) moves end_
        → AreTaken J.takes (J.answer judge.now) pattern.now found.old
        (B.state board.old).content (A.act act.now ∷ moves) end_) }
    ensures known { OnOk result (Remembers (J.compared judge.now) (J.is_first judge.now) slot
        last.new (B.state board.new).content) }
    ensures room { OnOk result ((moves : List MoveView)
        → J.has_room found.old (done_count (A.act act.now ∷ moves))
        → J.has_room found.new (done_count moves)) }
    ensures kept { KeepsOut pool.old pool.new }
{
    match act.as_move() {
        Move::Done(step) => judge_step(board, pool, judge, slot, last, found, &step, pattern),
        Move::Torn(step, within, own) => {
            cut(board, &step, within, own);
            Ok(())
        }
    }
}

/// Judges each cut of a list of what is done to a board, which the board then does: the loss of
/// power before each step that completes, and within it, which leaves what the pattern says. The
/// answers are taken step by step. Nothing is copied: where a step was torn, it is done over what
/// that left. Where the steps lie in one member of a pair, the images elsewhere need be judged
/// again only where that member's image has become another one. It fails only where memory is out,
/// or where the judge fails.
pub fn each_cut<B: Bench, J: Judge<B>, A: Act>(
    board: &mut B,
    pool: &mut SectorPool,
    judge: &J,
    slot: Option<Slot>,
    found: &mut J::Found,
    acts: &[A],
    pattern: &[u8],
) -> Result<(), AllocError>
    requires ready { IsUnarmed (B.state board.old) }
    requires range { AreAllIn (length (B.state board.old).content.flash) (map A.act acts.now) }
    requires pattern { IsPattern true pattern.now }
    requires free { HasFree pool.old }
    requires long { J.serves judge.now (length (B.state board.old).content.flash) }
    requires known { Remembers (J.compared judge.now) (J.is_first judge.now) slot None
        (B.state board.old).content }
    requires slot { LieIn slot (map A.act acts.now) }
    requires room { J.has_room found.old (done_count (map A.act acts.now)) }
    ensures ready { OnOk result (IsUnarmed (B.state board.new)) }
    ensures done { OnOk result ((B.state board.new).content
        ≡ after_moves (B.state board.old).content (map A.act acts.now)) }
    ensures taken { OnOk result (AreTaken J.takes (J.answer judge.now) pattern.now found.old
        (B.state board.old).content (map A.act acts.now) found.new) }
    ensures kept { KeepsOut pool.old pool.new }
{
    let mut last = None;
    for act in acts {
        judge_act(board, pool, judge, slot, &mut last, found, act, pattern)?;
    }
    Ok(())
}
