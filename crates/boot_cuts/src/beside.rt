//! What a normal boot makes of a cut while the steps lie in one member of a pair. The decision
//! then depends on that member's image alone. It is made anew only where that has become another
//! one.

ghost use Rattle.std.specs.Prelude.{◌≡◌, ◌+◌, true, IfOk, IsTrue, OnOk, length};
ghost use Rattle.pico_board.specs.declared.boot.BootKind.TheVariants.{Normal};
ghost use Rattle.pico_board.specs.Content.{AreApart};
ghost use Rattle.pico_board.specs.MemBoard.{state_of};
ghost use Rattle.pico_board.specs.Sessions.{SameButWindow};
ghost use Rattle.sector_pool.specs.Keeping.{KeepsOut};
ghost use Rattle.sector_pool.specs.Pool.{HasFree};
ghost use Rattle.boot_rules.specs.Choosing.{decision_in};
ghost use Rattle.boot_sweep.specs.Verdicts.{Knows, verdict_by};
ghost use Rattle.boot_cuts.specs.Beside.{StartsApart};
ghost use Rattle.boot_cuts.specs.Judging.{AreEnds, judge};

use crate::answers::Answer;
use crate::judging::{Ends, answer_on, class_on};
use boot_machine::Watched;
use boot_rules::Decision;
use boot_sweep::{Last, Slot, Verdict, verdict_beside};
use cut_class::Class;
use pico_board::{MemBoard, Window};
use sector_pool::SectorPool;
use std::alloc::AllocError;

/// Whether the windows share no byte.
fn are_apart(one: Window, two: Window) -> bool
    ensures { result ≡ true → AreApart one two }
{
    u64::from(one.start) + u64::from(one.len) <= u64::from(two.start)
        || u64::from(two.start) + u64::from(two.len) <= u64::from(one.start)
}

/// Whether the decision is a start of an image apart from the slot, or none.
fn starts_apart(slot: Slot, decision: &Decision) -> bool
    ensures { result ≡ true → StartsApart slot.window decision.now }
{
    match decision {
        Decision::Start(choice) => are_apart(slot.window, choice.image.window),
        Decision::Bootsel(_) => true,
    }
}

/// The class of the former decision, on a board that differs from the one before the script in the
/// slot alone.
fn former_class(board: &MemBoard, pool: &mut SectorPool, ends: &Ends<'_>, slot: Slot) -> Class
    requires power { IsTrue (state_of board.now).powered }
    requires free { HasFree pool.old }
    requires ends { AreEnds ends.now (length (state_of board.now).content.flash) }
    requires same { SameButWindow slot.window (state_of ends.now.start.now).content
        (state_of board.now).content }
    requires decided { decision_in (state_of board.now).content ends.now.ends.cpu Normal
        ≡ ends.now.ends.former }
    ensures exact { result ≡ (judge ends.now (state_of board.now).content).class }
    ensures kept { KeepsOut pool.old pool.new }
{
    if starts_apart(slot, &ends.ends.former) {
        Class::Former
    } else {
        class_on(board, pool, ends, &ends.ends.former)
    }
}

/// A copy of a decision.
fn copy_of_decision(decision: &Decision) -> Result<Decision, AllocError>
    ensures { IfOk result (λ copy. copy ≡ decision.now) }
{
    decision.clone()
}

/// What a normal boot makes of a board, whose decision is this one beside the others.
fn answer_by(
    board: &mut Watched<MemBoard>,
    pool: &mut SectorPool,
    ends: &Ends<'_>,
    slot: Slot,
    verdict: Verdict,
) -> Result<Answer, AllocError>
    requires power { IsTrue (state_of board.old).powered }
    requires free { HasFree pool.old }
    requires ends { AreEnds ends.now (length (state_of board.old).content.flash) }
    requires same { SameButWindow slot.window (state_of ends.now.start.now).content
        (state_of board.old).content }
    requires verdict { verdict ≡ verdict_by ends.now.ends.former ends.now.ends.finished
        (decision_in (state_of board.old).content ends.now.ends.cpu Normal) }
    ensures exact { IfOk result (λ answer. answer
        ≡ judge ends.now (state_of board.old).content) }
    ensures same { board.new ≡ board.old }
    ensures kept { KeepsOut pool.old pool.new }
{
    match verdict {
        Verdict::Before => Ok(Answer {
            class: former_class(board.board(), pool, ends, slot),
            decision: copy_of_decision(&ends.ends.former)?,
        }),
        Verdict::After => Ok(Answer {
            class: class_on(board.board(), pool, ends, &ends.ends.finished),
            decision: copy_of_decision(&ends.ends.finished)?,
        }),
        Verdict::Other => Ok(answer_on(board, pool, ends)),
    }
}

/// What a normal boot makes of a board, where the steps lie in this slot, if in one. A digest is
/// made only where the board does not remember it.
pub fn answer_beside(
    board: &mut Watched<MemBoard>,
    pool: &mut SectorPool,
    ends: &Ends<'_>,
    slot: Option<Slot>,
    last: &mut Option<Last>,
) -> Result<Answer, AllocError>
    requires power { IsTrue (state_of board.old).powered }
    requires free { HasFree pool.old }
    requires ends { AreEnds ends.now (length (state_of board.old).content.flash) }
    requires known { Knows (state_of ends.now.start.now).content ends.now.ends.cpu
        ends.now.ends.former ends.now.ends.finished slot last.old (state_of board.old).content }
    ensures exact { IfOk result (λ answer. answer
        ≡ judge ends.now (state_of board.old).content) }
    ensures known { OnOk result (Knows (state_of ends.now.start.now).content ends.now.ends.cpu
        ends.now.ends.former ends.now.ends.finished slot last.new
        (state_of board.old).content) }
    ensures same { board.new ≡ board.old }
    ensures kept { KeepsOut pool.old pool.new }
{
    match slot {
        Some(slot) => {
            let mut digests = board.take_digests();
            let here = board.board();
            let verdict = verdict_beside(here, pool, &mut digests, &ends.ends, slot, last);
            board.give_digests(digests);
            answer_by(board, pool, ends, slot, verdict)
        }
        None => Ok(answer_on(board, pool, ends)),
    }
}
