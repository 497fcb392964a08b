//! What is found of the cuts of a script.

ghost use Rattle.std.specs.Prelude.{◌≡◌, true, IfOk, IfSome, IsTrue, List};
ghost use Rattle.pico_board.specs.Cuts.{IsPattern};
ghost use Rattle.pico_board.specs.MemBoard.{state_of};
ghost use Rattle.sector_pool.specs.Pool.{HasFree};
ghost use Rattle.boot_script.specs.Events.{EventView};
ghost use Rattle.boot_script.specs.Scripts.{script_events};
ghost use Rattle.boot_session.specs.Standing.{IsUnarmed};
ghost use Rattle.boot_sweep.specs.EachCut.{LieIn};
ghost use Rattle.boot_sweep.specs.Verdicts.{IsSweptSlot};
ghost use Rattle.boot_cuts.specs.Beside.{AreMovesBeside};
ghost use Rattle.boot_cuts.specs.Found.{AreCutsFound, AreCutsOf};
ghost use Rattle.boot_tape.specs.Moving.{done_steps, moves_from};
ghost use Rattle.boot_tape.specs.Playing.{IsTraceOf};

use crate::images::images_of;
use crate::judging::{Ends, class_on};
use crate::runs::Run;
use crate::tears::left_torn;
use crate::walking::runs_on;
use boot_machine::Watched;
use boot_rules::{Decision, Digests, decide_by};
use boot_script::Script;
use boot_sweep::{Ends as SweepEnds, Slot, slot_of};
use boot_tape::{Move, Trace, copy_of, trace_on};
use cut_class::Class;
use pico_board::{BootKind, Cpu, MemBoard, Step};
use sector_pool::SectorPool;
use std::alloc::{AllocError, Global};

/// What is found of the cuts of a script.
#[derive(Drop)]
pub struct Cuts {
    /// The steps that the script completes.
    pub steps: Vec<Step>,
    /// The number of the event that does each of them.
    pub numbers: Vec<u32>,
    /// The runs of the losses of power before and within each of them.
    pub runs: Vec<Run>,
    /// The decision of a normal boot before the script.
    pub former: Decision,
    /// The decision of a normal boot after it.
    pub finished: Decision,
    /// The class of what the script leaves.
    pub end_: Class,
}

/// The steps that complete.
pub fn steps_of(alloc: Global, moves: &[Move<'_>]) -> Result<Vec<Step>, AllocError>
    ensures { IfOk result (λ steps. steps.items ≡ done_steps (moves_from moves.now)) }
{
    let mut steps = Vec::new(alloc);
    for moved in moves {
        if let Move::Done(step) = moved {
            steps.push(*step)?;
        }
    }
    Ok(steps)
}

/// A copy of the numbers of events.
fn numbers_of(alloc: Global, numbers: &[u32]) -> Result<Vec<u32>, AllocError>
    ensures { IfOk result (λ copy. copy.items ≡ numbers.now) }
{
    let mut copy = Vec::new(alloc);
    copy.extend_from_slice(numbers)?;
    Ok(copy)
}

/// The member of a pair in which the steps lie, where all that the script does is these steps.
pub fn slot_beside(board: &MemBoard, cpu: Cpu, steps: &[Step], moves: &[Move<'_>]) -> Option<Slot>
    requires power { IsTrue (state_of board.now).powered }
    requires steps { steps.now ≡ done_steps (moves_from moves.now) }
    ensures slot { IfSome result (IsSweptSlot (state_of board.now).content cpu steps.now) }
    ensures moves { AreMovesBeside result moves.now }
    ensures lies { LieIn result (moves_from moves.now) }
{
    if steps.len() == moves.len() {
        slot_of(board, cpu, steps)
    } else {
        None
    }
}

/// A pool with free sectors.
#[tactic(auto, using(boot_machine::proofs::BeginningLemmas::new_free))]
pub fn pool_of(alloc: Global) -> Result<SectorPool, AllocError>
    ensures { IfOk result HasFree }
{
    SectorPool::make(alloc, 2)
}

/// What is found of the cuts of what a script does to a board.
pub fn cuts_of(
    alloc: Global,
    board: MemBoard,
    cpu: Cpu,
    trace: &Trace<'_>,
    pattern: &[u8],
) -> Result<Cuts, AllocError>
    requires ready { IsUnarmed (state_of board) }
    requires trace { (events : List EventView)
        × IsTraceOf (state_of board).content cpu events trace.now }
    requires pattern { IsPattern true pattern.now }
    ensures { IfOk result (λ found. (events : List EventView)
        → IsTraceOf (state_of board).content cpu events trace.now
        → AreCutsOf (state_of board).content cpu events pattern.now found) }
{
    let mut pool = pool_of(alloc)?;
    let copy = copy_of(alloc, &board)?;
    let mut beside = Watched::new(copy);
    let torn = left_torn(alloc, &trace.moves)?;
    let mut before = Digests::none();
    let mut after = Digests::none();
    let stood = images_of(alloc, &board, &mut pool, &mut before, cpu)?;
    let left = images_of(alloc, &trace.board, &mut pool, &mut after, cpu)?;
    let kind = BootKind::Normal;
    let ends = Ends {
        start: &board,
        ends: SweepEnds {
            cpu,
            former: decide_by(&board, &mut pool, &mut before, cpu, kind),
            finished: decide_by(&trace.board, &mut pool, &mut after, cpu, kind),
            board: &trace.board,
        },
        torn: &torn,
        stood: &stood,
        left: &left,
    };
    beside.give_digests(before);
    let steps = steps_of(alloc, &trace.moves)?;
    let slot = slot_beside(&board, cpu, &steps, &trace.moves);
    let runs = runs_on(
        alloc,
        &mut beside,
        &mut pool,
        &ends,
        slot,
        &trace.moves,
        pattern,
    )?;
    let end = class_on(&trace.board, &mut pool, &ends, &ends.ends.finished);
    let numbers = numbers_of(alloc, &trace.numbers)?;
    Ok(Cuts {
        steps,
        numbers,
        runs,
        former: ends.ends.former,
        finished: ends.ends.finished,
        end_: end,
    })
}

/// What the next normal boot makes of a loss of power before and within each step of a script. The
/// steps are those that a machine completes, which starts without power on this board. None where
/// it completes more than 262,144. It fails only where memory is out.
pub fn cuts_on(
    alloc: Global,
    board: MemBoard,
    cpu: Cpu,
    script: &Script<'_>,
    pattern: &[u8],
) -> Result<Option<Cuts>, AllocError>
    requires ready { IsUnarmed (state_of board) }
    requires pattern { IsPattern true pattern.now }
    ensures { IfOk result (AreCutsFound (state_of board).content cpu
        (script_events script.now.bytes.now) pattern.now) }
{
    match trace_on(alloc, &board, cpu, script)? {
        Some(trace) => Ok(Some(cuts_of(alloc, board, cpu, &trace, pattern)?)),
        None => Ok(None),
    }
}
