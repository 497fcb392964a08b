//! The counts over all cuts of a script.

ghost use Rattle.std.specs.Prelude.{◌≡◌, true, IfOk, IsTrue, List, length, map};
ghost use Rattle.pico_board.specs.Cuts.{IsPattern};
ghost use Rattle.pico_board.specs.MemBoard.{state_of};
ghost use Rattle.sector_pool.specs.Keeping.{KeepsOut};
ghost use Rattle.sector_pool.specs.Pool.{HasFree};
ghost use Rattle.image_check.specs.Digests.{Knows};
ghost use Rattle.boot_script.specs.Events.{EventView};
ghost use Rattle.boot_session.specs.Standing.{IsUnarmed};
ghost use Rattle.boot_tape.specs.Moving.{AreMovesIn, moves_from, traced_by};
ghost use Rattle.boot_tape.specs.Playing.{IsTraceOf};
ghost use Rattle.boot_cuts.specs.Contents.{cut_contents};
ghost use Rattle.check_data.specs.Ends.{AreInside, AreWithin};
ghost use Rattle.check_counts.specs.Counted.{AreCounted};
ghost use Rattle.check_counts.specs.Judging.{IsReady, sides_by, told};
ghost use Rattle.check_counts.specs.Tallies.{tally_before, tally_of, with_all};

use crate::caveats::caveats_by;
use crate::counts::Counts;
use crate::judging::Counting;
use crate::seen::seen_first;
use boot_cuts::{Class, Ends, class_on, images_of, left_torn, pool_of, slot_beside, steps_of};
use boot_machine::Watched;
use boot_rules::{Decision, decide_by, find_table};
use boot_sweep::{Ends as SweepEnds, each_cut};
use boot_tape::{Move, Trace, copy_of};
use check_data::DataWindow;
use image_check::Digests;
use pico_board::{BootKind, Cpu, MemBoard};
use sector_pool::SectorPool;
use std::alloc::{AllocError, Global};

/// What is found of the cuts of a script.
#[derive(Drop)]
pub struct Counted {
    /// The decision of a normal boot before the script.
    pub former: Decision,
    /// The decision of a normal boot after it.
    pub finished: Decision,
    /// The class of what the script leaves.
    pub end_class: Class,
    /// What is counted over its cuts.
    pub counts: Counts,
}

/// What is remembered of the digests before a script and after it.
#[derive(Drop)]
struct EndDigests {
    before: Digests,
    after: Digests,
}

/// The counts before any cut.
fn counts_before(
    counting: &Counting<'_>,
    pool: &mut SectorPool,
    digests: &mut EndDigests,
) -> Result<Counts, AllocError>
    requires start { IsTrue (state_of counting.now.ends.start.now).powered }
    requires end_ { IsTrue (state_of counting.now.ends.ends.board.now).powered }
    requires free { HasFree pool.old }
    requires before { Knows digests.old.before (state_of counting.now.ends.start.now).content }
    requires after { Knows digests.old.after
        (state_of counting.now.ends.ends.board.now).content }
    ensures exact { IfOk result (λ counts. tally_of counts ≡ tally_before (sides_by counting.now)) }
    ensures before { Knows digests.new.before (state_of counting.now.ends.start.now).content }
    ensures kept { KeepsOut pool.old pool.new }
{
    let alloc = counting.alloc;
    let ends = &counting.ends;
    let cpu = ends.ends.cpu;
    let former = caveats_by(alloc, ends.start, pool, &mut digests.before, cpu)?;
    let end = caveats_by(alloc, ends.ends.board, pool, &mut digests.after, cpu)?;
    let seen = seen_first(alloc, &former, &end)?;
    Counts::begin(alloc, counting.windows.len(), seen)
}

/// The counts over the cuts before and within each step that a script completes.
fn counts_by(
    counting: &Counting<'_>,
    pool: &mut SectorPool,
    digests: EndDigests,
    moves: &[Move<'_>],
    pattern: &[u8],
) -> Result<Counts, AllocError>
    requires ready { IsUnarmed (state_of counting.now.ends.start.now) }
    requires range { AreMovesIn (length (state_of counting.now.ends.start.now).content.flash)
        moves.now }
    requires pattern { IsPattern true pattern.now }
    requires free { HasFree pool.old }
    requires serves { IsReady counting.now
        (length (state_of counting.now.ends.start.now).content.flash) }
    requires before { Knows digests.before (state_of counting.now.ends.start.now).content }
    requires after { Knows digests.after (state_of counting.now.ends.ends.board.now).content }
    ensures told { IfOk result (λ counts. tally_of counts
        ≡ with_all (tally_before (sides_by counting.now)) (map (told counting.now)
        (cut_contents pattern.now (traced_by (state_of counting.now.ends.start.now).content
        (moves_from moves.now))))) }
    ensures kept { KeepsOut pool.old pool.new }
{
    let board = counting.ends.start;
    let copy = copy_of(counting.alloc, board)?;
    let mut beside = Watched::new(copy);
    let steps = steps_of(counting.alloc, moves)?;
    let slot = slot_beside(board, counting.ends.ends.cpu, &steps, moves);
    let mut digests = digests;
    let mut counts = counts_before(counting, pool, &mut digests)?;
    beside.give_digests(digests.before);
    each_cut(
        &mut beside,
        pool,
        counting,
        slot,
        &mut counts,
        moves,
        pattern,
    )?;
    Ok(counts)
}

/// What is counted over the cuts of what a script does to a board. It fails only where memory is
/// out.
pub fn counts_of<'a>(
    alloc: Global,
    board: &'a MemBoard,
    cpu: Cpu,
    trace: &'a Trace<'_>,
    pattern: &[u8],
    windows: &'a [DataWindow],
    loose: &'a [u32],
) -> Result<Counted, AllocError>
    requires ready { IsUnarmed (state_of board.now) }
    requires trace { (events : List EventView)
        × IsTraceOf (state_of board.now).content cpu events trace.now }
    requires pattern { IsPattern true pattern.now }
    requires windows { AreWithin (length (state_of board.now).content.flash) windows.now }
    requires loose { AreInside (length (state_of board.now).content.flash) loose.now }
    ensures { IfOk result (λ found. (events : List EventView)
        → IsTraceOf (state_of board.now).content cpu events trace.now
        → AreCounted (state_of board.now).content cpu events pattern.now windows.now loose.now
        found) }
{
    let mut pool = pool_of(alloc)?;
    let torn = left_torn(alloc, &trace.moves)?;
    let mut before = Digests::none();
    let mut after = Digests::none();
    let stood = images_of(alloc, board, &mut pool, &mut before, cpu)?;
    let left = images_of(alloc, &trace.board, &mut pool, &mut after, cpu)?;
    let kind = BootKind::Normal;
    let counting = Counting {
        alloc,
        ends: Ends {
            start: board,
            ends: SweepEnds {
                cpu,
                former: decide_by(board, &mut pool, &mut before, cpu, kind),
                finished: decide_by(&trace.board, &mut pool, &mut after, cpu, kind),
                board: &trace.board,
            },
            torn: &torn,
            stood: &stood,
            left: &left,
        },
        table: find_table(board),
        windows,
        loose,
    };
    let digests = EndDigests { before, after };
    let counts = counts_by(&counting, &mut pool, digests, &trace.moves, pattern)?;
    let end = &counting.ends.ends.finished;
    let end_class = class_on(&trace.board, &mut pool, &counting.ends, end);
    Ok(Counted {
        former: counting.ends.ends.former,
        finished: counting.ends.ends.finished,
        end_class,
        counts,
    })
}
