//! What is told of the contents that cuts leave, one after another.

ghost use Rattle.std.specs.Prelude.{◌≡◌, ℕ, ⊤, IfOk, IsTrue, OnOk, length, map, not};
ghost use Rattle.pico_board.specs.MemBoard.{state_of};
ghost use Rattle.sector_pool.specs.Keeping.{KeepsOut};
ghost use Rattle.sector_pool.specs.Pool.{HasFree};
ghost use Rattle.boot_sweep.specs.EachCut.{compared_with};
ghost use Rattle.boot_cuts.specs.Judging.{judge};
ghost use Rattle.check_counts.specs.Facts.{has_other_table, is_on_other_data, is_raising};
ghost use Rattle.check_counts.specs.Judging.{IsReady, sides_by, told};
ghost use Rattle.check_counts.specs.Tallies.{tally_of, with_facts};

use crate::caveats::caveats_on;
use crate::counts::Counts;
use crate::facts::CutFacts;
use boot_cuts::{Answer, Class, Ends, is_same_class};
use boot_machine::Watched;
use boot_rules::{Found, find_table};
use boot_sweep::{Judge, Last, Slot};
use check_data::{DataWindow, Ends as DataEnds, is_other_data, starts_early};
use check_images::{boot_raises, is_same_found};
use pico_board::MemBoard;
use sector_pool::SectorPool;
use std::alloc::{AllocError, Global};

/// What cuts are judged beside.
#[derive(Drop)]
pub struct Counting<'a> {
    /// What facts are made in.
    pub alloc: Global,
    /// Where the script leads from and to.
    pub ends: Ends<'a>,
    /// The table before the script.
    pub table: Option<Found>,
    /// The windows with data.
    pub windows: &'a [DataWindow],
    /// The loose bytes of the image that starts after the script.
    pub loose: &'a [u32],
}

/// The two ends, as data is judged beside them.
fn data_ends<'a>(ends: &'a Ends<'_>) -> DataEnds<'a>
    ensures start { result.start.now ≡ ends.now.start.now }
    ensures finish { result.finish.now ≡ ends.now.ends.board.now }
    ensures former { result.former.now ≡ ends.now.ends.former }
    ensures finished { result.finished.now ≡ ends.now.ends.finished }
{
    DataEnds {
        start: ends.start,
        finish: ends.ends.board,
        former: &ends.ends.former,
        finished: &ends.ends.finished,
    }
}

/// Whether an image runs on other data than its own, for each window with data.
fn other_data_on(
    counting: &Counting<'_>,
    board: &MemBoard,
    answer: &Answer,
) -> Result<Vec<bool>, AllocError>
    requires power { IsTrue (state_of board.now).powered }
    requires ready { IsReady counting.now (length (state_of board.now).content.flash) }
    requires answer { answer.now ≡ judge counting.now.ends (state_of board.now).content }
    ensures { IfOk result (λ each. each.items
        ≡ map (λ w. is_on_other_data (sides_by counting.now) w (state_of board.now).content)
        counting.now.windows.now) }
{
    let ends = data_ends(&counting.ends);
    let mut each = Vec::new(counting.alloc);
    for window in counting.windows {
        each.push(is_other_data(&ends, window, board, &answer.decision))?;
    }
    Ok(each)
}

/// Whether a cut is mixed, and a normal boot on what it leaves raises a row.
fn is_raising(counting: &Counting<'_>, board: &MemBoard, answer: &Answer) -> bool
    requires power { IsTrue (state_of board.now).powered }
    requires answer { answer.now ≡ judge counting.now.ends (state_of board.now).content }
    ensures { result ≡ is_raising (sides_by counting.now) (state_of board.now).content }
{
    is_same_class(Class::Mixed, answer.class) && boot_raises(board, &answer.decision) > 0
}

/// Whether the table of a board is not the one before the script.
fn has_other_table(counting: &Counting<'_>, board: &MemBoard) -> bool
    requires power { IsTrue (state_of board.now).powered }
    requires ready { IsReady counting.now (length (state_of board.now).content.flash) }
    ensures { result ≡ has_other_table (state_of counting.now.ends.start.now).content
        (state_of board.now).content }
{
    let found = find_table(board);
    !is_same_found(found.as_ref(), counting.table.as_ref())
}

/// What is told of a board of which a normal boot makes this.
fn facts_by(
    counting: &Counting<'_>,
    board: &mut Watched<MemBoard>,
    pool: &mut SectorPool,
    answer: Answer,
) -> Result<CutFacts, AllocError>
    requires power { IsTrue (state_of board.old).powered }
    requires free { HasFree pool.old }
    requires ready { IsReady counting.now (length (state_of board.old).content.flash) }
    requires answer { answer ≡ judge counting.now.ends (state_of board.old).content }
    ensures exact { IfOk result
        (λ facts. facts ≡ told counting.now (state_of board.old).content) }
    ensures same { board.new ≡ board.old }
    ensures kept { KeepsOut pool.old pool.new }
{
    let here = board.board();
    let ends = data_ends(&counting.ends);
    let early = starts_early(&ends, counting.loose, here, &answer.decision);
    let other_data = other_data_on(counting, here, &answer)?;
    let raises = is_raising(counting, here, &answer);
    let other_table = has_other_table(counting, here);
    let caveats = caveats_on(counting.alloc, board, pool, counting.ends.ends.cpu)?;
    Ok(CutFacts::new(answer, early, other_data, raises, other_table, caveats))
}

impl Judge<Watched<MemBoard>> for Counting<'_> {
    type Answer = CutFacts;

    type Found = Counts;

    ghost serves = { IsReady };

    ghost is_first = { λ counting c. c ≡ (state_of counting.ends.start.now).content };

    ghost compared = { λ counting. compared_with counting.ends.ends.cpu
        counting.ends.ends.former counting.ends.ends.finished };

    ghost answer = { told };

    ghost has_room = { λ counts n. ⊤ };

    ghost takes = { λ old before within new. tally_of new
        ≡ with_facts (with_facts (tally_of old) before) within };

    fn judge(
        &self,
        board: &mut Watched<MemBoard>,
        pool: &mut SectorPool,
        slot: Option<Slot>,
        last: &mut Option<Last>,
    ) -> Result<CutFacts, AllocError> {
        let answer = self.ends.judge(board, pool, slot, last)?;
        facts_by(self, board, pool, answer)
    }

    fn take(found: &mut Counts, before: CutFacts, within: CutFacts) -> Result<(), AllocError>
        ensures taken { OnOk result (tally_of found.new
            ≡ with_facts (with_facts (tally_of found.old) before) within) }
        ensures room { OnOk result ((n : ℕ) → ⊤ → ⊤) }
    {
        found.add(&before)?;
        found.add(&within)
    }
}
