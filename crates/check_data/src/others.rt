//! Whether an image runs on data other than those with which it stands.

ghost use Rattle.std.specs.Prelude.{◌≡◌, ◌+◌, ◌≤◌, IsTrue, length};
ghost use Rattle.pico_board.specs.MemBoard.{state_of};
ghost use Rattle.boot_cuts.specs.Classing.{is_start};
ghost use Rattle.check_data.specs.Ends.{AreReady, IsWithin};
ghost use Rattle.check_data.specs.Others.{has_other_bytes, is_by_end, is_by_former, is_of_end, is_of_former, is_other_data_by, is_whole};

use crate::found::{DataWindow, Ends};
use boot_cuts::same_range;
use boot_rules::Decision;
use boot_sweep::is_same_decision;
use check_require::{DataOwner, DataWritten};
use pico_board::{FlashView, MemBoard, Window};

/// Whether a decision is a start.
fn is_start(decision: &Decision) -> bool
    ensures { result ≡ is_start decision.now }
{
    match decision {
        Decision::Start(_) => true,
        Decision::Bootsel(_) => false,
    }
}

/// Whether the window is one of the data of the former decision.
fn is_of_former(owner: DataOwner) -> bool
    ensures { result ≡ is_of_former owner }
{
    match owner {
        DataOwner::Both | DataOwner::Former => true,
        DataOwner::End => false,
    }
}

/// Whether it is one of those of the decision at the end.
fn is_of_end(owner: DataOwner) -> bool
    ensures { result ≡ is_of_end owner }
{
    match owner {
        DataOwner::Both | DataOwner::End => true,
        DataOwner::Former => false,
    }
}

/// Whether it is not left torn.
fn is_whole(written: DataWritten) -> bool
    ensures { result ≡ is_whole written }
{
    match written {
        DataWritten::Yes | DataWritten::No => true,
        DataWritten::Torn => false,
    }
}

/// Whether the former decision speaks of the window where a boot decides so.
fn is_by_former(former: &Decision, window: &DataWindow, decision: &Decision) -> bool
    ensures { result ≡ is_by_former former.now window.now decision.now }
{
    is_of_former(window.of) && is_same_decision(decision, former)
}

/// Whether the decision at the end does.
fn is_by_end(finished: &Decision, window: &DataWindow, decision: &Decision) -> bool
    ensures { result ≡ is_by_end finished.now window.now decision.now }
{
    is_of_end(window.of) && (is_whole(window.written) && is_same_decision(decision, finished))
}

/// Whether the window has other bytes on the second board. They are compared in pieces of whole
/// sectors, up to the first that differ.
fn has_other_bytes(one: &MemBoard, two: &MemBoard, window: Window) -> bool
    requires one { IsTrue (state_of one.now).powered }
    requires two { IsTrue (state_of two.now).powered }
    requires in_one { window.start + window.len ≤ length (state_of one.now).content.flash }
    requires in_two { window.start + window.len ≤ length (state_of two.now).content.flash }
    ensures { result ≡ has_other_bytes (state_of one.now).content (state_of two.now).content
        window }
{
    let first = FlashView { board: one, window };
    let second = FlashView { board: two, window };
    !same_range(&first, &second, 0, window.len)
}

/// Whether a normal boot on a board, which decides so, runs an image on data other than those with
/// which it stands before a script or after it. The window is one of its data there, and has other
/// bytes on the board. It takes no memory.
pub fn is_other_data(
    ends: &Ends<'_>,
    window: &DataWindow,
    board: &MemBoard,
    decision: &Decision,
) -> bool
    requires power { IsTrue (state_of board.now).powered }
    requires ready { AreReady ends.now (length (state_of board.now).content.flash) }
    requires inside { IsWithin (length (state_of board.now).content.flash) window.now }
    ensures { result ≡ is_other_data_by ends.now.former.now ends.now.finished.now
        (state_of ends.now.start.now).content (state_of ends.now.finish.now).content window.now
        (state_of board.now).content decision.now }
{
    let former = is_by_former(ends.former, window, decision);
    let finished = is_by_end(ends.finished, window, decision);
    is_start(decision)
        && ((former || finished)
            && ((!former || has_other_bytes(ends.start, board, window.window))
                && (!finished || has_other_bytes(ends.finish, board, window.window))))
}
