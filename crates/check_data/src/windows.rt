//! The windows with data of the images that start before a script and after it.

ghost use Rattle.std.specs.Prelude.{◌≡◌, ◌+◌, ◌≤◌, ◌++◌, All, IfOk, IsTrue, OnOk, filter, length, map, not};
ghost use Rattle.std.specs.List.{list_any};
ghost use Rattle.pico_board.specs.MemBoard.{state_of};
ghost use Rattle.boot_tape.specs.Moving.{done_steps, moves_from};
ghost use Rattle.check_require.specs.declared.report.DataOwner.TheVariants.{End};
ghost use Rattle.boot_cuts.specs.Tears.{left_torn};
ghost use Rattle.check_images.specs.Touching.{touches};
ghost use Rattle.check_data.specs.Ends.{AreReady, AreWithin};
ghost use Rattle.check_data.specs.Windows.{data_in, data_windows_by, former_window, is_listed, told_window, windows_by, written_by};

use crate::found::{DataWindow, Ends};
use arrayvec::ArrayVec;
use boot_cuts::{is_left_torn, left_torn};
use boot_rules::{Decision, data_of, find_table};
use boot_tape::Move;
use check_images::touches;
use check_require::{DataOwner, DataWritten};
use pico_board::{MemBoard, Step, Window};
use std::alloc::{AllocError, Global};

/// The windows of the data of a decision on a board; a fall has none.
fn data_in(board: &MemBoard, decision: &Decision) -> ArrayVec<Window, 14>
    requires power { IsTrue (state_of board.now).powered }
    ensures exact { result.items ≡ data_in (state_of board.now).content decision.now }
    ensures inside { All (λ w. w.start + w.len ≤ length (state_of board.now).content.flash)
        result.items }
{
    match decision {
        Decision::Start(choice) => match find_table(board) {
            Some(found) => data_of(Some(&found.table), choice),
            None => data_of(None, choice),
        },
        Decision::Bootsel(_) => ArrayVec::new(),
    }
}

/// Whether the window is one of these.
fn is_listed(windows: &[Window], window: Window) -> bool
    ensures { result ≡ is_listed windows.now window }
{
    windows.iter().any(|other| window.is_same(*other))
}

/// Whether a step that completes touches the window.
fn is_touched(moves: &[Move<'_>], window: Window) -> bool
    ensures { result ≡ list_any (touches window) (done_steps (moves_from moves.now)) }
{
    for moved in moves {
        if let Move::Done(step) = moved {
            if touches(window, step) {
                return true;
            }
        }
    }
    false
}

/// Whether a window is written, by the steps that complete and those that are left torn.
fn written_by(moves: &[Move<'_>], torn: &[Step], window: Window) -> DataWritten
    ensures { result ≡ written_by (done_steps (moves_from moves.now)) torn.now window }
{
    if is_left_torn(torn, window) {
        DataWritten::Torn
    } else if is_touched(moves, window) {
        DataWritten::Yes
    } else {
        DataWritten::No
    }
}

/// What is told of a window of this owner.
fn told_window(moves: &[Move<'_>], torn: &[Step], owner: DataOwner, window: Window) -> DataWindow
    requires { torn.now ≡ left_torn (moves_from moves.now) }
    ensures { result ≡ told_window (moves_from moves.now) owner window }
{
    DataWindow {
        window,
        of: owner,
        written: written_by(moves, torn, window),
    }
}

/// What is told of a window of the former decision, where these are those of the one at the end.
fn former_window(moves: &[Move<'_>], torn: &[Step], others: &[Window], window: Window) -> DataWindow
    requires { torn.now ≡ left_torn (moves_from moves.now) }
    ensures { result ≡ former_window (moves_from moves.now) others.now window }
{
    let owner = if is_listed(others, window) {
        DataOwner::Both
    } else {
        DataOwner::Former
    };
    told_window(moves, torn, owner, window)
}

/// Adds what is told of the windows of the former decision.
fn add_former(
    told: &mut Vec<DataWindow>,
    moves: &[Move<'_>],
    torn: &[Step],
    windows: &[Window],
    others: &[Window],
) -> Result<(), AllocError>
    requires { torn.now ≡ left_torn (moves_from moves.now) }
    ensures { OnOk result (told.new.items
        ≡ told.old.items ++ map (former_window (moves_from moves.now) others.now) windows.now) }
{
    for window in windows {
        told.push(former_window(moves, torn, others, *window))?;
    }
    Ok(())
}

/// Adds what is told of the windows of the decision at the end that are none of the former one.
fn add_further(
    told: &mut Vec<DataWindow>,
    moves: &[Move<'_>],
    torn: &[Step],
    windows: &[Window],
    others: &[Window],
) -> Result<(), AllocError>
    requires { torn.now ≡ left_torn (moves_from moves.now) }
    ensures { OnOk result (told.new.items ≡ told.old.items
        ++ map (told_window (moves_from moves.now) End)
        (filter (λ w. not (is_listed others.now w)) windows.now)) }
{
    for window in windows {
        if !is_listed(others, *window) {
            told.push(told_window(moves, torn, DataOwner::End, *window))?;
        }
    }
    Ok(())
}

/// The windows of the former decision, and then each further one.
fn windows_by(
    alloc: Global,
    moves: &[Move<'_>],
    former: &[Window],
    finished: &[Window],
) -> Result<Vec<DataWindow>, AllocError>
    ensures { IfOk result (λ told. told.items
        ≡ windows_by (moves_from moves.now) former.now finished.now) }
{
    let torn = left_torn(alloc, moves)?;
    let mut told = Vec::new(alloc);
    add_former(&mut told, moves, &torn, former, finished)?;
    add_further(&mut told, moves, &torn, finished, former)?;
    Ok(told)
}

/// The windows with data of the images that normal boots start before a script and after it: whose
/// data they have, and whether the script writes them. Those of the former decision come first,
/// each list in the order of its table. It fails only where memory is out.
pub fn data_windows(
    alloc: Global,
    ends: &Ends<'_>,
    moves: &[Move<'_>],
) -> Result<Vec<DataWindow>, AllocError>
    requires ready { AreReady ends.now (length (state_of ends.now.start.now).content.flash) }
    ensures exact { IfOk result (λ told. told.items ≡ data_windows_by (moves_from moves.now)
        (state_of ends.now.start.now).content (state_of ends.now.finish.now).content
        ends.now.former.now ends.now.finished.now) }
    ensures inside { IfOk result
        (λ told. AreWithin (length (state_of ends.now.start.now).content.flash) told.items) }
{
    let former = data_in(ends.start, ends.former);
    let finished = data_in(ends.finish, ends.finished);
    let told = windows_by(alloc, moves, former.as_slice(), finished.as_slice())?;
    Ok(told)
}
