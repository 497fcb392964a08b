//! What is to be looked up of the image that a boot starts.

ghost use Rattle.std.specs.Prelude.{◌≡◌, ◌+◌, ◌*◌, ◌<◌, ◌≤◌, ◌^◌, ◌++◌, IsTrue, OnOk, find, length, option_map};
ghost use Rattle.otp_roll.specs.Rows.{AreRollbackRows, majority};
ghost use Rattle.boot_rules.specs.Picking.{IsInside};
ghost use Rattle.boot_caveats.specs.StartCaveats.{has_gap, is_filled, is_full, row_caveats, started_rows, table_in_image};
ghost use Rattle.slot_caveats.specs.Listing.{caveat_if};
ghost use Rattle.slot_caveats.specs.declared.caveat.Caveat.TheVariants.{RollbackFull, RollbackGap};
ghost use Rattle.boot_caveats.specs.Reads.{HasReadableStart};

use crate::reading::table_place;
use boot_rules::{Decision, Started};
use pico_board::{Board, FlashView, Window};
use slot_caveats::{Caveat, add};
use std::alloc::AllocError;

/// The loop of the image that starts has a table.
pub(crate) fn table_in_image<B: Board>(board: &B, decision: &Decision) -> Option<Caveat>
    requires power { IsTrue (B.state board.now).powered }
    requires start { HasReadableStart (length (B.state board.now).content.flash) decision.now }
    ensures { result ≡ table_in_image (B.state board.now).content decision.now }
{
    match decision {
        Decision::Start(choice) => {
            let window = choice.image.window;
            match table_place(&FlashView { board, window }) {
                Some(at) => Some(Caveat::TableInImage(window, at)),
                None => None,
            }
        }
        Decision::Bootsel(_) => None,
    }
}

/// The bits that at least two of the three rows from `row` on have.
fn majority<B: Board>(board: &B, row: u16) -> u32
    requires power { IsTrue (B.state board.now).powered }
    requires range { row + 2 < 4096 }
    ensures value { result ≡ majority (B.state board.now).content.otp row }
    ensures bits { result < 2 ^ 24 }
{
    let first = board.otp_read(row);
    let second = board.otp_read(row + 1);
    let third = board.otp_read(row + 2);
    first & second | (first & third | second & third)
}

/// Whether a value of a row is one less than a power of two.
fn is_filled(value: u32) -> bool
    requires { value < 2 ^ 24 }
    ensures { result ≡ is_filled value }
{
    for place in 0..25u32 {
        if value + 1 == 1 << place {
            return true;
        }
    }
    false
}

/// Whether the majority of a listed row is not one less than a power of two.
fn has_gap<B: Board>(board: &B, row: u16) -> bool
    requires power { IsTrue (B.state board.now).powered }
    requires range { row + 2 < 4096 }
    ensures { result ≡ has_gap (B.state board.now).content.otp row }
{
    !is_filled(majority(board, row))
}

/// The first listed row whose majority is not one less than a power of two.
fn first_gap<B: Board>(board: &B, rows: &[u16]) -> Option<u16>
    requires power { IsTrue (B.state board.now).powered }
    requires rows { AreRollbackRows rows.now }
    ensures { result ≡ find (has_gap (B.state board.now).content.otp) rows.now }
{
    for row in rows {
        if has_gap(board, *row) {
            return Some(*row);
        }
    }
    None
}

/// Whether a rollback version raises every bit of so many rows, which have 24 bits each.
fn is_full(rollback: Option<u16>, count: u32) -> bool
    requires { count ≤ 32 }
    ensures { result ≡ is_full rollback count }
{
    match rollback {
        Some(version) => u32::from(version) == 24 * count,
        None => false,
    }
}

/// The caveat of a rollback version that raises every bit of its rows.
fn rollback_full(window: Window, full: bool) -> Option<Caveat>
    ensures { result ≡ caveat_if full (RollbackFull window) }
{
    if full {
        Some(Caveat::RollbackFull(window))
    } else {
        None
    }
}

/// The first gap of an image's rows.
fn rollback_gap<B: Board>(board: &B, rows: &[u16]) -> Option<Caveat>
    requires power { IsTrue (B.state board.now).powered }
    requires rows { AreRollbackRows rows.now }
    ensures { result ≡ option_map RollbackGap
        (find (has_gap (B.state board.now).content.otp) rows.now) }
{
    match first_gap(board, rows) {
        Some(row) => Some(Caveat::RollbackGap(row)),
        None => None,
    }
}

/// Adds what is to be looked up of the rows of an image.
fn add_image_rows<B: Board>(
    board: &B,
    image: &Started,
    list: &mut Vec<Caveat>,
) -> Result<(), AllocError>
    requires power { IsTrue (B.state board.now).powered }
    requires rows { AreRollbackRows image.now.rows.items }
    ensures { OnOk result (list.new.items ≡ list.old.items
        ++ row_caveats (B.state board.now).content.otp image.now.window image.now.rollback
        image.now.rows.items) }
{
    let rows = image.rows.as_slice();
    if rows.is_empty() {
        return Ok(());
    }
    add(list, Some(Caveat::RollbackRows(image.window)))?;
    let full = is_full(image.rollback, rows.len() as u32);
    add(list, rollback_full(image.window, full))?;
    add(list, rollback_gap(board, rows))
}

/// Adds what is to be looked up of the rows of the image that starts.
pub(crate) fn add_rows<B: Board>(
    board: &B,
    decision: &Decision,
    list: &mut Vec<Caveat>,
) -> Result<(), AllocError>
    requires power { IsTrue (B.state board.now).powered }
    requires start { HasReadableStart (length (B.state board.now).content.flash) decision.now }
    ensures { OnOk result (list.new.items
        ≡ list.old.items ++ started_rows (B.state board.now).content.otp decision.now) }
{
    match decision {
        Decision::Start(choice) => add_image_rows(board, &choice.image, list),
        Decision::Bootsel(_) => Ok(()),
    }
}
