//! The rollback version and the rows of a VERSION item.

ghost use Rattle.std.specs.Prelude.{◌≡◌, ◌≤◌, ◌<◌, Contains, slice_index, length, true};
ghost use Rattle.std.specs.List.{list_any};
ghost use Rattle.block_codec.specs.Items.{items_of};
ghost use Rattle.block_codec.specs.Blocks.{block_words};
ghost use Rattle.block_codec.specs.FirstFault.{first_fault};
ghost use Rattle.block_codec.specs.Kinds.{version_words};
ghost use Rattle.image_def.specs.Rows.{version_tail, rollback_in, rows_in, is_near, row_fault};

use crate::fault::DefFault;
use arrayvec::ArrayVec;
use block_codec::{Block, Item};
use otp_roll::{FIRST_ROW, LAST_ROW};

/// A half word of a VERSION item after its version: the rollback version, and then the rows.
fn tail_half(block: &Block, item: &Item, k: u8) -> u16
    requires of_block { Contains (items_of block.now.items) item.now }
    requires size { item.now.words ≡ version_words item.now.high }
    requires rows { 1 ≤ item.now.high }
    requires within { k ≤ item.now.high }
    ensures value { result ≡ slice_index (version_tail (block_words block.now) item.now) k }
    ensures inside { k < length (version_tail (block_words block.now) item.now) }
{
    let word = block.item_word(item, 2 + u32::from(k / 2));
    if k % 2 == 0 {
        (word % 65536) as u16
    } else {
        (word / 65536) as u16
    }
}

/// The rollback version of a VERSION item; None exactly where it lists no rows.
pub(crate) fn rollback_version(block: &Block, item: &Item) -> Option<u16>
    requires of_block { Contains (items_of block.now.items) item.now }
    requires size { item.now.words ≡ version_words item.now.high }
    ensures { result ≡ rollback_in (block_words block.now) item.now }
{
    if item.high == 0 {
        None
    } else {
        Some(tail_half(block, item, 0))
    }
}

/// The rows that a VERSION item lists.
pub(crate) fn listed_rows(block: &Block, item: &Item) -> ArrayVec<u16, 32>
    requires of_block { Contains (items_of block.now.items) item.now }
    requires size { item.now.words ≡ version_words item.now.high }
    requires few { item.now.high ≤ 32 }
    ensures { result.items ≡ rows_in (block_words block.now) item.now }
{
    let mut rows = ArrayVec::new();
    for k in 0..item.high {
        rows.push(tail_half(block, item, k + 1));
    }
    rows
}

/// Whether the triples of two rows share a row.
fn are_near(row: u16, other: u16) -> bool
    ensures { result ≡ is_near row other }
{
    row.abs_diff(other) < 3
}

/// Whether a row is near to one of these.
fn is_near_one(rows: &[u16], row: u16) -> bool
    ensures { result ≡ list_any (is_near row) rows.now }
{
    for other in rows {
        if are_near(row, *other) {
            return true;
        }
    }
    false
}

/// The fault of a row after the rows before it.
fn fault_behind(before: &[u16], row: u16) -> Option<DefFault>
    ensures { result ≡ row_fault before.now row }
{
    if row < FIRST_ROW || row > LAST_ROW {
        Some(DefFault::BadRow(row))
    } else if is_near_one(before, row) {
        Some(DefFault::RepeatedRow(row))
    } else {
        None
    }
}

/// The first fault of listed rows.
pub(crate) fn first_bad_row(rows: &[u16]) -> Option<DefFault>
    ensures { result ≡ first_fault row_fault rows.now }
{
    for i in 0..rows.len() {
        if let Some(fault) = fault_behind(&rows[..i], rows[i]) {
            return Some(fault);
        }
    }
    None
}
