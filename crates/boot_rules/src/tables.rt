//! The table of each slot, or why it has none, and the partition table of a flash.

ghost use Rattle.std.specs.Prelude.{◌≡◌, ◌+◌, ◌*◌, ◌/◌, ◌≤◌, List, IfOk, IfSome, IsTrue, Ok, Some, find, length, reverse, true};
ghost use Rattle.block_codec.specs.Blocks.{BlockView};
ghost use Rattle.block_loop.specs.Loop.{loop_of};
ghost use Rattle.block_loop.specs.Offsets.{AreLoop};
ghost use Rattle.part_table.specs.Sound.{IsSoundTable};
ghost use Rattle.part_table.specs.TableOf.{has_table, table_of};
ghost use Rattle.pico_board.specs.Content.{window_bytes};
ghost use Rattle.boot_rules.specs.TableRules.{IsSlotAnswer};
ghost use Rattle.boot_rules.specs.Tables.{block_answer, found_of, is_first_taken, slot_answer, slot_answer_in, table_in};

use crate::slots::SlotFault;
use block_codec::Block;
use block_loop::{BlockLoop, block_of, walk};
use otp_roll::slot_size;
use part_table::{Table, has_table, read_table};
use pico_board::{Board, FlashView, View, Window};
use slot_choice::is_below;

/// The partition table of a flash, and where it stands.
#[derive(Clone, PartialEq, Eq, Debug, Drop)]
pub struct Found {
    /// The table slot that holds the table, 0 or 1.
    pub slot: u32,
    /// The table.
    pub table: Table,
}

/// The last block of the view's loop that has a PARTITION_TABLE item.
fn table_block<V: View>(view: &V, found: &BlockLoop) -> Option<Block>
    requires loop_ { AreLoop (V.bytes view.now) found.now }
    ensures last { (loop : List BlockView) → loop_of (V.bytes view.now) ≡ Ok loop
        → result ≡ find has_table (reverse loop) }
    ensures has { IfSome result (λ b. has_table b ≡ true) }
{
    let mut last = None;
    for i in 0..found.count() {
        let block = block_of(view, found, i);
        if has_table(&block) {
            last = Some(block);
        }
    }
    last
}

/// What is read of a block that has a table, in a flash of so many sectors whose first free one is
/// given.
fn block_answer(block: &Block, sectors: u32, first: u32) -> Result<Table, SlotFault>
    requires { has_table block.now ≡ true }
    ensures exact { result ≡ block_answer (table_of block.now sectors first) }
    ensures sound { IfOk result (λ t. IsSoundTable t sectors) }
{
    match read_table(block, sectors, first) {
        Ok(table) => Ok(table),
        Err(fault) => Err(SlotFault::Table(fault)),
    }
}

/// The table of a slot of a flash of so many sectors, whose first free one is given, or why the
/// slot has none.
fn view_answer<V: View>(view: &V, sectors: u32, first: u32) -> Result<Table, SlotFault>
    ensures exact { result ≡ slot_answer sectors first (V.bytes view.now) }
    ensures sound { IfOk result (λ t. IsSoundTable t sectors) }
{
    let found = match walk(view) {
        Ok(found) => found,
        Err(fault) => return Err(SlotFault::Loop(fault)),
    };
    match table_block(view, &found) {
        Some(block) => block_answer(&block, sectors, first),
        None => Err(SlotFault::NoTable),
    }
}

/// The table of the slot of this size and number, or why it has none.
fn answer_of_slot<B: Board>(board: &B, size: u32, number: u32) -> Result<Table, SlotFault>
    requires power { IsTrue (B.state board.now).powered }
    requires number { number ≤ 1 }
    requires inside { 2 * size ≤ length (B.state board.now).content.flash }
    ensures exact { result ≡ slot_answer (length (B.state board.now).content.flash / 4096)
        (2 * size / 4096)
        (window_bytes (B.state board.now).content (record { start = number * size; len = size })) }
    ensures sound { IfOk result
        (λ t. IsSoundTable t (length (B.state board.now).content.flash / 4096)) }
{
    let window = Window {
        start: number * size,
        len: size,
    };
    view_answer(
        &FlashView { board, window },
        board.flash_len() / 4096,
        2 * size / 4096,
    )
}

/// The table of slot 0 or 1 of the board's flash, or why it has none.
fn slot_answer_in<B: Board>(board: &B, number: u32) -> Result<Table, SlotFault>
    requires power { IsTrue (B.state board.now).powered }
    requires number { number ≤ 1 }
    ensures exact { result ≡ slot_answer_in (B.state board.now).content number }
    ensures sound { IfOk result
        (λ t. IsSoundTable t (length (B.state board.now).content.flash / 4096)) }
{
    answer_of_slot(board, slot_size(board), number)
}

/// The table of slot 0 or 1, or why it has none. Its loop may have a fault, no block of its loop
/// may have a PARTITION_TABLE item, or the last block that has one may be read to a fault. (RP2350
/// Datasheet, chapter 5, "Partition tables".)
pub fn slot_answer<B: Board>(board: &B, number: u32) -> Result<Table, SlotFault>
    requires power { IsTrue (B.state board.now).powered }
    requires number { number ≤ 1 }
    ensures exact { result ≡ slot_answer_in (B.state board.now).content number }
    ensures rules { IsSlotAnswer (B.state board.now).content number result }
    ensures sound { IfOk result
        (λ t. IsSoundTable t (length (B.state board.now).content.flash / 4096)) }
{
    slot_answer_in(board, number)
}

/// Whether of the tables of both slots the first is taken: it is a singleton, or not of a lower
/// version than the second.
pub fn is_first_taken(first: &Table, second: &Table) -> bool
    ensures { result ≡ is_first_taken first.now second.now }
{
    first.singleton || !is_below(first.version, second.version)
}

/// Which of the tables of the two slots is the one of the flash.
fn found_of(first: Option<Table>, second: Option<Table>) -> Option<Found>
    ensures { result ≡ found_of first second }
{
    match (first, second) {
        (None, None) => None,
        (None, Some(table)) => Some(Found { slot: 1, table }),
        (Some(table), None) => Some(Found { slot: 0, table }),
        (Some(table), Some(other)) => {
            if is_first_taken(&table, &other) {
                Some(Found { slot: 0, table })
            } else {
                Some(Found {
                    slot: 1,
                    table: other,
                })
            }
        }
    }
}

/// The partition table of the board's flash. Why a slot has none is forgotten.
#[tactic(auto, unfolding(crate::specs::Tables::table_in))]
fn table_in<B: Board>(board: &B) -> Option<Found>
    requires power { IsTrue (B.state board.now).powered }
    ensures { result ≡ table_in (B.state board.now).content }
{
    found_of(slot_answer_in(board, 0).ok(), slot_answer_in(board, 1).ok())
}

/// The partition table of a board's flash and the slot that it stands in, 0 or 1. None exactly
/// where neither slot has a table. A slot's table is that of the last block of its loop that has a
/// PARTITION_TABLE item, where that is read without fault. A singleton in slot 0 is taken, and
/// otherwise the greater version, slot 0 on a tie. (RP2350 Datasheet, chapter 5, "Partition
/// tables"; the choice between two tables is this project's own.)
pub fn find_table<B: Board>(board: &B) -> Option<Found>
    requires power { IsTrue (B.state board.now).powered }
    ensures exact { result ≡ table_in (B.state board.now).content }
    ensures sound { IfSome result
        (λ found. IsSoundTable found.table (length (B.state board.now).content.flash / 4096)) }
    ensures slot { IfSome result (λ found. found.slot ≤ 1) }
{
    table_in(board)
}
