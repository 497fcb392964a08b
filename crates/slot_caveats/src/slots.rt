//! What stands in the table slots, which the model takes otherwise than the chip may.

ghost use Rattle.std.specs.Prelude.{◌≡◌, ◌+◌, ◌*◌, ◌<◌, ◌≤◌, ◌++◌, IsTrue, OnOk, is_some, length, option_to_list};
ghost use Rattle.block_loop.specs.Loop.{block_at_offset, loop_of};
ghost use Rattle.boot_rules.specs.Picking.{IsInside};
ghost use Rattle.boot_rules.specs.Tables.{slot_window};
ghost use Rattle.slot_caveats.specs.SlotCaveats.{begins_table, broken_place, fault_of_table, flash_from, has_executable, has_other_order, has_slot_image, image_in_slot, is_hash, leads_on, of_slots, place_behind, slot_caveats, slot_end, table_fault, table_order};

use crate::caveat::{Caveat, add};
use crate::seeking::{Sought, last_where};
use crate::tables::short_flash;
use block_codec::Block;
use block_codec::kinds::{PARTITION_TABLE, kind_of};
use block_loop::{LoopFault, block_at, walk};
use boot_reasons::TableInForce;
use boot_rules::SlotFault;
use part_table::{Table, TableFault};
use pico_board::{Board, FlashView, SMALLEST_SLOT, View, Window};
use std::alloc::AllocError;

/// The window of the flash's bytes from an offset on.
pub fn flash_from<B: Board>(board: &B, at: u32) -> Window
    requires { at ≤ length (B.state board.now).content.flash }
    ensures { result ≡ flash_from (B.state board.now).content at }
{
    Window {
        start: at,
        len: board.flash_len() - at,
    }
}

/// Whether the loop of a view closes and has an executable block.
pub fn has_executable<V: View>(view: &V) -> bool
    ensures { result ≡ has_executable (V.bytes view.now) }
{
    last_where(view, Sought::Executable).is_some()
}

/// Whether a slot's window has such a loop, or the flash from the slot's start on.
fn has_slot_image<B: Board>(board: &B, window: Window) -> bool
    requires power { IsTrue (B.state board.now).powered }
    requires inside { IsInside (length (B.state board.now).content.flash) window }
    ensures { result ≡ has_slot_image (B.state board.now).content window }
{
    has_executable(&FlashView { board, window })
        || has_executable(&FlashView {
            board,
            window: flash_from(board, window.start),
        })
}

/// There is a table, and a slot has such a loop.
fn image_in_slot<B: Board>(
    board: &B,
    table: Option<TableInForce>,
    number: u32,
    window: Window,
) -> Option<Caveat>
    requires power { IsTrue (B.state board.now).powered }
    requires inside { IsInside (length (B.state board.now).content.flash) window }
    ensures { result ≡ image_in_slot (B.state board.now).content table number window }
{
    if table.is_some() && has_slot_image(board, window) {
        Some(Caveat::ImageInSlot(number))
    } else {
        None
    }
}

/// The offset of the block whose link leads to no block, where the loop of a view is broken.
fn broken_place<V: View>(view: &V) -> Option<u32>
    ensures { result ≡ broken_place (loop_of (V.bytes view.now)) }
{
    match walk(view) {
        Err(LoopFault::Broken(at)) => Some(at),
        Err(LoopFault::NoBlock | LoopFault::TooMany | LoopFault::Overlap(_, _)) | Ok(_) => None,
    }
}

/// Whether a whole block stands at a signed offset of a view.
fn stands_at<V: View>(view: &V, to: i64) -> bool
    ensures { result ≡ is_some (block_at_offset (V.bytes view.now) to) }
{
    if to < 0 {
        return false;
    }
    if to >= i64::from(view.len()) {
        return false;
    }
    block_at(view, to as u32).is_some()
}

/// Whether the link of the block at an offset of a view leads to a whole block of another view.
fn leads_on<V: View, W: View>(view: &V, more: &W, at: u32) -> bool
    ensures { result ≡ leads_on (V.bytes view.now) (W.bytes more.now) at }
{
    match block_at(view, at) {
        Some(block) => stands_at(more, i64::from(block.at()) + i64::from(block.link())),
        None => false,
    }
}

/// The offset of the block at which the loop of a view is broken, where its link leads to a whole
/// block of another view.
fn place_behind<V: View, W: View>(view: &V, more: &W) -> Option<u32>
    ensures { result ≡ place_behind (V.bytes view.now) (W.bytes more.now) }
{
    let at = broken_place(view)?;
    if leads_on(view, more, at) {
        Some(at)
    } else {
        None
    }
}

/// Without a table, and with slots above the smallest size: a slot's loop is broken where the flash
/// goes on behind the slot.
fn slot_end<B: Board>(board: &B, table: Option<TableInForce>, window: Window) -> Option<Caveat>
    requires power { IsTrue (B.state board.now).powered }
    requires inside { IsInside (length (B.state board.now).content.flash) window }
    ensures { result ≡ slot_end (B.state board.now).content table window }
{
    if table.is_some() || window.len <= SMALLEST_SLOT {
        return None;
    }
    let more = FlashView {
        board,
        window: flash_from(board, window.start),
    };
    match place_behind(&FlashView { board, window }, &more) {
        Some(at) => Some(Caveat::SlotEnd(window, at)),
        None => None,
    }
}

/// Whether a table's fault is that of its digest.
fn is_hash(fault: TableFault) -> bool
    ensures { result ≡ is_hash fault }
{
    match fault {
        TableFault::Hash => true,
        TableFault::BadItem | TableFault::Permissions(_) | TableFault::Range(_) => false,
        TableFault::Overlap(_, _) | TableFault::Link(_) => false,
    }
}

/// The fault of the table of a slot, where it is not that of its digest.
fn fault_of_table(answer: &Result<Table, SlotFault>) -> Option<TableFault>
    ensures { result ≡ fault_of_table answer.now }
{
    match answer {
        Err(SlotFault::Table(fault)) => { if is_hash(*fault) { None } else { Some(*fault) } }
        Err(SlotFault::Loop(_) | SlotFault::NoTable) | Ok(_) => None,
    }
}

/// A slot's table has such a fault, which is not that of a flash that is too short.
fn table_fault(flash_len: u32, number: u32, answer: &Result<Table, SlotFault>) -> Option<Caveat>
    ensures { result ≡ table_fault flash_len number answer.now }
{
    if short_flash(flash_len, number, answer).is_some() {
        return None;
    }
    match fault_of_table(answer) {
        Some(fault) => Some(Caveat::FaultyTable(number, fault)),
        None => None,
    }
}

/// Whether the first item of a block is a PARTITION_TABLE item.
fn begins_table(block: &Block) -> bool
    ensures { result ≡ begins_table block.now }
{
    if block.count() == 0 {
        return false;
    }
    kind_of(block.item(0).kind) == PARTITION_TABLE
}

/// Whether the last block with a PARTITION_TABLE item of a view's loop begins with another item.
fn has_other_order<V: View>(view: &V) -> bool
    ensures { result ≡ has_other_order (V.bytes view.now) }
{
    match last_where(view, Sought::Table) {
        Some(block) => !begins_table(&block),
        None => false,
    }
}

/// A slot's table begins with another item.
fn table_order<B: Board>(board: &B, number: u32, window: Window) -> Option<Caveat>
    requires power { IsTrue (B.state board.now).powered }
    requires inside { IsInside (length (B.state board.now).content.flash) window }
    ensures { result ≡ table_order (B.state board.now).content number window }
{
    if has_other_order(&FlashView { board, window }) {
        Some(Caveat::TableOrder(number))
    } else {
        None
    }
}

/// The window of slot 0.
fn first_slot(size: u32) -> Window
    ensures value { result ≡ slot_window size 0 }
    ensures end { result.start + result.len ≡ size }
{
    Window {
        start: 0,
        len: size,
    }
}

/// The window of slot 1.
fn second_slot(size: u32) -> Window
    ensures value { result ≡ slot_window size 1 }
    ensures end { result.start + result.len ≡ 2 * size }
{
    Window {
        start: size,
        len: size,
    }
}

/// Adds each slot with an image, where there is a table.
fn add_slot_images<B: Board>(
    board: &B,
    size: u32,
    table: Option<TableInForce>,
    list: &mut Vec<Caveat>,
) -> Result<(), AllocError>
    requires power { IsTrue (B.state board.now).powered }
    requires inside { 2 * size ≤ length (B.state board.now).content.flash }
    ensures { OnOk result (list.new.items ≡ list.old.items
        ++ of_slots size (image_in_slot (B.state board.now).content table)) }
{
    add(list, image_in_slot(board, table, 0, first_slot(size)))?;
    add(list, image_in_slot(board, table, 1, second_slot(size)))
}

/// Adds each slot behind which its image goes on, where there is no table.
fn add_slot_ends<B: Board>(
    board: &B,
    size: u32,
    table: Option<TableInForce>,
    list: &mut Vec<Caveat>,
) -> Result<(), AllocError>
    requires power { IsTrue (B.state board.now).powered }
    requires inside { 2 * size ≤ length (B.state board.now).content.flash }
    ensures { OnOk result (list.new.items ≡ list.old.items
        ++ of_slots size (λ number. slot_end (B.state board.now).content table)) }
{
    add(list, slot_end(board, table, first_slot(size)))?;
    add(list, slot_end(board, table, second_slot(size)))
}

/// Adds each slot whose table has a fault by which the chip may not judge.
fn add_table_faults(
    flash_len: u32,
    first: &Result<Table, SlotFault>,
    second: &Result<Table, SlotFault>,
    list: &mut Vec<Caveat>,
) -> Result<(), AllocError>
    ensures { OnOk result (list.new.items ≡ list.old.items
        ++ (option_to_list (table_fault flash_len 0 first.now)
        ++ option_to_list (table_fault flash_len 1 second.now))) }
{
    add(list, table_fault(flash_len, 0, first))?;
    add(list, table_fault(flash_len, 1, second))
}

/// Adds each slot whose table begins with another item.
fn add_table_orders<B: Board>(
    board: &B,
    size: u32,
    list: &mut Vec<Caveat>,
) -> Result<(), AllocError>
    requires power { IsTrue (B.state board.now).powered }
    requires inside { 2 * size ≤ length (B.state board.now).content.flash }
    ensures { OnOk result (list.new.items ≡ list.old.items
        ++ of_slots size (table_order (B.state board.now).content)) }
{
    add(list, table_order(board, 0, first_slot(size)))?;
    add(list, table_order(board, 1, second_slot(size)))
}

/// Adds what stands in the slots, which the model takes otherwise than the chip may: images,
/// blocks behind them, faulty tables, and tables whose items are in another order.
pub fn add_slots<B: Board>(
    board: &B,
    size: u32,
    table: Option<TableInForce>,
    first: &Result<Table, SlotFault>,
    second: &Result<Table, SlotFault>,
    list: &mut Vec<Caveat>,
) -> Result<(), AllocError>
    requires power { IsTrue (B.state board.now).powered }
    requires inside { 2 * size ≤ length (B.state board.now).content.flash }
    ensures { OnOk result (list.new.items ≡ list.old.items
        ++ slot_caveats (B.state board.now).content size table first.now second.now) }
{
    add_slot_images(board, size, table, list)?;
    add_slot_ends(board, size, table, list)?;
    add_table_faults(board.flash_len(), first, second, list)?;
    add_table_orders(board, size, list)
}
