//! What the tables of the slots say that the model does not read or judges otherwise.

ghost use Rattle.std.specs.Prelude.{◌≡◌, ◌<◌, ◌≤◌, ◌++◌, OnOk, length, option_map};
ghost use Rattle.slot_caveats.specs.TableCaveats.{are_tied, range_of, short_flash, table_tie, unread_caveats, unread_families, unread_side, unread_targets};
ghost use Rattle.std.specs.List.{filter_map, range_with_len};

use crate::caveat::{Caveat, add};
use boot_rules::SlotFault;
use part_table::{Partition, Table, TableFault};
use pico_board::MOST_FLASH_BYTES;
use std::alloc::AllocError;

/// The partition that is out of range in the table of a slot.
fn range_of(answer: &Result<Table, SlotFault>) -> Option<u32>
    ensures { result ≡ range_of answer.now }
{
    match answer {
        Err(SlotFault::Table(TableFault::Range(i))) => Some(*i),
        _ => None,
    }
}

/// A slot's table has a partition that leaves a flash which is shorter than 16 MiB.
pub fn short_flash(flash_len: u32, number: u32, answer: &Result<Table, SlotFault>) -> Option<Caveat>
    ensures { result ≡ short_flash flash_len number answer.now }
{
    if flash_len as usize >= MOST_FLASH_BYTES {
        return None;
    }
    match range_of(answer) {
        Some(i) => Some(Caveat::ShortFlash(number, i)),
        None => None,
    }
}

/// The bits of an unpartitioned word that are not read.
fn unread_families(word: u32) -> u32
    ensures { result ≡ unread_families word }
{
    0x4000 * (word / 0x4000 % 2) + 0x1_0000 * (word / 0x1_0000 % 0x10)
}

/// A table's unpartitioned word has bits that are not read.
fn unread_targets(table: &Table) -> Option<Caveat>
    ensures { result ≡ unread_targets table.now }
{
    let bits = unread_families(table.unpartitioned);
    if bits == 0 {
        None
    } else {
        Some(Caveat::UnreadTargets(bits))
    }
}

/// A partition of a table has flag bit 11.
fn unread_side(parts: &[Partition], i: u32) -> Option<Caveat>
    requires { i < length parts.now }
    ensures { result ≡ unread_side parts.now i }
{
    if parts[i as usize].flags / 0x800 % 2 == 1 {
        Some(Caveat::UnreadSide(i))
    } else {
        None
    }
}

/// Adds each partition with flag bit 11.
fn add_unread_sides(parts: &[Partition], list: &mut Vec<Caveat>) -> Result<(), AllocError>
    requires few { length parts.now ≤ 15 }
    ensures { OnOk result (list.new.items ≡ list.old.items
        ++ filter_map (unread_side parts.now) (range_with_len 0 (length parts.now))) }
{
    for i in 0..parts.len() as u32 {
        add(list, unread_side(parts, i))?;
    }
    Ok(())
}

/// Adds what is not read of the table of the flash.
pub fn add_unread(table: Option<&Table>, list: &mut Vec<Caveat>) -> Result<(), AllocError>
    ensures { OnOk result (list.new.items
        ≡ list.old.items ++ unread_caveats (option_map (λ t. t.now) table.entry)) }
{
    let Some(table) = table else {
        return Ok(());
    };
    add(list, unread_targets(table))?;
    add_unread_sides(table.parts.as_slice(), list)
}

/// Whether two tables are of one version and differ, and the first is no singleton.
fn are_tied(table: &Table, other: &Table) -> bool
    ensures { result ≡ are_tied table.now other.now }
{
    !table.singleton && table.version == other.version && table != other
}

/// The slots have different tables of one version.
pub fn table_tie(
    first: &Result<Table, SlotFault>,
    second: &Result<Table, SlotFault>,
) -> Option<Caveat>
    ensures { result ≡ table_tie first.now second.now }
{
    match (first, second) {
        (Ok(table), Ok(other)) => {
            if are_tied(table, other) {
                Some(Caveat::TableTie)
            } else {
                None
            }
        }
        _ => None,
    }
}
