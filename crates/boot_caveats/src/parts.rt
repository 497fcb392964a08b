//! What is to be looked up of the partitions of the table of the flash.

ghost use Rattle.std.specs.Prelude.{◌≡◌, ◌<◌, ◌≤◌, ◌++◌, IfSome, OnOk, length, option_map};
ghost use Rattle.std.specs.List.{filter_map, range_with_len};
ghost use Rattle.boot_caveats.specs.PartCaveats.{differs_in_ignores, has_other_ignores, ignore_flags, is_readable, no_read, of_parts, starts_at};
ghost use Rattle.boot_caveats.specs.Reads.{ArePartsInside};

use crate::choices::started_window;
use boot_rules::Decision;
use part_table::{Partition, Table};
use pico_board::{Cpu, Window};
use slot_caveats::{Caveat, add};
use std::alloc::AllocError;

/// Whether one of the two ignore flags of a partition differs from the other partition's.
fn differs_in_ignores(part: &Partition, other: &Partition) -> bool
    ensures { result ≡ differs_in_ignores part.now other.now }
{
    part.is_ignored(Cpu::Arm) != other.is_ignored(Cpu::Arm)
        || part.is_ignored(Cpu::Riscv) != other.is_ignored(Cpu::Riscv)
}

/// Whether a partition is the B of the one that its link names, which has no owner, and their
/// ignore flags differ.
fn has_other_ignores(part: &Partition, first: &Partition) -> bool
    ensures { result ≡ has_other_ignores part.now first.now }
{
    part.is_second() && !first.is_owned() && differs_in_ignores(part, first)
}

/// A partition is the B of a pair without an owner, and its ignore flags differ from its A's.
fn ignore_flags(parts: &[Partition], i: u32) -> Option<Caveat>
    requires { i < length parts.now }
    ensures { result ≡ ignore_flags parts.now i }
{
    let part = &parts[i as usize];
    let first = parts.get(part.link_value() as usize)?;
    if has_other_ignores(part, first) {
        Some(Caveat::IgnoreFlags(i))
    } else {
        None
    }
}

/// Adds each partition whose ignore flags differ from those of its A.
fn add_each_ignore(parts: &[Partition], list: &mut Vec<Caveat>) -> Result<(), AllocError>
    requires few { length parts.now ≤ 15 }
    ensures { OnOk result (list.new.items ≡ list.old.items
        ++ filter_map (ignore_flags parts.now) (range_with_len 0 (length parts.now))) }
{
    for i in 0..parts.len() as u32 {
        add(list, ignore_flags(parts, i))?;
    }
    Ok(())
}

/// Adds each partition of the table of the flash whose ignore flags differ from those of its A.
pub(crate) fn add_ignore_flags(
    table: Option<&Table>,
    list: &mut Vec<Caveat>,
) -> Result<(), AllocError>
    ensures { OnOk result (list.new.items
        ≡ list.old.items ++ of_parts ignore_flags (option_map (λ t. t.now) table.entry)) }
{
    match table {
        Some(table) => add_each_ignore(table.parts.as_slice(), list),
        None => Ok(()),
    }
}

/// Whether a partition's location word has the right of secure read.
fn is_readable(part: &Partition) -> bool
    ensures { result ≡ is_readable part.now }
{
    part.location / 0x400_0000 % 2 == 1
}

/// Whether the decision is a start in a window.
fn starts_at(decision: &Decision, window: Window) -> bool
    ensures { result ≡ starts_at decision.now window }
{
    match started_window(decision) {
        Some(started) => started.is_same(window),
        None => false,
    }
}

/// The decision is a start in a partition that lacks the right of secure read.
fn no_read(decision: &Decision, parts: &[Partition], i: u32, flash_len: u32) -> Option<Caveat>
    requires part { i < length parts.now }
    requires inside { ArePartsInside flash_len parts.now }
    ensures { result ≡ no_read decision.now parts.now i }
{
    let part = &parts[i as usize];
    if starts_at(decision, part.window()) && !is_readable(part) {
        Some(Caveat::NoRead(i))
    } else {
        None
    }
}

/// Adds the partition in which the decision starts, where it lacks the right of secure read.
fn add_each_read(
    decision: &Decision,
    parts: &[Partition],
    flash_len: u32,
    list: &mut Vec<Caveat>,
) -> Result<(), AllocError>
    requires few { length parts.now ≤ 15 }
    requires inside { ArePartsInside flash_len parts.now }
    ensures { OnOk result (list.new.items ≡ list.old.items
        ++ filter_map (no_read decision.now parts.now) (range_with_len 0 (length parts.now))) }
{
    for i in 0..parts.len() as u32 {
        add(list, no_read(decision, parts, i, flash_len))?;
    }
    Ok(())
}

/// Adds the partition of the table of the flash in which the decision starts, where it lacks the
/// right of secure read. The partitions lie inside a flash of so many bytes.
pub(crate) fn add_no_reads(
    decision: &Decision,
    table: Option<&Table>,
    flash_len: u32,
    list: &mut Vec<Caveat>,
) -> Result<(), AllocError>
    requires inside { IfSome (option_map (λ t. t.now) table)
        (λ t. ArePartsInside flash_len t.parts.items) }
    ensures { OnOk result (list.new.items ≡ list.old.items
        ++ of_parts (no_read decision.now) (option_map (λ t. t.now) table.entry)) }
{
    match table {
        Some(table) => add_each_read(decision, table.parts.as_slice(), flash_len, list),
        None => Ok(()),
    }
}
