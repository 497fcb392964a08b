//! The faults of a table's partitions: of each kind, the fault of the lowest partition that has
//! one.

ghost use Rattle.std.specs.Prelude.{◌≡◌, ◌+◌, ◌*◌, ◌<◌, ◌≤◌, length, take, drop, position};
ghost use Rattle.std.specs.List.{list_any};
ghost use Rattle.part_table.specs.Links.{is_second_of};
ghost use Rattle.part_table.specs.Partitions.{part_at};
ghost use Rattle.part_table.specs.Windows.{shares_sector};
ghost use Rattle.part_table.specs.Faults.{is_out_of_range, is_wrong_pair, is_wrong_owner, is_wrong_link, permissions_fault, range_fault, overlap_fault, link_fault, parts_fault};

use crate::partition::permissions_of;
use crate::{Partition, TableFault};

/// The first fault of permissions.
fn permissions_fault(parts: &[Partition]) -> Option<TableFault>
    requires { length parts.now ≤ 15 }
    ensures { result ≡ permissions_fault parts.now }
{
    for i in 0..parts.len() {
        let part = &parts[i];
        if permissions_of(part.location) != permissions_of(part.flags) {
            return Some(TableFault::Permissions(i as u32));
        }
    }
    None
}

/// Whether a partition is out of range in a flash of so many sectors, `first` of which stand
/// before the first free one.
fn is_out_of_range(sectors: u32, first: u32, part: &Partition) -> bool
    ensures { result ≡ is_out_of_range sectors first part.now }
{
    part.first_sector() < first
        || part.last_sector() < part.first_sector()
        || sectors <= part.last_sector()
}

/// The first fault of range.
fn range_fault(sectors: u32, first: u32, parts: &[Partition]) -> Option<TableFault>
    requires { length parts.now ≤ 15 }
    ensures { result ≡ range_fault sectors first parts.now }
{
    for i in 0..parts.len() {
        if is_out_of_range(sectors, first, &parts[i]) {
            return Some(TableFault::Range(i as u32));
        }
    }
    None
}

/// The first of these partitions that shares a sector with a partition.
fn first_shared(part: &Partition, parts: &[Partition]) -> Option<usize>
    requires { length parts.now ≤ 15 }
    ensures { result ≡ position (shares_sector part.now) parts.now }
{
    for k in 0..parts.len() {
        if part.shares_sector(&parts[k]) {
            return Some(k);
        }
    }
    None
}

/// The first overlap.
fn overlap_fault(parts: &[Partition]) -> Option<TableFault>
    requires { length parts.now ≤ 15 }
    ensures { result ≡ overlap_fault parts.now }
{
    for i in 0..parts.len() {
        if let Some(k) = first_shared(&parts[i], &parts[i + 1..]) {
            return Some(TableFault::Overlap(i as u32, (i + 1 + k) as u32));
        }
    }
    None
}

/// Whether one of these partitions is the B of a partition.
fn has_second(value: u32, parts: &[Partition]) -> bool
    ensures { result ≡ list_any (is_second_of value) parts.now }
{
    for part in parts {
        if part.is_second_of(value) {
            return true;
        }
    }
    false
}

/// Whether the link "A is" of partition i is wrong.
fn is_wrong_pair(parts: &[Partition], i: usize) -> bool
    requires { i < length parts.now }
    ensures { result ≡ is_wrong_pair parts.now (take i parts.now) (part_at parts.now i) }
{
    let value = parts[i].link_value();
    match parts.get(value as usize) {
        Some(named) => named.is_second() || value as usize == i || has_second(value, &parts[..i]),
        None => true,
    }
}

/// Whether the owner link of partition i is wrong.
fn is_wrong_owner(parts: &[Partition], i: usize) -> bool
    requires { i < length parts.now }
    ensures { result ≡ is_wrong_owner parts.now (take i parts.now) (part_at parts.now i) }
{
    let value = parts[i].link_value();
    match parts.get(value as usize) {
        Some(named) => named.link_type() != 0 || value as usize == i,
        None => true,
    }
}

/// Whether the link of partition i is wrong.
fn is_wrong_link(parts: &[Partition], i: usize) -> bool
    requires { i < length parts.now }
    ensures { result ≡ is_wrong_link parts.now (take i parts.now) (part_at parts.now i) }
{
    match parts[i].link_type() {
        0 => false,
        1 => is_wrong_pair(parts, i),
        2 => is_wrong_owner(parts, i),
        _ => true,
    }
}

/// The first fault of a link.
fn link_fault(parts: &[Partition]) -> Option<TableFault>
    requires { length parts.now ≤ 15 }
    ensures { result ≡ link_fault parts.now }
{
    for i in 0..parts.len() {
        if is_wrong_link(parts, i) {
            return Some(TableFault::Link(i as u32));
        }
    }
    None
}

/// The first fault of the partitions of a table in a flash of so many sectors, `first` of which
/// stand before the first free one.
pub(crate) fn parts_fault(parts: &[Partition], sectors: u32, first: u32) -> Option<TableFault>
    requires { length parts.now ≤ 15 }
    ensures { result ≡ parts_fault parts.now sectors first }
{
    if let Some(fault) = permissions_fault(parts) {
        return Some(fault);
    }
    if let Some(fault) = range_fault(sectors, first, parts) {
        return Some(fault);
    }
    if let Some(fault) = overlap_fault(parts) {
        return Some(fault);
    }
    link_fault(parts)
}
