//! The owner of a data partition, and the data partitions of an owner.

ghost use Rattle.std.specs.Prelude.{◌≡◌, ◌<◌, ◌≤◌, All, length, None};
ghost use Rattle.part_table.specs.Faults.{link_fault};
ghost use Rattle.owner_data.specs.Owners.{data_parts, is_owned_by, owner_pair, taken_part};

use arrayvec::ArrayVec;
use part_table::{Partition, Table};
use slot_choice::second_of;

/// The owner of a partition, and the owner's B where it has one. None exactly where the partition
/// has no owner.
pub fn owner_pair(table: &Table, part: u32) -> Option<(u32, Option<u32>)>
    requires part { part < length table.now.parts.items }
    requires links { link_fault table.now.parts.items ≡ None }
    ensures { result ≡ owner_pair table.now.parts.items part }
{
    let parts = table.parts.as_slice();
    let data = &parts[part as usize];
    if !data.is_owned() {
        return None;
    }
    let owner = data.link_value();
    Some((owner, second_of(parts, owner)))
}

/// Whether the partition has this owner.
fn is_owned_by(part: &Partition, owner: u32) -> bool
    ensures { result ≡ is_owned_by owner part.now }
{
    part.is_owned() && part.link_value() == owner
}

/// The partition that is taken of a pair of data: the B where the second is asked for and there is
/// one, or else the partition itself.
fn taken_part(parts: &[Partition], second: bool, first: u32) -> u32
    requires few { length parts.now ≤ 15 }
    ensures { result ≡ taken_part parts.now second first }
{
    if !second {
        return first;
    }
    match second_of(parts, first) {
        Some(other) => other,
        None => first,
    }
}

/// The data of an owner among these partitions; the owner is one of them.
fn data_of(parts: &[Partition], owner: u32, second: bool) -> ArrayVec<u32, 14>
    requires few { length parts.now ≤ 15 }
    requires owner { owner < length parts.now }
    requires links { link_fault parts.now ≡ None }
    ensures { result.items ≡ data_parts parts.now owner second }
{
    let mut data = ArrayVec::new();
    for i in 0..parts.len() as u32 {
        if is_owned_by(&parts[i as usize], owner) {
            data.push(taken_part(parts, second, i));
        }
    }
    data
}

/// The data partitions of an owner, in table order. Of each partition that has this owner the B is
/// taken where the second is asked for and there is one. Otherwise the partition itself is taken.
pub fn data_parts(table: &Table, owner: u32, second: bool) -> ArrayVec<u32, 14>
    requires owner { owner < length table.now.parts.items }
    requires links { link_fault table.now.parts.items ≡ None }
    ensures value { result.items ≡ data_parts table.now.parts.items owner second }
    ensures inside { All (λ i. i < length table.now.parts.items) result.items }
{
    data_of(table.parts.as_slice(), owner, second)
}
