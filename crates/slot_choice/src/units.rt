//! The boot units of a flash, and the unit of a download.

ghost use Rattle.std.specs.Prelude.{◌≡◌, ◌<◌, ◌≤◌, IfSome, All, length, map, option_map};
ghost use Rattle.part_table.specs.Fields.{first_sector, last_sector};
ghost use Rattle.part_table.specs.Links.{pair_of};
ghost use Rattle.part_table.specs.Partitions.{part_at};
ghost use Rattle.part_table.specs.Families.{accepts};
ghost use Rattle.part_table.specs.Sound.{IsSoundTable};
ghost use Rattle.slot_choice.specs.LoadUnits.{accepting_unit, begins_load_unit, load_unit};
ghost use Rattle.slot_choice.specs.Units.{begins_boot_unit, parts_where, slot_pair, tableless_unit, unit_of, units, whole_flash, IsSoundFor};

use crate::unit::SlotUnit;
use arrayvec::ArrayVec;
use part_table::{ABSOLUTE_FAMILY, ARM_NS_FAMILY, DATA_FAMILY, Partition, Table};
use pico_board::{Cpu, SMALLEST_SLOT, Window};

/// The B of a partition, where it has one.
pub fn second_of(parts: &[Partition], first: u32) -> Option<u32>
    requires few { length parts.now ≤ 15 }
    ensures value { result ≡ pair_of parts.now first }
    ensures inside { IfSome result (λ j. j < length parts.now) }
{
    for i in 0..parts.len() as u32 {
        if parts[i as usize].is_second_of(first) {
            return Some(i);
        }
    }
    None
}

/// The unit of a partition: a pair with its B where it has one, or else the partition alone.
/// (RP2350 Datasheet, chapter 5, Bootrom.)
pub fn unit_of(parts: &[Partition], i: u32) -> SlotUnit
    requires few { length parts.now ≤ 15 }
    requires inside { i < length parts.now }
    requires right { All (λ p. first_sector p ≤ last_sector p) parts.now }
    ensures { result ≡ unit_of parts.now i }
{
    let second = second_of(parts, i);
    SlotUnit {
        a: parts[i as usize].window(),
        b: match second {
            Some(j) => Some(parts[j as usize].window()),
            None => None,
        },
        a_part: Some(i),
        b_part: second,
    }
}

/// The whole flash as a unit.
fn whole_flash(flash_len: u32) -> SlotUnit
    ensures { result ≡ whole_flash flash_len }
{
    SlotUnit {
        a: Window {
            start: 0,
            len: flash_len,
        },
        b: None,
        a_part: None,
        b_part: None,
    }
}

/// The one unit of a flash without a table: the pair of slots where they are greater than the
/// smallest slot, or else the whole flash.
fn tableless_unit(flash_len: u32, slot: u32) -> SlotUnit
    ensures { result ≡ tableless_unit flash_len slot }
{
    if slot <= SMALLEST_SLOT {
        return whole_flash(flash_len);
    }
    SlotUnit {
        a: Window {
            start: 0,
            len: slot,
        },
        b: Some(Window {
            start: slot,
            len: slot,
        }),
        a_part: None,
        b_part: None,
    }
}

/// Whether the partition is the A of a boot unit: it is no B, has no owner and is not ignored.
fn begins_boot_unit(part: &Partition, cpu: Cpu) -> bool
    ensures { result ≡ begins_boot_unit cpu part.now }
{
    !part.is_second() && !part.is_owned() && !part.is_ignored(cpu)
}

/// The boot units of the partitions, in table order.
fn units_of(parts: &[Partition], cpu: Cpu) -> ArrayVec<SlotUnit, 15>
    requires few { length parts.now ≤ 15 }
    requires right { All (λ p. first_sector p ≤ last_sector p) parts.now }
    ensures { result.items
        ≡ map (unit_of parts.now) (parts_where (begins_boot_unit cpu) parts.now) }
{
    let mut units = ArrayVec::new();
    for i in 0..parts.len() as u32 {
        if begins_boot_unit(&parts[i as usize], cpu) {
            units.push(unit_of(parts, i));
        }
    }
    units
}

/// The boot units of a flash, in table order: those of the table's partitions, or the one unit of
/// a flash without a table. Only the flags of a unit's A are read. (RP2350 Datasheet, chapter 5,
/// Bootrom; this project's own where the datasheet is open.)
pub fn boot_units(
    table: Option<&Table>,
    flash_len: u32,
    slot: u32,
    cpu: Cpu,
) -> ArrayVec<SlotUnit, 15>
    requires sound { IsSoundFor (option_map (λ t. t.now) table) flash_len }
    ensures { result.items ≡ units (option_map (λ t. t.now) table.entry) flash_len slot cpu }
{
    match table {
        Some(table) => units_of(table.parts.as_slice(), cpu),
        None => {
            let mut units = ArrayVec::new();
            units.push(tableless_unit(flash_len, slot));
            units
        }
    }
}

/// Whether the partition is the A of a load unit: it is no B.
fn begins_load_unit(part: &Partition) -> bool
    ensures { result ≡ begins_load_unit part.now }
{
    !part.is_second() // owned and ignored ones too
}

/// The unit of the first partition that is no B and accepts the family.
fn accepting_unit(parts: &[Partition], family: u32) -> Option<SlotUnit>
    requires few { length parts.now ≤ 15 }
    requires right { All (λ p. first_sector p ≤ last_sector p) parts.now }
    ensures { result ≡ accepting_unit parts.now family }
{
    for i in 0..parts.len() as u32 {
        let part = &parts[i as usize];
        if begins_load_unit(part) && part.accepts(family) {
            return Some(unit_of(parts, i));
        }
    }
    None
}

/// The unit of a download of a family; None exactly where no unit takes it. The absolute family
/// goes to the whole flash, where there is no table or the table accepts that family. Another
/// family goes to the first unit whose A accepts it, owned and ignored units among them. Without a
/// table the one boot unit takes data and the three executable families of the RP2350.
pub fn load_unit(table: Option<&Table>, flash_len: u32, slot: u32, family: u32) -> Option<SlotUnit>
    requires sound { IsSoundFor (option_map (λ t. t.now) table) flash_len }
    ensures { result ≡ load_unit (option_map (λ t. t.now) table.entry) flash_len slot family }
{
    match table {
        Some(table) if family == ABSOLUTE_FAMILY => {
            if table.accepts_absolute() {
                Some(whole_flash(flash_len))
            } else {
                None
            }
        }
        Some(table) => accepting_unit(table.parts.as_slice(), family),
        None if family == ABSOLUTE_FAMILY => Some(whole_flash(flash_len)),
        None if DATA_FAMILY <= family && family <= ARM_NS_FAMILY => {
            Some(tableless_unit(flash_len, slot))
        }
        None => None,
    }
}
