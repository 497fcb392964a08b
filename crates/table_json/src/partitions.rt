//! The partitions of a text.

ghost use Rattle.std.specs.Prelude.{◌≡◌, ◌+◌, ◌*◌, ◌/◌, ◌%◌, ◌^◌, ◌<◌, ◌≤◌, false, All, [], length, map, is_some, None, IfSome, IfOk};
ghost use Rattle.serde_json.specs.Find.{as_bool};
ghost use Rattle.serde_json.specs.View.{view};
ghost use Rattle.part_table.specs.Fields.{has_id, has_name, family_count};
ghost use Rattle.part_table.specs.Written.{AgreesWithFlags};
ghost use Rattle.table_json.specs.Members.{required, optional};
ghost use Rattle.table_json.specs.Forms.{number_below, permissions_form, link_form};
ghost use Rattle.table_json.specs.Families.{names_form, families_form, no_families};
ghost use Rattle.table_json.specs.Partitions.{location_word, marks_word, flag_word, partition_from_fields, id_form, some_name, marks_of, partition_of_value, partitions_after, unpartitioned_of};

use crate::families::{Families, bit_if, families_form, names_form, no_families};
use crate::forms::{link_form, name_form, number_below, permissions_form};
use crate::members::{Shape, judge_object};
use crate::{Field, JsonFault, Place};
use arrayvec::ArrayVec;
use part_table::Partition;
use serde_json::Value;

/// The truth value of a member, false where it is absent.
pub(crate) fn truth(object: &Value, place: Place, field: Field) -> Result<bool, JsonFault>
    ensures { result ≡ optional as_bool false place field (view object.now) }
{
    match object.get(field.name()) {
        None => Ok(false),
        Some(value) => value.as_bool().ok_or(JsonFault::Value(place, field)),
    }
}

/// The sector of a value.
fn sector_in(value: &Value) -> Option<u32>
    ensures value { result ≡ number_below 8192 (view value.now) }
    ensures small { IfSome result (λ sector. sector < 8192) }
{
    Some(number_below(value, 8192)? as u32)
}

/// A required sector.
fn sector(object: &Value, place: Place, field: Field) -> Result<u32, JsonFault>
    ensures value { result ≡ required (number_below 8192) place field (view object.now) }
    ensures small { IfOk result (λ sector. sector < 8192) }
{
    match object.get(field.name()) {
        None => Err(JsonFault::Missing(place, field)),
        Some(value) => match sector_in(value) {
            Some(sector) => Ok(sector),
            None => Err(JsonFault::Value(place, field)),
        },
    }
}

/// The families that a partition accepts.
fn families(object: &Value, place: Place) -> Result<Families, JsonFault>
    ensures value { result
        ≡ optional families_form no_families place Field.Families (view object.now) }
    ensures small { IfOk result (λ families. families.bits < 64) }
    ensures few { IfOk result (λ families. length families.numbers.items ≤ 3) }
{
    match object.get(Field::Families.name()) {
        None => Ok(no_families()),
        Some(value) => match families_form(value) {
            Some(families) => Ok(families),
            None => Err(JsonFault::Value(place, Field::Families)),
        },
    }
}

/// The bits of the families by name that unpartitioned sectors accept.
fn names(object: &Value, place: Place) -> Result<u32, JsonFault>
    ensures value { result ≡ optional names_form 0 place Field.Families (view object.now) }
    ensures small { IfOk result (λ bits. bits < 64) }
{
    match object.get(Field::Families.name()) {
        None => Ok(0),
        Some(value) => match names_form(value) {
            Some(bits) => Ok(bits),
            None => Err(JsonFault::Value(place, Field::Families)),
        },
    }
}

/// The six bits of permissions.
fn permissions(object: &Value, place: Place) -> Result<u32, JsonFault>
    ensures value { result
        ≡ required permissions_form place Field.Permissions (view object.now) }
    ensures small { IfOk result (λ permissions. permissions < 64) }
{
    match object.get(Field::Permissions.name()) {
        None => Err(JsonFault::Missing(place, Field::Permissions)),
        Some(value) => match permissions_form(value) {
            Some(permissions) => Ok(permissions),
            None => Err(JsonFault::Value(place, Field::Permissions)),
        },
    }
}

/// The id.
fn id(object: &Value, place: Place) -> Result<Option<u64>, JsonFault>
    ensures { result ≡ optional id_form None place Field.Id (view object.now) }
{
    match object.get(Field::Id.name()) {
        None => Ok(None),
        Some(value) => match value.as_u64() {
            Some(id) => Ok(Some(id)),
            None => Err(JsonFault::Value(place, Field::Id)),
        },
    }
}

/// The name.
fn name(object: &Value, place: Place) -> Result<Option<ArrayVec<u8, 127>>, JsonFault>
    ensures { result ≡ optional some_name None place Field.Name (view object.now) }
{
    match object.get(Field::Name.name()) {
        None => Ok(None),
        Some(value) => match name_form(value) {
            Some(name) => Ok(Some(name)),
            None => Err(JsonFault::Value(place, Field::Name)),
        },
    }
}

/// The link, as bits 1 to 6 of a flag word.
fn link(object: &Value, place: Place) -> Result<u32, JsonFault>
    ensures value { result ≡ optional link_form 0 place Field.Link (view object.now) }
    ensures even { IfOk result (λ link. link % 2 ≡ 0) }
    ensures small { IfOk result (λ link. link < 128) }
{
    match object.get(Field::Link.name()) {
        None => Ok(0),
        Some(value) => match link_form(value) {
            Some(link) => Ok(link),
            None => Err(JsonFault::Value(place, Field::Link)),
        },
    }
}

/// Bits 9, 10 and 13 of a flag word.
fn marks_word(arm: bool, riscv: bool, stays: bool) -> u32
    ensures value { result ≡ marks_word arm riscv stays }
    ensures whole { result % 512 ≡ 0 }
    ensures free { result / 2048 % 4 ≡ 0 }
    ensures small { result < 16384 }
{
    bit_if(arm, 512) + bit_if(riscv, 1024) + bit_if(stays, 8192)
}

/// The marks of partition i.
fn marks(object: &Value, i: u32) -> Result<u32, JsonFault>
    ensures value { result ≡ marks_of i (view object.now) }
    ensures whole { IfOk result (λ marks. marks % 512 ≡ 0) }
    ensures free { IfOk result (λ marks. marks / 2048 % 4 ≡ 0) }
    ensures small { IfOk result (λ marks. marks < 16384) }
{
    let arm = truth(object, Place::Partition(i), Field::IgnoreArm)?;
    let riscv = truth(object, Place::Partition(i), Field::IgnoreRiscv)?;
    let stays = truth(object, Place::Partition(i), Field::NoReboot)?;
    Ok(marks_word(arm, riscv, stays))
}

/// A location word.
fn location_word(first: u32, last: u32, permissions: u32) -> u32
    requires first { first < 8192 }
    requires last { last < 8192 }
    requires permissions { permissions < 64 }
    ensures { result ≡ location_word first last permissions }
{
    first + 8192 * last + 67108864 * permissions
}

/// A flag word.
fn flag_word(
    identified: bool,
    link: u32,
    extra: u32,
    marks: u32,
    named: bool,
    bits: u32,
    permissions: u32,
) -> u32
    requires even { link % 2 ≡ 0 }
    requires link { link < 128 }
    requires extra { extra ≤ 3 }
    requires whole { marks % 512 ≡ 0 }
    requires free { marks / 2048 % 4 ≡ 0 }
    requires marks { marks < 16384 }
    requires bits { bits < 64 }
    requires permissions { permissions < 64 }
    ensures value { result ≡ flag_word identified link extra marks named bits permissions }
    ensures id { has_id result ≡ identified }
    ensures families { family_count result ≡ extra }
    ensures name { has_name result ≡ named }
{
    bit_if(identified, 1)
        + link
        + 128 * extra
        + marks
        + bit_if(named, 4096)
        + 16384 * bits
        + 67108864 * permissions
}

/// A partition of these parts.
fn partition_from_fields(
    location: u32,
    families: Families,
    permissions: u32,
    id: Option<u64>,
    name: Option<ArrayVec<u8, 127>>,
    link: u32,
    marks: u32,
) -> Partition
    requires bits { families.bits < 64 }
    requires extra { length families.numbers.items ≤ 3 }
    requires permissions { permissions < 64 }
    requires even { link % 2 ≡ 0 }
    requires link { link < 128 }
    requires whole { marks % 512 ≡ 0 }
    requires free { marks / 2048 % 4 ≡ 0 }
    requires marks { marks < 16384 }
    ensures value { result
        ≡ partition_from_fields location families permissions id name link marks }
    ensures agrees { AgreesWithFlags result }
{
    let extra = families.numbers.len() as u32;
    let flags = flag_word(
        id.is_some(),
        link,
        extra,
        marks,
        name.is_some(),
        families.bits,
        permissions,
    );
    Partition {
        location,
        flags,
        id,
        families: families.numbers,
        name,
    }
}

/// Partition i of a text, or its first fault.
fn partition(value: &Value, i: u32) -> Result<Partition, JsonFault>
    ensures value { result ≡ partition_of_value i (view value.now) }
    ensures agrees { IfOk result AgreesWithFlags }
{
    let place = Place::Partition(i);
    judge_object(value, Shape::OfPartition, place, Field::Families)?;
    let first = sector(value, place, Field::First)?;
    let last = sector(value, place, Field::Last)?;
    let families = families(value, place)?;
    let permissions = permissions(value, place)?;
    let id = id(value, place)?;
    let name = name(value, place)?;
    let link = link(value, place)?;
    let marks = marks(value, i)?;
    let location = location_word(first, last, permissions);
    Ok(partition_from_fields(location, families, permissions, id, name, link, marks))
}

/// The partitions of a list, in order, or their first fault.
pub(crate) fn partitions(values: &[Value]) -> Result<ArrayVec<Partition, 15>, JsonFault>
    requires { length values.now ≤ 15 }
    ensures value { result ≡ partitions_after [] (map view values.now) }
    ensures agree { IfOk result (λ parts. All AgreesWithFlags parts.items) }
{
    let mut parts = ArrayVec::new();
    for value in values {
        let part = partition(value, parts.len() as u32)?;
        parts.push(part);
    }
    Ok(parts)
}

/// The word for the sectors that no partition has, or its first fault.
pub(crate) fn unpartitioned(value: &Value) -> Result<u32, JsonFault>
    ensures { result ≡ unpartitioned_of (view value.now) }
{
    let place = Place::Unpartitioned;
    judge_object(value, Shape::OfUnpartitioned, place, Field::Families)?;
    let bits = names(value, place)?;
    let permissions = permissions(value, place)?;
    Ok(16384 * bits + 67108864 * permissions)
}
