//! Lists of UF2 families.

ghost use Rattle.std.specs.Prelude.{◌≡◌, ◌<◌, ◌≤◌, length, map, IfSome};
ghost use Rattle.std.specs.List.{list_any, list_all};
ghost use Rattle.serde_json.specs.View.{view};
ghost use Rattle.table_json.specs.Families.{named_family, is_family_name, is_family, names_family, bit_if, family_bits, few_numbers, names_in, names_form, families_in, families_form, no_families};

use crate::forms::{number_below, values};
use arrayvec::ArrayVec;
use part_table::{
    ABSOLUTE_FAMILY, ARM_NS_FAMILY, ARM_S_FAMILY, DATA_FAMILY, RISCV_FAMILY, RP2040_FAMILY,
    family_of,
};
use serde_json::Value;

/// The families that a partition accepts.
#[derive(Drop)]
pub(crate) struct Families {
    /// A bit for each of the six families with a name, in the order of their numbers.
    pub bits: u32,
    /// The numbers of other families.
    pub numbers: ArrayVec<u32, 3>,
}

/// No family has a number of this or above.
const NUMBERS: u64 = 0x1_0000_0000;

/// No family.
pub(crate) fn no_families() -> Families
    ensures { result ≡ no_families }
{
    Families {
        bits: 0,
        numbers: ArrayVec::new(),
    }
}

/// The family that a value names.
fn named_family(value: &Value) -> Option<u32>
    ensures { result ≡ named_family (view value.now) }
{
    family_of(value.as_str()?)
}

/// Whether a value is the name of a family.
fn is_family_name(value: &Value) -> bool
    ensures { result ≡ is_family_name (view value.now) }
{
    named_family(value).is_some()
}

/// Whether a value is a family: a name, or a number below 2^32.
fn is_family(value: &Value) -> bool
    ensures { result ≡ is_family (view value.now) }
{
    is_family_name(value) || number_below(value, NUMBERS).is_some()
}

/// Whether all values are names of families.
fn are_names(values: &[Value]) -> bool
    ensures { result ≡ list_all is_family_name (map view values.now) }
{
    for value in values {
        if !is_family_name(value) {
            return false;
        }
    }
    true
}

/// Whether all values are families.
fn are_families(values: &[Value]) -> bool
    ensures { result ≡ list_all is_family (map view values.now) }
{
    for value in values {
        if !is_family(value) {
            return false;
        }
    }
    true
}

/// Whether a value names this family.
fn names_family(value: &Value, family: u32) -> bool
    ensures { result ≡ names_family family (view value.now) }
{
    match named_family(value) {
        Some(named) => named == family,
        None => false,
    }
}

/// Whether a value of a list names this family.
fn is_named(values: &[Value], family: u32) -> bool
    ensures { result ≡ list_any (names_family family) (map view values.now) }
{
    for value in values {
        if names_family(value, family) {
            return true;
        }
    }
    false
}

/// A bit that is set where a list names its family.
pub(crate) fn bit_if(set: bool, bit: u32) -> u32
    ensures value { result ≡ bit_if set bit }
    ensures small { result ≤ bit }
{
    if set { bit } else { 0 }
}

/// The six bits of a list.
fn family_bits(values: &[Value]) -> u32
    ensures value { result ≡ family_bits (map view values.now) }
    ensures small { result < 64 }
{
    bit_if(is_named(values, RP2040_FAMILY), 1)
        + bit_if(is_named(values, ABSOLUTE_FAMILY), 2)
        + bit_if(is_named(values, DATA_FAMILY), 4)
        + bit_if(is_named(values, ARM_S_FAMILY), 8)
        + bit_if(is_named(values, RISCV_FAMILY), 16)
        + bit_if(is_named(values, ARM_NS_FAMILY), 32)
}

/// The numbers of a list, in its order; None where there are more than three.
fn few_numbers(values: &[Value]) -> Option<ArrayVec<u32, 3>>
    ensures { result ≡ few_numbers (map view values.now) }
{
    let mut numbers = ArrayVec::new();
    for value in values {
        if let Some(number) = number_below(value, NUMBERS) {
            if numbers.is_full() {
                return None;
            }
            numbers.push(number as u32);
        }
    }
    Some(numbers)
}

/// The bits of a list of names.
fn names_in(values: &[Value]) -> Option<u32>
    ensures value { result ≡ names_in (map view values.now) }
    ensures small { IfSome result (λ bits. bits < 64) }
{
    if are_names(values) {
        Some(family_bits(values))
    } else {
        None
    }
}

/// The families of a list of names and numbers.
fn families_in(values: &[Value]) -> Option<Families>
    ensures value { result ≡ families_in (map view values.now) }
    ensures small { IfSome result (λ families. families.bits < 64) }
    ensures few { IfSome result (λ families. length families.numbers.items ≤ 3) }
{
    if are_families(values) {
        Some(Families {
            bits: family_bits(values),
            numbers: few_numbers(values)?,
        })
    } else {
        None
    }
}

/// A list of names, as their bits.
pub(crate) fn names_form(value: &Value) -> Option<u32>
    ensures value { result ≡ names_form (view value.now) }
    ensures small { IfSome result (λ bits. bits < 64) }
{
    names_in(values(value)?)
}

/// A list of names and numbers.
pub(crate) fn families_form(value: &Value) -> Option<Families>
    ensures value { result ≡ families_form (view value.now) }
    ensures small { IfSome result (λ families. families.bits < 64) }
    ensures few { IfSome result (λ families. length families.numbers.items ≤ 3) }
{
    families_in(values(value)?)
}
