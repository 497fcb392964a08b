//! The forms of the values of members: a form reads a value, or refuses it.

ghost use Rattle.std.specs.Prelude.{◌≡◌, ◌%◌, ◌<◌, ◌≤◌, ◌^◌, length, map, IfSome, option_map};
ghost use Rattle.serde_json.specs.View.{view};
ghost use Rattle.table_json.specs.Forms.{values_in, number_in, number_below, number_of_digits, number_of_text, number_or_text, version_in_list, version_form, name_of_text, name_form, link_type_of, link_in, link_form, rights_of, rights_form, rights_for, permissions_in, permissions_form};

use crate::members::{Shape, has_unknown, is_word};
use arrayvec::ArrayVec;
use block_codec::Version;
use serde_json::Value;
use text_words::{behind_word, hex_number};

/// The values of a list.
pub(crate) fn values(value: &Value) -> Option<&[Value]>
    ensures { option_map (λ values. map view values.now) result ≡ values_in (view value.now) }
{
    Some(value.as_array()?.as_slice())
}

/// A number below a bound.
pub(crate) fn number_below(value: &Value, bound: u64) -> Option<u64>
    ensures value { result ≡ number_below bound (view value.now) }
    ensures small { IfSome result (λ n. n < bound) }
{
    let number = value.as_u64()?;
    if number < bound { Some(number) } else { None }
}

/// The number of 1 to 6 hexadecimal digits of either case.
fn number_of_digits(digits: &[u8]) -> Option<u64>
    ensures { result ≡ number_of_digits digits.now }
{
    if digits.is_empty() || digits.len() > 6 {
        return None;
    }
    Some(u64::from(hex_number(digits)?))
}

/// The number that a text names by 0x and 1 to 6 hexadecimal digits of either case.
fn number_of_text(text: &str) -> Option<u64>
    ensures { result ≡ number_of_text text.now }
{
    number_of_digits(behind_word(text.as_bytes(), b"0x".as_slice())?)
}

/// A number, or that which a text names.
pub(crate) fn number_or_text(value: &Value) -> Option<u64>
    ensures { result ≡ number_or_text (view value.now) }
{
    match value.as_u64() {
        Some(number) => Some(number),
        None => number_of_text(value.as_str()?),
    }
}

/// A number below 65,536.
pub(crate) fn half_word(value: &Value) -> Option<u16>
    ensures { result ≡ number_below 65536 (view value.now) }
{
    Some(number_below(value, 65536)? as u16)
}

/// The version of two values.
fn version_in_list(values: &[Value]) -> Option<Version>
    ensures { result ≡ version_in_list (map view values.now) }
{
    match values {
        [major, minor] => Some(Version {
            major: half_word(major)?,
            minor: half_word(minor)?,
        }),
        _ => None,
    }
}

/// A version: a list of two numbers below 65,536, major first.
pub(crate) fn version_form(value: &Value) -> Option<Version>
    ensures { result ≡ version_form (view value.now) }
{
    version_in_list(values(value)?)
}

/// A name: a text of at most 127 bytes.
pub(crate) fn name_form(value: &Value) -> Option<ArrayVec<u8, 127>>
    ensures { result ≡ name_form (view value.now) }
{
    let text = value.as_str()?.as_bytes();
    if text.len() <= 127 {
        let mut name = ArrayVec::new();
        name.try_extend_from_slice(text).unwrap();
        Some(name)
    } else {
        None
    }
}

/// The type of a link, by its word.
fn link_type(word: &str) -> Option<u32>
    ensures value { result ≡ link_type_of word.now }
    ensures small { IfSome result (λ kind. kind < 3) }
{
    if is_word(word, "a") {
        Some(1)
    } else if is_word(word, "owner") {
        Some(2)
    } else {
        None
    }
}

/// The link of two values, as bits 1 to 6 of a flag word.
fn link_in(values: &[Value]) -> Option<u32>
    ensures value { result ≡ link_in (map view values.now) }
    ensures even { IfSome result (λ link. link % 2 ≡ 0) }
    ensures small { IfSome result (λ link. link < 128) }
{
    match values {
        [word, number] => {
            let kind = link_type(word.as_str()?)?;
            Some(2 * kind + 8 * number_below(number, 16)? as u32)
        }
        _ => None,
    }
}

/// A link: a list of its word and the number of a partition, below 16.
pub(crate) fn link_form(value: &Value) -> Option<u32>
    ensures value { result ≡ link_form (view value.now) }
    ensures even { IfSome result (λ link. link % 2 ≡ 0) }
    ensures small { IfSome result (λ link. link < 128) }
{
    link_in(values(value)?)
}

/// The rights of a text: 1 to read, 2 to write.
fn rights(text: &str) -> Option<u32>
    ensures value { result ≡ rights_of text.now }
    ensures small { IfSome result (λ rights. rights < 4) }
{
    if is_word(text, "") {
        Some(0)
    } else if is_word(text, "r") {
        Some(1)
    } else if is_word(text, "w") {
        Some(2)
    } else if is_word(text, "rw") {
        Some(3)
    } else {
        None
    }
}

/// The rights that an object gives to the party of this name.
fn rights_for(value: &Value, name: &str) -> Option<u32>
    ensures value { result ≡ rights_for name.now (view value.now) }
    ensures small { IfSome result (λ rights. rights < 4) }
{
    rights(value.get(name)?.as_str()?)
}

/// The rights of an object of three members.
fn permissions_in(value: &Value) -> Option<u32>
    ensures value { result ≡ permissions_in (view value.now) }
    ensures small { IfSome result (λ permissions. permissions < 64) }
{
    let secure = rights_for(value, "secure")?;
    let nonsecure = rights_for(value, "nonsecure")?;
    let bootloader = rights_for(value, "bootloader")?;
    Some(secure + 4 * nonsecure + 16 * bootloader)
}

/// Permissions: an object with exactly three members, as six bits.
pub(crate) fn permissions_form(value: &Value) -> Option<u32>
    ensures value { result ≡ permissions_form (view value.now) }
    ensures small { IfSome result (λ permissions. permissions < 64) }
{
    if has_unknown(Shape::OfPermissions, value.as_object()?) {
        return None;
    }
    permissions_in(value)
}
