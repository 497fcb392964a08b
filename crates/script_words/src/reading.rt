//! What a word says, by its form.

ghost use Rattle.std.specs.Prelude.{◌≡◌, ◌≤◌, IfOk, length, option_map};
ghost use Rattle.script_words.specs.Values.{ValueView, bytes_word, digits_in, family_word, hex_word_in, number_within, rest_in, row_in, short_in, some_span_in, span_in, value_from, value_in};
ghost use Rattle.part_table.specs.Families.{family_of};

use crate::forms::{Form, Keyword};
use crate::splitting::cut_at;
use crate::values::Value;
use part_table::{
    ABSOLUTE_FAMILY, ARM_NS_FAMILY, ARM_S_FAMILY, DATA_FAMILY, RISCV_FAMILY, RP2040_FAMILY,
};
use std::alloc::{AllocError, Global};
use text_words::{behind_word, decimal_number, hex_number};

/// The decimal number of 1 to 10 digits that a word is, at most this one.
fn number_within(most: u32, word: &[u8]) -> Option<u32>
    ensures { result ≡ number_within most word.now }
{
    let number = decimal_number(word)?;
    if number <= most { Some(number) } else { None }
}

/// The number of so many hexadecimal digits of either case, and at least one.
fn digits_in(most: usize, digits: &[u8]) -> Option<u32>
    requires { most ≤ 8 }
    ensures { result ≡ digits_in most digits.now }
{
    if digits.is_empty() || digits.len() > most {
        return None;
    }
    hex_number(digits)
}

/// The number of 0x and 1 to 8 hexadecimal digits.
fn hex_in(word: &[u8]) -> Option<u32>
    ensures { result ≡ hex_word_in word.now }
{
    digits_in(8, behind_word(word, b"0x".as_slice())?)
}

/// The number of 0x and 1 to 3 hexadecimal digits.
fn row_in(word: &[u8]) -> Option<u32>
    ensures { result ≡ row_in word.now }
{
    digits_in(3, behind_word(word, b"0x".as_slice())?)
}

/// A start and a size, with `+` between them.
fn span_in(word: &[u8]) -> Option<(u32, u32)>
    ensures { result ≡ span_in word.now }
{
    let (start, size) = cut_at(b'+', word);
    let start = hex_in(start)?;
    let size = hex_in(size?)?;
    Some((start, size))
}

/// A start and a size of at least one byte.
fn some_span_in(word: &[u8]) -> Option<(u32, u32)>
    ensures { result ≡ some_span_in word.now }
{
    let (start, size) = span_in(word)?;
    if size == 0 { None } else { Some((start, size)) }
}

/// A start and `+`.
fn rest_in(word: &[u8]) -> Option<u32>
    ensures { result ≡ rest_in word.now }
{
    let (start, rest) = cut_at(b'+', word);
    let start = hex_in(start)?;
    if rest?.is_empty() { Some(start) } else { None }
}

/// The family of a name (picotool's documentation, UF2 families).
fn named_family(name: &[u8]) -> Option<u32>
    ensures { result ≡ family_of name.now }
{
    if name == b"rp2040".as_slice() {
        Some(RP2040_FAMILY)
    } else if name == b"absolute".as_slice() {
        Some(ABSOLUTE_FAMILY)
    } else if name == b"data".as_slice() {
        Some(DATA_FAMILY)
    } else if name == b"rp2350-arm-s".as_slice() {
        Some(ARM_S_FAMILY)
    } else if name == b"rp2350-riscv".as_slice() {
        Some(RISCV_FAMILY)
    } else if name == b"rp2350-arm-ns".as_slice() {
        Some(ARM_NS_FAMILY)
    } else {
        None
    }
}

/// The family of 0x and 1 to 8 hexadecimal digits, or of a name, behind `family=`.
fn family_in(word: &[u8]) -> Option<u32>
    ensures { result ≡ family_word word.now }
{
    let text = behind_word(word, b"family=".as_slice())?;
    match hex_in(text) {
        Some(family) => Some(family),
        None => named_family(text),
    }
}

/// The bytes of two digits each, so many at least and so many at most.
fn bytes_in(
    alloc: Global,
    least: u32,
    most: u32,
    word: &[u8],
) -> Result<Option<Vec<u8>>, AllocError>
    ensures { IfOk result
        (λ found. option_map (λ bytes. bytes.items) found ≡ bytes_word least most word.now) }
{
    match hex::decode(alloc, word) {
        Ok(bytes) if least as usize <= bytes.len() && bytes.len() <= most as usize => {
            Ok(Some(bytes))
        }
        Err(hex::FromHexError::OutOfMemory) => Err(AllocError),
        _ => Ok(None),
    }
}

/// What a word of a form other than bytes says.
fn short_value(form: Form, word: &[u8]) -> Option<Value>
    ensures { option_map value_from result ≡ short_in form word.now }
{
    match form {
        Form::Is(text) if word == text.text().as_bytes() => Some(Value::Plain),
        Form::Is(_) => None,
        Form::Number(most) => Some(Value::Number(number_within(most, word)?)),
        Form::NumberBehind(front) => {
            let digits = behind_word(word, front.text().as_bytes())?;
            Some(Value::Number(decimal_number(digits)?))
        }
        Form::Hex => Some(Value::Number(hex_in(word)?)),
        Form::HexBehind(front) => {
            let digits = behind_word(word, front.text().as_bytes())?;
            Some(Value::Number(hex_in(digits)?))
        }
        Form::OtpRow => Some(Value::Number(row_in(word)?)),
        Form::Span => {
            let (start, size) = span_in(word)?;
            Some(Value::Span(start, size))
        }
        Form::SpanBehind(front) => {
            let (start, size) = span_in(behind_word(word, front.text().as_bytes())?)?;
            Some(Value::Span(start, size))
        }
        Form::SomeSpan => {
            let (start, size) = some_span_in(word)?;
            Some(Value::Span(start, size))
        }
        Form::Rest => Some(Value::Number(rest_in(word)?)),
        Form::Bytes(..) => None,
        Form::Family => Some(Value::Number(family_in(word)?)),
    }
}

/// What a word of a form says; None where it is not of the form. It fails only where memory is
/// out.
pub fn read_value(alloc: Global, form: Form, word: &[u8]) -> Result<Option<Value>, AllocError>
    ensures { IfOk result (λ found. option_map value_from found ≡ value_in form word.now) }
{
    match form {
        Form::Bytes(least, most) => match bytes_in(alloc, least, most, word)? {
            Some(bytes) => Ok(Some(Value::Bytes(bytes))),
            None => Ok(None),
        },
        _ => Ok(short_value(form, word)),
    }
}
