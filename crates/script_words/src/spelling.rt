//! The words of what a line says.

ghost use Rattle.std.specs.Prelude.{◌≡◌, ◌++◌, IfOk, OnOk, codes, map, option_map, string_bytes};
ghost use Rattle.hex.specs.Hex.{encode_lower};
ghost use Rattle.script_words.specs.Spelling.{family_name, family_text, line_text, number_text, plain_text, span_text, spelled, token_text, value_texts};
ghost use Rattle.script_words.specs.Values.{line_from, value_from};
ghost use Rattle.text_words.specs.Writing.{hex_row, hex_word};

use crate::forms::Form;
use crate::rows::Row;
use crate::values::{Line, Value};
use part_table::{
    ABSOLUTE_FAMILY, ARM_NS_FAMILY, ARM_S_FAMILY, DATA_FAMILY, RISCV_FAMILY, RP2040_FAMILY,
};
use std::alloc::{AllocError, Global};

/// The name of a family, where it has one (picotool's documentation, UF2 families).
fn family_name(family: u32) -> Option<&'static str>
    ensures { option_map (λ name. name.now) result ≡ family_name family }
{
    match family {
        RP2040_FAMILY => Some("rp2040"),
        ABSOLUTE_FAMILY => Some("absolute"),
        DATA_FAMILY => Some("data"),
        ARM_S_FAMILY => Some("rp2350-arm-s"),
        RISCV_FAMILY => Some("rp2350-riscv"),
        ARM_NS_FAMILY => Some("rp2350-arm-ns"),
        _ => None,
    }
}

/// The word of a family: its name where it has one, and otherwise its number.
fn family_text(alloc: Global, family: u32) -> Result<String, AllocError>
    ensures { IfOk result (λ text. string_bytes text ≡ family_text family) }
{
    match family_name(family) {
        Some(name) => format!(in alloc; "family={name}"),
        None => format!(in alloc; "family=0x{family:08x}"),
    }
}

/// The word of a form that says a number. It fails only where memory is out.
fn number_text(alloc: Global, form: Form, number: u32) -> Result<String, AllocError>
    ensures { IfOk result (λ text. string_bytes text ≡ number_text form number) }
{
    match form {
        Form::Number(_) => format!(in alloc; "{number}"),
        Form::NumberBehind(front) => {
            let front = front.text();
            format!(in alloc; "{front}{number}")
        }
        Form::HexBehind(front) => {
            let front = front.text();
            format!(in alloc; "{front}0x{number:08x}")
        }
        Form::OtpRow => format!(in alloc; "0x{number:03x}"),
        Form::Rest => format!(in alloc; "0x{number:08x}+"),
        Form::Family => family_text(alloc, number),
        _ => format!(in alloc; "0x{number:08x}"),
    }
}

/// The word of a form that says a start and a size. It fails only where memory is out.
fn span_text(alloc: Global, form: Form, start: u32, size: u32) -> Result<String, AllocError>
    ensures { IfOk result (λ text. string_bytes text ≡ span_text form start size) }
{
    match form {
        Form::SpanBehind(front) => {
            let front = front.text();
            format!(in alloc; "{front}0x{start:08x}+0x{size:08x}")
        }
        _ => format!(in alloc; "0x{start:08x}+0x{size:08x}"),
    }
}

/// The word that stands as it is.
fn plain_text(form: Form) -> &'static str
    ensures { result.now ≡ plain_text form }
{
    match form {
        Form::Is(word) => word.text(),
        _ => "",
    }
}

/// Appends the word of a form that says a value.
fn put_value(alloc: Global, form: Form, value: &Value, text: &mut String) -> Result<(), AllocError>
    ensures { OnOk result (string_bytes text.new
        ≡ string_bytes text.old ++ spelled form (value_from value.now)) }
{
    match value {
        Value::Plain => text.push_str(plain_text(form)),
        Value::Number(number) => {
            let word = number_text(alloc, form, *number)?;
            text.push_str(&word)
        }
        Value::Span(start, size) => {
            let word = span_text(alloc, form, *start, *size)?;
            text.push_str(&word)
        }
        Value::Bytes(bytes) => {
            let word = hex::encode(alloc, bytes.as_slice())?;
            text.push_str(&word)
        }
    }
}

/// Appends the words of a line behind the first, each after a blank.
fn put_values(
    alloc: Global,
    row: Row,
    values: &[Value],
    text: &mut String,
) -> Result<(), AllocError>
    ensures { OnOk result (string_bytes text.new
        ≡ string_bytes text.old ++ value_texts row 0 (map value_from values.now)) }
{
    let mut place = 0;
    for value in values {
        text.push_str(" ")?;
        put_value(alloc, row.form_at(place), value, text)?;
        place += 1;
    }
    Ok(())
}

/// Appends the token, where there is one.
fn put_token(alloc: Global, token: Option<u32>, text: &mut String) -> Result<(), AllocError>
    ensures { OnOk result (string_bytes text.new ≡ string_bytes text.old ++ token_text token) }
{
    match token {
        Some(token) => {
            let word = format!(in alloc; " token=0x{token:08x}")?;
            text.push_str(&word)
        }
        None => Ok(()),
    }
}

/// Appends the words of what a line says. It fails only where memory is out.
pub fn put_line(alloc: Global, line: &Line, text: &mut String) -> Result<(), AllocError>
    ensures { OnOk result (string_bytes text.new
        ≡ string_bytes text.old ++ line_text (line_from line.now)) }
{
    text.push_str(line.row.first())?;
    put_values(alloc, line.row, &line.values, text)?;
    put_token(alloc, line.token, text)
}
