//! What a line says, by its words.

ghost use Rattle.std.specs.Prelude.{◌≡◌, ◌≤◌, IfOk, length, map};
ghost use Rattle.script_words.specs.Finding.{begins_command, begins_record, command_in, has_token, line_in, lines_read, read_row, read_rows, record_in, row_read, values_in, values_read, with_token};
ghost use Rattle.script_words.specs.Splitting.{word_bytes};

use crate::fault::LineFault;
use crate::forms::{Form, Keyword};
use crate::reading::read_value;
use crate::rows::{ROWS, Row};
use crate::splitting::Word;
use crate::values::{Line, Value};
use std::alloc::{AllocError, Global};
use text_words::behind_word;

/// What words behind the first say in a row, or the number of the first that is not of its form;
/// the first word of the line has the number 1. It fails only where memory is out.
fn read_values(
    alloc: Global,
    row: Row,
    words: &[Word<'_>],
) -> Result<Result<Vec<Value>, u32>, AllocError>
    requires { length words.now ≤ 4100 }
    ensures { IfOk result
        (λ read. values_read read ≡ values_in row 0 (map word_bytes words.now)) }
{
    let mut values = Vec::new(alloc);
    for word in words {
        match read_value(alloc, row.form_at(values.len()), word.bytes)? {
            Some(value) => values.push(value)?,
            None => return Ok(Err(values.len() as u32 + 2)),
        }
    }
    Ok(Ok(values))
}

/// What a line says in a row, where the row has this first word and so many words. Otherwise the
/// number of the first word that is not of its form, or 0.
fn read_row(
    alloc: Global,
    row: Row,
    first: &[u8],
    words: &[Word<'_>],
) -> Result<Result<Line, u32>, AllocError>
    requires { length words.now ≤ 4100 }
    ensures { IfOk result
        (λ read. row_read read ≡ read_row row first.now (map word_bytes words.now)) }
{
    if row.first().as_bytes() == first && row.has_words(words.len()) {
        match read_values(alloc, row, words)? {
            Ok(values) => Ok(Ok(Line {
                row,
                values,
                token: None,
            })),
            Err(number) => Ok(Err(number)),
        }
    } else {
        Ok(Err(0))
    }
}

/// What a line says in the first of these rows whose forms its words have. Otherwise the greatest
/// number of a first word that is not of its form, or 0. It fails only where memory is out.
fn read_rows(
    alloc: Global,
    rows: &[Row],
    first: &[u8],
    words: &[Word<'_>],
) -> Result<Result<Line, u32>, AllocError>
    requires { length words.now ≤ 4100 }
    ensures { IfOk result
        (λ read. row_read read ≡ read_rows rows.now first.now (map word_bytes words.now)) }
{
    let mut number = 0;
    for row in rows {
        match read_row(alloc, *row, first, words)? {
            Ok(line) => return Ok(Ok(line)),
            Err(other) => number = number.max(other),
        }
    }
    Ok(Err(number))
}

/// What a line says without its token. It fails only where memory is out.
fn read_record(
    alloc: Global,
    first: &[u8],
    words: &[Word<'_>],
) -> Result<Result<Line, LineFault>, AllocError>
    requires { length words.now ≤ 4100 }
    ensures { IfOk result
        (λ read. lines_read read ≡ record_in first.now (map word_bytes words.now)) }
{
    match read_rows(alloc, &ROWS, first, words)? {
        Ok(line) => Ok(Ok(line)),
        Err(0) => Ok(Err(LineFault::Words)),
        Err(number) => Ok(Err(LineFault::Value(number))),
    }
}

/// Whether a word begins a record.
fn begins_record(first: &[u8]) -> bool
    ensures { result ≡ begins_record first.now }
{
    ROWS.iter().any(|row| row.first().as_bytes() == first)
}

/// Whether a word begins a command in words.
fn begins_command(first: &[u8]) -> bool
    ensures { result ≡ begins_command first.now }
{
    ROWS.iter()
        .any(|row| row.is_command() && row.first().as_bytes() == first)
}

/// Whether a word begins with `token=`.
fn is_token(word: &[u8]) -> bool
    ensures { result ≡ has_token word.now }
{
    behind_word(word, Keyword::Token.text().as_bytes()).is_some()
}

/// What a line with a token says: its record, and then the token's word, which has this number.
/// It fails only where memory is out.
fn read_with_token(
    alloc: Global,
    first: &[u8],
    words: &[Word<'_>],
    token: &[u8],
) -> Result<Result<Line, LineFault>, AllocError>
    requires { length words.now ≤ 4099 }
    ensures { IfOk result (λ read. lines_read read
        ≡ with_token (length words.now) token.now (record_in first.now (map word_bytes words.now))) }
{
    let mut line = match read_record(alloc, first, words)? {
        Ok(line) => line,
        Err(fault) => return Ok(Err(fault)),
    };
    match read_value(alloc, Form::HexBehind(Keyword::Token), token)? {
        Some(Value::Number(token)) => {
            line.token = Some(token);
            Ok(Ok(line))
        }
        _ => Ok(Err(LineFault::Value(words.len() as u32 + 2))),
    }
}

/// What the line of a command in words says: it has a token where its last word begins so. It fails
/// only where memory is out.
fn read_command(
    alloc: Global,
    first: &[u8],
    words: &[Word<'_>],
) -> Result<Result<Line, LineFault>, AllocError>
    requires { length words.now ≤ 4100 }
    ensures { IfOk result
        (λ read. lines_read read ≡ command_in first.now (map word_bytes words.now)) }
{
    let [others @ .., last] = words else {
        return read_record(alloc, first, words);
    };
    if is_token(last.bytes) {
        read_with_token(alloc, first, others, last.bytes)
    } else {
        read_record(alloc, first, words)
    }
}

/// What the words of a line say, or the first fault. It fails only where memory is out.
pub fn read_line(alloc: Global, words: &[Word<'_>]) -> Result<Result<Line, LineFault>, AllocError>
    requires { length words.now ≤ 4100 }
    ensures { IfOk result (λ read. lines_read read ≡ line_in (map word_bytes words.now)) }
{
    let [first, words @ ..] = words else {
        return Ok(Err(LineFault::Word));
    };
    if !begins_record(first.bytes) {
        return Ok(Err(LineFault::Word));
    }
    if begins_command(first.bytes) {
        read_command(alloc, first.bytes, words)
    } else {
        read_record(alloc, first.bytes, words)
    }
}
