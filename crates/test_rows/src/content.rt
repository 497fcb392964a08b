//! A content that lines describe: `size N`, and then a line for each piece, `OFFSET HEX`, or
//! `OFFSET HEX * COUNT` where the piece stands so many times behind one another. Bytes that no line
//! names are 0xff.

use anyhow::{Context, Result, bail, ensure};
use std::alloc::Global;
use text_words::{read_bytes, read_number};

/// The number that a text is.
pub fn number_in(text: &str) -> Result<usize> {
    let number = read_number(text.as_bytes()).context("a number is wanted")?;
    Ok(number as usize)
}

/// The bytes of a piece.
fn piece_in(alloc: Global, digits: &str) -> Result<Vec<u8>> {
    read_bytes(alloc, digits.as_bytes())?.context("hexadecimal digits are wanted")
}

/// A content of so many bytes, each of which is 0xff.
pub fn blank(alloc: Global, size: &str) -> Result<Vec<u8>> {
    Ok(vec![in alloc; 0xff; number_in(size)?]?)
}

/// Writes a piece of one byte at least so many times into the content, from an offset on.
fn put_piece(content: &mut [u8], offset: usize, piece: &[u8], count: usize) -> Result<()> {
    ensure!(!piece.is_empty(), "a piece has no byte");
    let end = piece
        .len()
        .checked_mul(count)
        .and_then(|size| size.checked_add(offset))
        .context("a piece is too long")?;
    ensure!(end <= content.len(), "a piece ends past its content");
    for place in content[offset..end].chunks_exact_mut(piece.len()) {
        place.copy_from_slice(piece);
    }
    Ok(())
}

/// Writes what a line says into the content.
pub fn put_line(alloc: Global, content: &mut [u8], line: &str) -> Result<()> {
    let Some((offset, rest)) = line.split_once(' ') else {
        bail!("a line of a content is wanted");
    };
    let (digits, count) = match rest.split_once(" * ") {
        Some((digits, count)) => (digits, number_in(count)?),
        None => (rest, 1),
    };
    let piece = piece_in(alloc, digits)?;
    put_piece(content, number_in(offset)?, &piece, count)
}
