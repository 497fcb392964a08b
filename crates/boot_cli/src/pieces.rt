//! Bytes in pieces: a reader until it ends, and a writer until it has taken all. A call that a
//! signal interrupts is made again.

#[cfg(test)]
mod tests;

ghost use Rattle.std.specs.Prelude.{◌≡◌, ◌⊎◌, ◌<◌, ◌≤◌, ◌+◌, [], length, take, true, false, Ok, IsTrue, IsFalse, IfSome, OnOk};
ghost use Rattle.std.specs.Io.KnownBytes.{Appends, Consumes, IsAtEnd};
ghost use Rattle.boot_cli.specs.Pieces.{TakesFrom, AppendsInPart};

use pico_board::StoreFail;
use std::io::{ErrorKind, Read, Write};

/// The bytes that are read of a file at once.
const PIECE: usize = 65536;

/// Reads once, and again where a signal interrupts the read. The answer is how many bytes were
/// read; None where the reader answers another error.
fn read_again<R: Read>(reader: &mut R, buffer: &mut [u8]) -> Option<usize>
    ensures most { IfSome result (λ count. count ≤ length buffer.new) }
    ensures next { IfSome result (λ count. Consumes (R.remaining reader.old)
        (R.remaining reader.new) (take count buffer.new)) }
    ensures last { IfSome result
        (λ count. count ≡ 0 → 0 < length buffer.old → IsAtEnd (R.remaining reader.new)) }
{
    for _ in 0..u64::MAX {
        match reader.read(buffer) {
            Ok(count) => return Some(count),
            Err(error) if error.kind() == ErrorKind::Interrupted => {}
            Err(_) => return None,
        }
    }
    None
}

/// Reads the next bytes to the end of `into`: at most so many in all, and at most as many as the
/// buffer has now. The answer is whether there may be more. An error of the reader is a fault.
fn read_piece<R: Read>(
    reader: &mut R,
    buffer: &mut [u8],
    most: usize,
    into: &mut Vec<u8>,
) -> Result<bool, StoreFail>
    requires buffer { 0 < length buffer.old }
    requires most { length into.old.items ≤ most }
    ensures room { OnOk result (length into.new.items ≤ most) }
    ensures next { OnOk result
        (TakesFrom (R.remaining reader.old) into.old.items
        (R.remaining reader.new) into.new.items) }
    ensures more { result ≡ Ok true → length into.old.items < length into.new.items }
    ensures last { result ≡ Ok false → (length into.new.items ≡ most)
        ⊎ IsAtEnd (R.remaining reader.new) }
{
    let room = (most - into.len()).min(buffer.len());
    if room == 0 {
        return Ok(false);
    }
    let Some(count) = read_again(reader, &mut buffer[..room]) else {
        return Err(StoreFail::Fault);
    };
    match into.extend_from_slice(&buffer[..count]) {
        Ok(()) => Ok(count > 0),
        Err(_) => Err(StoreFail::Memory),
    }
}

/// Reads into an empty vector, a buffer's bytes at a time, until the reader ends, but at most so
/// many bytes.
fn read_pieces<R: Read>(
    reader: &mut R,
    buffer: &mut [u8],
    most: usize,
    into: &mut Vec<u8>,
) -> Result<(), StoreFail>
    requires buffer { 0 < length buffer.old }
    requires empty { into.old.items ≡ [] }
    ensures room { OnOk result (length into.new.items ≤ most) }
    ensures front { OnOk result
        (IfSome (R.remaining reader.old) (λ bytes. into.new.items ≡ take most bytes)) }
{
    while read_piece(reader, buffer, most, into)? {}
    Ok(())
}

/// Reads into an empty vector until the reader ends, but at most so many bytes. A read of no byte
/// is the end. Nothing is said of `into` after an error.
fn read_up_to<R: Read>(reader: &mut R, most: usize, into: &mut Vec<u8>) -> Result<(), StoreFail>
    requires { into.old.items ≡ [] }
    ensures room { OnOk result (length into.new.items ≤ most) }
    // Where the reader's bytes are known, these are the first of them, or all where it has fewer.
    ensures front { OnOk result
        (IfSome (R.remaining reader.old) (λ bytes. into.new.items ≡ take most bytes)) }
{
    let mut buffer = [0u8; PIECE];
    read_pieces(reader, &mut buffer, most, into)
}

/// Reads a file's bytes into an empty vector until the reader ends, but at most one byte more than
/// the limit. By this byte a caller sees that the file is longer. Nothing is said of `into` after
/// an error.
pub fn read_to_limit<R: Read>(
    reader: &mut R,
    limit: u32,
    into: &mut Vec<u8>,
) -> Result<(), StoreFail>
    requires { into.old.items ≡ [] }
    ensures room { OnOk result (length into.new.items ≤ limit + 1) }
    ensures front { OnOk result
        (IfSome (R.remaining reader.old) (λ bytes. into.new.items ≡ take (limit + 1) bytes)) }
{
    read_up_to(reader, limit as usize + 1, into)
}

/// Writes some of the bytes, again where a signal interrupts the write. Answers how many bytes the
/// writer took: none where it answers another error.
fn write_piece<W: Write>(writer: &mut W, bytes: &[u8]) -> usize
    ensures most { result ≤ length bytes.now }
    ensures taken { Appends (W.contents writer.old) (W.contents writer.new)
        (take result bytes.now) }
{
    for _ in 0..u64::MAX {
        match writer.write(bytes) {
            Ok(count) => return count,
            Err(error) if error.kind() == ErrorKind::Interrupted => {}
            Err(_) => return 0,
        }
    }
    0
}

/// Writes all the bytes, and answers whether the writer took them. It did not where it answers an
/// error, or takes no byte of what is left.
pub fn write_whole<W: Write>(writer: &mut W, bytes: &[u8]) -> bool
    ensures whole { IsTrue result
        → Appends (W.contents writer.old) (W.contents writer.new) bytes.now }
    ensures part { IsFalse result
        → AppendsInPart (W.contents writer.old) (W.contents writer.new) bytes.now }
{
    let mut rest = bytes;
    while !rest.is_empty() {
        let count = write_piece(writer, rest);
        if count == 0 {
            return false;
        }
        rest = &rest[count..];
    }
    true
}
