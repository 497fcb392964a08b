//! UF2 blocks from bytes.

ghost use Rattle.std.specs.Prelude.{◌≡◌, ◌+◌, ◌≤◌, IfOk, length};
ghost use Rattle.uf2_place.specs.Blocks.{IsUf2, uf2_fields, has_magic, is_number, uf2_of, word_at};

use crate::block::{END, MOST_BLOCKS, PAYLOAD, SECOND, START, Uf2, Uf2Fault};
use byteorder::{ByteOrder, LittleEndian};

/// The block of 512 bytes, or the first fault.
pub fn read_uf2(bytes: &[u8; 512]) -> Result<Uf2, Uf2Fault>
    ensures exact { result ≡ uf2_of bytes.now }
    ensures block { IfOk result IsUf2 }
{
    if !has_magic(bytes) {
        return Err(Uf2Fault::Magic);
    }
    if word_at(bytes, 16) != PAYLOAD {
        return Err(Uf2Fault::Payload);
    }
    if word_at(bytes, 12) % 256 != 0 {
        return Err(Uf2Fault::Alignment);
    }
    if !is_number(word_at(bytes, 20), word_at(bytes, 24)) {
        return Err(Uf2Fault::Number);
    }
    Ok(uf2_fields(bytes))
}

/// The word at a place.
fn word_at(bytes: &[u8], at: usize) -> u32
    requires { at + 4 ≤ length bytes.now }
    ensures { result ≡ word_at bytes.now at }
{
    LittleEndian::read_u32(&bytes[at..])
}

/// Whether the three magic words stand in their places.
fn has_magic(bytes: &[u8; 512]) -> bool
    ensures { result ≡ has_magic bytes.now }
{
    word_at(bytes, 0) == START && word_at(bytes, 4) == SECOND && word_at(bytes, 508) == END
}

/// Whether a file may have this count of blocks, and one of this number.
fn is_number(number: u32, count: u32) -> bool
    ensures { result ≡ is_number number count }
{
    1 <= count && count <= MOST_BLOCKS && number < count
}

/// The fields of a block.
fn uf2_fields(bytes: &[u8; 512]) -> Uf2
    ensures { result ≡ uf2_fields bytes.now }
{
    let mut page = [0; 256];
    page.copy_from_slice(&bytes[32..288]);
    Uf2 {
        flags: word_at(bytes, 8),
        address: word_at(bytes, 12),
        number: word_at(bytes, 20),
        count: word_at(bytes, 24),
        family: word_at(bytes, 28),
        page,
    }
}
