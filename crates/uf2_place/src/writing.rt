//! The UF2 file of an image.

ghost use Rattle.std.specs.Prelude.{◌≡◌, ◌↔◌, ℕ, ◌+◌, ◌*◌, ◌<◌, ◌≤◌, Ok, Err, OnErr, OnOk, ◌++◌, drop, length};
ghost use Rattle.pico_board.specs.declared.window.TheConstants.{MOST_FLASH_BYTES};
ghost use Rattle.uf2_place.specs.Blocks.{number_bytes, place_bytes, word_bytes, written_block};
ghost use Rattle.uf2_place.specs.Files.{IsKept, file_block, file_bytes, page_count, page_of};
ghost use Rattle.uf2_place.specs.declared.block.Uf2WriteFault.TheVariants.{Empty, TooLarge};

use crate::block::{END, HAS_FAMILY, PAYLOAD, SECOND, START, Uf2, Uf2WriteFault};
use pico_board::{ERASED, FLASH_BASE, MOST_FLASH_BYTES};
use std::alloc::{AllocError, Global};

/// Appends the UF2 file of an image for a family: a block for each page of 256 bytes, the last one
/// filled with 0xff.
///
/// After a refusal `out` is as it was. Each block is read back by `read_uf2`.
pub fn write_uf2(
    alloc: Global,
    image: &[u8],
    family: u32,
    out: &mut Vec<u8>,
) -> Result<(), Uf2WriteFault>
    ensures ok { OnOk result (out.new.items ≡ out.old.items ++ file_bytes image.now family) }
    ensures empty { (result ≡ Err Empty) ↔ (length image.now ≡ 0) }
    ensures too_large { (result ≡ Err TooLarge) ↔ (MOST_FLASH_BYTES < length image.now) }
    ensures err { OnErr result (out.new.items ≡ out.old.items) }
{
    if image.is_empty() {
        return Err(Uf2WriteFault::Empty);
    }
    if image.len() > MOST_FLASH_BYTES {
        return Err(Uf2WriteFault::TooLarge);
    }
    let former = out.len();
    match append_blocks(image, family, out) {
        Ok(()) => Ok(()),
        Err(_) => {
            out.truncate(former);
            Err(Uf2WriteFault::Memory)
        }
    }
}

/// Appends the blocks of an image.
fn append_blocks(image: &[u8], family: u32, out: &mut Vec<u8>) -> Result<(), AllocError>
    requires few { length image.now ≤ MOST_FLASH_BYTES }
    ensures ok { OnOk result (out.new.items ≡ out.old.items ++ file_bytes image.now family) }
    ensures err { OnErr result (IsKept out.old.items out.new.items) }
{
    let count = image.len().div_ceil(256) as u32;
    for number in 0..count {
        append_block(&file_block(image, family, count, number), out)?;
    }
    Ok(())
}

/// Block number `number` of the file of an image.
fn file_block(image: &[u8], family: u32, count: u32, number: u32) -> Uf2
    requires few { length image.now ≤ MOST_FLASH_BYTES }
    requires count { count ≡ page_count (length image.now) }
    requires inside { number < count }
    ensures { result ≡ file_block image.now family number }
{
    Uf2 {
        flags: HAS_FAMILY,
        address: FLASH_BASE + 256 * number,
        number,
        count,
        family,
        page: page_of(image, number),
    }
}

/// Page number `number` of an image, filled up with 0xff.
fn page_of(image: &[u8], number: u32) -> [u8; 256]
    requires { 256 * number < length image.now }
    ensures { result ≡ page_of image.now number }
{
    let start = 256 * number as usize;
    let end = image.len().min(start + 256);
    let mut page = [ERASED; 256];
    copy_to_front(&image[start..end], &mut page);
    page
}

/// Copies bytes to the front of a buffer, whose other bytes stay.
fn copy_to_front(bytes: &[u8], buffer: &mut [u8])
    requires { length bytes.now ≤ length buffer.old }
    ensures { buffer.new ≡ bytes.now ++ drop (length bytes.now) buffer.old }
{
    buffer[..bytes.len()].copy_from_slice(bytes);
}

/// Appends the bytes of a block.
#[tactic(auto, unfolding(crate::specs::Blocks::written_block))]
fn append_block(block: &Uf2, out: &mut Vec<u8>) -> Result<(), AllocError>
    ensures ok { OnOk result (out.new.items ≡ out.old.items ++ written_block block.now) }
    ensures err { OnErr result (IsKept out.old.items out.new.items) }
{
    append_place(block, out)?;
    append_number(block, out)?;
    out.extend_from_slice(&block.page)?;
    out.extend_from_slice(&[0; 220])?;
    append_word(END, out)
}

/// Appends the first half of a block's header: two magic words, the flags and the address.
fn append_place(block: &Uf2, out: &mut Vec<u8>) -> Result<(), AllocError>
    ensures ok { OnOk result (out.new.items ≡ out.old.items ++ place_bytes block.now) }
    ensures err { OnErr result (IsKept out.old.items out.new.items) }
{
    append_word(START, out)?;
    append_word(SECOND, out)?;
    append_word(block.flags, out)?;
    append_word(block.address, out)
}

/// Appends the second half of a block's header: payload size, number, count and family.
fn append_number(block: &Uf2, out: &mut Vec<u8>) -> Result<(), AllocError>
    ensures ok { OnOk result (out.new.items ≡ out.old.items ++ number_bytes block.now) }
    ensures err { OnErr result (IsKept out.old.items out.new.items) }
{
    append_word(PAYLOAD, out)?;
    append_word(block.number, out)?;
    append_word(block.count, out)?;
    append_word(block.family, out)
}

/// Appends the bytes of a word.
#[tactic(auto, unfolding(crate::specs::Blocks::word_bytes))]
fn append_word(word: u32, out: &mut Vec<u8>) -> Result<(), AllocError>
    ensures ok { OnOk result (out.new.items ≡ out.old.items ++ word_bytes word) }
    ensures err { OnErr result (out.new.items ≡ out.old.items) }
{
    out.extend_from_slice(&word.to_le_bytes())
}
