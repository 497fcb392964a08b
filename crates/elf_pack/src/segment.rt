//! Segments of an ELF file.

ghost use Rattle.std.specs.Prelude.{◌≡◌, ◌⊎◌, ◌+◌, ◌*◌, ◌≤◌, IfOk, length};
ghost use Rattle.elf_pack.specs.Fields.{header_count, headers_at};
ghost use Rattle.elf_pack.specs.Segments.{is_segment_in_flash, is_in_sram, segment_at, segments};

use crate::fields::{half_at, word_at};
use load_map::{SRAM_END, SRAM_START};
use pico_board::{FLASH_BASE, MOST_FLASH_BYTES};
use std::alloc::{AllocError, Global};

/// The size of a program header.
pub(crate) const HEADER: usize = 32;

/// The type of a program header that asks for bytes to be loaded.
const LOADED: u32 = 1;

/// The address after the last one of the greatest flash.
const FLASH_END: u64 = FLASH_BASE as u64 + MOST_FLASH_BYTES as u64;

/// What a program header asks to be loaded.
#[derive(Clone, Copy, Debug, PartialEq, Eq)]
pub(crate) struct Segment {
    /// The number of the program header.
    pub(crate) number: u32,
    /// The offset in the file of the segment's bytes.
    pub(crate) offset: u32,
    /// The physical address of the segment's bytes.
    pub(crate) address: u32,
    /// The number of the segment's bytes in the file.
    pub(crate) size: u32,
}

/// The segment of this program header, where it is one.
#[tactic(auto, unfolding(crate::specs::Segments::segment_at))]
fn segment_at(elf: &[u8], number: u32) -> Option<Segment>
    requires long { 52 ≤ length elf.now }
    requires inside { headers_at elf.now + 32 * number + 32 ≤ length elf.now }
    ensures { result ≡ segment_at elf.now number }
{
    let at = word_at(elf, 28) as usize + HEADER * number as usize;
    let size = word_at(elf, at + 16);
    if word_at(elf, at) == LOADED && size > 0 {
        Some(Segment {
            number,
            offset: word_at(elf, at + 4),
            address: word_at(elf, at + 12),
            size,
        })
    } else {
        None
    }
}

/// The segments of a file.
pub(crate) fn segments(alloc: Global, elf: &[u8]) -> Result<Vec<Segment>, AllocError>
    requires long { 52 ≤ length elf.now }
    requires inside { (header_count elf.now ≡ 0)
        ⊎ (headers_at elf.now + 32 * header_count elf.now ≤ length elf.now) }
    ensures value { IfOk result (λ found. found.items ≡ segments elf.now) }
    ensures few { IfOk result (λ found. length found.items ≤ 65535) }
{
    let mut found = Vec::new(alloc);
    let count = u32::from(half_at(elf, 44));
    for number in 0..count {
        if let Some(segment) = segment_at(elf, number) {
            found.push(segment)?;
        }
    }
    Ok(found)
}

/// Whether a segment lies wholly in the addresses of flash.
pub(crate) fn is_segment_in_flash(segment: &Segment) -> bool
    ensures { result ≡ is_segment_in_flash segment.now }
{
    let (first, size) = (u64::from(segment.address), u64::from(segment.size));
    u64::from(FLASH_BASE) <= first && first + size <= FLASH_END
}

/// Whether a segment lies wholly in SRAM.
pub(crate) fn is_in_sram(segment: &Segment) -> bool
    ensures { result ≡ is_in_sram segment.now }
{
    let (first, size) = (u64::from(segment.address), u64::from(segment.size));
    u64::from(SRAM_START) <= first && first + size <= u64::from(SRAM_END)
}
