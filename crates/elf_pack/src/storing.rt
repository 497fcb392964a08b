//! Segments in SRAM, stored after a block whose load map loads them.

ghost use Rattle.std.specs.Prelude.{◌≡◌, ◌+◌, ◌*◌, ◌≤◌, ◌++◌, IfOk, OnOk, length, pos};
ghost use Rattle.std.specs.List.{AllByRecursion, flat_map};
ghost use Rattle.pico_board.specs.declared.window.TheConstants.{MOST_FLASH_BYTES};
ghost use Rattle.block_codec.specs.Blocks.{frame};
ghost use Rattle.block_codec.specs.Words.{bytes_of};
ghost use Rattle.image_pack.specs.Filling.{padded, round_up, whole_words};
ghost use Rattle.image_pack.specs.Sealing.{entry_words, type_flags};
ghost use Rattle.elf_pack.specs.Binaries.{front_words, loads_from, sram_binary, sram_items, first_storage};
ghost use Rattle.elf_pack.specs.Faults.{IsInSram};
ghost use Rattle.elf_pack.specs.Fields.{entry_address};
ghost use Rattle.elf_pack.specs.Segments.{segment_bytes};
ghost use Rattle.elf_pack.specs.declared.segment.Segment.{Segment};

use crate::segment::Segment;
use arrayvec::ArrayVec;
use block_codec::kinds::{ENTRY_POINT, IMAGE_TYPE, LOAD_MAP};
use block_codec::{BlockError, write_block};
use load_map::SRAM_END;
use pico_board::{Cpu, ERASED};
use std::alloc::{AllocError, Global};

/// The offset from which on the segments are stored.
const STORED_AT: usize = 0x280;

/// The offset of the LOAD_MAP item.
const MAP_AT: u32 = 20;

/// The item words of the block: 4 before the LOAD_MAP item, its header, and 3 for each of at most
/// 29 segments.
type Words = ArrayVec<u32, 92>;

/// The smallest multiple of 4 that is at least n.
fn rounded_up(n: u32) -> u32
    requires { n ≤ 532480 }
    ensures value { result ≡ round_up 4 n }
    ensures above { n ≤ result }
    ensures below { result ≤ n + 3 }
{
    4 * ((n + 3) / 4)
}

/// The flags of the IMAGE_TYPE item: an executable for the RP2350, for Arm a secure one.
fn type_flags(cpu: Cpu) -> u32
    ensures value { result ≡ type_flags cpu }
    ensures small { result ≤ 0x1101 }
{
    match cpu {
        Cpu::Arm => 0x1021,
        Cpu::Riscv => 0x1101,
    }
}

/// The items before the load map.
fn front_words(cpu: Cpu, entry: u32) -> Words
    ensures value { result.items ≡ front_words cpu entry }
    ensures len { length result.items ≡ 4 }
{
    let mut words = Words::new();
    words.push(u32::from(IMAGE_TYPE) + 256 + 65536 * type_flags(cpu));
    words.push(u32::from(ENTRY_POINT) + 256 * 3);
    words.push(entry);
    words.push(SRAM_END);
    words
}

/// Appends the load map entries of segments that are stored from this offset on.
fn put_entries(words: &mut Words, at: u32, segments: &[Segment])
    requires room { length words.old.items + 3 * length segments.now ≤ 92 }
    requires place { at + 532484 * length segments.now ≤ MOST_FLASH_BYTES }
    requires in_sram { AllByRecursion IsInSram segments.now }
    ensures { words.new.items
        ≡ words.old.items ++ flat_map (entry_words 20) (loads_from at segments.now) }
{
    if let [first, rest @ ..] = segments {
        words.push((at as i32 - MAP_AT as i32).cast_unsigned());
        words.push(first.address);
        words.push(first.size);
        put_entries(words, at + rounded_up(first.size), rest);
    }
}

/// The items of the block.
#[tactic(auto, unfolding(crate::specs::Binaries::sram_items))]
fn sram_items(cpu: Cpu, entry: u32, segments: &[Segment]) -> Words
    requires few { length segments.now ≤ 29 }
    requires in_sram { AllByRecursion IsInSram segments.now }
    ensures { result.items ≡ sram_items cpu entry segments.now }
{
    let count = segments.len() as u32;
    let mut words = front_words(cpu, entry);
    words.push(u32::from(LOAD_MAP) + 256 * (1 + 3 * count) + 16_777_216 * count);
    put_entries(&mut words, STORED_AT as u32, segments);
    words
}

/// The one error of a block whose items are right.
fn want_of_memory(error: BlockError) -> AllocError
    requires { error ≡ BlockError.Memory }
{
    match error {
        BlockError::Memory => AllocError,
        _ => unreachable!(),
    }
}

/// The block, and erased bytes after it up to the first segment's.
fn sram_block(
    alloc: Global,
    cpu: Cpu,
    entry: u32,
    segments: &[Segment],
) -> Result<Vec<u8>, AllocError>
    requires few { length segments.now ≤ 29 }
    requires in_sram { AllByRecursion IsInSram segments.now }
    ensures value { IfOk result (λ bytes. bytes.items
        ≡ padded first_storage (bytes_of (frame (sram_items cpu entry segments.now) (pos 0)))) }
    ensures len { IfOk result (λ bytes. length bytes.items ≡ 640) }
{
    let mut bytes = Vec::new(alloc);
    let items = sram_items(cpu, entry, segments);
    match write_block(alloc, items.as_slice(), 0, &mut bytes) {
        Ok(()) => {}
        Err(error) => return Err(want_of_memory(error)),
    }
    bytes.resize(STORED_AT, ERASED)?;
    Ok(bytes)
}

/// Appends a segment's bytes in whole words.
fn put_segment(bytes: &mut Vec<u8>, elf: &[u8], segment: &Segment) -> Result<(), AllocError>
    requires inside { segment.now.offset + segment.now.size ≤ length elf.now }
    requires in_sram { IsInSram segment.now }
    requires small { length bytes.old.items ≤ MOST_FLASH_BYTES }
    ensures items { OnOk result (bytes.new.items
        ≡ bytes.old.items ++ whole_words (segment_bytes elf.now segment.now)) }
    ensures len { OnOk result (length bytes.new.items ≤ length bytes.old.items + 532484) }
{
    let from = segment.offset as usize;
    bytes.extend_from_slice(&elf[from..from + segment.size as usize])?;
    bytes.resize(
        bytes.len() + (rounded_up(segment.size) - segment.size) as usize,
        ERASED,
    )
}

/// The binary of segments in SRAM, with this entry.
pub(crate) fn sram_binary(
    alloc: Global,
    elf: &[u8],
    cpu: Cpu,
    entry: u32,
    segments: &[Segment],
) -> Result<Vec<u8>, AllocError>
    requires entry { entry ≡ entry_address elf.now }
    requires few { length segments.now ≤ 29 }
    requires in_sram { AllByRecursion IsInSram segments.now }
    requires inside { AllByRecursion (λ s. s.offset + s.size ≤ length elf.now) segments.now }
    ensures value { IfOk result (λ bytes. bytes.items ≡ sram_binary cpu elf.now segments.now) }
    ensures small { IfOk result (λ bytes. length bytes.items ≤ MOST_FLASH_BYTES) }
{
    let mut bytes = sram_block(alloc, cpu, entry, segments)?;
    for segment in segments {
        put_segment(&mut bytes, elf, segment)?;
    }
    Ok(bytes)
}
