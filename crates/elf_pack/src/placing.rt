//! Segments in flash, placed by their addresses.

ghost use Rattle.std.specs.Prelude.{◌≡◌, ◌+◌, ◌-◌, ◌≤◌, ◌++◌, IfOk, length, take, drop, replicate, []};
ghost use Rattle.std.specs.List.{AllByRecursion};
ghost use Rattle.pico_board.specs.declared.window.TheConstants.{MOST_FLASH_BYTES};
ghost use Rattle.pico_board.specs.Content.{flash_base};
ghost use Rattle.elf_pack.specs.Binaries.{FitsIn, flash_binary, flash_bytes, greatest_end};
ghost use Rattle.elf_pack.specs.Faults.{IsInFlash};
ghost use Rattle.elf_pack.specs.Segments.{flash_end, segment_bytes};

use crate::segment::Segment;
use pico_board::{ERASED, FLASH_BASE};
use std::alloc::{AllocError, Global};

/// The greatest end of segments in flash; that of none is the first address of flash.
fn greatest_end(segments: &[Segment]) -> u32
    requires { AllByRecursion IsInFlash segments.now }
    ensures value { result ≡ greatest_end segments.now }
    ensures above { flash_base ≤ result }
    ensures below { result ≤ flash_end }
{
    match segments {
        [] => FLASH_BASE,
        [first, rest @ ..] => (first.address + first.size).max(greatest_end(rest)),
    }
}

/// Places a segment's bytes by its address.
fn put_segment(bytes: &mut [u8], elf: &[u8], segment: &Segment)
    requires { FitsIn (length elf.now) (length bytes.old) segment.now }
    ensures { bytes.new ≡ take (segment.now.address - flash_base) bytes.old
        ++ (segment_bytes elf.now segment.now
        ++ drop (segment.now.address - flash_base + segment.now.size) bytes.old) }
{
    let at = (segment.address - FLASH_BASE) as usize;
    let (from, size) = (segment.offset as usize, segment.size as usize);
    bytes[at..at + size].copy_from_slice(&elf[from..from + size]);
}

/// Places the bytes of segments, one after the other, into erased bytes.
fn put_segments(bytes: &mut [u8], elf: &[u8], segments: &[Segment])
    requires erased { bytes.old ≡ flash_bytes elf.now [] (length bytes.old) }
    requires placed { AllByRecursion (FitsIn (length elf.now) (length bytes.old)) segments.now }
    ensures { bytes.new ≡ flash_bytes elf.now segments.now (length bytes.old) }
{
    for segment in segments {
        put_segment(bytes, elf, segment);
    }
}

/// Erased bytes.
fn erased(alloc: Global, count: usize) -> Result<Vec<u8>, AllocError>
    ensures value { IfOk result (λ bytes. bytes.items ≡ replicate count 255) }
    ensures len { IfOk result (λ bytes. length bytes.items ≡ count) }
{
    vec![in alloc; ERASED; count]
}

/// The binary of segments in flash.
pub(crate) fn flash_binary(
    alloc: Global,
    elf: &[u8],
    segments: &[Segment],
) -> Result<Vec<u8>, AllocError>
    requires in_flash { AllByRecursion IsInFlash segments.now }
    requires inside { AllByRecursion (λ s. s.offset + s.size ≤ length elf.now) segments.now }
    ensures value { IfOk result (λ bytes. bytes.items ≡ flash_binary elf.now segments.now) }
    ensures small { IfOk result (λ bytes. length bytes.items ≤ MOST_FLASH_BYTES) }
{
    let count = (greatest_end(segments) - FLASH_BASE) as usize;
    let mut bytes = erased(alloc, count)?;
    put_segments(bytes.as_mut_slice(), elf, segments);
    Ok(bytes)
}
