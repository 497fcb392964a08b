//! The first fault of an ELF file.

ghost use Rattle.std.specs.Prelude.{◌≡◌, ◌≤◌, ◌<◌, ◌^◌, length, find, option_map};
ghost use Rattle.elf_pack.specs.declared.segment.Segment.{Segment};
ghost use Rattle.elf_pack.specs.Fields.{machine_of};
ghost use Rattle.elf_pack.specs.Judging.{are_headers_inside, are_mixed, count_fault, do_overlap, head_fault, is_elf, is_misplaced_segment, misplaced_fault, mixed_fault, segment_overlap_fault, segments_fault};

use crate::fault::ElfFault;
use crate::fields::{half_at, word_at};
use crate::segment::{HEADER, Segment, is_in_sram, is_segment_in_flash};
use pico_board::Cpu;

/// How a 32-bit ELF file with the lowest byte first begins.
const IDENTIFICATION: [u8; 7] = [0x7f, b'E', b'L', b'F', 1, 1, 1];

/// The bytes of the header of a file.
const LEAST_BYTES: usize = 52;

/// The type of an executable file.
const EXECUTABLE: u16 = 2;

/// The most segments of a file.
const MOST_SEGMENTS: usize = 29;

/// Whether the file begins as an ELF file does.
fn is_elf(elf: &[u8]) -> bool
    ensures { result ≡ is_elf elf.now }
{
    elf.len() >= LEAST_BYTES && &elf[..7] == IDENTIFICATION.as_slice()
}

/// The machine of a file for this processor.
fn machine_of(cpu: Cpu) -> u16
    ensures { result ≡ machine_of cpu }
{
    match cpu {
        Cpu::Arm => 40,
        Cpu::Riscv => 243,
    }
}

/// Whether there are no program headers, or all of 32 bytes in the file.
fn are_headers_inside(elf: &[u8]) -> bool
    requires { 52 ≤ length elf.now }
    ensures { result ≡ are_headers_inside elf.now }
{
    let count = half_at(elf, 44) as usize;
    let end = word_at(elf, 28) as usize + HEADER * count;
    count == 0 || (half_at(elf, 42) == 32 && end <= elf.len())
}

/// The fault of the header of a file.
#[tactic(auto, unfolding(crate::specs::Judging::head_fault))]
pub(crate) fn head_fault(elf: &[u8], cpu: Cpu) -> Option<ElfFault>
    ensures { result ≡ head_fault cpu elf.now }
{
    if !is_elf(elf) {
        Some(ElfFault::NotElf)
    } else if half_at(elf, 16) != EXECUTABLE {
        Some(ElfFault::FileType)
    } else if half_at(elf, 18) != machine_of(cpu) {
        Some(ElfFault::Processor)
    } else if !are_headers_inside(elf) {
        Some(ElfFault::Headers)
    } else {
        None
    }
}

/// Whether a segment leaves a file of this length, or lies neither in flash nor in SRAM.
fn is_misplaced_segment(len: usize, segment: &Segment) -> bool
    ensures { result ≡ is_misplaced_segment len segment.now }
{
    let end = u64::from(segment.offset) + u64::from(segment.size);
    !(end <= len as u64 && (is_segment_in_flash(segment) || is_in_sram(segment)))
}

/// The first misplaced segment.
fn first_misplaced(len: usize, segments: &[Segment]) -> Option<u32>
    ensures { result
        ≡ option_map (λ (s : Segment). s.number) (find (is_misplaced_segment len) segments.now) }
{
    for segment in segments {
        if is_misplaced_segment(len, segment) {
            return Some(segment.number);
        }
    }
    None
}

/// The fault of misplaced segments.
#[tactic(auto, unfolding(crate::specs::Judging::misplaced_fault))]
fn misplaced_fault(len: usize, segments: &[Segment]) -> Option<ElfFault>
    ensures { result ≡ misplaced_fault len segments.now }
{
    match first_misplaced(len, segments) {
        Some(number) => Some(ElfFault::Segment(number)),
        None => None,
    }
}

/// The fault of no segment and of too many.
#[tactic(auto, unfolding(crate::specs::Judging::count_fault))]
fn count_fault(segments: &[Segment]) -> Option<ElfFault>
    requires { length segments.now < 2 ^ 32 }
    ensures { result ≡ count_fault segments.now }
{
    if segments.is_empty() {
        Some(ElfFault::Empty)
    } else if segments.len() > MOST_SEGMENTS {
        Some(ElfFault::TooMany(segments.len() as u32))
    } else {
        None
    }
}

/// Whether one of two segments lies in flash, and the other does not.
fn are_mixed(first: &Segment, segment: &Segment) -> bool
    ensures { result ≡ are_mixed first.now segment.now }
{
    if is_segment_in_flash(first) {
        !is_segment_in_flash(segment)
    } else {
        is_segment_in_flash(segment)
    }
}

/// The first segment that lies in another memory than this one.
fn first_elsewhere(first: &Segment, segments: &[Segment]) -> Option<u32>
    ensures { result
        ≡ option_map (λ (s : Segment). s.number) (find (are_mixed first.now) segments.now) }
{
    for segment in segments {
        if are_mixed(first, segment) {
            return Some(segment.number);
        }
    }
    None
}

/// The fault of segments that lie in another memory than the first one.
#[tactic(auto, unfolding(crate::specs::Judging::mixed_fault))]
fn mixed_fault(segments: &[Segment]) -> Option<ElfFault>
    ensures { result ≡ mixed_fault segments.now }
{
    match segments {
        [] => None,
        [first, rest @ ..] => match first_elsewhere(first, rest) {
            Some(number) => Some(ElfFault::Mixed(number)),
            None => None,
        },
    }
}

/// Whether two segments share an address.
fn do_overlap(one: &Segment, other: &Segment) -> bool
    ensures { result ≡ do_overlap one.now other.now }
{
    let one_end = u64::from(one.address) + u64::from(one.size);
    let other_end = u64::from(other.address) + u64::from(other.size);
    u64::from(one.address) < other_end && u64::from(other.address) < one_end
}

/// The first segment that shares an address with this one.
fn first_over(one: &Segment, segments: &[Segment]) -> Option<u32>
    ensures { result
        ≡ option_map (λ (s : Segment). s.number) (find (do_overlap one.now) segments.now) }
{
    for segment in segments {
        if do_overlap(one, segment) {
            return Some(segment.number);
        }
    }
    None
}

/// The fault of segments that share an address.
#[tactic(auto, unfolding(crate::specs::Judging::segment_overlap_fault))]
fn segment_overlap_fault(segments: &[Segment]) -> Option<ElfFault>
    ensures { result ≡ segment_overlap_fault segments.now }
{
    match segments {
        [] => None,
        [first, rest @ ..] => match first_over(first, rest) {
            Some(number) => Some(ElfFault::Overlap(first.number, number)),
            None => segment_overlap_fault(rest),
        },
    }
}

/// The first fault of the segments of a file of this length.
#[tactic(auto, unfolding(crate::specs::Judging::segments_fault))]
pub(crate) fn segments_fault(len: usize, segments: &[Segment]) -> Option<ElfFault>
    requires { length segments.now < 2 ^ 32 }
    ensures { result ≡ segments_fault len segments.now }
{
    if let Some(fault) = misplaced_fault(len, segments) {
        return Some(fault);
    }
    if let Some(fault) = count_fault(segments) {
        return Some(fault);
    }
    match mixed_fault(segments) {
        Some(fault) => Some(fault),
        None => segment_overlap_fault(segments),
    }
}
