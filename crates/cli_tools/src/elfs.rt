//! The sealed image of an ELF file.

ghost use Rattle.std.specs.Prelude.{◌≡◌, IfErr, IfOk, None, Ok, OnOk, Some, length, string_bytes};
ghost use Rattle.image_pack.specs.Faults.{block_offset};
ghost use Rattle.image_pack.specs.Sealing.{sealed_text};
ghost use Rattle.elf_pack.specs.Binaries.{elf_binary};
ghost use Rattle.cli_course.specs.Outcomes.{refused, worked};
ghost use Rattle.cli_course.specs.Views.{answer_from};
ghost use Rattle.cli_tools.specs.Elfs.{elf_blamed, elf_text, elf_work, image_fault};

use crate::tools::{blamed, image_answer, seal_text};
use cli_course::{Answer, refusal};
use cli_inputs::Elf;
use elf_pack::{ElfFault, elf_image};
use image_pack::SealSpec;
use std::alloc::{AllocError, Global};

/// Why an ELF file has no sealed image.
fn elf_text(alloc: Global, fault: ElfFault) -> Result<String, AllocError>
    ensures { IfOk result (λ t. string_bytes t ≡ elf_text fault) }
{
    match fault {
        ElfFault::NotElf => format!(in alloc; "elf not-elf"),
        ElfFault::FileType => format!(in alloc; "elf type"),
        ElfFault::Processor => format!(in alloc; "elf processor"),
        ElfFault::Headers => format!(in alloc; "elf headers"),
        ElfFault::Segment(i) => format!(in alloc; "elf segment {i}"),
        ElfFault::Empty => format!(in alloc; "elf empty"),
        ElfFault::TooMany(n) => format!(in alloc; "elf too-many {n}"),
        ElfFault::Mixed(i) => format!(in alloc; "elf mixed {i}"),
        ElfFault::Overlap(i, j) => format!(in alloc; "elf overlap {i} {j}"),
        ElfFault::Seal(error) => seal_text(alloc, error),
        ElfFault::Memory => format!(in alloc; "memory"),
    }
}

/// The input that is refused for a fault.
fn elf_blamed<'a>(elf: &'a str, spec: &'a str, fault: ElfFault) -> &'a str
    ensures { result.now ≡ elf_blamed elf.now spec.now fault }
{
    match fault {
        ElfFault::Seal(error) => blamed(elf, spec, error),
        ElfFault::NotElf
        | ElfFault::FileType
        | ElfFault::Processor
        | ElfFault::Headers
        | ElfFault::Segment(_)
        | ElfFault::Empty
        | ElfFault::TooMany(_)
        | ElfFault::Mixed(_)
        | ElfFault::Overlap(..)
        | ElfFault::Memory => elf,
    }
}

/// The sealed image of an ELF file and the offset of its new block, or why there is none.
fn packed(
    alloc: Global,
    elf: Elf<'_>,
    spec: &SealSpec,
) -> Result<Result<(Vec<u8>, u32), ElfFault>, AllocError>
    ensures image { IfOk result (λ done. IfOk done (λ image. image.0.items
        ≡ sealed_text (elf_binary spec.now.cpu elf.entry.bytes.now) spec.now)) }
    ensures block { IfOk result (λ done. IfOk done
        (λ image. image.1 ≡ block_offset (elf_binary spec.now.cpu elf.entry.bytes.now))) }
    ensures none { IfOk result (λ done. OnOk done
        (image_fault elf.entry.bytes.now spec.now ≡ None)) }
    ensures fault { IfOk result
        (λ done. IfErr done
        (λ fault. image_fault elf.entry.bytes.now spec.now ≡ Some fault)) }
{
    let mut image = Vec::new(alloc);
    match elf_image(alloc, elf.bytes, spec, &mut image) {
        Ok(block) => Ok(Ok((image, block))),
        Err(ElfFault::Memory) => Err(AllocError),
        Err(fault) => Ok(Err(fault)),
    }
}

/// The answer that refuses an input of a packing, or of a sealing.
pub fn unpacked<'a>(
    alloc: Global,
    elf: &str,
    spec: &str,
    fault: ElfFault,
) -> Result<Answer<'a>, AllocError>
    ensures { IfOk result (λ answer. answer_from answer
        ≡ refused (elf_blamed elf.now spec.now fault) (elf_text fault)) }
{
    let text = elf_text(alloc, fault)?;
    refusal(alloc, elf_blamed(elf, spec, fault), &text)
}

/// The work of `elf` on an ELF file and a spec: the line of the sealed image,
/// and its file. Or it refuses the ELF file or the spec, by its argument, for the first fault. It
/// fails only where memory is out.
pub fn pack_elf<'a>(
    alloc: Global,
    elf: &str,
    spec: &str,
    out: &'a str,
    bytes: Elf<'_>,
    asked: &SealSpec,
) -> Result<Answer<'a>, AllocError>
    ensures { IfOk result (λ answer. answer_from answer
        ≡ worked (elf_work elf.now spec.now out.entry.now bytes.entry.bytes.now
        (Ok asked.now))) }
{
    match packed(alloc, bytes, asked)? {
        Ok((image, block)) => image_answer(alloc, image, block, out),
        Err(fault) => unpacked(alloc, elf, spec, fault),
    }
}
