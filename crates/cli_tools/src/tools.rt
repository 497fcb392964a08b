//! The answers of the commands that make images and tables.

ghost use Rattle.std.specs.Prelude.{◌≡◌, ◌++◌, codes, length, None, Some, Ok, Err, IfOk, IfErr, OnOk, false, string_bytes};
ghost use Rattle.part_table.specs.Written.{written_table};
ghost use Rattle.image_pack.specs.Faults.{block_offset};
ghost use Rattle.image_pack.specs.Sealing.{sealed_text};
ghost use Rattle.cli_course.specs.Outcomes.{Answers, one_file, worked};
ghost use Rattle.text_lines.specs.Faults.{why_text};
ghost use Rattle.cli_tools.specs.Seals.{seal_error, seal_text, blamed, sealed_line};
ghost use Rattle.cli_tools.specs.Tools.{table_file, table_line, table_work, seal_work};
ghost use Rattle.cli_course.specs.Views.{answer_from};

use crate::elfs::unpacked;
use cli_course::{Answer, one_file};
use cli_inputs::{Binary, JsonTable};
use elf_pack::ElfFault;
use image_check::Why;
use image_pack::{SealError, SealSpec, SpecField, seal};
use part_table::{TableWriteFault, write_table};
use pico_board::{ERASED, SECTOR};
use std::alloc::{AllocError, Global};
use text_lines::why_text;

/// The line of a table.
fn table_line(alloc: Global, count: usize) -> Result<String, AllocError>
    ensures { IfOk result (λ t. string_bytes t ≡ table_line count) }
{
    format!(in alloc; "table bytes=4096 partitions={count}\n")
}

/// The block of a table. It fails only where memory is out.
fn table_block(alloc: Global, json: &JsonTable) -> Result<Vec<u8>, AllocError>
    ensures { IfOk result (λ bytes. bytes.items ≡ written_table json.now.table) }
{
    let mut bytes = Vec::new(alloc);
    match write_table(alloc, &json.table, &mut bytes) {
        Ok(()) => Ok(bytes),
        Err(TableWriteFault::Memory) => Err(AllocError),
        Err(TableWriteFault::TooLong(_)) => unreachable!(),
    }
}

/// The bytes of a table's file. It fails only where memory is out.
#[tactic(auto, unfolding(crate::specs::Tools::table_file))]
fn table_file(alloc: Global, json: &JsonTable) -> Result<Vec<u8>, AllocError>
    ensures { IfOk result (λ bytes. bytes.items ≡ table_file json.now.table) }
{
    let mut bytes = table_block(alloc, json)?;
    let fill = (SECTOR as usize).saturating_sub(bytes.len());
    bytes.resize(bytes.len() + fill, ERASED)?;
    Ok(bytes)
}

/// The work of `table` on the table of a text: the line of the table, and its file. It fails only
/// where memory is out.
pub fn table<'a>(alloc: Global, json: &JsonTable, out: &'a str) -> Result<Answer<'a>, AllocError>
    ensures { IfOk result
        (λ answer. answer_from answer ≡ worked (table_work out.entry.now (Ok json.now.table))) }
{
    let line = table_line(alloc, json.table.parts.len())?;
    let bytes = table_file(alloc, json)?;
    one_file(alloc, line, out, bytes)
}

/// The rule that a binary or a sealed image fails.
fn failed_text(alloc: Global, what: &str, why: Why) -> Result<String, AllocError>
    ensures { IfOk result
        (λ t. string_bytes t ≡ what.now ++ (codes " " ++ why_text why)) }
{
    let why = why_text(alloc, why)?;
    format!(in alloc; "{what} {why}")
}

/// The part of a spec that is wrong.
fn field_text(field: SpecField) -> &'static str
    ensures { result.now ≡ seal_text (SealError.BadSpec field) }
{
    match field {
        SpecField::Rollback => "bad-spec rollback",
        SpecField::Rows => "bad-spec rows",
    }
}

/// Why a binary is not sealed.
pub fn seal_text(alloc: Global, error: SealError) -> Result<String, AllocError>
    ensures { IfOk result (λ t. string_bytes t ≡ seal_text error) }
{
    match error {
        SealError::BadSpec(field) => String::from_str(alloc, field_text(field)),
        SealError::Unsealable(why) => failed_text(alloc, "unsealable", why),
        SealError::TooLarge => format!(in alloc; "sealed-too-large"),
        SealError::BlockTooLong(size) => format!(in alloc; "block-too-long {size}"),
        SealError::NotBootable(why) => failed_text(alloc, "not-bootable", why),
        SealError::Displaced => format!(in alloc; "displaced"),
        SealError::Memory => format!(in alloc; "memory"),
    }
}

/// The input that is refused for an error.
pub fn blamed<'a>(binary: &'a str, spec: &'a str, error: SealError) -> &'a str
    ensures { result.now ≡ blamed binary.now spec.now error }
{
    match error {
        SealError::BadSpec(_) => spec,
        SealError::Unsealable(_)
        | SealError::TooLarge
        | SealError::BlockTooLong(_)
        | SealError::NotBootable(_)
        | SealError::Displaced
        | SealError::Memory => binary,
    }
}

/// The line of a sealed image.
pub fn sealed_line(alloc: Global, size: usize, block: u32) -> Result<String, AllocError>
    ensures { IfOk result (λ t. string_bytes t ≡ sealed_line size block) }
{
    format!(in alloc; "sealed bytes={size} block=0x{block:08x}\n")
}

/// The sealed image of a binary and the offset of its new block, or why there is none.
fn sealed(
    alloc: Global,
    binary: Binary<'_>,
    spec: &SealSpec,
) -> Result<Result<(Vec<u8>, u32), SealError>, AllocError>
    ensures image { IfOk result (λ done. IfOk done (λ image. image.0.items
        ≡ sealed_text binary.entry.bytes.now spec.now)) }
    ensures block { IfOk result (λ done. IfOk done
        (λ image. image.1 ≡ block_offset binary.entry.bytes.now)) }
    ensures none { IfOk result
        (λ done. OnOk done (seal_error binary.entry.bytes.now spec.now ≡ None)) }
    ensures error { IfOk result
        (λ done. IfErr done (λ error. seal_error binary.entry.bytes.now spec.now ≡ Some error)) }
{
    let mut image = Vec::new(alloc);
    match seal(alloc, binary.bytes, spec, &mut image) {
        Ok(block) => Ok(Ok((image, block))),
        Err(SealError::Memory) => Err(AllocError),
        Err(error) => Ok(Err(error)),
    }
}

/// The answer that has a sealed image: its line, and its file.
pub fn image_answer<'a>(
    alloc: Global,
    image: Vec<u8>,
    block: u32,
    out: &'a str,
) -> Result<Answer<'a>, AllocError>
    ensures { IfOk result (λ answer. answer_from answer
        ≡ worked (Answers false (sealed_line (length image.items) block)
        (one_file out.entry.now image.items))) }
{
    let line = sealed_line(alloc, image.len(), block)?;
    one_file(alloc, line, out, image)
}

/// The work of `seal` on a binary and a spec: the line of the sealed image,
/// and its file. Or it refuses the binary or the spec, by its argument, for the first error. It
/// fails only where memory is out.
pub fn seal_binary<'a>(
    alloc: Global,
    binary: &str,
    spec: &str,
    out: &'a str,
    bytes: Binary<'_>,
    asked: &SealSpec,
) -> Result<Answer<'a>, AllocError>
    ensures { IfOk result (λ answer. answer_from answer
        ≡ worked (seal_work binary.now spec.now out.entry.now bytes.entry.bytes.now
        (Ok asked.now))) }
{
    match sealed(alloc, bytes, asked)? {
        Ok((image, block)) => image_answer(alloc, image, block, out),
        Err(error) => unpacked(alloc, binary, spec, ElfFault::Seal(error)),
    }
}
