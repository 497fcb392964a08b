//! ELF files to binaries and to sealed images.

ghost use Rattle.std.specs.Prelude.{◌≡◌, ◌≤◌, ◌++◌, ◌⊎◌, IfErr, IfOk, IsErrOf, None, OnErr, OnOk, Some, length};
ghost use Rattle.pico_board.specs.declared.window.TheConstants.{MOST_FLASH_BYTES};
ghost use Rattle.image_pack.specs.Faults.{IsSealed, block_offset};
ghost use Rattle.image_pack.specs.ReadBack.{IsHalves};
ghost use Rattle.image_pack.specs.Sealing.{sealed_text};
ghost use Rattle.elf_pack.specs.declared.fault.ElfFault.{ElfFault};
ghost use Rattle.elf_pack.specs.Binaries.{are_in_flash, elf_binary};
ghost use Rattle.elf_pack.specs.Judging.{elf_fault};
ghost use Rattle.elf_pack.specs.Segments.{segments};
ghost use Rattle.elf_pack.specs.Whole.{IsElfWhole};
ghost use Rattle.elf_pack.specs.Faults.{HasBinary, IsElfFault, IsImageFault, unsealed};

use crate::fault::ElfFault;
use crate::fields::word_at;
use crate::judging::{head_fault, segments_fault};
use crate::placing::flash_binary;
use crate::segment::{Segment, is_segment_in_flash, segments};
use crate::storing::sram_binary;
use image_pack::{SealError, SealSpec, seal};
use pico_board::Cpu;
use std::alloc::{AllocError, Global};

/// The segments of a file without a fault, or its first fault.
fn judged(alloc: Global, elf: &[u8], cpu: Cpu) -> Result<Vec<Segment>, ElfFault>
    ensures segments { IfOk result (λ found. found.items ≡ segments elf.now) }
    ensures none { OnOk result (elf_fault cpu elf.now ≡ None) }
    ensures fault { IfErr result
        (λ e. (elf_fault cpu elf.now ≡ Some e) ⊎ (e ≡ ElfFault.Memory)) }
{
    if let Some(fault) = head_fault(elf, cpu) {
        return Err(fault);
    }
    let found = match segments(alloc, elf) {
        Ok(found) => found,
        Err(_) => return Err(ElfFault::Memory),
    };
    match segments_fault(elf.len(), &found) {
        Some(fault) => Err(fault),
        None => Ok(found),
    }
}

/// Whether the first segment lies in flash; in a file with a binary all segments then lie there.
fn are_in_flash(segments: &[Segment]) -> bool
    ensures { result ≡ are_in_flash segments.now }
{
    match segments {
        [] => false,
        [first, ..] => is_segment_in_flash(first),
    }
}

/// The binary of a file. These are its segments.
#[tactic(auto, unfolding(crate::specs::Binaries::elf_binary))]
fn binary_of(alloc: Global, elf: &[u8], cpu: Cpu, found: &[Segment]) -> Result<Vec<u8>, AllocError>
    requires found { found.now ≡ segments elf.now }
    requires right { HasBinary cpu elf.now }
    ensures value { IfOk result (λ binary. binary.items ≡ elf_binary cpu elf.now) }
    ensures small { IfOk result (λ binary. length binary.items ≤ MOST_FLASH_BYTES) }
{
    if are_in_flash(found) {
        flash_binary(alloc, elf, found)
    } else {
        sram_binary(alloc, elf, cpu, word_at(elf, 24), found)
    }
}

/// The binary of a file, or its first fault.
fn made_binary(alloc: Global, elf: &[u8], cpu: Cpu) -> Result<Vec<u8>, ElfFault>
    ensures value { IfOk result (λ binary. binary.items ≡ elf_binary cpu elf.now) }
    ensures small { IfOk result (λ binary. length binary.items ≤ MOST_FLASH_BYTES) }
    ensures right { OnOk result (HasBinary cpu elf.now) }
    ensures fault { IfErr result
        (λ e. IsElfFault cpu elf.now e ⊎ (e ≡ ElfFault.Memory)) }
{
    let found = match judged(alloc, elf, cpu) {
        Ok(found) => found,
        Err(fault) => return Err(fault),
    };
    match binary_of(alloc, elf, cpu, &found) {
        Ok(binary) => Ok(binary),
        Err(_) => Err(ElfFault::Memory),
    }
}

/// The binary of a file, or its first fault. Each fault comes exactly where its condition holds.
fn whole_binary(alloc: Global, elf: &[u8], cpu: Cpu) -> Result<Vec<u8>, ElfFault>
    ensures value { IfOk result (λ binary. binary.items ≡ elf_binary cpu elf.now) }
    ensures small { IfOk result (λ binary. length binary.items ≤ MOST_FLASH_BYTES) }
    ensures right { OnOk result (HasBinary cpu elf.now) }
    ensures fault { IfErr result
        (λ e. IsElfFault cpu elf.now e ⊎ (e ≡ ElfFault.Memory)) }
    ensures refused { (e : ElfFault) → IsElfFault cpu elf.now e
        → IsErrOf result e ⊎ IsErrOf result ElfFault.Memory }
{
    made_binary(alloc, elf, cpu)
}

/// Appends the binary of an ELF file for a processor. Of a file with segments in flash it has all
/// bytes of flash up to their greatest end, with 0xff where no segment lies. Of a file with
/// segments in SRAM it is an image whose block has the file's entry and loads the segments. Each
/// refusal comes exactly where its condition holds; the condition says that none before it holds.
/// Only `Memory` may come in place of any other answer. After a refusal `out` is unchanged.
pub fn elf_binary(alloc: Global, elf: &[u8], cpu: Cpu, out: &mut Vec<u8>) -> Result<(), ElfFault>
    requires { length elf.now ≤ 67108864 }
    ensures appended { OnOk result (out.new.items ≡ out.old.items ++ elf_binary cpu elf.now) }
    ensures right { OnOk result (HasBinary cpu elf.now) }
    ensures fault { IfErr result
        (λ e. IsElfFault cpu elf.now e ⊎ (e ≡ ElfFault.Memory)) }
    ensures refused { (e : ElfFault) → IsElfFault cpu elf.now e
        → IsErrOf result e ⊎ IsErrOf result ElfFault.Memory }
    ensures err { OnErr result (out.new.items ≡ out.old.items) }
{
    let binary = match whole_binary(alloc, elf, cpu) {
        Ok(binary) => binary,
        Err(fault) => return Err(fault),
    };
    match out.extend_from_slice(&binary) {
        Ok(()) => Ok(()),
        Err(_) => Err(ElfFault::Memory),
    }
}

/// Why a sealed image was refused, as a fault of its file.
fn unsealed(error: SealError) -> ElfFault
    ensures { result ≡ unsealed error }
{
    match error {
        SealError::Memory => ElfFault::Memory,
        error => ElfFault::Seal(error),
    }
}

/// The sealed image of a file by a spec, appended, or the first fault of either.
fn put_image(alloc: Global, elf: &[u8], spec: &SealSpec, out: &mut Vec<u8>) -> Result<u32, ElfFault>
    ensures appended { OnOk result (out.new.items
        ≡ out.old.items ++ sealed_text (elf_binary spec.now.cpu elf.now) spec.now) }
    ensures offset { IfOk result (λ at. at ≡ block_offset (elf_binary spec.now.cpu elf.now)) }
    ensures right { OnOk result (HasBinary spec.now.cpu elf.now) }
    ensures sealed { OnOk result (IsSealed (elf_binary spec.now.cpu elf.now) spec.now) }
    ensures fault { IfErr result
        (λ e. IsImageFault elf.now spec.now e ⊎ (e ≡ ElfFault.Memory)) }
    ensures err { OnErr result (out.new.items ≡ out.old.items) }
{
    let binary = match whole_binary(alloc, elf, spec.cpu) {
        Ok(binary) => binary,
        Err(fault) => return Err(fault),
    };
    match seal(alloc, &binary, spec, out) {
        Ok(at) => Ok(at),
        Err(error) => Err(unsealed(error)),
    }
}

/// The numbers of a version are half words, as their type says.
fn are_halves(major: u16, minor: u16)
    ensures { IsHalves (record { major = major; minor = minor }) }
{
    let _ = (major, minor);
}

/// Appends the sealed image of an ELF file by a spec: what `seal` gives of its binary for the
/// spec's processor. It answers the offset of the new block in the image. Each refusal comes
/// exactly where its condition holds; the condition says that none before it holds. Only `Memory`
/// may come in place of any other answer. After a refusal `out` is unchanged.
pub fn elf_image(
    alloc: Global,
    elf: &[u8],
    spec: &SealSpec,
    out: &mut Vec<u8>,
) -> Result<u32, ElfFault>
    requires { length elf.now ≤ 67108864 }
    ensures appended { OnOk result (out.new.items
        ≡ out.old.items ++ sealed_text (elf_binary spec.now.cpu elf.now) spec.now) }
    ensures offset { IfOk result (λ at. at ≡ block_offset (elf_binary spec.now.cpu elf.now)) }
    ensures right { OnOk result (HasBinary spec.now.cpu elf.now) }
    ensures sealed { OnOk result (IsSealed (elf_binary spec.now.cpu elf.now) spec.now) }
    // The image is valid, with trial images allowed, at the start of each window of a flash with
    // 0xff after it. It gives the bytes of the file's segments at their addresses.
    ensures whole { OnOk result (IsElfWhole elf.now spec.now) }
    ensures fault { IfErr result
        (λ e. IsImageFault elf.now spec.now e ⊎ (e ≡ ElfFault.Memory)) }
    ensures refused { (e : ElfFault) → IsImageFault elf.now spec.now e
        → IsErrOf result e ⊎ IsErrOf result ElfFault.Memory }
    ensures err { OnErr result (out.new.items ≡ out.old.items) }
{
    are_halves(spec.version.major, spec.version.minor);
    put_image(alloc, elf, spec, out)
}
