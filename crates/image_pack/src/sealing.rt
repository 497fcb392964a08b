//! Binaries to sealed images.

ghost use Rattle.std.specs.Prelude.{◌≡◌, ◌≤◌, ◌++◌, ◌⊎◌, Err, Ok, IfErr, IfOk, IsErrOf, OnErr, OnOk, List, ℕ, length};
ghost use Rattle.pico_board.specs.declared.window.TheConstants.{MOST_FLASH_BYTES};
ghost use Rattle.image_pack.specs.declared.spec.SealError.{SealError};
ghost use Rattle.image_pack.specs.Faults.{IsRightSpec, IsSealFault, IsSealable, IsSealed, IsShort, new_block_size, block_offset};
ghost use Rattle.image_pack.specs.Filling.{whole_sectors, whole_words};
ghost use Rattle.image_pack.specs.Sealing.{parts_in, sealed_text};
ghost use Rattle.image_pack.specs.Starting.{IsStartFault, StartsAt};
ghost use Rattle.image_pack.specs.Within.{IsWithin};

use crate::judging::booted;
use crate::parts::{Parts, binary_parts};
use crate::rows::wrong_field;
use crate::spec::{SealError, SealSpec};
use crate::text::text_with;
use image_check::Why;
use image_def::{MOST_BLOCK_BYTES, Started};
use pico_board::MOST_FLASH_BYTES;
use std::alloc::Global;

/// The offset of the new block of a binary of this length.
fn block_offset(binary: &[u8]) -> usize
    requires { length binary.now ≤ MOST_FLASH_BYTES }
    ensures value { result ≡ block_offset binary.now }
    ensures small { result ≤ MOST_FLASH_BYTES }
{
    4 * ((binary.len() + 3) / 4)
}

/// What a sealed image takes over from the binary, where the spec is right and the binary may be
/// sealed.
fn check_binary(alloc: Global, binary: &[u8], spec: &SealSpec) -> Result<Parts, SealError>
    requires { length binary.now ≤ MOST_FLASH_BYTES }
    ensures ok { OnOk result (IsSealable binary.now spec.now) }
    ensures read { IfOk result (λ p. parts_in spec.now.cpu (whole_sectors binary.now) ≡ Ok p) }
    ensures within { IfOk result (λ p. IsWithin p (length (whole_words binary.now))) }
    ensures fault { IfErr result
        (λ e. IsSealFault binary.now spec.now e ⊎ (e ≡ SealError.Memory)) }
{
    if let Some(field) = wrong_field(spec) {
        return Err(SealError::BadSpec(field));
    }
    match binary_parts(alloc, binary, spec.cpu) {
        Ok(Ok(parts)) => Ok(parts),
        Ok(Err(why)) => Err(SealError::Unsealable(why)),
        Err(_) => Err(SealError::Memory),
    }
}

/// Whether the sealed image and its new block are not too long.
fn check_size(binary: &[u8], spec: &SealSpec, text: &[u8]) -> Result<(), SealError>
    requires small { length binary.now ≤ MOST_FLASH_BYTES }
    requires sealable { IsSealable binary.now spec.now }
    requires text { text.now ≡ sealed_text binary.now spec.now }
    ensures ok { OnOk result (IsShort binary.now spec.now) }
    ensures fault { IfErr result (λ e. IsSealFault binary.now spec.now e) }
{
    let size = text.len().saturating_sub(block_offset(binary));
    if text.len() > MOST_FLASH_BYTES {
        Err(SealError::TooLarge)
    } else if size > MOST_BLOCK_BYTES as usize {
        Err(SealError::BlockTooLong(size as u64))
    } else {
        Ok(())
    }
}

/// Whether an image starts by the block at this offset.
fn check_block(image: Result<Started, Why>, at: u32) -> Result<(), SealError>
    ensures ok { OnOk result (StartsAt image at) }
    ensures fault { IfErr result (λ e. IsStartFault image at e) }
{
    match image {
        Ok(started) if started.block == at => Ok(()),
        Ok(_) => Err(SealError::Displaced),
        Err(why) => Err(SealError::NotBootable(why)),
    }
}

/// The sealed image of a binary by a spec, or why there is none.
fn judged_text(alloc: Global, binary: &[u8], spec: &SealSpec) -> Result<Vec<u8>, SealError>
    requires { length binary.now ≤ MOST_FLASH_BYTES }
    ensures text { IfOk result (λ text. text.items ≡ sealed_text binary.now spec.now) }
    ensures sealed { OnOk result (IsSealed binary.now spec.now) }
    ensures fault { IfErr result
        (λ e. IsSealFault binary.now spec.now e ⊎ (e ≡ SealError.Memory)) }
{
    let parts = match check_binary(alloc, binary, spec) {
        Ok(parts) => Some(parts),
        Err(error) => return Err(error),
    };
    let mut text = match text_with(alloc, binary, spec, &parts) {
        Ok(text) => text,
        Err(_) => return Err(SealError::Memory),
    };
    match check_size(binary, spec, &text) {
        Ok(()) => {}
        Err(error) => return Err(error),
    }
    let image = match booted(alloc, &mut text, spec.cpu) {
        Ok(image) => image,
        Err(_) => return Err(SealError::Memory),
    };
    match check_block(image, block_offset(binary) as u32) {
        Ok(()) => Ok(text),
        Err(error) => Err(error),
    }
}

/// The sealed image of a binary by a spec, or why there is none. Each fault comes exactly where
/// its condition holds.
fn judged_exactly(alloc: Global, binary: &[u8], spec: &SealSpec) -> Result<Vec<u8>, SealError>
    requires { length binary.now ≤ MOST_FLASH_BYTES }
    ensures text { IfOk result (λ text. text.items ≡ sealed_text binary.now spec.now) }
    ensures sealed { OnOk result (IsSealed binary.now spec.now) }
    ensures fault { IfErr result
        (λ e. IsSealFault binary.now spec.now e ⊎ (e ≡ SealError.Memory)) }
    ensures refused { (e : SealError) → IsSealFault binary.now spec.now e
        → IsErrOf result e ⊎ IsErrOf result SealError.Memory }
{
    judged_text(alloc, binary, spec)
}

/// Appends the sealed image of a binary by a spec, and answers the offset of the new block in it:
/// the length of the binary in whole words. Each refusal comes exactly where its condition holds;
/// the condition says that none before it holds. Only `Memory` may come in place of any other
/// answer. After a refusal `out` is unchanged.
pub fn seal(
    alloc: Global,
    binary: &[u8],
    spec: &SealSpec,
    out: &mut Vec<u8>,
) -> Result<u32, SealError>
    requires { length binary.now ≤ MOST_FLASH_BYTES }
    ensures appended { OnOk result
        (out.new.items ≡ out.old.items ++ sealed_text binary.now spec.now) }
    ensures offset { IfOk result (λ at. at ≡ block_offset binary.now) }
    ensures sealed { OnOk result (IsSealed binary.now spec.now) }
    ensures fault { IfErr result
        (λ e. IsSealFault binary.now spec.now e ⊎ (e ≡ SealError.Memory)) }
    ensures refused { (e : SealError) → IsSealFault binary.now spec.now e
        → IsErrOf result e ⊎ IsErrOf result SealError.Memory }
    ensures err { OnErr result (out.new.items ≡ out.old.items) }
{
    let text = match judged_exactly(alloc, binary, spec) {
        Ok(text) => text,
        Err(error) => return Err(error),
    };
    match out.extend_from_slice(&text) {
        Ok(()) => Ok(block_offset(binary) as u32),
        Err(_) => Err(SealError::Memory),
    }
}
