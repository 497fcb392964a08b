//! Bytes filled with 0xff.

ghost use Rattle.std.specs.Prelude.{◌≡◌, ◌+◌, ◌≤◌, ◌<◌, ◌^◌, IfOk, OnOk, length};
ghost use Rattle.pico_board.specs.declared.window.TheConstants.{MOST_FLASH_BYTES};
ghost use Rattle.image_pack.specs.Filling.{padded, round_up, whole_sectors, whole_words};

use pico_board::ERASED;
use std::alloc::{AllocError, Global};

/// The smallest multiple of m that is at least n.
fn round_up(m: usize, n: usize) -> usize
    requires some { 0 < m }
    requires few { m ≤ 4096 }
    requires small { n ≤ MOST_FLASH_BYTES }
    ensures value { result ≡ round_up m n }
{
    m * ((n + (m - 1)) / m)
}

/// A copy of the bytes, with 0xff after them up to so many bytes.
pub(crate) fn padded(alloc: Global, bytes: &[u8], count: usize) -> Result<Vec<u8>, AllocError>
    requires { length bytes.now ≤ count }
    ensures value { IfOk result (λ copy. copy.items ≡ padded count bytes.now) }
    ensures len { IfOk result (λ copy. length copy.items ≡ count) }
{
    let mut copy = Vec::new(alloc);
    copy.extend_from_slice(bytes)?;
    copy.resize(count, ERASED)?;
    Ok(copy)
}

/// A copy of the bytes in whole words.
pub(crate) fn whole_words(alloc: Global, bytes: &[u8]) -> Result<Vec<u8>, AllocError>
    requires { length bytes.now ≤ MOST_FLASH_BYTES }
    ensures value { IfOk result (λ copy. copy.items ≡ whole_words bytes.now) }
    ensures few { IfOk result (λ copy. length copy.items ≤ length bytes.now + 3) }
{
    padded(alloc, bytes, round_up(4, bytes.len()))
}

/// A copy of the bytes in whole sectors.
pub(crate) fn whole_sectors(alloc: Global, bytes: &[u8]) -> Result<Vec<u8>, AllocError>
    requires { length bytes.now ≤ MOST_FLASH_BYTES }
    ensures { IfOk result (λ copy. copy.items ≡ whole_sectors bytes.now) }
{
    padded(alloc, bytes, round_up(4096, bytes.len()))
}

/// Fills the bytes to whole sectors.
pub(crate) fn fill_sectors(bytes: &mut Vec<u8>) -> Result<(), AllocError>
    requires { length bytes.old.items ≤ MOST_FLASH_BYTES }
    ensures value { OnOk result (bytes.new.items ≡ whole_sectors bytes.old.items) }
    ensures len { OnOk result (length bytes.new.items ≤ MOST_FLASH_BYTES) }
{
    let count = round_up(4096, bytes.len());
    bytes.resize(count, ERASED)
}
