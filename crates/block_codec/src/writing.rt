//! Blocks to bytes.

ghost use Rattle.std.specs.Prelude.{◌≡◌, ℕ, ◌+◌, ◌*◌, ◌<◌, ◌≤◌, ◌↔◌, ◌++◌, length, IfSome, IfNone, IfErr, OnOk, OnErr, IsErrOf};
ghost use Rattle.block_codec.specs.Words.{word_bytes, bytes_of};
ghost use Rattle.block_codec.specs.Items.{AreItems};
ghost use Rattle.block_codec.specs.Blocks.{frame, IsBlock};
ghost use Rattle.block_codec.specs.Writing.{IsBadAt};

use crate::error::BlockError;
use crate::words::{END, LAST, MOST_ITEM_WORDS, START, item_size, last_word};
use arrayvec::ArrayVec;
use byteorder::{ByteOrder, LittleEndian};
use std::alloc::Global;

/// The lowest place at which an item of a wrong type or size begins, where there is one.
fn first_bad(items: &[u32]) -> Option<u32>
    requires { length items.now ≤ 156 }
    ensures found { IfSome result (λ i. IsBadAt items.now i) }
    ensures none { IfNone result (AreItems items.now) }
{
    let mut at = 0;
    while at < items.len() {
        let header = items[at];
        let size = item_size(header);
        if header % 256 == LAST || size == 0 || items.len() - at < size {
            return Some(at as u32);
        }
        at += size;
    }
    None
}

/// Appends the four bytes of a word.
#[tactic(auto, unfolding(crate::specs::Words::word_bytes))]
pub(crate) fn put<const N: usize>(bytes: &mut ArrayVec<u8, N>, word: u32)
    requires { length bytes.old.items + 4 ≤ N }
    ensures items { bytes.new.items ≡ bytes.old.items ++ word_bytes word }
    ensures len { length bytes.new.items ≡ length bytes.old.items + 4 }
{
    let mut four = [0u8; 4];
    LittleEndian::write_u32(&mut four, word);
    bytes.try_extend_from_slice(&four).unwrap();
}

/// The bytes of the block of these item words and this link.
fn block_bytes(items: &[u32], link: i32) -> ArrayVec<u8, 640>
    requires { length items.now ≤ 156 }
    ensures { result.items ≡ bytes_of (frame items.now link) }
{
    let mut bytes = ArrayVec::new();
    put(&mut bytes, START);
    for word in items {
        put(&mut bytes, *word);
    }
    put(&mut bytes, last_word(items.len()));
    put(&mut bytes, link.cast_unsigned());
    put(&mut bytes, END);
    bytes
}

/// Appends the block of these whole items and this link.
fn append(items: &[u32], link: i32, out: &mut Vec<u8>) -> Result<(), BlockError>
    requires few { length items.now ≤ 156 }
    ensures ok { OnOk result (out.new.items ≡ out.old.items ++ bytes_of (frame items.now link)) }
    ensures err { OnErr result (out.new.items ≡ out.old.items) }
    ensures memory { IfErr result (λ e. e ≡ BlockError.Memory) }
{
    let bytes = block_bytes(items, link);
    match out.extend_from_slice(bytes.as_slice()) {
        Ok(()) => Ok(()),
        Err(_) => Err(BlockError::Memory),
    }
}

/// Appends the block of these item words and this link. After a refusal `out` is unchanged; where
/// there is no memory for the bytes, the refusal is `Memory`.
pub fn write_block(
    alloc: Global,
    items: &[u32],
    link: i32,
    out: &mut Vec<u8>,
) -> Result<(), BlockError>
    ensures ok { OnOk result (out.new.items ≡ out.old.items ++ bytes_of (frame items.now link)) }
    ensures block { OnOk result (IsBlock (bytes_of (frame items.now link)) items.now link) }

    // More than 156 words are refused first.
    ensures too_long { (n : ℕ) → IsErrOf result (BlockError.TooLong n) ↔
        ((156 < length items.now) × (n ≡ 4 * length items.now + 16)) }
    ensures item_size { (i : ℕ) → IsErrOf result (BlockError.ItemSize i) ↔
        ((length items.now ≤ 156) × IsBadAt items.now i) }
    ensures err { OnErr result (out.new.items ≡ out.old.items) }
{
    if items.len() > MOST_ITEM_WORDS {
        return Err(BlockError::TooLong(4 * items.len() as u64 + 16));
    }
    match first_bad(items) {
        Some(place) => Err(BlockError::ItemSize(place)),
        None => append(items, link, out),
    }
}
