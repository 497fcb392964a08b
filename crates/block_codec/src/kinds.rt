//! The kinds of items that image definitions and partition tables read, and what both read alike
//! in them (RP2350 Datasheet, chapter 5, Bootrom, "Common block items").

ghost use Rattle.std.specs.Prelude.{◌≡◌, ◌+◌, ◌∷◌, take, slice_range, flat_map, Contains, IfSome, length, true, ◌≤◌};
ghost use Rattle.block_codec.specs.Items.{items_of, IsItemOf};
ghost use Rattle.block_codec.specs.Blocks.{block_words, IsWholeBlock};
ghost use Rattle.block_codec.specs.Kinds.{first_spelling, is_of_kind, item_of_kind, hash_count_of, digest_of};
ghost use Rattle.block_codec.specs.Words.{bytes_of};

use crate::blocks::Block;
use crate::items::Item;
use crate::writing::put;
use arrayvec::ArrayVec;

/// The type byte of an IMAGE_TYPE item.
pub const IMAGE_TYPE: u8 = 0x42;
/// The type byte of a VECTOR_TABLE item.
pub const VECTOR_TABLE: u8 = 0x03;
/// The type byte of an ENTRY_POINT item.
pub const ENTRY_POINT: u8 = 0x44;
/// The type byte of a ROLLING_WINDOW_DELTA item.
pub const WINDOW_DELTA: u8 = 0x05;
/// The first spelling of a LOAD_MAP item's type byte.
pub const LOAD_MAP: u8 = 0x06;
/// The type byte of a HASH_DEF item.
pub const HASH_DEF: u8 = 0x47;
/// The type byte of a VERSION item.
pub const VERSION: u8 = 0x48;
/// The first spelling of a HASH_VALUE item's type byte.
pub const HASH_VALUE: u8 = 0x4b;
/// The first spelling of a PARTITION_TABLE item's type byte.
pub const PARTITION_TABLE: u8 = 0x0a;
/// The spelling of a LOAD_MAP item's type byte whose size has two bytes.
pub const LONG_LOAD_MAP: u8 = 0x86;
/// The spelling of a HASH_VALUE item's type byte whose size has two bytes.
pub const LONG_HASH_VALUE: u8 = 0xcb;
/// The spelling of a PARTITION_TABLE item's type byte whose size has two bytes.
pub const LONG_PARTITION_TABLE: u8 = 0x8a;

/// The kind that a type byte names, by its first spelling.
pub fn kind_of(type_byte: u8) -> u8
    ensures { result ≡ first_spelling type_byte }
{
    match type_byte {
        LONG_LOAD_MAP => LOAD_MAP,
        LONG_HASH_VALUE => HASH_VALUE,
        LONG_PARTITION_TABLE => PARTITION_TABLE,
        other => other,
    }
}

/// The first item of a kind, which is named by its first spelling.
pub fn find_item(block: &Block, kind: u8) -> Option<Item>
    ensures value { result ≡ item_of_kind kind (items_of block.now.items) }
    ensures of_block { IfSome result (λ item. Contains (items_of block.now.items) item) }
    ensures inside { IfSome result (λ item. IsItemOf block.now.items item) }
    ensures kind { IfSome result (λ item. is_of_kind kind item ≡ true) }
    ensures whole { IsWholeBlock block.now }
{
    for i in 0..block.count() {
        let item = block.item(i);
        if kind_of(item.kind) == kind {
            return Some(item);
        }
    }
    None
}

/// The number of the block's words, from the start word on, that a HASH_DEF item names; None
/// exactly where its size is not 2 or it does not name SHA-256.
pub fn hash_count(block: &Block, item: &Item) -> Option<u32>
    requires of_block { Contains (items_of block.now.items) item.now }
    ensures { result ≡ hash_count_of (block_words block.now) item.now }
{
    if item.words == 2 && item.high == 1 {
        Some(block.item_word(item, 1) % 65536)
    } else {
        None
    }
}

/// The bytes of the eight words of an item after its header, in order.
fn digest_bytes(block: &Block, item: &Item) -> ArrayVec<u8, 32>
    requires of_block { Contains (items_of block.now.items) item.now }
    requires size { item.now.words ≡ 9 }
    ensures value { result.items ≡ bytes_of
        (slice_range (block_words block.now) (item.now.first + 1) (item.now.first + 9)) }
    ensures len { length result.items ≡ 32 }
{
    let mut bytes = ArrayVec::new();
    for k in 1..9u32 {
        put(&mut bytes, block.item_word(item, k));
    }
    bytes
}

/// The digest of a HASH_VALUE item; None exactly where its size is not 9.
pub fn digest(block: &Block, item: &Item) -> Option<[u8; 32]>
    requires of_block { Contains (items_of block.now.items) item.now }
    ensures { result ≡ digest_of (block_words block.now) item.now }
{
    if item.words != 9 {
        return None;
    }
    match digest_bytes(block, item).into_inner() {
        Ok(digest) => Some(digest),
        Err(_) => unreachable!(),
    }
}
