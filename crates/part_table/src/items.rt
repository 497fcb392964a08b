//! The items of a block that a table is read from.

ghost use Rattle.std.specs.Prelude.{◌≡◌, length, Contains};
ghost use Rattle.block_codec.specs.Blocks.{block_words};
ghost use Rattle.block_codec.specs.Items.{items_of, IsItemOf};
ghost use Rattle.block_codec.specs.Kinds.{item_of_kind, version_of, hash_count_of, digest_of};
ghost use Rattle.part_table.specs.Contents.{body_of, is_repeated, is_bad, said, version_in, hash_count, is_misplaced_digest, ok_unless_bad};

use crate::TableFault;
use arrayvec::ArrayVec;
use block_codec::kinds::{HASH_DEF, HASH_VALUE, VERSION, digest, find_item, hash_count, kind_of};
use block_codec::{Block, Item, Version, version_item};

/// Whether the block has two items of a kind or more.
pub(crate) fn is_repeated(block: &Block, kind: u8) -> bool
    ensures { result ≡ is_repeated (items_of block.now.items) kind }
{
    let mut count = 0u32;
    for i in 0..block.count() {
        if kind_of(block.item(i).kind) == kind {
            count += 1;
        }
    }
    count >= 2
}

/// The version of the block's VERSION item, 0.0 where there is none.
pub(crate) fn read_version(block: &Block) -> Result<Version, TableFault>
    ensures { let words = block_words block.now in
        let items = items_of block.now.items in
        result ≡ ok_unless_bad (is_bad (version_of words) VERSION items) (version_in words items) }
{
    if is_repeated(block, VERSION) {
        return Err(TableFault::BadItem);
    }
    match find_item(block, VERSION) {
        Some(item) => version_item(block, &item).ok_or(TableFault::BadItem),
        None => Ok(Version { major: 0, minor: 0 }),
    }
}

/// The number of hashed words in the block's HASH_DEF item, if there is one.
pub(crate) fn read_hash_count(block: &Block) -> Result<Option<u32>, TableFault>
    ensures { let words = block_words block.now in
        let items = items_of block.now.items in
        result
        ≡ ok_unless_bad (is_bad (hash_count_of words) HASH_DEF items) (hash_count words items) }
{
    if is_repeated(block, HASH_DEF) {
        return Err(TableFault::BadItem);
    }
    match find_item(block, HASH_DEF) {
        Some(item) => match hash_count(block, &item) {
            Some(count) => Ok(Some(count)),
            None => Err(TableFault::BadItem),
        },
        None => Ok(None),
    }
}

/// The digest of the block's HASH_VALUE item, if there is one.
pub(crate) fn read_digest(block: &Block) -> Result<Option<[u8; 32]>, TableFault>
    ensures { let words = block_words block.now in
        let items = items_of block.now.items in
        result
        ≡ ok_unless_bad (is_bad (digest_of words) HASH_VALUE items)
        (said (digest_of words) HASH_VALUE items) }
{
    if is_repeated(block, HASH_VALUE) {
        return Err(TableFault::BadItem);
    }
    match find_item(block, HASH_VALUE) {
        Some(item) => match digest(block, &item) {
            Some(digest) => Ok(Some(digest)),
            None => Err(TableFault::BadItem),
        },
        None => Ok(None),
    }
}

/// Whether this number of hashed words does not fit the block: it passes the word at which the
/// HASH_VALUE item begins; or it passes the block's end where there is no such item; or there is a
/// HASH_VALUE item and no number.
pub(crate) fn is_misplaced_digest(block: &Block, count: Option<u32>) -> bool
    ensures { result
        ≡ is_misplaced_digest (length (block_words block.now))
        (item_of_kind HASH_VALUE (items_of block.now.items)) count }
{
    match (find_item(block, HASH_VALUE), count) {
        (Some(value), Some(count)) => value.first < count,
        (Some(_), None) => true,
        (None, Some(count)) => block.size() / 4 < count,
        (None, None) => false,
    }
}

/// The words of an item after its header.
pub(crate) fn item_body(block: &Block, item: &Item) -> ArrayVec<u32, 156>
    requires of_block { Contains (items_of block.now.items) item.now }
    requires inside { IsItemOf block.now.items item.now }
    ensures { result.items ≡ body_of (block_words block.now) item.now }
{
    let mut body = ArrayVec::new();
    for k in 1..item.words {
        body.push(block.item_word(item, k));
    }
    body
}
