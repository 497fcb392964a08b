//! The faults of the items of a block.

ghost use Rattle.std.specs.Prelude.{◌≡◌, ◌<◌, ◌≤◌, Contains, Some, length, slice_get, take};
ghost use Rattle.std.specs.List.{list_any};
ghost use Rattle.block_codec.specs.Items.{items_of};
ghost use Rattle.block_codec.specs.Blocks.{block_words, IsWholeBlock};
ghost use Rattle.block_codec.specs.Kinds.{first_spelling, is_of_kind};
ghost use Rattle.image_def.specs.Faults.{is_right_inside, is_right_version, is_well_formed, item_fault, first_item_fault, hash_count_in, last_fault};

use crate::fault::DefFault;
use crate::kinds::{has_right_size, is_read};
use crate::rows::{first_bad_row, listed_rows, rollback_version};
use block_codec::kinds::{HASH_DEF, HASH_VALUE, LOAD_MAP, VERSION, find_item, hash_count, kind_of};
use block_codec::{Block, Item, version_item};

/// The greatest number of rows that an image may list.
const MOST_ROWS: u8 = 32;

/// Whether a VERSION item has the right size, at most 32 rows, and a rollback version of at most
/// 24 for each row.
fn is_version(block: &Block, item: &Item) -> bool
    requires of_block { Contains (items_of block.now.items) item.now }
    requires kind { item.now.kind ≡ 0x48 }
    ensures { result ≡ is_right_version (block_words block.now) item.now }
{
    if version_item(block, item).is_none() || item.high > MOST_ROWS {
        return false;
    }
    match rollback_version(block, item) {
        Some(version) => version <= 24 * u16::from(item.high),
        None => true,
    }
}

/// Whether an item is what its kind asks for beyond the bounds of its size. A LOAD_MAP item has
/// three words for each of its entries. A HASH_DEF item names SHA-256. A VERSION item has the size
/// of its rows, at most 32 of them, and a rollback version within their bound.
fn is_right_inside(block: &Block, item: &Item) -> bool
    requires of_block { Contains (items_of block.now.items) item.now }
    ensures { result
        ≡ is_right_inside (first_spelling item.now.kind) (block_words block.now) item.now }
{
    match kind_of(item.kind) {
        LOAD_MAP => item.words == 1 + 3 * u32::from(item.high % 128),
        HASH_DEF => hash_count(block, item).is_some(),
        VERSION => is_version(block, item),
        _ => true,
    }
}

/// Whether an item has a size that its kind may have, and is what its kind asks for beyond that.
fn is_right(block: &Block, item: &Item) -> bool
    requires of_block { Contains (items_of block.now.items) item.now }
    ensures { result ≡ is_well_formed (block_words block.now) item.now }
{
    has_right_size(kind_of(item.kind), item) && is_right_inside(block, item)
}

/// Whether an item of this kind stands before the one with this index.
fn stands_before(block: &Block, kind: u8, index: u32) -> bool
    requires inside { index ≤ length (items_of block.now.items) }
    ensures { result ≡ list_any (is_of_kind kind) (take index (items_of block.now.items)) }
{
    for i in 0..index {
        if kind_of(block.item(i).kind) == kind {
            return true;
        }
    }
    false
}

/// The fault of the item with this index.
fn fault_at(block: &Block, index: u32) -> Option<DefFault>
    requires inside { index < length (items_of block.now.items) }
    ensures { (item : Item) → slice_get (items_of block.now.items) index ≡ Some item
        → result ≡ item_fault (block_words block.now) (take index (items_of block.now.items)) item }
{
    let item = block.item(index);
    let kind = kind_of(item.kind);
    if !is_read(kind) {
        None
    } else if stands_before(block, kind, index) {
        Some(DefFault::Repeated(kind))
    } else if !is_right(block, &item) {
        Some(DefFault::BadItem(kind))
    } else if kind == VERSION {
        first_bad_row(listed_rows(block, &item).as_slice())
    } else {
        None
    }
}

/// The first fault of a block's items, in their order.
pub(crate) fn item_fault(block: &Block) -> Option<DefFault>
    ensures value { result ≡ first_item_fault block.now }
    ensures whole { IsWholeBlock block.now }
{
    for i in 0..block.count() {
        if let Some(fault) = fault_at(block, i) {
            return Some(fault);
        }
    }
    None
}

/// How many words of the block are hashed, where a HASH_DEF item names it.
pub(crate) fn hashed_words(block: &Block) -> Option<u32>
    ensures { result ≡ hash_count_in (block_words block.now) (items_of block.now.items) }
{
    match find_item(block, HASH_DEF) {
        Some(item) => hash_count(block, &item),
        None => None,
    }
}

/// The fault that is judged after all items.
pub(crate) fn fault_after(block: &Block) -> Option<DefFault>
    ensures { result ≡ last_fault (block_words block.now) (items_of block.now.items) }
{
    let count = hashed_words(block);
    match (find_item(block, HASH_VALUE), count) {
        (Some(_), None) => Some(DefFault::BadItem(HASH_VALUE)),
        (Some(value), Some(count)) if count > value.first => Some(DefFault::BadItem(HASH_DEF)),
        (None, Some(count)) if count > block.size() / 4 => Some(DefFault::BadItem(HASH_DEF)),
        _ => None,
    }
}
