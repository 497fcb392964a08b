//! The table of a block.

ghost use Rattle.std.specs.Prelude.{◌≡◌, ◌<◌, ◌≤◌, ℕ, length, true, IfOk};
ghost use Rattle.block_codec.specs.Blocks.{block_words};
ghost use Rattle.block_codec.specs.Items.{items_of};
ghost use Rattle.part_table.specs.Contents.{fields_of_items, ok_or_bad};
ghost use Rattle.part_table.specs.Sound.{IsSoundTable};
ghost use Rattle.part_table.specs.TableOf.{has_table, table_of};
ghost use Rattle.part_table.specs.Windows.{IsPlacedWindow, partition_window};

use crate::contents::table_from;
use crate::faults::parts_fault;
use crate::hashes::{is_wrong_hash, read_hash};
use crate::items::{is_repeated, item_body, read_version};
use crate::{Table, TableFault};
use block_codec::Block;
use block_codec::kinds::{PARTITION_TABLE, find_item};

/// Whether the block has a PARTITION_TABLE item.
pub fn has_table(block: &Block) -> bool
    ensures { result ≡ has_table block.now }
{
    find_item(block, PARTITION_TABLE).is_some()
}

/// What the block's PARTITION_TABLE and VERSION items say.
fn read_fields(block: &Block) -> Result<Table, TableFault>
    ensures { result
        ≡ ok_or_bad (fields_of_items (block_words block.now) (items_of block.now.items)) }
{
    if is_repeated(block, PARTITION_TABLE) {
        return Err(TableFault::BadItem);
    }
    let version = read_version(block)?;
    let Some(item) = find_item(block, PARTITION_TABLE) else {
        return Err(TableFault::BadItem);
    };
    let body = item_body(block, &item);
    match table_from(version, item.high, body.as_slice()) {
        Some(table) => Ok(table),
        None => Err(TableFault::BadItem),
    }
}

/// The table of the block in a flash of so many sectors, or its first fault. The first free sector
/// is `first`.
fn table_of(block: &Block, sectors: u32, first: u32) -> Result<Table, TableFault>
    ensures { result ≡ table_of block.now sectors first }
{
    let hash = read_hash(block)?;
    let table = read_fields(block)?;
    if let Some(fault) = parts_fault(table.parts.as_slice(), sectors, first) {
        return Err(fault);
    }
    match hash {
        Some(hash) if is_wrong_hash(block, &hash) => Err(TableFault::Hash),
        _ => Ok(table),
    }
}

/// The table of the block in a flash of so many sectors, or its first fault. `first` sectors stand
/// before the first free one.
pub fn read_table(block: &Block, sectors: u32, first: u32) -> Result<Table, TableFault>
    requires { has_table block.now ≡ true }
    ensures exact { result ≡ table_of block.now sectors first }
    ensures sound { IfOk result (λ t. IsSoundTable t sectors) }
    ensures placed { IfOk result
        (λ t. (i : ℕ) → i < length t.parts.items
        → IsPlacedWindow (partition_window t i) sectors first) }
    ensures few { IfOk result (λ t. length t.parts.items ≤ 15) }
{
    table_of(block, sectors, first)
}
