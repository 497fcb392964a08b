//! The definition that a block gives.

ghost use Rattle.std.specs.Prelude.{◌≡◌, ◌≤◌, true, pos, None, option_map, option_and_then, unwrap_or, position, IfSome, IfOk, IfErr, []};
ghost use Rattle.std.specs.Option.{option_map_or};
ghost use Rattle.block_codec.specs.Items.{items_of};
ghost use Rattle.block_codec.specs.Blocks.{block_words, IsWholeBlock};
ghost use Rattle.block_codec.specs.Kinds.{is_of_kind, version_of, digest_of};
ghost use Rattle.block_codec.specs.declared.kinds.TheConstants.{LOAD_MAP};
ghost use Rattle.image_def.specs.Suits.{has_image_type};
ghost use Rattle.image_def.specs.Rows.{rollback_in, rows_in};
ghost use Rattle.image_def.specs.Held.{IsHeldItem, IsVersion};
ghost use Rattle.image_def.specs.Faults.{first_item_fault, IsDefFault};
ghost use Rattle.image_def.specs.Flags.{flags_of};
ghost use Rattle.image_def.specs.Guarantees.{IsDefinition};
ghost use Rattle.image_def.specs.Definition.{second_word, delta_in, entry_point_in, no_version, def_record, def_of};

use crate::fault::DefFault;
use crate::images::flags;
use crate::judging::{fault_after, hashed_words, item_fault};
use crate::rows::{listed_rows, rollback_version};
use arrayvec::ArrayVec;
use block_codec::kinds::{
    ENTRY_POINT, HASH_VALUE, IMAGE_TYPE, LOAD_MAP, VECTOR_TABLE, VERSION, WINDOW_DELTA, digest,
    find_item, kind_of,
};
use block_codec::{Block, Def, EntryPoint, Item, Version, version_item};

/// The flags of the IMAGE_TYPE item.
fn image_flags_of(item: Option<Item>) -> u16
    ensures { result ≡ option_map_or flags_of item 0 }
{
    match item {
        Some(item) => flags(&item),
        None => 0,
    }
}

/// The word index of the IMAGE_TYPE item.
fn image_word_of(item: Option<Item>) -> u32
    ensures { result ≡ option_map_or (λ item. item.first) item 0 }
{
    match item {
        Some(item) => item.first,
        None => 0,
    }
}

/// The address that a VECTOR_TABLE item names.
fn vector_of(block: &Block, item: Option<Item>) -> Option<u32>
    requires { IfSome item (λ item. IsHeldItem block.now 2 item) }
    ensures { result ≡ option_map (second_word (block_words block.now)) item }
{
    match item {
        Some(item) => Some(block.item_word(&item, 1)),
        None => None,
    }
}

/// PC, SP and limit of an ENTRY_POINT item.
fn entry_point_of(block: &Block, item: Option<Item>) -> Option<EntryPoint>
    requires { IfSome item (λ item. IsHeldItem block.now 3 item) }
    ensures { result ≡ option_map (entry_point_in (block_words block.now)) item }
{
    match item {
        Some(item) => Some(EntryPoint {
            pc: block.item_word(&item, 1),
            sp: block.item_word(&item, 2),
            limit: if item.words == 4 {
                block.item_word(&item, 3)
            } else {
                0
            },
        }),
        None => None,
    }
}

/// The delta of a ROLLING_WINDOW_DELTA item, or 0.
fn delta_of(block: &Block, item: Option<Item>) -> i32
    requires { IfSome item (λ item. IsHeldItem block.now 2 item) }
    ensures { result ≡ option_map_or (delta_in (block_words block.now)) item (pos 0) }
{
    match item {
        Some(item) => block.item_word(&item, 1).cast_signed(),
        None => 0,
    }
}

/// The digest of a HASH_VALUE item.
fn digest_of(block: &Block, item: Option<Item>) -> Option<[u8; 32]>
    requires { IfSome item (λ item. IsHeldItem block.now 0 item) }
    ensures { result ≡ option_and_then (digest_of (block_words block.now)) item }
{
    match item {
        Some(item) => digest(block, &item),
        None => None,
    }
}

/// The version of a VERSION item, or 0.0.
fn version_of(block: &Block, item: Option<Item>) -> Version
    requires { IfSome item (λ item. IsVersion block.now item) }
    ensures { result
        ≡ unwrap_or (option_and_then (version_of (block_words block.now)) item) no_version }
{
    let none = Version { major: 0, minor: 0 };
    match item {
        Some(item) => version_item(block, &item).unwrap_or(none),
        None => none,
    }
}

/// The rollback version of a VERSION item that lists rows.
fn rollback_of(block: &Block, item: Option<Item>) -> Option<u16>
    requires { IfSome item (λ item. IsVersion block.now item) }
    ensures { result ≡ option_and_then (rollback_in (block_words block.now)) item }
{
    match item {
        Some(item) => rollback_version(block, &item),
        None => None,
    }
}

/// The rows that a VERSION item lists.
fn rows_of(block: &Block, item: Option<Item>) -> ArrayVec<u16, 32>
    requires { IfSome item (λ item. IsVersion block.now item) }
    ensures { result.items ≡ option_map_or (rows_in (block_words block.now)) item [] }
{
    match item {
        Some(item) => listed_rows(block, &item),
        None => ArrayVec::new(),
    }
}

/// The index of a block's first LOAD_MAP item among its items.
fn map_place(block: &Block) -> Option<u32>
    ensures { result ≡ position (is_of_kind LOAD_MAP) (items_of block.now.items) }
{
    for i in 0..block.count() {
        if kind_of(block.item(i).kind) == LOAD_MAP {
            return Some(i);
        }
    }
    None
}

/// What the items of a block say, where none of them has a fault.
fn def_from(block: &Block) -> Def
    requires sound { first_item_fault block.now ≡ None }
    ensures { result ≡ def_record (block_words block.now) (items_of block.now.items) }
{
    let image_type = find_item(block, IMAGE_TYPE);
    let version = find_item(block, VERSION);
    Def {
        flags: image_flags_of(image_type),
        image_word: image_word_of(image_type),
        vector: vector_of(block, find_item(block, VECTOR_TABLE)),
        entry_point: entry_point_of(block, find_item(block, ENTRY_POINT)),
        delta: delta_of(block, find_item(block, WINDOW_DELTA)),
        map_item: map_place(block),
        hash_words: hashed_words(block).unwrap_or(0),
        digest: digest_of(block, find_item(block, HASH_VALUE)),
        version: version_of(block, version),
        rollback: rollback_of(block, version),
        rows: rows_of(block, version),
    }
}

/// The definition of a block, or its first fault.
#[tactic(auto, unfolding(crate::specs::Definition::def_of))]
fn read_items(block: &Block) -> Result<Def, DefFault>
    ensures value { result ≡ def_of block.now }
    ensures whole { IsWholeBlock block.now }
{
    if let Some(fault) = item_fault(block) {
        return Err(fault);
    }
    match fault_after(block) {
        Some(fault) => Err(fault),
        None => Ok(def_from(block)),
    }
}

/// The definition of a block that has an IMAGE_TYPE item, or its first fault. This is the fault of
/// the first item that has one, judged by the items before it. Where no item has a fault, it is
/// the one that is judged after all items.
pub fn read_def(block: &Block) -> Result<Def, DefFault>
    requires { has_image_type block.now ≡ true }
    ensures value { result ≡ def_of block.now }
    ensures sound { IfOk result (λ def. IsDefinition block.now def) }
    ensures fault { IfErr result (λ fault. IsDefFault block.now fault) }
{
    read_items(block)
}
