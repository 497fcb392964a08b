//! What a sealed image takes over from its binary.

ghost use Rattle.std.specs.Prelude.{◌≡◌, ◌+◌, ◌≤◌, Contains, IfOk, IfSome, length, slice_range};
ghost use Rattle.pico_board.specs.declared.window.TheConstants.{MOST_FLASH_BYTES};
ghost use Rattle.block_codec.specs.Blocks.{block_words};
ghost use Rattle.block_codec.specs.Items.{IsItemOf, items_of};
ghost use Rattle.image_pack.specs.Filling.{whole_sectors, whole_words};
ghost use Rattle.image_pack.specs.Sealing.{copied_words, entry_item, item_words_of, parts_in};
ghost use Rattle.image_pack.specs.Within.{IsWithin};

use crate::filling::whole_sectors;
use arrayvec::ArrayVec;
use block_codec::kinds::{ENTRY_POINT, VECTOR_TABLE, find_item};
use block_codec::{Block, Item};
use block_loop::{LoopFault, block_of, walk};
use image_check::{Addressing, Why, defined_in, loads_of};
use load_map::Loads;
use pico_board::{Cpu, SliceView, View};
use std::alloc::{AllocError, Global};

/// What a sealed image takes over from its binary besides its bytes.
#[derive(Debug, Drop)]
pub(crate) struct Parts {
    /// The offset of the first block of the binary's loop.
    pub(crate) first: u32,
    /// The offset of the last block of the loop.
    pub(crate) last: u32,
    /// The offset of the last block's link word.
    pub(crate) link_at: u32,
    /// The words of the definition's ENTRY_POINT item, or otherwise of its VECTOR_TABLE item.
    pub(crate) entry: ArrayVec<u32, 156>,
    /// The loads of the definition's map.
    pub(crate) loads: Loads,
}

/// The words of an item.
fn item_words(block: &Block, item: &Item) -> ArrayVec<u32, 156>
    requires of_block { Contains (items_of block.now.items) item.now }
    requires inside { IsItemOf block.now.items item.now }
    requires few { length block.now.items ≤ 156 }
    ensures { result.items
        ≡ slice_range (block_words block.now) item.now.first (item.now.first + item.now.words) }
{
    let mut words = ArrayVec::new();
    for k in 0..item.words {
        words.push(block.item_word(item, k));
    }
    words
}

/// The item of a definition that is copied.
fn entry_item(block: &Block) -> Option<Item>
    ensures value { result ≡ entry_item (items_of block.now.items) }
    ensures of_block { IfSome result (λ item. Contains (items_of block.now.items) item) }
    ensures inside { IfSome result (λ item. IsItemOf block.now.items item) }
    ensures few { length block.now.items ≤ 156 }
{
    match find_item(block, ENTRY_POINT) {
        Some(item) => Some(item),
        None => find_item(block, VECTOR_TABLE),
    }
}

/// The words of the copied item; none where there is no such item.
fn copied_words(block: &Block) -> ArrayVec<u32, 156>
    ensures { result.items ≡ copied_words block.now }
{
    match entry_item(block) {
        Some(item) => item_words(block, &item),
        None => ArrayVec::new(),
    }
}

/// What a sealed image takes over from a binary, or the first rule that the binary fails. These
/// are the binary's bytes in whole sectors.
fn parts_in(bytes: &[u8], cpu: Cpu) -> Result<Parts, Why>
    requires { length bytes.now ≤ MOST_FLASH_BYTES }
    ensures { result ≡ parts_in cpu bytes.now }
{
    let view = SliceView { bytes };
    let found = match walk(&view) {
        Ok(found) => found,
        Err(LoopFault::NoBlock) => return Err(Why::NoBlock),
        Err(fault) => return Err(Why::Loop(fault)),
    };
    let image = match defined_in(&view, cpu) {
        Ok(image) => image,
        Err(why) => return Err(why),
    };
    let loads = match loads_of(Addressing::FLASH, view.len(), &image.block, &image.def) {
        Ok(loads) => loads,
        Err(why) => return Err(why),
    };
    let last = block_of(&view, &found, found.count() - 1);
    Ok(Parts {
        first: found.at(0),
        last: last.at(),
        link_at: last.at() + (last.size() - 8),
        entry: copied_words(&image.block),
        loads,
    })
}

/// What a sealed image takes over from a binary, or the first rule that the binary fails. The
/// binary is filled with 0xff to whole sectors.
pub(crate) fn binary_parts(
    alloc: Global,
    binary: &[u8],
    cpu: Cpu,
) -> Result<Result<Parts, Why>, AllocError>
    requires { length binary.now ≤ MOST_FLASH_BYTES }
    ensures value { IfOk result (λ parts. parts ≡ parts_in cpu (whole_sectors binary.now)) }
    ensures within { IfOk result
        (λ parts. IfOk parts (λ p. IsWithin p (length (whole_words binary.now)))) }
{
    let sectors = whole_sectors(alloc, binary)?;
    Ok(parts_in(&sectors, cpu))
}
