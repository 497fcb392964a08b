//! A block in memory.

use crate::items::{Item, count_in, item_in};
use crate::words::word_in;
use arrayvec::ArrayVec;
use std::marker::Model;

/// A block that was read: its offset, its item words and its link. It takes no memory.
#[derive(Debug, Drop)]
pub struct Block {
    at: u32,
    items: ArrayVec<u32, 156>,
    link: i32,
}

impl Model for Block {
    ghost use Rattle.std.specs.Prelude.{◌≡◌, ◌%◌, ◌<◌, ◌≤◌, ◌^◌, length};
    ghost use Rattle.block_codec.specs.Items.{AreItems};
    ghost use Rattle.block_codec.specs.Blocks.{BlockView, IsWholeBlock};

    ghost Value = { BlockView };

    ghost view = { λ b. record { at = b.at; items = b.items.items; link = b.link } };

    ghost invariant = { λ b. IsWholeBlock
        (record { at = b.at; items = b.items.items; link = b.link }) };
}

impl Block {
    ghost use Rattle.std.specs.Prelude.{◌≡◌, ℕ, ◌+◌, ◌%◌, ◌<◌, ◌≤◌, ◌^◌, length, slice_get, slice_index, Contains};
    ghost use Rattle.block_codec.specs.Words.{AreWords};
    ghost use Rattle.block_codec.specs.Items.{AreItems, items_of, IsItemOf};
    ghost use Rattle.block_codec.specs.Blocks.{block_words, block_size, IsWholeBlock};

    /// A block of whole items.
    pub(crate) fn new(at: u32, items: ArrayVec<u32, 156>, link: i32) -> Block
        requires whole { AreItems items.items }
        requires few { length items.items ≤ 156 }
        requires words { AreWords items.items }
        requires aligned { at % 4 ≡ 0 }
        requires near { at < 2 ^ 24 }
        ensures value { result ≡ record { at = at; items = items.items; link = link } }
        ensures whole { IsWholeBlock result }
    {
        Block { at, items, link }
    }

    /// The offset of the block's first byte in its window, a multiple of 4 below 2^24.
    pub fn at(&self) -> u32
        ensures value { result ≡ self.now.at }
        ensures whole { IsWholeBlock self.now }
    {
        self.at
    }

    /// The block's size in bytes, 16 to 640.
    pub fn size(&self) -> u32
        ensures value { result ≡ block_size self.now }
        ensures small { result ≤ 640 }
        ensures whole { IsWholeBlock self.now }
    {
        4 * self.items.len() as u32 + 16
    }

    /// The signed offset in bytes from its first byte to the next block's.
    pub fn link(&self) -> i32
        ensures value { result ≡ self.now.link }
        ensures whole { IsWholeBlock self.now }
    {
        self.link
    }

    /// The number of the block's items.
    pub fn count(&self) -> u32
        ensures value { result ≡ length (items_of self.now.items) }
        ensures small { result ≤ length self.now.items }
        ensures whole { IsWholeBlock self.now }
    {
        count_in(self.items.as_slice())
    }

    /// An item, counted from 0.
    pub fn item(&self, i: u32) -> Item
        requires { i < length (items_of self.now.items) }
        ensures value { slice_get (items_of self.now.items) i ≡ Some result }
        ensures inside { IsItemOf self.now.items result }
        ensures whole { IsWholeBlock self.now }
    {
        item_in(self.items.as_slice(), i)
    }

    /// A word of the block, counted from the start word as 0.
    pub fn word(&self, k: u32) -> u32
        requires { k < length self.now.items + 4 }
        ensures value { result ≡ slice_index (block_words self.now) k }
        ensures whole { IsWholeBlock self.now }
    {
        word_in(self.items.as_slice(), self.link, k)
    }

    /// A word of one of the block's items, counted from its header as 0.
    pub fn item_word(&self, item: &Item, k: u32) -> u32
        requires of_block { Contains (items_of self.now.items) item.now }
        requires within { k < item.now.words }
        ensures value { result ≡ slice_index (block_words self.now) (item.now.first + k) }
        ensures within { item.now.first + k < length self.now.items + 4 }
        ensures whole { IsWholeBlock self.now }
    {
        word_in(self.items.as_slice(), self.link, item.first + k)
    }
}
