//! The items of a block.

ghost use Rattle.std.specs.Prelude.{◌≡◌, ◌+◌, ◌<◌, ◌≤◌, length, slice_get};
ghost use Rattle.block_codec.specs.Items.{AreItems, item_at, items_of, IsItemOf};

use crate::words::item_size;

/// An item of a block: where it stands and what its header says.
#[derive(Debug, Clone, Copy, PartialEq, Eq)]
pub struct Item {
    /// The index of the item's header among the words of the block, at least 1.
    pub first: u32,
    /// The item's size in words, with its header; at least 1.
    pub words: u32,
    /// The header's first byte, the type byte; never 0xff.
    pub kind: u8,
    /// The header's third byte.
    pub low: u8,
    /// The header's fourth byte.
    pub high: u8,
}

/// The item whose header stands at this word of its block.
fn item_of(first: u32, header: u32) -> Item
    ensures { result ≡ item_at first header }
{
    Item {
        first,
        words: item_size(header) as u32,
        kind: (header % 256) as u8,
        low: (header / 65536 % 256) as u8,
        high: (header / 16777216 % 256) as u8,
    }
}

/// How many items the item words of a block are.
pub(crate) fn count_in(items: &[u32]) -> u32
    requires whole { AreItems items.now }
    requires few { length items.now ≤ 156 }
    ensures value { result ≡ length (items_of items.now) }
    ensures small { result ≤ length items.now }
{
    let mut at = 0;
    let mut count = 0;
    while at < items.len() {
        at += item_size(items[at]);
        count += 1;
    }
    count
}

/// An item among the item words of a block.
pub(crate) fn item_in(items: &[u32], i: u32) -> Item
    requires whole { AreItems items.now }
    requires few { length items.now ≤ 156 }
    requires within { i < length (items_of items.now) }
    ensures value { slice_get (items_of items.now) i ≡ Some result }
    ensures inside { IsItemOf items.now result }
{
    let mut at = 0;
    for n in 0..i {
        at += item_size(items[at]);
    }
    item_of(at as u32 + 1, items[at])
}
