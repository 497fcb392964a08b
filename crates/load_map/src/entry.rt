//! The entries of a LOAD_MAP item, word by word.

ghost use Rattle.std.specs.Prelude.{◌≡◌, ◌<◌, ◌≤◌, ◌+◌, ◌*◌, Contains, Some, IsTrue, length, slice_get};
ghost use Rattle.block_codec.specs.Blocks.{block_words};
ghost use Rattle.block_codec.specs.Items.{items_of};
ghost use Rattle.load_map.specs.Loads.{entries_of, entry_count, is_absolute, is_load_map};

use block_codec::{Block, Item};

/// The three words of an entry of a load map.
#[derive(Clone, Copy, Debug, PartialEq, Eq)]
pub(crate) struct Entry {
    /// The place of the entry's storage, or 0 for a clear entry.
    pub(crate) place: u32,
    /// The address at which the image finds the bytes when it runs.
    pub(crate) runtime: u32,
    /// The size of the entry's bytes, or the end of its storage.
    pub(crate) extent: u32,
}

/// How many entries a LOAD_MAP item has.
pub(crate) fn entry_count(item: &Item) -> u32
    ensures { result ≡ entry_count item.now }
{
    u32::from(item.high % 128)
}

/// Whether the entries of a LOAD_MAP item have absolute addresses.
pub(crate) fn is_absolute(item: &Item) -> bool
    ensures { result ≡ is_absolute item.now }
{
    item.high >= 128
}

/// An entry of a LOAD_MAP item, counted from 0.
pub(crate) fn entry_in(block: &Block, item: &Item, i: u32) -> Entry
    requires of_block { Contains (items_of block.now.items) item.now }
    requires map { IsTrue (is_load_map item.now) }
    requires within { i < entry_count item.now }
    ensures { slice_get (entries_of (block_words block.now) item.now) i ≡ Some result }
{
    let word = 3 * i;
    Entry {
        place: block.item_word(item, word + 1),
        runtime: block.item_word(item, word + 2),
        extent: block.item_word(item, word + 3),
    }
}
