//! Versions of images and partition tables.

ghost use Rattle.std.specs.Prelude.{◌≡◌, Contains};
ghost use Rattle.block_codec.specs.Items.{items_of};
ghost use Rattle.block_codec.specs.Blocks.{block_words};
ghost use Rattle.block_codec.specs.Kinds.{version_words, version_of};

use crate::blocks::Block;
use crate::items::Item;

/// A version. Versions are in order by `major` and then `minor`.
#[derive(Debug, Clone, Copy, PartialEq, Eq)]
pub struct Version {
    /// The part that counts first.
    pub major: u16,
    /// The part that counts where `major` is equal.
    pub minor: u16,
}

/// The size in words of a VERSION item that lists this many rollback rows.
fn right_words(rows: u8) -> u32
    ensures { result ≡ version_words rows }
{
    if rows == 0 {
        2
    } else {
        2 + (u32::from(rows) + 2) / 2
    }
}

/// The version of a VERSION item of the block; None exactly where the item's size is not the one
/// that its number of rows asks for.
pub fn version_item(block: &Block, item: &Item) -> Option<Version>
    requires of_block { Contains (items_of block.now.items) item.now }
    requires kind { item.now.kind ≡ 0x48 }
    ensures { result ≡ version_of (block_words block.now) item.now }
{
    if item.words != right_words(item.high) {
        return None;
    }
    let word = block.item_word(item, 1);
    Some(Version {
        major: (word / 65536) as u16,
        minor: (word % 65536) as u16,
    })
}
