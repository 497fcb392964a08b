//! The item kinds that an image definition reads.

ghost use Rattle.std.specs.Prelude.{◌≡◌};
ghost use Rattle.image_def.specs.Kinds.{between, has_right_size, is_read_kind, size_of_kind};

use block_codec::Item;
use block_codec::kinds::{
    ENTRY_POINT, HASH_DEF, HASH_VALUE, IMAGE_TYPE, LOAD_MAP, VECTOR_TABLE, VERSION, WINDOW_DELTA,
};

/// How many words an item of a kind has, at least and at most.
#[derive(Clone, Copy, Debug, PartialEq, Eq)]
struct ItemSize {
    /// The fewest words.
    least: u32,
    /// The most words.
    most: u32,
}

/// A size of at least and at most so many words.
fn between(least: u32, most: u32) -> Option<ItemSize>
    ensures { result ≡ between least most }
{
    Some(ItemSize { least, most })
}

/// The fewest and the most words of an item of this kind; None for a kind that is passed over.
fn size_of_kind(kind: u8) -> Option<ItemSize>
    ensures { result ≡ size_of_kind kind }
{
    match kind {
        IMAGE_TYPE => between(1, 1),
        VECTOR_TABLE => between(2, 2),
        ENTRY_POINT => between(3, 4),
        WINDOW_DELTA => between(2, 2),
        LOAD_MAP => between(1, 382),
        HASH_DEF => between(2, 2),
        VERSION => between(2, 19),
        HASH_VALUE => between(9, 9),
        _ => None,
    }
}

/// Whether an image definition reads items of this kind.
pub(crate) fn is_read(kind: u8) -> bool
    ensures { result ≡ is_read_kind kind }
{
    size_of_kind(kind).is_some()
}

/// Whether an item has as many words as one of this kind may have.
pub(crate) fn has_right_size(kind: u8, item: &Item) -> bool
    ensures { result ≡ has_right_size kind item.now }
{
    match size_of_kind(kind) {
        Some(size) => size.least <= item.words && item.words <= size.most,
        None => true,
    }
}
