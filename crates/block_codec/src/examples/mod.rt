//! Worked examples of items, as laws that compute.

ghost use Rattle.std.specs.Prelude.{◌≡◌, Some, None, [], ◌∷◌, true, false};
ghost use Rattle.block_codec.specs.Items.{headers_of, item_at};
ghost use Rattle.block_codec.specs.Kinds.{first_spelling, is_of_kind, item_of_kind, items_of_kind, version_words, version_of, hash_count_of, digest_of};

use crate::kinds::{
    ENTRY_POINT, HASH_DEF, HASH_VALUE, IMAGE_TYPE, LOAD_MAP, PARTITION_TABLE, VECTOR_TABLE,
    VERSION, WINDOW_DELTA,
};

/// Three kinds have a second spelling, with the top bit set. In all other type bytes that bit
/// belongs to the kind.
pub fn spellings_of_kinds()
    ensures load_map { first_spelling 0x86 ≡ 0x06 }
    ensures hash_value { first_spelling 0xcb ≡ 0x4b }
    ensures partition_table { first_spelling 0x8a ≡ 0x0a }
    ensures first { first_spelling 0x06 ≡ 0x06 }
    ensures image_type { first_spelling 0xc2 ≡ 0xc2 }
    ensures hash_def { first_spelling 0xc7 ≡ 0xc7 }
    ensures version { first_spelling 0xc8 ≡ 0xc8 }
{}

/// The type bytes of the kinds that are read.
pub fn type_bytes_of_kinds()
    ensures image_type { IMAGE_TYPE ≡ 0x42 }
    ensures vector_table { VECTOR_TABLE ≡ 0x03 }
    ensures entry_point { ENTRY_POINT ≡ 0x44 }
    ensures window_delta { WINDOW_DELTA ≡ 0x05 }
    ensures load_map { LOAD_MAP ≡ 0x06 }
    ensures hash_def { HASH_DEF ≡ 0x47 }
    ensures version { VERSION ≡ 0x48 }
    ensures hash_value { HASH_VALUE ≡ 0x4b }
    ensures partition_table { PARTITION_TABLE ≡ 0x0a }
{}

/// The first item of a kind is the first in either spelling, and the items of a kind are all of
/// them.
#[tactic(auto, unfolding(crate::specs::Items::size_of))]
pub fn items_of_one_kind()
    ensures first { item_of_kind 6 (item_at 1 0x142 ∷ item_at 2 0x186 ∷ item_at 3 0x106 ∷ [])
        ≡ Some (item_at 2 0x186) }
    ensures none { item_of_kind 6 (item_at 1 0x142 ∷ []) ≡ None }
    ensures all { items_of_kind 6 (item_at 2 0x186 ∷ item_at 1 0x142 ∷ item_at 3 0x106 ∷ [])
        ≡ item_at 2 0x186 ∷ item_at 3 0x106 ∷ [] }
    ensures of_kind { is_of_kind 6 (item_at 1 0x186) ≡ true }
    ensures not_of_kind { is_of_kind 6 (item_at 1 0x142) ≡ false }
{}

/// The headers among the words of items are the first words of each item, in order: a header of a
/// second spelling has its size in two bytes, another one in one.
#[tactic(auto, unfolding(crate::specs::Items::size_of))]
pub fn headers_of_items()
    ensures in_order { headers_of (0x203 ∷ 7 ∷ 0x142 ∷ 0x346 ∷ 8 ∷ 9 ∷ [])
        ≡ 0x203 ∷ 0x142 ∷ 0x346 ∷ [] }
    ensures two_bytes { headers_of (0x000286 ∷ 7 ∷ 0x142 ∷ []) ≡ 0x000286 ∷ 0x142 ∷ [] }
    ensures long { headers_of (0x010186 ∷ 7 ∷ 0x142 ∷ []) ≡ 0x010186 ∷ [] }
    ensures one_byte { headers_of (0x010103 ∷ 0x142 ∷ []) ≡ 0x010103 ∷ 0x142 ∷ [] }
    ensures none { headers_of [] ≡ [] }
{}

/// A VERSION item has two words without rows. With rows it has a word more for each two of the
/// rollback version and the rows. Minor is the low half of its version word and major the high
/// half.
#[tactic(auto, unfolding(crate::specs::Items::size_of))]
pub fn versions_of_items()
    ensures no_row { version_words 0 ≡ 2 }
    ensures one_row { version_words 1 ≡ 3 }
    ensures two_rows { version_words 2 ≡ 4 }
    ensures three_rows { version_words 3 ≡ 4 }
    ensures four_rows { version_words 4 ≡ 5 }
    ensures halves { version_of (7 ∷ 0x248 ∷ 0x00030005 ∷ []) (item_at 1 0x248)
        ≡ Some (record { major = 3; minor = 5 }) }
    ensures too_long { version_of (7 ∷ 0x348 ∷ 0x00030005 ∷ 0 ∷ []) (item_at 1 0x348) ≡ None }
    ensures too_short { version_of (7 ∷ 0x01000248 ∷ 0x00030005 ∷ []) (item_at 1 0x01000248)
        ≡ None }
{}

/// A HASH_DEF item has two words and names SHA-256 by a fourth byte of 1. Its number of hashed
/// words is the low half of the word after its header.
#[tactic(auto, unfolding(crate::specs::Items::size_of))]
pub fn hash_counts_of_items()
    ensures low_half { hash_count_of (7 ∷ 0x01000247 ∷ 0x00050009 ∷ []) (item_at 1 0x01000247)
        ≡ Some 9 }
    ensures other_hash { hash_count_of (7 ∷ 0x00000247 ∷ 9 ∷ []) (item_at 1 0x00000247) ≡ None }
    ensures too_long { hash_count_of (7 ∷ 0x01000347 ∷ 9 ∷ 0 ∷ []) (item_at 1 0x01000347) ≡ None }
{}

/// A HASH_VALUE item has nine words: its digest is the bytes of the eight after its header, in
/// order.
#[tactic(auto, unfolding(crate::specs::Items::size_of, crate::specs::Words::word_bytes))]
pub fn digests_of_items()
    ensures in_order { digest_of
        (0x94b ∷ 0x04030201 ∷ 0x08070605 ∷ 0x0c0b0a09 ∷ 0x100f0e0d
        ∷ 0x14131211 ∷ 0x18171615 ∷ 0x1c1b1a19 ∷ 0x201f1e1d ∷ 99 ∷ [])
        (item_at 0 0x94b)
        ≡ Some (1 ∷ 2 ∷ 3 ∷ 4 ∷ 5 ∷ 6 ∷ 7 ∷ 8 ∷ 9 ∷ 10 ∷ 11 ∷ 12 ∷ 13 ∷ 14 ∷ 15 ∷ 16
        ∷ 17 ∷ 18 ∷ 19 ∷ 20 ∷ 21 ∷ 22 ∷ 23 ∷ 24 ∷ 25 ∷ 26 ∷ 27 ∷ 28 ∷ 29 ∷ 30 ∷ 31 ∷ 32 ∷ []) }
    ensures too_short { digest_of (0x84b ∷ 1 ∷ 2 ∷ 3 ∷ 4 ∷ 5 ∷ 6 ∷ 7 ∷ []) (item_at 0 0x84b)
        ≡ None }
{}
