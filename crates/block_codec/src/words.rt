//! Words of a block, and what its headers say.

ghost use Rattle.std.specs.Prelude.{◌≡◌, ◌+◌, ◌<◌, ◌≤◌, length, slice_index};
ghost use Rattle.block_codec.specs.Items.{size_of};
ghost use Rattle.block_codec.specs.Blocks.{frame, last_item};

/// The word that a block starts with.
pub const START: u32 = 0xffff_ded3;

/// The word that a block ends with.
pub const END: u32 = 0xab12_3579;

/// The type byte of a last item.
pub const LAST: u32 = 0xff;

/// At most so many item words are in a block.
pub(crate) const MOST_ITEM_WORDS: usize = 156;

/// The size in words that a header gives, with the header.
#[tactic(auto, unfolding(crate::specs::Items::size_of))]
pub(crate) fn item_size(header: u32) -> usize
    ensures value { result ≡ size_of header }
    ensures small { result < 65536 }
{
    if header % 256 >= 128 {
        (header / 256 % 65536) as usize
    } else {
        (header / 256 % 256) as usize
    }
}

/// The last item after this many item words.
pub(crate) fn last_word(count: usize) -> u32
    requires { count ≤ 65535 }
    ensures { result ≡ last_item count }
{
    LAST + 256 * count as u32
}

/// A word of the block with these item words and this link.
pub(crate) fn word_in(items: &[u32], link: i32, k: u32) -> u32
    requires few { length items.now ≤ 156 }
    requires within { k < length items.now + 4 }
    ensures { result ≡ slice_index (frame items.now link) k }
{
    let count = items.len();
    let place = k as usize;
    if place == 0 {
        START
    } else if place <= count {
        items[place - 1]
    } else if place == count + 1 {
        last_word(count)
    } else if place == count + 2 {
        link.cast_unsigned()
    } else {
        END
    }
}
