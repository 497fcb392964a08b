//! Blocks from bytes.

ghost use Rattle.std.specs.Prelude.{◌≡◌, ℕ, ℤ, List, ◌+◌, ◌*◌, ◌%◌, ◌<◌, ◌≤◌, ◌==◌, ◌^◌, take, drop, length, slice_index, IfSome, IfNone, OnSome};
ghost use Rattle.block_codec.specs.Words.{word_of, words_of, AreWords};
ghost use Rattle.block_codec.specs.Blocks.{start_word, IsBlock, IsWholeBlock, Begins};
ghost use Rattle.block_codec.specs.Reading.{words_before, item_words, front_block};
ghost use Rattle.block_codec.specs.Reading.{framed_words, IsFramed, view_of};

use crate::blocks::Block;
use crate::words::{END, LAST, START, item_size, last_word};
use arrayvec::ArrayVec;
use byteorder::{ByteOrder, LittleEndian};

/// Whether these four bytes are the word that a block starts with. Bytes that have another first
/// word begin with no block.
pub fn is_block_start(word: &[u8]) -> bool
    requires { length word.now ≡ 4 }
    ensures exact { result ≡ (word_of word.now == start_word) }
{
    LittleEndian::read_u32(word) == START
}

/// The words at the front of the piece, as many as a block can have.
fn front_words(piece: &[u8]) -> ArrayVec<u32, 160>
    ensures { result.items ≡ words_of (take 640 piece.now) }
{
    let mut words = ArrayVec::new();
    let count = (piece.len() / 4).min(160);
    for k in 0..count {
        words.push(LittleEndian::read_u32(&piece[4 * k..]));
    }
    words
}

/// How many words come before the last item, by the headers.
fn count_before(words: &[u32]) -> Option<usize>
    ensures value { result ≡ words_before 0 words.now }
    ensures inside { IfSome result (λ n. n < length words.now) }
{
    let mut at = 0;
    while at < words.len() {
        let header = words[at];
        if header % 256 == LAST {
            return Some(at);
        }
        let size = item_size(header);
        if size == 0 {
            return None;
        }
        at += size;
    }
    None
}

/// The number of item words of the block that begins the words.
#[tactic(auto, unfolding(crate::specs::Reading::item_words))]
fn item_count(words: &[u32]) -> Option<usize>
    requires { length words.now ≤ 160 }
    ensures { result ≡ framed_words words.now }
{
    if words.is_empty() || words[0] != START {
        return None;
    }
    let count = count_before(&words[1..])?;
    if count + 4 > words.len() {
        return None;
    }
    if words[count + 1] == last_word(count) && words[count + 3] == END {
        Some(count)
    } else {
        None
    }
}

/// The number of item words of the block that begins the words, with what that number means.
fn framed_count(words: &[u32]) -> Option<usize>
    requires { length words.now ≤ 160 }
    ensures value { result ≡ framed_words words.now }
    ensures start { OnSome result (slice_index words.now 0 ≡ start_word) }
    ensures framed { IfSome result (λ n. IsFramed words.now n) }
{
    item_count(words)
}

/// The item words of framed words.
fn items_in(words: &[u32], count: usize) -> ArrayVec<u32, 156>
    requires room { count < length words.now }
    requires few { count ≤ 156 }
    ensures value { result.items ≡ take count (drop 1 words.now) }
    ensures words { AreWords result.items }
{
    let mut items = ArrayVec::new();
    items.try_extend_from_slice(&words[1..count + 1]).unwrap();
    items
}

/// The block at an offset with the item words and the link of framed words.
fn framed_block(at: u32, words: &[u32], count: usize) -> Block
    requires framed { IsFramed words.now count }
    requires few { length words.now ≤ 160 }
    requires aligned { at % 4 ≡ 0 }
    requires near { at < 2 ^ 24 }
    ensures value { result ≡ view_of at words.now count }
    ensures whole { IsWholeBlock result }
{
    let items = items_in(words, count);
    Block::new(at, items, words[count + 2].cast_signed())
}

/// The block that begins the piece, with `at` as its offset; None exactly where no prefix of the
/// piece is a block.
pub fn read_block(piece: &[u8], at: u32) -> Option<Block>
    requires aligned { at % 4 ≡ 0 }
    requires near { at < 2 ^ 24 }
    ensures exact { result ≡ front_block at piece.now }
    ensures found { IfSome result (λ b. Begins at piece.now b) }
    ensures whole { IfSome result (λ b. IsWholeBlock b) }
    ensures none { IfNone result ((n : ℕ) (items : List ℕ) (link : ℤ)
        → IsBlock (take n piece.now) items link → ⊥) }
{
    let front = front_words(piece);
    let words = front.as_slice();
    match framed_count(words) {
        Some(count) => Some(framed_block(at, words, count)),
        None => None,
    }
}
