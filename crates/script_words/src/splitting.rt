//! The words of a line, and the parts of a text before and behind a mark.

ghost use Rattle.std.specs.Prelude.{◌≡◌, ◌<◌, ◌≤◌, ◌∷◌, [], ℕ, IfNone, IfOk, IfSome, false, length, map, option_map, true};
ghost use Rattle.script_words.specs.Splitting.{before_mark, behind_mark, blank_at, blank_words, first_words, is_blank, word_bytes};

use memchr::memchr;
use std::alloc::{AllocError, Global};

/// A word of a line.
#[derive(Clone, Copy, Debug)]
pub struct Word<'a> {
    /// Its bytes.
    pub bytes: &'a [u8],
}

/// The bytes before the first that is the mark, or all of them. Then the bytes after the mark,
/// where there is one.
pub fn cut_at(mark: u8, bytes: &[u8]) -> (&[u8], Option<&[u8]>)
    ensures before { result.0.now ≡ before_mark mark bytes.now }
    ensures behind { option_map (λ rest. rest.now) result.1 ≡ behind_mark mark bytes.now }
    ensures size { length result.0.now ≤ length bytes.now }
    ensures shorter { IfSome result.1 (λ rest. length rest.now < length bytes.now) }
{
    match memchr(mark, bytes) {
        Some(place) => (&bytes[..place], Some(&bytes[place + 1..])),
        None => (bytes, None),
    }
}

/// Whether a byte stands between words: a blank, a tab or a carriage return.
fn is_blank(byte: u8) -> bool
    ensures { result ≡ is_blank byte }
{
    byte == b' ' || byte == b'\t' || byte == b'\r'
}

/// How many blanks stand before the first word of a text.
fn blanks_before(text: &[u8]) -> usize
    ensures most { result ≤ length text.now }
    ensures blanks { (j : ℕ) → j < result → blank_at text.now j ≡ true }
    ensures next { result < length text.now → blank_at text.now result ≡ false }
{
    for count in 0..text.len() {
        if !is_blank(text[count]) {
            return count;
        }
    }
    text.len()
}

/// How many bytes stand before the first blank of a text.
fn word_size(text: &[u8]) -> usize
    ensures most { result ≤ length text.now }
    ensures bytes { (j : ℕ) → j < result → blank_at text.now j ≡ false }
    ensures next { result < length text.now → blank_at text.now result ≡ true }
{
    for count in 0..text.len() {
        if is_blank(text[count]) {
            return count;
        }
    }
    text.len()
}

/// The first word of a text, and what follows it. None where no word is left.
fn next_word(text: &[u8]) -> Option<(&[u8], &[u8])>
    ensures some { IfSome result
        (λ next. blank_words text.now ≡ next.0.now ∷ blank_words next.1.now) }
    ensures none { IfNone result (blank_words text.now ≡ []) }
{
    let start = blanks_before(text);
    if start == text.len() {
        return None;
    }
    let rest = &text[start..];
    let end = word_size(rest);
    Some((&rest[..end], &rest[end..]))
}

/// The most words of a line that are looked at: one more than any record has.
pub const MOST_WORDS: usize = 4100;

/// The first words of a line, before its comment. It fails only where memory is out.
pub fn split_line<'a>(alloc: Global, line: &'a [u8]) -> Result<Vec<Word<'a>>, AllocError>
    ensures { IfOk result (λ words. map word_bytes words.items ≡ first_words line.entry.now) }
{
    let (before, _) = cut_at(b'#', line);
    let mut text = before;
    let mut words = Vec::new(alloc);
    'words: while words.len() < MOST_WORDS {
        let Some((word, rest)) = next_word(text) else {
            return Ok(words);
        };
        words.push(Word { bytes: word })?;
        text = rest;
    }
    Ok(words)
}
