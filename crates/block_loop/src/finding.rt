//! Blocks at offsets of a view.

ghost use Rattle.std.specs.Prelude.{◌≡◌, ◌+◌, ◌-◌, ◌%◌, ◌<◌, ◌≤◌, None, drop, false, min, length, IfSome, IfNone};
ghost use Rattle.block_codec.specs.Blocks.{BlockView, BlockAt, IsWholeBlock};
ghost use Rattle.block_codec.specs.Reading.{block_at, front_block};
ghost use Rattle.block_loop.specs.Loop.{first_block, block_at_offset};

use block_codec::{Block, is_block_start, read_block};
use memchr::memchr;
use pico_board::View;

/// The byte that each block starts with: the lowest one of its first word.
const FIRST_BYTE: u8 = 0xd3;

/// Whether a block's first word stands at an offset of the view. The word is read into the four
/// bytes. Where it does not stand there, no block does.
fn has_start<V: View>(view: &V, at: u32, word: &mut [u8]) -> bool
    requires inside { at + 4 ≤ length (V.bytes view.now) }
    requires word { length word.old ≡ 4 }
    ensures { result ≡ false → front_block at (drop at (V.bytes view.now)) ≡ None }
{
    view.read(at, word);
    is_block_start(word)
}

/// The block at an offset of the view. Its bytes are read into the piece, as many as a block can
/// have.
fn block_in<V: View>(view: &V, at: u32, piece: &mut [u8]) -> Option<Block>
    requires inside { at < length (V.bytes view.now) }
    requires part { length piece.old ≡ min 640 (length (V.bytes view.now) - at) }
    requires aligned { at % 4 ≡ 0 }
    ensures exact { result ≡ block_at (V.bytes view.now) at }
    ensures whole { IfSome result (λ b. IsWholeBlock b) }
{
    view.read(at, piece);
    read_block(piece, at)
}

/// The whole block at an offset of the view; None exactly where none stands there.
pub fn block_at<V: View>(view: &V, at: u32) -> Option<Block>
    ensures exact { result ≡ block_at (V.bytes view.now) at }
    ensures found { IfSome result (λ b. BlockAt (V.bytes view.now) at b) }
    ensures whole { IfSome result (λ b. IsWholeBlock b) }
    ensures none { IfNone result ((b : BlockView) → BlockAt (V.bytes view.now) at b → ⊥) }
{
    let len = view.len();
    if at % 4 != 0 || at >= len {
        return None;
    }
    if len - at < 4 {
        return None;
    }
    let mut word = [0u8; 4];
    if !has_start(view, at, &mut word[..]) {
        return None;
    }
    let mut buffer = [0u8; 640];
    let size = (len - at).min(640) as usize;
    block_in(view, at, &mut buffer[..size])
}

/// The block at a signed offset of the view.
pub(crate) fn block_to<V: View>(view: &V, to: i64) -> Option<Block>
    ensures exact { result ≡ block_at_offset (V.bytes view.now) to }
    ensures whole { IfSome result (λ b. IsWholeBlock b) }
{
    if to < 0 {
        return None;
    }
    if to >= i64::from(view.len()) {
        return None;
    }
    block_at(view, to as u32)
}

/// Whether a byte that a block starts with is among the view's bytes below 4096, which are read into
/// the piece. Where there is none, the view has no first block.
fn has_first_byte<V: View>(view: &V, piece: &mut [u8]) -> bool
    requires part { length piece.old ≡ min 4096 (length (V.bytes view.now)) }
    ensures { result ≡ false → first_block (V.bytes view.now) ≡ None }
{
    view.read(0, piece);
    memchr(FIRST_BYTE, piece).is_some()
}

/// Whether the view may have a first block. Where it may not, it has none: in an erased sector no
/// place is tried.
fn may_have_block<V: View>(view: &V) -> bool
    ensures { result ≡ false → first_block (V.bytes view.now) ≡ None }
{
    let mut buffer = [0u8; 4096];
    let size = view.len().min(4096) as usize;
    has_first_byte(view, &mut buffer[..size])
}

/// The first block of the view: the one at the lowest multiple of 4 below 4096.
pub(crate) fn first_block<V: View>(view: &V) -> Option<Block>
    ensures exact { result ≡ first_block (V.bytes view.now) }
    ensures whole { IfSome result (λ b. IsWholeBlock b) }
{
    if !may_have_block(view) {
        return None;
    }
    for place in 0..1024u32 {
        if let Some(block) = block_at(view, 4 * place) {
            return Some(block);
        }
    }
    None
}
