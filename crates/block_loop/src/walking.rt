//! Loops of blocks, from link to link.

ghost use Rattle.std.specs.Prelude.{◌≡◌, ◌↔◌, ℕ, ℤ, List, ◌<◌, ◌≤◌, length, slice_get, IfOk, IfErr, IsErrOf, Ok, Some};
ghost use Rattle.block_codec.specs.Blocks.{BlockView, IsWholeBlock};
ghost use Rattle.block_loop.specs.Loop.{target, first_block, loop_of, IsLoopFault};
ghost use Rattle.block_loop.specs.Offsets.{loop_offsets, AreLoop};

use crate::fault::LoopFault;
use crate::finding::{block_at, block_to, first_block};
use crate::spans::{Span, first_shared, span_in};
use arrayvec::ArrayVec;
use block_codec::Block;
use pico_board::View;
use std::marker::Model;

/// The blocks of a window's loop, seen as their offsets in loop order: 1 to 32 of them.
#[derive(Debug, Drop)]
pub struct BlockLoop {
    spans: ArrayVec<Span, 32>,
}

impl Model for BlockLoop {
    ghost use Rattle.std.specs.Prelude.{ℕ, List, ◌≤◌, length};
    ghost use Rattle.block_loop.specs.Spans.{places_of};

    ghost Value = { List ℕ };

    ghost view = { λ l. places_of l.spans.items };
}

impl BlockLoop {
    /// The number of blocks.
    pub fn count(&self) -> u32
        ensures value { result ≡ length self.now }
        ensures few { result ≤ 32 }
    {
        self.spans.len() as u32
    }

    /// The offset of a block, counted from 0 in loop order.
    pub fn at(&self, i: u32) -> u32
        requires { i < length self.now }
        ensures { slice_get self.now i ≡ Some result }
    {
        self.spans[i as usize].at
    }
}

/// The offset that a block's link leads to.
fn target_of(block: &Block) -> i64
    ensures { result ≡ target block.now }
{
    i64::from(block.at()) + i64::from(block.link())
}

/// The loop that begins at the first block of the view, or its fault.
fn follow<V: View>(view: &V, first: Block) -> Result<BlockLoop, LoopFault>
    requires { first_block (V.bytes view.now) ≡ Some first }
    ensures { result ≡ loop_offsets (loop_of (V.bytes view.now)) }
{
    let start = first.at();
    let mut spans = ArrayVec::new();
    spans.push(span_in(&first));
    let mut last = first;
    for count in 1..33u32 {
        let to = target_of(&last);
        if to == i64::from(start) {
            return Ok(BlockLoop { spans });
        }
        if count == 32 {
            return Err(LoopFault::TooMany);
        }
        let Some(next) = block_to(view, to) else {
            return Err(LoopFault::Broken(last.at()));
        };
        let place = span_in(&next);
        if let Some(i) = first_shared(spans.as_slice(), place) {
            return Err(LoopFault::Overlap(i, count));
        }
        spans.push(place);
        last = next;
    }
    unreachable!()
}

/// The loop of a view's blocks, or its fault.
fn loop_in<V: View>(view: &V) -> Result<BlockLoop, LoopFault>
    ensures { result ≡ loop_offsets (loop_of (V.bytes view.now)) }
{
    match first_block(view) {
        Some(first) => follow(view, first),
        None => Err(LoopFault::NoBlock),
    }
}

/// The loop of a view's blocks: from its first block along the links, back to the first. Each
/// fault comes exactly where the view has it in place of a loop.
pub fn walk<V: View>(view: &V) -> Result<BlockLoop, LoopFault>
    ensures exact { result ≡ loop_offsets (loop_of (V.bytes view.now)) }
    ensures loop_ { IfOk result (λ offsets. AreLoop (V.bytes view.now) offsets) }
    ensures each_loop { (offsets : List ℕ) → AreLoop (V.bytes view.now) offsets
        → result ≡ Ok offsets }
    ensures fault { (f : LoopFault) → IsErrOf result f ↔ IsLoopFault (V.bytes view.now) f }
{
    loop_in(view)
}

/// The block at a place of the view's loop, counted from 0 in loop order.
pub fn block_of<V: View>(view: &V, found: &BlockLoop, i: u32) -> Block
    requires loop_ { AreLoop (V.bytes view.now) found.now }
    requires inside { i < length found.now }
    ensures exact { (loop : List BlockView) → loop_of (V.bytes view.now) ≡ Ok loop
        → slice_get loop i ≡ Some result }
    ensures whole { IsWholeBlock result }
{
    match block_at(view, found.at(i)) {
        Some(block) => block,
        None => unreachable!(),
    }
}
