//! Whether two windows agree up to the end of an image's furthest block.

ghost use Rattle.std.specs.Prelude.{◌≡◌, ◌↔◌, ◌+◌, ◌<◌, ◌≤◌, List, Ok, if◌then◌else◌, length, nat_lt, true};
ghost use Rattle.block_codec.specs.Blocks.{BlockView};
ghost use Rattle.block_loop.specs.Loop.{loop_of};
ghost use Rattle.block_loop.specs.Offsets.{AreLoop};
ghost use Rattle.image_check.specs.Image.{defined_in};
ghost use Rattle.image_check.specs.SameImage.{AgreeFrom};
ghost use Rattle.boot_sweep.specs.Comparing.{agree_on};
ghost use Rattle.boot_cuts.specs.Classes.{furthest};
ghost use Rattle.boot_cuts.specs.Classing.{agrees_to_end, is_unmapped};

use block_loop::{BlockLoop, block_of, walk};
use image_check::defined_in;
use pico_board::{Cpu, View};

/// The size of a piece that is compared at once: a sector.
const PIECE: u32 = 4096;

/// Whether the two views have the same bytes in a piece, which is as long as the buffers.
fn same_piece<V: View, W: View>(
    one: &V,
    two: &W,
    at: u32,
    first: &mut [u8],
    second: &mut [u8],
) -> bool
    requires long { length second.old ≡ length first.old }
    requires in_one { at + length first.old ≤ length (V.bytes one.now) }
    requires in_two { at + length first.old ≤ length (W.bytes two.now) }
    ensures { (result ≡ true) ↔ AgreeFrom (V.bytes one.now) (W.bytes two.now) at
        (at + length first.old) }
{
    one.read(at, first);
    two.read(at, second);
    *first == *second
}

/// Whether the two views have the same bytes in a range, piece by piece.
pub fn same_range<V: View, W: View>(one: &V, two: &W, start: u32, size: u32) -> bool
    requires in_one { start + size ≤ length (V.bytes one.now) }
    requires in_two { start + size ≤ length (W.bytes two.now) }
    ensures { (result ≡ true) ↔ AgreeFrom (V.bytes one.now) (W.bytes two.now) start (start + size) }
{
    let mut first = [0u8; PIECE as usize];
    let mut second = [0u8; PIECE as usize];
    let mut done = 0;
    while done < size {
        let count = (size - done).min(PIECE);
        let part = count as usize;
        if !same_piece(
            one,
            two,
            start + done,
            &mut first[..part],
            &mut second[..part],
        ) {
            return false;
        }
        done += count;
    }
    true
}

/// Whether the two views begin with the same bytes, so many of them.
fn same_front<V: View, W: View>(one: &V, two: &W, size: u32) -> bool
    requires in_one { size ≤ length (V.bytes one.now) }
    requires in_two { size ≤ length (W.bytes two.now) }
    ensures { result ≡ agree_on (V.bytes one.now) (W.bytes two.now) 0 size }
{
    same_range(one, two, 0, size)
}

/// The further one of two offsets.
fn further(one: u32, two: u32) -> u32
    ensures { result ≡ (if nat_lt one two then two else one) }
{
    if one < two { two } else { one }
}

/// The end of the furthest of the loop's blocks.
fn furthest<V: View>(view: &V, found: &BlockLoop) -> u32
    requires loop_ { AreLoop (V.bytes view.now) found.now }
    ensures exact { (loop : List BlockView) → loop_of (V.bytes view.now) ≡ Ok loop
        → result ≡ furthest 0 loop }
    ensures inside { result ≤ length (V.bytes view.now) }
{
    let mut end = 0;
    for i in 0..found.count() {
        let block = block_of(view, found, i);
        end = further(end, block.at() + block.size());
    }
    end
}

/// Whether the loop of the first view has more than one block, and the second one has the same
/// bytes up to the end of the furthest of them.
pub fn agrees_to_end<V: View, W: View>(one: &V, two: &W) -> bool
    requires long { length (W.bytes two.now) ≡ length (V.bytes one.now) }
    ensures { result ≡ agrees_to_end (V.bytes one.now) (W.bytes two.now)
        (loop_of (V.bytes one.now)) }
{
    match walk(one) {
        Ok(found) => found.count() > 1 && same_front(one, two, furthest(one, &found)),
        Err(_) => false,
    }
}

/// Whether the image of a view has no load map.
pub fn is_unmapped<V: View>(view: &V, cpu: Cpu) -> bool
    ensures { result ≡ is_unmapped (defined_in cpu (V.bytes view.now)) }
{
    match defined_in(view, cpu) {
        Ok(image) => image.def.map_item.is_none(),
        Err(_) => false,
    }
}
