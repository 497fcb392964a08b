//! Whether two windows hold the same image.

ghost use Rattle.std.specs.Prelude.{◌≡◌, ◌↔◌, ℕ, ◌+◌, ◌<◌, ◌≤◌, ◌^◌, true, Some, None, Ok, List, Contains, IsTrue, IfSome, length, slice_get, slice_index, slice_range, take};
ghost use Rattle.block_codec.specs.Blocks.{BlockView, block_size};
ghost use Rattle.block_loop.specs.Loop.{loop_of};
ghost use Rattle.block_loop.specs.Offsets.{AreLoop};
ghost use Rattle.load_map.specs.Stored.{AreStoredIn, IsStoredIn};
ghost use Rattle.image_check.specs.SameImage.{AgreeFrom, AgreeOnBlocks, AgreeOnLoad, AgreeOnLoads, AgreeOnStorage, HoldsImage, HoldSameImage};

use crate::addressing::Addressing;
use crate::examining::{block_there, defined_in, loads_of};
use block_codec::Def;
use block_loop::{BlockLoop, walk};
use image_def::Started;
use load_map::{Load, Loads};
use pico_board::{Cpu, View};

/// The size of a piece that is compared at once: a sector.
const PIECE: u32 = 4096;

/// Whether the two views have the same bytes in a piece, which is as long as the buffers.
fn same_piece<V: View, W: View>(
    one: &V,
    two: &W,
    at: u32,
    first: &mut [u8],
    second: &mut [u8],
) -> bool
    requires long { length second.old ≡ length first.old }
    requires in_one { at + length first.old ≤ length (V.bytes one.now) }
    requires in_two { at + length first.old ≤ length (W.bytes two.now) }
    ensures { (result ≡ true) ↔ AgreeFrom (V.bytes one.now) (W.bytes two.now) at
        (at + length first.old) }
{
    one.read(at, first);
    two.read(at, second);
    *first == *second
}

/// Whether the two views have the same bytes in a range, piece by piece.
fn same_range<V: View, W: View>(one: &V, two: &W, start: u32, size: u32) -> bool
    requires in_one { start + size ≤ length (V.bytes one.now) }
    requires in_two { start + size ≤ length (W.bytes two.now) }
    ensures { (result ≡ true) ↔ AgreeFrom (V.bytes one.now) (W.bytes two.now) start (start + size) }
{
    let mut first = [0u8; PIECE as usize];
    let mut second = [0u8; PIECE as usize];
    let mut done = 0;
    while done < size {
        let count = (size - done).min(PIECE);
        let part = count as usize;
        if !same_piece(
            one,
            two,
            start + done,
            &mut first[..part],
            &mut second[..part],
        ) {
            return false;
        }
        done += count;
    }
    true
}

/// Whether the two views have the same bytes in the blocks of the first one's loop.
fn same_blocks<V: View, W: View>(one: &V, two: &W, found: &BlockLoop) -> bool
    requires loop_ { AreLoop (V.bytes one.now) found.now }
    requires long { length (W.bytes two.now) ≡ length (V.bytes one.now) }
    ensures { (loop : List BlockView) → loop_of (V.bytes one.now) ≡ Ok loop
        → (result ≡ true) ↔ AgreeOnBlocks (V.bytes one.now) (W.bytes two.now) loop }
{
    for i in 0..found.count() {
        let block = block_there(one, found.at(i));
        if !same_range(one, two, block.at(), block.size()) {
            return false;
        }
    }
    true
}

/// Whether the two views have the same bytes in the storage of a load.
fn same_load<V: View, W: View>(one: &V, two: &W, load: &Load) -> bool
    requires stored { IsStoredIn (length (V.bytes one.now)) load.now.storage load.now.size }
    requires long { length (W.bytes two.now) ≡ length (V.bytes one.now) }
    ensures { (result ≡ true) ↔ AgreeOnLoad (V.bytes one.now)
        (W.bytes two.now) load.now.storage load.now.size }
{
    match load.storage {
        Some(start) => same_range(one, two, start, load.size),
        None => true,
    }
}

/// Whether the two views have the same bytes in the storages of the loads.
fn same_loads<V: View, W: View>(one: &V, two: &W, loads: &[Load]) -> bool
    requires stored { AreStoredIn (length (V.bytes one.now)) loads.now }
    requires long { length (W.bytes two.now) ≡ length (V.bytes one.now) }
    ensures { (result ≡ true) ↔ AgreeOnLoads (V.bytes one.now) (W.bytes two.now) loads.now }
{
    for load in loads {
        if !same_load(one, two, load) {
            return false;
        }
    }
    true
}

/// Whether the two views have the same bytes in what the image loads, or everywhere where it has no
/// load map.
fn same_storage<V: View, W: View>(one: &V, two: &W, def: &Def, loads: &Loads) -> bool
    requires stored { AreStoredIn (length (V.bytes one.now)) loads.now.items }
    requires long { length (W.bytes two.now) ≡ length (V.bytes one.now) }
    ensures { (result ≡ true)
        ↔ AgreeOnStorage (V.bytes one.now) (W.bytes two.now) def.now.map_item loads.now.items }
{
    match def.map_item {
        Some(_) => same_loads(one, two, loads.as_slice()),
        None => same_range(one, two, 0, one.len()),
    }
}

/// Whether the second view has the same bytes as the first on all places of the image that the
/// first one holds. These are the blocks of its loop, and the storage of its load map, or
/// everything where it has no map. The views are compared in pieces of whole sectors. It takes no
/// memory.
pub fn same_content<V: View, W: View>(one: &V, two: &W, started: &Started, cpu: Cpu) -> bool
    requires long { length (W.bytes two.now) ≡ length (V.bytes one.now) }
    requires held { HoldsImage cpu (V.bytes one.now) started.now }
    ensures { (result ≡ true) ↔ HoldSameImage cpu (V.bytes one.now) (W.bytes two.now) started.now }
{
    let found = match walk(one) {
        Ok(found) => found,
        Err(_) => unreachable!(),
    };
    let image = match defined_in(one, cpu) {
        Ok(image) => image,
        Err(_) => unreachable!(),
    };
    let loads = match loads_of(Addressing::FLASH, one.len(), &image.block, &image.def) {
        Ok(loads) => loads,
        Err(_) => unreachable!(),
    };
    let blocks = same_blocks(one, two, &found);
    let storage = same_storage(one, two, &image.def, &loads);
    blocks && storage
}
