//! Whether an image is firm: a first sector of it that is programmed in part makes no other image.

ghost use Rattle.std.specs.Prelude.{◌≡◌, ◌↔◌, Contains, List, Ok, true};
ghost use Rattle.block_codec.specs.Blocks.{BlockAt, BlockView};
ghost use Rattle.block_loop.specs.Loop.{loop_of};
ghost use Rattle.block_loop.specs.Offsets.{AreLoop};
ghost use Rattle.image_check.specs.SameImage.{HoldsImage};
ghost use Rattle.boot_sweep.specs.Firms.{HasNoOtherBlock, IsFirm, LoadsFront};

use block_loop::{BlockLoop, block_at, walk};
use image_check::{Addressing, Started, defined_in, loads_of};
use load_map::Load;
use pico_board::{Cpu, SECTOR, View};

/// Whether the first of the loads is stored from the window's start to this offset.
fn loads_front(end: u32, loads: &[Load]) -> bool
    ensures { (result ≡ true) ↔ LoadsFront end loads.now }
{
    match loads.first() {
        Some(load) => load.storage == Some(0) && load.size == end,
        None => false,
    }
}

/// Whether a block of the loop begins at this offset.
fn is_in_loop(found: &BlockLoop, at: u32) -> bool
    ensures { (result ≡ true) ↔ Contains found.now at }
{
    for i in 0..found.count() {
        if found.at(i) == at {
            return true;
        }
    }
    false
}

/// Whether the block at this offset, if one stands there, is one of the loop's.
fn has_no_other_at<V: View>(view: &V, found: &BlockLoop, at: u32) -> bool
    ensures { (result ≡ true) ↔ ((b : BlockView) → BlockAt (V.bytes view.now) at b
        → Contains found.now at) }
{
    match block_at(view, at) {
        Some(_) => is_in_loop(found, at),
        None => true,
    }
}

/// Whether each block that stands below offset 4096 of a view is one of its loop's. It takes no
/// memory.
pub fn has_no_other_block<V: View>(view: &V, found: &BlockLoop) -> bool
    requires loop_ { AreLoop (V.bytes view.now) found.now }
    ensures { (loop : List BlockView) → loop_of (V.bytes view.now) ≡ Ok loop
        → (result ≡ true) ↔ HasNoOtherBlock (V.bytes view.now) loop }
{
    for i in 0..SECTOR / 4 {
        if !has_no_other_at(view, found, 4 * i) {
            return false;
        }
    }
    true
}

/// Whether the image that a view holds is firm. Its definition stands behind the first sector and
/// has a digest. The first entry of its load map has all bytes before it, and each block of the
/// first sector is one of its loop. It takes no memory.
pub fn firm<V: View>(view: &V, started: &Started, cpu: Cpu) -> bool
    requires held { HoldsImage cpu (V.bytes view.now) started.now }
    ensures { (result ≡ true) ↔ IsFirm cpu (V.bytes view.now) started.now }
{
    let found = match walk(view) {
        Ok(found) => found,
        Err(_) => unreachable!(),
    };
    let image = match defined_in(view, cpu) {
        Ok(image) => image,
        Err(_) => unreachable!(),
    };
    let loads = match loads_of(Addressing::FLASH, view.len(), &image.block, &image.def) {
        Ok(loads) => loads,
        Err(_) => unreachable!(),
    };
    if started.block < SECTOR {
        return false;
    }
    if image.def.digest.is_none() {
        return false;
    }
    if !loads_front(started.block, loads.as_slice()) {
        return false;
    }
    has_no_other_block(view, &found)
}
