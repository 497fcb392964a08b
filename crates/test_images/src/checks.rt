//! Whether two windows hold the same image.

use image_check::{check, same_content};
use pico_board::{Board, Cpu, FlashView, View, Window};
use sector_pool::SectorPool;
use std::alloc::{AllocError, Global};
use std::process::Abort;
use std::test::Fail;
use test_fixtures::{VECTORS, board_of, flash};

/// The whole of a flash of 8192 bytes.
const WHOLE: Window = Window {
    start: 0,
    len: 8192,
};

/// A flash of 8192 bytes with the vectors at its start and these words at 0x100, and 0xff
/// elsewhere.
fn flash_with(alloc: Global, words: &[u32]) -> Result<Vec<u8>, AllocError> {
    let parts = [(0, VECTORS.as_slice()), (0x100, words)];
    flash(alloc, &parts, 8192)
}

/// Whether two flashes of 8192 bytes, of which the first has these words at 0x100 and holds an
/// image, hold the same image.
fn same_images(rt: &impl Abort, alloc: Global, one: &[u32], two: &[u32]) -> Result<bool, Fail> {
    let first = board_of(alloc, flash_with(alloc, one)?)?;
    let second = board_of(alloc, flash_with(alloc, two)?)?;
    let mut pool = SectorPool::make(alloc, 1)?;
    assert!(rt; pool.free() == 1);
    assert!(rt; first.flash_len() == 8192);
    assert!(rt; second.flash_len() == 8192);
    let Ok(started) = check(&first, &mut pool, WHOLE, Cpu::Arm, false) else {
        return Err("no image".into());
    };
    let one = FlashView {
        board: &first,
        window: WHOLE,
    };
    let two = FlashView {
        board: &second,
        window: WHOLE,
    };
    assert!(rt; two.len() == one.len());
    Ok(same_content(&one, &two, &started, Cpu::Arm))
}

#[test]
fn the_same_image_is_the_same_bytes(rt: HostRuntime) -> Result<(), Fail> {
    let plain = [0xffff_ded3, 0x1021_0142, 0x1ff, 0, 0xab12_3579];
    let more = [0xffff_ded3, 0x1021_0142, 0x1ff, 0, 0xab12_3579, 7];
    assert!(rt; same_images(&rt, rt.alloc(), &plain, &plain)?);
    assert!(rt; !same_images(&rt, rt.alloc(), &plain, &more)?);
    let mapped = [0xffff_ded3, 0x1021_0142, 0x0000_0106, 0x2ff, 0, 0xab12_3579];
    let behind = [
        0xffff_ded3,
        0x1021_0142,
        0x0000_0106,
        0x2ff,
        0,
        0xab12_3579,
        7,
    ];
    let other = [0xffff_ded3, 0x1021_0142, 0x0000_0106, 0x2ff, 0, 0xab12_3578];
    assert!(rt; same_images(&rt, rt.alloc(), &mapped, &behind)?);
    assert!(rt; !same_images(&rt, rt.alloc(), &mapped, &other)?);
    Ok(())
}
