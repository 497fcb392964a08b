//! Whether steps write the page of an image's first block last.

ghost use Rattle.std.specs.Prelude.{◌≡◌, ◌↔◌, ◌&&◌, not, ◌+◌, ◌/◌, ◌≤◌, IsTrue, length, true};
ghost use Rattle.std.specs.List.{list_all};
ghost use Rattle.pico_board.specs.Content.{Content};
ghost use Rattle.pico_board.specs.MemBoard.{state_of};
ghost use Rattle.pico_board.specs.Sessions.{Gated};
ghost use Rattle.pico_board.specs.Steps.{after_all};
ghost use Rattle.block_codec.specs.Blocks.{BlockView};
ghost use Rattle.block_loop.specs.Loop.{IsFirstBlock};
ghost use Rattle.block_loop.specs.Offsets.{AreLoop};
ghost use Rattle.sector_pool.specs.Pool.{HasFree};
ghost use Rattle.check_laws.specs.Staged.{EndsOn, Staged, is_off_page};

use block_loop::{BlockLoop, walk};
use boot_sweep::has_no_other_block;
use image_check::check;
use pico_board::{Cpu, FlashView, MemBoard, PAGE, Step, View, Window};
use sector_pool::SectorPool;

/// Whether the step programs no byte of this page.
fn is_off_page(page: u32, step: &Step) -> bool
    ensures { result ≡ is_off_page page step.now }
{
    match step {
        Step::Program(other, _) => *other != page,
        Step::Erase(_) | Step::Raise(_, _) => true,
    }
}

/// Whether none of the steps programs a byte of this page.
fn are_off_page(page: u32, steps: &[Step]) -> bool
    ensures { result ≡ list_all (is_off_page page) steps.now }
{
    steps.iter().all(|step| is_off_page(page, step))
}

/// Whether the step programs this page, and none before it does.
fn ends_with(page: u32, last: &Step, before: &[Step]) -> bool
    ensures { result ≡ (not (is_off_page page last.now)
        && list_all (is_off_page page) before.now) }
{
    !is_off_page(page, last) && are_off_page(page, before)
}

/// Whether the last of the steps, and none before it, programs this page.
fn ends_on_page(page: u32, steps: &[Step]) -> bool
    ensures { (result ≡ true) ↔ EndsOn page steps.now }
{
    match steps.split_last() {
        Some((last, before)) => ends_with(page, last, before),
        None => false,
    }
}

/// The page of the flash that holds the first byte of a view's first block.
fn first_page<V: View>(view: &V, found: &BlockLoop, window: Window) -> u32
    requires loop_ { AreLoop (V.bytes view.now) found.now }
    requires near { window.start ≤ 16777216 }
    ensures { (first : BlockView) → IsFirstBlock (V.bytes view.now) first
        → result ≡ (window.start + first.at) / 256 }
{
    (window.start + found.at(0)) / PAGE
}

/// Whether steps that are gated on a window, and lead to this board, are staged on it.
pub(crate) fn is_staged(
    board: &MemBoard,
    pool: &mut SectorPool,
    cpu: Cpu,
    window: Window,
    steps: &[Step],
) -> bool
    requires power { IsTrue (state_of board.now).powered }
    requires free { HasFree pool.old }
    requires inside { window.start + window.len ≤ length (state_of board.now).content.flash }
    ensures { (c : Content) → (state_of board.now).content ≡ after_all c steps.now
        → Gated steps.now window → (result ≡ true) ↔ Staged c steps.now window cpu }
{
    if check(board, pool, window, cpu, true).is_err() {
        return false;
    }
    let view = FlashView { board, window };
    match walk(&view) {
        Ok(found) => {
            ends_on_page(first_page(&view, &found, window), steps)
                && has_no_other_block(&view, &found)
        }
        Err(_) => false,
    }
}
