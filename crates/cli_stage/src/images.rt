//! What a script asks of an image in the bytes of a window: the page of its first block, and
//! whether other blocks stand beside its loop.

ghost use Rattle.std.specs.Prelude.{◌≡◌, ◌<◌, ◌==◌, ◌&&◌, ◌||◌, IsTrue};
ghost use Rattle.std.specs.List.{list_any};
ghost use Rattle.pico_board.specs.Windows.{is_same_window};
ghost use Rattle.block_codec.specs.Reading.{block_at};
ghost use Rattle.block_loop.specs.Loop.{loop_of};
ghost use Rattle.block_loop.specs.Offsets.{loop_offsets};
ghost use Rattle.boot_rules.specs.Choosing.{boot_units_in};
ghost use Rattle.cli_stage.specs.Images.{are_listed, first_page, is_listed, is_lone, is_second, is_unit_window};

use block_loop::{BlockLoop, block_at, walk};
use boot_rules::boot_units_in;
use image_check::Started;
use pico_board::{Board, Cpu, PAGE, SECTOR, View, Window};
use slot_choice::SlotUnit;

/// The page of the first block of the view's loop.
pub(crate) fn first_page<V: View>(view: &V) -> u32
    ensures page { result ≡ first_page (loop_offsets (loop_of (V.bytes view.now))) }
    ensures low { result < 16 }
{
    match walk(view) {
        Ok(found) => found.at(0) / PAGE,
        Err(_) => 0,
    }
}

/// Whether a block of the loop begins at this offset.
fn is_place(found: &BlockLoop, at: u32) -> bool
    ensures { result ≡ list_any (λ x. x == at) found.now }
{
    for i in 0..found.count() {
        if found.at(i) == at {
            return true;
        }
    }
    false
}

/// Whether no block stands at this offset, or one of the loop does.
fn is_listed<V: View>(view: &V, found: &BlockLoop, at: u32) -> bool
    ensures { result ≡ is_listed found.now (block_at (V.bytes view.now) at) }
{
    match block_at(view, at) {
        Some(block) => is_place(found, block.at()),
        None => true,
    }
}

/// Whether each block that stands below 4096 is one of the loop's.
fn are_listed<V: View>(view: &V, found: &BlockLoop) -> bool
    ensures { result ≡ are_listed (V.bytes view.now) found.now 1024 }
{
    for n in 0..SECTOR / 4 {
        if !is_listed(view, found, 4 * n) {
            return false;
        }
    }
    true
}

/// Whether the view has a loop, and each block that stands below 4096 is one of it.
pub(crate) fn is_lone<V: View>(view: &V) -> bool
    ensures { result ≡ is_lone (V.bytes view.now) (loop_offsets (loop_of (V.bytes view.now))) }
{
    match walk(view) {
        Ok(found) => are_listed(view, &found),
        Err(_) => false,
    }
}

/// Whether the window is B's.
fn is_second(window: Window, second: Option<Window>) -> bool
    ensures { result ≡ is_second window second }
{
    match second {
        Some(second) => second.is_same(window),
        None => false,
    }
}

/// Whether the window is a member of the unit.
fn is_member(window: Window, unit: &SlotUnit) -> bool
    ensures { result ≡ (is_same_window unit.now.a window || is_second window unit.now.b) }
{
    unit.a.is_same(window) || is_second(window, unit.b)
}

/// Whether the window is a member of one of the units.
fn is_unit_window(window: Window, units: &[SlotUnit]) -> bool
    ensures { result ≡ is_unit_window window units.now }
{
    for unit in units {
        if is_member(window, unit) {
            return true;
        }
    }
    false
}

/// Whether the image is a trial, and the window a member of a boot unit.
pub(crate) fn is_bought<B: Board>(board: &B, cpu: Cpu, window: Window, started: &Started) -> bool
    requires power { IsTrue (B.state board.now).powered }
    ensures { result ≡ (started.now.trial
        && is_unit_window window (boot_units_in (B.state board.now).content cpu)) }
{
    let units = boot_units_in(board, cpu);
    let is_member = is_unit_window(window, units.as_slice());
    started.trial && is_member
}
