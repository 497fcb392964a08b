//! Whether the steps of a session are a gated list of its slot.

ghost use Rattle.std.specs.Prelude.{◌≡◌, ◌<◌, ◌≤◌, [], length, true};
ghost use Rattle.boot_sweep.specs.Refusals.{begins_gated, may_follow, pages_behind, ungated, ungated_behind, ungated_in};
ghost use Rattle.boot_session.specs.Recordings.{step_limit};
ghost use Rattle.boot_sweep.specs.Gating.{ArePages};

use arrayvec::ArrayVec;
use pico_board::{Step, Window};

/// The bytes of a sector, the unit of an erase.
const SECTOR: u64 = pico_board::SECTOR as u64;

/// The pages of a sector.
const PAGES: u32 = 16;

/// Whether the step may follow in a gated list of a window whose first sector is this one, of which
/// these pages are programmed.
fn may_follow(sector: u32, pages: &[u32], step: &Step) -> bool
    ensures { result ≡ may_follow sector pages.now step.now }
{
    match step {
        Step::Erase(other) => pages.is_empty() && *other != sector,
        Step::Program(page, _) => {
            if *page / PAGES == sector {
                !pages.contains(page)
            } else {
                pages.is_empty()
            }
        }
        Step::Raise(_, _) => false,
    }
}

/// Adds the page of a step that programs one of the sector.
fn add_page(sector: u32, pages: &mut ArrayVec<u32, 16>, step: &Step)
    requires pages { ArePages sector pages.old.items }
    requires follows { may_follow sector pages.old.items step.now ≡ true }
    ensures pages { pages.new.items ≡ pages_behind sector pages.old.items step.now }
    ensures kept { ArePages sector pages.new.items }
{
    if let Step::Program(page, _) = step {
        if *page / PAGES == sector {
            pages.push(*page);
        }
    }
}

/// The first of the steps behind the erase of the sector that may not follow; the first one's
/// number is 1.
fn ungated_behind(sector: u32, steps: &[Step]) -> Option<u32>
    requires few { length steps.now < step_limit }
    ensures { result ≡ ungated_behind sector [] 1 steps.now }
{
    let mut pages = ArrayVec::new();
    for (i, step) in steps.iter().enumerate() {
        if !may_follow(sector, pages.as_slice(), step) {
            return Some(i as u32 + 1);
        }
        add_page(sector, &mut pages, step);
    }
    None
}

/// Whether the step is the erase of the window's first sector.
fn begins_gated(window: Window, step: &Step) -> bool
    ensures { result ≡ begins_gated window step.now }
{
    match step {
        Step::Erase(sector) => SECTOR * u64::from(*sector) == u64::from(window.start),
        _ => false,
    }
}

/// The first of the steps up to which the steps, which lie in the window, begin no gated list.
fn ungated_in(window: Window, steps: &[Step]) -> Option<u32>
    requires few { length steps.now ≤ step_limit }
    ensures { result ≡ ungated_in window steps.now }
{
    match steps.split_first() {
        None => None,
        Some((first, others)) => {
            if begins_gated(window, first) {
                ungated_behind(window.start / SECTOR as u32, others)
            } else {
                Some(0)
            }
        }
    }
}

/// The answer of the function above for the window of the slot, where there is one.
pub fn ungated(slot: Option<Window>, steps: &[Step]) -> Option<u32>
    requires few { length steps.now ≤ step_limit }
    ensures { result ≡ ungated slot steps.now }
{
    match slot {
        Some(window) => ungated_in(window, steps),
        None => None,
    }
}
