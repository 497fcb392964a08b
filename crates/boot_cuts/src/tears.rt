//! The steps that a script leaves torn.

ghost use Rattle.std.specs.Prelude.{◌≡◌, ◌++◌, IfOk, OnOk};
ghost use Rattle.std.specs.List.{list_any};
ghost use Rattle.boot_tape.specs.Moving.{done_steps, move_from, moves_from};
ghost use Rattle.boot_cuts.specs.Tears.{is_left_torn, is_sector, left_torn, mends, sector_of, torn_here};

use boot_session::is_confined;
use boot_tape::Move;
use pico_board::{PAGE, SECTOR, Step, Window};
use std::alloc::{AllocError, Global};

/// The pages of a sector.
const PAGES: u32 = SECTOR / PAGE;

/// The sector in which an erase or a program lies.
fn sector_of(step: &Step) -> Option<u32>
    ensures { result ≡ sector_of step.now }
{
    match step {
        Step::Erase(sector) => Some(*sector),
        Step::Program(page, _) => Some(*page / PAGES),
        Step::Raise(_, _) => None,
    }
}

/// Whether it is this sector.
fn is_sector(one: Option<u32>, sector: u32) -> bool
    ensures { result ≡ is_sector one sector }
{
    match one {
        Some(one) => one == sector,
        None => false,
    }
}

/// Whether a later step erases the sector in which the torn one lies.
fn mends(torn: &Step, later: &Step) -> bool
    ensures { result ≡ mends torn.now later.now }
{
    match later {
        Step::Erase(sector) => is_sector(sector_of(torn), *sector),
        Step::Program(_, _) | Step::Raise(_, _) => false,
    }
}

/// Whether one of the steps that complete in these moves erases the sector in which the torn one
/// lies.
fn is_mended(torn: &Step, moves: &[Move<'_>]) -> bool
    ensures { result ≡ list_any (mends torn.now) (done_steps (moves_from moves.now)) }
{
    for moved in moves {
        if let Move::Done(step) = moved {
            if mends(torn, step) {
                return true;
            }
        }
    }
    false
}

/// Appends the step that a cut of the script cuts here, where no later step erases its sector.
fn add_torn(torn: &mut Vec<Step>, moved: &Move<'_>, later: &[Move<'_>]) -> Result<(), AllocError>
    ensures { OnOk result (torn.new.items
        ≡ torn.old.items ++ torn_here (move_from moved.now) (moves_from later.now)) }
{
    match moved {
        Move::Done(_) => {}
        Move::Torn(step, _, _) => {
            if !is_mended(step, later) {
                torn.push(*step)?;
            }
        }
    }
    Ok(())
}

/// The steps that cuts of the script cut, and whose sector no later step erases.
pub fn left_torn(alloc: Global, moves: &[Move<'_>]) -> Result<Vec<Step>, AllocError>
    ensures { IfOk result (λ torn. torn.items ≡ left_torn (moves_from moves.now)) }
{
    let mut torn = Vec::new(alloc);
    for (place, moved) in moves.iter().enumerate() {
        add_torn(&mut torn, moved, &moves[place + 1..])?;
    }
    Ok(torn)
}

/// Whether one of the steps that are left torn lies in the window.
pub fn is_left_torn(torn: &[Step], window: Window) -> bool
    ensures { result ≡ is_left_torn torn.now window }
{
    torn.iter().any(|step| is_confined(window, step))
}
