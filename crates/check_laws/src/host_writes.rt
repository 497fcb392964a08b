//! What a host's events do themselves, and what the boot before them does, by what was noted of the
//! events of a script and by its moves.

ghost use Rattle.std.specs.Prelude.{◌≡◌, IfOk, drop, take};
ghost use Rattle.std.specs.List.{list_any};
ghost use Rattle.boot_tape.specs.Moving.{does_step, move_from, moves_from};
ghost use Rattle.check_laws.specs.Hosting.{boot_count, host_done, host_writes};

use crate::made::{add_all, first, others};
use boot_tape::{Move, Note};
use pico_board::Step;
use std::alloc::{AllocError, Global};

/// Whether the step of the move completes, or is torn within.
fn does_step(moved: &Move<'_>) -> bool
    ensures { result ≡ does_step (move_from moved.now) }
{
    match moved {
        Move::Done(_) => true,
        Move::Torn(_, within, _) => *within,
    }
}

/// Whether one of the moves completes or is torn.
fn do_step(moves: &[Move<'_>]) -> bool
    ensures { result ≡ list_any does_step (moves_from moves.now) }
{
    for moved in moves {
        if does_step(moved) {
            return true;
        }
    }
    false
}

/// Whether one of the moves of a host's own, of those of these events, completes or is torn.
pub(crate) fn host_writes(notes: &[Note], moves: &[Move<'_>]) -> bool
    ensures { result ≡ host_writes notes.now (moves_from moves.now) }
{
    let mut left = moves;
    for note in notes {
        if do_step(first(first(left, note.moves), note.own)) {
            return true;
        }
        left = others(left, note.moves);
    }
    false
}

/// The steps of a host's own, of those of these events, that complete.
pub(crate) fn host_done(
    alloc: Global,
    notes: &[Note],
    moves: &[Move<'_>],
) -> Result<Vec<Step>, AllocError>
    ensures { IfOk result (λ done. done.items ≡ host_done notes.now (moves_from moves.now)) }
{
    let mut done = Vec::new(alloc);
    let mut left = moves;
    for note in notes {
        let own = first(first(left, note.moves), note.own);
        add_all(&mut done, own)?;
        left = others(left, note.moves);
    }
    Ok(done)
}

/// How many moves the first of the events does.
pub(crate) fn boot_count(notes: &[Note]) -> usize
    ensures { result ≡ boot_count notes.now }
{
    match notes.first() {
        Some(note) => note.moves,
        None => 0,
    }
}
