//! Checkpoints of a play, of whose boards the machines that are made anew take copies.

ghost use Rattle.std.specs.Prelude.{◌≡◌, IfOk, IsTrue, List, length};
ghost use Rattle.pico_board.specs.MemBoard.{state_of};
ghost use Rattle.boot_tape.specs.Checkpoints.{HasFirstMoves, IsCheckpoint};
ghost use Rattle.boot_tape.specs.Moving.{AreMovesIn, MoveView, moves_from};

use crate::copying::copy_of;
use crate::moving::do_moves;
use boot_sweep::Move;
use pico_board::MemBoard;
use std::alloc::{AllocError, Global};

/// A board on which the first moves of a script are done.
#[derive(Drop)]
pub(crate) struct Checkpoint {
    /// The board.
    pub board: MemBoard,
    /// How many moves are done on it.
    pub done: usize,
}

/// The checkpoint that was kept. Where none was, it is a copy of the board before the script, on
/// which no move is done.
fn kept_or_copy(
    alloc: Global,
    start: &MemBoard,
    kept: Option<Checkpoint>,
) -> Result<Checkpoint, AllocError>
    requires power { IsTrue (state_of start.now).powered }
    ensures { IfOk result (λ point. (moves : List MoveView)
        → IsCheckpoint (state_of start.now).content moves kept
        → HasFirstMoves (state_of start.now).content moves point) }
{
    match kept {
        Some(point) => Ok(point),
        None => Ok(Checkpoint {
            board: copy_of(alloc, start)?,
            done: 0,
        }),
    }
}

/// A checkpoint with all these moves done, from the one that was kept or else from the board before
/// the script.
pub(crate) fn caught_up(
    alloc: Global,
    start: &MemBoard,
    kept: Option<Checkpoint>,
    moves: &[Move<'_>],
) -> Result<Checkpoint, AllocError>
    requires power { IsTrue (state_of start.now).powered }
    requires range { AreMovesIn (length (state_of start.now).content.flash) moves.now }
    requires kept { IsCheckpoint (state_of start.now).content (moves_from moves.now) kept }
    ensures first { IfOk result
        (HasFirstMoves (state_of start.now).content (moves_from moves.now)) }
    ensures all { IfOk result (λ point. point.done ≡ length moves.now) }
{
    let mut point = kept_or_copy(alloc, start, kept)?;
    do_moves(&mut point.board, &moves[point.done..]);
    point.done = moves.len();
    Ok(point)
}
