//! The moves of a script, done on a board.

ghost use Rattle.std.specs.Prelude.{◌≡◌, length};
ghost use Rattle.pico_board.specs.MemBoard.{state_of};
ghost use Rattle.boot_session.specs.Standing.{IsUnarmed};
ghost use Rattle.boot_sweep.specs.Moving.{IsMoveIn};
ghost use Rattle.boot_tape.specs.Moving.{AreMovesIn, after_move, after_moves, move_from, moves_from};

use boot_sweep::{Move, complete, cut};
use pico_board::MemBoard;

/// Does a move.
fn do_move(board: &mut MemBoard, moved: &Move<'_>)
    requires ready { IsUnarmed (state_of board.old) }
    requires range { IsMoveIn (length (state_of board.old).content.flash) (move_from moved.now) }
    ensures ready { IsUnarmed (state_of board.new) }
    ensures moved { (state_of board.new).content
        ≡ after_move (state_of board.old).content (move_from moved.now) }
    ensures size { length (state_of board.new).content.flash
        ≡ length (state_of board.old).content.flash }
{
    match moved {
        Move::Done(step) => complete(board, step),
        Move::Torn(step, within, pattern) => cut(board, step, *within, pattern),
    }
}

/// Does moves, one after another.
pub fn do_moves(board: &mut MemBoard, moves: &[Move<'_>])
    requires ready { IsUnarmed (state_of board.old) }
    requires range { AreMovesIn (length (state_of board.old).content.flash) moves.now }
    ensures ready { IsUnarmed (state_of board.new) }
    ensures moved { (state_of board.new).content
        ≡ after_moves (state_of board.old).content (moves_from moves.now) }
    ensures size { length (state_of board.new).content.flash
        ≡ length (state_of board.old).content.flash }
{
    for moved in moves {
        do_move(board, moved);
    }
}
