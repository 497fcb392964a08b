//! Lists of what is done to a board.

ghost use Rattle.std.specs.Prelude.{◌≡◌};
ghost use Rattle.boot_sweep.specs.Moving.{MoveView, Done, move_from};

use crate::moves::Move;
use pico_board::Step;

/// An entry of a list of what is done to a board.
pub trait Act {
    ghost act: { Self → MoveView };

    /// What is done.
    fn as_move(&self) -> Move<'_>
        ensures { move_from result ≡ act self.now };
}

impl Act for Step {
    ghost act = { λ step. Done step };

    fn as_move(&self) -> Move<'_> {
        Move::Done(*self)
    }
}

impl Act for Move<'_> {
    ghost act = { move_from };

    fn as_move(&self) -> Move<'_> {
        *self
    }
}
