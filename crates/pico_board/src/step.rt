//! The atomic writes of a board, as data.

ghost use Rattle.std.specs.Prelude.{length, IsTrue, is_ok};
ghost use Rattle.pico_board.specs.Steps.{IsStepIn};
ghost use Rattle.pico_board.specs.Board.{Does};

use crate::board::{Board, PowerLost};

/// A write of the board that is one step: it completes, or power is lost in it.
#[derive(Clone, Copy)]
pub enum Step {
    /// The erase of the sector of this number, which has the 4096 bytes from 4096 times the number
    /// on.
    Erase(u32),
    /// The program of these bytes into the page of this number, which has the 256 bytes from 256
    /// times the number on.
    Program(u32, [u8; 256]),
    /// The raise of the OTP row of this number, below 4096, by these bits, below 2^24.
    Raise(u16, u32),
}

/// Does a step.
pub fn do_step<B: Board>(board: &mut B, step: &Step) -> Result<(), PowerLost>
    requires power { IsTrue (B.state board.old).powered }
    requires range { IsStepIn (length (B.state board.old).content.flash) step.now }
    ensures { Does B.state B.history board.old step.now (is_ok result) board.new }
{
    match step {
        Step::Erase(sector) => board.erase(*sector),
        Step::Program(page, bytes) => board.program(*page, bytes),
        Step::Raise(row, bits) => board.raise(*row, *bits),
    }
}
