//! A board that counts the bytes that are read of its flash.

ghost use Rattle.std.specs.Prelude.{◌≡◌};

use pico_board::{Bench, Board, PowerLost};
use std::cell::Cell;
use std::marker::Model;

/// A board with the number of bytes that were read of it. Contracts see the board alone.
#[derive(Drop)]
pub struct Counted<B: Board> {
    board: B,
    bytes: Cell<u64>,
}

impl<B: Board> Model for Counted<B> {
    ghost Value = { B };

    ghost view = { λ counted. counted.board };
}

impl<B: Board> Counted<B> {
    /// The board, of which no byte was read.
    pub fn new(board: B) -> Counted<B>
        ensures { result ≡ board }
    {
        Counted {
            board,
            bytes: Cell::new(0),
        }
    }

    /// How many bytes were read.
    pub(crate) fn bytes(&self) -> u64 {
        self.bytes.get()
    }
}

impl<B: Board> Board for Counted<B> {
    ghost state = { B.state };

    ghost history = { B.history };

    fn flash_len(&self) -> u32 {
        self.board.flash_len()
    }

    fn powered(&self) -> bool {
        self.board.powered()
    }

    fn read(&self, at: u32, into: &mut [u8]) {
        let bytes = self.bytes.get().saturating_add(into.len() as u64);
        self.bytes.set(bytes);
        self.board.read(at, into);
    }

    fn otp_read(&self, row: u16) -> u32 {
        self.board.otp_read(row)
    }

    fn erase(&mut self, sector: u32) -> Result<(), PowerLost> {
        self.board.erase(sector)
    }

    fn program(&mut self, page: u32, bytes: &[u8; 256]) -> Result<(), PowerLost> {
        self.board.program(page, bytes)
    }

    fn raise(&mut self, row: u16, bits: u32) -> Result<(), PowerLost> {
        self.board.raise(row, bits)
    }

    ghost is_content = { λ counted. B.is_content counted };
}

impl<B: Bench> Bench for Counted<B> {
    fn arm_cut(&mut self, after: u32, within: bool, pattern: &[u8]) {
        self.board.arm_cut(after, within, pattern);
    }

    fn power_on(&mut self) {
        self.board.power_on();
    }
}
