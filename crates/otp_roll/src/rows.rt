//! The rollback rows of the OTP: triples, their majorities, and how many bits are raised in them.

ghost use Rattle.std.specs.Prelude.{◌≡◌, ◌+◌, ◌*◌, ◌^◌, ◌<◌, ◌≤◌, IsTrue, length};
ghost use Rattle.otp_roll.specs.Rows.{AreRollbackRows, count, majority};

use arrayvec::ArrayVec;
use pico_board::Board;

/// The lowest row that an image may list, the first of a triple.
pub const FIRST_ROW: u16 = 0x0c0;

/// The highest row that an image may list, the first of a triple.
pub const LAST_ROW: u16 = 0xefd;

/// The number of raised bits in the majorities of listed rows.
pub fn count<B: Board>(board: &B, rows: &ArrayVec<u16, 32>) -> u32
    requires power { IsTrue (B.state board.now).powered }
    requires rows { AreRollbackRows rows.now.items }
    ensures value { result ≡ count (B.state board.now).content.otp rows.now.items }
    ensures most { result ≤ 24 * length rows.now.items }
{
    let mut raised = 0;
    for row in rows.iter() {
        raised += majority(board, *row).count_ones();
    }
    raised
}

/// The bits that at least two of the three rows from `row` on have.
pub(crate) fn majority<B: Board>(board: &B, row: u16) -> u32
    requires power { IsTrue (B.state board.now).powered }
    requires range { row + 2 < 4096 }
    ensures value { result ≡ majority (B.state board.now).content.otp row }
    ensures bits { result < 2 ^ 24 }
{
    let first = board.otp_read(row);
    let second = board.otp_read(row + 1);
    let third = board.otp_read(row + 2);
    first & second | (first & third | second & third)
}
