//! Copies of boards.

ghost use Rattle.std.specs.Prelude.{◌≡◌, IfOk, IsTrue};
ghost use Rattle.pico_board.specs.MemBoard.{state_of};
ghost use Rattle.boot_session.specs.Standing.{IsUnarmed};

use pico_board::{Board, MemBoard};
use std::alloc::{AllocError, Global};

/// The rows of an OTP.
const ROWS: u16 = pico_board::ROWS as u16;

/// The bytes of a board's flash.
fn flash_of(alloc: Global, board: &MemBoard) -> Result<Vec<u8>, AllocError>
    requires { IsTrue (state_of board.now).powered }
    ensures { IfOk result (λ flash. flash.items ≡ (state_of board.now).content.flash) }
{
    let mut flash = vec![in alloc; 0u8; board.flash_len() as usize]?;
    board.read(0, &mut flash);
    Ok(flash)
}

/// The rows of a board's OTP.
fn rows_of(alloc: Global, board: &MemBoard) -> Result<Vec<u32>, AllocError>
    requires { IsTrue (state_of board.now).powered }
    ensures { IfOk result (λ rows. rows.items ≡ (state_of board.now).content.otp) }
{
    let mut rows = Vec::new(alloc);
    for row in 0..ROWS {
        rows.push(board.otp_read(row))?;
    }
    Ok(rows)
}

/// A powered board with the same content, on which no cut is armed. It fails only where memory is
/// out.
pub fn copy_of(alloc: Global, board: &MemBoard) -> Result<MemBoard, AllocError>
    requires { IsTrue (state_of board.now).powered }
    ensures same { IfOk result
        (λ copy. (state_of copy).content ≡ (state_of board.now).content) }
    ensures ready { IfOk result (λ copy. IsUnarmed (state_of copy)) }
{
    let flash = flash_of(alloc, board)?;
    let rows = rows_of(alloc, board)?;
    match MemBoard::new(alloc, flash, rows) {
        Ok(copy) => Ok(copy),
        Err(_) => Err(AllocError),
    }
}
