//! Whether a sealed image starts.

ghost use Rattle.std.specs.Prelude.{◌≡◌, ◌≤◌, IfOk, IsTrue, OnOk, length, true};
ghost use Rattle.pico_board.specs.declared.window.TheConstants.{MOST_FLASH_BYTES};
ghost use Rattle.pico_board.specs.Content.{IsFlashLength};
ghost use Rattle.pico_board.specs.MemBoard.{state_of};
ghost use Rattle.image_check.specs.Addressing.{in_flash};
ghost use Rattle.image_check.specs.Image.{image_in};
ghost use Rattle.image_pack.specs.Faults.{whole_window, zero_otp};
ghost use Rattle.image_pack.specs.Filling.{whole_sectors};

use crate::filling::fill_sectors;
use image_check::{Addressing, Why, check_view};
use image_def::Started;
use pico_board::{BoardError, Cpu, MemBoard, ROWS, SECTOR, SliceView, Window};
use sector_pool::SectorPool;
use std::alloc::{AllocError, Global};

/// The rows of an OTP of zeros.
#[tactic(auto, unfolding(crate::specs::Faults::zero_otp))]
fn zero_rows(alloc: Global) -> Result<Vec<u32>, AllocError>
    ensures { IfOk result (λ rows. rows.items ≡ zero_otp) }
{
    vec![in alloc; 0u32; ROWS as usize]
}

/// So many bytes of erased flash.
fn blank(alloc: Global, count: usize) -> Result<Vec<u8>, AllocError>
    ensures { IfOk result (λ bytes. length bytes.items ≡ count) }
{
    vec![in alloc; 0xffu8; count]
}

/// The one error that a board of right contents can have.
fn want_of_memory(error: BoardError) -> AllocError
    requires { error ≡ BoardError.Memory }
{
    match error {
        BoardError::Memory => AllocError,
        _ => unreachable!(),
    }
}

/// A board of this flash and of an OTP of zeros.
fn board_of(alloc: Global, flash: Vec<u8>, rows: Vec<u32>) -> Result<MemBoard, AllocError>
    requires flash { IsFlashLength (length flash.items) }
    requires rows { rows.items ≡ zero_otp }
    ensures otp { IfOk result (λ board. (state_of board).content.otp ≡ zero_otp) }
    ensures power { IfOk result (λ board. IsTrue (state_of board).powered) }
{
    match MemBoard::new(alloc, flash, rows) {
        Ok(board) => Ok(board),
        Err(error) => Err(want_of_memory(error)),
    }
}

/// A board with an OTP of zeros; its flash does not matter.
fn zero_board(alloc: Global) -> Result<MemBoard, AllocError>
    ensures otp { IfOk result (λ board. (state_of board).content.otp ≡ zero_otp) }
    ensures power { IfOk result (λ board. IsTrue (state_of board).powered) }
{
    let flash = blank(alloc, 2 * SECTOR as usize)?;
    let rows = zero_rows(alloc)?;
    board_of(alloc, flash, rows)
}

/// The image of a view alone in a window, with an OTP of zeros and trial images allowed.
fn image_of(alloc: Global, sectors: &[u8], cpu: Cpu) -> Result<Result<Started, Why>, AllocError>
    requires { length sectors.now ≤ MOST_FLASH_BYTES }
    ensures { IfOk result (λ image. image ≡ image_in in_flash
        (record { start = 0; len = length sectors.now }) cpu true zero_otp sectors.now) }
{
    let board = zero_board(alloc)?;
    let mut pool = SectorPool::make(alloc, 1)?;
    let window = Window {
        start: 0,
        len: sectors.len() as u32,
    };
    let view = SliceView { bytes: sectors };
    Ok(check_view(
        &board,
        &mut pool,
        &view,
        window,
        Addressing::FLASH,
        cpu,
        true,
    ))
}

/// The image of these bytes, or the first rule that they fail. They are filled with 0xff to whole
/// sectors, and stand alone in a window, with an OTP of zeros and trial images allowed. The bytes
/// are filled in place, and are as they were afterwards. Where there is no memory they may stay
/// filled.
pub(crate) fn booted(
    alloc: Global,
    image: &mut Vec<u8>,
    cpu: Cpu,
) -> Result<Result<Started, Why>, AllocError>
    requires { length image.old.items ≤ MOST_FLASH_BYTES }
    ensures value { IfOk result (λ r. r ≡ image_in in_flash (whole_window image.old.items) cpu true
        zero_otp (whole_sectors image.old.items)) }
    ensures kept { OnOk result (image.new.items ≡ image.old.items) }
{
    let size = image.len();
    fill_sectors(image)?;
    let answer = image_of(alloc, image.as_slice(), cpu)?;
    image.truncate(size);
    Ok(answer)
}
