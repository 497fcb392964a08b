//! The board that a flash file and an OTP file give.

ghost use Rattle.std.specs.Prelude.{◌≡◌, ◌+◌, ◌-◌, ◌*◌, ◌/◌, ◌<◌, ◌≤◌, ◌^◌, ◌++◌, [], All, Option, replicate, length, slice_index, string_bytes, option_map, IfErr, IfOk, OnOk, None};
ghost use Rattle.std.specs.Option.{option_or};
ghost use Rattle.pico_board.specs.declared.window.TheConstants.{MOST_FLASH_BYTES};
ghost use Rattle.pico_board.specs.Content.{IsFlashLength};
ghost use Rattle.pico_board.specs.MemBoard.{state_of, new_state};
ghost use Rattle.cli_course.specs.Outcomes.{AnswerView};
ghost use Rattle.cli_inputs.specs.Forms.{form_fault, otp_fault, wide_from, rows_of, filled_flash, filled_length, otp_of};
ghost use Rattle.cli_inputs.specs.Inputs.{IsJudged, named_fault, Tells};

use crate::fail::{InputFail, judge_length, refuse};
use crate::forms::Form;
use crate::values::{OtpRows, WholeFlash};
use byteorder::{ByteOrder, LittleEndian};
use pico_board::{BoardError, MOST_FLASH_BYTES, MemBoard};
use std::alloc::{AllocError, Global};

/// The length of the flash that a file of this many bytes gives.
fn whole_sectors(length: usize) -> usize
    requires { length ≤ MOST_FLASH_BYTES }
    ensures value { result ≡ filled_length length }
    ensures room { length ≤ result }
    ensures flash { IsFlashLength result }
{
    (4096 * length.div_ceil(4096)).max(8192)
}

/// A flash of these bytes, filled with 0xff to whole sectors, and at least two. It fails only where
/// memory is out.
#[tactic(auto, unfolding(crate::specs::Forms::filled_flash))]
fn filled(bytes: Vec<u8>) -> Result<WholeFlash, AllocError>
    requires { length bytes.items ≤ MOST_FLASH_BYTES }
    ensures { IfOk result (λ flash. flash.bytes.items ≡ filled_flash bytes.items) }
{
    let length = whole_sectors(bytes.len());
    let mut bytes = bytes;
    bytes.resize(length, 0xff)?;
    Ok(WholeFlash { bytes })
}

/// The flash of a file.
fn read_flash(alloc: Global, name: &str, file: Vec<u8>) -> Result<WholeFlash, InputFail>
    ensures value { IfOk result (λ flash. flash.bytes.items ≡ filled_flash file.items) }
    ensures judged { IsJudged result (record { name = name.now; form = Form.Flash }) file.items }
{
    judge_length(alloc, Form::Flash, name, &file)?;
    if file.is_empty() {
        return Err(refuse(alloc, name, "empty"));
    }
    Ok(filled(file)?)
}

/// The row at a place of an OTP file.
#[tactic(auto, unfolding(block_codec::specs::Words::word_of))]
fn row_at(file: &[u8], place: usize) -> u32
    requires { 4 * place + 4 ≤ length file.now }
    ensures { result ≡ slice_index (rows_of file.now) place }
{
    LittleEndian::read_u32(&file[4 * place..])
}

/// The lowest row of an OTP file that has more than 24 bits.
fn wide_row(file: &[u8]) -> Option<usize>
    ensures { result ≡ wide_from 0 (rows_of file.now) }
{
    for place in 0..file.len() / 4 {
        if row_at(file, place) >= 1 << 24 {
            return Some(place);
        }
    }
    None
}

/// The rows of an OTP file, as many as it has.
fn file_rows(alloc: Global, file: &[u8]) -> Result<Vec<u32>, AllocError>
    ensures rows { IfOk result (λ rows. rows.items ≡ rows_of file.now) }
    ensures count { IfOk result (λ rows. length rows.items ≡ length file.now / 4) }
{
    let mut rows = Vec::new(alloc);
    for place in 0..file.len() / 4 {
        rows.push(row_at(file, place))?;
    }
    Ok(rows)
}

/// Fills rows with 0 to so many.
fn pad(rows: &mut Vec<u32>, count: usize) -> Result<(), AllocError>
    requires { length rows.old.items ≤ count }
    ensures rows { OnOk result
        (rows.new.items ≡ rows.old.items ++ replicate (count - length rows.old.items) 0) }
    ensures count { OnOk result (length rows.new.items ≡ count) }
{
    rows.resize(count, 0)
}

/// The 4096 rows that narrow rows of a file give, with 0 for those that it does not have. It fails
/// only where memory is out.
fn padded(rows: Vec<u32>) -> Result<OtpRows, AllocError>
    requires few { length rows.items ≤ 4096 }
    requires narrow { All (λ row. row < 2 ^ 24) rows.items }
    ensures { IfOk result (λ otp. otp.rows.items
        ≡ rows.items ++ replicate (4096 - length rows.items) 0) }
{
    let mut rows = rows;
    pad(&mut rows, 4096)?;
    Ok(OtpRows { rows })
}

/// The fault of an OTP file that is not too long.
fn otp_fault(alloc: Global, file: &[u8]) -> Result<Option<String>, AllocError>
    ensures { IfOk result (λ fault. option_map string_bytes fault ≡ otp_fault file.now) }
{
    if file.len() % 4 != 0 {
        return Ok(Some(String::from_str(alloc, "otp-length")?));
    }
    match wide_row(file) {
        Some(row) => Ok(Some(format!(in alloc; "otp-row 0x{row:03x}")?)),
        None => Ok(None),
    }
}

/// The rows of an OTP file.
#[tactic(auto, unfolding(crate::specs::Forms::otp_of))]
fn read_rows(alloc: Global, name: &str, file: &[u8]) -> Result<OtpRows, InputFail>
    ensures value { IfOk result (λ otp. otp.rows.items ≡ otp_of file.now) }
    ensures judged { IsJudged result (record { name = name.now; form = Form.Otp }) file.now }
{
    judge_length(alloc, Form::Otp, name, file)?;
    let found = otp_fault(alloc, file)?;
    match found {
        Some(fault) => Err(refuse(alloc, name, &fault)),
        None => {
            let rows = file_rows(alloc, file)?;
            Ok(padded(rows)?)
        }
    }
}

/// The one error that a board of a whole flash and of OTP rows can have.
fn want_of_memory(error: BoardError) -> AllocError
    requires { error ≡ BoardError.Memory }
{
    match error {
        BoardError::Memory => AllocError,
        _ => unreachable!(),
    }
}

/// The board in memory of a flash and of OTP rows. It fails only where memory is out.
fn board_of(alloc: Global, flash: WholeFlash, otp: OtpRows) -> Result<MemBoard, AllocError>
    ensures { IfOk result
        (λ board. state_of board ≡ new_state flash.bytes.items otp.rows.items) }
{
    match MemBoard::new(alloc, flash.bytes, otp.rows) {
        Ok(board) => Ok(board),
        Err(error) => Err(want_of_memory(error)),
    }
}

/// The board in memory of a flash that is not too long, filled to whole sectors, with an OTP of
/// zeros. It fails only where memory is out.
pub fn lone_board(alloc: Global, flash: Vec<u8>) -> Result<MemBoard, AllocError>
    requires { length flash.items ≤ MOST_FLASH_BYTES }
    ensures { IfOk result
        (λ board. state_of board ≡ new_state (filled_flash flash.items) (otp_of [])) }
{
    let flash = filled(flash)?;
    let rows = padded(Vec::new(alloc))?;
    board_of(alloc, flash, rows)
}

/// The board in memory of a flash file and an OTP file, or the first fault of these in their order.
pub fn read_board(
    alloc: Global,
    flash_name: &str,
    flash: Vec<u8>,
    otp_name: &str,
    otp: &[u8],
) -> Result<MemBoard, InputFail>
    ensures board { IfOk result
        (λ board. state_of board ≡ new_state (filled_flash flash.items) (otp_of otp.now)) }
    ensures flash { OnOk result (form_fault Form.Flash flash.items ≡ None) }
    ensures otp { OnOk result (form_fault Form.Otp otp.now ≡ None) }
    ensures refused { IfErr result (λ fail. (behind : Option AnswerView) → Tells fail
        (option_or (named_fault (record { name = flash_name.now; form = Form.Flash }) flash.items)
        (option_or (named_fault (record { name = otp_name.now; form = Form.Otp }) otp.now)
        behind))) }
{
    let flash = read_flash(alloc, flash_name, flash)?;
    let rows = read_rows(alloc, otp_name, otp)?;
    Ok(board_of(alloc, flash, rows)?)
}
