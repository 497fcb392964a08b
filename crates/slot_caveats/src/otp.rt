//! What the OTP says that the model does not read.

ghost use Rattle.std.specs.Prelude.{◌≡◌, ◌+◌, ◌<◌, ◌≤◌, ◌^◌, ◌++◌, IsTrue, OnOk, count_by, length};
ghost use Rattle.part_table.specs.Fields.{has_bit};
ghost use Rattle.slot_caveats.specs.OtpCaveats.{asked_size, copies_from, critical_caveats, has_lowest_bit, has_row_bit, otp_caveats, raw_bits, raw_critical, raw_flags, raw_size_bits, raw_slot_size, secure_boot, secure_rows, short_slots, voted_bit, voted_bits};

use crate::caveat::{Caveat, add};
use otp_roll::{BOOT_FLAGS, SLOT_SIZE_ROW};
use pico_board::{Board, SMALLEST_SLOT};
use std::alloc::AllocError;

/// The first of the rows of CRIT0, critical flags that stand in eight copies.
pub const FIRST_CRITICAL_ROW: u16 = 0x038;
/// The first of the rows that ask for secure boot.
pub const FIRST_SECURE_ROW: u16 = 0x040;
/// How many rows ask for secure boot.
pub const SECURE_ROWS: u16 = 8;

/// How many of the rows that ask for secure boot do so.
fn secure_count<B: Board>(board: &B) -> u32
    requires power { IsTrue (B.state board.now).powered }
    ensures { result ≡ count_by (has_lowest_bit (B.state board.now).content.otp) secure_rows }
{
    let mut count = 0;
    for place in 0..SECURE_ROWS {
        if board.otp_read(FIRST_SECURE_ROW + place) % 2 == 1 {
            count += 1;
        }
    }
    count
}

/// At least three of the rows ask for secure boot.
fn secure_boot<B: Board>(board: &B) -> Option<Caveat>
    requires power { IsTrue (B.state board.now).powered }
    ensures { result ≡ secure_boot (B.state board.now).content.otp }
{
    if secure_count(board) >= 3 {
        Some(Caveat::SecureBoot)
    } else {
        None
    }
}

/// The bits of a row of the boot flags that are not read.
fn raw_bits<B: Board>(board: &B, row: u16) -> u32
    requires power { IsTrue (B.state board.now).powered }
    requires range { row < 4096 }
    ensures { result ≡ raw_bits (B.state board.now).content.otp row }
{
    let value = board.otp_read(row);
    if row == BOOT_FLAGS {
        4 * (value / 4)
    } else {
        value
    }
}

/// A row of the boot flags has bits that are not read.
fn raw_flags<B: Board>(board: &B, row: u16) -> Option<Caveat>
    requires power { IsTrue (B.state board.now).powered }
    requires range { row < 4096 }
    ensures { result ≡ raw_flags (B.state board.now).content.otp row }
{
    let bits = raw_bits(board, row);
    if bits == 0 {
        None
    } else {
        Some(Caveat::RawFlags(row, bits))
    }
}

/// The row of the slot size has bits that are not read.
fn raw_slot_size<B: Board>(board: &B) -> Option<Caveat>
    requires power { IsTrue (B.state board.now).powered }
    ensures { result ≡ raw_slot_size (B.state board.now).content.otp }
{
    let bits = 16 * (board.otp_read(SLOT_SIZE_ROW) / 16);
    if bits == 0 {
        None
    } else {
        Some(Caveat::RawSlotSize(bits))
    }
}

/// Adds what the OTP says that the model does not read.
pub fn add_otp<B: Board>(board: &B, list: &mut Vec<Caveat>) -> Result<(), AllocError>
    requires power { IsTrue (B.state board.now).powered }
    ensures { OnOk result
        (list.new.items ≡ list.old.items ++ otp_caveats (B.state board.now).content.otp) }
{
    add(list, secure_boot(board))?;
    add(list, raw_flags(board, BOOT_FLAGS))?;
    add(list, raw_flags(board, BOOT_FLAGS + 1))?;
    add(list, raw_flags(board, BOOT_FLAGS + 2))?;
    add(list, raw_slot_size(board))?;
    Ok(())
}

/// The slot size that a number stands for.
fn asked_size(number: u32) -> u32
    requires { number ≤ 11 }
    ensures value { result ≡ asked_size number }
    ensures most { result ≤ 0x80_0000 }
{
    SMALLEST_SLOT << number
}

/// Two slots of the size that the OTP asks for do not fit into the flash.
pub fn short_slots<B: Board>(board: &B) -> Option<Caveat>
    requires power { IsTrue (B.state board.now).powered }
    ensures { result ≡ short_slots (B.state board.now).content.otp
        (length (B.state board.now).content.flash) }
{
    let number = board.otp_read(SLOT_SIZE_ROW) % 16;
    if number > 11 {
        return None;
    }
    let size = asked_size(number);
    if 2 * size > board.flash_len() {
        Some(Caveat::ShortSlots(size))
    } else {
        None
    }
}

/// Whether a word has this bit, counted from the lowest as 0.
fn has_bit(word: u32, bit: u32) -> bool
    requires { bit < 32 }
    ensures { result ≡ has_bit word bit }
{
    (word >> bit) % 2 == 1
}

/// How many of the eight copies of a critical row, from this one on, have a bit.
fn copies_with<B: Board>(board: &B, row: u16, bit: u32) -> u32
    requires power { IsTrue (B.state board.now).powered }
    requires range { row + 8 ≤ 4096 }
    requires bit { bit < 24 }
    ensures { result
        ≡ count_by (has_row_bit (B.state board.now).content.otp bit) (copies_from row) }
{
    let mut count = 0;
    for copy in 0..SECURE_ROWS {
        if has_bit(board.otp_read(row + copy), bit) {
            count += 1;
        }
    }
    count
}

/// The number whose one set bit is this one.
fn bit_value(bit: u32) -> u32
    requires { bit < 24 }
    ensures { result ≡ 2 ^ bit }
{
    1 << bit
}

/// A bit where at least three of the copies of a row have it, or 0.
fn voted_bit<B: Board>(board: &B, row: u16, bit: u32) -> u32
    requires power { IsTrue (B.state board.now).powered }
    requires range { row + 8 ≤ 4096 }
    requires bit { bit < 24 }
    ensures value { result ≡ voted_bit (B.state board.now).content.otp row bit }
    ensures most { result ≤ 2 ^ bit }
{
    if copies_with(board, row, bit) >= 3 {
        bit_value(bit)
    } else {
        0
    }
}

/// Some bits below this one, and this one or none.
fn with_bit(bits: u32, more: u32, bit: u32) -> u32
    requires bit { bit < 24 }
    requires lower { bits < 2 ^ bit }
    requires this { more ≤ 2 ^ bit }
    ensures value { result ≡ bits + more }
    ensures most { result < 2 ^ (bit + 1) }
{
    bits + more
}

/// The bits, from bit `low` on, that at least three of the copies of a row have.
fn voted_bits<B: Board>(board: &B, row: u16, low: u32) -> u32
    requires power { IsTrue (B.state board.now).powered }
    requires range { row + 8 ≤ 4096 }
    requires low { low ≤ 24 }
    ensures { result ≡ voted_bits (B.state board.now).content.otp row low }
{
    let mut bits = 0;
    for bit in low..24 {
        bits = with_bit(bits, voted_bit(board, row, bit), bit);
    }
    bits
}

/// The copies of a critical row have bits that are not read, from bit `low` on.
fn raw_critical<B: Board>(board: &B, row: u16, low: u32) -> Option<Caveat>
    requires power { IsTrue (B.state board.now).powered }
    requires range { row + 8 ≤ 4096 }
    requires low { low ≤ 24 }
    ensures { result ≡ raw_critical (B.state board.now).content.otp row low }
{
    let bits = voted_bits(board, row, low);
    if bits == 0 {
        None
    } else {
        Some(Caveat::RawCritical(row, bits))
    }
}

/// Adds the critical flags that are not read. Bit 0 of the rows from 0x040 on is that of secure
/// boot, which has a caveat of its own.
pub fn add_critical<B: Board>(board: &B, list: &mut Vec<Caveat>) -> Result<(), AllocError>
    requires power { IsTrue (B.state board.now).powered }
    ensures { OnOk result
        (list.new.items ≡ list.old.items ++ critical_caveats (B.state board.now).content.otp) }
{
    add(list, raw_critical(board, FIRST_CRITICAL_ROW, 0))?;
    add(list, raw_critical(board, FIRST_SECURE_ROW, 1))
}
