//! The checks of a command, by its id.

ghost use Rattle.std.specs.Prelude.{◌≡◌, ◌+◌, ◌-◌, ◌*◌, ◌/◌, ◌≤◌, ◌<◌, ◌^◌, IsTrue, Some, length, nat_le};
ghost use Rattle.std.specs.Option.{option_map};
ghost use Rattle.block_codec.specs.Words.{words_of};
ghost use Rattle.picoboot_cmd.specs.Arguments.{address, first_row, offset, row_count, size};
ghost use Rattle.picoboot_cmd.specs.ByCommand.{erase_checks, exclusive_checks, lengths, otp_read_checks, otp_write_checks, read_checks, reboot_checks, write_checks, xip_checks};
ghost use Rattle.picoboot_cmd.specs.Checks.{are_reboot_flags, first_failing, is_range_in_flash, status_of};
ghost use Rattle.picoboot_cmd.specs.Rows.{are_row_words, keeps_raised};
ghost use Rattle.part_table.specs.Sound.{IsSoundFor};
ghost use Rattle.picoboot_cmd.specs.Sectors.{TellsRights, all_allowed, range_allowed};

use crate::cmd::Cmd;
use crate::kinds::{
    ADDRESS, ALIGNMENT, COMMAND_LENGTH, ENTER_XIP, ERASE, EXCLUSIVE, EXIT_XIP, INVALID_ARGUMENT,
    INVALID_STATE, NOT_PERMITTED, OK, OTP_READ, OTP_WRITE, READ, REBOOT, TRANSFER_LENGTH,
    UNKNOWN_COMMAND, UNSUPPORTED_MODIFICATION, WRITE,
};
use crate::words::word_at;
use part_table::{Right, Table};
use pico_board::{Board, FLASH_BASE, PAGE, ROWS, SECTOR};

/// The first number that an OTP row does not hold.
const ROW_END: u32 = 1 << 24;

/// The last byte of an exclusive command that is taken.
const LAST_EXCLUSIVE: u8 = 2;

/// Whether the sectors from `first` to before `end` all have the right by the table.
fn all_have(table: &Table, right: Right, first: u32, end: u32) -> bool
    requires rights { TellsRights (Some table.now) }
    ensures { result ≡ all_allowed (Some table.now) right first (end - first) }
{
    for sector in first..end {
        if !table.allowed(sector, right) {
            return false;
        }
    }
    true
}

/// Whether these sectors all have the right by the table, or there is no table.
fn all_allowed(table: Option<&Table>, right: Right, first: u32, end: u32) -> bool
    requires rights { TellsRights (option_map (λ t. t.now) table) }
    ensures { result ≡ all_allowed (option_map (λ t. t.now) table.entry) right first (end - first) }
{
    match table {
        Some(table) => all_have(table, right, first, end),
        None => true,
    }
}

/// Whether each sector that a range of the flash touches has the right.
fn range_allowed(table: Option<&Table>, right: Right, at: u32, size: u32) -> bool
    requires rights { TellsRights (option_map (λ t. t.now) table) }
    requires small { at + size < 2 ^ 32 }
    ensures { result ≡ range_allowed (option_map (λ t. t.now) table.entry) right at size }
{
    if size == 0 {
        return true;
    }
    all_allowed(table, right, at / SECTOR, (at + size - 1) / SECTOR + 1)
}

/// Whether the addresses of an erase, a read or a write lie in the flash.
fn is_range_in_flash(cmd: &Cmd, flash_len: u32) -> bool
    ensures value { result ≡ is_range_in_flash cmd.now flash_len }
    ensures near { IsTrue result → offset cmd.now + size cmd.now ≤ flash_len }
{
    let end = u64::from(cmd.address()) + u64::from(cmd.size());
    FLASH_BASE <= cmd.address() && end <= u64::from(FLASH_BASE) + u64::from(flash_len)
}

/// Whether the flags of a reboot are of a normal boot, of one to BOOTSEL or of a flash update.
fn are_reboot_flags(flags: u32) -> bool
    ensures { result ≡ are_reboot_flags flags }
{
    matches!(flags / 16, 0 | 16) && matches!(flags % 16, 0 | 2 | 4)
}

/// Whether each word has the bits of an OTP row alone.
fn are_row_words(payload: &[u8]) -> bool
    ensures { result ≡ are_row_words (words_of payload.now) }
{
    for k in 0..payload.len() / 4 {
        if word_at(payload, k) >= ROW_END {
            return false;
        }
    }
    true
}

/// Whether each word has all the bits that are raised in its row.
fn keeps_raised<B: Board>(board: &B, row: u16, payload: &[u8]) -> bool
    requires power { IsTrue (B.state board.now).powered }
    requires range { row + length payload.now / 4 ≤ 4096 }
    ensures { result ≡ keeps_raised (B.state board.now).content.otp row (words_of payload.now) }
{
    for k in 0..payload.len() / 4 {
        let raised = board.otp_read(row + k as u16);
        if raised & word_at(payload, k) != raised {
            return false;
        }
    }
    true
}

/// The status of exclusive access.
fn exclusive_status(cmd: &Cmd, payload: &[u8]) -> u32
    ensures { result ≡ first_failing (exclusive_checks cmd.now payload.now) }
{
    if cmd.arg_size != 1 {
        return COMMAND_LENGTH;
    }
    if cmd.transfer != 0 || !payload.is_empty() {
        return TRANSFER_LENGTH;
    }
    if cmd.args[0] > LAST_EXCLUSIVE {
        return INVALID_ARGUMENT;
    }
    OK
}

/// The status of an erase.
fn erase_status(flash_len: u32, table: Option<&Table>, busy: bool, cmd: &Cmd, payload: &[u8]) -> u32
    requires rights { TellsRights (option_map (λ t. t.now) table) }
    ensures { result ≡ first_failing (erase_checks flash_len
        (option_map (λ t. t.now) table.entry) busy cmd.now payload.now) }
{
    if busy {
        return INVALID_STATE;
    }
    if cmd.arg_size != 8 {
        return COMMAND_LENGTH;
    }
    if cmd.transfer != 0 || !payload.is_empty() {
        return TRANSFER_LENGTH;
    }
    if cmd.address() % SECTOR != 0 || cmd.size() % SECTOR != 0 {
        return ALIGNMENT;
    }
    if !is_range_in_flash(cmd, flash_len) {
        return ADDRESS;
    }
    if !range_allowed(table, Right::BootWrite, cmd.offset(), cmd.size()) {
        return NOT_PERMITTED;
    }
    OK
}

/// The status of a read.
fn read_status(flash_len: u32, table: Option<&Table>, cmd: &Cmd, payload: &[u8]) -> u32
    requires rights { TellsRights (option_map (λ t. t.now) table) }
    ensures { result ≡ first_failing (read_checks flash_len
        (option_map (λ t. t.now) table.entry) cmd.now payload.now) }
{
    if cmd.arg_size != 8 {
        return COMMAND_LENGTH;
    }
    if cmd.transfer != cmd.size() || !payload.is_empty() {
        return TRANSFER_LENGTH;
    }
    if !is_range_in_flash(cmd, flash_len) {
        return ADDRESS;
    }
    if !range_allowed(table, Right::BootRead, cmd.offset(), cmd.size()) {
        return NOT_PERMITTED;
    }
    OK
}

/// The status of a write.
fn write_status(flash_len: u32, table: Option<&Table>, busy: bool, cmd: &Cmd, payload: &[u8]) -> u32
    requires rights { TellsRights (option_map (λ t. t.now) table) }
    ensures { result ≡ first_failing (write_checks flash_len
        (option_map (λ t. t.now) table.entry) busy cmd.now payload.now) }
{
    if busy {
        return INVALID_STATE;
    }
    if cmd.arg_size != 8 {
        return COMMAND_LENGTH;
    }
    if cmd.transfer != cmd.size() || payload.len() as u64 != u64::from(cmd.transfer) {
        return TRANSFER_LENGTH;
    }
    if cmd.address() % PAGE != 0 {
        return ALIGNMENT;
    }
    if !is_range_in_flash(cmd, flash_len) {
        return ADDRESS;
    }
    if !range_allowed(table, Right::BootWrite, cmd.offset(), cmd.size()) {
        return NOT_PERMITTED;
    }
    OK
}

/// The status of the exit from XIP, or of the entry to it.
fn xip_status(cmd: &Cmd, payload: &[u8]) -> u32
    ensures { result ≡ first_failing (xip_checks cmd.now payload.now) }
{
    if cmd.arg_size != 0 {
        return COMMAND_LENGTH;
    }
    if cmd.transfer != 0 || !payload.is_empty() {
        return TRANSFER_LENGTH;
    }
    OK
}

/// The status of a reboot.
fn reboot_status(cmd: &Cmd, payload: &[u8]) -> u32
    ensures { result ≡ first_failing (reboot_checks cmd.now payload.now) }
{
    if cmd.arg_size != 16 {
        return COMMAND_LENGTH;
    }
    if cmd.transfer != 0 || !payload.is_empty() {
        return TRANSFER_LENGTH;
    }
    if !are_reboot_flags(cmd.reboot_flags()) {
        return INVALID_ARGUMENT;
    }
    OK
}

/// Whether a range of rows lies in the OTP.
fn is_in_otp(cmd: &Cmd) -> bool
    ensures { result ≡ nat_le (first_row cmd.now + row_count cmd.now) 4096 }
{
    u32::from(cmd.first_row()) + u32::from(cmd.row_count()) <= ROWS
}

/// The status of a read of OTP rows.
fn otp_read_status(cmd: &Cmd, payload: &[u8]) -> u32
    ensures { result ≡ first_failing (otp_read_checks cmd.now payload.now) }
{
    if cmd.arg_size != 5 {
        return COMMAND_LENGTH;
    }
    if cmd.transfer != 4 * u32::from(cmd.row_count()) || !payload.is_empty() {
        return TRANSFER_LENGTH;
    }
    if !is_in_otp(cmd) {
        return ADDRESS;
    }
    if cmd.ecc() != 0 {
        return INVALID_ARGUMENT;
    }
    OK
}

/// The status of a write of OTP rows.
fn otp_write_status<B: Board>(board: &B, busy: bool, cmd: &Cmd, payload: &[u8]) -> u32
    requires power { IsTrue (B.state board.now).powered }
    ensures { result ≡ first_failing
        (otp_write_checks (B.state board.now).content.otp busy cmd.now payload.now) }
{
    if busy {
        return INVALID_STATE;
    }
    if cmd.arg_size != 5 {
        return COMMAND_LENGTH;
    }
    if cmd.transfer != 4 * u32::from(cmd.row_count())
        || payload.len() as u64 != u64::from(cmd.transfer)
    {
        return TRANSFER_LENGTH;
    }
    if !is_in_otp(cmd) {
        return ADDRESS;
    }
    if cmd.ecc() != 0 || !are_row_words(payload) {
        return INVALID_ARGUMENT;
    }
    if !keeps_raised(board, cmd.first_row(), payload) {
        return UNSUPPORTED_MODIFICATION;
    }
    OK
}

/// The number of the first check that fails, and 0 where none does.
pub(crate) fn status_of<B: Board>(
    board: &B,
    table: Option<&Table>,
    busy: bool,
    cmd: &Cmd,
    payload: &[u8],
) -> u32
    requires power { IsTrue (B.state board.now).powered }
    requires rights { TellsRights (option_map (λ t. t.now) table) }
    ensures { result ≡ status_of (length (B.state board.now).content.flash)
        (B.state board.now).content.otp (option_map (λ t. t.now) table.entry) busy cmd.now
        payload.now }
{
    match cmd.id {
        EXCLUSIVE => exclusive_status(cmd, payload),
        ERASE => erase_status(board.flash_len(), table, busy, cmd, payload),
        READ => read_status(board.flash_len(), table, cmd, payload),
        WRITE => write_status(board.flash_len(), table, busy, cmd, payload),
        EXIT_XIP => xip_status(cmd, payload),
        ENTER_XIP => xip_status(cmd, payload),
        REBOOT => reboot_status(cmd, payload),
        OTP_READ => otp_read_status(cmd, payload),
        OTP_WRITE => otp_write_status(board, busy, cmd, payload),
        _ => UNKNOWN_COMMAND,
    }
}
