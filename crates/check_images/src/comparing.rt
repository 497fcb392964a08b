//! Whether two boards have the same flash, the same rows of the OTP, and the same table.

ghost use Rattle.std.specs.Prelude.{◌≡◌, ◌≢◌, ◌+◌, ◌≤◌, ◌↔◌, IsTrue, length, option_map, slice_range, true};
ghost use Rattle.pico_board.specs.MemBoard.{state_of};
ghost use Rattle.boot_rules.specs.Tables.{table_in};
ghost use Rattle.check_images.specs.Comparing.{is_same_found};

use boot_rules::{Found, find_table};
use pico_board::{Board, MemBoard, SECTOR};

/// The rows of an OTP.
const ROWS: u16 = pico_board::ROWS as u16;

/// Whether two boards have the same bytes in the sector from this offset on.
fn is_same_sector(one: &MemBoard, two: &MemBoard, at: u32) -> bool
    requires one { IsTrue (state_of one.now).powered }
    requires two { IsTrue (state_of two.now).powered }
    requires inside { at + 4096 ≤ length (state_of one.now).content.flash }
    requires also { at + 4096 ≤ length (state_of two.now).content.flash }
    ensures { (result ≡ true)
        ↔ (slice_range (state_of two.now).content.flash at (at + 4096)
        ≡ slice_range (state_of one.now).content.flash at (at + 4096)) }
{
    let mut first = [0u8; SECTOR as usize];
    let mut second = [0u8; SECTOR as usize];
    one.read(at, &mut first);
    two.read(at, &mut second);
    second == first
}

/// Whether a byte of the flash differs between two boards, or their flashes have not one length.
pub fn has_other_flash(start: &MemBoard, end: &MemBoard) -> bool
    requires start { IsTrue (state_of start.now).powered }
    requires end { IsTrue (state_of end.now).powered }
    ensures { (result ≡ true)
        ↔ ((state_of end.now).content.flash ≢ (state_of start.now).content.flash) }
{
    if start.flash_len() != end.flash_len() {
        return true;
    }
    for sector in 0..start.flash_len() / SECTOR {
        if !is_same_sector(start, end, SECTOR * sector) {
            return true;
        }
    }
    false
}

/// Whether a row of the OTP differs between two boards.
pub fn has_other_rows(start: &MemBoard, end: &MemBoard) -> bool
    requires start { IsTrue (state_of start.now).powered }
    requires end { IsTrue (state_of end.now).powered }
    ensures { (result ≡ true)
        ↔ ((state_of end.now).content.otp ≢ (state_of start.now).content.otp) }
{
    for row in 0..ROWS {
        if start.otp_read(row) != end.otp_read(row) {
            return true;
        }
    }
    false
}

/// Whether it is one table in one slot, or none in both.
pub fn is_same_found(one: Option<&Found>, two: Option<&Found>) -> bool
    ensures { result ≡ is_same_found (option_map (λ found. found.now) one.entry)
        (option_map (λ found. found.now) two.entry) }
{
    one == two
}

/// Whether the table differs between two boards, with its slot: another table, the same one in the
/// other slot, or one beside none.
pub fn has_other_table(start: &MemBoard, end: &MemBoard) -> bool
    requires start { IsTrue (state_of start.now).powered }
    requires end { IsTrue (state_of end.now).powered }
    ensures { (result ≡ true)
        ↔ (table_in (state_of end.now).content ≢ table_in (state_of start.now).content) }
{
    let first = find_table(start);
    let last = find_table(end);
    !is_same_found(first.as_ref(), last.as_ref())
}
