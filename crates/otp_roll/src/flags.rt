//! The boot flags and the slot size in the OTP (RP2350 Datasheet, chapter 13, OTP, rows
//! BOOT_FLAGS0 and FLASH_PARTITION_SLOT_SIZE).

ghost use Rattle.std.specs.Prelude.{◌≡◌, IsTrue, length};
ghost use Rattle.otp_roll.specs.Flags.{flash_off, rollback_required, slot_size};

use pico_board::{Board, SMALLEST_SLOT};

/// The row of the boot flags.
pub const BOOT_FLAGS: u16 = 0x048;
/// The row of the slot size.
pub const SLOT_SIZE_ROW: u16 = 0x055;

/// Whether rollback versions are required: bit 0 of the boot flags.
pub fn required<B: Board>(board: &B) -> bool
    requires power { IsTrue (B.state board.now).powered }
    ensures { result ≡ rollback_required (B.state board.now).content.otp }
{
    board.otp_read(BOOT_FLAGS) & 1 == 1
}

/// Whether flash boot is off: bit 1 of the boot flags.
pub fn flash_off<B: Board>(board: &B) -> bool
    requires power { IsTrue (B.state board.now).powered }
    ensures { result ≡ flash_off (B.state board.now).content.otp }
{
    board.otp_read(BOOT_FLAGS) >> 1 & 1 == 1
}

/// The size of a slot of a flash without a partition table, by bits 0 to 3 of its row.
pub fn slot_size<B: Board>(board: &B) -> u32
    requires power { IsTrue (B.state board.now).powered }
    ensures { result ≡ slot_size (B.state board.now).content.otp
        (length (B.state board.now).content.flash) }
{
    let exponent = board.otp_read(SLOT_SIZE_ROW) & 0xf;
    if exponent > 11 {
        return SMALLEST_SLOT;
    }
    let size = SMALLEST_SLOT << exponent;
    if 2 * size <= board.flash_len() {
        size
    } else {
        SMALLEST_SLOT
    }
}
