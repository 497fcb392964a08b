//! The flash as the processors see it, windows of it, and the units of flash and OTP.

ghost use Rattle.std.specs.Prelude.{◌≡◌};
ghost use Rattle.pico_board.specs.Windows.{is_same_window};

/// The address at which the first byte of the flash is seen (RP2350 Datasheet, section 2.2,
/// Address map).
pub const FLASH_BASE: u32 = 0x1000_0000;
/// The most bytes of a flash: 16 MiB, those of a chip select (RP2350 Datasheet, section 4.4).
pub const MOST_FLASH_BYTES: usize = 16_777_216;
/// The bytes of a sector, the unit of an erase.
pub const SECTOR: u32 = 4096;
/// The bytes of a page, the unit of a program.
pub const PAGE: u32 = 256;
/// What a byte of flash reads as after an erase.
pub const ERASED: u8 = 0xff;
/// The fewest bytes of a slot: one sector.
pub const SMALLEST_SLOT: u32 = SECTOR;
/// The rows of the OTP (RP2350 Datasheet, chapter 13, OTP).
pub const ROWS: u32 = 4096;

/// A range of the flash: `len` bytes from the byte `start` on, both in bytes. The processors see
/// offset x of a window at the address `0x10000000 + x` (RP2350 Datasheet, section 12.14, QMI
/// address translation; chapter 5, Bootrom).
#[derive(Clone, Copy, Default, Debug, PartialEq, Eq)]
pub struct Window {
    /// The first byte of the window, as an offset into the flash.
    pub start: u32,
    /// The number of bytes of the window.
    pub len: u32,
}

impl Window {
    /// Whether the two are one window: they begin and end at the same bytes.
    pub fn is_same(self, other: Window) -> bool
        ensures { result ≡ is_same_window self other }
    {
        self.start == other.start && self.len == other.len
    }
}
