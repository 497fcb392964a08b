//! How the addresses of an image are read.

use pico_board::FLASH_BASE;

/// How an image's window is seen: the address of its first byte, and whether the image must use
/// each load map entry where it is stored.
#[derive(Clone, Copy, Debug, PartialEq, Eq)]
pub struct Addressing {
    /// The address of the window's first byte: 0x10000000 in flash.
    pub base: u32,
    /// Whether each load map entry must be used where it is stored, as in images in RAM.
    pub in_place: bool,
}

impl Addressing {
    /// In flash: the window is seen from its address on, and entries may be loaded into SRAM.
    pub const FLASH: Addressing = Addressing {
        base: FLASH_BASE,
        in_place: false,
    };
}
