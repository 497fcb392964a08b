//! What is known of an image that starts.

use arrayvec::ArrayVec;
use block_codec::Version;
use pico_board::Window;

/// A valid image in its window, as the boot starts it (RP2350 Datasheet, chapter 5, Bootrom).
#[derive(Clone, PartialEq, Eq, Debug, Drop)]
pub struct Started {
    /// The window that holds the image.
    pub window: Window,
    /// The offset in bytes of the definition's block in the window.
    pub block: u32,
    /// The offset in bytes of the definition's IMAGE_TYPE item in the window.
    pub image_at: u32,
    /// The address that runs first, with bit 0 as the image gives it.
    pub pc: u32,
    /// The stack pointer at the start.
    pub sp: u32,
    /// The stack limit at the start, 0 where the image names none.
    pub limit: u32,
    /// The image's version, 0.0 where it names none.
    pub version: Version,
    /// The rollback version, 0 to 768, where the image lists rows.
    pub rollback: Option<u16>,
    /// The first rows of the triples that count the rollback version, 0x0c0 to 0xefd each.
    pub rows: ArrayVec<u16, 32>,
    /// Whether the image is a trial, which is still to be bought.
    pub trial: bool,
}
