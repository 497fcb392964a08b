//! What a sealed image is asked to be, and why none is made.

use arrayvec::ArrayVec;
use block_codec::Version;
use image_check::Why;
use pico_board::Cpu;
use thiserror::Error;

/// What a sealed image is asked to be. The new block's IMAGE_TYPE and VERSION items say it (RP2350
/// Datasheet, chapter 5, Bootrom, "Image definition items").
#[derive(Debug, Drop, PartialEq, Eq)]
pub struct SealSpec {
    /// The processor that the image is for.
    pub cpu: Cpu,
    /// The version of the image.
    pub version: Version,
    /// The rollback version. It is there exactly where rows are, and is at most 24 for each row.
    pub rollback: Option<u16>,
    /// The rollback rows, each from 0x0c0 to 0xefd. Any two of them differ by at least 3.
    pub rows: ArrayVec<u16, 32>,
    /// Whether the image is a trial, which has to be bought before it starts in a normal boot.
    pub trial: bool,
}

/// A part of a [`SealSpec`] that may be wrong.
#[derive(Clone, Copy, Debug, PartialEq, Eq)]
pub enum SpecField {
    /// The rollback version.
    Rollback,
    /// The rollback rows.
    Rows,
}

/// Why a binary is not sealed: the first that applies, in the order of the variants.
#[derive(Clone, Copy, Debug, PartialEq, Eq, Error)]
pub enum SealError {
    /// The rows break the rule for listed rows. Or the rows keep it, and only one of rollback
    /// version and rows is there, or the version passes its bound.
    #[error("the spec is wrong")]
    BadSpec(SpecField),
    /// The binary, filled with 0xff to whole sectors, fails this rule first. The rules are those
    /// of a valid image from the first block to the items, and the rule on the load map.
    #[error("the binary cannot be sealed: {0}")]
    Unsealable(Why),
    /// The sealed image would have more than 16,777,216 bytes.
    #[error("the sealed image is too large")]
    TooLarge,
    /// The new block would have this many bytes, more than 384.
    #[error("the new block has {0} bytes, more than 384")]
    BlockTooLong(u64),
    /// The sealed image, alone in a window, fails this rule first, with an OTP of zeros and trial
    /// images allowed.
    #[error("the sealed image does not start: {0}")]
    NotBootable(Why),
    /// The sealed image starts, and its definition is another block than the new one.
    #[error("another block than the new one defines the sealed image")]
    Displaced,
    /// There was no memory.
    #[error("out of memory")]
    Memory,
}
