//! Why an image is not valid.

use block_loop::LoopFault;
use image_def::DefFault;
use load_map::MapFault;
use thiserror::Error;

/// The first fault of an image's entry (RP2350 Datasheet, chapter 5, "Image entry"; the checks are
/// this project's own where the datasheet is open).
#[derive(Clone, Copy, Debug, PartialEq, Eq, Error)]
pub enum EntryFault {
    /// One of the eight bytes of the vector table is not given.
    #[error("a byte of the vector table is not given")]
    Table,
    /// The vector table, or the first code address, meets the definition's block.
    #[error("the entry lies in the definition's block")]
    InBlock,
    /// The first code address is neither in the window nor in SRAM.
    #[error("the entry is neither in the window nor in SRAM")]
    Pc,
}

/// The answer of the first rule that an image fails, in the order of the variants.
#[derive(Clone, Copy, Debug, PartialEq, Eq, Error)]
pub enum Why {
    /// The window has no first block.
    #[error("the window has no first block")]
    NoBlock,
    /// The window's loop does not close; never with `LoopFault::NoBlock`.
    #[error("the loop does not close: {0}")]
    Loop(LoopFault),
    /// No block of the loop has an IMAGE_TYPE item.
    #[error("no block has an IMAGE_TYPE item")]
    NoDefinition,
    /// No block of the loop suits the processor.
    #[error("no block suits the processor")]
    NotForProcessor,
    /// The items of the definition have this first fault.
    #[error("the definition is wrong: {0}")]
    Items(DefFault),
    /// The image is a trial, and the boot allows none here.
    #[error("the image is a trial")]
    Trial,
    /// The OTP requires rollback versions, and the image lists no rows.
    #[error("the image lists no rollback rows")]
    RollbackRequired,
    /// The rollback version is below the count of the image's rows: version, count.
    #[error("rollback version {0} is below the count {1}")]
    Below(u16, u32),
    /// The load map has this first fault.
    #[error("the load map is wrong: {0}")]
    Map(MapFault),
    /// The entry has this first fault.
    #[error("the entry is wrong: {0}")]
    Entry(EntryFault),
    /// The covered bytes do not have the image's digest.
    #[error("the digest is not that of the covered bytes")]
    Digest,
    /// The image asks for a rolling window.
    #[error("the image asks for a rolling window")]
    Delta,
}
