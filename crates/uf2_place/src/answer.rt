//! What comes of a block that is placed.

use part_table::Target;
use thiserror::Error;

/// How a block was accepted.
#[derive(Clone, Copy, PartialEq, Eq, Debug)]
pub enum Accepted {
    /// The block is not for a download here; nothing changed.
    Skipped,
    /// The block's number is taken already; nothing changed.
    Again,
    /// The block is taken, and more blocks are to come.
    Taken,
    /// The block is taken, and with it the download into this target is done.
    Done(Target),
}

/// Why a block was not placed: the first that applies, in this order.
#[derive(Clone, Copy, PartialEq, Eq, Debug, Error)]
pub enum PlaceFault {
    /// The block begins a download of a family that has no target.
    #[error("the family has no target")]
    NoTarget,
    /// The block's page is not in the target's window.
    #[error("the page is outside the target")]
    Outside,
    /// The bootloader may not write the page's sector.
    #[error("the sector may not be written")]
    NotPermitted,
    /// Power was lost in a step.
    #[error("power was lost")]
    PowerLost,
}

/// What the rules say of a block before any step.
#[derive(Clone, Copy, PartialEq, Eq, Debug)]
pub enum Ruling {
    /// The block is answered, and nothing is done.
    Answered(Result<Accepted, PlaceFault>),
    /// The block begins a download into this target.
    Begins(Target),
    /// The block continues the current download, into this target.
    Continues(Target),
}
