//! Why a window has no block loop.

use thiserror::Error;

/// The fault of a window's loop. Offsets are in bytes from the window's start, and blocks are
/// counted from 0 in loop order.
#[derive(Debug, Clone, Copy, PartialEq, Eq, Error)]
pub enum LoopFault {
    /// No block stands at a multiple of 4 below 4096.
    #[error("no block below offset 4096")]
    NoBlock,
    /// No block stands where the link of the block at this offset leads.
    #[error("the link of the block at {0} leads to no block")]
    Broken(u32),
    /// There are 32 blocks and the last one's link does not lead to the first.
    #[error("32 blocks and no closed loop")]
    TooMany,
    /// The second block shares a byte with the first of these.
    #[error("blocks {0} and {1} overlap")]
    Overlap(u32, u32),
}
