//! The entries of a load map.

use arrayvec::ArrayVec;
use thiserror::Error;

/// What one load map entry has loaded (RP2350 Datasheet, chapter 5, Bootrom, "Load map").
#[derive(Clone, Copy, Debug, Default, PartialEq, Eq)]
pub struct Load {
    /// The offset in the window at which the entry's bytes are stored; None for a clear entry,
    /// whose bytes are 0.
    pub storage: Option<u32>,
    /// The address at which the image finds the bytes when it runs.
    pub runtime: u32,
    /// The number of bytes; it may be 0.
    pub size: u32,
}

/// The entries of a load map, in order. There are at most 51: a block has at most 156 item words,
/// the item's header takes one, and each entry takes three.
pub type Loads = ArrayVec<Load, 51>;

/// Why a load map is refused: the first rule that its first faulty entry breaks, with the entry's
/// index. The rules are this project's own.
#[derive(Clone, Copy, Debug, PartialEq, Eq, Error)]
pub enum MapFault {
    /// The entry's storage leaves the window, or ends before it starts.
    #[error("load map entry {0} is stored outside the window")]
    Storage(u32),
    /// The entry's bytes are neither loaded into SRAM as a whole nor used where they are stored.
    /// An image that is to run where it is stored has this fault wherever its bytes are not used
    /// where they are stored.
    #[error("load map entry {0} is loaded to a wrong address")]
    Runtime(u32),
    /// The entry's storage shares a byte with the block that has the load map.
    #[error("load map entry {0} covers its own block")]
    CoversBlock(u32),
}
