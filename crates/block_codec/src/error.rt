//! Why a block is not written.

use thiserror::Error;

/// Why `write_block` refuses.
#[derive(Debug, Drop, Clone, PartialEq, Eq, Error)]
pub enum BlockError {
    /// There are more than 156 item words; the block would have this many bytes.
    #[error("a block of {0} bytes is too long")]
    TooLong(u64),
    /// The item that begins at this word index is wrong: its size is 0 or runs past the end, or
    /// its type byte is 0xff.
    #[error("the item at word {0} has a wrong size or type")]
    ItemSize(u32),
    /// There is no memory for the block's bytes.
    #[error("out of memory")]
    Memory,
}
