//! A download that has begun.

use part_table::Target;
use sector_pool::Lease;

/// A download that has begun and is not done.
#[derive(Drop)]
pub struct Current {
    /// The family of the download's blocks.
    pub family: u32,
    /// How many blocks the download has.
    pub count: u32,
    /// Where the download goes.
    pub target: Target,
    /// How many blocks are still to come.
    pub left: u32,
    /// What is held back of the first sector of a gated target.
    pub held: Option<Held>,
}

/// The pages of a first sector that are held back, in a leased sector.
#[derive(Drop)]
pub struct Held {
    /// The sector that has the bytes of the held pages.
    pub lease: Lease,
    /// Bit i: page i of the sector is held.
    pub pages: u16,
}
