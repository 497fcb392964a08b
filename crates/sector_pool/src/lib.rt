//! A pool of sector buffers that are lent one at a time.
//!
//! All buffers are one region of memory that [`SectorPool::make`] asks for; no other call takes
//! memory. A buffer is lent by a [`Lease`], and a write through one lease changes no byte of
//! another one's sector.
#![tactic(auto)]

pub mod laws;
mod pool;

pub use pool::{Lease, SectorPool};
