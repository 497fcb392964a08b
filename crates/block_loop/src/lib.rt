//! Block loops of the RP2350's boot: the blocks of a window, from link to link.
//!
//! A window's loop begins at its first block and follows each block's link (RP2350 Datasheet,
//! chapter 5, Bootrom).
#![tactic(auto)]

mod fault;
mod finding;
pub mod laws;
mod spans;
mod walking;

pub use fault::LoopFault;
pub use finding::block_at;
pub use walking::{BlockLoop, block_of, walk};
