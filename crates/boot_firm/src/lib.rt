//! Whether an image is firm, as a function: whether its definition and digest follow its first
//! sector. What a firm image is, and that a first sector that is programmed in part makes no other
//! image of it, stands in `boot_sweep`.
#![tactic(auto)]

pub mod examples;
mod firming;
pub mod laws;

pub use firming::is_firm;
