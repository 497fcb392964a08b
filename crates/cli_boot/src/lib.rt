//! The work of the commands on a board: which image a boot starts; the partition table with the
//! image in each window; and the data that a started image owns.
#![tactic(auto)]

mod boards;
pub mod examples;
pub mod laws;

pub use boards::{boot, data, info};
