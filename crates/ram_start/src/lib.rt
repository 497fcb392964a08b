//! Images that a host writes into SRAM and starts there.
//!
//! The commands are of the RP2350 Datasheet, chapter 5 (Bootrom). The order of their checks, and
//! which rules hold of an image in RAM, are this project's own where the datasheet is open.
#![tactic(auto)]

mod checking;
pub mod examples;
pub mod kinds;
pub mod laws;
mod ram;
mod serving;

pub use checking::ram_check;
pub use ram::Ram;
pub use serving::{RamDone, ram_apply, ram_asks};
