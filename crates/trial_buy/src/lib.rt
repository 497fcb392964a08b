//! What a boot and a buy write: the steps by which a start settles, and those by which a running
//! trial image is bought.
//!
//! The rules are by the RP2350 Datasheet, chapter 5, Bootrom ("Try before you buy", "Rollback").
//! The order of the steps and their details are this project's own.
#![tactic(auto)]

mod buying;
pub mod examples;
pub mod laws;
mod settling;

pub use buying::{buy, buy_at};
pub use settling::{better_sector, settle, settle_at, start_sector};
