//! The replies of info commands: what the board says of its partition table, of the target of a
//! download, of itself, and of a partition. The command's id is that of the RP2350 Datasheet's
//! GET_INFO. The kinds and the layouts of the replies are this project's own.
#![tactic(auto)]

mod ask;
mod bytes;
pub mod examples;
pub mod kinds;
pub mod laws;
mod replying;

pub use ask::{Ask, Device, info_ask};
pub use replying::info_put;
