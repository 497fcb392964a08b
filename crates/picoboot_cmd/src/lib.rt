//! PICOBOOT commands: their 32 bytes, the checks that each has to pass, and what each does on the
//! board.
//!
//! The commands, their ids and the numbers of their statuses are of the RP2350 Datasheet, chapter
//! 5 (Bootrom, the PICOBOOT interface). The order of the checks is this project's own.
#![tactic(auto)]

mod applying;
mod arguments;
mod cmd;
pub mod examples;
mod judging;
pub mod kinds;
pub mod laws;
mod reply;
mod words;
mod working;

pub use applying::{Done, apply};
pub use cmd::{Cmd, CmdFault, read_cmd, write_cmd};
pub use reply::{HashReply, Reply};
