//! The machine: a board that boots, serves a host in BOOTSEL, runs an image, and loses its power.
//!
//! `specs/Machines` says what a machine is, `specs/Boots`, `specs/Serving` and `specs/Moves` what
//! each event does in each state, as a function of the content, without cuts; Moves and Plays are
//! the table of the machine with its cuts. `specs/Plays` has it as a function, where the board
//! tells its armed cut. `specs/Standing` says what the parts of the code stand for.
#![tactic(auto)]

mod booting;
mod commands;
mod copying;
mod entering;
pub mod examples;
mod found;
mod infos;
pub mod laws;
mod lookup;
mod machine;
mod parts;
mod placing;
mod served;
mod serving;
mod state;
mod stepping;
mod watched;

pub use machine::Machine;
pub use served::Served;
pub use state::State;
pub use watched::Watched;
