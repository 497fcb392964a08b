//! The play of a script, told step by step: what it does to a board, and what comes of each event.
//!
//! `specs/Traces` says which steps a script completes and what is noted of each event,
//! `specs/Doers` who does each step. What the events of a script do stands in `boot_machine`, and
//! what the loss of power leaves in `pico_board`.
#![tactic(auto)]

mod checkpoints;
mod copying;
pub mod examples;
pub mod laws;
mod moving;
mod notes;
mod playing;
mod trace;

pub use boot_sweep::Move;
pub use copying::copy_of;
pub use moving::do_moves;
pub use notes::{Behind, Doer, Note, doers_of, is_boot};
pub use playing::trace_on;
pub use trace::Trace;
