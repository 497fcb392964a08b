//! The session of a script: the steps that its host does on a board from BOOTSEL on. Where it
//! keeps to one slot of a pair, laws say what the next normal boot decides, also where power is
//! lost in it.
//!
//! `specs/Sessions` says which steps a script's session does, `specs/Slots` which slot it writes,
//! and `specs/Recordings` what is recorded of it. `specs/CutSessions` has the sessions of one slot
//! that the laws speak of. The loss of power is that of `pico_board`, the decision is that of
//! `boot_rules`, and what a host's events do is that of `boot_machine`.
#![tactic(auto)]

pub mod examples;
pub mod laws;
mod recorder;
mod recording;
mod session;

pub use recorder::{Recorder, STEP_LIMIT};
pub use recording::{is_confined, slot_among};
pub use session::session_on;
