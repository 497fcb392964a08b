//! Which law speaks of each loss of power in a script: in its session, in the writes of its boots,
//! and in those of its buys.
//!
//! `specs/Hosts` says which scripts are a host's, `specs/SessionLaws` which law a session has, and
//! `specs/OwnLaws` which law boots and buys have. `specs/Staged` says which steps are staged,
//! `specs/Made` which boots and buys the notes of a script tell. What the events of a script do
//! stands in `boot_machine` and `boot_tape`, the session in `boot_session`, and the decision in
//! `boot_rules`.
#![tactic(auto)]

pub mod examples;
mod found;
mod host_writes;
mod hosting;
pub mod laws;
mod made;
mod own;
mod session;
mod staging;
mod triples;

pub use found::{Reason, SessionFound};
pub use made::{WriteLaws, write_laws};
pub use own::{is_boot_kept, is_buy_kept};
pub use session::session_law;
