//! The scripts that the machine runs: events one after another, read from bytes and written to
//! them.
#![tactic(auto)]

mod event;
pub mod examples;
pub mod kinds;
pub mod laws;
mod limits;
mod reading;
mod script;
mod writing;

pub use event::{Event, ScriptError, ScriptFault};
pub use limits::{RECORD_LIMIT, SCRIPT_LIMIT};
pub use reading::next_event;
pub use script::{Events, Script};
pub use writing::write_event;
