//! Which records of a script did nothing, which downloads it begins and does not end, and whether
//! it comes to the same end where it is played again.
//!
//! `specs/Idle` says which events did nothing. `specs/Shares` says what an event has to do with
//! downloads, and `specs/Unfinished` which of them are begun and not done. `specs/Unerased` and
//! `specs/Again` say what stands against a script that is played again, and `specs/Repeats` from
//! which contents its steps come to one end. `specs/Caveats` has the caveats of a script, and
//! `specs/Texts` the lines.
#![tactic(auto)]

mod caveats;
mod downloads;
mod erasing;
pub mod examples;
mod found;
pub mod laws;
mod lines;
mod noting;
mod refusals;
mod repeating;
mod seeing;

pub use caveats::script_caveats;
pub use downloads::{Beginning, Kind, Share, Stage};
pub use erasing::first_unerased;
pub use found::{Again, Records, Refused, ScriptCaveats};
pub use lines::{again_line, records_lines};
pub use repeating::again_of;
pub use seeing::records_of;
