//! The work of `caveats`: what a boot decides, and at which points of this very answer the chip
//! may decide otherwise.
//!
//! `specs/Texts` has the lines, and `specs/Works` the work as a function of the content.
//! `specs/Rules` says what is right for the command.
#![tactic(auto)]

mod answering;
pub mod laws;
mod texts;

pub use answering::caveats;
pub use texts::caveat_text;
