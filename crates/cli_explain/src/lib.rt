//! The work of `explain`: why a boot decides as it does, as a text.
//!
//! `specs/Partitions` and `specs/Texts` have the texts as functions of the reasons. `specs/Rules`
//! says what is right for the command.
#![tactic(auto)]

pub mod examples;
mod explaining;
pub mod laws;
mod partitions;
mod texts;

pub use explaining::explain;
pub use partitions::{families_text, name_text};
pub use texts::{otp_text, slot_text};
