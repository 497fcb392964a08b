//! The text form of a script is read back, each script has one text, and the fault of a line's
//! words is the first.
#![tactic(auto)]

pub mod examples;
pub mod laws;
