//! What a UF2 file leaves that a host copies whole to the board's drive. A copy in which power was
//! lost can be done again.
#![tactic(auto)]

pub mod examples;
pub mod laws;
