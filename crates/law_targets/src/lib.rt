//! Where a download of a UF2 family goes, as rules, and which targets are boot members.
#![tactic(auto)]

pub mod examples;
pub mod laws;
