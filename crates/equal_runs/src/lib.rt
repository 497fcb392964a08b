//! The maximal runs of a list: as many neighbours as have one entry. A list has exactly one list of
//! them. Crates that collect runs of their own say by `specs/Runs` what these are.
#![tactic(auto)]

pub mod examples;
pub mod laws;
