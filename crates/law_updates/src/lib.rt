//! What stands behind the words of `check`: what boots make of an update once it is done, what a
//! loss of power leaves in the writes of boots and of buys, and what becomes of a host's script
//! that is played again. This crate has no code of its own.
#![tactic(auto)]

pub mod examples;
pub mod laws;
