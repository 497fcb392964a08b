//! The scripts by which a host writes an image into a slot and starts it: with the slot's first
//! sector last, or in ascending order.
//!
//! The definitions stand in `specs/Plans` and `specs/Loads`.
#![tactic(auto)]

mod commands;
pub mod examples;
pub mod laws;
mod loading;
mod planning;
mod writing;

pub use writing::{PlanError, WriteOrder, load, plan, write_script};
