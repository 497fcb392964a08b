//! The script by which a host writes an image into a slot with one page of the slot's first sector
//! last, and starts the image; and what such a script leaves in the slot.
//!
//! The definitions stand in `specs/Stages` and `specs/Written`.
#![tactic(auto)]

mod commands;
pub mod examples;
pub mod laws;
mod staging;
mod writing;
mod written;

pub use writing::stage;
pub use written::written_window;
