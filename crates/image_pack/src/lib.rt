//! Sealed images: a binary with a version, a load map and a digest; and flashes made of a number.
//!
//! The definitions stand in `specs/`: `Sealing` is the text of a sealed image, and judges nothing.
//! `Faults` says when a binary is sealed, and why it is not. `ReadBack` says what a window that
//! begins with a sealed image has. `Streams` has the binaries of made flashes, and `Flashes` the
//! flash, with their sealed images.
#![tactic(auto)]

pub mod examples;
mod filling;
mod generating;
mod items;
mod judging;
pub mod laws;
mod parts;
mod rows;
mod sealing;
mod spec;
mod text;

pub use generating::generate;
pub use script_plan::{PlanError, plan};
pub use sealing::seal;
pub use spec::{SealError, SealSpec, SpecField};
pub use text::sealed_text;
