//! Image definitions of the RP2350: which block of a loop defines an image for a processor, and
//! what its items say.
//!
//! The definitions stand in `specs/`: `Flags` and `Suits` say which block is the definition,
//! `Kinds` which items are read, `Rows` what a VERSION item lists, `Faults` the first fault of a
//! block's items, and `Definition` what a block says. `Guarantees` is what callers may assume of
//! each definition, and `Trial` what a cleared trial bit leaves.
#![tactic(auto)]

pub mod examples;
mod fault;
mod images;
mod judging;
mod kinds;
pub mod laws;
mod reading;
mod rows;
mod started;

pub use block_codec::{Def, EntryPoint};
pub use fault::DefFault;
pub use images::{MOST_BLOCK_BYTES, are_for, image_flags, suits};
pub use reading::read_def;
pub use started::Started;
