//! UF2 blocks, and where a download of them goes: which steps on the board each block brings.
//!
//! The form of a block is that of the UF2 specification (github.com/microsoft/uf2), with payloads
//! of 256 bytes, as picotool writes them. This project's own are: which blocks are skipped, gated
//! downloads, and the order of the refusals.
#![tactic(auto)]

mod answer;
mod beginning;
mod bits;
mod block;
mod current;
mod download;
pub mod examples;
mod holding;
mod judging;
pub mod laws;
mod marks;
mod pages;
mod placing;
mod reading;
mod writing;

pub use answer::{Accepted, PlaceFault};
pub use block::{Uf2, Uf2Fault, Uf2WriteFault};
pub use download::Download;
pub use part_table::Target;
pub use reading::read_uf2;
pub use writing::write_uf2;
