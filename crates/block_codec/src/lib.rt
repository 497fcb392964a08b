//! Blocks of the RP2350's boot: read from bytes, written to bytes, and their items.
//!
//! A block is the unit that a block loop is made of (RP2350 Datasheet, chapter 5, Bootrom). Bytes
//! are a block exactly where they are read as one.
#![tactic(auto)]

mod blocks;
mod definition;
mod error;
pub mod examples;
mod items;
pub mod kinds;
pub mod laws;
mod reading;
mod versions;
mod words;
mod writing;

pub use blocks::Block;
pub use definition::{Def, EntryPoint, copy_rows};
pub use error::BlockError;
pub use items::Item;
pub use reading::{is_block_start, read_block};
pub use versions::{Version, version_item};
pub use words::{END, LAST, START};
pub use writing::write_block;
