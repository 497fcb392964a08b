//! ELF files, as compilers and linkers write them: to binaries that can be sealed, and to sealed
//! images.
//!
//! The definitions stand in `specs/`:
//! - `Fields` and `Segments` say what is read of a file.
//! - `Faults` says when a file is refused and for which fault. `Judging` has the function that
//!   finds it.
//! - `Binaries` says what the binary of a file is: a map from addresses to bytes, or an image that
//!   loads itself into SRAM.
//! - `Whole` says what its sealed image gives.
//! - `Examples` has worked files.
#![tactic(auto)]

pub mod examples;
mod fault;
mod fields;
mod judging;
pub mod laws;
mod packing;
mod placing;
mod segment;
mod storing;

pub use fault::ElfFault;
pub use packing::{elf_binary, elf_image};
