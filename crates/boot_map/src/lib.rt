//! The map of a flash: the windows that lie side by side from its first byte to its last. They are
//! slots, partitions, free stretches or the whole flash. Of each window the map has the image or
//! its first fault, and the pair that it is a member of. It names the window that a normal boot
//! starts.
//!
//! `specs/Windows` and `specs/Maps` have the map as functions, and `specs/WindowRules` and
//! `specs/MapRules` as rules. The laws say that both are the same, and that the windows fill the
//! flash without a gap and without an overlap. They also say that one row starts exactly where a
//! normal boot starts an image.
#![tactic(auto)]

pub mod examples;
mod gathering;
pub mod laws;
mod maps;
mod places;
mod rows;
mod windows;

pub use gathering::gather_map;
pub use maps::{FlashMap, MapRow, Pairing};
pub use places::{MapPlace, MapWindow};
