//! What an update does to data: the windows with data of the images that start, and the bytes of an
//! image that nothing of it covers.
//!
//! A script leads from one content to another one. `specs/Windows` says which windows have data,
//! whose they are and whether they are written, and `specs/Others` where an image runs on other
//! data than its own. `specs/Loose` says which bytes of the image that starts at the end are loose,
//! and `specs/Early` where it starts before they are there. `specs/Texts` has the line of a window.
#![tactic(auto)]

pub mod examples;
mod found;
pub mod laws;
mod lines;
mod loose;
mod others;
mod windows;

pub use found::{DataWindow, Ends};
pub use lines::data_line;
pub use loose::{loose_bytes, starts_early};
pub use others::is_other_data;
pub use windows::data_windows;
