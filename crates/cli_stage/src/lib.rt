//! The command `stage`: the script that writes an image where a download of it goes, with the page
//! of its first block last.
#![tactic(auto)]

pub mod examples;
mod images;
pub mod laws;
mod staging;
mod texts;

pub use staging::stage_image;
