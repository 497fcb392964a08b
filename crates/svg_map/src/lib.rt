//! The picture of a flash: a column to scale, in which each window is a rectangle. Next to the
//! column each window has a row of words. The picture is a function of plain data. Its form is
//! this project's own.
//!
//! `specs/Maps` says what the picture has.
#![tactic(auto)]

mod bars;
pub mod examples;
pub mod laws;
mod map;
mod rows;

pub use bars::MapBar;
pub use map::{map_svg, map_words};
pub use rows::window_span_text;
