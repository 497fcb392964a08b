//! The picture of a sweep: its steps from left to right, and below them what a normal boot makes
//! of a loss of power before and within each step. What is equal in one row, step after step, is
//! one rectangle. The picture is a function of plain data. Its form is this project's own.
//!
//! `specs/Runs` says what runs are, `specs/Charts` what the picture has.
#![tactic(auto)]

mod bars;
mod chart;
pub mod examples;
mod kinds;
pub mod laws;
mod legend;
mod runs;
mod spans;

pub use chart::{chart_svg, chart_words};
pub use runs::Run;
