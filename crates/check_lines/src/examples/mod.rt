//! Worked lines, one of each word: each is the `ensures` of a function that does nothing.

pub mod counting;
pub mod images;
