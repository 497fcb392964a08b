//! Worked examples: each is the `ensures` of a function that does nothing.

pub mod notes;
