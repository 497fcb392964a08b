//! Worked examples: each is the `ensures` of a function that does nothing.

pub mod classes;
pub mod runs;
pub mod standing;
pub mod tears;
pub mod traces;
