//! Worked examples, each the contract of a function that does nothing.

pub mod cuts;
pub mod names;
pub mod reports;
pub mod texts;
pub mod verdicts;
