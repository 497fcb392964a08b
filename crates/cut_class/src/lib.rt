//! The class of a cut: what a normal boot makes of a loss of power, in one of six words.
#![tactic(auto)]

mod class;

pub use class::{Class, is_same_class};
