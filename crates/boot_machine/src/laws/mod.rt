//! The laws of this crate, one module a subject.

pub mod plays;
pub mod run;
