//! The laws of this crate, one module a subject.

pub mod firm;
pub mod sweep;
