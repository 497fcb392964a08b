//! Worked examples, one module a subject. Each is the `ensures` of a function that does
//! nothing.

pub mod boots;
pub mod formats;
pub mod otps;
pub mod scripts;
pub mod sessions;
