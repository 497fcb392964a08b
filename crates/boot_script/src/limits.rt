//! The limits of a script.

/// The greatest script, in bytes.
pub const SCRIPT_LIMIT: u32 = 67_108_864;

/// The greatest number of records of a script, with its end.
pub const RECORD_LIMIT: u32 = 524_288;
