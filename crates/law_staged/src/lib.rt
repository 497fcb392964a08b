//! Laws of sessions that write the page of an image's first block last. No code stands on them.
#![tactic(auto)]

pub mod examples;
pub mod laws;
