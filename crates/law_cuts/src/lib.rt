//! A sweep is a case of cuts, and a gated session leaves one of two images but by an accidental
//! one: laws above the cuts of scripts, the sweep, and the scripts that are one session.
#![tactic(auto)]

pub mod examples;
pub mod laws;
