//! The work of `otp`: the OTP file of a board that a text describes.
//!
//! `specs/OtpWords` has the rows and the line as functions of what the text says.
//! `specs/OtpOutcomes` says what is right for the command.
#![tactic(auto)]

pub mod examples;
pub mod laws;
mod writing;

pub use writing::otp;
