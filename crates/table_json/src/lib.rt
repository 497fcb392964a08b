//! Partition tables, specs of sealed images and OTPs, from JSON texts. The texts are this
//! project's own.
#![tactic(auto)]

pub mod examples;
mod families;
mod fault;
mod forms;
pub mod laws;
mod members;
mod otps;
mod partitions;
mod reading;
mod seals;
mod tables;

pub use fault::{Field, JsonFault, Place};
pub use otps::{MOST_LISTED, OtpRow, OtpSpec, SLOT_EXPONENTS, otp_spec_of};
pub use seals::spec_of;
pub use tables::table_of;
