//! Whether a window of the RP2350's flash holds an image that may start, and why not.
//!
//! `specs/` has the rules one by one (`Rules`), the entry (`Entry`), a valid image as a conjunction
//! and the first failing rule (`Valid`, `WhyNot`). `SameImage` says what it means that two windows
//! hold the same image. `Changes` has the same image in another window and without its trial bit.
//! `Digests` says what is remembered of digests.
#![tactic(auto)]

mod addressing;
mod checking;
mod digests;
mod entry;
mod examining;
pub mod examples;
pub mod laws;
mod recalling;
mod same;
mod why;

pub use addressing::Addressing;
pub use checking::{check, check_view, confirm};
pub use digests::{Digested, Digests};
pub use examining::{Candidate, Defined, defined_in, examine, loads_of};
pub use image_def::Started;
pub use recalling::{check_by, confirm_by};
pub use same::same_content;
pub use why::{EntryFault, Why};
