//! The caveats of a boot's answer: each point of this very answer at which the chip may decide
//! otherwise than the model.
//!
//! The definitions stand in `specs/`, and those of the OTP, the slots and their tables in
//! `slot_caveats`:
//! - `ChoiceCaveats`, `ProcessorCaveats`, `StartCaveats`, `ImageCaveats`, `MemberCaveats` and
//!   `PartCaveats` have the caveats of one subject each, as functions.
//! - `ChoiceRules`, `ProcessorRules`, `StartRules`, `ImageRules`, `MemberRules` and `PartRules`
//!   have the same conditions as rules.
//! - `Unread` has the decision of a boot that does not apply the rule on rollback rows.
//! - `Caveats` has the whole list as a function, and `Rules` has it as rules.
//!
//! The law says that the lists are the same.
#![tactic(auto)]

mod choices;
pub mod examples;
mod gathering;
mod images;
pub mod laws;
mod members;
mod parts;
mod processors;
mod reading;
mod starts;
mod unread;

pub use gathering::{caveats_by, caveats_of, caveats_with};
pub use slot_caveats::Caveat;
