//! The boot decision of the RP2350: where the partition table is, which image starts, where a
//! download goes, and which data belongs to a started image.
//!
//! `specs/Tables` says which table a content has and why a slot has none. `specs/Choosing` has the
//! choice as a function of the images, and `specs/Chosen` the decision as the rules name it.
//! `specs/Targets` has the target of a download, and `specs/Data` the data windows. The laws say
//! that the decision by the rules is that of the function, and what each of them keeps from the
//! others.
#![tactic(auto)]

mod data;
mod deciding;
mod decision;
pub mod examples;
pub mod laws;
mod picking;
mod slots;
mod tables;
mod targets;
mod units;

pub use data::data_of;
pub use deciding::{decide, decide_by, decide_with};
pub use decision::{Decision, Fall, decision_of};
pub use image_check::{Digests, Started};
pub use part_table::Target;
pub use picking::choice_of;
pub use slot_choice::Choice;
pub use slots::SlotFault;
pub use tables::{Found, find_table, is_first_taken, slot_answer};
pub use targets::{is_executable, target, target_by};
pub use units::{boot_units_by, boot_units_in, order_of};
