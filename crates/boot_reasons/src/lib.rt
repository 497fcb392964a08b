//! Why a boot decides as it does: what each table slot has or lacks; whose table is that of the
//! flash; which boot units are looked at in which order; which image each member has, or which
//! rule it fails first; and by which rule an image is taken.
//!
//! What a slot has or lacks is what `boot_rules` answers of it. `specs/Slots` and `specs/Looks`
//! have the reasons as functions. `specs/SlotRules`, `specs/LookRules` and `specs/Rules` have them
//! as rules. The laws say that both are the same, and that the first unit that takes an image
//! takes that of the decision.
#![tactic(auto)]

pub mod examples;
mod gathering;
pub mod laws;
mod looking;
mod looks;
mod reasons;
mod slots;
mod tables;

pub use boot_rules::{SlotFault, slot_answer};
pub use gathering::{gather, gather_by};
pub use looks::{TakenImage, UnitReason, UnitReport};
pub use reasons::Reasons;
pub use slots::{TableInForce, TableReason};
pub use tables::{table_in_force, taken_table};
