//! What stands in the OTP, in the table slots and in their tables, where the chip may decide
//! otherwise than the model; and the type of a caveat.
//!
//! The definitions stand in `specs/`:
//! - `Listing` says how conditions make lists of caveats.
//! - `OtpCaveats`, `TableCaveats` and `SlotCaveats` have the caveats of one subject each, as
//!   functions. `OtpRules`, `TableRules` and `SlotRules` have the same conditions as rules.
//! - `Sought` says what is sought among the blocks of a loop.
//! - `Same` says when two caveats are the same.
//!
//! `proofs/` has the lemmas that the lists are the same; `boot_caveats` has the law on the whole
//! list.
#![tactic(auto)]

mod caveat;
pub mod examples;
mod otp;
mod same;
mod seeking;
mod slots;
mod tables;

pub use caveat::{Caveat, add};
pub use otp::{add_critical, add_otp, short_slots};
pub use same::is_same_caveat;
pub use seeking::{Sought, last_where};
pub use slots::{add_slots, flash_from, has_executable};
pub use tables::{add_unread, short_flash, table_tie};
