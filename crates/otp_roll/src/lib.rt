//! The rollback rows of the OTP: what counts as raised, and the raises that take an image's rows
//! to its rollback version. The flags of the boot and the slot size stand in the OTP too, and are
//! here.
#![tactic(auto)]

pub mod examples;
mod flags;
pub mod laws;
mod raising;
mod rows;

pub use flags::{BOOT_FLAGS, SLOT_SIZE_ROW, flash_off, required, slot_size};
pub use raising::raise_to;
pub use rows::{FIRST_ROW, LAST_ROW, count};
