//! The choice among the boot slots of the RP2350: the boot units of a flash, the unit of a
//! download, and the better of two versions.
//!
//! Boot units are by the RP2350 Datasheet, chapter 5, Bootrom. The order of versions, the choice
//! in a unit, and the rules of an update boot and of a download's unit are this project's own.
#![tactic(auto)]

mod choice;
mod choosing;
pub mod examples;
pub mod laws;
mod unit;
mod units;

pub use choice::Choice;
pub use choosing::{are_different, better, better_of, is_below, update_first};
pub use unit::{Member, SlotUnit};
pub use units::{boot_units, load_unit, second_of, unit_of};
