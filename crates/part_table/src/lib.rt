//! Partition tables of the RP2350: what a table block says of the flash, and its faults.
//!
//! The fields are of the RP2350 Datasheet, chapter 5, Bootrom. This project's own are: the layout
//! of the id, the extra families and the name of a partition; the places of the default-family
//! bits; the faults and their order; the version without a VERSION item; and the rule on the
//! absolute family.
#![tactic(auto)]

mod contents;
pub mod examples;
mod families;
mod faults;
mod hashes;
mod items;
pub mod laws;
mod partition;
mod reading;
mod table;
mod target;
mod writing;

pub use families::{
    ABSOLUTE_FAMILY, ARM_NS_FAMILY, ARM_S_FAMILY, DATA_FAMILY, RISCV_FAMILY, RP2040_FAMILY,
    family_of,
};
pub use partition::Partition;
pub use reading::{has_table, read_table};
pub use table::{Right, Table, TableFault, TableWriteFault};
pub use target::Target;
pub use writing::write_table;
