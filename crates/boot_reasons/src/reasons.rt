//! The reasons of a boot.

use crate::looks::UnitReport;
use crate::slots::TableInForce;
use arrayvec::ArrayVec;
use boot_rules::{Decision, SlotFault};
use part_table::Table;

/// Why a boot decides as it does.
#[derive(Debug, Drop)]
pub struct Reasons {
    /// What the boot decides.
    pub decision: Decision,
    /// Whether the OTP requires rollback versions.
    pub required: bool,
    /// Whether the OTP says that flash boot is off.
    pub off: bool,
    /// The size of a table slot.
    pub size: u32,
    /// The table of slot 0, or why it has none.
    pub first: Result<Table, SlotFault>,
    /// The table of slot 1, or why it has none.
    pub second: Result<Table, SlotFault>,
    /// Whose table is that of the flash, if it has one.
    pub table: Option<TableInForce>,
    /// The units that are looked at, in their order, up to the first that takes an image.
    pub looks: ArrayVec<UnitReport, 15>,
    /// How many further units are not reached.
    pub unreached: u32,
}
