//! Why a slot's table is that of the flash.

/// Why the table of a slot is that of the flash: the first that holds, in this order.
#[derive(Clone, Copy, Debug, PartialEq, Eq)]
pub enum TableReason {
    /// The other slot has no table.
    Only,
    /// Slot 0 has a singleton table.
    Singleton,
    /// The versions differ, and this one is greater.
    Version,
    /// The versions are equal, and this is slot 0.
    Tie,
}

/// The slot whose table is that of the flash, and why.
#[derive(Clone, Copy, Debug, PartialEq, Eq)]
pub struct TableInForce {
    /// The slot, 0 or 1.
    pub slot: u32,
    /// Why the table in force is this slot's.
    pub because: TableReason,
}
