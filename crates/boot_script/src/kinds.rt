//! The first bytes of the events, and the bytes of the kinds of a reset.

/// The first byte of an end.
pub const END: u8 = 0;
/// The first byte of a command.
pub const COMMAND: u8 = 1;
/// The first byte of a UF2 block.
pub const UF2: u8 = 2;
/// The first byte of a cut.
pub const CUT: u8 = 3;
/// The first byte of the return of power.
pub const POWER_ON: u8 = 4;
/// The first byte of a reset.
pub const RESET: u8 = 5;
/// The first byte of a buy.
pub const BUY: u8 = 6;

/// The kind byte of a reset to a normal boot.
pub const RESET_NORMAL: u8 = 0;
/// The kind byte of a reset to BOOTSEL.
pub const RESET_BOOTSEL: u8 = 2;
/// The kind byte of a reset to an update boot.
pub const RESET_UPDATE: u8 = 4;
