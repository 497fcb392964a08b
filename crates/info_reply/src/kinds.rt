//! The id and the kinds of info commands, and the statuses that only they have. Their id is that
//! of the GET_INFO command. The id and the numbers of the statuses are those of the RP2350
//! Datasheet, chapter 5 (Bootrom, the PICOBOOT interface). The kinds are this project's own.

/// The id of info commands.
pub const INFO: u8 = 0x8b;

/// The kind that asks for the partition table.
pub const TABLE: u8 = 1;
/// The kind that asks for the target of a download.
pub const TARGET: u8 = 2;
/// The kind that asks for the board.
pub const DEVICE: u8 = 3;
/// The kind that asks for a partition.
pub const PARTITION: u8 = 4;

/// The argument size of an info command.
pub const INFO_SIZE: u8 = 16;

/// The reply is longer than the transfer length.
pub const BUFFER_TOO_SMALL: u32 = 12;
/// There is no such partition.
pub const NOT_FOUND: u32 = 16;
