//! The ids of the commands, and the statuses that answer them (RP2350 Datasheet, chapter 5,
//! Bootrom, the PICOBOOT interface).

/// The word that a command begins with.
pub const MAGIC: u32 = 0x431f_d10b;

/// The id of exclusive access.
pub const EXCLUSIVE: u8 = 0x01;
/// The id of an erase of flash sectors.
pub const ERASE: u8 = 0x03;
/// The id of a read.
pub const READ: u8 = 0x84;
/// The id of a write.
pub const WRITE: u8 = 0x05;
/// The id of the exit from XIP.
pub const EXIT_XIP: u8 = 0x06;
/// The id of the entry to XIP.
pub const ENTER_XIP: u8 = 0x07;
/// The id of a reboot of the second form.
pub const REBOOT: u8 = 0x0a;
/// The id of a read of OTP rows.
pub const OTP_READ: u8 = 0x8c;
/// The id of a write of OTP rows.
pub const OTP_WRITE: u8 = 0x0d;

/// Nothing fails.
pub const OK: u32 = 0;
/// The id is that of no command.
pub const UNKNOWN_COMMAND: u32 = 1;
/// The argument size is not that of the command.
pub const COMMAND_LENGTH: u32 = 2;
/// The transfer length, or the payload's length, is not that of the command.
pub const TRANSFER_LENGTH: u32 = 3;
/// The range leaves the flash or the OTP.
pub const ADDRESS: u32 = 4;
/// The range is not aligned.
pub const ALIGNMENT: u32 = 5;
/// A download is busy.
pub const INVALID_STATE: u32 = 9;
/// A touched sector lacks the right.
pub const NOT_PERMITTED: u32 = 10;
/// An argument has no value that the command takes.
pub const INVALID_ARGUMENT: u32 = 11;
/// A word lacks a bit that is raised in its OTP row.
pub const UNSUPPORTED_MODIFICATION: u32 = 17;
