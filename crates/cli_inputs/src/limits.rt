//! The greatest lengths of input files.

use pico_board::MOST_FLASH_BYTES;

/// The greatest flash, in bytes.
pub const FLASH_LIMIT: u32 = MOST_FLASH_BYTES as u32;

/// The greatest OTP file, in bytes.
pub const OTP_LIMIT: u32 = 16_384;

/// The greatest image, in bytes.
pub const IMAGE_LIMIT: u32 = MOST_FLASH_BYTES as u32;

/// The greatest pattern of a cut, in bytes.
pub const PATTERN_LIMIT: u32 = 4096;

/// The greatest binary, in bytes.
pub const BINARY_LIMIT: u32 = MOST_FLASH_BYTES as u32;

/// The greatest JSON text, in bytes.
pub const JSON_LIMIT: u32 = 65_536;

/// The greatest ELF file, in bytes.
pub const ELF_LIMIT: u32 = 67_108_864;

/// The greatest UF2 file, in bytes: 65,537 blocks.
pub const UF2_LIMIT: u32 = 33_554_944;

/// The greatest text of a script, in bytes. No listed script passes it.
pub const TEXT_LIMIT: u32 = 209_715_200;
