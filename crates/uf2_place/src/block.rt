//! A UF2 block, and why bytes are none (UF2 specification, section File format).

use thiserror::Error;

/// The first word of a block, the bytes `UF2\n`.
pub const START: u32 = 0x0a32_4655;
/// The second word of a block.
pub const SECOND: u32 = 0x9e5d_5157;
/// The last word of a block.
pub const END: u32 = 0x0ab1_6f30;
/// The bytes of a payload, a page of the flash.
pub const PAYLOAD: u32 = 256;
/// The flag of a block that is not for the main flash.
pub const NOT_MAIN_FLASH: u32 = 0x1;
/// The flag of a block that names its family.
pub const HAS_FAMILY: u32 = 0x2000;
/// The most blocks of a file: with 256 bytes each they are the greatest flash.
pub const MOST_BLOCKS: u32 = 65536;

/// A UF2 block, as far as it is read: its header's fields and its payload of 256 bytes.
#[derive(Clone, Copy, PartialEq, Eq, Debug)]
pub struct Uf2 {
    /// The flags. Two of them are looked at: 0x1, not main flash, and 0x2000, family present.
    pub flags: u32,
    /// The address of the payload's first byte; the target window begins at 0x10000000.
    pub address: u32,
    /// The block's number within its file, from 0.
    pub number: u32,
    /// How many blocks the file has.
    pub count: u32,
    /// The family that the file is for.
    pub family: u32,
    /// The payload, a page of the flash.
    pub page: [u8; 256],
}

/// Why 512 bytes are no UF2 block: the first that applies, in this order.
#[derive(Clone, Copy, PartialEq, Eq, Debug, Error)]
pub enum Uf2Fault {
    /// One of the three magic words differs.
    #[error("a magic word is wrong")]
    Magic,
    /// The payload size is not 256.
    #[error("the payload has not 256 bytes")]
    Payload,
    /// The address is no multiple of 256.
    #[error("the address is no multiple of 256")]
    Alignment,
    /// The count is 0 or above 65,536, or the number is not below the count.
    #[error("the number of blocks or the number of the block is wrong")]
    Number,
}

/// Why no file is written.
#[derive(Clone, Copy, PartialEq, Eq, Debug, Error)]
pub enum Uf2WriteFault {
    /// The image has no byte.
    #[error("the image has no byte")]
    Empty,
    /// The image has more than 16,777,216 bytes.
    #[error("the image has more than 16,777,216 bytes")]
    TooLarge,
    /// There was no memory for the file.
    #[error("out of memory")]
    Memory,
}
