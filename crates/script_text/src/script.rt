//! What is read of a text, and why a text is not read.

use boot_script::RECORD_LIMIT;
use script_words::LineFault;
use thiserror::Error;

/// The greatest text, in bytes, which no listed text passes.
pub const TEXT_LIMIT: u32 = 209_715_200;
/// The most records of a script before its end.
pub const MOST_RECORDS: u32 = RECORD_LIMIT - 1;

/// The script of a text.
#[derive(Drop)]
pub struct TextScript {
    /// The bytes of the script.
    pub bytes: Vec<u8>,
    /// The number of the script's records, with its end.
    pub records: u32,
}

/// Why a line is not read: the first that applies, in this order.
#[derive(Clone, Copy, Debug, PartialEq, Eq, Error)]
pub enum TextFault {
    /// The line has a word, and a line before it is `end`.
    #[error("the line stands behind the end")]
    BehindEnd,
    /// Its words are no record.
    #[error("{0}")]
    Words(LineFault),
    /// It takes bytes that the image has not.
    #[error("the image has not the bytes that the line takes")]
    Image,
    /// 524,287 records come before a record other than the end.
    #[error("there are too many records")]
    TooMany,
    /// With a record other than the end, and the end, the script has more than 67,108,864 bytes.
    #[error("the script is too long")]
    TooLong,
}

/// Why a text is not read. The first line that has a fault decides, and of that line's faults the
/// first.
#[derive(Clone, Copy, Debug, PartialEq, Eq, Error)]
pub enum TextError {
    /// The line of this number, from 1, has a fault.
    #[error("line {0}: {1}")]
    Line(u32, TextFault),
    /// There was no memory.
    #[error("out of memory")]
    Memory,
}
