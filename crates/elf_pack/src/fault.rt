//! Why an ELF file is refused.

use image_pack::SealError;
use thiserror::Error;

/// Why an ELF file has no binary or no sealed image: the first that applies, in the order of the
/// variants. Segments are named by the numbers of their program headers, counted from 0 over all
/// headers.
#[derive(Clone, Copy, Debug, PartialEq, Eq, Error)]
pub enum ElfFault {
    /// The file has fewer than 52 bytes, or does not begin as a 32-bit ELF file with the lowest
    /// byte first does.
    #[error("this is no 32-bit ELF file with the lowest byte first")]
    NotElf,
    /// The file is no executable file.
    #[error("the ELF file is not executable")]
    FileType,
    /// The file is for another processor.
    #[error("the ELF file is for another processor")]
    Processor,
    /// There are program headers, and they do not have 32 bytes each or they leave the file.
    #[error("the program headers have not 32 bytes each, or leave the file")]
    Headers,
    /// The bytes of this segment leave the file, or its addresses lie neither wholly in flash nor
    /// wholly in SRAM. Flash has 16 MiB from 0x10000000 on. It is the first such segment.
    #[error("segment {0} leaves the file, or lies wholly in neither flash nor SRAM")]
    Segment(u32),
    /// There is no segment with bytes in the file.
    #[error("there is no segment")]
    Empty,
    /// There are this many segments, more than 29.
    #[error("there are {0} segments, more than 29")]
    TooMany(u32),
    /// This segment lies in SRAM where the first one lies in flash, or the reverse. It is the
    /// first such segment.
    #[error("segment {0} lies in another memory than the first one")]
    Mixed(u32),
    /// Two segments share an address: the first one that shares an address with a later one, and
    /// the first such later one.
    #[error("segments {0} and {1} overlap")]
    Overlap(u32, u32),
    /// The binary of the file is not sealed, for another cause than memory.
    #[error("the binary is not sealed: {0}")]
    Seal(SealError),
    /// There was no memory.
    #[error("out of memory")]
    Memory,
}
