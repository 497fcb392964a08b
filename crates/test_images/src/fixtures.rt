//! What the tests of images and of ELF files share.

use arrayvec::ArrayVec;
use block_codec::Version;
use image_pack::SealSpec;
use pico_board::Cpu;
use sha2::{Digest, Sha256};

/// The least image, sealed for Arm with version 1.9.
pub const LEAST_SEALED: [u8; 32] = [
    0x5b, 0x1d, 0x03, 0x00, 0x31, 0x7d, 0xb4, 0xfd, 0x26, 0x07, 0xe9, 0xba, 0x8b, 0xe6, 0xdb, 0x00,
    0xb3, 0xc1, 0x6e, 0x75, 0x2b, 0xc9, 0x27, 0xf8, 0x82, 0x45, 0xa1, 0x2b, 0x5d, 0xf6, 0x50, 0xbb,
];

/// The words of the block of the least image: one IMAGE_TYPE item for Arm, and link 0.
pub const BLOCK: [u32; 5] = [0xffff_ded3, 0x1021_0142, 0x0000_01ff, 0, 0xab12_3579];

/// A spec for Arm of version 1.minor without rows.
pub(crate) fn spec(minor: u16) -> SealSpec {
    SealSpec {
        cpu: Cpu::Arm,
        version: Version { major: 1, minor },
        rollback: None,
        rows: ArrayVec::new(),
        trial: false,
    }
}

/// The SHA-256 of these bytes.
pub(crate) fn sha256(bytes: &[u8]) -> [u8; 32] {
    let mut hasher = Sha256::new();
    hasher.update(bytes);
    hasher.finalize()
}
