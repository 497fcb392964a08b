//! Blocks that are written and read, and their definitions.

use arrayvec::ArrayVec;
use block_codec::{Block, BlockError, Version, read_block, write_block};
use image_def::{Def, EntryPoint, image_flags, read_def};
use std::alloc::{AllocError, Global};
use std::test::Fail;

/// The bytes of the words, each with its lowest byte first.
fn bytes_from(alloc: Global, words: &[u32]) -> Result<Vec<u8>, AllocError> {
    let mut bytes = Vec::new(alloc);
    for word in words {
        bytes.extend_from_slice(&word.to_le_bytes())?;
    }
    Ok(bytes)
}

#[test]
fn writes_blocks(rt: HostRuntime) -> Result<(), Fail> {
    let mut out = bytes_from(rt.alloc(), &[7])?;
    assert_eq!(rt;
        write_block(rt.alloc(), &[0; 157], 0, &mut out),
        Err(BlockError::TooLong(644))
    );
    assert_eq!(rt;
        write_block(rt.alloc(), &[0x42], 0, &mut out),
        Err(BlockError::ItemSize(0))
    );
    assert_eq!(rt;
        write_block(rt.alloc(), &[0x142, 0xff], 0, &mut out),
        Err(BlockError::ItemSize(1))
    );
    assert_eq!(rt; out.len(), 4);
    assert_eq!(rt;
        write_block(rt.alloc(), &[0x10210142], 0x2eec, &mut out),
        Ok(())
    );
    let wanted = bytes_from(
        rt.alloc(),
        &[7, 0xffffded3, 0x10210142, 0x1ff, 0x2eec, 0xab123579],
    )?;
    assert_eq!(rt; out.as_slice(), wanted.as_slice());
    Ok(())
}

/// The block of these item words, which closes a loop of one.
fn block_of(alloc: Global, items: &[u32]) -> Result<Block, Fail> {
    let mut bytes = Vec::new(alloc);
    write_block(alloc, items, 0, &mut bytes)?;
    Ok(read_block(bytes.as_slice(), 0).ok_or("none")?)
}

/// An item of each kind behind one that is passed over.
const FULL: [u32; 29] = [
    0x000001fe, 0x90210142, 0x00000203, 0x10000200, 0x00000444, 0x10000301, 0x20001000, 0x20000800,
    0x00000205, 0xfffff000, 0x01000406, 0, 0x20000000, 16, 0x01000247, 21, 0x03000448, 0x00070009,
    0x00c00048, 0x0efd00d0, 0x0000094b, 0x03020100, 0x07060504, 0x0b0a0908, 0x0f0e0d0c, 0x13121110,
    0x17161514, 0x1b1a1918, 0x1f1e1d1c,
];

#[test]
fn reads_each_field(rt: HostRuntime) -> Result<(), Fail> {
    let block = block_of(rt.alloc(), &FULL)?;
    let mut digest = [0u8; 32];
    for i in 0..32usize {
        digest[i] = i as u8;
    }
    let mut rows = ArrayVec::new();
    rows.push(0x0c0);
    rows.push(0x0d0);
    rows.push(0xefd);
    let wanted = Def {
        flags: 0x9021,
        image_word: 2,
        vector: Some(0x10000200),
        entry_point: Some(EntryPoint {
            pc: 0x10000301,
            sp: 0x20001000,
            limit: 0x20000800,
        }),
        delta: -4096,
        map_item: Some(5),
        hash_words: 21,
        digest: Some(digest),
        version: Version { major: 7, minor: 9 },
        rollback: Some(72),
        rows,
    };
    assert_eq!(rt; image_flags(&block), Some(0x9021));
    assert_eq!(rt; read_def(&block), Ok(wanted));
    Ok(())
}
