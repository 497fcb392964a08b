//! Load maps and what an image's digest covers.

ghost use Rattle.std.specs.Prelude.{◌≡◌, ◌≤◌, true, length};
ghost use Rattle.pico_board.specs.declared.window.TheConstants.{MOST_FLASH_BYTES};
ghost use Rattle.load_map.specs.Loads.{IsMapAt, is_load_map};
ghost use Rattle.load_map.specs.Stored.{AreStoredIn};

use arrayvec::ArrayVec;
use block_codec::{Block, Def, Item, Version, kinds, read_block, write_block};
use load_map::{Loads, covered_digest, read_map};
use pico_board::SliceView;
use sector_pool::SectorPool;
use sha2::{Digest, Sha256};
use std::alloc::Global;
use std::process::Abort;
use std::test::Fail;

/// The words of a block's items: an IMAGE_TYPE item with the trial bit, and a relative load map of
/// five entries.
const ITEMS: [u32; 17] = [
    0x90210142, 0x05001006, // IMAGE_TYPE, LOAD_MAP
    0, 0x20000000, 0x1234, // 0x1234 zeros
    0xef8, 0x20001000, 5000, // from 0x1000 on, no multiple of a sector
    0x3ef7, 0x20003000, 1, // the last byte of the window
    0x1ef8, 0x20004000, 0x2000, // from 0x2000 on, two whole sectors
    0x1ef8, 0x20006000, 0, // no byte
];

/// A window of 16384 bytes with a block of these items at offset 0x100; the other bytes count up.
fn window(alloc: Global, items: &[u32]) -> Result<Vec<u8>, Fail> {
    let mut bytes = Vec::new(alloc);
    for i in 0..0x100u32 {
        bytes.push((i % 251) as u8)?;
    }
    write_block(alloc, items, 0, &mut bytes).map_err(|_| "no block")?;
    for i in bytes.len()..0x4000 {
        bytes.push((i % 251) as u8)?;
    }
    Ok(bytes)
}

/// The block at offset 0x100 of the window.
fn block_in(window: &[u8]) -> Result<Block, Fail> {
    let block = window
        .get(0x100..)
        .and_then(|piece| read_block(piece, 0x100));
    Ok(block.ok_or("no block")?)
}

/// A definition that says how many words are hashed and where the IMAGE_TYPE item stands.
fn def_of(hash_words: u32, image_word: u32) -> Def
    ensures { result.hash_words ≡ hash_words }
{
    Def {
        flags: 0x9021,
        image_word,
        vector: None,
        entry_point: None,
        delta: 0,
        map_item: None,
        hash_words,
        digest: None,
        version: Version { major: 0, minor: 0 },
        rollback: None,
        rows: ArrayVec::new(),
    }
}

/// Whether the item is a LOAD_MAP with three words for each entry.
fn is_load_map(item: &Item) -> bool
    ensures { result ≡ is_load_map item.now }
{
    kinds::kind_of(item.kind) == kinds::LOAD_MAP && item.words == 1 + 3 * u32::from(item.high % 128)
}

/// Whether the block has a load map as its second item.
fn has_map(block: &Block) -> bool
    ensures { result ≡ true → IsMapAt block.now 1 }
{
    block.count() > 1 && is_load_map(&block.item(1))
}

/// A view of the bytes.
fn view_of(bytes: &[u8]) -> SliceView<'_>
    requires { length bytes.now ≤ MOST_FLASH_BYTES }
    ensures { result.bytes.now ≡ bytes.now }
{
    SliceView { bytes }
}

/// The covered bytes as one text.
fn whole_text(
    alloc: Global,
    window: &[u8],
    block: &Block,
    def: &Def,
    loads: &Loads,
) -> Result<Vec<u8>, Fail> {
    let mut text = Vec::new(alloc);
    for load in loads.as_slice() {
        match load.storage {
            None => text.extend_from_slice(&load.size.to_le_bytes())?,
            Some(storage) => {
                let start = storage as usize;
                let stored = window.get(start..start.wrapping_add(load.size as usize));
                text.extend_from_slice(stored.ok_or("stored outside")?)?;
            }
        }
    }
    for k in 0..def.hash_words.min(block.size() / 4) {
        let mut bytes = block.word(k).to_le_bytes();
        if k == def.image_word {
            bytes[3] &= 0x7f;
        }
        text.extend_from_slice(&bytes)?;
    }
    Ok(text)
}

/// The digest of what is covered, by the call and by the whole text.
fn both_digests(
    rt: &impl Abort,
    alloc: Global,
    window: &[u8],
    pool: &mut SectorPool,
    block: &Block,
    def: &Def,
    loads: &Loads,
) -> Result<([u8; 32], [u8; 32]), Fail>
    requires short { length window.now ≤ MOST_FLASH_BYTES }
    requires stored { AreStoredIn (length window.now) loads.now.items }
{
    assert!(rt; def.hash_words <= block.size() / 4);
    assert!(rt; pool.free() == 1);
    let digest = covered_digest(&view_of(window), pool, block, def, loads);
    let text = whole_text(alloc, window, block, def, loads)?;
    Ok((digest, Sha256::digest(text.as_slice())))
}

#[test]
fn the_digest_is_that_of_the_whole_text(rt: HostRuntime) -> Result<(), Fail> {
    let bytes = window(rt.alloc(), &ITEMS)?;
    let window = bytes.as_slice();
    let block = block_in(window)?;
    assert!(rt; has_map(&block));
    assert!(rt; window.len() == 0x4000);
    let loads = read_map(&block, 1, 0x4000).map_err(|_| "a fault")?;
    let mut pool = SectorPool::make(rt.alloc(), 1)?;
    for (hash_words, image_word, first) in [
        (21, 1, [0xa1, 0xfe, 0xae, 0x40]),
        (3, 1, [0x3d, 0x90, 0x50, 0x77]),
        (3, 5, [0x8c, 0x3e, 0x4d, 0xf2]),
        (0, 1, [0x4a, 0x33, 0x99, 0x13]),
    ] {
        let def = def_of(hash_words, image_word);
        let (digest, whole) = both_digests(
            &rt,
            rt.alloc(),
            window,
            &mut pool,
            &block,
            &def,
            &loads,
        )?;
        assert_eq!(rt; &digest[..4], first.as_slice());
        assert_eq!(rt; digest, whole);
    }
    let def = def_of(3, 1);
    let (digest, whole) = both_digests(
        &rt,
        rt.alloc(),
        window,
        &mut pool,
        &block,
        &def,
        &Loads::new(),
    )?;
    assert_eq!(rt; &digest[..4], [0x48, 0x29, 0x67, 0x0e].as_slice());
    assert_eq!(rt; digest, whole);
    assert_eq!(rt; pool.free(), 1);
    Ok(())
}
