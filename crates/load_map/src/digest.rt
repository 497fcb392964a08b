//! The digest of what an image covers, piece by piece.

ghost use Rattle.std.specs.Prelude.{◌≡◌, ℕ, List, ◌+◌, ◌<◌, ◌≤◌, ◌++◌, length, take, slice_index, slice_range};
ghost use Rattle.std.specs.List.{flat_map};
ghost use Rattle.sha2.specs.Hashers.{Holds256};
ghost use Rattle.sector_pool.specs.Keeping.{KeepsOut};
ghost use Rattle.sector_pool.specs.Pool.{HasFree};
ghost use Rattle.block_codec.specs.Blocks.{block_words};
ghost use Rattle.block_codec.specs.Words.{bytes_of};
ghost use Rattle.load_map.specs.Covered.{covered_digest, covered_load, covered_piece, masked_words};
ghost use Rattle.load_map.specs.Stored.{AreStoredIn, IsStoredIn};

use crate::load::{Load, Loads};
use block_codec::{Block, Def};
use pico_board::View;
use sector_pool::SectorPool;
use sha2::{Digest, Sha256};

/// Feeds a range of the view to the hasher, in pieces as long as `piece` or shorter.
fn add_range<V: View>(hasher: &mut Sha256, view: &V, piece: &mut [u8], start: u32, size: u32)
    requires some { 0 < length piece.old }
    requires few { length piece.old ≤ 4096 }
    requires inside { start + size ≤ length (V.bytes view.now) }
    ensures { (m : List ℕ) → Holds256 hasher.old m
        → Holds256 hasher.new (m ++ slice_range (V.bytes view.now) start (start + size)) }
{
    let mut done = 0;
    while done < size {
        let count = (size - done).min(piece.len() as u32);
        let part = &mut piece[..count as usize];
        view.read(start + done, part);
        hasher.update(&*part);
        done += count;
    }
}

/// Feeds what a load covers to the hasher.
#[tactic(auto, unfolding(block_codec::specs::Words::word_bytes))]
fn add_load<V: View>(hasher: &mut Sha256, view: &V, piece: &mut [u8], load: &Load)
    requires some { 0 < length piece.old }
    requires few { length piece.old ≤ 4096 }
    requires stored { IsStoredIn (length (V.bytes view.now)) load.now.storage load.now.size }
    ensures { (m : List ℕ) → Holds256 hasher.old m
        → Holds256 hasher.new (m ++ covered_load (V.bytes view.now) load.now) }
{
    match load.storage {
        None => hasher.update(&load.size.to_le_bytes()),
        Some(storage) => add_range(hasher, view, piece, storage, load.size),
    }
}

/// Feeds what the loads cover to the hasher, in order.
fn add_loads<V: View>(hasher: &mut Sha256, view: &V, piece: &mut [u8], loads: &[Load])
    requires some { 0 < length piece.old }
    requires few { length piece.old ≤ 4096 }
    requires stored { AreStoredIn (length (V.bytes view.now)) loads.now }
    ensures { (m : List ℕ) → Holds256 hasher.old m
        → Holds256 hasher.new (m ++ flat_map (covered_load (V.bytes view.now)) loads.now) }
{
    for load in loads {
        add_load(hasher, view, piece, load);
    }
}

/// A word of the block, with the trial bit read as 0 where it is the IMAGE_TYPE word.
fn masked_word(block: &Block, image_word: u32, k: u32) -> u32
    requires { k < length block.now.items + 4 }
    ensures { result ≡ slice_index (masked_words (block_words block.now) image_word) k }
{
    let word = block.word(k);
    if k == image_word {
        word & 0x7fff_ffff
    } else {
        word
    }
}

/// Feeds the first words of the block to the hasher, with the trial bit read as 0.
#[tactic(auto, unfolding(block_codec::specs::Words::word_bytes))]
fn add_words(hasher: &mut Sha256, block: &Block, image_word: u32, count: u32)
    requires { count ≤ length block.now.items + 4 }
    ensures { (m : List ℕ) → Holds256 hasher.old m
        → Holds256 hasher.new (m ++ bytes_of (take count
        (masked_words (block_words block.now) image_word))) }
{
    for k in 0..count {
        let word = masked_word(block, image_word, k);
        hasher.update(&word.to_le_bytes());
    }
}

/// The digest of the covered bytes, of which the storage bytes stream through `piece`.
#[tactic(auto, unfolding(crate::specs::Covered::covered_digest))]
fn digest_through<V: View>(
    view: &V,
    piece: &mut [u8],
    block: &Block,
    def: &Def,
    loads: &Loads,
) -> [u8; 32]
    requires some { 0 < length piece.old }
    requires few { length piece.old ≤ 4096 }
    requires stored { AreStoredIn (length (V.bytes view.now)) loads.now.items }
    requires hashed { def.now.hash_words ≤ length block.now.items + 4 }
    ensures { result ≡ covered_digest (V.bytes view.now) block.now def.now loads.now.items }
{
    let mut hasher = Sha256::new();
    add_loads(&mut hasher, view, piece, loads.as_slice());
    add_words(&mut hasher, block, def.image_word, def.hash_words);
    hasher.finalize()
}

/// The SHA-256 of the bytes that an image's digest covers. First come the loads in order: of each
/// its storage bytes, or its size where it is a clear entry. Then come the first words of the
/// definition's block, as many as are hashed, with the trial bit read as 0. An image without a
/// load map has no loads.
///
/// The storage bytes alone stream through one free sector of the pool, and no memory is taken.
pub fn covered_digest<V: View>(
    view: &V,
    pool: &mut SectorPool,
    block: &Block,
    def: &Def,
    loads: &Loads,
) -> [u8; 32]
    requires free { HasFree pool.old }
    requires stored { AreStoredIn (length (V.bytes view.now)) loads.now.items }
    requires hashed { def.now.hash_words ≤ length block.now.items + 4 }
    ensures digest { result ≡ covered_digest (V.bytes view.now) block.now def.now loads.now.items }
    ensures kept { KeepsOut pool.old pool.new }
{
    match pool.lease() {
        None => unreachable!(),
        Some(lease) => {
            let digest = digest_through(view, pool.bytes_mut(&lease), block, def, loads);
            pool.give_back(lease);
            digest
        }
    }
}
