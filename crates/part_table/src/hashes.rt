//! The hash of a table's block.

ghost use Rattle.std.specs.Prelude.{◌≡◌, ◌≤◌, ◌++◌, ℕ, List, length, take, IfOk, IfSome};
ghost use Rattle.block_codec.specs.Blocks.{block_words};
ghost use Rattle.block_codec.specs.Items.{items_of};
ghost use Rattle.block_codec.specs.Words.{bytes_of};
ghost use Rattle.sha2.specs.Sha256.{sha256};
ghost use Rattle.part_table.specs.Contents.{has_bad_hash, stated_hash, is_wrong_hash, ok_unless_bad};

use crate::TableFault;
use crate::items::{is_misplaced_digest, read_digest, read_hash_count};
use block_codec::Block;
use sha2::{Digest, Sha256};

/// The hash that a block states: a digest, and how many of the block's words it is of.
#[derive(Clone, Copy)]
pub(crate) struct StatedHash {
    /// The number of words, from the start word on.
    pub(crate) words: u32,
    /// The digest that these words are to have.
    pub(crate) digest: [u8; 32],
}

/// The hash that the block states, if it states one.
pub(crate) fn read_hash(block: &Block) -> Result<Option<StatedHash>, TableFault>
    ensures value { let words = block_words block.now in
        let items = items_of block.now.items in
        result ≡ ok_unless_bad (has_bad_hash words items) (stated_hash words items) }
    ensures inside { IfOk result
        (λ o. IfSome o (λ hash. hash.words ≤ length (block_words block.now))) }
{
    let count = read_hash_count(block)?;
    let digest = read_digest(block)?;
    if is_misplaced_digest(block, count) {
        return Err(TableFault::BadItem);
    }
    match digest {
        Some(digest) => Ok(Some(StatedHash {
            words: count.unwrap_or(0),
            digest,
        })),
        None => Ok(None),
    }
}

/// The digest of the first words of a block.
fn digest_of_words(block: &Block, count: u32) -> [u8; 32]
    requires { count ≤ length (block_words block.now) }
    ensures { result ≡ sha256 (bytes_of (take count (block_words block.now))) }
{
    let mut hasher = Sha256::new();
    for k in 0..count {
        hasher.update(block.word(k).to_le_bytes().as_slice());
    }
    hasher.finalize()
}

/// Whether the block's words have another digest than the stated one.
pub(crate) fn is_wrong_hash(block: &Block, hash: &StatedHash) -> bool
    requires { hash.now.words ≤ length (block_words block.now) }
    ensures { result ≡ is_wrong_hash (block_words block.now) hash.now }
{
    hash.digest != digest_of_words(block, hash.words)
}
