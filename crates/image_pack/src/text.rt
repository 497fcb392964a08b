//! The text of a sealed image.

ghost use Rattle.std.specs.Prelude.{◌≡◌, ℕ, List, ◌+◌, ◌*◌, ◌/◌, ◌<◌, ◌≤◌, ◌∷◌, ◌++◌, IfOk, IfSome, OnOk, length, pos, ◌-ℤ◌, replicate, Some, None};
ghost use Rattle.pico_board.specs.declared.window.TheConstants.{MOST_FLASH_BYTES};
ghost use Rattle.std.specs.List.{flat_map};
ghost use Rattle.sha2.specs.Hashers.{Holds256};
ghost use Rattle.sha2.specs.Sha256.{sha256};
ghost use Rattle.block_codec.specs.Blocks.{frame, start_word};
ghost use Rattle.block_codec.specs.Words.{bytes_of, words_of};
ghost use Rattle.load_map.specs.Stored.{AreStoredIn, IsStoredIn};
ghost use Rattle.image_pack.specs.Filling.{whole_sectors, whole_words};
ghost use Rattle.std.specs.Result.{result_ok};
ghost use Rattle.image_pack.specs.Sealing.{block_items, block_link, covered_part, erased_behind, hashed_items, items_with, new_block, parts_in, relinked, sealed_items, sealed_text};
ghost use Rattle.image_pack.specs.Within.{IsWithin};

use crate::filling::whole_words;
use crate::items::{Words, front_items, header, own_loads, with_map};
use crate::parts::{Parts, binary_parts};
use crate::spec::SealSpec;
use block_codec::kinds::HASH_VALUE;
use block_codec::{END, LAST, START};
use byteorder::{ByteOrder, LittleEndian};
use load_map::Load;
use sha2::{Digest, Sha256};
use std::alloc::{AllocError, Global};

/// Feeds so many bytes 0xff to the hasher.
fn add_erased(hasher: &mut Sha256, count: usize)
    ensures { (m : List ℕ) → Holds256 hasher.old m
        → Holds256 hasher.new (m ++ replicate count 255) }
{
    for _i in 0..count {
        hasher.update(&[0xff]);
    }
}

/// Feeds a range of the bytes, and of erased ones after them, to the hasher.
fn add_range(hasher: &mut Sha256, bytes: &[u8], start: usize, size: usize)
    ensures { (m : List ℕ) → Holds256 hasher.old m
        → Holds256 hasher.new (m ++ erased_behind bytes.now start size) }
{
    let from = start.min(bytes.len());
    let count = size.min(bytes.len() - from);
    hasher.update(&bytes[from..from + count]);
    add_erased(hasher, size - count);
}

/// Feeds what the digest covers of a load to the hasher.
#[tactic(auto, unfolding(block_codec::specs::Words::word_bytes))]
fn add_load(hasher: &mut Sha256, bytes: &[u8], load: &Load)
    ensures { (m : List ℕ) → Holds256 hasher.old m
        → Holds256 hasher.new (m ++ covered_part bytes.now load.now) }
{
    match load.storage {
        None => hasher.update(&load.size.to_le_bytes()),
        Some(storage) => add_range(hasher, bytes, storage as usize, load.size as usize),
    }
}

/// Feeds what the digest covers of the loads to the hasher, in order.
fn add_loads(hasher: &mut Sha256, bytes: &[u8], loads: &[Load])
    ensures { (m : List ℕ) → Holds256 hasher.old m
        → Holds256 hasher.new (m ++ flat_map (covered_part bytes.now) loads.now) }
{
    for load in loads {
        add_load(hasher, bytes, load);
    }
}

/// Feeds words to the hasher.
#[tactic(auto, unfolding(block_codec::specs::Words::word_bytes))]
fn add_words(hasher: &mut Sha256, words: &[u32])
    ensures { (m : List ℕ) → Holds256 hasher.old m → Holds256 hasher.new (m ++ bytes_of words.now) }
{
    for word in words {
        hasher.update(&word.to_le_bytes());
    }
}

/// The digest of what the loads cover and of the start word and these words.
fn digest(bytes: &[u8], own: &[Load], words: &[u32]) -> [u8; 32]
    ensures { result ≡ sha256
        (flat_map (covered_part bytes.now) own.now ++ bytes_of (start_word ∷ words.now)) }
{
    let mut hasher = Sha256::new();
    add_loads(&mut hasher, bytes, own);
    add_words(&mut hasher, &[START]);
    add_words(&mut hasher, words);
    hasher.finalize()
}

/// Appends the words of these bytes.
fn put_bytes(words: &mut Words, bytes: &[u8])
    requires { length words.old.items + length bytes.now / 4 ≤ 344 }
    ensures items { words.new.items ≡ words.old.items ++ words_of bytes.now }
    ensures len { length words.new.items ≡ length words.old.items + length bytes.now / 4 }
{
    for k in 0..bytes.len() / 4 {
        words.push(LittleEndian::read_u32(&bytes[4 * k..]));
    }
}

/// The item words before the HASH_VALUE item, with this trial bit.
#[tactic(auto, unfolding(crate::specs::Sealing::hashed_items))]
fn hashed_items(spec: &SealSpec, trial: bool, size: u32, entry: &[u32], own: &[Load]) -> Words
    requires size { size ≤ MOST_FLASH_BYTES }
    requires entry { length entry.now ≤ 156 }
    requires few { length own.now ≤ 52 }
    requires stored { AreStoredIn MOST_FLASH_BYTES own.now }
    ensures value { result.items ≡ hashed_items spec.now trial size entry.now own.now }
    ensures few { length result.items ≤ 335 }
{
    with_map(size, front_items(spec, trial, entry).as_slice(), own)
}

/// The item words of a new block after these bytes with these own loads.
fn items_with(spec: &SealSpec, bytes: &[u8], entry: &[u32], own: &[Load]) -> Words
    requires size { length bytes.now ≤ MOST_FLASH_BYTES }
    requires entry { length entry.now ≤ 156 }
    requires few { length own.now ≤ 52 }
    requires stored { AreStoredIn MOST_FLASH_BYTES own.now }
    ensures value { result.items ≡ items_with spec.now bytes.now entry.now own.now }
    ensures few { length result.items ≤ 344 }
{
    let size = bytes.len() as u32;
    let mut words = hashed_items(spec, spec.trial, size, entry, own);
    let untried = hashed_items(spec, false, size, entry, own);
    let value = digest(bytes, own, untried.as_slice());
    words.push(header(HASH_VALUE, 9, 0));
    put_bytes(&mut words, &value);
    words
}

/// The item words of the new block after these bytes.
#[tactic(auto, unfolding(crate::specs::Sealing::sealed_items))]
fn sealed_items(spec: &SealSpec, bytes: &[u8], entry: &[u32], loads: &[Load]) -> Words
    requires size { length bytes.now ≤ MOST_FLASH_BYTES }
    requires entry { length entry.now ≤ 156 }
    requires few { length loads.now ≤ 51 }
    requires stored { AreStoredIn MOST_FLASH_BYTES loads.now }
    ensures value { result.items ≡ sealed_items spec.now bytes.now entry.now loads.now }
    ensures few { length result.items ≤ 344 }
{
    let size = bytes.len() as u32;
    let front = front_items(spec, spec.trial, entry).len() as u32;
    let own = own_loads(size, size + 4 * (1 + front), loads);
    items_with(spec, bytes, entry, own.as_slice())
}

/// The item words of the new block after these bytes, of a binary with these parts.
fn block_items(spec: &SealSpec, bytes: &[u8], parts: &Option<Parts>) -> Words
    requires size { length bytes.now ≤ MOST_FLASH_BYTES }
    requires within { IfSome parts.now (λ p. IsWithin p (length bytes.now)) }
    ensures value { result.items ≡ block_items spec.now bytes.now parts.now }
    ensures few { length result.items ≤ 344 }
{
    match parts {
        None => sealed_items(spec, bytes, &[], &[]),
        Some(parts) => { sealed_items(spec, bytes, parts.entry.as_slice(), parts.loads.as_slice()) }
    }
}

/// The link of the new block at this offset.
fn block_link(at: u32, parts: &Option<Parts>) -> i32
    requires small { at ≤ MOST_FLASH_BYTES }
    requires within { IfSome parts.now (λ p. IsWithin p at) }
    ensures { result ≡ block_link at parts.now }
{
    match parts {
        None => 0,
        Some(parts) => parts.first as i32 - at as i32,
    }
}

/// Appends the bytes of words.
#[tactic(auto, unfolding(block_codec::specs::Words::word_bytes))]
fn put_words(out: &mut Vec<u8>, words: &[u32]) -> Result<(), AllocError>
    ensures items { OnOk result (out.new.items ≡ out.old.items ++ bytes_of words.now) }
    ensures len { OnOk result
        (length out.new.items ≡ length out.old.items + 4 * length words.now) }
{
    for word in words {
        out.extend_from_slice(&word.to_le_bytes())?;
    }
    Ok(())
}

/// Appends the block of these item words and this link.
#[tactic(auto, unfolding(block_codec::specs::Blocks::frame))]
fn put_frame(out: &mut Vec<u8>, items: &[u32], link: i32) -> Result<(), AllocError>
    requires { length items.now ≤ 344 }
    ensures items { OnOk result
        (out.new.items ≡ out.old.items ++ bytes_of (frame items.now link)) }
    ensures len { OnOk result
        (length out.new.items ≡ length out.old.items + (4 * length items.now + 16)) }
{
    put_words(out, &[START])?;
    put_words(out, items)?;
    put_words(
        out,
        &[LAST + 256 * items.len() as u32, link.cast_unsigned(), END],
    )
}

/// Appends the new block of a binary with these parts.
fn append_block(
    text: &mut Vec<u8>,
    spec: &SealSpec,
    parts: &Option<Parts>,
) -> Result<(), AllocError>
    requires size { length text.old.items ≤ MOST_FLASH_BYTES }
    requires within { IfSome parts.now (λ p. IsWithin p (length text.old.items)) }
    ensures items { OnOk result (text.new.items
        ≡ text.old.items ++ new_block spec.now text.old.items parts.now) }
    ensures few { OnOk result (length text.new.items ≤ length text.old.items + 1392) }
{
    let items = block_items(spec, text.as_slice(), parts);
    let link = block_link(text.len() as u32, parts);
    put_frame(text, items.as_slice(), link)
}

/// Links the last block of the loop of a binary in whole words to their end. A binary without
/// parts stays as it is.
#[tactic(auto, unfolding(crate::specs::Sealing::relinked, block_codec::specs::Words::word_bytes))]
fn relink(bytes: &mut [u8], parts: &Option<Parts>)
    requires size { length bytes.old ≤ MOST_FLASH_BYTES }
    requires within { IfSome parts.now (λ p. IsWithin p (length bytes.old)) }
    ensures { bytes.new ≡ relinked bytes.old parts.now }
{
    if let Some(parts) = parts {
        let at = parts.link_at as usize;
        let link = bytes.len() as u32 - parts.last;
        bytes[at..at + 4].copy_from_slice(&link.to_le_bytes());
    }
}

/// The sealed image of a binary with these parts by a spec. It judges nothing: a binary without
/// parts is not relinked, and its new block links to itself.
#[tactic(auto, unfolding(crate::specs::Sealing::sealed_text))]
pub(crate) fn text_with(
    alloc: Global,
    binary: &[u8],
    spec: &SealSpec,
    parts: &Option<Parts>,
) -> Result<Vec<u8>, AllocError>
    requires small { length binary.now ≤ MOST_FLASH_BYTES }
    requires read { parts.now ≡ result_ok (parts_in spec.now.cpu (whole_sectors binary.now)) }
    requires within { IfSome parts.now (λ p. IsWithin p (length (whole_words binary.now))) }
    ensures value { IfOk result (λ text. text.items ≡ sealed_text binary.now spec.now) }
    ensures few { IfOk result (λ text. length text.items ≤ length binary.now + 1395) }
{
    let mut text = whole_words(alloc, binary)?;
    relink(text.as_mut_slice(), parts);
    append_block(&mut text, spec, parts)?;
    Ok(text)
}

/// The sealed image of a binary by a spec, in a list of its own. It judges nothing: a binary that
/// cannot be sealed keeps its links, and its new block links to itself.
pub fn sealed_text(alloc: Global, binary: &[u8], spec: &SealSpec) -> Result<Vec<u8>, AllocError>
    requires { length binary.now ≤ MOST_FLASH_BYTES }
    ensures value { IfOk result (λ text. text.items ≡ sealed_text binary.now spec.now) }
    ensures few { IfOk result (λ text. length text.items ≤ length binary.now + 1395) }
{
    let parts = binary_parts(alloc, binary, spec.cpu)?.ok();
    text_with(alloc, binary, spec, &parts)
}
