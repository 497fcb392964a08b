//! The items of the new block of a sealed image.

ghost use Rattle.std.specs.Prelude.{◌≡◌, ◌+◌, ◌*◌, ◌<◌, ◌≤◌, ◌∷◌, ◌++◌, length, IfSome};
ghost use Rattle.pico_board.specs.declared.window.TheConstants.{MOST_FLASH_BYTES};
ghost use Rattle.std.specs.List.{flat_map};
ghost use Rattle.block_codec.specs.Kinds.{version_words};
ghost use Rattle.load_map.specs.Addresses.{in_sram};
ghost use Rattle.load_map.specs.Stored.{AreStoredIn};
ghost use Rattle.part_table.specs.Written.{header};
ghost use Rattle.image_pack.specs.Sealing.{entry_words, front_items, image_type_word, own_load, own_loads, packed, place_word, row_halves, version_item, with_map};

use crate::spec::SealSpec;
use arrayvec::ArrayVec;
use block_codec::kinds::{HASH_DEF, IMAGE_TYPE, LOAD_MAP, VERSION};
use load_map::{Load, SRAM_END, SRAM_START};
use pico_board::{Cpu, FLASH_BASE};

/// The item words of a new block: at most one of IMAGE_TYPE, 19 of VERSION, 156 copied ones, 157
/// of LOAD_MAP, 2 of HASH_DEF, and 9 of HASH_VALUE.
pub(crate) type Words = ArrayVec<u32, 344>;

/// The loads of a new block: the image in place, and those of the binary's map.
pub(crate) type OwnLoads = ArrayVec<Load, 52>;

/// The header of an item with a size of one byte.
pub(crate) fn header(kind: u8, size: u32, high: u32) -> u32
    requires size { size < 256 }
    requires high { high < 256 }
    ensures { result ≡ header kind size high }
{
    u32::from(kind) + 256 * size + 16777216 * high
}

/// The IMAGE_TYPE item.
fn image_type_word(cpu: Cpu, trial: bool) -> u32
    ensures { result ≡ image_type_word cpu trial }
{
    let flags = match cpu {
        Cpu::Arm => 0x1021,
        Cpu::Riscv => 0x1101,
    };
    let trial_bit = if trial { 0x8000_0000 } else { 0 };
    u32::from(IMAGE_TYPE) + 256 + 65536 * flags + trial_bit
}

/// The rollback version and the rows of a VERSION item; none of them without rows.
fn row_halves(spec: &SealSpec) -> ArrayVec<u16, 33>
    ensures value { result.items ≡ row_halves spec.now.rollback spec.now.rows.items }
    ensures few { length result.items ≤ 33 }
{
    let mut halves = ArrayVec::new();
    if !spec.rows.is_empty() {
        halves.push(spec.rollback.unwrap_or(0));
        halves.try_extend_from_slice(spec.rows.as_slice()).unwrap();
    }
    halves
}

/// Appends half words, two in each word.
fn put_halves(words: &mut Words, halves: &[u16])
    requires { length words.old.items + length halves.now ≤ 344 }
    ensures items { words.new.items ≡ words.old.items ++ packed halves.now }
    ensures few { 2 * length words.new.items ≤ 2 * length words.old.items + length halves.now + 1 }
{
    match halves {
        [] => {}
        [low] => words.push(u32::from(*low)),
        [low, high, rest @ ..] => {
            words.push(u32::from(*low) + 65536 * u32::from(*high));
            put_halves(words, rest);
        }
    }
}

/// The size in words of a VERSION item with this many rows.
fn version_words(rows: u32) -> u32
    requires { rows ≤ 32 }
    ensures value { result ≡ version_words rows }
    ensures few { result ≤ 19 }
{
    if rows == 0 { 2 } else { 2 + (rows + 2) / 2 }
}

/// Appends the VERSION item.
fn put_version(words: &mut Words, spec: &SealSpec)
    requires { length words.old.items ≤ 1 }
    ensures items { words.new.items
        ≡ words.old.items ++ version_item spec.now.version spec.now.rollback spec.now.rows.items }
    ensures few { length words.new.items ≤ length words.old.items + 19 }
{
    let rows = spec.rows.len() as u32;
    words.push(header(VERSION, version_words(rows), rows));
    words.push(u32::from(spec.version.minor) + 65536 * u32::from(spec.version.major));
    put_halves(words, row_halves(spec).as_slice());
}

/// The items before the LOAD_MAP item.
pub(crate) fn front_items(spec: &SealSpec, trial: bool, entry: &[u32]) -> Words
    requires { length entry.now ≤ 156 }
    ensures value { result.items ≡ front_items spec.now trial entry.now }
    ensures few { length result.items ≤ 176 }
{
    let mut words = Words::new();
    words.push(image_type_word(spec.cpu, trial));
    put_version(&mut words, spec);
    words.try_extend_from_slice(entry).unwrap();
    words
}

/// Whether a load goes into SRAM as a whole.
fn is_in_sram(load: &Load) -> bool
    ensures { result ≡ in_sram load.now.runtime load.now.size }
{
    let (first, size) = (u64::from(load.runtime), u64::from(load.size));
    first >= u64::from(SRAM_START) && first + size <= u64::from(SRAM_END)
}

/// A load as the new map has it; the map's item stands at this offset.
fn own_load(at: u32, load: &Load) -> Load
    ensures { result ≡ own_load at load.now }
{
    let storage = match load.storage {
        Some(x) if x != at => Some(x),
        _ => None,
    };
    Load {
        storage,
        runtime: load.runtime,
        size: load.size,
    }
}

/// The loads of a new block after `size` bytes, whose LOAD_MAP item stands at `at`.
pub(crate) fn own_loads(size: u32, at: u32, loads: &[Load]) -> OwnLoads
    requires size { size ≤ MOST_FLASH_BYTES }
    requires few { length loads.now ≤ 51 }
    requires stored { AreStoredIn MOST_FLASH_BYTES loads.now }
    ensures value { result.items ≡ own_loads size at loads.now }
    ensures few { length result.items ≤ 52 }
    ensures stored { AreStoredIn MOST_FLASH_BYTES result.items }
{
    let mut own = OwnLoads::new();
    own.push(Load {
        storage: Some(0),
        runtime: FLASH_BASE,
        size,
    });
    for load in loads {
        if is_in_sram(load) {
            own.push(own_load(at, load));
        }
    }
    own
}

/// The first word of a relative entry of a LOAD_MAP item at this offset.
fn place_word(at: u32, storage: Option<u32>) -> u32
    requires at { at ≤ 16778000 }
    requires stored { IfSome storage (λ x. x ≤ MOST_FLASH_BYTES) }
    ensures { result ≡ place_word at storage }
{
    match storage {
        None => 0,
        Some(x) => (x as i32 - at as i32).cast_unsigned(),
    }
}

/// Appends the entries of a LOAD_MAP item at this offset.
fn put_entries(words: &mut Words, at: u32, loads: &[Load])
    requires at { at ≤ 16778000 }
    requires room { length words.old.items + 3 * length loads.now ≤ 344 }
    requires stored { AreStoredIn MOST_FLASH_BYTES loads.now }
    ensures items { words.new.items ≡ words.old.items ++ flat_map (entry_words at) loads.now }
    ensures len { length words.new.items ≡ length words.old.items + 3 * length loads.now }
{
    for load in loads {
        words.push(place_word(at, load.storage));
        words.push(load.runtime);
        words.push(load.size);
    }
}

/// The items before the HASH_VALUE item of a new block after `size` bytes: the front ones, and
/// LOAD_MAP and HASH_DEF.
pub(crate) fn with_map(size: u32, front: &[u32], own: &[Load]) -> Words
    requires size { size ≤ MOST_FLASH_BYTES }
    requires front { length front.now ≤ 176 }
    requires few { length own.now ≤ 52 }
    requires stored { AreStoredIn MOST_FLASH_BYTES own.now }
    ensures value { result.items ≡ with_map size front.now own.now }
    ensures few { length result.items ≤ 335 }
{
    let at = size + 4 * (1 + front.len() as u32);
    let count = own.len() as u32;
    let mut words = Words::new();
    words.try_extend_from_slice(front).unwrap();
    words.push(header(LOAD_MAP, 1 + 3 * count, count));
    put_entries(&mut words, at, own);
    let hashed = words.len() as u32 + 3;
    words.push(header(HASH_DEF, 2, 1));
    words.push(hashed);
    words
}
