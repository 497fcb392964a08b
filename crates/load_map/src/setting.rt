//! What one entry of a load map loads, and whether it may.

ghost use Rattle.std.specs.Prelude.{◌≡◌};
ghost use Rattle.load_map.specs.Addresses.{in_sram};
ghost use Rattle.load_map.specs.Reading.{absolute_load, covers_block, is_runtime_right, is_used_in_place, load_of, offset_within, relative_load};

use crate::addresses::{SRAM_END, SRAM_START};
use crate::entry::Entry;
use crate::load::Load;
use block_codec::Block;

/// Where a load map stands and how its image is to run.
#[derive(Clone, Copy, Debug, PartialEq, Eq)]
pub(crate) struct Setting {
    /// The address at which the first byte of the window is seen; 0x10000000 in flash.
    pub(crate) base: u32,
    /// Whether each entry must be used where it is stored, as in RAM images.
    pub(crate) in_place: bool,
    /// The length of the window.
    pub(crate) len: u32,
    /// The offset in the window of the LOAD_MAP item's first byte.
    pub(crate) item_at: u32,
}

/// The offset in a window of `len` bytes of a range that begins at a signed offset; None where the
/// range leaves the window.
fn offset_within(len: u32, at: i64, size: u32) -> Option<u32>
    ensures { result ≡ offset_within len at size }
{
    let end = i64::from(len);
    if at < 0 {
        return None;
    }
    if at > end || at + i64::from(size) > end {
        return None;
    }
    Some(at as u32)
}

/// The load of a relative entry.
fn relative_load(setting: &Setting, entry: &Entry) -> Option<Load>
    ensures { result ≡ relative_load setting.now entry.now }
{
    let place = i64::from(setting.item_at) + i64::from(entry.place.cast_signed());
    let storage = offset_within(setting.len, place, entry.extent)?;
    Some(Load {
        storage: Some(storage),
        runtime: entry.runtime,
        size: entry.extent,
    })
}

/// The load of an absolute entry.
fn absolute_load(setting: &Setting, entry: &Entry) -> Option<Load>
    ensures { result ≡ absolute_load setting.now entry.now }
{
    let end = u64::from(setting.base) + u64::from(setting.len);
    if entry.place < setting.base || entry.extent < entry.place || u64::from(entry.extent) > end {
        return None;
    }
    Some(Load {
        storage: Some(entry.place - setting.base),
        runtime: entry.runtime,
        size: entry.extent - entry.place,
    })
}

/// The load of an entry; None where its storage is outside the window or ends before it starts.
pub(crate) fn load_of(setting: &Setting, absolute: bool, entry: &Entry) -> Option<Load>
    ensures { result ≡ load_of setting.now absolute entry.now }
{
    if entry.place == 0 {
        Some(Load {
            storage: None,
            runtime: entry.runtime,
            size: entry.extent,
        })
    } else if absolute {
        absolute_load(setting, entry)
    } else {
        relative_load(setting, entry)
    }
}

/// Whether the load is used where it is stored.
fn is_used_in_place(base: u32, load: &Load) -> bool
    ensures { result ≡ is_used_in_place base load.now.storage load.now.runtime }
{
    match load.storage {
        None => false,
        Some(storage) => u64::from(load.runtime) == u64::from(base) + u64::from(storage),
    }
}

/// Whether a range lies wholly in SRAM.
fn in_sram(address: u32, size: u32) -> bool
    ensures { result ≡ in_sram address size }
{
    SRAM_START <= address && u64::from(address) + u64::from(size) <= u64::from(SRAM_END)
}

/// Whether the load is used where it is stored or, where others are allowed, lies in SRAM.
pub(crate) fn is_runtime_right(setting: &Setting, load: &Load) -> bool
    ensures { result ≡ is_runtime_right setting.now load.now }
{
    is_used_in_place(setting.base, load) || (!setting.in_place && in_sram(load.runtime, load.size))
}

/// Whether the load's storage shares a byte with the block.
pub(crate) fn covers_block(block: &Block, load: &Load) -> bool
    ensures { result ≡ covers_block block.now load.now.storage load.now.size }
{
    match load.storage {
        None => false,
        Some(storage) => {
            let end = u64::from(storage) + u64::from(load.size);
            let block_end = block.at() + block.size();
            u64::from(storage.max(block.at())) < end.min(u64::from(block_end))
        }
    }
}
