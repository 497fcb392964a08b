//! Reading a load map.

ghost use Rattle.std.specs.Prelude.{◌≡◌, ◌≤◌, false, None, Some, IfOk, IfErr, IsTrue, Contains, length, slice_get};
ghost use Rattle.pico_board.specs.Content.{flash_base};
ghost use Rattle.block_codec.specs.Blocks.{block_words};
ghost use Rattle.block_codec.specs.Items.{items_of};
ghost use Rattle.block_codec.specs.declared.items.Item.{Item};
ghost use Rattle.load_map.specs.Loads.{IsMapAt, entries_of, entry_count, is_absolute, is_load_map};
ghost use Rattle.load_map.specs.Reading.{load_fault, loads_answered, loads_of, loads_or_fault};
ghost use Rattle.load_map.specs.Stored.{AreStoredIn};

use crate::entry::{entry_count, entry_in, is_absolute};
use crate::load::{Load, Loads, MapFault};
use crate::setting::{Setting, covers_block, is_runtime_right, load_of};
use block_codec::{Block, Item};
use pico_board::FLASH_BASE;

/// The load of the entry at place `i`, or the first rule that it breaks.
fn judged(setting: &Setting, block: &Block, i: u32, load: Option<Load>) -> Result<Load, MapFault>
    ensures ok { IfOk result (λ right. load ≡ Some right) }
    ensures sound { IfOk result (λ right. load_fault setting.now block.now i load ≡ None) }
    ensures err { IfErr result (λ fault. load_fault setting.now block.now i load ≡ Some fault) }
{
    let load = match load {
        None => return Err(MapFault::Storage(i)),
        Some(load) => load,
    };
    if !is_runtime_right(setting, &load) {
        Err(MapFault::Runtime(i))
    } else if covers_block(block, &load) {
        Err(MapFault::CoversBlock(i))
    } else {
        Ok(load)
    }
}

/// The loads of a LOAD_MAP item of the block, or the first fault.
fn read_entries(setting: &Setting, block: &Block, item: &Item) -> Result<Loads, MapFault>
    requires of_block { Contains (items_of block.now.items) item.now }
    requires map { IsTrue (is_load_map item.now) }
    requires few { entry_count item.now ≤ 51 }
    ensures { loads_answered result ≡ loads_or_fault setting.now block.now (is_absolute item.now)
        (entries_of (block_words block.now) item.now) }
{
    let absolute = is_absolute(item);
    let mut loads = Loads::new();
    for i in 0..entry_count(item) {
        let entry = entry_in(block, item, i);
        let load = judged(setting, block, i, load_of(setting, absolute, &entry))?;
        loads.push(load);
    }
    Ok(loads)
}

/// The loads of the LOAD_MAP item at place `item` of the block, or the first fault. The window has
/// `window_len` bytes, and its first byte is seen at the address `base`. Where `in_place` is true
/// each entry must be used where it is stored, as in RAM images.
pub fn read_map_at(
    block: &Block,
    item: u32,
    window_len: u32,
    base: u32,
    in_place: bool,
) -> Result<Loads, MapFault>
    requires map { IsMapAt block.now item }
    ensures exact { (map : Item) → slice_get (items_of block.now.items) item ≡ Some map
        → loads_answered result ≡ loads_of base in_place window_len block.now map }
    ensures stored { IfOk result (λ loads. AreStoredIn window_len loads.items) }
    ensures few { IfOk result (λ loads. length loads.items ≤ 51) }
{
    let map = block.item(item);
    let setting = Setting {
        base,
        in_place,
        len: window_len,
        item_at: block.at() + 4 * map.first,
    };
    read_entries(&setting, block, &map)
}

/// The loads of the LOAD_MAP item at place `item` of the block, in a window of `window_len` bytes
/// in flash, or the first fault.
pub fn read_map(block: &Block, item: u32, window_len: u32) -> Result<Loads, MapFault>
    requires map { IsMapAt block.now item }
    ensures exact { (map : Item) → slice_get (items_of block.now.items) item ≡ Some map
        → loads_answered result ≡ loads_of flash_base false window_len block.now map }
    ensures stored { IfOk result (λ loads. AreStoredIn window_len loads.items) }
    ensures few { IfOk result (λ loads. length loads.items ≤ 51) }
{
    read_map_at(block, item, window_len, FLASH_BASE, false)
}
