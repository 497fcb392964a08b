//! The bytes that are given at addresses after a load map was obeyed.

ghost use Rattle.std.specs.Prelude.{◌≡◌, ℕ, ◌<◌, IsTrue, length, slice_index, find, reverse, IfSome};
ghost use Rattle.pico_board.specs.Content.{flash_base};
ghost use Rattle.load_map.specs.Addresses.{is_sram};
ghost use Rattle.load_map.specs.Given.{byte_at, load_has_address, in_window, loaded_byte, given_word};
ghost use Rattle.load_map.specs.Stored.{AreStoredIn, IsStoredIn};

use crate::addresses::{SRAM_END, SRAM_START};
use crate::load::{Load, Loads};
use byteorder::{ByteOrder, LittleEndian};
use pico_board::{FLASH_BASE, View};

/// Whether the address is one of SRAM.
fn is_sram(address: u64) -> bool
    ensures { result ≡ is_sram address }
{
    u64::from(SRAM_START) <= address && address < u64::from(SRAM_END)
}

/// Whether the runtime range of the load holds the address.
fn load_has_address(load: &Load, address: u64) -> bool
    ensures { result ≡ load_has_address address load.now }
{
    let start = u64::from(load.runtime);
    start <= address && address < start + u64::from(load.size)
}

/// The last of the loads whose runtime range holds the address.
fn last_holding(loads: &[Load], address: u64) -> Option<Load>
    ensures last { result ≡ find (load_has_address address) (reverse loads.now) }
    ensures held { IfSome result (λ load. IsTrue (load_has_address address load)) }
    ensures stored { (n : ℕ) → AreStoredIn n loads.now
        → IfSome result (λ load. IsStoredIn n load.storage load.size) }
{
    let mut last = None;
    for load in loads {
        if load_has_address(load, address) {
            last = Some(*load);
        }
    }
    last
}

/// The byte of the view at this place.
fn view_byte<V: View>(view: &V, at: u32) -> u8
    requires { at < length (V.bytes view.now) }
    ensures { result ≡ slice_index (V.bytes view.now) at }
{
    let mut byte = [0u8; 1];
    view.read(at, &mut byte);
    byte[0]
}

/// The byte that the load gives at an address of its runtime range.
fn loaded_byte<V: View>(view: &V, load: &Load, address: u64) -> u8
    requires stored { IsStoredIn (length (V.bytes view.now)) load.now.storage load.now.size }
    requires held { IsTrue (load_has_address address load.now) }
    ensures { result ≡ loaded_byte (V.bytes view.now) address load.now }
{
    match load.storage {
        None => 0,
        Some(storage) => view_byte(view, storage + (address - u64::from(load.runtime)) as u32),
    }
}

/// The byte at an address, where one is given.
fn byte_at<V: View>(view: &V, loads: &[Load], base: u32, address: u64) -> Option<u8>
    requires stored { AreStoredIn (length (V.bytes view.now)) loads.now }
    ensures { result ≡ byte_at base (V.bytes view.now) loads.now address }
{
    let start = u64::from(base);
    if start <= address && address < start + u64::from(view.len()) {
        return Some(view_byte(view, (address - start) as u32));
    }
    if !is_sram(address) {
        return None;
    }
    let load = last_holding(loads, address)?;
    Some(loaded_byte(view, &load, address))
}

/// The little-endian word at an address, after the window's load map was obeyed. The window's
/// first byte is seen at the address `base`. None exactly where one of the word's bytes is not
/// given.
#[tactic(auto, unfolding(block_codec::specs::Words::word_of))]
pub fn loaded_word_at<V: View>(view: &V, loads: &Loads, base: u32, address: u32) -> Option<u32>
    requires stored { AreStoredIn (length (V.bytes view.now)) loads.now.items }
    ensures { result ≡ given_word base (V.bytes view.now) loads.now.items address }
{
    let at = u64::from(address);
    let loads = loads.as_slice();
    let first = byte_at(view, loads, base, at)?;
    let second = byte_at(view, loads, base, at + 1)?;
    let third = byte_at(view, loads, base, at + 2)?;
    let fourth = byte_at(view, loads, base, at + 3)?;
    Some(LittleEndian::read_u32(&[first, second, third, fourth]))
}

/// The little-endian word at an address, in a window in flash whose load map was obeyed; None
/// exactly where one of its bytes is not given.
pub fn loaded_word<V: View>(view: &V, loads: &Loads, address: u32) -> Option<u32>
    requires stored { AreStoredIn (length (V.bytes view.now)) loads.now.items }
    ensures { result ≡ given_word flash_base (V.bytes view.now) loads.now.items address }
{
    loaded_word_at(view, loads, FLASH_BASE, address)
}
