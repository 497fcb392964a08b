//! The windows of a flash by what they are, in address order.

ghost use Rattle.std.specs.Prelude.{◌≡◌, ◌+◌, ◌*◌, ◌<◌, ◌≤◌, ◌++◌, ◌∷◌, [], All, IfSome, length, option_map};
ghost use Rattle.arrayvec.specs.ArrayVec.{array_vec_len};
ghost use Rattle.part_table.specs.Fields.{first_sector, last_sector};
ghost use Rattle.part_table.specs.Partitions.{part_at};
ghost use Rattle.boot_rules.specs.Tables.{slot_window};
ghost use Rattle.boot_map.specs.Windows.{free_between, has_slots, map_windows, nearer_start, next_part, next_start, part_place, part_windows, parts_of, slot_place, starts_at, whole_place, window_end};
ghost use Rattle.boot_map.specs.WindowRules.{AreMapWindows, IsMappable};

use crate::places::{MapPlace, MapWindow};
use arrayvec::ArrayVec;
use part_table::{Partition, Table};
use pico_board::{SMALLEST_SLOT, Window};

/// The partitions of a table, and none where there is none.
fn parts_of<'a>(table: Option<&'a Table>) -> &'a [Partition]
    ensures value { result.now ≡ parts_of (option_map (λ t. t.now) table.entry) }
    ensures few { length result.now ≤ 15 }
{
    match table {
        Some(table) => table.parts.as_slice(),
        None => &[],
    }
}

/// Whether the two slots are windows of the map.
fn has_slots(table: Option<&Table>, slot: u32) -> bool
    ensures { result ≡ has_slots (option_map (λ t. t.now) table.entry) slot }
{
    match table {
        Some(_) => true,
        None => slot > SMALLEST_SLOT,
    }
}

/// The first of two offsets where it lies at or past `at` and is the lower one; otherwise the
/// second.
fn nearer_start(at: u32, start: u32, least: u32) -> u32
    ensures { result ≡ nearer_start at start least }
{
    if at <= start && start < least {
        start
    } else {
        least
    }
}

/// The lowest offset at or past `at` at which a partition starts; `end` where no such offset is
/// below `end`.
fn next_start(parts: &[Partition], at: u32, end: u32) -> u32
    requires right { All (λ p. first_sector p ≤ last_sector p) parts.now }
    ensures { result ≡ next_start at parts.now end }
{
    let mut least = end;
    for part in parts {
        least = nearer_start(at, part.window().start, least);
    }
    least
}

/// The partition that starts first at or past `at`, before `end`.
fn next_part(parts: &[Partition], at: u32, end: u32) -> Option<u32>
    requires few { length parts.now ≤ 15 }
    requires right { All (λ p. first_sector p ≤ last_sector p) parts.now }
    ensures value { result ≡ next_part at parts.now end }
    ensures inside { IfSome result (λ i. i < length parts.now) }
{
    let next = next_start(parts, at, end);
    for i in 0..parts.len() as u32 {
        if parts[i as usize].window().start == next {
            return Some(i);
        }
    }
    None
}

/// Adds what is free from one offset to another, if it is anything.
fn add_free(windows: &mut ArrayVec<MapWindow, 33>, at: u32, end: u32)
    requires { array_vec_len windows.old < 33 }
    ensures { windows.new.items ≡ windows.old.items ++ free_between at end }
{
    if at < end {
        windows.push(MapWindow {
            place: MapPlace::Free,
            window: Window {
                start: at,
                len: end - at,
            },
        });
    }
}

/// Adds a partition, and answers where it ends.
fn add_part(windows: &mut ArrayVec<MapWindow, 33>, parts: &[Partition], i: u32) -> u32
    requires room { array_vec_len windows.old < 33 }
    requires part { i < length parts.now }
    requires right { All (λ p. first_sector p ≤ last_sector p) parts.now }
    ensures added { windows.new.items ≡ windows.old.items ++ part_place parts.now i ∷ [] }
    ensures ends { result ≡ window_end (part_place parts.now i).window }
{
    let window = parts[i as usize].window();
    windows.push(MapWindow {
        place: MapPlace::Partition(i),
        window,
    });
    window.start + window.len
}

/// Adds the partitions from `first` to `end`, in address order, and what is free between them.
fn add_parts(windows: &mut ArrayVec<MapWindow, 33>, parts: &[Partition], first: u32, end: u32)
    requires few { length parts.now ≤ 15 }
    requires room { array_vec_len windows.old ≤ 2 }
    requires right { All (λ p. first_sector p ≤ last_sector p) parts.now }
    ensures { windows.new.items
        ≡ windows.old.items ++ part_windows parts.now end (length parts.now) first }
{
    let mut at = first;
    for count in 0..parts.len() {
        add_free(windows, at, next_start(parts, at, end));
        match next_part(parts, at, end) {
            Some(i) => at = add_part(windows, parts, i),
            None => return,
        }
    }
    add_free(windows, at, end);
}

/// Adds slot 0 or 1.
fn add_slot(windows: &mut ArrayVec<MapWindow, 33>, slot: u32, number: u32)
    requires room { array_vec_len windows.old < 33 }
    requires number { number ≤ 1 }
    ensures { windows.new.items ≡ windows.old.items ++ slot_place slot number ∷ [] }
{
    windows.push(MapWindow {
        place: MapPlace::Slot(number),
        window: Window {
            start: number * slot,
            len: slot,
        },
    });
}

/// The windows of a flash by what they are.
fn windows_of(table: Option<&Table>, flash_len: u32, slot: u32) -> ArrayVec<MapWindow, 33>
    requires right { All (λ p. first_sector p ≤ last_sector p)
        (parts_of (option_map (λ t. t.now) table)) }
    requires fits { 2 * slot ≤ flash_len }
    ensures { result.items ≡ map_windows (option_map (λ t. t.now) table.entry) flash_len slot }
{
    let mut windows = ArrayVec::new();
    if has_slots(table, slot) {
        add_slot(&mut windows, slot, 0);
        add_slot(&mut windows, slot, 1);
        add_parts(&mut windows, parts_of(table), 2 * slot, flash_len);
    } else {
        windows.push(MapWindow {
            place: MapPlace::Whole,
            window: Window {
                start: 0,
                len: flash_len,
            },
        });
    }
    windows
}

/// The windows of a flash by what they are, side by side in address order from its first byte to
/// its last. With a table they are slot 0, slot 1, each partition, and each free stretch. A free
/// stretch is as many sectors, one after the other, as lie in none of these. Without a table and
/// with a slot size above 4096 they are the two slots, and the free stretch after them if there is
/// one. Otherwise the one window is the whole flash.
pub fn map_windows(table: Option<&Table>, flash_len: u32, slot: u32) -> ArrayVec<MapWindow, 33>
    requires mappable { IsMappable (option_map (λ t. t.now) table) flash_len slot }
    ensures windows { AreMapWindows (option_map (λ t. t.now) table.entry) flash_len slot
        result.items }
    ensures function { result.items
        ≡ map_windows (option_map (λ t. t.now) table.entry) flash_len slot }
{
    windows_of(table, flash_len, slot)
}
