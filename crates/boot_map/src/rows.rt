//! What the map has of a window: its image, its pair, and whether a normal boot starts it.

ghost use Rattle.std.specs.Prelude.{◌≡◌, ◌+◌, ◌<◌, ◌≤◌, All, IsTrue, length, map, option_map};
ghost use Rattle.sector_pool.specs.Keeping.{KeepsOut};
ghost use Rattle.sector_pool.specs.Pool.{HasFree};
ghost use Rattle.boot_map.specs.Maps.{has_image, pairing, part_pairing, row_image, row_of, slot_pairing, starts};
ghost use Rattle.boot_map.specs.Windows.{parts_of, window_end};
ghost use Rattle.boot_map.specs.WindowRules.{IsListed, IsRead};

use crate::maps::{MapRow, Pairing};
use crate::places::{MapPlace, MapWindow};
use arrayvec::ArrayVec;
use boot_rules::Decision;
use image_check::{Started, Why, check};
use part_table::{Partition, Table};
use pico_board::{Board, Cpu, Window};
use sector_pool::SectorPool;
use slot_choice::{Member, second_of};

/// Whether a window has an image, or a fault: it is a partition, the whole flash, or a slot of a
/// flash without a table.
fn has_image(table: Option<&Table>, place: MapPlace) -> bool
    ensures { result ≡ has_image (option_map (λ t. t.now) table.entry) place }
{
    match place {
        MapPlace::Slot(_) => table.is_none(),
        MapPlace::Partition(_) | MapPlace::Whole => true,
        MapPlace::Free => false,
    }
}

/// The image of a window, trial not allowed, or why there is none.
fn row_image<B: Board>(
    board: &B,
    pool: &mut SectorPool,
    cpu: Cpu,
    table: Option<&Table>,
    window: &MapWindow,
) -> Option<Result<Started, Why>>
    requires power { IsTrue (B.state board.now).powered }
    requires free { HasFree pool.old }
    requires inside { window_end window.now.window ≤ length (B.state board.now).content.flash }
    ensures exact { result ≡ row_image (B.state board.now).content cpu
        (option_map (λ t. t.now) table.entry) window.now }
    ensures kept { KeepsOut pool.old pool.new }
{
    if has_image(table, window.place) {
        Some(check(board, pool, window.window, cpu, false))
    } else {
        None
    }
}

/// The pair of partition i: it is B of the A that its link names, or A of its B.
fn part_pairing(parts: &[Partition], i: u32) -> Option<Pairing>
    requires few { length parts.now ≤ 15 }
    requires part { i < length parts.now }
    ensures { result ≡ part_pairing parts.now i }
{
    let part = &parts[i as usize];
    if part.is_second() {
        return Some(Pairing {
            member: Member::B,
            other: part.link_value(),
        });
    }
    match second_of(parts, i) {
        Some(other) => Some(Pairing {
            member: Member::A,
            other,
        }),
        None => None,
    }
}

/// The pair of a slot where there is no table.
fn slot_pairing(number: u32) -> Pairing
    ensures { result ≡ slot_pairing number }
{
    if number == 0 {
        Pairing {
            member: Member::A,
            other: 1,
        }
    } else {
        Pairing {
            member: Member::B,
            other: 0,
        }
    }
}

/// The pair of what a window is.
fn pairing(table: Option<&Table>, place: MapPlace) -> Option<Pairing>
    requires part { IsListed (option_map (λ t. t.now) table) place }
    ensures { result ≡ pairing (option_map (λ t. t.now) table.entry) place }
{
    match (table, place) {
        (Some(table), MapPlace::Partition(i)) => part_pairing(table.parts.as_slice(), i),
        (None, MapPlace::Slot(number)) => Some(slot_pairing(number)),
        (_, _) => None,
    }
}

/// Whether a decision starts the image of a window.
fn starts(decision: &Decision, window: Window) -> bool
    ensures { result ≡ starts decision.now window }
{
    match decision {
        Decision::Start(choice) => choice.image.window.is_same(window),
        Decision::Bootsel(_) => false,
    }
}

/// The row of a window.
fn row_of<B: Board>(
    board: &B,
    pool: &mut SectorPool,
    cpu: Cpu,
    table: Option<&Table>,
    decision: &Decision,
    window: &MapWindow,
) -> MapRow
    requires power { IsTrue (B.state board.now).powered }
    requires free { HasFree pool.old }
    requires read { IsRead (option_map (λ t. t.now) table)
        (length (B.state board.now).content.flash) window.now.place window.now.window }
    ensures exact { result ≡ row_of (B.state board.now).content cpu
        (option_map (λ t. t.now) table.entry) decision.now window.now }
    ensures kept { KeepsOut pool.old pool.new }
{
    MapRow {
        place: window.place,
        window: window.window,
        image: row_image(board, pool, cpu, table, window),
        pair: pairing(table, window.place),
        starts: starts(decision, window.window),
    }
}

/// The rows of windows, in their order.
pub(crate) fn rows_of<B: Board>(
    board: &B,
    pool: &mut SectorPool,
    cpu: Cpu,
    table: Option<&Table>,
    decision: &Decision,
    windows: &[MapWindow],
) -> ArrayVec<MapRow, 33>
    requires power { IsTrue (B.state board.now).powered }
    requires free { HasFree pool.old }
    requires few { length windows.now ≤ 33 }
    requires read { All (λ w. IsRead (option_map (λ t. t.now) table)
        (length (B.state board.now).content.flash) w.place w.window) windows.now }
    ensures exact { result.items ≡ map (row_of (B.state board.now).content cpu
        (option_map (λ t. t.now) table.entry) decision.now) windows.now }
    ensures few { length result.items ≤ 33 }
    ensures kept { KeepsOut pool.old pool.new }
{
    let mut rows = ArrayVec::new();
    for window in windows {
        rows.push(row_of(board, pool, cpu, table, decision, window));
    }
    rows
}
