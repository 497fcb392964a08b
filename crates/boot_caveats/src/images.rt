//! What is to be looked up of the windows that a boot looks at, and of owned partitions.

ghost use Rattle.std.specs.Prelude.{◌≡◌, ◌+◌, ◌*◌, ◌/◌, ◌<◌, ◌≤◌, ◌++◌, [], All, IfSome, IsTrue, OnOk, length, option_map};
ghost use Rattle.std.specs.List.{filter_map, flat_map, list_any, range_with_len};
ghost use Rattle.sector_pool.specs.Keeping.{KeepsOut};
ghost use Rattle.sector_pool.specs.Pool.{HasFree};
ghost use Rattle.image_check.specs.Digests.{Knows};
ghost use Rattle.boot_rules.specs.Picking.{AreInside, IsInside};
ghost use Rattle.boot_caveats.specs.Reads.{AreLooksInside, ArePartsInside};
ghost use Rattle.boot_caveats.specs.ImageCaveats.{begins_otherwise, ends_late, first_places, is_at, is_doubtful, is_doubtful_item, is_doubtful_map, is_window, item_order, late_first, late_firsts, look_may_start, looked_windows, may_start, owned_image, owned_images, read_windows, reads_blocks, second_may_start, unit_windows};

use crate::choices::has_normal_image;
use crate::reading::{definition_in, first_block};
use crate::unread::is_rollback;
use arrayvec::ArrayVec;
use block_codec::Block;
use block_codec::kinds::{HASH_DEF, HASH_VALUE, IMAGE_TYPE, VERSION, kind_of};
use boot_reasons::UnitReport;
use boot_rules::{Decision, Fall, Started};
use image_check::{Digests, Why};
use image_def::DefFault;
use load_map::MapFault;
use part_table::{Partition, Table};
use pico_board::{Board, Cpu, FlashView, SMALLEST_SLOT, Window};
use sector_pool::SectorPool;
use slot_caveats::{Caveat, add};
use slot_choice::SlotUnit;
use std::alloc::AllocError;

/// The table slots, and the windows of the members of the units that are looked at, in the order
/// of looking.
fn read_windows(size: u32, looks: &[UnitReport]) -> ArrayVec<Window, 32>
    requires few { length looks.now ≤ 15 }
    ensures value { result.items ≡ read_windows size looks.now }
    ensures most { length result.items ≤ 32 }
{
    let mut windows = ArrayVec::new();
    windows.push(Window {
        start: 0,
        len: size,
    });
    windows.push(Window {
        start: size,
        len: size,
    });
    for look in looks {
        windows.push(look.unit.a);
        if let Some(second) = look.unit.b {
            windows.push(second);
        }
    }
    windows
}

/// Whether a window is among these.
pub(crate) fn has_window(windows: &[Window], window: Window) -> bool
    ensures { result ≡ list_any (is_window window) windows.now }
{
    windows.iter().any(|other| other.is_same(window))
}

/// The windows, each where it first stands.
fn first_places(windows: &[Window]) -> ArrayVec<Window, 32>
    requires few { length windows.now ≤ 32 }
    ensures value { result.items ≡ first_places [] windows.now }
{
    let mut places = ArrayVec::new();
    for window in windows {
        if !has_window(places.as_slice(), *window) {
            places.push(*window);
        }
    }
    places
}

/// Whether a boot that decides so reads blocks.
fn reads_blocks(decision: &Decision) -> bool
    ensures { result ≡ reads_blocks decision.now }
{
    match decision {
        Decision::Start(_) | Decision::Bootsel(Fall::NoImage) => true,
        Decision::Bootsel(Fall::Requested | Fall::FlashOff) => false,
    }
}

/// The first block of a window ends after the window's first 4096 bytes.
fn late_first<B: Board>(board: &B, window: Window) -> Option<Caveat>
    requires power { IsTrue (B.state board.now).powered }
    requires inside { IsInside (length (B.state board.now).content.flash) window }
    ensures { result ≡ late_first (B.state board.now).content window }
{
    let block = first_block(&FlashView { board, window })?;
    if block.at() + block.size() > SMALLEST_SLOT {
        Some(Caveat::FirstBlock(window))
    } else {
        None
    }
}

/// Adds each of these windows whose first block ends after the window's first 4096 bytes.
fn add_late<B: Board>(
    board: &B,
    windows: &[Window],
    list: &mut Vec<Caveat>,
) -> Result<(), AllocError>
    requires power { IsTrue (B.state board.now).powered }
    requires inside { All (IsInside (length (B.state board.now).content.flash)) windows.now }
    ensures { OnOk result (list.new.items ≡ list.old.items
        ++ filter_map (late_first (B.state board.now).content) windows.now) }
{
    for window in windows {
        add(list, late_first(board, *window))?;
    }
    Ok(())
}

/// Adds windows whose first block ends after the window's first 4096 bytes, where the boot reads
/// blocks. They are the table slots, and the members of units that are looked at. No window comes
/// twice.
pub(crate) fn add_late_firsts<B: Board>(
    board: &B,
    decision: &Decision,
    size: u32,
    looks: &[UnitReport],
    list: &mut Vec<Caveat>,
) -> Result<(), AllocError>
    requires power { IsTrue (B.state board.now).powered }
    requires slots { 2 * size ≤ length (B.state board.now).content.flash }
    requires few { length looks.now ≤ 15 }
    requires inside { AreLooksInside (length (B.state board.now).content.flash) looks.now }
    ensures { OnOk result (list.new.items ≡ list.old.items
        ++ late_firsts (B.state board.now).content decision.now size looks.now) }
{
    if !reads_blocks(decision) {
        return Ok(());
    }
    let windows = read_windows(size, looks);
    let places = first_places(windows.as_slice());
    add_late(board, places.as_slice(), list)
}

/// Whether the first item of a block is no IMAGE_TYPE item.
fn begins_otherwise(block: &Block) -> bool
    ensures { result ≡ begins_otherwise block.now }
{
    if block.count() == 0 {
        return true;
    }
    kind_of(block.item(0).kind) != IMAGE_TYPE
}

/// A window's definition does not begin with its IMAGE_TYPE item.
fn item_order<B: Board>(board: &B, cpu: Cpu, window: Window) -> Option<Caveat>
    requires power { IsTrue (B.state board.now).powered }
    requires inside { IsInside (length (B.state board.now).content.flash) window }
    ensures { result ≡ item_order (B.state board.now).content cpu window }
{
    let block = definition_in(&FlashView { board, window }, cpu)?;
    if begins_otherwise(&block) {
        Some(Caveat::ItemOrder(window))
    } else {
        None
    }
}

/// Adds each window of a unit's members whose definition does not begin with its IMAGE_TYPE item.
fn add_unit_orders<B: Board>(
    board: &B,
    cpu: Cpu,
    unit: &SlotUnit,
    list: &mut Vec<Caveat>,
) -> Result<(), AllocError>
    requires power { IsTrue (B.state board.now).powered }
    requires inside { AreInside (length (B.state board.now).content.flash) unit.now }
    ensures { OnOk result (list.new.items ≡ list.old.items
        ++ filter_map (item_order (B.state board.now).content cpu) (unit_windows unit.now)) }
{
    add(list, item_order(board, cpu, unit.a))?;
    match unit.b {
        Some(second) => add(list, item_order(board, cpu, second)),
        None => Ok(()),
    }
}

/// Adds windows with a definition that does not begin with its IMAGE_TYPE item: those of the
/// members of units that are looked at.
pub(crate) fn add_item_orders<B: Board>(
    board: &B,
    cpu: Cpu,
    looks: &[UnitReport],
    list: &mut Vec<Caveat>,
) -> Result<(), AllocError>
    requires power { IsTrue (B.state board.now).powered }
    requires inside { AreLooksInside (length (B.state board.now).content.flash) looks.now }
    ensures { OnOk result (list.new.items ≡ list.old.items
        ++ filter_map (item_order (B.state board.now).content cpu) (looked_windows looks.now)) }
{
    for look in looks {
        add_unit_orders(board, cpu, &look.unit, list)?;
    }
    Ok(())
}

/// Whether this is a fault of a definition's items by which the chip may not judge.
fn is_doubtful_item(fault: DefFault) -> bool
    ensures { result ≡ is_doubtful_item fault }
{
    match fault {
        DefFault::BadRow(_) | DefFault::RepeatedRow(_) => true,
        DefFault::BadItem(kind) => kind == HASH_DEF || (kind == HASH_VALUE || kind == VERSION),
        DefFault::Repeated(_) => false,
    }
}

/// Whether this is a fault of a load map by which the chip may not judge.
fn is_doubtful_map(fault: MapFault) -> bool
    ensures { result ≡ is_doubtful_map fault }
{
    match fault {
        MapFault::Runtime(_) | MapFault::CoversBlock(_) => true,
        MapFault::Storage(_) => false,
    }
}

/// Whether the chip may not judge by a rule.
fn is_doubtful(why: Why) -> bool
    ensures { result ≡ is_doubtful why }
{
    match why {
        Why::Items(fault) => is_doubtful_item(fault),
        Why::Map(fault) => is_doubtful_map(fault),
        Why::Entry(_) | Why::Delta => true,
        Why::NoBlock | Why::Loop(_) | Why::NoDefinition | Why::NotForProcessor => false,
        Why::Trial | Why::RollbackRequired | Why::Below(_, _) | Why::Digest => false,
    }
}

/// Whether a boot that does not apply the rule on rollback rows starts in this window.
fn is_at(unread: Option<Window>, window: Window) -> bool
    ensures { result ≡ is_at unread window }
{
    match unread {
        Some(started) => started.is_same(window),
        None => false,
    }
}

/// A member's image fails a rule by which the chip may not judge; or it fails the rule on rollback
/// rows, and a boot that does not apply that rule starts in its window.
fn may_start(unread: Option<Window>, window: Window, image: &Result<Started, Why>) -> Option<Caveat>
    ensures { result ≡ may_start unread window image.now }
{
    match image {
        Err(why) => {
            if is_doubtful(*why) || is_rollback(*why) && is_at(unread, window) {
                Some(Caveat::MayStart(window, *why))
            } else {
                None
            }
        }
        Ok(_) => None,
    }
}

/// The same of the second member's image, where there is a second member.
fn second_may_start(
    unread: Option<Window>,
    window: Option<Window>,
    image: &Option<Result<Started, Why>>,
) -> Option<Caveat>
    ensures { result ≡ second_may_start unread window image.now }
{
    match window {
        Some(window) => match image {
            Some(image) => may_start(unread, window, image),
            None => None,
        },
        None => None,
    }
}

/// Adds each member with an image that fails such a rule, of the units that are looked at.
pub(crate) fn add_may_starts(
    unread: Option<Window>,
    looks: &[UnitReport],
    list: &mut Vec<Caveat>,
) -> Result<(), AllocError>
    ensures { OnOk result
        (list.new.items ≡ list.old.items ++ flat_map (look_may_start unread) looks.now) }
{
    for look in looks {
        add(list, may_start(unread, look.unit.a, &look.first))?;
        add(list, second_may_start(unread, look.unit.b, &look.second))?;
    }
    Ok(())
}

/// A partition has an owner, and its window an image.
fn owned_image<B: Board>(
    board: &B,
    pool: &mut SectorPool,
    digests: &mut Digests,
    cpu: Cpu,
    parts: &[Partition],
    i: u32,
) -> Option<Caveat>
    requires power { IsTrue (B.state board.now).powered }
    requires free { HasFree pool.old }
    requires knows { Knows digests.old (B.state board.now).content }
    requires part { i < length parts.now }
    requires inside { ArePartsInside (length (B.state board.now).content.flash) parts.now }
    ensures exact { result ≡ owned_image (B.state board.now).content cpu parts.now i }
    ensures knows { Knows digests.new (B.state board.now).content }
    ensures kept { KeepsOut pool.old pool.new }
{
    let part = &parts[i as usize];
    if part.is_owned() && has_normal_image(board, pool, digests, cpu, part.window()) {
        Some(Caveat::OwnedImage(i))
    } else {
        None
    }
}

/// Adds each partition with an owner whose window has an image.
fn add_owned_parts<B: Board>(
    board: &B,
    pool: &mut SectorPool,
    digests: &mut Digests,
    cpu: Cpu,
    parts: &[Partition],
    list: &mut Vec<Caveat>,
) -> Result<(), AllocError>
    requires power { IsTrue (B.state board.now).powered }
    requires free { HasFree pool.old }
    requires knows { Knows digests.old (B.state board.now).content }
    requires few { length parts.now ≤ 15 }
    requires inside { ArePartsInside (length (B.state board.now).content.flash) parts.now }
    ensures exact { OnOk result (list.new.items ≡ list.old.items
        ++ filter_map (owned_image (B.state board.now).content cpu parts.now)
        (range_with_len 0 (length parts.now))) }
    ensures knows { Knows digests.new (B.state board.now).content }
    ensures kept { KeepsOut pool.old pool.new }
{
    for i in 0..parts.len() as u32 {
        add(list, owned_image(board, pool, digests, cpu, parts, i))?;
    }
    Ok(())
}

/// Adds each partition of the table of the flash that has an owner and whose window has an image.
pub(crate) fn add_owned_images<B: Board>(
    board: &B,
    pool: &mut SectorPool,
    digests: &mut Digests,
    cpu: Cpu,
    table: Option<&Table>,
    list: &mut Vec<Caveat>,
) -> Result<(), AllocError>
    requires power { IsTrue (B.state board.now).powered }
    requires free { HasFree pool.old }
    requires knows { Knows digests.old (B.state board.now).content }
    requires inside { IfSome (option_map (λ t. t.now) table)
        (λ t. ArePartsInside (length (B.state board.now).content.flash) t.parts.items) }
    ensures exact { OnOk result (list.new.items ≡ list.old.items
        ++ owned_images (B.state board.now).content cpu (option_map (λ t. t.now) table.entry)) }
    ensures knows { Knows digests.new (B.state board.now).content }
    ensures kept { KeepsOut pool.old pool.new }
{
    match table {
        Some(table) => add_owned_parts(board, pool, digests, cpu, table.parts.as_slice(), list),
        None => Ok(()),
    }
}
