//! Where the choice of a boot depends on a rule that the chip may have otherwise.

ghost use Rattle.std.specs.Prelude.{◌≡◌, ◌+◌, ◌-◌, ◌<◌, ◌≤◌, ◌++◌, IfSome, IsTrue, OnOk, length, position, slice_get, option_and_then};
ghost use Rattle.std.specs.List.{list_any};
ghost use Rattle.sector_pool.specs.Keeping.{KeepsOut};
ghost use Rattle.sector_pool.specs.Pool.{HasFree};
ghost use Rattle.image_check.specs.Digests.{Knows};
ghost use Rattle.slot_choice.specs.Updates.{has_member_at};
ghost use Rattle.boot_rules.specs.Picking.{IsInside};
ghost use Rattle.boot_caveats.specs.ChoiceCaveats.{first_slot_image, first_tie, has_normal_image, has_second_image, is_slot_address, is_tie, lacks_image, lone_slot_images, moved_by, moved_part, other_cpu, second_slot_image, slot_images, started_window, tie_of, tied_in, update_moves, update_of_nothing, update_of_slot, updates_one};

use boot_reasons::{TableInForce, TakenImage, UnitReason, UnitReport};
use boot_rules::{Decision, Fall};
use image_check::{Digests, check_by};
use pico_board::{Board, BootKind, Cpu, FLASH_BASE, FlashView, SMALLEST_SLOT, Window};
use sector_pool::SectorPool;
use slot_caveats::{Caveat, add, flash_from, has_executable};
use slot_choice::SlotUnit;
use std::alloc::AllocError;

/// The other processor.
pub(crate) fn other_cpu(cpu: Cpu) -> Cpu
    ensures { result ≡ other_cpu cpu }
{
    match cpu {
        Cpu::Arm => Cpu::Riscv,
        Cpu::Riscv => Cpu::Arm,
    }
}

/// Whether no image starts.
pub(crate) fn lacks_image(decision: &Decision) -> bool
    ensures { result ≡ lacks_image decision.now }
{
    match decision {
        Decision::Bootsel(Fall::NoImage) => true,
        Decision::Bootsel(Fall::Requested | Fall::FlashOff) | Decision::Start(_) => false,
    }
}

/// The window whose image starts.
pub(crate) fn started_window(decision: &Decision) -> Option<Window>
    ensures { result ≡ started_window decision.now }
{
    match decision {
        Decision::Start(choice) => Some(choice.image.window),
        Decision::Bootsel(_) => None,
    }
}

/// Whether a window has an image, trial not allowed.
pub(crate) fn has_normal_image<B: Board>(
    board: &B,
    pool: &mut SectorPool,
    digests: &mut Digests,
    cpu: Cpu,
    window: Window,
) -> bool
    requires power { IsTrue (B.state board.now).powered }
    requires free { HasFree pool.old }
    requires knows { Knows digests.old (B.state board.now).content }
    requires inside { IsInside (length (B.state board.now).content.flash) window }
    ensures exact { result ≡ has_normal_image (B.state board.now).content cpu window }
    ensures knows { Knows digests.new (B.state board.now).content }
    ensures kept { KeepsOut pool.old pool.new }
{
    check_by(board, pool, digests, window, cpu, false).is_ok()
}

/// Whether the loop of the flash from slot 1 on, of the smallest size, closes and has an executable
/// block.
fn has_second_image<B: Board>(board: &B) -> bool
    requires power { IsTrue (B.state board.now).powered }
    ensures { result ≡ has_second_image (B.state board.now).content }
{
    let window = flash_from(board, SMALLEST_SLOT);
    has_executable(&FlashView { board, window })
}

/// No image starts, and slot 0 of the smallest size has one.
fn first_slot_image<B: Board>(
    board: &B,
    pool: &mut SectorPool,
    digests: &mut Digests,
    cpu: Cpu,
    decision: &Decision,
) -> Option<Caveat>
    requires power { IsTrue (B.state board.now).powered }
    requires free { HasFree pool.old }
    requires knows { Knows digests.old (B.state board.now).content }
    ensures exact { result ≡ first_slot_image (B.state board.now).content cpu decision.now }
    ensures knows { Knows digests.new (B.state board.now).content }
    ensures kept { KeepsOut pool.old pool.new }
{
    let window = Window {
        start: 0,
        len: SMALLEST_SLOT,
    };
    if lacks_image(decision) && has_normal_image(board, pool, digests, cpu, window) {
        Some(Caveat::SlotImage(window))
    } else {
        None
    }
}

/// No image starts, and slot 1 of the smallest size has one; or the flash has one from slot 1 on.
fn second_slot_image<B: Board>(
    board: &B,
    pool: &mut SectorPool,
    digests: &mut Digests,
    cpu: Cpu,
    decision: &Decision,
) -> Option<Caveat>
    requires power { IsTrue (B.state board.now).powered }
    requires free { HasFree pool.old }
    requires knows { Knows digests.old (B.state board.now).content }
    ensures exact { result ≡ second_slot_image (B.state board.now).content cpu decision.now }
    ensures knows { Knows digests.new (B.state board.now).content }
    ensures kept { KeepsOut pool.old pool.new }
{
    let window = Window {
        start: SMALLEST_SLOT,
        len: SMALLEST_SLOT,
    };
    if has_second_image(board)
        || (lacks_image(decision) && has_normal_image(board, pool, digests, cpu, window))
    {
        Some(Caveat::SlotImage(window))
    } else {
        None
    }
}

/// Adds the slots of the smallest size that may have an image.
fn add_lone_slots<B: Board>(
    board: &B,
    pool: &mut SectorPool,
    digests: &mut Digests,
    cpu: Cpu,
    decision: &Decision,
    list: &mut Vec<Caveat>,
) -> Result<(), AllocError>
    requires power { IsTrue (B.state board.now).powered }
    requires free { HasFree pool.old }
    requires knows { Knows digests.old (B.state board.now).content }
    ensures exact { OnOk result (list.new.items ≡ list.old.items
        ++ lone_slot_images (B.state board.now).content cpu decision.now) }
    ensures knows { Knows digests.new (B.state board.now).content }
    ensures kept { KeepsOut pool.old pool.new }
{
    add(list, first_slot_image(board, pool, digests, cpu, decision))?;
    add(list, second_slot_image(board, pool, digests, cpu, decision))
}

/// Adds the slots that may have an image, where there is no table and they are of the smallest
/// size.
pub(crate) fn add_slot_images<B: Board>(
    board: &B,
    pool: &mut SectorPool,
    digests: &mut Digests,
    cpu: Cpu,
    decision: &Decision,
    size: u32,
    table: Option<TableInForce>,
    list: &mut Vec<Caveat>,
) -> Result<(), AllocError>
    requires power { IsTrue (B.state board.now).powered }
    requires free { HasFree pool.old }
    requires knows { Knows digests.old (B.state board.now).content }
    ensures exact { OnOk result (list.new.items ≡ list.old.items
        ++ slot_images (B.state board.now).content cpu decision.now size table) }
    ensures knows { Knows digests.new (B.state board.now).content }
    ensures kept { KeepsOut pool.old pool.new }
{
    if table.is_some() || size != SMALLEST_SLOT {
        return Ok(());
    }
    add_lone_slots(board, pool, digests, cpu, decision, list)
}

/// Whether an image is taken because of a tie.
fn is_tie(because: UnitReason) -> bool
    ensures { result ≡ is_tie because }
{
    match because {
        UnitReason::Tie => true,
        UnitReason::Updated | UnitReason::Only | UnitReason::Version => false,
    }
}

/// The window that is taken of a pair because of a tie, and the other one.
fn tied_in(second: Option<Window>, taken: Option<TakenImage>) -> Option<Caveat>
    ensures { result ≡ tied_in second taken }
{
    match (second, taken) {
        (Some(other), Some(taken)) => {
            if is_tie(taken.because) {
                Some(Caveat::Tie(taken.window, other))
            } else {
                None
            }
        }
        (Some(_), None) | (None, _) => None,
    }
}

/// The first unit that takes an image takes it because of a tie.
pub(crate) fn first_tie(looks: &[UnitReport]) -> Option<Caveat>
    ensures { result ≡ first_tie looks.now }
{
    for look in looks {
        if look.taken.is_some() {
            return tied_in(look.unit.b, look.taken);
        }
    }
    None
}

/// Whether an address is that of table slot 0 or 1, of this size.
fn is_slot_address(size: u32, base: u32) -> bool
    ensures { result ≡ is_slot_address size base }
{
    base == FLASH_BASE || u64::from(base) == u64::from(FLASH_BASE) + u64::from(size)
}

/// An update boot's address is that of a table slot, and there is a table.
pub(crate) fn update_of_slot(
    kind: BootKind,
    size: u32,
    table: Option<TableInForce>,
) -> Option<Caveat>
    ensures { result ≡ update_of_slot kind size table }
{
    match (kind, table) {
        (BootKind::Update(base), Some(_)) => {
            if is_slot_address(size, base) {
                Some(Caveat::UpdateOfSlot(base))
            } else {
                None
            }
        }
        (BootKind::Update(_), None) | (BootKind::Normal | BootKind::Bootsel, _) => None,
    }
}

/// Whether a member of a unit starts at this offset of the flash.
fn has_member_at(start: u32, unit: &SlotUnit) -> bool
    ensures { result ≡ has_member_at start unit.now }
{
    if unit.a.start == start {
        return true;
    }
    match unit.b {
        Some(window) => window.start == start,
        None => false,
    }
}

/// The place of the first unit that has a member at this offset.
fn unit_at(units: &[SlotUnit], start: u32) -> Option<usize>
    ensures value { result ≡ position (has_member_at start) units.now }
    ensures inside { IfSome result (λ k. k < length units.now) }
{
    units.iter().position(|unit| has_member_at(start, unit))
}

/// The partition of the A of the first unit that has a member at this offset, where the unit is
/// not the first of all.
fn moved_from(units: &[SlotUnit], start: u32) -> Option<u32>
    ensures { result
        ≡ option_and_then (moved_part units.now) (position (has_member_at start) units.now) }
{
    match unit_at(units, start) {
        Some(0) | None => None,
        Some(place) => units[place].a_part,
    }
}

/// The partition of the A of the unit that an update of an address moves to the front.
fn moved_by(units: &[SlotUnit], base: u32) -> Option<u32>
    ensures { result ≡ moved_by units.now base }
{
    if base < FLASH_BASE {
        return None;
    }
    moved_from(units, base - FLASH_BASE)
}

/// An update boot moves a unit to the front.
pub(crate) fn update_moves(kind: BootKind, units: &[SlotUnit]) -> Option<Caveat>
    ensures { result ≡ update_moves kind units.now }
{
    match kind {
        BootKind::Update(base) => match moved_by(units, base) {
            Some(part) => Some(Caveat::UpdateMovesUnit(part)),
            None => None,
        },
        BootKind::Normal | BootKind::Bootsel => None,
    }
}

/// Whether a member of a unit starts at an address.
fn updates_one(units: &[SlotUnit], base: u32) -> bool
    ensures { result ≡ updates_one units.now base }
{
    base >= FLASH_BASE && has_member_from(units, base - FLASH_BASE)
}

/// Whether a member of a unit starts at this offset of the flash.
fn has_member_from(units: &[SlotUnit], start: u32) -> bool
    ensures { result ≡ list_any (has_member_at start) units.now }
{
    units.iter().any(|unit| has_member_at(start, unit))
}

/// An update boot's address is that of no member, and it has no caveat of a table slot.
pub(crate) fn update_of_nothing(
    kind: BootKind,
    size: u32,
    table: Option<TableInForce>,
    units: &[SlotUnit],
) -> Option<Caveat>
    ensures { result ≡ update_of_nothing kind size table units.now }
{
    match kind {
        BootKind::Update(base) => {
            if updates_one(units, base) || update_of_slot(kind, size, table).is_some() {
                None
            } else {
                Some(Caveat::UpdateOfNothing(base))
            }
        }
        BootKind::Normal | BootKind::Bootsel => None,
    }
}
