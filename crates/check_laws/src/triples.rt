//! Whether the steps of a boot or a buy raise a row of a triple that an image of another boot unit
//! lists.

ghost use Rattle.std.specs.Prelude.{◌≡◌, ◌||◌, ◌&&◌, ◌+◌, ◌≤◌, IfSome, IsTrue, length, true};
ghost use Rattle.std.specs.List.{list_all, list_any};
ghost use Rattle.pico_board.specs.MemBoard.{state_of};
ghost use Rattle.boot_rules.specs.Choosing.{boot_units_in, images_in};
ghost use Rattle.part_table.specs.Windows.{IsPlacedIn};
ghost use Rattle.sector_pool.specs.Pool.{HasFree};
ghost use Rattle.check_laws.specs.Triples.{AreTriplesApart, has_window, is_apart, is_kept_by, is_raise_in, is_second, keeps_image, keeps_row, keeps_second, keeps_unit, keeps_units, keeps_window};

use boot_rules::boot_units_in;
use image_check::{Started, check};
use pico_board::{Cpu, MemBoard, Step, Window};
use sector_pool::SectorPool;
use slot_choice::SlotUnit;

/// Whether the step raises a row of the triple of this row.
fn is_raise_in(first: u16, step: &Step) -> bool
    ensures { result ≡ is_raise_in first step.now }
{
    match step {
        Step::Raise(row, _) => first <= *row && u32::from(*row) + 1 <= u32::from(first) + 3,
        Step::Erase(_) | Step::Program(_, _) => false,
    }
}

/// Whether the triples of two rows share no row.
fn is_apart(one: u16, two: u16) -> bool
    ensures { result ≡ is_apart one two }
{
    u32::from(one) + 3 <= u32::from(two) || u32::from(two) + 3 <= u32::from(one)
}

/// Whether the steps raise a row of the triple of this row.
fn is_raised(steps: &[Step], first: u16) -> bool
    ensures { result ≡ list_any (is_raise_in first) steps.now }
{
    steps.iter().any(|step| is_raise_in(first, step))
}

/// Whether the triples of two rows share no row, or the steps raise none of the second one's.
fn is_kept_by(steps: &[Step], listed: u16, own: u16) -> bool
    ensures { result ≡ is_kept_by steps.now listed own }
{
    is_apart(listed, own) || !is_raised(steps, own)
}

/// Whether the steps raise no row of the triple of a listed row, by the rows of their own image.
fn keeps_row(steps: &[Step], rows: &[u16], listed: u16) -> bool
    ensures { result ≡ keeps_row steps.now rows.now listed }
{
    rows.iter().all(|own| is_kept_by(steps, listed, *own))
}

/// Whether the steps raise no row of the triples of listed rows.
fn keeps_rows(steps: &[Step], rows: &[u16], listed: &[u16]) -> bool
    ensures { result ≡ list_all (keeps_row steps.now rows.now) listed.now }
{
    listed.iter().all(|row| keeps_row(steps, rows, *row))
}

/// Whether the steps raise no row of a triple that the image lists.
fn keeps_image(steps: &[Step], rows: &[u16], image: &Option<Started>) -> bool
    ensures { result ≡ keeps_image steps.now rows.now image.now }
{
    match image {
        Some(image) => keeps_rows(steps, rows, image.rows.as_slice()),
        None => true,
    }
}

/// Whether the steps raise no row of a triple that the image of a window lists.
fn keeps_window(
    board: &MemBoard,
    pool: &mut SectorPool,
    cpu: Cpu,
    rows: &[u16],
    steps: &[Step],
    window: Window,
) -> bool
    requires power { IsTrue (state_of board.now).powered }
    requires free { HasFree pool.old }
    requires inside { window.start + window.len ≤ length (state_of board.now).content.flash }
    ensures free { HasFree pool.new }
    ensures exact { result ≡ keeps_window (state_of board.now).content cpu rows.now steps.now window }
{
    keeps_image(steps, rows, &check(board, pool, window, cpu, false).ok())
}

/// The same of the second window of a unit, where it has one.
fn keeps_second(
    board: &MemBoard,
    pool: &mut SectorPool,
    cpu: Cpu,
    rows: &[u16],
    steps: &[Step],
    second: Option<Window>,
) -> bool
    requires power { IsTrue (state_of board.now).powered }
    requires free { HasFree pool.old }
    requires inside { IfSome second
        (λ w. w.start + w.len ≤ length (state_of board.now).content.flash) }
    ensures free { HasFree pool.new }
    ensures exact { result ≡ keeps_second (state_of board.now).content cpu rows.now steps.now
        second }
{
    match second {
        Some(window) => keeps_window(board, pool, cpu, rows, steps, window),
        None => true,
    }
}

/// Whether the window is this second one.
fn is_second(window: Window, second: Option<Window>) -> bool
    ensures { result ≡ is_second window second }
{
    match second {
        Some(second) => second.is_same(window),
        None => false,
    }
}

/// Whether the window is that of a member of the unit.
fn has_window(window: Window, unit: &SlotUnit) -> bool
    ensures { result ≡ has_window window unit.now }
{
    unit.a.is_same(window) || is_second(window, unit.b)
}

/// Whether the unit is that of the image, or the steps raise no row of a triple that an image of it
/// lists.
fn keeps_unit(
    board: &MemBoard,
    pool: &mut SectorPool,
    cpu: Cpu,
    image: &Started,
    steps: &[Step],
    unit: &SlotUnit,
) -> bool
    requires power { IsTrue (state_of board.now).powered }
    requires free { HasFree pool.old }
    requires a { unit.now.a.start + unit.now.a.len ≤ length (state_of board.now).content.flash }
    requires b { IfSome unit.now.b
        (λ w. w.start + w.len ≤ length (state_of board.now).content.flash) }
    ensures free { HasFree pool.new }
    ensures exact { result ≡ keeps_unit (state_of board.now).content cpu image.now steps.now
        unit.now }
{
    if has_window(image.window, unit) {
        return true;
    }
    let rows = image.rows.as_slice();
    keeps_window(board, pool, cpu, rows, steps, unit.a)
        && keeps_second(board, pool, cpu, rows, steps, unit.b)
}

/// Whether the steps of the image raise no row of a triple that an image of another boot unit,
/// valid in a normal boot, lists.
pub(crate) fn are_triples_apart(
    board: &MemBoard,
    pool: &mut SectorPool,
    cpu: Cpu,
    image: &Started,
    steps: &[Step],
) -> bool
    requires power { IsTrue (state_of board.now).powered }
    requires free { HasFree pool.old }
    ensures free { HasFree pool.new }
    ensures exact { result ≡ keeps_units (state_of board.now).content cpu image.now steps.now }
{
    let units = boot_units_in(board, cpu);
    for unit in units.as_slice() {
        if !keeps_unit(board, pool, cpu, image, steps, unit) {
            return false;
        }
    }
    true
}
