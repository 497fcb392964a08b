//! The members of boot units.

ghost use Rattle.std.specs.Prelude.{◌≡◌, ◌++◌, All, IfOk, IsTrue, OnOk, length};
ghost use Rattle.pico_board.specs.MemBoard.{state_of};
ghost use Rattle.boot_rules.specs.Picking.{IsInside};
ghost use Rattle.check_images.specs.Members.{members_in, unit_windows};

use boot_rules::boot_units_in;
use pico_board::{Cpu, MemBoard, Window};
use slot_choice::SlotUnit;
use std::alloc::{AllocError, Global};

/// Appends the windows of a unit's members, A first.
fn push_unit(windows: &mut Vec<Window>, unit: &SlotUnit) -> Result<(), AllocError>
    ensures { OnOk result (windows.new.items ≡ windows.old.items ++ unit_windows unit.now) }
{
    windows.push(unit.a)?;
    if let Some(window) = unit.b {
        windows.push(window)?;
    }
    Ok(())
}

/// The windows of the members of a board's boot units: units in table order, and A first. It fails
/// only where memory is out.
pub fn members_in(alloc: Global, board: &MemBoard, cpu: Cpu) -> Result<Vec<Window>, AllocError>
    requires { IsTrue (state_of board.now).powered }
    ensures listed { IfOk result
        (λ windows. windows.items ≡ members_in (state_of board.now).content cpu) }
    ensures inside { IfOk result
        (λ windows. All (IsInside (length (state_of board.now).content.flash)) windows.items) }
{
    let units = boot_units_in(board, cpu);
    let mut windows = Vec::new(alloc);
    for unit in units.as_slice() {
        push_unit(&mut windows, unit)?;
    }
    Ok(windows)
}
