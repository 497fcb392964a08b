//! The boot units of a flash, and the order in which a boot tries them.

ghost use Rattle.std.specs.Prelude.{◌≡◌, IsTrue, option_map};
ghost use Rattle.boot_rules.specs.Choosing.{boot_units_in, order_of};
ghost use Rattle.boot_rules.specs.Tables.{table_of_content};

use crate::tables::find_table;
use arrayvec::ArrayVec;
use otp_roll::slot_size;
use part_table::Table;
use pico_board::{Board, BootKind, Cpu};
use slot_choice::{Member, SlotUnit, boot_units, update_first};

/// The boot units of the board's flash, in table order, for a caller that has read its table.
pub fn boot_units_by<B: Board>(board: &B, table: Option<&Table>, cpu: Cpu) -> ArrayVec<SlotUnit, 15>
    requires power { IsTrue (B.state board.now).powered }
    requires table { option_map (λ t. t.now) table
        ≡ table_of_content (B.state board.now).content }
    ensures { result.items ≡ boot_units_in (B.state board.now).content cpu }
{
    boot_units(table, board.flash_len(), slot_size(board), cpu)
}

/// The boot units of the board's flash, in table order.
pub fn boot_units_in<B: Board>(board: &B, cpu: Cpu) -> ArrayVec<SlotUnit, 15>
    requires power { IsTrue (B.state board.now).powered }
    ensures { result.items ≡ boot_units_in (B.state board.now).content cpu }
{
    match find_table(board) {
        Some(found) => boot_units_by(board, Some(&found.table), cpu),
        None => boot_units_by(board, None, cpu),
    }
}

/// Brings the units into the order in which a boot of this kind tries them, and names the updated
/// member of the first one.
pub fn order_of(units: &mut ArrayVec<SlotUnit, 15>, kind: BootKind) -> Option<Member>
    ensures { order_of kind units.old.items ≡ record { units = units.new.items; updated = result } }
{
    match kind {
        BootKind::Update(base) => update_first(units, base),
        BootKind::Normal => None,
        BootKind::Bootsel => None,
    }
}
