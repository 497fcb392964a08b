//! The map of a flash, gathered.

ghost use Rattle.std.specs.Prelude.{◌≡◌, ◌≤◌, IsTrue, length, map, option_map};
ghost use Rattle.sector_pool.specs.Keeping.{KeepsOut};
ghost use Rattle.sector_pool.specs.Pool.{HasFree};
ghost use Rattle.boot_rules.specs.Tables.{table_of_content};
ghost use Rattle.boot_map.specs.Maps.{map_in, row_of, map_windows_in};
ghost use Rattle.boot_map.specs.MapRules.{IsMap, IsReadableMap};

use crate::maps::{FlashMap, MapRow};
use crate::rows::rows_of;
use crate::windows::map_windows;
use arrayvec::ArrayVec;
use boot_reasons::{slot_answer, table_in_force, taken_table};
use boot_rules::{Decision, decide};
use otp_roll::slot_size;
use part_table::Table;
use pico_board::{Board, BootKind, Cpu};
use sector_pool::SectorPool;

/// The rows of a flash with this table, or none, on which a normal boot decides so.
fn map_rows_in<B: Board>(
    board: &B,
    pool: &mut SectorPool,
    cpu: Cpu,
    table: Option<&Table>,
    decision: &Decision,
) -> ArrayVec<MapRow, 33>
    requires power { IsTrue (B.state board.now).powered }
    requires free { HasFree pool.old }
    requires table { option_map (λ t. t.now) table
        ≡ table_of_content (B.state board.now).content }
    ensures exact { result.items ≡ map (row_of (B.state board.now).content cpu
        (table_of_content (B.state board.now).content) decision.now)
        (map_windows_in (B.state board.now).content) }
    ensures few { length result.items ≤ 33 }
    ensures kept { KeepsOut pool.old pool.new }
{
    let windows = map_windows(table, board.flash_len(), slot_size(board));
    rows_of(board, pool, cpu, table, decision, windows.as_slice())
}

/// The map of a flash by what its slots have.
fn map_of<B: Board>(board: &B, pool: &mut SectorPool, cpu: Cpu) -> FlashMap
    requires power { IsTrue (B.state board.now).powered }
    requires free { HasFree pool.old }
    ensures exact { result ≡ map_in (B.state board.now).content cpu }
    ensures few { length result.rows.items ≤ 33 }
    ensures kept { KeepsOut pool.old pool.new }
{
    let first = slot_answer(board, 0);
    let second = slot_answer(board, 1);
    let table = table_in_force(&first, &second);
    let decision = decide(board, pool, cpu, BootKind::Normal);
    let rows = map_rows_in(
        board,
        pool,
        cpu,
        taken_table(table, &first, &second),
        &decision,
    );
    FlashMap {
        decision,
        first,
        second,
        table,
        rows,
    }
}

/// The map of a board's flash: the windows that lie side by side from its first byte to its last.
/// Each window has its image, trial not allowed, or the first rule that it fails. It has the pair
/// that it is a member of, and whether a normal boot starts it. The map also has what that boot
/// decides, and what each table slot has or lacks. It takes no memory, and the pool keeps what is
/// out.
pub fn gather_map<B: Board>(board: &B, pool: &mut SectorPool, cpu: Cpu) -> FlashMap
    requires power { IsTrue (B.state board.now).powered }
    requires lease { HasFree pool.old }
    ensures mapped { IsMap (B.state board.now).content cpu result }
    ensures function { result ≡ map_in (B.state board.now).content cpu }
    ensures readable { IsReadableMap result (length (B.state board.now).content.flash) }
    ensures pool { KeepsOut pool.old pool.new }
{
    map_of(board, pool, cpu)
}
