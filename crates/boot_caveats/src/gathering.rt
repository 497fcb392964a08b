//! The caveats of a boot's answer, gathered.

ghost use Rattle.std.specs.Prelude.{◌≡◌, ◌++◌, IfOk, IsTrue, OnOk};
ghost use Rattle.sector_pool.specs.Keeping.{KeepsOut};
ghost use Rattle.sector_pool.specs.Pool.{HasFree};
ghost use Rattle.image_check.specs.Digests.{Knows};
ghost use Rattle.boot_rules.specs.Choosing.{boot_units_in};
ghost use Rattle.boot_reasons.specs.Reasons.{reasons_in};
ghost use Rattle.boot_caveats.specs.Caveats.{board_caveats, caveats_by, caveats_in, choice_caveats, last_caveats, window_caveats};
ghost use Rattle.boot_caveats.specs.ChoiceCaveats.{update_moves, update_of_nothing};
ghost use Rattle.boot_caveats.specs.Rules.{AreCaveats};

use crate::choices::{add_slot_images, first_tie, update_moves, update_of_nothing, update_of_slot};
use crate::images::{add_item_orders, add_late_firsts, add_may_starts, add_owned_images};
use crate::members::add_members;
use crate::parts::{add_ignore_flags, add_no_reads};
use crate::processors::add_other_processors;
use crate::starts::{add_rows, table_in_image};
use crate::unread::unread_start;
use boot_reasons::{Reasons, TableInForce, gather_by, taken_table};
use boot_rules::boot_units_in;
use image_check::Digests;
use pico_board::{Board, BootKind, Cpu};
use sector_pool::SectorPool;
use slot_caveats::{
    Caveat, add, add_critical, add_otp, add_slots, add_unread, short_flash, short_slots, table_tie,
};
use std::alloc::{AllocError, Global};

/// Adds the caveats of the OTP, of the tables of the slots, of the slot size, and of the table of
/// the image that starts.
fn add_board<B: Board>(
    board: &B,
    reasons: &Reasons,
    cpu: Cpu,
    kind: BootKind,
    list: &mut Vec<Caveat>,
) -> Result<(), AllocError>
    requires power { IsTrue (B.state board.now).powered }
    requires reasons { reasons.now ≡ reasons_in (B.state board.now).content cpu kind }
    ensures { OnOk result (list.new.items ≡ list.old.items
        ++ board_caveats (B.state board.now).content reasons.now) }
{
    add_otp(board, list)?;
    add(list, short_flash(board.flash_len(), 0, &reasons.first))?;
    add(list, short_flash(board.flash_len(), 1, &reasons.second))?;
    add(list, short_slots(board))?;
    add(list, table_in_image(board, &reasons.decision))
}

/// An update boot moves a unit to the front. The units are looked up for an update alone.
fn moved_unit<B: Board>(board: &B, cpu: Cpu, kind: BootKind) -> Option<Caveat>
    requires power { IsTrue (B.state board.now).powered }
    ensures { result ≡ update_moves kind (boot_units_in (B.state board.now).content cpu) }
{
    match kind {
        BootKind::Update(_) => {
            let units = boot_units_in(board, cpu);
            update_moves(kind, units.as_slice())
        }
        BootKind::Normal | BootKind::Bootsel => None,
    }
}

/// Adds the caveats of the choice, and of the rows of the image that starts.
fn add_choice<B: Board>(
    board: &B,
    pool: &mut SectorPool,
    digests: &mut Digests,
    reasons: &Reasons,
    cpu: Cpu,
    kind: BootKind,
    list: &mut Vec<Caveat>,
) -> Result<(), AllocError>
    requires power { IsTrue (B.state board.now).powered }
    requires free { HasFree pool.old }
    requires knows { Knows digests.old (B.state board.now).content }
    requires reasons { reasons.now ≡ reasons_in (B.state board.now).content cpu kind }
    ensures exact { OnOk result (list.new.items ≡ list.old.items
        ++ choice_caveats (B.state board.now).content cpu kind reasons.now) }
    ensures knows { Knows digests.new (B.state board.now).content }
    ensures kept { KeepsOut pool.old pool.new }
{
    let decision = &reasons.decision;
    let looks = reasons.looks.as_slice();
    add_other_processors(board, pool, digests, cpu, kind, decision, looks, list)?;
    add_slot_images(
        board,
        pool,
        digests,
        cpu,
        decision,
        reasons.size,
        reasons.table,
        list,
    )?;
    add(list, first_tie(looks))?;
    add(list, update_of_slot(kind, reasons.size, reasons.table))?;
    add(list, moved_unit(board, cpu, kind))?;
    add_rows(board, decision, list)
}

/// Adds the caveats of the windows that are looked at, of owned partitions, and of what is not
/// read of tables.
fn add_windows<B: Board>(
    alloc: Global,
    board: &B,
    pool: &mut SectorPool,
    digests: &mut Digests,
    reasons: &Reasons,
    cpu: Cpu,
    kind: BootKind,
    list: &mut Vec<Caveat>,
) -> Result<(), AllocError>
    requires power { IsTrue (B.state board.now).powered }
    requires free { HasFree pool.old }
    requires knows { Knows digests.old (B.state board.now).content }
    requires reasons { reasons.now ≡ reasons_in (B.state board.now).content cpu kind }
    ensures exact { OnOk result (list.new.items ≡ list.old.items
        ++ window_caveats (B.state board.now).content cpu kind reasons.now) }
    ensures knows { Knows digests.new (B.state board.now).content }
    ensures kept { KeepsOut pool.old pool.new }
{
    let looks = reasons.looks.as_slice();
    add_late_firsts(board, &reasons.decision, reasons.size, looks, list)?;
    add_item_orders(board, cpu, looks, list)?;
    let unread = unread_start(alloc, board, pool, digests, looks, cpu, kind)?;
    add_may_starts(unread, looks, list)?;
    let table = taken_table(reasons.table, &reasons.first, &reasons.second);
    add_owned_images(board, pool, digests, cpu, table, list)?;
    add_unread(table, list)?;
    add(list, table_tie(&reasons.first, &reasons.second))
}

/// An update boot's address is that of no member, and it has no caveat of a table slot. The units
/// are looked up for an update alone.
fn nothing_updated<B: Board>(
    board: &B,
    cpu: Cpu,
    kind: BootKind,
    size: u32,
    table: Option<TableInForce>,
) -> Option<Caveat>
    requires power { IsTrue (B.state board.now).powered }
    ensures { result
        ≡ update_of_nothing kind size table (boot_units_in (B.state board.now).content cpu) }
{
    match kind {
        BootKind::Update(_) => {
            let units = boot_units_in(board, cpu);
            update_of_nothing(kind, size, table, units.as_slice())
        }
        BootKind::Normal | BootKind::Bootsel => None,
    }
}

/// Adds the caveats of what stands in the slots, of critical flags, of the definitions that
/// are looked at, of flags and rights of partitions, and of an update of nothing.
fn add_last<B: Board>(
    board: &B,
    reasons: &Reasons,
    cpu: Cpu,
    kind: BootKind,
    list: &mut Vec<Caveat>,
) -> Result<(), AllocError>
    requires power { IsTrue (B.state board.now).powered }
    requires reasons { reasons.now ≡ reasons_in (B.state board.now).content cpu kind }
    ensures { OnOk result (list.new.items ≡ list.old.items
        ++ last_caveats (B.state board.now).content cpu kind reasons.now) }
{
    add_slots(
        board,
        reasons.size,
        reasons.table,
        &reasons.first,
        &reasons.second,
        list,
    )?;
    add_critical(board, list)?;
    add_members(board, cpu, reasons.looks.as_slice(), list)?;
    let table = taken_table(reasons.table, &reasons.first, &reasons.second);
    add_ignore_flags(table, list)?;
    add_no_reads(&reasons.decision, table, board.flash_len(), list)?;
    add(
        list,
        nothing_updated(board, cpu, kind, reasons.size, reasons.table),
    )
}

/// The caveats of an answer whose reasons are known, with what is remembered of digests: a digest
/// that is remembered is not made again.
pub fn caveats_with<B: Board>(
    alloc: Global,
    board: &B,
    pool: &mut SectorPool,
    digests: &mut Digests,
    cpu: Cpu,
    kind: BootKind,
    reasons: &Reasons,
) -> Result<Vec<Caveat>, AllocError>
    requires power { IsTrue (B.state board.now).powered }
    requires free { HasFree pool.old }
    requires reasons { reasons.now ≡ reasons_in (B.state board.now).content cpu kind }
    requires knows { Knows digests.old (B.state board.now).content }
    ensures exact { IfOk result
        (λ list. list.items ≡ caveats_in (B.state board.now).content cpu kind) }
    ensures knows { Knows digests.new (B.state board.now).content }
    ensures kept { KeepsOut pool.old pool.new }
{
    let mut list = Vec::new(alloc);
    add_board(board, reasons, cpu, kind, &mut list)?;
    add_choice(board, pool, digests, reasons, cpu, kind, &mut list)?;
    add_windows(alloc, board, pool, digests, reasons, cpu, kind, &mut list)?;
    add_last(board, reasons, cpu, kind, &mut list)?;
    Ok(list)
}

/// The caveats of an answer whose reasons are known.
pub fn caveats_by<B: Board>(
    alloc: Global,
    board: &B,
    pool: &mut SectorPool,
    cpu: Cpu,
    kind: BootKind,
    reasons: &Reasons,
) -> Result<Vec<Caveat>, AllocError>
    requires power { IsTrue (B.state board.now).powered }
    requires free { HasFree pool.old }
    requires reasons { reasons.now ≡ reasons_in (B.state board.now).content cpu kind }
    ensures exact { IfOk result
        (λ list. list.items ≡ caveats_in (B.state board.now).content cpu kind) }
    ensures kept { KeepsOut pool.old pool.new }
{
    caveats_with(alloc, board, pool, &mut Digests::none(), cpu, kind, reasons)
}

/// The caveats of the answer of a boot: each point of this very answer at which the chip may
/// decide otherwise, in the order of the variants. It fails only where memory is out, and the pool
/// keeps what is out.
pub fn caveats_of<B: Board>(
    alloc: Global,
    board: &B,
    pool: &mut SectorPool,
    cpu: Cpu,
    kind: BootKind,
) -> Result<Vec<Caveat>, AllocError>
    requires power { IsTrue (B.state board.now).powered }
    requires lease { HasFree pool.old }
    ensures rules { IfOk result
        (λ list. AreCaveats (B.state board.now).content cpu kind list.items) }
    ensures function { IfOk result
        (λ list. list.items ≡ caveats_in (B.state board.now).content cpu kind) }
    ensures pool { KeepsOut pool.old pool.new }
{
    let mut digests = Digests::none();
    let reasons = gather_by(board, pool, &mut digests, cpu, kind);
    caveats_with(alloc, board, pool, &mut digests, cpu, kind, &reasons)
}
