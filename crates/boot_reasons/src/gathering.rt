//! The reasons of a boot, gathered.

ghost use Rattle.std.specs.Prelude.{◌≡◌, ◌-◌, ◌≤◌, ◌/◌, All, IfSome, IsTrue, length, option_map};
ghost use Rattle.otp_roll.specs.Flags.{slot_size};
ghost use Rattle.part_table.specs.Sound.{IsSoundTable};
ghost use Rattle.sector_pool.specs.Keeping.{KeepsOut};
ghost use Rattle.sector_pool.specs.Pool.{HasFree};
ghost use Rattle.image_check.specs.Digests.{Knows};
ghost use Rattle.slot_choice.specs.Units.{units};
ghost use Rattle.boot_rules.specs.Choosing.{order_of};
ghost use Rattle.boot_rules.specs.Tables.{table_of_content};
ghost use Rattle.boot_rules.specs.Picking.{AreInside};
ghost use Rattle.boot_reasons.specs.Looks.{first_choice, reports_of};
ghost use Rattle.boot_reasons.specs.Reasons.{does_report, reported_decision, reports_in, order_in, reasons_in, results_in, unreached_in};
ghost use Rattle.boot_reasons.specs.Rules.{IsExplained};

use crate::looking::{first_choice, reports_on};
use crate::looks::UnitReport;
use crate::reasons::Reasons;
use crate::tables::{table_in_force, taken_table};
use arrayvec::ArrayVec;
use boot_rules::{Decision, Digests, Fall, boot_units_by, decision_of, order_of, slot_answer};
use otp_roll::{flash_off, required, slot_size};
use part_table::Table;
use pico_board::{Board, BootKind, Cpu};
use sector_pool::SectorPool;
use slot_choice::{Choice, SlotUnit};

/// Whether a boot looks at units.
fn does_report(kind: BootKind, off: bool) -> bool
    ensures { result ≡ does_report kind off }
{
    match kind {
        BootKind::Bootsel => false,
        BootKind::Normal | BootKind::Update(_) => !off,
    }
}

/// The reports of a boot on its units, and how many units are not reached.
#[derive(Drop)]
struct UnitReports {
    looks: ArrayVec<UnitReport, 15>,
    unreached: u32,
}

/// The reports on boot units, which a boot of this kind brings into their order.
fn reports_in_order<B: Board>(
    board: &B,
    pool: &mut SectorPool,
    digests: &mut Digests,
    units: ArrayVec<SlotUnit, 15>,
    cpu: Cpu,
    kind: BootKind,
) -> UnitReports
    requires power { IsTrue (B.state board.now).powered }
    requires free { HasFree pool.old }
    requires knows { Knows digests.old (B.state board.now).content }
    requires inside { All (AreInside (length (B.state board.now).content.flash)) units.items }
    ensures looks { result.looks.items ≡ reports_of (results_in (B.state board.now).content cpu)
        (order_of kind units.items).units (order_of kind units.items).updated }
    ensures unreached { result.unreached
        ≡ length (order_of kind units.items).units - length result.looks.items }
    ensures knows { Knows digests.new (B.state board.now).content }
    ensures kept { KeepsOut pool.old pool.new }
{
    let mut ordered = units;
    let updated = order_of(&mut ordered, kind);
    let looks = reports_on(board, pool, digests, ordered.as_slice(), updated, cpu);
    let unreached = (ordered.len() - looks.len()) as u32;
    UnitReports { looks, unreached }
}

/// The reports of a boot of this kind, by the table of the flash.
fn reported_in<B: Board>(
    board: &B,
    pool: &mut SectorPool,
    digests: &mut Digests,
    table: Option<&Table>,
    cpu: Cpu,
    kind: BootKind,
) -> UnitReports
    requires power { IsTrue (B.state board.now).powered }
    requires free { HasFree pool.old }
    requires knows { Knows digests.old (B.state board.now).content }
    requires table { option_map (λ t. t.now) table
        ≡ table_of_content (B.state board.now).content }
    ensures looks { result.looks.items ≡ reports_in (B.state board.now).content cpu kind }
    ensures unreached { result.unreached ≡ unreached_in (B.state board.now).content cpu kind }
    ensures knows { Knows digests.new (B.state board.now).content }
    ensures kept { KeepsOut pool.old pool.new }
{
    if !does_report(kind, flash_off(board)) {
        return UnitReports {
            looks: ArrayVec::new(),
            unreached: 0,
        };
    }
    let units = boot_units_by(board, table, cpu);
    reports_in_order(board, pool, digests, units, cpu, kind)
}

/// The decision by the choice of the first report with an image that is taken.
fn reported_decision(kind: BootKind, off: bool, choice: Option<Choice>) -> Decision
    ensures { result ≡ reported_decision kind off choice }
{
    match kind {
        BootKind::Bootsel => Decision::Bootsel(Fall::Requested),
        BootKind::Normal | BootKind::Update(_) => {
            if off {
                Decision::Bootsel(Fall::FlashOff)
            } else {
                decision_of(choice)
            }
        }
    }
}

/// The reasons of a boot by what its slots have.
fn reasons_of<B: Board>(
    board: &B,
    pool: &mut SectorPool,
    digests: &mut Digests,
    cpu: Cpu,
    kind: BootKind,
) -> Reasons
    requires power { IsTrue (B.state board.now).powered }
    requires free { HasFree pool.old }
    requires knows { Knows digests.old (B.state board.now).content }
    ensures exact { result ≡ reasons_in (B.state board.now).content cpu kind }
    ensures knows { Knows digests.new (B.state board.now).content }
    ensures kept { KeepsOut pool.old pool.new }
{
    let first = slot_answer(board, 0);
    let second = slot_answer(board, 1);
    let table = table_in_force(&first, &second);
    let looked = reported_in(
        board,
        pool,
        digests,
        taken_table(table, &first, &second),
        cpu,
        kind,
    );
    let off = flash_off(board);
    Reasons {
        decision: reported_decision(kind, off, first_choice(looked.looks.as_slice())),
        required: required(board),
        off,
        size: slot_size(board),
        first,
        second,
        table,
        looks: looked.looks,
        unreached: looked.unreached,
    }
}

/// Why a boot decides as it does, as `gather` tells it, with what is remembered of digests. A
/// digest that is remembered is not made again.
pub fn gather_by<B: Board>(
    board: &B,
    pool: &mut SectorPool,
    digests: &mut Digests,
    cpu: Cpu,
    kind: BootKind,
) -> Reasons
    requires power { IsTrue (B.state board.now).powered }
    requires lease { HasFree pool.old }
    requires knows { Knows digests.old (B.state board.now).content }
    ensures explained { IsExplained (B.state board.now).content cpu kind result }
    ensures function { result ≡ reasons_in (B.state board.now).content cpu kind }
    ensures knows { Knows digests.new (B.state board.now).content }
    ensures pool { KeepsOut pool.old pool.new }
{
    reasons_of(board, pool, digests, cpu, kind)
}

/// Why a boot decides as it does. Each slot is read once, and each member of a unit is judged
/// once. The decision is that of the first unit that takes an image, and nothing is judged twice
/// for it. It takes no memory, and the pool keeps what is out. (RP2350 Datasheet, chapter 5,
/// Bootrom; the reasons are this project's own.)
pub fn gather<B: Board>(board: &B, pool: &mut SectorPool, cpu: Cpu, kind: BootKind) -> Reasons
    requires power { IsTrue (B.state board.now).powered }
    requires lease { HasFree pool.old }
    ensures explained { IsExplained (B.state board.now).content cpu kind result }
    ensures function { result ≡ reasons_in (B.state board.now).content cpu kind }
    ensures pool { KeepsOut pool.old pool.new }
{
    gather_by(board, pool, &mut Digests::none(), cpu, kind)
}
