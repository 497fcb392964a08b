//! The boot decision.

ghost use Rattle.std.specs.Prelude.{◌≡◌, ◌*◌, All, IsTrue, None, length, option_map};
ghost use Rattle.sector_pool.specs.Keeping.{KeepsOut};
ghost use Rattle.sector_pool.specs.Pool.{HasFree};
ghost use Rattle.image_check.specs.Digests.{Knows, MakesAtMost};
ghost use Rattle.boot_rules.specs.Choosing.{boot_units_in, decision_in, flash_decision, images_in, ordered_choice};
ghost use Rattle.boot_rules.specs.Chosen.{Chosen};
ghost use Rattle.boot_rules.specs.Picking.{AreInside};
ghost use Rattle.boot_rules.specs.Tables.{table_of_content};

use crate::decision::{Decision, Fall, decision_of};
use crate::picking::{taken, unit_choice};
use crate::tables::find_table;
use crate::units::{boot_units_by, order_of};
use image_check::Digests;
use otp_roll::flash_off;
use part_table::Table;
use pico_board::{Board, BootKind, Cpu};
use sector_pool::SectorPool;
use slot_choice::{Choice, Member, SlotUnit};

/// The choice of the first unit that has one, where none is updated.
fn first_taken<B: Board>(
    board: &B,
    pool: &mut SectorPool,
    digests: &mut Digests,
    units: &[SlotUnit],
    cpu: Cpu,
) -> Option<Choice>
    requires power { IsTrue (B.state board.now).powered }
    requires free { HasFree pool.old }
    requires knows { Knows digests.old (B.state board.now).content }
    requires inside { All (AreInside (length (B.state board.now).content.flash)) units.now }
    ensures exact { result ≡ ordered_choice
        (images_in (B.state board.now).content cpu) units.now None }
    ensures knows { Knows digests.new (B.state board.now).content }
    ensures made { MakesAtMost (2 * length units.now) digests.old digests.new }
    ensures kept { KeepsOut pool.old pool.new }
{
    for unit in units {
        if let Some(choice) = taken(board, pool, digests, unit, cpu) {
            return Some(choice);
        }
    }
    None
}

/// The choice of the first unit that has one, where a member of the first unit may be updated.
fn ordered_choice<B: Board>(
    board: &B,
    pool: &mut SectorPool,
    digests: &mut Digests,
    units: &[SlotUnit],
    updated: Option<Member>,
    cpu: Cpu,
) -> Option<Choice>
    requires power { IsTrue (B.state board.now).powered }
    requires free { HasFree pool.old }
    requires knows { Knows digests.old (B.state board.now).content }
    requires inside { All (AreInside (length (B.state board.now).content.flash)) units.now }
    ensures exact { result ≡ ordered_choice
        (images_in (B.state board.now).content cpu) units.now updated }
    ensures knows { Knows digests.new (B.state board.now).content }
    ensures made { MakesAtMost (2 * length units.now) digests.old digests.new }
    ensures kept { KeepsOut pool.old pool.new }
{
    let Some((first, others)) = units.split_first() else {
        return None;
    };
    match unit_choice(board, pool, digests, first, updated, cpu) {
        Some(choice) => Some(choice),
        None => first_taken(board, pool, digests, others, cpu),
    }
}

/// The decision of a boot from a flash that has this table.
fn flash_decision<B: Board>(
    board: &B,
    pool: &mut SectorPool,
    digests: &mut Digests,
    table: Option<&Table>,
    cpu: Cpu,
    kind: BootKind,
) -> Decision
    requires power { IsTrue (B.state board.now).powered }
    requires free { HasFree pool.old }
    requires table { option_map (λ t. t.now) table
        ≡ table_of_content (B.state board.now).content }
    requires knows { Knows digests.old (B.state board.now).content }
    ensures exact { result ≡ flash_decision (B.state board.now).content cpu kind }
    ensures knows { Knows digests.new (B.state board.now).content }
    ensures made { MakesAtMost
        (2 * length (boot_units_in (B.state board.now).content cpu)) digests.old digests.new }
    ensures kept { KeepsOut pool.old pool.new }
{
    if flash_off(board) {
        return Decision::Bootsel(Fall::FlashOff);
    }
    let mut units = boot_units_by(board, table, cpu);
    let updated = order_of(&mut units, kind);
    decision_of(ordered_choice(board, pool, digests, units.as_slice(), updated, cpu))
}

/// The decision of a boot of a flash that has this table.
#[tactic(auto, unfolding(crate::specs::Choosing::decision_in))]
fn decision_in<B: Board>(
    board: &B,
    pool: &mut SectorPool,
    digests: &mut Digests,
    table: Option<&Table>,
    cpu: Cpu,
    kind: BootKind,
) -> Decision
    requires power { IsTrue (B.state board.now).powered }
    requires free { HasFree pool.old }
    requires table { option_map (λ t. t.now) table
        ≡ table_of_content (B.state board.now).content }
    requires knows { Knows digests.old (B.state board.now).content }
    ensures exact { result ≡ decision_in (B.state board.now).content cpu kind }
    ensures knows { Knows digests.new (B.state board.now).content }
    ensures made { MakesAtMost
        (2 * length (boot_units_in (B.state board.now).content cpu)) digests.old digests.new }
    ensures kept { KeepsOut pool.old pool.new }
{
    match kind {
        BootKind::Bootsel => Decision::Bootsel(Fall::Requested),
        BootKind::Normal => flash_decision(board, pool, digests, table, cpu, BootKind::Normal),
        BootKind::Update(base) => {
            flash_decision(board, pool, digests, table, cpu, BootKind::Update(base))
        }
    }
}

/// Decides a boot, as `decide` does, for a caller that has the table of the flash, and with what is
/// remembered of digests: a digest that is remembered is not made again. At most two digests are
/// made for each boot unit, one a member, so the decision of a pair costs at most two.
pub fn decide_with<B: Board>(
    board: &B,
    pool: &mut SectorPool,
    digests: &mut Digests,
    table: Option<&Table>,
    cpu: Cpu,
    kind: BootKind,
) -> Decision
    requires power { IsTrue (B.state board.now).powered }
    requires lease { HasFree pool.old }
    requires table { option_map (λ t. t.now) table
        ≡ table_of_content (B.state board.now).content }
    requires knows { Knows digests.old (B.state board.now).content }
    ensures chosen { Chosen (B.state board.now).content cpu kind result }
    ensures function { result ≡ decision_in (B.state board.now).content cpu kind }
    ensures knows { Knows digests.new (B.state board.now).content }
    ensures made { MakesAtMost
        (2 * length (boot_units_in (B.state board.now).content cpu)) digests.old digests.new }
    ensures pool { KeepsOut pool.old pool.new }
{
    decision_in(board, pool, digests, table, cpu, kind)
}

/// Decides a boot, as `decide_with` does, whose table it looks up.
pub fn decide_by<B: Board>(
    board: &B,
    pool: &mut SectorPool,
    digests: &mut Digests,
    cpu: Cpu,
    kind: BootKind,
) -> Decision
    requires power { IsTrue (B.state board.now).powered }
    requires lease { HasFree pool.old }
    requires knows { Knows digests.old (B.state board.now).content }
    ensures chosen { Chosen (B.state board.now).content cpu kind result }
    ensures function { result ≡ decision_in (B.state board.now).content cpu kind }
    ensures knows { Knows digests.new (B.state board.now).content }
    ensures made { MakesAtMost
        (2 * length (boot_units_in (B.state board.now).content cpu)) digests.old digests.new }
    ensures pool { KeepsOut pool.old pool.new }
{
    match find_table(board) {
        Some(found) => decide_with(board, pool, digests, Some(&found.table), cpu, kind),
        None => decide_with(board, pool, digests, None, cpu, kind),
    }
}

/// Decides a boot: which image starts, or why none does. A boot that asks for BOOTSEL falls there
/// first, then one where flash boot is off. Otherwise the boot units are tried in table order, the
/// updated member's unit before the others. The updated member's image is taken where it is valid
/// with a trial image allowed. Otherwise it is the greater version of those that are valid with
/// none allowed, A on a tie. The decision takes no memory, and the pool keeps what is out. (RP2350
/// Datasheet, chapter 5, Bootrom; this project's own where the datasheet is open; the order of
/// versions and the update rule as a whole.)
pub fn decide<B: Board>(board: &B, pool: &mut SectorPool, cpu: Cpu, kind: BootKind) -> Decision
    requires power { IsTrue (B.state board.now).powered }
    requires lease { HasFree pool.old }
    ensures chosen { Chosen (B.state board.now).content cpu kind result }
    ensures function { result ≡ decision_in (B.state board.now).content cpu kind }
    ensures pool { KeepsOut pool.old pool.new }
{
    decide_by(board, pool, &mut Digests::none(), cpu, kind)
}
