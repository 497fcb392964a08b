//! Where a download goes.

ghost use Rattle.std.specs.Prelude.{◌≡◌, ◌<◌, ◌/◌, ℕ, IfSome, IsTrue, length, option_map};
ghost use Rattle.part_table.specs.Sound.{IsSoundTable};
ghost use Rattle.sector_pool.specs.Keeping.{KeepsOut};
ghost use Rattle.sector_pool.specs.Pool.{HasFree};
ghost use Rattle.image_check.specs.Digests.{Knows, MakesAtMost};
ghost use Rattle.slot_choice.specs.Units.{IsSoundFor};
ghost use Rattle.part_table.specs.Windows.{IsPlacedWindow};
ghost use Rattle.boot_rules.specs.Targets.{deciding_in, deciding_unit, is_executable, member_for, pair_target, is_staying_target, target_of, unit_target, AreLoadsOf};

use crate::picking::taken;
use image_check::Digests;
use otp_roll::slot_size;
use owner_data::owner_pair;
use part_table::{ARM_NS_FAMILY, ARM_S_FAMILY, RISCV_FAMILY, Table, Target};
use pico_board::{Board, Cpu, Window};
use sector_pool::SectorPool;
use slot_choice::{Choice, Member, SlotUnit, load_unit, unit_of};

/// Whether the family is one of the three of executables for the RP2350.
pub fn is_executable(family: u32) -> bool
    ensures { result ≡ is_executable family }
{
    family == ARM_S_FAMILY || family == RISCV_FAMILY || family == ARM_NS_FAMILY
}

/// Bit 13 of a partition's flags; what is no partition has none.
fn is_staying_target(table: Option<&Table>, part: Option<u32>) -> bool
    ensures { result ≡ is_staying_target (option_map (λ t. t.now) table.entry) part }
{
    let (Some(table), Some(i)) = (table, part) else {
        return false;
    };
    match table.parts.as_slice().get(i as usize) {
        Some(part) => part.is_staying(),
        None => false,
    }
}

/// The unit whose choice decides on the member of a load unit of this table. It is the unit of A's
/// owner where A has one, and the load unit itself otherwise.
fn deciding_in(table: &Table, unit: SlotUnit) -> SlotUnit
    requires sound { (n : ℕ) × IsSoundTable table.now n }
    requires part { IfSome unit.a_part (λ i. i < length table.now.parts.items) }
    ensures { result ≡ deciding_in table.now.parts.items unit unit.a_part }
{
    let Some(part) = unit.a_part else {
        return unit;
    };
    match owner_pair(table, part) {
        Some((owner, _)) => unit_of(table.parts.as_slice(), owner),
        None => unit,
    }
}

/// The unit whose choice decides on the member of a load unit.
fn deciding_unit(table: Option<&Table>, unit: SlotUnit) -> SlotUnit
    requires sound { IfSome (option_map (λ t. t.now) table) (λ t. (n : ℕ) × IsSoundTable t n) }
    requires part { IfSome (option_map (λ t. t.now) table)
        (λ t. IfSome unit.a_part (λ i. i < length t.parts.items)) }
    ensures { result ≡ deciding_unit (option_map (λ t. t.now) table.entry) unit }
{
    match table {
        Some(table) => deciding_in(table, unit),
        None => unit,
    }
}

/// The target in the member of a pair whose B has this window.
fn pair_target(
    table: Option<&Table>,
    family: u32,
    unit: &SlotUnit,
    second: Window,
    member: Member,
) -> Target
    ensures { result ≡ pair_target
        (option_map (λ t. t.now) table.entry) family unit.now second member }
{
    let gated = is_executable(family);
    match member {
        Member::A => Target {
            window: unit.a,
            gated,
            stay: is_staying_target(table, unit.a_part),
        },
        Member::B => Target {
            window: second,
            gated,
            stay: is_staying_target(table, unit.b_part),
        },
    }
}

/// The member of a pair to which a download goes, by what a normal boot would take in the deciding
/// unit.
fn member_for(choice: Option<Choice>) -> Member
    ensures { result ≡ member_for (option_map (λ choice. choice.member) choice) }
{
    match choice {
        Some(choice) => match choice.member {
            Member::A => Member::B,
            Member::B => Member::A,
        },
        None => Member::A,
    }
}

/// The target in a load unit.
fn unit_target<B: Board>(
    board: &B,
    pool: &mut SectorPool,
    digests: &mut Digests,
    table: Option<&Table>,
    cpu: Cpu,
    family: u32,
    unit: SlotUnit,
) -> Target
    requires power { IsTrue (B.state board.now).powered }
    requires lease { HasFree pool.old }
    requires knows { Knows digests.old (B.state board.now).content }
    requires sound { IsSoundFor (option_map (λ t. t.now) table)
        (length (B.state board.now).content.flash) }
    requires loads { AreLoadsOf (length (B.state board.now).content.flash)
        (option_map (λ t. t.now) table) unit }
    ensures exact { result ≡ unit_target (B.state board.now).content
        (option_map (λ t. t.now) table.entry) cpu family unit unit.b }
    ensures knows { Knows digests.new (B.state board.now).content }
    ensures made { MakesAtMost 2 digests.old digests.new }
    ensures kept { KeepsOut pool.old pool.new }
{
    let Some(second) = unit.b else {
        return Target {
            window: unit.a,
            gated: false,
            stay: is_staying_target(table, unit.a_part),
        };
    };
    let deciding = deciding_unit(table, unit);
    let choice = taken(board, pool, digests, &deciding, cpu);
    let member = member_for(choice);
    pair_target(table, family, &unit, second, member)
}

/// Where a download of a UF2 family goes, as `target` says it, with what is remembered of digests:
/// a digest that is remembered is not made again, and at most two are made.
pub fn target_by<B: Board>(
    board: &B,
    pool: &mut SectorPool,
    digests: &mut Digests,
    table: Option<&Table>,
    cpu: Cpu,
    family: u32,
) -> Option<Target>
    requires power { IsTrue (B.state board.now).powered }
    requires lease { HasFree pool.old }
    requires knows { Knows digests.old (B.state board.now).content }
    requires sound { IsSoundFor (option_map (λ t. t.now) table)
        (length (B.state board.now).content.flash) }
    ensures exact { result ≡ target_of (B.state board.now).content
        (option_map (λ t. t.now) table.entry) cpu family }
    ensures placed { IfSome result
        (λ t. IsPlacedWindow t.window (length (B.state board.now).content.flash / 4096) 0) }
    ensures knows { Knows digests.new (B.state board.now).content }
    ensures made { MakesAtMost 2 digests.old digests.new }
    ensures kept { KeepsOut pool.old pool.new }
{
    match load_unit(table, board.flash_len(), slot_size(board), family) {
        Some(unit) => Some(unit_target(board, pool, digests, table, cpu, family, unit)),
        None => None,
    }
}

/// Where a download of a UF2 family goes. None exactly where the family has no load unit. In a pair
/// whose A has an owner it is B where a normal boot would take A of the owner's unit, and A
/// otherwise. In another pair it is the member that a normal boot would not take, A where it would
/// take none. The target is gated where it is a member of a pair and the family is one of the three
/// of executables. It stays where bit 13 of its partition's flags says so. It takes no memory, and
/// the pool keeps what is out.
pub fn target<B: Board>(
    board: &B,
    pool: &mut SectorPool,
    table: Option<&Table>,
    cpu: Cpu,
    family: u32,
) -> Option<Target>
    requires power { IsTrue (B.state board.now).powered }
    requires lease { HasFree pool.old }
    requires sound { IsSoundFor (option_map (λ t. t.now) table)
        (length (B.state board.now).content.flash) }
    ensures exact { result ≡ target_of (B.state board.now).content
        (option_map (λ t. t.now) table.entry) cpu family }
    ensures placed { IfSome result
        (λ t. IsPlacedWindow t.window (length (B.state board.now).content.flash / 4096) 0) }
    ensures kept { KeepsOut pool.old pool.new }
{
    target_by(board, pool, &mut Digests::none(), table, cpu, family)
}
