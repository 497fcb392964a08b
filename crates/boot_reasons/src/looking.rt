//! Reports on boot units.

ghost use Rattle.std.specs.Prelude.{◌≡◌, ◌≤◌, All, IfSome, IsTrue, None, Some, length, option_map};
ghost use Rattle.std.specs.Result.{result_ok};
ghost use Rattle.sector_pool.specs.Keeping.{KeepsOut};
ghost use Rattle.sector_pool.specs.Pool.{HasFree};
ghost use Rattle.image_check.specs.Digests.{Knows};
ghost use Rattle.boot_rules.specs.Chosen.{is_member};
ghost use Rattle.boot_rules.specs.Picking.{AreInside, IsInside};
ghost use Rattle.boot_reasons.specs.Looks.{better_image, second_counted, first_choice, is_update, image_reason, report_on, reported_choice, reports_of, second_image, reported_image, taken_image, taken_of};
ghost use Rattle.boot_reasons.specs.Reasons.{results_in};

use crate::looks::{TakenImage, UnitReason, UnitReport};
use arrayvec::ArrayVec;
use block_codec::{Version, copy_rows};
use boot_rules::choice_of;
use image_check::{Digests, Started, Why, check_by};
use pico_board::{Board, Cpu, Window};
use sector_pool::SectorPool;
use slot_choice::{Choice, Member, SlotUnit, are_different, better_of};

/// Whether a member is the updated one.
fn is_member(updated: Option<Member>, member: Member) -> bool
    ensures { result ≡ is_member updated member }
{
    match (updated, member) {
        (Some(Member::A), Member::A) | (Some(Member::B), Member::B) => true,
        (Some(Member::A), Member::B) | (Some(Member::B), Member::A) | (None, _) => false,
    }
}

/// A member's image is taken.
fn taken_image(member: Member, because: UnitReason, image: &Started) -> Option<TakenImage>
    ensures { result ≡ taken_image member because image.now }
{
    Some(TakenImage {
        member,
        window: image.window,
        because,
    })
}

/// Why one of two images that count is taken, by their versions.
fn image_reason(first: Version, second: Version) -> UnitReason
    ensures { result ≡ image_reason first second }
{
    if are_different(first, second) {
        UnitReason::Version
    } else {
        UnitReason::Tie
    }
}

/// Which of two images that count is taken, and why, where neither is the updated member's.
fn better_pair(first: &Started, second: &Started) -> Option<TakenImage>
    ensures { result ≡ better_image (Some first.now) (Some second.now) }
{
    let because = image_reason(first.version, second.version);
    match better_of(first.version, second.version) {
        Member::A => taken_image(Member::A, because, first),
        Member::B => taken_image(Member::B, because, second),
    }
}

/// Which image is taken of those of two members that count, and why. None is the updated member's.
fn better_image(first: Option<&Started>, second: Option<&Started>) -> Option<TakenImage>
    ensures { result
        ≡ better_image (option_map (λ s. s.now) first.entry)
        (option_map (λ s. s.now) second.entry) }
{
    match (first, second) {
        (Some(first), Some(second)) => better_pair(first, second),
        (Some(first), None) => taken_image(Member::A, UnitReason::Only, first),
        (None, Some(second)) => taken_image(Member::B, UnitReason::Only, second),
        (None, None) => None,
    }
}

/// Which image is taken of those of two members that count, and why.
fn taken_of(
    updated: Option<Member>,
    first: Option<&Started>,
    second: Option<&Started>,
) -> Option<TakenImage>
    ensures { result ≡ taken_of updated (option_map (λ s. s.now) first.entry)
        (option_map (λ s. s.now) second.entry) }
{
    match updated {
        None => better_image(first, second),
        Some(Member::A) => match first {
            Some(image) => taken_image(Member::A, UnitReason::Updated, image),
            None => better_image(first, second),
        },
        Some(Member::B) => match second {
            Some(image) => taken_image(Member::B, UnitReason::Updated, image),
            None => better_image(first, second),
        },
    }
}

/// The image of a second member, or why it has none, where there is a second member.
fn second_image<B: Board>(
    board: &B,
    pool: &mut SectorPool,
    digests: &mut Digests,
    window: Option<Window>,
    cpu: Cpu,
    trial_ok: bool,
) -> Option<Result<Started, Why>>
    requires power { IsTrue (B.state board.now).powered }
    requires free { HasFree pool.old }
    requires knows { Knows digests.old (B.state board.now).content }
    requires inside { IfSome window (IsInside (length (B.state board.now).content.flash)) }
    ensures exact { result ≡ option_map
        (λ w. results_in (B.state board.now).content cpu w trial_ok) window }
    ensures knows { Knows digests.new (B.state board.now).content }
    ensures kept { KeepsOut pool.old pool.new }
{
    match window {
        Some(window) => Some(check_by(board, pool, digests, window, cpu, trial_ok)),
        None => None,
    }
}

/// The image of a second member, where it counts.
fn second_counted(image: &Option<Result<Started, Why>>) -> Option<&Started>
    ensures { option_map (λ s. s.now) result ≡ second_counted image.now }
{
    match image {
        Some(Ok(image)) => Some(image),
        Some(Err(_)) | None => None,
    }
}

/// The image of a first member, where it counts.
fn counted_first(image: &Result<Started, Why>) -> Option<&Started>
    ensures { option_map (λ s. s.now) result ≡ result_ok image.now }
{
    match image {
        Ok(image) => Some(image),
        Err(_) => None,
    }
}

/// The report on a unit. Each member's image is judged once, with a trial image allowed exactly in
/// the updated member.
fn report_on<B: Board>(
    board: &B,
    pool: &mut SectorPool,
    digests: &mut Digests,
    unit: &SlotUnit,
    updated: Option<Member>,
    cpu: Cpu,
) -> UnitReport
    requires power { IsTrue (B.state board.now).powered }
    requires free { HasFree pool.old }
    requires knows { Knows digests.old (B.state board.now).content }
    requires inside { AreInside (length (B.state board.now).content.flash) unit.now }
    ensures exact { result
        ≡ report_on (results_in (B.state board.now).content cpu) unit.now updated }
    ensures knows { Knows digests.new (B.state board.now).content }
    ensures kept { KeepsOut pool.old pool.new }
{
    let first = check_by(
        board,
        pool,
        digests,
        unit.a,
        cpu,
        is_member(updated, Member::A),
    );
    let second = second_image(
        board,
        pool,
        digests,
        unit.b,
        cpu,
        is_member(updated, Member::B),
    );
    let taken = taken_of(updated, counted_first(&first), second_counted(&second));
    UnitReport {
        unit: *unit,
        first,
        second,
        taken,
    }
}

/// The reports on units, in their order, up to the first unit that takes an image.
pub(crate) fn reports_on<B: Board>(
    board: &B,
    pool: &mut SectorPool,
    digests: &mut Digests,
    units: &[SlotUnit],
    updated: Option<Member>,
    cpu: Cpu,
) -> ArrayVec<UnitReport, 15>
    requires power { IsTrue (B.state board.now).powered }
    requires free { HasFree pool.old }
    requires knows { Knows digests.old (B.state board.now).content }
    requires few { length units.now ≤ 15 }
    requires inside { All (AreInside (length (B.state board.now).content.flash)) units.now }
    ensures exact { result.items
        ≡ reports_of (results_in (B.state board.now).content cpu) units.now updated }
    ensures some { length result.items ≤ length units.now }
    ensures knows { Knows digests.new (B.state board.now).content }
    ensures kept { KeepsOut pool.old pool.new }
{
    let mut looks = ArrayVec::new();
    let mut member = updated;
    for unit in units {
        let look = report_on(board, pool, digests, unit, member, cpu);
        let takes = look.taken.is_some();
        looks.push(look);
        if takes {
            return looks;
        }
        member = None;
    }
    looks
}

/// The record of an image once more.
fn copy_image(image: &Started) -> Started
    ensures { result ≡ image.now }
{
    Started {
        window: image.window,
        block: image.block,
        image_at: image.image_at,
        pc: image.pc,
        sp: image.sp,
        limit: image.limit,
        version: image.version,
        rollback: image.rollback,
        rows: copy_rows(&image.rows),
        trial: image.trial,
    }
}

/// Whether a member's image is taken as the updated one.
fn is_update(because: UnitReason) -> bool
    ensures { result ≡ is_update because }
{
    match because {
        UnitReason::Updated => true,
        UnitReason::Only | UnitReason::Version | UnitReason::Tie => false,
    }
}

/// The member's image by the report on its unit.
fn reported_image(look: &UnitReport, member: Member) -> Option<&Started>
    ensures { option_map (λ s. s.now) result ≡ reported_image look.now member }
{
    match member {
        Member::A => counted_first(&look.first),
        Member::B => second_counted(&look.second),
    }
}

/// The choice by the report on a unit, if an image is taken there.
fn reported_choice(look: &UnitReport) -> Option<Choice>
    ensures { result ≡ reported_choice look.now }
{
    match look.taken {
        Some(taken) => match reported_image(look, taken.member) {
            Some(image) => Some(choice_of(
                &look.unit,
                taken.member,
                is_update(taken.because),
                copy_image(image),
            )),
            None => None,
        },
        None => None,
    }
}

/// The choice of the first report that has one.
pub(crate) fn first_choice(looks: &[UnitReport]) -> Option<Choice>
    ensures { result ≡ first_choice looks.now }
{
    for look in looks {
        if let Some(choice) = reported_choice(look) {
            return Some(choice);
        }
    }
    None
}
