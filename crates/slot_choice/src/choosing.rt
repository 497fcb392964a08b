//! The member that a flash-update boot names, and the better of two versions.

ghost use Rattle.std.specs.Prelude.{◌≡◌, ◌<◌, IfSome, length, position};
ghost use Rattle.slot_choice.specs.Updates.{has_member_at, member_at, update_order, updated_member};
ghost use Rattle.slot_choice.specs.Versions.{are_different, better, better_of, is_below};

use crate::unit::{Member, SlotUnit};
use arrayvec::ArrayVec;
use block_codec::Version;
use pico_board::FLASH_BASE;

/// The member of the unit whose window starts at this offset of the flash, A before B.
fn member_at(unit: &SlotUnit, start: u32) -> Option<Member>
    ensures { result ≡ member_at start unit.now }
{
    if unit.a.start == start {
        return Some(Member::A);
    }
    match unit.b {
        Some(window) if window.start == start => Some(Member::B),
        _ => None,
    }
}

/// The place of the first unit that has a member at this offset.
fn place_of(units: &[SlotUnit], start: u32) -> Option<usize>
    ensures value { result ≡ position (has_member_at start) units.now }
    ensures inside { IfSome result (λ k. k < length units.now) }
{
    units
        .iter()
        .position(|unit| member_at(unit, start).is_some())
}

/// Names the member whose window starts at the address `base`, and moves its unit to the front.
/// The other units keep their order. None exactly where no member starts there, and then the order
/// stays.
pub fn update_first(units: &mut ArrayVec<SlotUnit, 15>, base: u32) -> Option<Member>
    ensures member { result ≡ updated_member units.old.items base }
    ensures order { units.new.items ≡ update_order units.old.items base }
{
    let start = base.checked_sub(FLASH_BASE)?;
    let place = place_of(units.as_slice(), start)?;
    let unit = units.remove(place);
    units.insert(0, unit);
    member_at(&unit, start)
}

/// Whether a version is below another: by major and then minor.
pub fn is_below(version: Version, other: Version) -> bool
    ensures { result ≡ is_below version other }
{
    version.major < other.major || (version.major == other.major && version.minor < other.minor)
}

/// Whether one of two versions is below the other.
pub fn are_different(version: Version, other: Version) -> bool
    ensures { result ≡ are_different version other }
{
    is_below(version, other) || is_below(other, version)
}

/// Which of two versions is better, A's or B's: the greater, and A's on a tie.
pub fn better_of(a: Version, b: Version) -> Member
    ensures { result ≡ better_of a b }
{
    if is_below(a, b) { Member::B } else { Member::A }
}

/// The better member of a unit by the versions of its members' images. A member without a valid
/// image has no version. None exactly where both are None.
pub fn better(a: Option<Version>, b: Option<Version>) -> Option<Member>
    ensures { result ≡ better a b }
{
    match (a, b) {
        (None, None) => None,
        (Some(_), None) => Some(Member::A),
        (None, Some(_)) => Some(Member::B),
        (Some(first), Some(second)) => Some(better_of(first, second)),
    }
}
