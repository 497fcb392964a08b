//! The choice in a unit.

ghost use Rattle.std.specs.Prelude.{◌≡◌, ◌+◌, ◌≤◌, false, IfSome, IsTrue, Some, length, option_map};
ghost use Rattle.pico_board.specs.declared.boot.Cpu.{Cpu};
ghost use Rattle.pico_board.specs.declared.window.Window.{Window};
ghost use Rattle.image_def.specs.Guarantees.{IsDefinition};
ghost use Rattle.load_map.specs.Stored.{AreStoredIn};
ghost use Rattle.image_check.specs.Digests.{Knows, MakesAtMost};
ghost use Rattle.pico_board.specs.Content.{window_bytes};
ghost use Rattle.sector_pool.specs.Keeping.{KeepsOut};
ghost use Rattle.sector_pool.specs.Pool.{HasFree};
ghost use Rattle.slot_choice.specs.Units.{member_window};
ghost use Rattle.boot_rules.specs.Choosing.{choice_of, images_in, member_image, other_of, unit_choice};
ghost use Rattle.boot_rules.specs.Picking.{taken, AreInside, IsInside};
ghost use Rattle.boot_rules.specs.Stages.{candidate_in, candidate_version};

use block_codec::Version;
use image_check::{Addressing, Candidate, Digests, Started, check_by, confirm_by, examine};
use pico_board::{Board, Cpu, FlashView, Window};
use sector_pool::SectorPool;
use slot_choice::{Choice, Member, SlotUnit, better};

/// The other member of a pair.
pub fn other_of(member: Member) -> Member
    ensures { result ≡ other_of member }
{
    match member {
        Member::A => Member::B,
        Member::B => Member::A,
    }
}

/// The window of a member of a unit.
pub fn member_window(unit: &SlotUnit, member: Member) -> Option<Window>
    ensures { result ≡ member_window member unit.now }
{
    match member {
        Member::A => Some(unit.a),
        Member::B => unit.b,
    }
}

/// The choice of a member's image.
pub fn choice_of(unit: &SlotUnit, member: Member, updated: bool, image: Started) -> Choice
    ensures { result ≡ choice_of unit.now member updated image }
{
    Choice {
        image,
        member,
        other: member_window(unit, other_of(member)),
        updated,
    }
}

/// The image of a member of a unit, with a trial image allowed or not. None where there is no valid
/// one.
fn member_image<B: Board>(
    board: &B,
    pool: &mut SectorPool,
    digests: &mut Digests,
    unit: &SlotUnit,
    member: Member,
    cpu: Cpu,
    trial_ok: bool,
) -> Option<Started>
    requires power { IsTrue (B.state board.now).powered }
    requires free { HasFree pool.old }
    requires knows { Knows digests.old (B.state board.now).content }
    requires inside { AreInside (length (B.state board.now).content.flash) unit.now }
    ensures exact { result ≡ member_image
        (images_in (B.state board.now).content cpu) unit.now member trial_ok }
    ensures knows { Knows digests.new (B.state board.now).content }
    ensures made { MakesAtMost 1 digests.old digests.new }
    ensures kept { KeepsOut pool.old pool.new }
{
    match member_window(unit, member) {
        Some(window) => check_by(board, pool, digests, window, cpu, trial_ok).ok(),
        None => None,
    }
}

/// The choice in a unit where one of its members is updated. It is that member's image where it is
/// valid with a trial image allowed, and otherwise the other one's.
fn updated_choice<B: Board>(
    board: &B,
    pool: &mut SectorPool,
    digests: &mut Digests,
    unit: &SlotUnit,
    member: Member,
    cpu: Cpu,
) -> Option<Choice>
    requires power { IsTrue (B.state board.now).powered }
    requires free { HasFree pool.old }
    requires knows { Knows digests.old (B.state board.now).content }
    requires inside { AreInside (length (B.state board.now).content.flash) unit.now }
    ensures exact { result ≡ unit_choice (images_in (B.state board.now).content cpu) unit.now
        (Some member) }
    ensures knows { Knows digests.new (B.state board.now).content }
    ensures made { MakesAtMost 2 digests.old digests.new }
    ensures kept { KeepsOut pool.old pool.new }
{
    if let Some(image) = member_image(board, pool, digests, unit, member, cpu, true) {
        return Some(choice_of(unit, member, true, image));
    }
    let other = other_of(member);
    match member_image(board, pool, digests, unit, other, cpu, false) {
        Some(image) => Some(choice_of(unit, other, false, image)),
        None => None,
    }
}

/// The image of a window before its digest is made, where no trial image is allowed.
fn candidate_in<B: Board>(board: &B, window: Option<Window>, cpu: Cpu) -> Option<Candidate>
    requires power { IsTrue (B.state board.now).powered }
    requires inside { IfSome window (IsInside (length (B.state board.now).content.flash)) }
    ensures exact { result ≡ candidate_in (B.state board.now).content cpu window }
    ensures sound { IfSome result (λ c. IsDefinition c.block c.def) }
    ensures stored { (w : Window) → window ≡ Some w → IfSome result
        (λ c. AreStoredIn (length (window_bytes (B.state board.now).content w)) c.loads.items) }
{
    match window {
        Some(window) => {
            let view = FlashView { board, window };
            examine(board, &view, Addressing::FLASH, cpu, false).ok()
        }
        None => None,
    }
}

/// The version of the image that was seen of a member.
fn version_of(seen: &Option<Candidate>) -> Option<Version>
    ensures { result ≡ candidate_version seen.now }
{
    match seen {
        Some(candidate) => Some(candidate.def.version),
        None => None,
    }
}

/// The choice of a member's image of which this is seen, where its digest is right.
fn confirmed<B: Board>(
    board: &B,
    pool: &mut SectorPool,
    digests: &mut Digests,
    unit: &SlotUnit,
    member: Member,
    cpu: Cpu,
    seen: &Option<Candidate>,
) -> Option<Choice>
    requires power { IsTrue (B.state board.now).powered }
    requires free { HasFree pool.old }
    requires knows { Knows digests.old (B.state board.now).content }
    requires inside { AreInside (length (B.state board.now).content.flash) unit.now }
    requires seen { seen.now
        ≡ candidate_in (B.state board.now).content cpu (member_window member unit.now) }
    requires sound { IfSome seen.now (λ c. IsDefinition c.block c.def) }
    requires stored { (w : Window) → member_window member unit.now ≡ Some w → IfSome seen.now
        (λ c. AreStoredIn (length (window_bytes (B.state board.now).content w)) c.loads.items) }
    ensures exact { result ≡ option_map (choice_of unit.now member false)
        (member_image (images_in (B.state board.now).content cpu) unit.now member false) }
    ensures knows { Knows digests.new (B.state board.now).content }
    ensures made { MakesAtMost 1 digests.old digests.new }
    ensures kept { KeepsOut pool.old pool.new }
{
    let Some(window) = member_window(unit, member) else {
        return None;
    };
    let Some(candidate) = seen else {
        return None;
    };
    match confirm_by(board, pool, digests, window, cpu, candidate) {
        Ok(image) => Some(choice_of(unit, member, false, image)),
        Err(_) => None,
    }
}

/// The choice in a unit without an update. Of the members with a valid image, where no trial image
/// is allowed, it is the one of greater version, A on a tie. The versions are read before a digest
/// is asked for. The digest of the other member is asked for only where that of the better one is
/// wrong.
pub(crate) fn taken<B: Board>(
    board: &B,
    pool: &mut SectorPool,
    digests: &mut Digests,
    unit: &SlotUnit,
    cpu: Cpu,
) -> Option<Choice>
    requires power { IsTrue (B.state board.now).powered }
    requires free { HasFree pool.old }
    requires knows { Knows digests.old (B.state board.now).content }
    requires inside { AreInside (length (B.state board.now).content.flash) unit.now }
    ensures exact { result ≡ taken (B.state board.now).content cpu unit.now }
    ensures knows { Knows digests.new (B.state board.now).content }
    ensures made { MakesAtMost 2 digests.old digests.new }
    ensures kept { KeepsOut pool.old pool.new }
{
    let first = candidate_in(board, Some(unit.a), cpu);
    let second = candidate_in(board, unit.b, cpu);
    match better(version_of(&first), version_of(&second)) {
        None => None,
        Some(Member::A) => match confirmed(board, pool, digests, unit, Member::A, cpu, &first) {
            Some(choice) => Some(choice),
            None => confirmed(board, pool, digests, unit, Member::B, cpu, &second),
        },
        Some(Member::B) => match confirmed(board, pool, digests, unit, Member::B, cpu, &second) {
            Some(choice) => Some(choice),
            None => confirmed(board, pool, digests, unit, Member::A, cpu, &first),
        },
    }
}

/// The choice in a unit, where one of its members may be updated.
pub(crate) fn unit_choice<B: Board>(
    board: &B,
    pool: &mut SectorPool,
    digests: &mut Digests,
    unit: &SlotUnit,
    updated: Option<Member>,
    cpu: Cpu,
) -> Option<Choice>
    requires power { IsTrue (B.state board.now).powered }
    requires free { HasFree pool.old }
    requires knows { Knows digests.old (B.state board.now).content }
    requires inside { AreInside (length (B.state board.now).content.flash) unit.now }
    ensures exact { result ≡ unit_choice
        (images_in (B.state board.now).content cpu) unit.now updated }
    ensures knows { Knows digests.new (B.state board.now).content }
    ensures made { MakesAtMost 2 digests.old digests.new }
    ensures kept { KeepsOut pool.old pool.new }
{
    match updated {
        Some(member) => updated_choice(board, pool, digests, unit, member, cpu),
        None => taken(board, pool, digests, unit, cpu),
    }
}
