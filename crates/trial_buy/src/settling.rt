//! The steps of a start.

ghost use Rattle.std.specs.Prelude.{◌≡◌, ◌+◌, ◌*◌, ◌/◌, ◌≤◌, ℕ, List, [], ◌∷◌, Option, None, Some, IfSome, IsTrue, is_ok, length, true};
ghost use Rattle.pico_board.specs.declared.Step.{Step};
ghost use Rattle.pico_board.specs.declared.Step.TheVariants.{Erase};
ghost use Rattle.pico_board.specs.Board.{DoesAll};
ghost use Rattle.image_check.specs.Digests.{Knows, MakesAtMost};
ghost use Rattle.image_check.specs.Valid.{Valid};
ghost use Rattle.otp_roll.specs.Rows.{AreRollbackRows, IsRollbackVersion};
ghost use Rattle.sector_pool.specs.Keeping.{KeepsOut};
ghost use Rattle.sector_pool.specs.Pool.{HasFree};
ghost use Rattle.trial_buy.specs.Starting.{erase_in, image_raises, is_other_better, is_second, other_erase, other_image, raises_of, settling, start_erase, start_steps};
ghost use Rattle.part_table.specs.Windows.{IsPlacedIn};
ghost use Rattle.trial_buy.specs.Windows.{IsPlacedChoice};

use block_codec::Version;
use image_check::{Digests, Started, check_by};
use otp_roll::raise_to;
use pico_board::{Board, Cpu, PowerLost, Window};
use sector_pool::SectorPool;
use slot_choice::{Choice, Member, better_of};

/// Whether a member is the second one of its unit.
fn is_second(member: Member) -> bool
    ensures { result ≡ is_second member }
{
    match member {
        Member::A => false,
        Member::B => true,
    }
}

/// Whether the other member's image is better than the started one.
fn is_other_better(member: Member, started: Version, other: Version) -> bool
    ensures { result ≡ is_other_better member started other }
{
    match member {
        Member::A => is_second(better_of(started, other)),
        Member::B => !is_second(better_of(other, started)),
    }
}

/// The image of the other member, valid in a normal boot.
fn other_image<B: Board>(
    board: &B,
    pool: &mut SectorPool,
    digests: &mut Digests,
    cpu: Cpu,
    window: Option<Window>,
) -> Option<Started>
    requires power { IsTrue (B.state board.now).powered }
    requires free { HasFree pool.old }
    requires knows { Knows digests.old (B.state board.now).content }
    requires other { IfSome window (IsPlacedIn (B.state board.now).content) }
    ensures exact { result ≡ other_image (B.state board.now).content cpu window }
    ensures knows { Knows digests.new (B.state board.now).content }
    ensures made { MakesAtMost 1 digests.old digests.new }
    ensures kept { KeepsOut pool.old pool.new }
{
    match window {
        Some(window) => check_by(board, pool, digests, window, cpu, false).ok(),
        None => None,
    }
}

/// The sector whose erase takes a better image of the other member away, where there is one, with
/// what is remembered of digests. At most one digest is made: that of the other member's image.
pub fn better_sector<B: Board>(
    board: &B,
    pool: &mut SectorPool,
    digests: &mut Digests,
    cpu: Cpu,
    choice: &Choice,
) -> Option<u32>
    requires power { IsTrue (B.state board.now).powered }
    requires free { HasFree pool.old }
    requires knows { Knows digests.old (B.state board.now).content }
    requires placed { IsPlacedChoice (B.state board.now).content choice.now }
    ensures exact { erase_in result ≡ other_erase (B.state board.now).content cpu choice.now }
    ensures inside { IfSome result
        (λ s. 4096 * s + 4096 ≤ length (B.state board.now).content.flash) }
    ensures knows { Knows digests.new (B.state board.now).content }
    ensures made { MakesAtMost 1 digests.old digests.new }
    ensures kept { KeepsOut pool.old pool.new }
{
    if !choice.updated {
        return None;
    }
    let Some(window) = choice.other else {
        return None;
    };
    let Some(other) = other_image(board, pool, digests, cpu, choice.other) else {
        return None;
    };
    if is_other_better(choice.member, choice.image.version, other.version) {
        Some(window.start / 4096)
    } else {
        None
    }
}

/// Erases the sector, where there is one.
pub(crate) fn erase_in<B: Board>(board: &mut B, sector: Option<u32>) -> Result<(), PowerLost>
    requires power { IsTrue (B.state board.old).powered }
    requires inside { IfSome sector
        (λ s. 4096 * s + 4096 ≤ length (B.state board.old).content.flash) }
    ensures steps { DoesAll B.state B.history board.old (erase_in sector) (is_ok result) board.new }
{
    match sector {
        Some(sector) => board.erase(sector),
        None => Ok(()),
    }
}

/// Raises the image's rows to its rollback version, where it has one.
pub(crate) fn raise_rows<B: Board>(board: &mut B, image: &Started) -> Result<(), PowerLost>
    requires power { IsTrue (B.state board.old).powered }
    requires rows { AreRollbackRows image.now.rows.items }
    requires version { IfSome image.now.rollback (λ v. IsRollbackVersion v image.now.rows.items) }
    ensures steps { DoesAll B.state B.history board.old
        (image_raises (B.state board.old).content.otp image.now) (is_ok result) board.new }
{
    match image.rollback {
        Some(version) => raise_to(board, &image.rows, version),
        None => Ok(()),
    }
}

/// The sector that a start erases, where it erases one, with what is remembered of digests. A start
/// of a trial image erases none. At most one digest is made: that of the other member's image.
pub fn start_sector<B: Board>(
    board: &B,
    pool: &mut SectorPool,
    digests: &mut Digests,
    cpu: Cpu,
    choice: &Choice,
) -> Option<u32>
    requires power { IsTrue (B.state board.now).powered }
    requires lease { HasFree pool.old }
    requires knows { Knows digests.old (B.state board.now).content }
    requires placed { IsPlacedChoice (B.state board.now).content choice.now }
    ensures exact { erase_in result ≡ start_erase (B.state board.now).content cpu choice.now }
    ensures inside { IfSome result
        (λ s. 4096 * s + 4096 ≤ length (B.state board.now).content.flash) }
    ensures knows { Knows digests.new (B.state board.now).content }
    ensures made { MakesAtMost 1 digests.old digests.new }
    ensures kept { KeepsOut pool.old pool.new }
{
    if choice.image.trial {
        return None;
    }
    better_sector(board, pool, digests, cpu, choice)
}

/// Does what a start writes, where the sector that it erases is known. After lost power a part of
/// the steps is done.
pub fn settle_at<B: Board>(
    board: &mut B,
    choice: &Choice,
    sector: Option<u32>,
) -> Result<(), PowerLost>
    requires power { IsTrue (B.state board.old).powered }
    requires valid { (cpu : Cpu) × Valid (B.state board.old).content choice.now.image.window cpu
        true choice.now.image }
    requires inside { IfSome sector
        (λ s. 4096 * s + 4096 ≤ length (B.state board.old).content.flash) }
    ensures steps { (cpu : Cpu)
        → erase_in sector ≡ start_erase (B.state board.old).content cpu choice.now
        → DoesAll B.state B.history board.old
        (start_steps (B.state board.old).content cpu choice.now) (is_ok result) board.new }
{
    if choice.image.trial {
        return Ok(());
    }
    erase_in(board, sector)?;
    raise_rows(board, &choice.image)
}

/// Does what a start writes. For a trial image that is nothing. For another image the first sector
/// of the other member is erased, where the start was updated and the other member has a
/// normal-valid image that is better than the started one. Then the image's rows are raised to its
/// rollback version. The pool keeps what is out. After lost power a part of the steps is done.
/// (RP2350 Datasheet, chapter 5, Bootrom; the order of the steps is this project's own.)
pub fn settle<B: Board>(
    board: &mut B,
    pool: &mut SectorPool,
    cpu: Cpu,
    choice: &Choice,
) -> Result<(), PowerLost>
    requires power { IsTrue (B.state board.old).powered }
    requires lease { HasFree pool.old }
    requires placed { IsPlacedChoice (B.state board.old).content choice.now }
    requires valid { Valid (B.state board.old).content choice.now.image.window cpu true
        choice.now.image }
    ensures steps { DoesAll B.state B.history board.old
        (start_steps (B.state board.old).content cpu choice.now) (is_ok result) board.new }
    ensures kept { KeepsOut pool.old pool.new }
{
    let sector = start_sector(board, pool, &mut Digests::none(), cpu, choice);
    settle_at(board, choice, sector)
}
