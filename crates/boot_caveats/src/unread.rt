//! The decision of a boot that does not apply the rule on rollback rows.

ghost use Rattle.std.specs.Prelude.{◌≡◌, ◌<◌, IfOk, IsTrue};
ghost use Rattle.std.specs.List.{flat_map, list_any};
ghost use Rattle.pico_board.specs.MemBoard.{state_of};
ghost use Rattle.sector_pool.specs.Keeping.{KeepsOut};
ghost use Rattle.sector_pool.specs.Pool.{HasFree};
ghost use Rattle.image_check.specs.Digests.{Knows};
ghost use Rattle.boot_caveats.specs.ImageCaveats.{look_may_start};
ghost use Rattle.boot_caveats.specs.Unread.{fails_rollback, has_rollback_fault, is_rollback, unread_content, unread_row, unread_rows, unread_window};

use crate::choices::started_window;
use boot_reasons::UnitReport;
use boot_rules::{Started, decide_by};
use image_check::{Digests, Why};
use otp_roll::{BOOT_FLAGS, SLOT_SIZE_ROW};
use pico_board::{Board, BootKind, Cpu, MemBoard, Window};
use sector_pool::SectorPool;
use std::alloc::{AllocError, Global};

/// The rows of an OTP.
const ROWS: u16 = pico_board::ROWS as u16;

/// Of a row the slot size and whether flash boot is off alone.
fn unread_row<B: Board>(board: &B, row: u16) -> u32
    requires power { IsTrue (B.state board.now).powered }
    requires range { row < 4096 }
    ensures { result ≡ unread_row (B.state board.now).content.otp row }
{
    let value = board.otp_read(row);
    if row == SLOT_SIZE_ROW {
        value
    } else if row == BOOT_FLAGS {
        2 * (value / 2 % 2)
    } else {
        0
    }
}

/// The rows of an OTP that has these alone.
fn unread_rows<B: Board>(alloc: Global, board: &B) -> Result<Vec<u32>, AllocError>
    requires power { IsTrue (B.state board.now).powered }
    ensures { IfOk result (λ rows. rows.items ≡ unread_rows (B.state board.now).content.otp) }
{
    let mut rows = Vec::new(alloc);
    for row in 0..ROWS {
        rows.push(unread_row(board, row))?;
    }
    Ok(rows)
}

/// The bytes of a board's flash.
fn flash_of<B: Board>(alloc: Global, board: &B) -> Result<Vec<u8>, AllocError>
    requires power { IsTrue (B.state board.now).powered }
    ensures { IfOk result (λ flash. flash.items ≡ (B.state board.now).content.flash) }
{
    let mut flash = vec![in alloc; 0u8; board.flash_len() as usize]?;
    board.read(0, &mut flash);
    Ok(flash)
}

/// A board of the same flash and of an OTP that has these rows alone. It fails only where memory
/// is out.
fn unread_board<B: Board>(alloc: Global, board: &B) -> Result<MemBoard, AllocError>
    requires power { IsTrue (B.state board.now).powered }
    ensures content { IfOk result
        (λ copy. (state_of copy).content ≡ unread_content (B.state board.now).content) }
    ensures power { IfOk result (λ copy. IsTrue (state_of copy).powered) }
{
    let flash = flash_of(alloc, board)?;
    let rows = unread_rows(alloc, board)?;
    match MemBoard::new(alloc, flash, rows) {
        Ok(copy) => Ok(copy),
        Err(_) => Err(AllocError),
    }
}

/// Whether an image fails the rule on rollback rows.
pub(crate) fn is_rollback(why: Why) -> bool
    ensures { result ≡ is_rollback why }
{
    match why {
        Why::RollbackRequired | Why::Below(_, _) => true,
        Why::NoBlock | Why::Loop(_) | Why::NoDefinition | Why::NotForProcessor => false,
        Why::Items(_) | Why::Trial | Why::Map(_) | Why::Entry(_) => false,
        Why::Digest | Why::Delta => false,
    }
}

/// Whether a member's image fails this rule.
fn fails_rollback(image: &Result<Started, Why>) -> bool
    ensures { result ≡ fails_rollback image.now }
{
    match image {
        Ok(_) => false,
        Err(why) => is_rollback(*why),
    }
}

/// Whether an image of a member of a unit fails this rule.
fn has_rollback_fault(look: &UnitReport) -> bool
    ensures { result ≡ has_rollback_fault look.now }
{
    if fails_rollback(&look.first) {
        return true;
    }
    match &look.second {
        Some(image) => fails_rollback(image),
        None => false,
    }
}

/// Whether an image that is looked at fails this rule.
fn fails_any(looks: &[UnitReport]) -> bool
    ensures { result ≡ list_any has_rollback_fault looks.now }
{
    looks.iter().any(|look| has_rollback_fault(look))
}

/// The window in which a boot starts that does not apply the rule on rollback rows, where an image
/// that is looked at fails this rule; elsewhere it makes no difference. It fails only where memory
/// is out.
#[tactic(auto, using(crate::proofs::UnreadLemmas::none_rolled))]
pub(crate) fn unread_start<B: Board>(
    alloc: Global,
    board: &B,
    pool: &mut SectorPool,
    digests: &mut Digests,
    looks: &[UnitReport],
    cpu: Cpu,
    kind: BootKind,
) -> Result<Option<Window>, AllocError>
    requires power { IsTrue (B.state board.now).powered }
    requires free { HasFree pool.old }
    requires knows { Knows digests.old (B.state board.now).content }
    ensures exact { IfOk result (λ unread. flat_map (look_may_start unread) looks.now
        ≡ flat_map (look_may_start (unread_window (B.state board.now).content cpu kind))
        looks.now) }
    ensures knows { Knows digests.new (B.state board.now).content }
    ensures kept { KeepsOut pool.old pool.new }
{
    if !fails_any(looks) {
        return Ok(None);
    }
    let copy = unread_board(alloc, board)?;
    let decision = decide_by(&copy, pool, digests, cpu, kind);
    Ok(started_window(&decision))
}
