//! The steps of a buy.

ghost use Rattle.std.specs.Prelude.{◌≡◌, ◌+◌, ◌*◌, ◌/◌, ◌<◌, ◌≤◌, ◌^◌, IfSome, IsTrue, is_ok, length, slice_range, true};
ghost use Rattle.pico_board.specs.Board.{DoesAll};
ghost use Rattle.image_check.specs.Valid.{Valid};
ghost use Rattle.sector_pool.specs.Keeping.{KeepsOut};
ghost use Rattle.sector_pool.specs.Pool.{HasFree};
ghost use Rattle.trial_buy.specs.Buying.{buy_steps, cleared, clearing, page_program, page_programs, rewrite_steps, trial_place};
ghost use Rattle.trial_buy.specs.Starting.{erase_in, other_erase};
ghost use Rattle.trial_buy.specs.Windows.{IsPlacedChoice};

use crate::settling::{better_sector, erase_in, raise_rows};
use image_check::{Digests, Started};
use pico_board::{Board, Cpu, PowerLost};
use sector_pool::SectorPool;
use slot_choice::Choice;

/// The flash offset of the byte whose high bit is the trial bit.
fn trial_place(image: &Started) -> u32
    requires { trial_place image.now < 2 ^ 32 }
    ensures { result ≡ trial_place image.now }
{
    image.window.start + image.image_at + 3
}

/// Page i of these bytes.
fn page_of(bytes: &[u8], i: u32) -> [u8; 256]
    requires { 256 * i + 256 ≤ length bytes.now }
    ensures { result ≡ slice_range bytes.now (256 * i) (256 * i + 256) }
{
    let mut page = [0u8; 256];
    let at = 256 * i as usize;
    page.copy_from_slice(&bytes[at..at + 256]);
    page
}

/// Programs the 16 pages of a sector with these bytes, ascending.
fn program_pages<B: Board>(board: &mut B, sector: u32, bytes: &[u8]) -> Result<(), PowerLost>
    requires power { IsTrue (B.state board.old).powered }
    requires inside { 4096 * sector + 4096 ≤ length (B.state board.old).content.flash }
    requires whole { length bytes.now ≡ 4096 }
    ensures steps { DoesAll B.state B.history board.old (page_programs sector bytes.now)
        (is_ok result) board.new }
{
    for i in 0..16u32 {
        board.program(16 * sector + i, &page_of(bytes, i))?;
    }
    Ok(())
}

/// Erases a sector, and programs its pages with these bytes.
fn rewrite<B: Board>(board: &mut B, sector: u32, bytes: &[u8]) -> Result<(), PowerLost>
    requires power { IsTrue (B.state board.old).powered }
    requires inside { 4096 * sector + 4096 ≤ length (B.state board.old).content.flash }
    requires whole { length bytes.now ≡ 4096 }
    ensures steps { DoesAll B.state B.history board.old (rewrite_steps sector bytes.now)
        (is_ok result) board.new }
{
    board.erase(sector)?;
    program_pages(board, sector, bytes)
}

/// Rewrites the sector of a place of the flash through a piece of 4096 bytes, with the high bit of
/// the byte there cleared.
fn clear_through<B: Board>(board: &mut B, piece: &mut [u8], place: u32) -> Result<(), PowerLost>
    requires power { IsTrue (B.state board.old).powered }
    requires inside { place < length (B.state board.old).content.flash }
    requires whole { length piece.old ≡ 4096 }
    ensures steps { DoesAll B.state B.history board.old
        (clearing (B.state board.old).content.flash place) (is_ok result) board.new }
{
    let sector = place / 4096;
    board.read(4096 * sector, piece);
    let at = (place % 4096) as usize;
    piece[at] %= 128;
    rewrite(board, sector, piece)
}

/// Rewrites the sector of a place of the flash, with the high bit of the byte there cleared.
fn clear<B: Board>(board: &mut B, pool: &mut SectorPool, place: u32) -> Result<(), PowerLost>
    requires power { IsTrue (B.state board.old).powered }
    requires lease { HasFree pool.old }
    requires inside { place < length (B.state board.old).content.flash }
    ensures steps { DoesAll B.state B.history board.old
        (clearing (B.state board.old).content.flash place) (is_ok result) board.new }
    ensures kept { KeepsOut pool.old pool.new }
{
    match pool.lease() {
        None => unreachable!(),
        Some(lease) => {
            let done = clear_through(board, pool.bytes_mut(&lease), place);
            pool.give_back(lease);
            done
        }
    }
}

/// Does what a buy of a running trial image writes, where the sector of the other member's better
/// image is known. After lost power a part of the steps is done.
pub fn buy_at<B: Board>(
    board: &mut B,
    pool: &mut SectorPool,
    choice: &Choice,
    sector: Option<u32>,
) -> Result<(), PowerLost>
    requires power { IsTrue (B.state board.old).powered }
    requires lease { HasFree pool.old }
    requires placed { IsPlacedChoice (B.state board.old).content choice.now }
    requires valid { (cpu : Cpu) × Valid (B.state board.old).content choice.now.image.window cpu
        true choice.now.image }
    requires trial { choice.now.image.trial ≡ true }
    requires inside { IfSome sector
        (λ s. 4096 * s + 4096 ≤ length (B.state board.old).content.flash) }
    ensures steps { (cpu : Cpu)
        → erase_in sector ≡ other_erase (B.state board.old).content cpu choice.now
        → DoesAll B.state B.history board.old
        (buy_steps (B.state board.old).content cpu choice.now) (is_ok result) board.new }
    ensures kept { KeepsOut pool.old pool.new }
{
    let image = &choice.image;
    clear(board, pool, trial_place(image))?;
    erase_in(board, sector)?;
    raise_rows(board, image)
}

/// Does what a buy of a running trial image writes. The sector that holds the trial bit is
/// rewritten with that bit cleared, its 16 pages ascending. Then the first sector of the other
/// member is erased, where the start was updated and the other member has a normal-valid image that
/// is better than the started one. Then the image's rows are raised to its rollback version. The
/// former sector is kept in a lease, and the pool keeps what is out. After lost power a part of the
/// steps is done. (RP2350 Datasheet, chapter 5, "Try before you buy"; the order of the steps is
/// this project's own.)
pub fn buy<B: Board>(
    board: &mut B,
    pool: &mut SectorPool,
    cpu: Cpu,
    choice: &Choice,
) -> Result<(), PowerLost>
    requires power { IsTrue (B.state board.old).powered }
    requires lease { HasFree pool.old }
    requires placed { IsPlacedChoice (B.state board.old).content choice.now }
    requires valid { Valid (B.state board.old).content choice.now.image.window cpu true
        choice.now.image }
    requires trial { choice.now.image.trial ≡ true }
    ensures steps { DoesAll B.state B.history board.old
        (buy_steps (B.state board.old).content cpu choice.now) (is_ok result) board.new }
    ensures kept { KeepsOut pool.old pool.new }
{
    let sector = better_sector(board, pool, &mut Digests::none(), cpu, choice);
    buy_at(board, pool, choice, sector)
}
