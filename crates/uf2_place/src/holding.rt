//! Pages of a first sector that are held back in a leased sector.

ghost use Rattle.std.specs.Prelude.{◌≡◌, ℕ, ◌+◌, ◌*◌, ◌<◌, ◌≤◌, ◌++◌, IsTrue, Some, true, drop, is_ok, length, slice_get, slice_range, take};
ghost use Rattle.pico_board.specs.Board.{DoesAll};
ghost use Rattle.uf2_place.specs.Downloads.{pool_sector_bytes, held_page};
ghost use Rattle.uf2_place.specs.Placement.{program_of, programs_in};
ghost use Rattle.uf2_place.specs.Progress.{HoldsPage};

use crate::current::Held;
use pico_board::{Board, PowerLost};
use sector_pool::SectorPool;

/// Holds a page back: page `place` of the sector.
pub fn hold(pool: &mut SectorPool, held: &mut Held, place: u32, page: &[u8; 256])
    requires out { slice_get pool.old.out held.old.lease ≡ Some true }
    requires inside { place < 16 }
    ensures { HoldsPage place page.now held.old pool.old held.new pool.new }
{
    copy_page(pool.bytes_mut(&held.lease), place, page);
    held.pages |= 1 << place;
}

/// Copies a page to its place in a sector.
fn copy_page(sector: &mut [u8], place: u32, page: &[u8; 256])
    requires inside { place < 16 }
    requires size { length sector.old ≡ 4096 }
    ensures value { sector.new ≡ take (256 * place) sector.old
        ++ (page.now ++ drop (256 * place + 256) sector.old) }
    ensures size { length page.now ≡ 256 }
{
    let start = 256 * place as usize;
    sector[start..start + 256].copy_from_slice(page);
}

/// Programs the held pages of a sector, ascending.
pub fn program_held<B: Board>(
    board: &mut B,
    pool: &SectorPool,
    held: &Held,
    sector: u32,
) -> Result<(), PowerLost>
    requires power { IsTrue (B.state board.old).powered }
    requires range { 4096 * sector + 4096 ≤ length (B.state board.old).content.flash }
    requires out { slice_get pool.now.out held.now.lease ≡ Some true }
    ensures { DoesAll B.state B.history board.old
        (programs_in sector (held_page held.now.pages (pool_sector_bytes pool.now held.now.lease)))
        (is_ok result) board.new }
{
    program_marked(board, pool.bytes(&held.lease), held.pages, sector)
}

/// Programs the pages of a sector whose bit is set, ascending.
fn program_marked<B: Board>(
    board: &mut B,
    bytes: &[u8],
    pages: u16,
    sector: u32,
) -> Result<(), PowerLost>
    requires power { IsTrue (B.state board.old).powered }
    requires range { 4096 * sector + 4096 ≤ length (B.state board.old).content.flash }
    requires size { length bytes.now ≡ 4096 }
    ensures { DoesAll B.state B.history board.old (programs_in sector (held_page pages bytes.now))
        (is_ok result) board.new }
{
    for place in 0..16u32 {
        program_page(board, bytes, pages, sector, place)?;
    }
    Ok(())
}

/// Programs page `place` of a sector, where its bit is set.
fn program_page<B: Board>(
    board: &mut B,
    bytes: &[u8],
    pages: u16,
    sector: u32,
    place: u32,
) -> Result<(), PowerLost>
    requires power { IsTrue (B.state board.old).powered }
    requires range { 4096 * sector + 4096 ≤ length (B.state board.old).content.flash }
    requires size { length bytes.now ≡ 4096 }
    requires inside { place < 16 }
    ensures { DoesAll B.state B.history board.old
        (program_of (16 * sector + place) (held_page pages bytes.now place))
        (is_ok result) board.new }
{
    if pages >> place & 1 != 1 {
        return Ok(());
    }
    board.program(16 * sector + place, &page_at(bytes, place))
}

/// Page `place` of a sector's bytes.
fn page_at(bytes: &[u8], place: u32) -> [u8; 256]
    requires size { length bytes.now ≡ 4096 }
    requires inside { place < 16 }
    ensures { result ≡ slice_range bytes.now (256 * place) (256 * place + 256) }
{
    let start = 256 * place as usize;
    let mut page = [0; 256];
    page.copy_from_slice(&bytes[start..start + 256]);
    page
}
