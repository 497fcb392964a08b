//! The steps that a block brings to a download.

ghost use Rattle.std.specs.Prelude.{◌≡◌, ℕ, ◌+◌, ◌*◌, ◌<◌, ◌≤◌, ◌^◌, ◌&&◌, ◌==◌, IsTrue, OnOk, Some, List, [], ◌∷◌, ◌++◌, if◌then◌else◌, slice_get, false, true, is_ok, is_some, length};
ghost use Rattle.std.specs.Bool.{OnTrue, OnFalse};
ghost use Rattle.pico_board.specs.Board.{DoesAll};
ghost use Rattle.sector_pool.specs.Keeping.{HandsOver};
ghost use Rattle.uf2_place.specs.Blocks.{IsUf2};
ghost use Rattle.uf2_place.specs.declared.block.Uf2.{Uf2};
ghost use Rattle.uf2_place.specs.Downloads.{Follows, IsOut, IsTargetIn, pool_sector_bytes, held_page, lease_in};
ghost use Rattle.uf2_place.specs.Marks.{is_marked};
ghost use Rattle.uf2_place.specs.Placement.{HasWholeSectors, grown, IsPageInside, erase_steps, fresh_steps, programs_in, sector_in};
ghost use Rattle.uf2_place.specs.Progress.{HoldsBlock, MayComeNext, MarksSector, TakesNumber, held_steps, is_held_back, open_steps, put_steps};

use crate::block::Uf2;
use crate::current::{Current, Held};
use crate::holding::{hold, program_held};
use crate::marks::Marks;
use crate::pages::{first_in, page_in, sector_in};
use pico_board::{Board, PowerLost};
use sector_pool::SectorPool;

/// Erases a sector, where it is not erased yet.
fn erase_fresh<B: Board>(board: &mut B, marks: &mut Marks, sector: u32) -> Result<(), PowerLost>
    requires power { IsTrue (B.state board.old).powered }
    requires range { 4096 * sector + 4096 ≤ length (B.state board.old).content.flash }
    ensures steps { DoesAll B.state B.history board.old
        (erase_steps (is_marked marks.old.sectors sector) sector) (is_ok result) board.new }
    ensures marks { OnOk result (MarksSector sector marks.old marks.new) }
{
    if marks.has_sector(sector) {
        return Ok(());
    }
    board.erase(sector)?;
    marks.add_sector(sector);
    Ok(())
}

/// Erases the page's sector, where it is not erased yet, and programs the page.
fn write_fresh<B: Board>(
    board: &mut B,
    marks: &mut Marks,
    sector: u32,
    page: u32,
    bytes: &[u8; 256],
) -> Result<(), PowerLost>
    requires power { IsTrue (B.state board.old).powered }
    requires range { 4096 * sector + 4096 ≤ length (B.state board.old).content.flash }
    requires page { 256 * page + 256 ≤ length (B.state board.old).content.flash }
    ensures steps { DoesAll B.state B.history board.old
        (fresh_steps (is_marked marks.old.sectors sector) sector page bytes.now)
        (is_ok result) board.new }
    ensures marks { OnOk result (MarksSector sector marks.old marks.new) }
{
    erase_fresh(board, marks, sector)?;
    board.program(page, bytes)
}

/// Erases the first sector of a gated target, where no block is taken yet.
fn open<B: Board>(board: &mut B, current: &Current) -> Result<(), PowerLost>
    requires power { IsTrue (B.state board.old).powered }
    requires target { IsTargetIn (length (B.state board.old).content.flash) current.now.target }
    ensures { DoesAll B.state B.history board.old (open_steps current.now) (is_ok result)
        board.new }
{
    if current.held.is_none() || current.left != current.count {
        return Ok(());
    }
    board.erase(first_in(current.target.window))
}

/// Whether the block's page is held back.
fn is_held_back(current: &Current, block: &Uf2) -> bool
    requires inside { IsPageInside current.now.target.window block.now }
    requires near { current.now.target.window.start + current.now.target.window.len < 2 ^ 32 }
    ensures { result ≡ is_held_back current.now block.now }
{
    let window = current.target.window;
    current.held.is_some() && sector_in(window, block) == first_in(window)
}

/// Holds the block's page back.
fn hold_block(pool: &mut SectorPool, current: &mut Current, block: &Uf2)
    requires inside { IsPageInside current.old.target.window block.now }
    requires near { current.old.target.window.start + current.old.target.window.len < 2 ^ 32 }
    requires whole { HasWholeSectors current.old.target.window }
    requires back { is_held_back current.old block.now ≡ true }
    requires out { IsOut pool.old (lease_in current.old.held) }
    ensures { HoldsBlock block.now current.old pool.old current.new pool.new }
{
    let page = page_in(current.target.window, block);
    match &mut current.held {
        Some(held) => hold(pool, held, page % 16, &block.page),
        None => unreachable!(),
    }
}

/// Does a block's own steps, or holds its page back.
fn put<B: Board>(
    board: &mut B,
    pool: &mut SectorPool,
    marks: &mut Marks,
    current: &mut Current,
    block: &Uf2,
) -> Result<(), PowerLost>
    requires power { IsTrue (B.state board.old).powered }
    requires inside { IsPageInside current.old.target.window block.now }
    requires target { IsTargetIn (length (B.state board.old).content.flash) current.old.target }
    requires out { IsOut pool.old (lease_in current.old.held) }
    ensures steps { DoesAll B.state B.history board.old
        (put_steps current.old marks.old block.now) (is_ok result) board.new }
    ensures left { current.new.left ≡ current.old.left }
    ensures target { current.new.target ≡ current.old.target }
    ensures lease { lease_in current.new.held ≡ lease_in current.old.held }
    ensures out { IsOut pool.new (lease_in current.old.held) }
    ensures numbers { pool.new.out ≡ pool.old.out }
    ensures held { OnTrue (is_held_back current.old block.now)
        ((marks.new ≡ marks.old) × HoldsBlock block.now current.old pool.old current.new pool.new) }
    ensures same { OnFalse (is_held_back current.old block.now)
        ((current.new ≡ current.old) × (pool.new ≡ pool.old)) }
    ensures marks { OnFalse (is_held_back current.old block.now) (OnOk result
        (MarksSector (sector_in current.old.target.window block.now) marks.old marks.new)) }
{
    if is_held_back(current, block) {
        hold_block(pool, current, block);
        return Ok(());
    }
    let window = current.target.window;
    write_fresh(
        board,
        marks,
        sector_in(window, block),
        page_in(window, block),
        &block.page,
    )
}

/// Programs the held pages, where no block is to come.
fn finish<B: Board>(board: &mut B, pool: &SectorPool, current: &Current) -> Result<(), PowerLost>
    requires power { IsTrue (B.state board.old).powered }
    requires target { IsTargetIn (length (B.state board.old).content.flash) current.now.target }
    requires out { IsOut pool.now (lease_in current.now.held) }
    ensures { DoesAll B.state B.history board.old (held_steps pool.now current.now current.now.held)
        (is_ok result) board.new }
{
    match &current.held {
        None => Ok(()),
        Some(held) => finish_held(
            board,
            pool,
            held,
            current.left,
            first_in(current.target.window),
        ),
    }
}

/// Programs the held pages, where no block is left to come.
fn finish_held<B: Board>(
    board: &mut B,
    pool: &SectorPool,
    held: &Held,
    left: u32,
    sector: u32,
) -> Result<(), PowerLost>
    requires power { IsTrue (B.state board.old).powered }
    requires range { 4096 * sector + 4096 ≤ length (B.state board.old).content.flash }
    requires out { slice_get pool.now.out held.now.lease ≡ Some true }
    ensures { DoesAll B.state B.history board.old
        (if left == 0 then programs_in sector
        (held_page held.now.pages (pool_sector_bytes pool.now held.now.lease)) else [])
        (is_ok result) board.new }
{
    if left != 0 {
        return Ok(());
    }
    program_held(board, pool, held, sector)
}

/// Takes a block's number.
fn take_number(marks: &mut Marks, current: &mut Current, block: &Uf2)
    requires some { 1 ≤ current.old.left }
    requires number { block.now.number < 65536 }
    ensures { TakesNumber block.now current.old marks.old current.new marks.new }
{
    marks.add_number(block.number);
    current.left -= 1;
}

/// Does what a block brings to a download.
pub fn place_block<B: Board>(
    board: &mut B,
    pool: &mut SectorPool,
    marks: &mut Marks,
    current: &mut Current,
    block: &Uf2,
) -> Result<(), PowerLost>
    requires power { IsTrue (B.state board.old).powered }
    requires block { IsUf2 block.now }
    requires inside { IsPageInside current.old.target.window block.now }
    requires target { IsTargetIn (length (B.state board.old).content.flash) current.old.target }
    requires some { 1 ≤ current.old.left }
    requires out { IsOut pool.old (lease_in current.old.held) }
    ensures steps { (blocks : List Uf2) → Follows pool.old marks.old current.old blocks
        → MayComeNext current.old blocks block.now
        → DoesAll B.state B.history board.old
        (grown current.old.target blocks (blocks ++ block.now ∷ [])) (is_ok result) board.new }
    ensures follows { (blocks : List Uf2) → Follows pool.old marks.old current.old blocks
        → MayComeNext current.old blocks block.now
        → OnOk result (Follows pool.new marks.new current.new (blocks ++ block.now ∷ [])) }
    ensures left { OnOk result (current.new.left + 1 ≡ current.old.left) }
    ensures size { length (B.state board.new).content.flash
        ≡ length (B.state board.old).content.flash }
    ensures power { (B.state board.new).powered ≡ is_ok result }
    ensures numbers { pool.new.out ≡ pool.old.out }
    ensures target { current.new.target ≡ current.old.target }
    ensures lease { lease_in current.new.held ≡ lease_in current.old.held }
    ensures pool { HandsOver (lease_in current.old.held) (lease_in current.old.held)
        pool.old pool.new }
{
    open(board, current)?;
    put(board, pool, marks, current, block)?;
    take_number(marks, current, block);
    finish(board, pool, current)
}
