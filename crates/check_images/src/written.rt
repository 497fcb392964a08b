//! Which windows are written, and by whom.

ghost use Rattle.std.specs.Prelude.{◌≡◌, All, IfOk, IsTrue, length, slice_get};
ghost use Rattle.pico_board.specs.MemBoard.{state_of};
ghost use Rattle.sector_pool.specs.Keeping.{KeepsOut};
ghost use Rattle.sector_pool.specs.Pool.{HasFree};
ghost use Rattle.boot_rules.specs.Picking.{IsInside};
ghost use Rattle.boot_sweep.specs.Moving.{moved_step};
ghost use Rattle.boot_tape.specs.Moving.{does_step, move_from, moves_from};
ghost use Rattle.check_images.specs.Lines.{AreLinesOf};
ghost use Rattle.check_images.specs.Written.{AreWritten, IsWritten, has_written, is_doer, writer_of, writes_here};

use crate::found::WrittenWindow;
use crate::judging::image_in;
use crate::lines::push_line;
use crate::members::members_in;
use crate::touching::touches;
use boot_tape::{Doer, Move};
use check_require::Writer;
use pico_board::{Cpu, MemBoard, Step, Window};
use sector_pool::SectorPool;
use std::alloc::{AllocError, Global};

/// Whether the two are one doer.
fn is_doer(one: Doer, other: Doer) -> bool
    ensures { result ≡ is_doer one other }
{
    match (one, other) {
        (Doer::Host, Doer::Host) | (Doer::Boot, Doer::Boot) | (Doer::Buy, Doer::Buy) => true,
        (_, _) => false,
    }
}

/// The step that is done or torn.
fn step_of<'a>(moved: &'a Move<'_>) -> &'a Step
    ensures { result.now ≡ moved_step (move_from moved.now) }
{
    match moved {
        Move::Done(step) | Move::Torn(step, _, _) => step,
    }
}

/// Whether the step of the move completes, or is torn within.
fn does_step(moved: &Move<'_>) -> bool
    ensures { result ≡ does_step (move_from moved.now) }
{
    match moved {
        Move::Done(_) => true,
        Move::Torn(_, within, _) => *within,
    }
}

/// Whether this doer completes or tears the step of the move, and that touches the window.
fn writes_here(window: Window, by: Doer, moved: &Move<'_>, doer: Option<Doer>) -> bool
    ensures { result ≡ writes_here window by (move_from moved.now) doer }
{
    match doer {
        Some(doer) => { is_doer(by, doer) && does_step(moved) && touches(window, step_of(moved)) }
        None => false,
    }
}

/// The doer at a place, if there is one.
fn doer_at(doers: &[Doer], place: usize) -> Option<Doer>
    ensures { result ≡ slice_get doers.now place }
{
    doers.get(place).copied()
}

/// Whether this doer has written the window.
fn has_written(window: Window, by: Doer, moves: &[Move<'_>], doers: &[Doer]) -> bool
    ensures { result ≡ has_written window by (moves_from moves.now) doers.now }
{
    for (place, moved) in moves.iter().enumerate() {
        if writes_here(window, by, moved, doer_at(doers, place)) {
            return true;
        }
    }
    false
}

/// Who has written the window, if somebody has.
fn writer_of(window: Window, moves: &[Move<'_>], doers: &[Doer]) -> Option<Writer>
    ensures { result ≡ writer_of (moves_from moves.now) doers.now window }
{
    if has_written(window, Doer::Host, moves, doers) {
        Some(Writer::Script)
    } else if has_written(window, Doer::Boot, moves, doers) {
        Some(Writer::Boot)
    } else if has_written(window, Doer::Buy, moves, doers) {
        Some(Writer::Buy)
    } else {
        None
    }
}

/// What is told of a window: who has written it, and its image. None where nobody has.
fn written_line(
    board: &MemBoard,
    pool: &mut SectorPool,
    cpu: Cpu,
    moves: &[Move<'_>],
    doers: &[Doer],
    window: Window,
) -> Option<WrittenWindow>
    requires power { IsTrue (state_of board.now).powered }
    requires lease { HasFree pool.old }
    requires inside { IsInside (length (state_of board.now).content.flash) window }
    ensures line { IsWritten (state_of board.now).content cpu (moves_from moves.now) doers.now
        window result }
    ensures pool { KeepsOut pool.old pool.new }
{
    let by = writer_of(window, moves, doers)?;
    let image = image_in(board, pool, cpu, window, true);
    Some(WrittenWindow { window, by, image })
}

/// The lines of these windows, in their order.
fn written_lines(
    alloc: Global,
    end: &MemBoard,
    pool: &mut SectorPool,
    cpu: Cpu,
    moves: &[Move<'_>],
    doers: &[Doer],
    members: &[Window],
) -> Result<Vec<WrittenWindow>, AllocError>
    requires power { IsTrue (state_of end.now).powered }
    requires lease { HasFree pool.old }
    requires inside { All (IsInside (length (state_of end.now).content.flash)) members.now }
    ensures lines { IfOk result (λ lines. AreLinesOf
        (IsWritten (state_of end.now).content cpu (moves_from moves.now) doers.now)
        members.now lines.items) }
    ensures pool { KeepsOut pool.old pool.new }
{
    let mut lines = Vec::new(alloc);
    for window in members {
        let line = written_line(end, pool, cpu, moves, doers, *window);
        push_line(&mut lines, line)?;
    }
    Ok(lines)
}

/// The members of the board's boot units that were written, in their order. Of the moves, each is
/// done by the doer at its place. It fails only where memory is out, and the pool keeps what is
/// out.
pub fn written_windows(
    alloc: Global,
    end: &MemBoard,
    pool: &mut SectorPool,
    cpu: Cpu,
    moves: &[Move<'_>],
    doers: &[Doer],
) -> Result<Vec<WrittenWindow>, AllocError>
    requires power { IsTrue (state_of end.now).powered }
    requires lease { HasFree pool.old }
    ensures written { IfOk result (λ lines. AreWritten (state_of end.now).content cpu
        (moves_from moves.now) doers.now lines.items) }
    ensures pool { KeepsOut pool.old pool.new }
{
    let members = members_in(alloc, end, cpu)?;
    written_lines(alloc, end, pool, cpu, moves, doers, &members)
}
