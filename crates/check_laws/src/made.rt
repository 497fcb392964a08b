//! Which laws speak of the writes of a script's boots, and of its buys.

ghost use Rattle.std.specs.Prelude.{◌≡◌, ◌∷◌, ◌++◌, [], IfOk, IsTrue, List, OnOk, drop, length, take};
ghost use Rattle.pico_board.specs.MemBoard.{state_of};
ghost use Rattle.sector_pool.specs.Pool.{HasFree};
ghost use Rattle.boot_script.specs.Events.{EventView};
ghost use Rattle.boot_session.specs.Standing.{IsUnarmed};
ghost use Rattle.boot_tape.specs.Moving.{AreMovesIn, after_moves, done_steps, move_from, moves_from};
ghost use Rattle.boot_tape.specs.Playing.{IsTraceOf};
ghost use Rattle.check_laws.specs.Made.{does_step, law_with, laws_by, laws_over, laws_with, made_by, made_of, no_writes};
ghost use Rattle.check_laws.specs.OwnLaws.{IsBootLaw, IsBuyLaw};

use crate::own::{boot_kept, raises_own};
use boot_tape::{Behind, Move, Note, Trace, copy_of, do_moves};
use check_require::LawOfWrites;
use pico_board::{Cpu, MemBoard, Step};
use sector_pool::SectorPool;
use std::alloc::{AllocError, Global};

/// A pool with free sectors.
#[tactic(auto, using(boot_machine::proofs::BeginningLemmas::new_free))]
pub(crate) fn pool_of(alloc: Global) -> Result<SectorPool, AllocError>
    ensures { IfOk result HasFree }
{
    SectorPool::make(alloc, 2)
}

/// Which laws speak of the writes of a script's boots, and of its buys.
#[derive(Clone, Copy, PartialEq, Eq, Debug)]
pub struct WriteLaws {
    /// That of its boots.
    pub boot: LawOfWrites,
    /// That of its buys.
    pub buy: LawOfWrites,
}

/// Whether there is a step.
fn does_step(done: &[Step]) -> bool
    ensures { result ≡ does_step done.now }
{
    match done {
        [] => false,
        _ => true,
    }
}

/// The law with one more that does a step, which is kept or not.
fn law_with(law: LawOfWrites, kept: bool) -> LawOfWrites
    ensures { result ≡ law_with law kept }
{
    match law {
        LawOfWrites::Silent | LawOfWrites::Kept => {
            if kept {
                LawOfWrites::Kept
            } else {
                LawOfWrites::Open
            }
        }
        LawOfWrites::Open => LawOfWrites::Open,
    }
}

/// The laws with one more boot or buy that does steps, on the board before it.
fn laws_by(
    board: &MemBoard,
    pool: &mut SectorPool,
    cpu: Cpu,
    laws: WriteLaws,
    by: &Behind,
    done: &[Step],
) -> WriteLaws
    requires power { IsTrue (state_of board.now).powered }
    requires free { HasFree pool.old }
    ensures free { HasFree pool.new }
    ensures exact { result ≡ laws_by cpu laws by.now (state_of board.now).content done.now }
{
    match by {
        Behind::Nothing => laws,
        Behind::Boot(kind) => WriteLaws {
            boot: law_with(laws.boot, boot_kept(board, pool, cpu, *kind, done)),
            buy: laws.buy,
        },
        Behind::Buy(image) => WriteLaws {
            boot: laws.boot,
            buy: law_with(laws.buy, raises_own(board, pool, cpu, image, done)),
        },
    }
}

/// The laws with what is behind an event's own moves, on the board before it.
fn laws_with(
    board: &MemBoard,
    pool: &mut SectorPool,
    cpu: Cpu,
    laws: WriteLaws,
    by: &Behind,
    done: &[Step],
) -> WriteLaws
    requires power { IsTrue (state_of board.now).powered }
    requires free { HasFree pool.old }
    ensures free { HasFree pool.new }
    ensures exact { result ≡ laws_with cpu laws
        (record { before = (state_of board.now).content; by = by.now; done = done.now }) }
{
    if does_step(done) {
        laws_by(board, pool, cpu, laws, by, done)
    } else {
        laws
    }
}

/// Adds the step of a move that completes.
fn add_done(done: &mut Vec<Step>, moved: &Move<'_>) -> Result<(), AllocError>
    ensures { OnOk result (done.new.items
        ≡ done.old.items ++ done_steps (move_from moved.now ∷ [])) }
{
    if let Move::Done(step) = moved {
        done.push(*step)?;
    }
    Ok(())
}

/// Adds the steps of the moves that complete.
pub(crate) fn add_all(done: &mut Vec<Step>, moves: &[Move<'_>]) -> Result<(), AllocError>
    ensures { OnOk result (done.new.items
        ≡ done.old.items ++ done_steps (moves_from moves.now)) }
{
    for moved in moves {
        add_done(done, moved)?;
    }
    Ok(())
}

/// The steps that complete.
fn done_of(alloc: Global, moves: &[Move<'_>]) -> Result<Vec<Step>, AllocError>
    ensures { IfOk result (λ done. done.items ≡ done_steps (moves_from moves.now)) }
{
    let mut done = Vec::new(alloc);
    add_all(&mut done, moves)?;
    Ok(done)
}

/// The first moves, as far as there are so many.
pub(crate) fn first<'a, 'b>(moves: &'a [Move<'b>], count: usize) -> &'a [Move<'b>]
    ensures { result.now ≡ take count moves.now }
{
    &moves[..count.min(moves.len())]
}

/// The moves behind these.
pub(crate) fn others<'a, 'b>(moves: &'a [Move<'b>], count: usize) -> &'a [Move<'b>]
    ensures { result.now ≡ drop count moves.now }
{
    &moves[count.min(moves.len())..]
}

/// Does the moves of an event, and answers the laws with what is behind its own ones.
fn pass(
    alloc: Global,
    board: &mut MemBoard,
    pool: &mut SectorPool,
    cpu: Cpu,
    laws: WriteLaws,
    note: &Note,
    moves: &[Move<'_>],
) -> Result<WriteLaws, AllocError>
    requires ready { IsUnarmed (state_of board.old) }
    requires free { HasFree pool.old }
    requires range { AreMovesIn (length (state_of board.old).content.flash) moves.now }
    ensures ready { OnOk result (IsUnarmed (state_of board.new)) }
    ensures free { OnOk result (HasFree pool.new) }
    ensures moved { OnOk result ((state_of board.new).content
        ≡ after_moves (state_of board.old).content (moves_from moves.now)) }
    ensures size { OnOk result (length (state_of board.new).content.flash
        ≡ length (state_of board.old).content.flash) }
    ensures judged { IfOk result (λ found. found ≡ laws_with cpu laws
        (made_of (state_of board.old).content note.now (moves_from moves.now))) }
{
    do_moves(board, first(moves, note.own));
    let behind = others(moves, note.own);
    let done = done_of(alloc, behind)?;
    let found = laws_with(board, pool, cpu, laws, &note.behind, &done);
    do_moves(board, behind);
    Ok(found)
}

/// The laws of the writes of a script, by what was noted of its events and by its moves.
fn laws_on(
    alloc: Global,
    board: &mut MemBoard,
    pool: &mut SectorPool,
    cpu: Cpu,
    notes: &[Note],
    moves: &[Move<'_>],
) -> Result<WriteLaws, AllocError>
    requires ready { IsUnarmed (state_of board.old) }
    requires free { HasFree pool.old }
    requires range { AreMovesIn (length (state_of board.old).content.flash) moves.now }
    ensures { IfOk result (λ found. found ≡ laws_over cpu no_writes
        (made_by (state_of board.old).content notes.now (moves_from moves.now))) }
{
    let mut laws = WriteLaws {
        boot: LawOfWrites::Silent,
        buy: LawOfWrites::Silent,
    };
    let mut left = moves;
    for note in notes {
        laws = pass(alloc, board, pool, cpu, laws, note, first(left, note.moves))?;
        left = others(left, note.moves);
    }
    Ok(laws)
}

/// Which laws speak of the writes of a script's boots, and of its buys, on a powered board. The
/// trace is that of the script from this board on. It fails only where memory is out.
pub fn write_laws(
    alloc: Global,
    board: &MemBoard,
    cpu: Cpu,
    trace: &Trace<'_>,
) -> Result<WriteLaws, AllocError>
    requires power { IsTrue (state_of board.now).powered }
    requires trace { (events : List EventView)
        × IsTraceOf (state_of board.now).content cpu events trace.now }
    ensures boot { IfOk result (λ laws. (events : List EventView)
        → IsTraceOf (state_of board.now).content cpu events trace.now
        → IsBootLaw (state_of board.now).content cpu events laws.boot) }
    ensures buy { IfOk result (λ laws. (events : List EventView)
        → IsTraceOf (state_of board.now).content cpu events trace.now
        → IsBuyLaw (state_of board.now).content cpu events laws.buy) }
{
    let mut copy = copy_of(alloc, board)?;
    let mut pool = pool_of(alloc)?;
    let laws = laws_on(alloc, &mut copy, &mut pool, cpu, &trace.notes, &trace.moves)?;
    Ok(laws)
}
