//! The caveats of a script: a download whose first sector is held back, and a block that is skipped
//! since its page lies outside the flash.

ghost use Rattle.std.specs.Prelude.{◌≡◌, count_by, drop, take};
ghost use Rattle.pico_board.specs.declared.boot.Cpu.{Cpu};
ghost use Rattle.pico_board.specs.Content.{Content};
ghost use Rattle.uf2_place.specs.Rulings.{is_page_within};
ghost use Rattle.boot_script.specs.Events.{event_from};
ghost use Rattle.boot_script.specs.Scripts.{script_events};
ghost use Rattle.boot_sweep.specs.Moving.{moved_step};
ghost use Rattle.boot_tape.specs.Moving.{move_from, moves_from};
ghost use Rattle.boot_tape.specs.Playing.{IsTraceOf};
ghost use Rattle.check_records.specs.Caveats.{accepted_holds, block_holds, block_in_event, has_outside, held_from, holds_back, is_erase, is_outside, is_program, is_skip, note_holds, note_skips, outcome_holds, script_caveats, skipped_from};

use crate::found::ScriptCaveats;
use boot_script::{Event, Script};
use boot_tape::{Move, Note, Trace};
use part_table::ABSOLUTE_FAMILY;
use pico_board::{Board, FLASH_BASE, PAGE, Step};
use text_lines::{BlockOutcome, EventOutcome};
use uf2_place::{Accepted, Uf2, read_uf2};

/// Whether the step of a move is an erase.
fn is_erase(moved: &Move<'_>) -> bool
    ensures { result ≡ is_erase (moved_step (move_from moved.now)) }
{
    match moved {
        Move::Done(step) | Move::Torn(step, _, _) => match step {
            Step::Erase(_) => true,
            Step::Program(_, _) | Step::Raise(_, _) => false,
        },
    }
}

/// Whether the step of a move is a program.
fn is_program(moved: &Move<'_>) -> bool
    ensures { result ≡ is_program (moved_step (move_from moved.now)) }
{
    match moved {
        Move::Done(step) | Move::Torn(step, _, _) => match step {
            Step::Program(_, _) => true,
            Step::Erase(_) | Step::Raise(_, _) => false,
        },
    }
}

/// How many of the moves are erases.
fn erases(moves: &[Move<'_>]) -> usize
    ensures { result ≡ count_by (λ m. is_erase (moved_step m)) (moves_from moves.now) }
{
    let mut count = 0;
    for moved in moves {
        if is_erase(moved) {
            count += 1;
        }
    }
    count
}

/// How many of them are programs.
fn programs(moves: &[Move<'_>]) -> usize
    ensures { result ≡ count_by (λ m. is_program (moved_step m)) (moves_from moves.now) }
{
    let mut count = 0;
    for moved in moves {
        if is_program(moved) {
            count += 1;
        }
    }
    count
}

/// Whether a block with these moves holds pages back.
fn holds_back(moves: &[Move<'_>]) -> bool
    ensures { result ≡ holds_back (moves_from moves.now) }
{
    programs(moves) < erases(moves)
}

/// Whether an accepted block is of a gated download.
fn accepted_holds(accepted: Accepted, moves: &[Move<'_>]) -> bool
    ensures { result ≡ accepted_holds accepted (moves_from moves.now) }
{
    match accepted {
        Accepted::Skipped | Accepted::Again => false,
        Accepted::Taken => holds_back(moves),
        Accepted::Done(target) => target.gated,
    }
}

/// Whether a block is.
fn block_holds(block: &BlockOutcome, moves: &[Move<'_>]) -> bool
    ensures { result ≡ block_holds block.now (moves_from moves.now) }
{
    match block {
        BlockOutcome::Accepted(_, accepted) => accepted_holds(*accepted, moves),
        BlockOutcome::BadForm(_) | BlockOutcome::Refused(_) | BlockOutcome::Downloaded(_, _) => {
            false
        }
    }
}

/// Whether an event is a block of a gated download, by its outcome and its own moves.
fn outcome_holds(outcome: &EventOutcome, moves: &[Move<'_>]) -> bool
    ensures { result ≡ outcome_holds outcome.now (moves_from moves.now) }
{
    match outcome {
        EventOutcome::Block(block) => block_holds(block, moves),
        _ => false,
    }
}

/// The same, where no power is lost.
fn note_holds(note: &Note, moves: &[Move<'_>]) -> bool
    ensures { result ≡ note_holds note.now (moves_from moves.now) }
{
    note.whole && outcome_holds(&note.outcome, moves)
}

/// The first moves, so many of them.
fn front_of<'a, 'b>(moves: &'a [Move<'b>], count: usize) -> &'a [Move<'b>]
    ensures { result.now ≡ take count moves.now }
{
    if count < moves.len() {
        &moves[..count]
    } else {
        moves
    }
}

/// The moves behind so many.
fn behind_of<'a, 'b>(moves: &'a [Move<'b>], count: usize) -> &'a [Move<'b>]
    ensures { result.now ≡ drop count moves.now }
{
    if count < moves.len() {
        &moves[count..]
    } else {
        &moves[moves.len()..]
    }
}

/// The number of the first event that is a taken block of a gated download.
fn held_in(notes: &[Note], moves: &[Move<'_>]) -> Option<usize>
    ensures { result ≡ held_from 0 notes.now (moves_from moves.now) }
{
    let mut rest = moves;
    for (number, note) in notes.iter().enumerate() {
        if note_holds(note, front_of(rest, note.own)) {
            return Some(number);
        }
        rest = behind_of(rest, note.moves);
    }
    None
}

/// Whether the page of a block lies in a flash of this length.
fn is_page_within(len: u32, block: &Uf2) -> bool
    ensures { result ≡ is_page_within len block.now }
{
    block.address >= FLASH_BASE
        && u64::from(block.address - FLASH_BASE) + u64::from(PAGE) <= u64::from(len)
}

/// Whether a block is skipped for its page alone.
fn is_outside(len: u32, block: &Uf2) -> bool
    ensures { result ≡ is_outside len block.now }
{
    !(block.flags & 1 == 1)
        && (block.flags >> 13 & 1 == 1
            && (block.family == ABSOLUTE_FAMILY && !is_page_within(len, block)))
}

/// The block of an event, if it has one.
fn block_in_event(event: &Event<'_>) -> Option<Uf2>
    ensures { result ≡ block_in_event (event_from event.now) }
{
    match event {
        Event::Uf2(bytes) => read_uf2(bytes).ok(),
        _ => None,
    }
}

/// Whether there is a block that is skipped for its page alone.
fn has_outside(len: u32, block: Option<Uf2>) -> bool
    ensures { result ≡ has_outside len block }
{
    match block {
        Some(block) => is_outside(len, &block),
        None => false,
    }
}

/// Whether a block is skipped.
fn is_skip(outcome: &EventOutcome) -> bool
    ensures { result ≡ is_skip outcome.now }
{
    matches!(
        outcome,
        EventOutcome::Block(BlockOutcome::Accepted(_, Accepted::Skipped))
    )
}

/// Whether an event is a block that is skipped for its page alone.
fn note_skips(len: u32, event: &Event<'_>, note: &Note) -> bool
    ensures { result ≡ note_skips len (event_from event.now) note.now }
{
    is_skip(&note.outcome) && has_outside(len, block_in_event(event))
}

/// The number of the first event that is a block which is skipped for its page alone.
fn skipped_in(len: u32, script: &Script<'_>, notes: &[Note]) -> Option<usize>
    ensures { result ≡ skipped_from len 0 (script_events script.now.bytes.now) notes.now }
{
    let mut number = 0;
    for event in script.events() {
        let Some(note) = notes.get(number) else {
            return None;
        };
        if note_skips(len, &event, note) {
            return Some(number);
        }
        number += 1;
    }
    None
}

/// The caveats of a script, by its trace: the first event that is a taken block of a gated
/// download, and the first block of the absolute family that is skipped since its page lies outside
/// the flash. It takes no memory.
pub fn script_caveats(script: &Script<'_>, trace: &Trace<'_>) -> ScriptCaveats
    ensures { (c : Content) (cpu : Cpu)
        → IsTraceOf c cpu (script_events script.now.bytes.now) trace.now
        → result ≡ script_caveats c cpu (script_events script.now.bytes.now) }
{
    let held = held_in(&trace.notes, &trace.moves);
    let skipped = skipped_in(trace.board.flash_len(), script, &trace.notes);
    ScriptCaveats { held, skipped }
}
