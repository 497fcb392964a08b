//! What the records of a script do, by what is noted of its events.

ghost use Rattle.std.specs.Prelude.{◌≡◌, IfOk};
ghost use Rattle.pico_board.specs.declared.boot.Cpu.{Cpu};
ghost use Rattle.pico_board.specs.Content.{Content};
ghost use Rattle.uf2_place.specs.Blocks.{uf2_of};
ghost use Rattle.boot_script.specs.Events.{event_from};
ghost use Rattle.boot_script.specs.Scripts.{script_events};
ghost use Rattle.boot_tape.specs.Playing.{IsTraceOf};
ghost use Rattle.check_records.specs.Records.{records_of};
ghost use Rattle.check_records.specs.Seeing.{alone_in, current_kind, found_of, is_block, is_over, is_start, other_seen, records_seen, share_seen, starts};
ghost use Rattle.check_records.specs.Shares.{block_share, continues, stage_of, stage_of_accepted, stage_of_block};

use crate::downloads::{Beginning, Kind, Share, Stage, is_like, kind_of};
use crate::found::Records;
use crate::noting::Downloads;
use crate::refusals::Refusals;
use boot_script::{Event, Script};
use boot_tape::{Note, Trace, is_boot};
use std::alloc::{AllocError, Global};
use text_lines::{BlockOutcome, CommandAnswer, EventOutcome};
use uf2_place::{Accepted, Uf2, read_uf2};

/// How far a block came that was accepted, where it went into a download.
fn stage_of_accepted(accepted: Accepted) -> Option<Stage>
    ensures { result ≡ stage_of_accepted accepted }
{
    match accepted {
        Accepted::Taken => Some(Stage::Taken),
        Accepted::Done(_) => Some(Stage::Done),
        Accepted::Skipped | Accepted::Again => None,
    }
}

/// How far a block came, where it went into a download.
fn stage_of_block(block: &BlockOutcome) -> Option<Stage>
    ensures { result ≡ stage_of_block block.now }
{
    match block {
        BlockOutcome::Accepted(_, accepted) => stage_of_accepted(*accepted),
        BlockOutcome::BadForm(_) | BlockOutcome::Refused(_) | BlockOutcome::Downloaded(_, _) => {
            None
        }
    }
}

/// How far the block of an event came, where it went into a download.
fn stage_of(outcome: &EventOutcome) -> Option<Stage>
    ensures { result ≡ stage_of outcome.now }
{
    match outcome {
        EventOutcome::Block(block) => stage_of_block(block),
        EventOutcome::PowerLost => Some(Stage::Lost),
        _ => None,
    }
}

/// How far the block of an event came, by its own steps. Power that is lost in the boot behind it
/// is not lost in them.
fn stage_in(note: &Note) -> Option<Stage>
    ensures { result ≡ stage_of (alone_in note.now) }
{
    if note.whole || note.own < note.moves {
        stage_of(&note.outcome)
    } else {
        Some(Stage::Lost)
    }
}

/// The kind of the download that is current.
fn current_kind(current: Option<Beginning>) -> Option<Kind>
    ensures { result ≡ current_kind current }
{
    match current {
        Some(first) => Some(first.kind),
        None => None,
    }
}

/// Whether the block continues the current download, which is of this kind.
fn continues(current: Option<Kind>, block: &Uf2) -> bool
    ensures { result ≡ continues current block.now }
{
    match current {
        Some(kind) => is_like(kind, kind_of(block)),
        None => false,
    }
}

/// What bytes that may be a block have to do with downloads, without the boot that they may ask
/// for.
fn block_share(current: Option<Kind>, bytes: &[u8; 512], note: &Note) -> Share
    ensures { result ≡ block_share current (uf2_of bytes.now) (alone_in note.now) }
{
    let block = match read_uf2(bytes) {
        Ok(block) => block,
        Err(_) => return Share::Keeps,
    };
    let stage = match stage_in(note) {
        Some(stage) => stage,
        None => return Share::Keeps,
    };
    if continues(current, &block) {
        return Share::Continues(stage);
    }
    let first = Beginning {
        kind: kind_of(&block),
        number: block.number,
    };
    Share::Begins(first, stage)
}

/// Whether BOOTSEL served a block.
fn is_block(outcome: &EventOutcome) -> bool
    ensures { result ≡ is_block outcome.now }
{
    matches!(outcome, EventOutcome::Block(_))
}

/// Whether a command starts an image in RAM.
fn starts(answer: &CommandAnswer) -> bool
    ensures { result ≡ starts answer.now }
{
    matches!(answer, CommandAnswer::RamStarted(_))
}

/// Whether an event starts one.
fn is_start(outcome: &EventOutcome) -> bool
    ensures { result ≡ is_start outcome.now }
{
    match outcome {
        EventOutcome::Command(command) => starts(&command.answer),
        _ => false,
    }
}

/// Whether no download is current behind an event that is no block in BOOTSEL.
fn is_over(note: &Note) -> bool
    ensures { result ≡ is_over note.now }
{
    !note.whole || (is_boot(&note.behind) || is_start(&note.outcome))
}

/// What such an event has to do with downloads.
fn other_seen(current: Option<Beginning>, note: &Note) -> Share
    ensures { result ≡ other_seen current note.now }
{
    if current.is_some() && !is_over(note) {
        Share::Keeps
    } else {
        Share::Drops
    }
}

/// What an event has to do with downloads, where the current one begins with this block.
fn share_seen(current: Option<Beginning>, event: &Event<'_>, note: &Note) -> Share
    ensures { result ≡ share_seen current (event_from event.now) note.now }
{
    match event {
        Event::Uf2(bytes) if is_block(&note.outcome) => {
            block_share(current_kind(current), bytes, note)
        }
        _ => other_seen(current, note),
    }
}

/// What is found of the events that were noted.
fn found_of(refusals: Refusals, downloads: &Downloads) -> Records
    ensures { result ≡ found_of refusals downloads.now }
{
    Records {
        refused: refusals.found,
        unfinished: downloads.first(),
        begins: downloads.begun,
    }
}

/// What is found of the events of a script, of which this is noted.
fn records_seen(alloc: Global, script: &Script<'_>, notes: &[Note]) -> Result<Records, AllocError>
    ensures { IfOk result (λ found. found
        ≡ records_seen (script_events script.now.bytes.now) notes.now) }
{
    let mut refusals = Refusals::begin();
    let mut downloads = Downloads::begin(alloc);
    let mut number = 0;
    for event in script.events() {
        let Some(note) = notes.get(number as usize) else {
            return Ok(found_of(refusals, &downloads));
        };
        let share = share_seen(downloads.current, &event, note);
        downloads.note(share, number)?;
        refusals.note(note, number);
        number += 1;
    }
    Ok(found_of(refusals, &downloads))
}

/// What the records of a script do, by its trace: which of them did nothing, and which download
/// they begin and leave open. It fails only where memory is out.
pub fn records_of(
    alloc: Global,
    script: &Script<'_>,
    trace: &Trace<'_>,
) -> Result<Records, AllocError>
    ensures { IfOk result (λ found. (c : Content) (cpu : Cpu)
        → IsTraceOf c cpu (script_events script.now.bytes.now) trace.now
        → found ≡ records_of c cpu (script_events script.now.bytes.now)) }
{
    records_seen(alloc, script, &trace.notes)
}
