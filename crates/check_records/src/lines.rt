//! The lines of records, and of a script that is played again.

ghost use Rattle.std.specs.Prelude.{◌≡◌, IfOk, string_bytes};
ghost use Rattle.text_lines.specs.Events.{outcome_text};
ghost use Rattle.check_records.specs.Texts.{again_line, lines_by, records_lines, refused_line, unfinished_line};

use crate::found::{Again, Records, Refused};
use arrayvec::ArrayString;
use std::alloc::{AllocError, Global};
use text_lines::{EventOutcome, set_outcome};

/// What a replay says of an event.
fn outcome_text(alloc: Global, outcome: &EventOutcome) -> Result<String, AllocError>
    ensures { IfOk result (λ t. string_bytes t ≡ outcome_text outcome.now) }
{
    let mut line: ArrayString<320> = ArrayString::new();
    set_outcome(&mut line, outcome);
    String::from_str(alloc, line.as_str())
}

/// The line of the records that did nothing.
#[tactic(auto, unfolding(crate::specs::Texts::refused_line))]
fn refused_line(alloc: Global, refused: &Refused) -> Result<String, AllocError>
    ensures { IfOk result (λ t. string_bytes t ≡ refused_line refused.now) }
{
    let count = refused.count;
    let first = refused.first;
    let text = outcome_text(alloc, &refused.outcome)?;
    format!(in alloc; "records refused={count} first={first} {text}\n")
}

/// The line of a download that stays open.
#[tactic(auto, unfolding(crate::specs::Texts::unfinished_line))]
fn unfinished_line(alloc: Global, number: u32) -> Result<String, AllocError>
    ensures { IfOk result (λ t. string_bytes t ≡ unfinished_line number) }
{
    format!(in alloc; "records unfinished={number}\n")
}

/// One line, or both.
#[tactic(auto, unfolding(crate::specs::Texts::lines_by))]
fn lines_by(
    alloc: Global,
    refused: &Option<Refused>,
    unfinished: Option<u32>,
) -> Result<String, AllocError>
    ensures { IfOk result (λ t. string_bytes t ≡ lines_by refused.now unfinished) }
{
    match (refused, unfinished) {
        (None, None) => format!(in alloc; "records ok\n"),
        (Some(refused), None) => refused_line(alloc, refused),
        (None, Some(number)) => unfinished_line(alloc, number),
        (Some(refused), Some(number)) => {
            let refused = refused_line(alloc, refused)?;
            let unfinished = unfinished_line(alloc, number)?;
            format!(in alloc; "{refused}{unfinished}")
        }
    }
}

/// The lines `records`. It fails only where memory is out.
pub fn records_lines(alloc: Global, found: &Records) -> Result<String, AllocError>
    ensures { IfOk result (λ t. string_bytes t ≡ records_lines found.now) }
{
    lines_by(alloc, &found.refused, found.unfinished)
}

/// The line `again`. It fails only where memory is out.
#[tactic(auto, unfolding(crate::specs::Texts::again_line))]
pub fn again_line(alloc: Global, again: Again) -> Result<String, AllocError>
    ensures { IfOk result (λ t. string_bytes t ≡ again_line again) }
{
    match again {
        Again::Yes => format!(in alloc; "again yes\n"),
        Again::NoStep(number) => format!(in alloc; "again no step={number}\n"),
        Again::NoTable => format!(in alloc; "again no table\n"),
        Again::NoTarget => format!(in alloc; "again no target\n"),
    }
}
