//! A script as a text.

ghost use Rattle.std.specs.Prelude.{◌≡◌, ◌++◌, IfOk, OnOk, codes, decimal, string_bytes};
ghost use Rattle.boot_script.specs.Events.{event_from};
ghost use Rattle.boot_script.specs.Scripts.{script_events};
ghost use Rattle.script_words.specs.Values.{line_from};
ghost use Rattle.text_words.specs.Writing.{line};
ghost use Rattle.script_text.specs.Comments.{note_of};
ghost use Rattle.script_text.specs.Listing.{comment_text, listed, listed_event, listed_line};

use crate::comments::note_of;
use crate::reading::token_behind;
use boot_script::{Event, Script};
use script_words::{Line, name_event, put_line};
use std::alloc::{AllocError, Global};

/// Appends the line of a comment: the number of an event, and what the event is.
fn push_comment(
    alloc: Global,
    number: u32,
    event: &Event<'_>,
    text: &mut String,
) -> Result<(), AllocError>
    ensures { OnOk result (string_bytes text.new
        ≡ string_bytes text.old ++ line (comment_text number (note_of (event_from event.now)))) }
{
    let note = note_of(alloc, event)?;
    let comment = format!(in alloc; "# {number} {note}\n")?;
    text.push_str(&comment)
}

/// Appends the lines of an event, by what its line says. Where the line has hexadecimal bytes, a
/// comment stands above it, and otherwise the number stands behind it.
fn push_line(
    alloc: Global,
    number: u32,
    event: &Event<'_>,
    said: &Line,
    text: &mut String,
) -> Result<(), AllocError>
    ensures { OnOk result (string_bytes text.new
        ≡ string_bytes text.old ++ listed_line number (event_from event.now) (line_from said.now)) }
{
    if said.row.is_hex() {
        push_comment(alloc, number, event, text)?;
        put_line(alloc, said, text)?;
        text.push_str("\n")
    } else {
        put_line(alloc, said, text)?;
        let behind = format!(in alloc; " # {number}\n")?;
        text.push_str(&behind)
    }
}

/// Appends the lines of an event, where a command in words without a token would have the token
/// `next`.
fn push_event(
    alloc: Global,
    number: u32,
    next: u32,
    event: &Event<'_>,
    text: &mut String,
) -> Result<(), AllocError>
    ensures { OnOk result (string_bytes text.new
        ≡ string_bytes text.old ++ listed_event number next (event_from event.now)) }
{
    let said = name_event(alloc, event, next)?;
    push_line(alloc, number, event, &said, text)
}

/// The text of a script. It fails only where memory is out.
pub fn list_text(alloc: Global, script: &Script<'_>) -> Result<String, AllocError>
    ensures { IfOk result
        (λ text. string_bytes text ≡ listed (script_events script.now.bytes.now)) }
{
    let mut text = String::new(alloc);
    let mut number = 0;
    let mut next = 1;
    for event in script.events() {
        push_event(alloc, number, next, &event, &mut text)?;
        number += 1;
        next = token_behind(next, &event);
    }
    text.push_str("end\n")?;
    Ok(text)
}
