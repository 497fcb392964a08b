//! What comes of a UF2 block in a line.

ghost use Rattle.std.specs.Prelude.{◌≡◌, ◌+◌, ◌≤◌, length};
ghost use Rattle.text_lines.specs.Events.{accepted_text, block_text, done_word, form_text, numbered_text, refusal_text};

use crate::commands::put_boot;
use crate::outcome::{BlockOutcome, Refusal};
use arrayvec::ArrayString;
use text_words::{put_number, put_text, set_text};
use uf2_place::{Accepted, Target, Uf2Fault};

/// What a block that breaks its form is called.
fn form_word(fault: Uf2Fault) -> &'static str
    ensures word { result.now ≡ form_text fault }
    ensures most { length result.now ≤ 17 }
{
    match fault {
        Uf2Fault::Magic => "uf2 bad magic",
        Uf2Fault::Payload => "uf2 bad payload",
        Uf2Fault::Alignment => "uf2 bad alignment",
        Uf2Fault::Number => "uf2 bad number",
    }
}

/// What a block that is not placed is called.
fn refusal_word(refusal: Refusal) -> &'static str
    ensures word { result.now ≡ refusal_text refusal }
    ensures most { length result.now ≤ 25 }
{
    match refusal {
        Refusal::NoTarget => "uf2 refused no-target",
        Refusal::Outside => "uf2 refused outside",
        Refusal::NotPermitted => "uf2 refused not-permitted",
    }
}

/// Replaces the line by a block's number and what comes of it, at most 15 bytes and the word.
fn set_numbered(line: &mut ArrayString<320>, number: u32, word: &str)
    requires room { length word.now ≤ 300 }
    ensures text { line.new.bytes ≡ numbered_text number word.now }
    ensures most { length line.new.bytes ≤ length word.now + 15 }
{
    set_text(line, "uf2 ");
    put_number(line, number);
    put_text(line, " ");
    put_text(line, word);
}

/// `done`, or `done stay` where the target stays in BOOTSEL.
fn done_word(target: &Target) -> &'static str
    ensures word { result.now ≡ done_word target.now }
    ensures most { length result.now ≤ 9 }
{
    if target.stay { "done stay" } else { "done" }
}

/// Replaces the line by that of a block that is accepted, by its number.
fn set_accepted(line: &mut ArrayString<320>, number: u32, accepted: &Accepted)
    ensures { line.new.bytes ≡ accepted_text number accepted.now }
{
    match accepted {
        Accepted::Skipped => set_text(line, "uf2 skipped"),
        Accepted::Again => set_numbered(line, number, "again"),
        Accepted::Taken => set_numbered(line, number, "taken"),
        Accepted::Done(target) => set_numbered(line, number, done_word(target)),
    }
}

/// Replaces the line by what comes of a block.
pub(crate) fn set_block(line: &mut ArrayString<320>, block: &BlockOutcome)
    ensures { line.new.bytes ≡ block_text block.now }
{
    match block {
        BlockOutcome::BadForm(fault) => set_text(line, form_word(*fault)),
        BlockOutcome::Refused(refusal) => set_text(line, refusal_word(*refusal)),
        BlockOutcome::Accepted(number, accepted) => set_accepted(line, *number, accepted),
        BlockOutcome::Downloaded(number, decision) => {
            set_numbered(line, *number, "done");
            put_boot(line, decision);
        }
    }
}
