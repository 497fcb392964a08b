//! The line of an event.

ghost use Rattle.std.specs.Prelude.{◌≡◌, length};
ghost use Rattle.text_lines.specs.Events.{boot_text, outcome_text};

use crate::commands::set_command;
use crate::decisions::put_decision;
use crate::downloads::set_block;
use crate::outcome::EventOutcome;
use arrayvec::ArrayString;
use boot_rules::Decision;
use text_words::set_text;

/// Replaces the line by that of a boot.
fn set_boot(line: &mut ArrayString<320>, decision: &Decision)
    ensures { line.new.bytes ≡ boot_text decision.now }
{
    set_text(line, "boot ");
    put_decision(line, decision);
}

/// Replaces the line by that of an event with this outcome.
pub fn set_outcome(line: &mut ArrayString<320>, outcome: &EventOutcome)
    ensures { line.new.bytes ≡ outcome_text outcome.now }
{
    match outcome {
        EventOutcome::Off => set_text(line, "off"),
        EventOutcome::Ignored => set_text(line, "ignored"),
        EventOutcome::Ended => set_text(line, "end"),
        EventOutcome::CutArmed => set_text(line, "cut armed"),
        EventOutcome::PowerLost => set_text(line, "power lost"),
        EventOutcome::Booted(decision) => set_boot(line, decision),
        EventOutcome::Bought => set_text(line, "buy done"),
        EventOutcome::NothingToBuy => set_text(line, "buy none"),
        EventOutcome::BadMagic => set_text(line, "cmd bad-magic"),
        EventOutcome::Command(command) => set_command(line, command),
        EventOutcome::Block(block) => set_block(line, block),
    }
}
