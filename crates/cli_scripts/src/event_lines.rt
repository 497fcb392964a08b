//! The lines of events, and the one after them.

ghost use Rattle.std.specs.Prelude.{◌≡◌, ◌++◌, IfOk, OnOk, string_bytes};
ghost use Rattle.pico_board.specs.declared.mem_board.MemBoard.{MemBoard};
ghost use Rattle.boot_machine.specs.declared.parts.Parts.{Parts};
ghost use Rattle.boot_machine.specs.Machines.{StateView};
ghost use Rattle.boot_machine.specs.Standing.{StandsAt};
ghost use Rattle.cli_scripts.specs.ReplayWorks.{event_line, state_text, end_line};

use arrayvec::ArrayString;
use boot_machine::State;
use std::alloc::{AllocError, Global};

/// Appends the line of an event, by its number.
pub fn push_event(
    alloc: Global,
    text: &mut String,
    number: u32,
    event: &ArrayString<320>,
) -> Result<(), AllocError>
    ensures { OnOk result
        (string_bytes text.new ≡ string_bytes text.old ++ event_line number event.now.bytes) }
{
    let event = event.as_str();
    let line = format!(in alloc; "{number} {event}\n")?;
    text.push_str(&line)
}

/// What a machine is doing.
fn state_word(state: &State) -> &'static str
    ensures { (p : Parts MemBoard) (place : StateView) → p.state ≡ state.now → StandsAt p place
        → result.now ≡ state_text place }
{
    match state {
        State::Off => "off",
        State::Bootsel => "bootsel",
        State::Running(_) => "running",
    }
}

/// The line after the events.
pub fn end_line(alloc: Global, state: &State) -> Result<String, AllocError>
    ensures { IfOk result (λ t. (p : Parts MemBoard) (place : StateView) → p.state ≡ state.now
        → StandsAt p place → string_bytes t ≡ end_line place) }
{
    let word = state_word(state);
    format!(in alloc; "end state={word}\n")
}
