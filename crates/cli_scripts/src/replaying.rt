//! The replay of a script on a machine over a board in memory.

ghost use Rattle.std.specs.Prelude.{◌≡◌, IfOk, None, Some, string_bytes};
ghost use Rattle.pico_board.specs.MemBoard.{state_of};
ghost use Rattle.block_codec.specs.Words.{bytes_of};
ghost use Rattle.boot_script.specs.Events.{IsWritableEvent, event_from};
ghost use Rattle.boot_script.specs.Scripts.{script_events};
ghost use Rattle.text_lines.specs.Events.{outcome_text};
ghost use Rattle.boot_machine.specs.Machines.{MachineView as Model};
ghost use Rattle.boot_machine.specs.Standing.{Stands};
ghost use Rattle.boot_machine.specs.Plays.{moved_machine, played, powerless};
ghost use Rattle.cli_scripts.specs.ReplayWorks.{event_lines, replay_work};
ghost use Rattle.cli_course.specs.Outcomes.{worked};
ghost use Rattle.cli_course.specs.Views.{answer_from};

use crate::event_lines::{end_line, push_event};
use arrayvec::ArrayString;
use boot_machine::Machine;
use boot_script::{Event, Script};
use cli_course::{Answer, OutFile, Status};
use pico_board::{Cpu, MemBoard};
use ram_start::Ram;
use sector_pool::SectorPool;
use std::alloc::{AllocError, Global};
use uf2_place::Download;

/// A machine without power, over a board on which no cut is armed.
fn machine_of(alloc: Global, board: MemBoard, cpu: Cpu) -> Result<Machine<MemBoard>, AllocError>
    requires unarmed { (state_of board).armed ≡ Some None }
    ensures { IfOk result
        (λ machine. Stands state_of machine (powerless (state_of board).content cpu)) }
{
    let pool = SectorPool::make(alloc, 4)?;
    let download = Download::make(alloc)?;
    let ram = Ram::make(alloc)?;
    Ok(Machine::new(board, pool, download, ram, cpu))
}

/// What an event does to the machine, and its line.
fn step(machine: &mut Machine<MemBoard>, event: &Event<'_>, line: &mut ArrayString<320>)
    requires writable { IsWritableEvent (event_from event.now) }
    ensures { (m : Model) → Stands state_of machine.old m
        → Stands state_of machine.new (moved_machine m (event_from event.now)).next
        × (line.new.bytes ≡ outcome_text (moved_machine m (event_from event.now)).outcome) }
{
    machine.step(event, line);
}

/// Plays the events of a script, and answers their lines.
fn play(
    alloc: Global,
    machine: &mut Machine<MemBoard>,
    script: &Script<'_>,
) -> Result<String, AllocError>
    ensures { IfOk result (λ t. (m : Model) → Stands state_of machine.old m
        → Stands state_of machine.new (played m (script_events script.now.bytes.now)).last
        × (string_bytes t
        ≡ event_lines 0 (played m (script_events script.now.bytes.now)).outcomes)) }
{
    let mut text = String::new(alloc);
    let mut line = ArrayString::new();
    let mut number = 0;
    for event in script.events() {
        step(machine, &event, &mut line);
        push_event(alloc, &mut text, number, &line)?;
        number += 1;
    }
    Ok(text)
}

/// Each row in four bytes, the lowest first.
#[tactic(auto, unfolding(block_codec::specs::Words::word_bytes))]
fn row_bytes(alloc: Global, rows: &[u32]) -> Result<Vec<u8>, AllocError>
    ensures { IfOk result (λ bytes. bytes.items ≡ bytes_of rows.now) }
{
    let mut bytes = Vec::new(alloc);
    for row in rows {
        bytes.extend_from_slice(&row.to_le_bytes())?;
    }
    Ok(bytes)
}

/// The work of `replay` on a board on which no cut is armed, and a script: the lines of the
/// script's events on a machine without power, and the files of the content that they leave. It
/// fails only where memory is out.
pub fn replay<'a>(
    alloc: Global,
    board: MemBoard,
    cpu: Cpu,
    script: Script<'_>,
    out_flash: &'a str,
    out_otp: &'a str,
) -> Result<Answer<'a>, AllocError>
    requires { (state_of board).armed ≡ Some None }
    ensures { IfOk result (λ answer. answer_from answer ≡ worked (replay_work
        (state_of board).content cpu script.entry.bytes.now out_flash.entry.now
        out_otp.entry.now)) }
{
    let mut machine = machine_of(alloc, board, cpu)?;
    let mut text = play(alloc, &mut machine, &script)?;
    let end = end_line(alloc, machine.state())?;
    text.push_str(&end)?;
    let (flash, rows) = machine.into_board().into_parts();
    let otp = row_bytes(alloc, &rows)?;
    let flash = OutFile {
        name: out_flash,
        bytes: flash,
    };
    let otp = OutFile {
        name: out_otp,
        bytes: otp,
    };
    Ok(Answer {
        status: Status::Done,
        text: text.into_bytes(),
        files: vec![in alloc; flash, otp]?,
    })
}
