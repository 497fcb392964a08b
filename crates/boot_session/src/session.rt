//! A session: the steps that the host's events of a script do from BOOTSEL on.

ghost use Rattle.std.specs.Prelude.{◌≡◌, ◌&&◌, IfOk, IsTrue, None, Some, false, is_none, true};
ghost use Rattle.pico_board.specs.MemBoard.{state_of};
ghost use Rattle.boot_script.specs.Events.{IsWritableEvent, event_from};
ghost use Rattle.boot_script.specs.Judging.{IsScript};
ghost use Rattle.boot_script.specs.Scripts.{script_events};
ghost use Rattle.boot_machine.specs.Machines.{Host};
ghost use Rattle.boot_machine.specs.Serving.{is_hosted};
ghost use Rattle.boot_machine.specs.Standing.{IsHost, is_bootsel};
ghost use Rattle.boot_machine.specs.declared.state.State.TheVariants.{Bootsel as SERVING};
ghost use Rattle.boot_session.specs.Playing.{GoesOn, HasServed};
ghost use Rattle.boot_session.specs.Recordings.{IsRecorderOf};
ghost use Rattle.boot_session.specs.Sessions.{entered_host, session, session_from};
ghost use Rattle.boot_session.specs.Standing.{IsUnarmed};

use crate::recorder::Recorder;
use boot_machine::{Machine, State};
use boot_rules::boot_units_in;
use boot_script::{Event, Script};
use pico_board::{Bench, Board, BootKind, Cpu, MemBoard};
use ram_start::Ram;
use sector_pool::SectorPool;
use std::alloc::{AllocError, Global};
use uf2_place::Download;

/// Whether the event is for a host.
fn is_hosted(event: &Event<'_>) -> bool
    ensures { result ≡ is_hosted (event_from event.now) }
{
    match event {
        Event::Command(_, _) | Event::Uf2(_) => true,
        _ => false,
    }
}

/// Whether a session goes on where this boot was asked for, or none, and the machine is in this
/// state.
fn goes_on(asked: &Option<BootKind>, state: &State) -> bool
    ensures { result ≡ (is_none asked.now && is_bootsel state.now) }
{
    match (asked, state) {
        (None, State::Bootsel) => true,
        _ => false,
    }
}

/// Serves an event, and answers whether the session goes on: no boot is asked for, and BOOTSEL is
/// not left.
fn serve<B: Bench>(machine: &mut Machine<B>, event: &Event<'_>) -> bool
    requires bootsel { machine.old.state ≡ SERVING }
    requires hosted { is_hosted (event_from event.now) ≡ true }
    requires writable { IsWritableEvent (event_from event.now) }
    requires unarmed { (B.state machine.old.board).armed ≡ Some None }
    ensures { GoesOn B.state B.history machine.old (event_from event.now) result machine.new }
{
    let asked = machine.answer(event).boot;
    goes_on(&asked, machine.state())
}

/// Serves an event that is for a host, and passes over another one; answers whether the session
/// goes on.
fn follow<B: Bench>(machine: &mut Machine<B>, event: &Event<'_>) -> bool
    requires bootsel { machine.old.state ≡ SERVING }
    requires writable { IsWritableEvent (event_from event.now) }
    requires unarmed { (B.state machine.old.board).armed ≡ Some None }
    ensures hosted { is_hosted (event_from event.now) ≡ true
        → GoesOn B.state B.history machine.old (event_from event.now) result machine.new }
    ensures passed { is_hosted (event_from event.now) ≡ false
        → (result ≡ true) × (machine.new ≡ machine.old) }
{
    if is_hosted(event) {
        serve(machine, event)
    } else {
        true
    }
}

/// Serves the host's events of a script up to its end, or to the first one that asks for a boot or
/// leaves BOOTSEL. Other events are passed over.
fn play<B: Bench>(machine: &mut Machine<B>, script: &Script<'_>)
    requires hosted { (host : Host) × IsHost machine.old host }
    requires power { IsTrue (B.state machine.old.board).powered }
    requires unarmed { (B.state machine.old.board).armed ≡ Some None }
    ensures { (host : Host) → IsHost machine.old host
        → HasServed B.state B.history machine.old.board
        (session_from (B.state machine.old.board).content machine.old.cpu host
        (script_events script.now.bytes.now)) machine.new.board }
{
    for event in script.events() {
        if !follow(machine, &event) {
            return;
        }
    }
}

/// A machine that has entered BOOTSEL.
#[tactic(auto, using(boot_machine::proofs::BeginningLemmas::new_free))]
fn machine_of<B: Bench + Drop>(alloc: Global, board: B, cpu: Cpu) -> Result<Machine<B>, AllocError>
    requires power { IsTrue (B.state board).powered }
    ensures board { IfOk result (λ machine. machine.board ≡ board) }
    ensures cpu { IfOk result (λ machine. machine.cpu ≡ cpu) }
    ensures bootsel { IfOk result (λ machine. machine.state ≡ SERVING) }
    ensures entered { IfOk result
        (λ machine. IsHost machine (entered_host (B.state board).content)) }
{
    let pool = SectorPool::make(alloc, 2)?;
    let download = Download::make(alloc)?;
    let ram = Ram::make(alloc)?;
    Ok(Machine::bootsel(board, pool, download, ram, cpu))
}

/// The recorder of the session that a script does on a board, which is then the one after it.
pub fn session_on(
    alloc: Global,
    board: MemBoard,
    cpu: Cpu,
    script: &[u8],
) -> Result<Recorder<MemBoard>, AllocError>
    requires ready { IsUnarmed (state_of board) }
    requires script { IsScript script.now }
    ensures { IfOk result (λ r. IsRecorderOf r (state_of board).content cpu
        (session (state_of board).content cpu (script_events script.now))) }
{
    let judged = Script { bytes: script };
    let units = boot_units_in(&board, cpu);
    let recorder = Recorder::make(alloc, board, units)?;
    let mut machine = machine_of(alloc, recorder, cpu)?;
    play(&mut machine, &judged);
    Ok(machine.into_board())
}
