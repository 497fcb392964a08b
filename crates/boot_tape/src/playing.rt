//! The play of a script, which finds what it does to a board.

ghost use Rattle.std.specs.Prelude.{◌≡◌, ◌+◌, ◌≤◌, ◌<◌, ◌∷◌, ◌++◌, ◌&&◌, [], true, false, IfOk, OnOk, IsTrue, MatchOption, None, Some, List, length, option_map};
ghost use Rattle.pico_board.specs.Board.{with_power};
ghost use Rattle.pico_board.specs.MemBoard.{state_of};
ghost use Rattle.boot_script.specs.Events.{EventView, IsWritableEvent, event_from};
ghost use Rattle.boot_script.specs.Scripts.{script_events};
ghost use Rattle.boot_session.specs.Recordings.{HasRecorded};
ghost use Rattle.boot_session.specs.Standing.{IsUnarmed};
ghost use Rattle.boot_machine.specs.Machines.{MachineView};
ghost use Rattle.boot_machine.specs.Moves.{armed_for};
ghost use Rattle.boot_machine.specs.Serving.{is_hosted};
ghost use Rattle.boot_machine.specs.Standing.{Stands, is_bootsel};
ghost use Rattle.boot_machine.specs.Plays.{powerless};
ghost use Rattle.boot_tape.specs.Traces.{behind_asked};
ghost use Rattle.boot_tape.specs.Checkpoints.{IsCheckpoint};
ghost use Rattle.boot_tape.specs.Moving.{AreMovesIn, MoveView, after_moves, moves_from};
ghost use Rattle.boot_tape.specs.Playing.{HasCome, HasFollowed, IsLong, IsPlay, IsStepped, IsTapeIn, IsTraceOf, IsTracedTooLong, asked_effect, behind_in, cut_from, cut_in, recorded_state};

use crate::checkpoints::{Checkpoint, caught_up};
use crate::copying::copy_of;
use crate::notes::{Behind, Came};
use crate::trace::{ArmedCut, Tape, Trace};
use arrayvec::ArrayVec;
use boot_machine::laws::run::only_lost_power_says_so;
use boot_machine::{Machine, Served, State};
use boot_script::{Event, Script};
use boot_session::{Recorder, STEP_LIMIT};
use boot_sweep::Move;
use pico_board::{Bench, BootKind, Cpu, MemBoard};
use ram_start::Ram;
use sector_pool::SectorPool;
use std::alloc::{AllocError, Global};
use uf2_place::Download;

/// What plays a script.
#[derive(Drop)]
struct Player {
    /// The machine, over a board of its own.
    machine: Machine<Recorder<MemBoard>>,
    /// A checkpoint, once a cut of the script's own fell due.
    kept: Option<Checkpoint>,
}

/// A machine without power, over a copy of the board, on which no cut is ever armed.
fn machine_of(
    alloc: Global,
    board: &MemBoard,
    cpu: Cpu,
) -> Result<Machine<Recorder<MemBoard>>, AllocError>
    requires power { IsTrue (state_of board.now).powered }
    ensures stands { IfOk result (λ machine. Stands recorded_state machine
        (powerless (state_of board.now).content cpu)) }
    ensures none { IfOk result (λ machine. HasRecorded machine.board []) }
{
    let copy = copy_of(alloc, board)?;
    let units = ArrayVec::new();
    let recorder = Recorder::make(alloc, copy, units)?;
    let pool = SectorPool::make(alloc, 2)?;
    let download = Download::make(alloc)?;
    let ram = Ram::make(alloc)?;
    Ok(Machine::new(recorder, pool, download, ram, cpu))
}

/// The cut that an event arms.
fn armed_by<'a>(event: &Event<'a>) -> Option<ArmedCut<'a>>
    ensures { option_map cut_from result ≡ cut_in (event_from event.now) }
{
    match event {
        Event::Cut(left, within, pattern) => Some(ArmedCut {
            left: *left,
            within: *within,
            pattern: *pattern,
        }),
        _ => None,
    }
}

/// Whether an event is for a host, and the machine is in BOOTSEL.
fn is_served(machine: &Machine<Recorder<MemBoard>>, event: &Event<'_>) -> bool
    ensures { result ≡ (is_bootsel machine.now.state && is_hosted (event_from event.now)) }
{
    match machine.state() {
        State::Bootsel => match event {
            Event::Command(_, _) | Event::Uf2(_) => true,
            _ => false,
        },
        State::Off | State::Running(_) => false,
    }
}

/// The boot that a host's event asked for.
fn behind_asked(asked: Option<BootKind>) -> Behind
    ensures { result ≡ behind_asked asked }
{
    match asked {
        Some(kind) => Behind::Boot(kind),
        None => Behind::Nothing,
    }
}

/// What makes the moves of an event that is not served, by what the machine is doing.
fn behind_event(state: &State, event: &Event<'_>) -> Result<Behind, AllocError>
    ensures { IfOk result (λ found. found ≡ behind_in state.now (event_from event.now)) }
{
    match state {
        State::Off => match event {
            Event::PowerOn => Ok(Behind::Boot(BootKind::Normal)),
            _ => Ok(Behind::Nothing),
        },
        State::Bootsel => match event {
            Event::Reset(kind) => Ok(Behind::Boot(*kind)),
            _ => Ok(Behind::Nothing),
        },
        State::Running(image) => match event {
            Event::Reset(kind) => Ok(Behind::Boot(*kind)),
            Event::Buy => Ok(Behind::Buy(image.clone()?)),
            _ => Ok(Behind::Nothing),
        },
    }
}

/// Makes the boot that a host's event asked for.
fn boot(machine: &mut Machine<Recorder<MemBoard>>, asked: Option<BootKind>)
    ensures { (m : MachineView) → Stands recorded_state machine.old m → m.armed ≡ Some None
        → IsStepped machine.old m (asked_effect m asked) machine.new }
{
    only_lost_power_says_so();
    match asked {
        Some(kind) => {
            machine.advance(&Event::Reset(kind));
        }
        None => {}
    }
}

/// Serves a host's event in BOOTSEL, and makes the boot that it asks for.
fn serve(machine: &mut Machine<Recorder<MemBoard>>, event: &Event<'_>) -> Came
    requires served { (is_bootsel machine.old.state && is_hosted (event_from event.now)) ≡ true }
    requires writable { IsWritableEvent (event_from event.now) }
    ensures { (m : MachineView) → Stands recorded_state machine.old m
        → armed_for m.armed (event_from event.now) ≡ Some None
        → HasCome machine.old m (event_from event.now) result machine.new }
{
    let former = machine.board().steps.as_slice().len();
    let Served {
        outcome,
        boot: asked,
    } = machine.answer(event);
    let now = machine.board().steps.as_slice().len();
    boot(machine, asked);
    Came {
        outcome,
        own: now.saturating_sub(former),
        behind: behind_asked(asked),
    }
}

/// What an event does that BOOTSEL does not serve.
fn pass(machine: &mut Machine<Recorder<MemBoard>>, event: &Event<'_>) -> Result<Came, AllocError>
    requires other { (is_bootsel machine.old.state && is_hosted (event_from event.now)) ≡ false }
    requires writable { IsWritableEvent (event_from event.now) }
    ensures { IfOk result (λ came. (m : MachineView) → Stands recorded_state machine.old m
        → armed_for m.armed (event_from event.now) ≡ Some None
        → HasCome machine.old m (event_from event.now) came machine.new) }
{
    only_lost_power_says_so();
    let behind = behind_event(machine.state(), event)?;
    let outcome = machine.advance(event);
    Ok(Came {
        outcome,
        own: 0,
        behind,
    })
}

/// What an event does to a machine on whose board no cut is armed.
fn step(machine: &mut Machine<Recorder<MemBoard>>, event: &Event<'_>) -> Result<Came, AllocError>
    requires { IsWritableEvent (event_from event.now) }
    ensures { IfOk result (λ came. (m : MachineView) → Stands recorded_state machine.old m
        → armed_for m.armed (event_from event.now) ≡ Some None
        → HasCome machine.old m (event_from event.now) came machine.new) }
{
    if is_served(machine, event) {
        Ok(serve(machine, event))
    } else {
        pass(machine, event)
    }
}

/// Plays an event that arms no cut, of this number, and answers whether all its steps complete.
fn play<'a>(
    machine: &mut Machine<Recorder<MemBoard>>,
    tape: &mut Tape<'a>,
    event: &Event<'a>,
    number: u32,
) -> Result<bool, AllocError>
    requires writable { IsWritableEvent (event_from event.now) }
    requires uncut { cut_in (event_from event.now) ≡ None }
    requires short { tape.old.done ≤ 262144 }
    requires play { (m : MachineView) × (all : List EventView) × (left : List EventView)
        × IsPlay machine.old tape.old m all left number }
    ensures grown { OnOk result ((more : List MoveView)
        × (moves_from tape.new.moves.items ≡ moves_from tape.old.moves.items ++ more)) }
    ensures ready { OnOk result ((m : MachineView) (all left : List EventView)
        → IsPlay machine.old tape.old m all left number
        → IsTapeIn (length m.content.flash) tape.old
        → IsTapeIn (length m.content.flash) tape.new) }
    ensures played { IfOk result (λ whole. (m : MachineView) (all left : List EventView)
        → IsPlay machine.old tape.old m all (event_from event.now ∷ left) number
        → IsLong tape.new m all
        × (tape.new.done ≤ 262144
        → HasFollowed whole machine.new tape.new m all left (number + 1))) }
{
    let former = machine.board().steps.as_slice().len();
    let moved = tape.moves.as_slice().len();
    let came = step(machine, event)?;
    let whole = tape.take_steps(&machine.board().steps[former..], number)?;
    tape.note(came, moved, whole)?;
    Ok(whole)
}

/// The player made anew: a machine without power, over a copy of a checkpoint on which the moves so
/// far are done. The old machine is gone before a copy is made.
fn anew(
    alloc: Global,
    start: &MemBoard,
    player: Player,
    moves: &[Move<'_>],
    cpu: Cpu,
) -> Result<Player, AllocError>
    requires power { IsTrue (state_of start.now).powered }
    requires range { AreMovesIn (length (state_of start.now).content.flash) moves.now }
    requires kept { IsCheckpoint (state_of start.now).content (moves_from moves.now)
        player.kept }
    ensures stands { IfOk result (λ next. Stands recorded_state next.machine
        (powerless (after_moves (state_of start.now).content (moves_from moves.now)) cpu)) }
    ensures none { IfOk result (λ next. HasRecorded next.machine.board []) }
    ensures kept { IfOk result (λ next.
        IsCheckpoint (state_of start.now).content (moves_from moves.now) next.kept) }
{
    let Player { machine, kept } = player;
    drop(machine);
    let point = caught_up(alloc, start, kept, moves)?;
    Ok(Player {
        machine: machine_of(alloc, &point.board, cpu)?,
        kept: Some(point),
    })
}

/// Plays an event of this number, and answers the player that goes on. The armed cut of the script
/// is never armed on the machine, which so completes all steps of the event; a machine whose power
/// the cut loses is made anew.
fn follow<'a>(
    alloc: Global,
    start: &MemBoard,
    player: Player,
    tape: &mut Tape<'a>,
    cpu: Cpu,
    event: &Event<'a>,
    number: u32,
) -> Result<Player, AllocError>
    requires power { IsTrue (state_of start.now).powered }
    requires writable { IsWritableEvent (event_from event.now) }
    requires ready { IsTapeIn (length (state_of start.now).content.flash) tape.old }
    requires short { tape.old.done ≤ 262144 }
    requires kept { IsCheckpoint (state_of start.now).content (moves_from tape.old.moves.items)
        player.kept }
    requires play { (all : List EventView) × (left : List EventView)
        × IsPlay player.machine tape.old (powerless (state_of start.now).content cpu) all left number }
    ensures ready { OnOk result (IsTapeIn (length (state_of start.now).content.flash) tape.new) }
    ensures kept { IfOk result (λ next. IsCheckpoint (state_of start.now).content
        (moves_from tape.new.moves.items) next.kept) }
    ensures played { IfOk result (λ next. (all left : List EventView)
        → IsPlay player.machine tape.old (powerless (state_of start.now).content cpu) all
        (event_from event.now ∷ left) number
        → IsLong tape.new (powerless (state_of start.now).content cpu) all
        × (tape.new.done ≤ 262144 → IsPlay next.machine tape.new
        (powerless (state_of start.now).content cpu) all left (number + 1))) }
{
    let mut player = player;
    if let Some(cut) = armed_by(event) {
        tape.arm(cut)?;
        return Ok(player);
    }
    if play(&mut player.machine, tape, event, number)? {
        return Ok(player);
    }
    let next = anew(alloc, start, player, &tape.moves, cpu)?;
    Ok(next)
}

/// The board of a machine, with power.
fn board_of(machine: Machine<Recorder<MemBoard>>) -> MemBoard
    ensures { state_of result ≡ with_power (recorded_state machine.board) }
{
    let mut board = machine.into_board().bench;
    board.power_on();
    board
}

/// Plays a script on a copy of a board, on a machine that starts without power. The answer is what
/// it does to the board; none where more than 262,144 steps complete.
pub fn trace_on<'a>(
    alloc: Global,
    board: &MemBoard,
    cpu: Cpu,
    script: &Script<'a>,
) -> Result<Option<Trace<'a>>, AllocError>
    requires { IsUnarmed (state_of board.now) }
    ensures { IfOk result (λ found. MatchOption found
        (IsTracedTooLong (state_of board.now).content cpu (script_events script.now.bytes.now))
        (IsTraceOf (state_of board.now).content cpu (script_events script.now.bytes.now))) }
{
    let mut tape = Tape::begin(alloc);
    let mut player = Player {
        machine: machine_of(alloc, board, cpu)?,
        kept: None,
    };
    let mut number = 0;
    for event in script.events() {
        player = follow(alloc, board, player, &mut tape, cpu, &event, number)?;
        if tape.done > STEP_LIMIT {
            return Ok(None);
        }
        number += 1;
    }
    Ok(Some(tape.into_trace(board_of(player.machine))))
}
