//! Which law speaks of each loss of power in the session of a host's script.

ghost use Rattle.std.specs.Prelude.{◌≡◌, ◌≤◌, IfOk, IsTrue, MatchOption, None, Some, length};
ghost use Rattle.std.specs.List.{AllByRecursion};
ghost use Rattle.pico_board.specs.declared.boot.Cpu.{Cpu as Processor};
ghost use Rattle.pico_board.specs.Content.{Content};
ghost use Rattle.pico_board.specs.MemBoard.{state_of};
ghost use Rattle.pico_board.specs.Steps.{IsStepIn, after_all};
ghost use Rattle.sector_pool.specs.Pool.{HasFree};
ghost use Rattle.boot_script.specs.Scripts.{script_events};
ghost use Rattle.boot_session.specs.Recordings.{step_limit};
ghost use Rattle.boot_session.specs.Slots.{session_slot};
ghost use Rattle.boot_session.specs.Standing.{IsUnarmed};
ghost use Rattle.boot_rules.specs.Tables.{table_in};
ghost use Rattle.boot_tape.specs.Playing.{IsTraceOf};
ghost use Rattle.check_laws.specs.Kept.{held_law, slot_law, slot_seen};
ghost use Rattle.check_laws.specs.SessionLaws.{IsSessionLaw, IsStepsLaw, IsWritten};

use crate::found::{Reason, SessionFound};
use crate::host_writes::{boot_count, host_done, host_writes};
use crate::hosting::is_hosts;
use crate::made::{first, pool_of};
use crate::staging::is_staged;
use boot_rules::{Found, boot_units_in, decide, find_table};
use boot_script::Script;
use boot_session::slot_among;
use boot_sweep::{are_confined, complete, is_start_in, ungated};
use boot_tape::{Trace, copy_of, do_moves};
use pico_board::{BootKind, Cpu, MemBoard, Step, Window};
use sector_pool::SectorPool;
use std::alloc::{AllocError, Global};

/// The member of a pair in which the first step lies.
fn session_slot(board: &MemBoard, cpu: Cpu, steps: &[Step]) -> Option<Window>
    requires { IsTrue (state_of board.now).powered }
    ensures { result ≡ session_slot (state_of board.now).content cpu steps.now }
{
    let first = steps.first()?;
    let units = boot_units_in(board, cpu);
    slot_among(units.as_slice(), first)
}

/// What the board before the steps of a host tells of the slot that they write.
#[derive(Drop)]
struct SlotBefore {
    /// The member of a pair in which the first step lies.
    window: Window,
    /// Whether a normal boot starts an image of it.
    starts: bool,
    /// The table.
    table: Option<Found>,
}

/// The slot of a host's steps, on the board before them.
fn slot_before(
    board: &MemBoard,
    pool: &mut SectorPool,
    cpu: Cpu,
    steps: &[Step],
) -> Option<SlotBefore>
    requires power { IsTrue (state_of board.now).powered }
    requires free { HasFree pool.old }
    ensures free { HasFree pool.new }
    ensures exact { MatchOption result
        (session_slot (state_of board.now).content cpu steps.now ≡ None)
        (λ slot. (session_slot (state_of board.now).content cpu steps.now ≡ Some slot.window)
        × (slot ≡ slot_seen (state_of board.now).content cpu slot.window)) }
{
    match session_slot(board, cpu, steps) {
        Some(window) => {
            let former = decide(board, pool, cpu, BootKind::Normal);
            Some(SlotBefore {
                window,
                starts: is_start_in(window, &former),
                table: find_table(board),
            })
        }
        None => None,
    }
}

/// The law of steps that keep to the slot, in which no image runs, and that leave the table.
fn held_law(slot: &SlotBefore, steps: &[Step], staged: bool) -> SessionFound
    requires few { length steps.now ≤ step_limit }
    ensures { (c : Content) → slot.now.table ≡ table_in c
        → result ≡ held_law c steps.now slot.now.window staged }
{
    let window = slot.window;
    if ungated(Some(window), steps).is_none() {
        if staged {
            SessionFound::Staged(window)
        } else {
            SessionFound::Gated(window)
        }
    } else if slot.table.is_some() {
        SessionFound::Confined(window)
    } else {
        SessionFound::Open(Reason::Order)
    }
}

/// The law of steps that lead to this board, by the slot that they write.
fn slot_law(end: &MemBoard, slot: &SlotBefore, steps: &[Step], staged: bool) -> SessionFound
    requires power { IsTrue (state_of end.now).powered }
    requires few { length steps.now ≤ step_limit }
    ensures { (c : Content) (cpu : Processor) → slot.now ≡ slot_seen c cpu slot.now.window
        → result ≡ slot_law c cpu (state_of end.now).content steps.now slot.now.window staged }
{
    if !are_confined(slot.window, steps) {
        SessionFound::Open(Reason::Windows)
    } else if slot.starts {
        SessionFound::Open(Reason::Running)
    } else if slot.table.is_none() && find_table(end).is_some() {
        SessionFound::Open(Reason::Table)
    } else {
        held_law(slot, steps, staged)
    }
}

/// Does steps, one after another.
fn do_steps(board: &mut MemBoard, steps: &[Step])
    requires ready { IsUnarmed (state_of board.old) }
    requires range { AllByRecursion (IsStepIn (length (state_of board.old).content.flash)) steps.now }
    ensures ready { IsUnarmed (state_of board.new) }
    ensures done { (state_of board.new).content ≡ after_all (state_of board.old).content steps.now }
{
    for step in steps {
        complete(board, step);
    }
}

/// Does the steps of a host, and answers their law.
fn steps_law(board: &mut MemBoard, pool: &mut SectorPool, cpu: Cpu, steps: &[Step]) -> SessionFound
    requires ready { IsUnarmed (state_of board.old) }
    requires range { AllByRecursion (IsStepIn (length (state_of board.old).content.flash)) steps.now }
    requires free { HasFree pool.old }
    requires few { length steps.now ≤ step_limit }
    ensures { IsStepsLaw (state_of board.old).content cpu steps.now result }
{
    match slot_before(board, pool, cpu, steps) {
        Some(slot) => {
            do_steps(board, steps);
            let staged = is_staged(board, pool, cpu, slot.window, steps);
            slot_law(board, &slot, steps, staged)
        }
        None => SessionFound::Open(Reason::Windows),
    }
}

/// The law of the session of a script in which a host writes.
fn written_law(
    alloc: Global,
    board: &MemBoard,
    cpu: Cpu,
    script: &Script<'_>,
    trace: &Trace<'_>,
) -> Result<SessionFound, AllocError>
    requires power { IsTrue (state_of board.now).powered }
    requires trace { IsTraceOf (state_of board.now).content cpu
        (script_events script.now.bytes.now) trace.now }
    ensures { IfOk result (IsWritten (state_of board.now).content cpu
        (script_events script.now.bytes.now)) }
{
    let notes = trace.notes.as_slice();
    let moves = trace.moves.as_slice();
    if !is_hosts(script, notes) {
        return Ok(SessionFound::Open(Reason::Script));
    }
    let steps = host_done(alloc, notes, moves)?;
    let mut pool = pool_of(alloc)?;
    let mut copy = copy_of(alloc, board)?;
    do_moves(&mut copy, first(moves, boot_count(notes)));
    Ok(steps_law(&mut copy, &mut pool, cpu, &steps))
}

/// The law of a script's session on a powered board. The trace is that of the script from this
/// board on. It fails only where memory is out.
pub fn session_law(
    alloc: Global,
    board: &MemBoard,
    cpu: Cpu,
    script: &Script<'_>,
    trace: &Trace<'_>,
) -> Result<SessionFound, AllocError>
    requires power { IsTrue (state_of board.now).powered }
    requires trace { IsTraceOf (state_of board.now).content cpu
        (script_events script.now.bytes.now) trace.now }
    ensures { IfOk result (IsSessionLaw (state_of board.now).content cpu
        (script_events script.now.bytes.now)) }
{
    if !host_writes(&trace.notes, &trace.moves) {
        return Ok(SessionFound::Silent);
    }
    let law = written_law(alloc, board, cpu, script, trace)?;
    Ok(law)
}
