//! The sweep: what a normal boot makes of each loss of power in a session.

ghost use Rattle.std.specs.Prelude.{◌≡◌, ◌≢◌, ℕ, ◌≤◌, ◌++◌, List, IfErr, IfOk, IsErrOf, IsTrue, None, OnOk, string_bytes, true};
ghost use Rattle.pico_board.specs.declared.Step.{Step as Done};
ghost use Rattle.pico_board.specs.declared.boot.BootKind.TheVariants.{Normal};
ghost use Rattle.pico_board.specs.Content.{IsContent};
ghost use Rattle.pico_board.specs.Cuts.{IsPattern};
ghost use Rattle.pico_board.specs.MemBoard.{new_state, state_of};
ghost use Rattle.sector_pool.specs.Keeping.{KeepsOut};
ghost use Rattle.sector_pool.specs.Pool.{HasFree, free_count};
ghost use Rattle.boot_rules.specs.Choosing.{decision_in};
ghost use Rattle.boot_script.specs.Judging.{IsScript};
ghost use Rattle.boot_script.specs.Written.{IsKept};
ghost use Rattle.boot_sweep.specs.declared.error.SweepError.TheVariants.{Memory};
ghost use Rattle.boot_session.specs.Recordings.{IsRecorderOf, kept_steps};
ghost use Rattle.boot_sweep.specs.Refusals.{IsRefusedSession, IsSwept, is_start_in, starts_in_slot, sweep_refusal};
ghost use Rattle.boot_session.specs.Scripts.{content_of, script_session};
ghost use Rattle.boot_session.specs.Standing.{IsUnarmed};
ghost use Rattle.boot_sweep.specs.StepResults.{HasResults, IsResultsOf};
ghost use Rattle.boot_sweep.specs.Swept.{IsSweep};
ghost use Rattle.boot_sweep.specs.Sweeps.{sweep_text};

use crate::error::SweepError;
use crate::gating::ungated;
use crate::lines::results_text;
use crate::results::{CutResult, Ends, StepResults, SweepResults, result_on};
use crate::sweeping::results_of;
use boot_rules::{Decision, decide, find_table};
use boot_session::{Recorder, STEP_LIMIT, session_on};
use pico_board::{Board, BootKind, Cpu, MemBoard, Step, Window};
use sector_pool::SectorPool;
use std::alloc::{AllocError, Global};

/// A board with this content.
fn board_of(alloc: Global, flash: &Vec<u8>, otp: &Vec<u32>) -> Result<MemBoard, SweepError>
    requires content { IsContent (content_of flash.now.items otp.now.items) }
    ensures made { IfOk result (λ board. state_of board
        ≡ new_state flash.now.items otp.now.items) }
    ensures memory { IfErr result (λ e. e ≡ Memory) }
{
    let flash = match flash.clone() {
        Ok(flash) => flash,
        Err(_) => return Err(SweepError::Memory),
    };
    let otp = match otp.clone() {
        Ok(otp) => otp,
        Err(_) => return Err(SweepError::Memory),
    };
    match MemBoard::new(alloc, flash, otp) {
        Ok(board) => Ok(board),
        Err(_) => Err(SweepError::Memory),
    }
}

/// Whether a decision starts an image of the window.
pub fn is_start_in(window: Window, decision: &Decision) -> bool
    ensures { result ≡ is_start_in window decision.now }
{
    match decision {
        Decision::Start(choice) => choice.image.window.is_same(window),
        Decision::Bootsel(_) => false,
    }
}

/// The answer of the function above for the window of the slot, where there is one.
fn starts_in_slot(slot: Option<Window>, decision: &Decision) -> bool
    ensures { result ≡ starts_in_slot slot decision.now }
{
    match slot {
        Some(window) => is_start_in(window, decision),
        None => false,
    }
}

/// The steps that a recorder keeps, as many as are swept at most.
fn kept_steps(steps: &[Step]) -> &[Step]
    ensures { result.now ≡ kept_steps steps.now }
{
    if steps.len() > STEP_LIMIT {
        &steps[..STEP_LIMIT]
    } else {
        steps
    }
}

/// Why the recorded session is not swept, for a board before it and the decision there.
fn sweep_refusal<B: Board>(
    board: &B,
    recorder: &Recorder<MemBoard>,
    former: &Decision,
    cpu: Cpu,
) -> Option<SweepError>
    requires power { IsTrue (B.state board.now).powered }
    requires recorded { (steps : List Done)
        × IsRecorderOf recorder.now (B.state board.now).content cpu steps }
    requires former { former.now ≡ decision_in (B.state board.now).content cpu Normal }
    ensures { (steps : List Done)
        → IsRecorderOf recorder.now (B.state board.now).content cpu steps
        → result ≡ sweep_refusal (B.state board.now).content cpu steps }
{
    if let Some(k) = recorder.outside {
        return Some(SweepError::NotConfined(k));
    }
    if let Some(k) = ungated(recorder.slot, kept_steps(&recorder.steps)) {
        return Some(SweepError::NotGated(k));
    }
    if recorder.count > STEP_LIMIT as u32 {
        return Some(SweepError::TooManySteps);
    }
    if starts_in_slot(recorder.slot, former) {
        return Some(SweepError::FormerInSlot);
    }
    if find_table(board).is_none() && find_table(&recorder.bench).is_some() {
        return Some(SweepError::TableChanged);
    }
    None
}

/// The results of the recorded session's steps and of the whole session, on a board before it.
fn judged(
    alloc: Global,
    board: MemBoard,
    pool: &mut SectorPool,
    cpu: Cpu,
    recorder: &Recorder<MemBoard>,
    pattern: &[u8],
) -> Result<(Vec<StepResults>, CutResult), SweepError>
    requires ready { IsUnarmed (state_of board) }
    requires recorded { (steps : List Done)
        × IsRecorderOf recorder.now (state_of board).content cpu steps }
    requires pattern { IsPattern true pattern.now }
    requires free { HasFree pool.old }
    ensures judged { (steps : List Done)
        → IsRecorderOf recorder.now (state_of board).content cpu steps
        → IsSwept (sweep_refusal (state_of board).content cpu steps) result
        × IfOk result (λ found. HasResults (state_of board).content cpu pattern.now steps
        found.0.items found.1) }
    ensures kept { KeepsOut pool.old pool.new }
{
    let former = decide(&board, pool, cpu, BootKind::Normal);
    if let Some(reason) = sweep_refusal(&board, recorder, &former, cpu) {
        return Err(reason);
    }
    let finished = decide(&recorder.bench, pool, cpu, BootKind::Normal);
    let ends = Ends {
        cpu,
        former,
        finished,
        board: &recorder.bench,
    };
    match all_results(alloc, board, pool, &ends, recorder, pattern) {
        Ok(found) => Ok(found),
        Err(_) => Err(SweepError::Memory),
    }
}

/// The results of the recorded session, which is swept.
fn all_results(
    alloc: Global,
    board: MemBoard,
    pool: &mut SectorPool,
    ends: &Ends<'_, MemBoard>,
    recorder: &Recorder<MemBoard>,
    pattern: &[u8],
) -> Result<(Vec<StepResults>, CutResult), AllocError>
    requires ready { IsUnarmed (state_of board) }
    requires same { ends.now.board.now ≡ recorder.now.bench }
    requires recorded { (steps : List Done)
        × IsRecorderOf recorder.now (state_of board).content ends.now.cpu steps
        × (sweep_refusal (state_of board).content ends.now.cpu steps ≡ None) }
    requires former { ends.now.former
        ≡ decision_in (state_of board).content ends.now.cpu Normal }
    requires finished { ends.now.finished
        ≡ decision_in (state_of recorder.now.bench).content ends.now.cpu Normal }
    requires pattern { IsPattern true pattern.now }
    requires free { HasFree pool.old }
    ensures found { (steps : List Done)
        → IsRecorderOf recorder.now (state_of board).content ends.now.cpu steps
        → IfOk result (λ found. HasResults (state_of board).content ends.now.cpu pattern.now steps
        found.0.items found.1) }
    ensures kept { KeepsOut pool.old pool.new }
{
    let mut board = board;
    let cuts = results_of(alloc, &mut board, pool, ends, &recorder.steps, pattern)?;
    let end = result_on(&board, pool, ends);
    Ok((cuts, end))
}

/// Sweeps the session of a script. It finds its steps, and what a normal boot makes of a loss of
/// power before each and within it, and of the whole session. [`sweep`] writes a line for each of
/// these, and refuses the same sessions. The pool keeps what is out.
pub fn swept(
    alloc: Global,
    flash: &Vec<u8>,
    otp: &Vec<u32>,
    pool: &mut SectorPool,
    cpu: Cpu,
    script: &[u8],
    pattern: &[u8],
) -> Result<SweepResults, SweepError>
    requires content { IsContent (content_of flash.now.items otp.now.items) }
    requires script { IsScript script.now }
    requires pattern { IsPattern true pattern.now }
    requires free { HasFree pool.old }
    ensures swept { IsSwept (sweep_refusal (content_of flash.now.items otp.now.items) cpu
        (script_session (content_of flash.now.items otp.now.items) cpu script.now)) result }
    ensures found { IfOk result (IsResultsOf (content_of flash.now.items otp.now.items) cpu
        pattern.now (script_session (content_of flash.now.items otp.now.items) cpu script.now)) }
    ensures kept { KeepsOut pool.old pool.new }
{
    let recorder = match session_on(alloc, board_of(alloc, flash, otp)?, cpu, script) {
        Ok(recorder) => recorder,
        Err(_) => return Err(SweepError::Memory),
    };
    let board = board_of(alloc, flash, otp)?;
    match judged(alloc, board, pool, cpu, &recorder, pattern) {
        Ok((cuts, end)) => Ok(SweepResults {
            steps: recorder.steps,
            cuts,
            end,
        }),
        Err(reason) => Err(reason),
    }
}

/// The text of the sweep of a script's session, which [`sweep`] appends to bytes. It is refused as
/// there. The pool keeps what is out.
fn swept_text(
    alloc: Global,
    flash: &Vec<u8>,
    otp: &Vec<u32>,
    pool: &mut SectorPool,
    cpu: Cpu,
    script: &[u8],
    pattern: &[u8],
) -> Result<String, SweepError>
    requires content { IsContent (content_of flash.now.items otp.now.items) }
    requires script { IsScript script.now }
    requires pattern { IsPattern true pattern.now }
    requires free { HasFree pool.old }
    ensures swept { IsSwept (sweep_refusal (content_of flash.now.items otp.now.items) cpu
        (script_session (content_of flash.now.items otp.now.items) cpu script.now)) result }
    ensures text { IfOk result (λ t. string_bytes t
        ≡ sweep_text (content_of flash.now.items otp.now.items) cpu pattern.now
        (script_session (content_of flash.now.items otp.now.items) cpu script.now)) }
    ensures kept { KeepsOut pool.old pool.new }
{
    let found = match swept(alloc, flash, otp, pool, cpu, script, pattern) {
        Ok(found) => found,
        Err(reason) => return Err(reason),
    };
    match results_text(alloc, &found) {
        Ok(text) => Ok(text),
        Err(_) => Err(SweepError::Memory),
    }
}

/// Appends the text of the sweep of a script's session.
fn push_sweep(
    alloc: Global,
    flash: &Vec<u8>,
    otp: &Vec<u32>,
    pool: &mut SectorPool,
    cpu: Cpu,
    script: &[u8],
    pattern: &[u8],
    out: &mut Vec<u8>,
) -> Result<(), SweepError>
    requires content { IsContent (content_of flash.now.items otp.now.items) }
    requires script { IsScript script.now }
    requires pattern { IsPattern true pattern.now }
    requires free { HasFree pool.old }
    ensures swept { IsSwept (sweep_refusal (content_of flash.now.items otp.now.items) cpu
        (script_session (content_of flash.now.items otp.now.items) cpu script.now)) result }
    ensures text { OnOk result (out.new.items ≡ out.old.items
        ++ sweep_text (content_of flash.now.items otp.now.items) cpu pattern.now
        (script_session (content_of flash.now.items otp.now.items) cpu script.now)) }
    ensures refused { (e : SweepError) → IsErrOf result e → e ≢ Memory
        → out.new.items ≡ out.old.items }
    ensures front { IsKept out.old.items out.new.items }
    ensures pool { KeepsOut pool.old pool.new }
{
    let text = swept_text(alloc, flash, otp, pool, cpu, script, pattern)?;
    match out.extend_from_slice(text.as_bytes()) {
        Ok(()) => Ok(()),
        Err(_) => Err(SweepError::Memory),
    }
}

/// Sweeps the session of a script: the steps that its host's events do on a board with this
/// content that has entered BOOTSEL. Power may be lost before each step and within it, which
/// leaves what the pattern says. A line for each says what the next normal boot makes of it. It
/// decides as before the session (`former`). Or it starts the image that it starts after the whole
/// session, with the same bytes (`finished`). Or it does neither (`chance`). The end line says the
/// same of the whole session. `chance` comes on at most 32 lines. It comes only where the cut
/// leaves an unfinished content with another table or with an accidental image in that member. A
/// session is refused for the first of these. A step leaves the member of a pair in which the
/// first one lies. Up to a step the steps do not write that member's first sector last. There are
/// more than 262,144 steps. An image of that member starts before the session. The session leaves
/// another partition table. A refusal leaves `out`, and want of memory leaves its bytes in front.
/// The pool keeps what is out.
pub fn sweep(
    alloc: Global,
    flash: &Vec<u8>,
    otp: &Vec<u32>,
    pool: &mut SectorPool,
    cpu: Cpu,
    script: &[u8],
    pattern: &[u8],
    out: &mut Vec<u8>,
) -> Result<(), SweepError>
    requires content { IsContent (content_of flash.now.items otp.now.items) }
    requires script { IsScript script.now }
    requires pattern { IsPattern true pattern.now }
    requires leases { 4 ≤ free_count pool.old }
    ensures swept { OnOk result ((text : List ℕ) × (out.new.items ≡ out.old.items ++ text)
        × IsSweep (content_of flash.now.items otp.now.items) cpu pattern.now
        (script_session (content_of flash.now.items otp.now.items) cpu script.now) text) }
    ensures taken { OnOk result ((e : SweepError)
        → IsRefusedSession (content_of flash.now.items otp.now.items) cpu
        (script_session (content_of flash.now.items otp.now.items) cpu script.now) e → ⊥) }
    ensures refused { (e : SweepError) → IsErrOf result e → e ≢ Memory
        → IsRefusedSession (content_of flash.now.items otp.now.items) cpu
        (script_session (content_of flash.now.items otp.now.items) cpu script.now) e
        × (out.new.items ≡ out.old.items) }
    ensures judged { IsSwept (sweep_refusal (content_of flash.now.items otp.now.items) cpu
        (script_session (content_of flash.now.items otp.now.items) cpu script.now)) result }
    ensures text { OnOk result (out.new.items ≡ out.old.items
        ++ sweep_text (content_of flash.now.items otp.now.items) cpu pattern.now
        (script_session (content_of flash.now.items otp.now.items) cpu script.now)) }
    ensures front { IsKept out.old.items out.new.items }
    ensures pool { KeepsOut pool.old pool.new }
{
    push_sweep(alloc, flash, otp, pool, cpu, script, pattern, out)
}
