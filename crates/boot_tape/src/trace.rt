//! What a script does to a board, step by step.

ghost use Rattle.std.specs.Prelude.{◌≡◌, ℕ, ◌+◌, ◌-◌, ◌^◌, ◌<◌, ◌==◌, ◌∷◌, ◌++◌, All, IfOk, OnOk, if◌then◌else◌, [], false, true, None, Some, length, min, option_map};
ghost use Rattle.pico_board.specs.Cuts.{nearer as one_nearer};
ghost use Rattle.pico_board.specs.Steps.{IsStepIn};
ghost use Rattle.boot_tape.specs.Playing.{HasCompleted, HasLost, HasPattern, HasTaken, IsTapeIn, cut_from, told_of, with_cut, with_notes};
ghost use Rattle.boot_tape.specs.declared.notes.Behind.TheVariants.{Nothing};
ghost use Rattle.text_lines.specs.declared.outcome.EventOutcome.TheVariants.{CutArmed};

use crate::notes::{Behind, Came, Note};
use boot_sweep::Move;
use pico_board::{MemBoard, Step};
use std::alloc::{AllocError, Global};
use text_lines::EventOutcome;

/// A cut that a script has armed.
#[derive(Clone, Copy)]
pub struct ArmedCut<'a> {
    /// The steps that complete before it.
    pub left: u32,
    /// Whether it falls within the next step or before it.
    pub within: bool,
    /// What a cut within leaves.
    pub pattern: &'a [u8],
}

/// What a script has done to a board.
#[derive(Drop)]
pub struct Trace<'a> {
    /// The board as the script has left it.
    pub board: MemBoard,
    /// All that it has done, in order.
    pub moves: Vec<Move<'a>>,
    /// The number of the event that did each step that completed.
    pub numbers: Vec<u32>,
    /// What is noted of each event.
    pub notes: Vec<Note>,
}

/// What is told of a script while it is played. It holds no board.
#[derive(Drop)]
pub(crate) struct Tape<'a> {
    /// All that the script has done, in order.
    pub moves: Vec<Move<'a>>,
    /// The number of the event that did each step that completed.
    pub numbers: Vec<u32>,
    /// How many steps have completed.
    pub done: usize,
    /// The cut that the script has armed.
    pub armed: Option<ArmedCut<'a>>,
    /// What is noted of each event.
    pub notes: Vec<Note>,
}

/// The armed cut with one step fewer to come before it, or none where it falls due in the next
/// step.
fn nearer<'a>(cut: ArmedCut<'a>) -> Option<ArmedCut<'a>>
    ensures { option_map cut_from result ≡ (if cut.entry.left == 0 then None
        else Some (one_nearer (cut_from cut.entry))) }
{
    if cut.left == 0 {
        return None;
    }
    Some(ArmedCut {
        left: cut.left - 1,
        within: cut.within,
        pattern: cut.pattern,
    })
}

impl<'a> Tape<'a> {
    /// The tape of a script that has done nothing yet.
    pub(crate) fn begin(alloc: Global) -> Tape<'a>
        ensures none { result.moves.items ≡ [] }
        ensures numbers { result.numbers.items ≡ [] }
        ensures done { result.done ≡ 0 }
        ensures unarmed { result.armed ≡ None }
        ensures notes { result.notes.items ≡ [] }
    {
        Tape {
            moves: Vec::new(alloc),
            numbers: Vec::new(alloc),
            done: 0,
            armed: None,
            notes: Vec::new(alloc),
        }
    }

    /// The trace of a script that leaves this board.
    pub(crate) fn into_trace(self, board: MemBoard) -> Trace<'a>
        ensures board { result.board ≡ board }
        ensures moves { result.moves ≡ self.entry.moves }
        ensures numbers { result.numbers ≡ self.entry.numbers }
        ensures notes { result.notes ≡ self.entry.notes }
    {
        Trace {
            board,
            moves: self.moves,
            numbers: self.numbers,
            notes: self.notes,
        }
    }

    /// Arms a cut, and notes the event.
    pub(crate) fn arm(&mut self, cut: ArmedCut<'a>) -> Result<(), AllocError>
        requires { HasPattern (Some (cut_from cut)) }
        ensures ready { OnOk result ((n : ℕ) → IsTapeIn n self.old → IsTapeIn n self.new) }
        ensures same { OnOk result (self.new ≡ with_notes (with_cut self.old cut.entry) self.new) }
        ensures noted { OnOk result (self.new.notes.items ≡ self.old.notes.items ++ record {
          outcome = CutArmed;
          own = 0;
          behind = Nothing;
          moves = 0;
          whole = true;
        } ∷ []) }
    {
        self.armed = Some(cut);
        self.notes.push(Note {
            outcome: EventOutcome::CutArmed,
            own: 0,
            behind: Behind::Nothing,
            moves: 0,
            whole: true,
        })?;
        Ok(())
    }

    /// Notes an event whose moves are those behind the former ones.
    pub(crate) fn note(&mut self, came: Came, former: usize, whole: bool) -> Result<(), AllocError>
        ensures ready { OnOk result ((n : ℕ) → IsTapeIn n self.old → IsTapeIn n self.new) }
        ensures same { OnOk result (self.new ≡ with_notes self.old self.new) }
        ensures noted { OnOk result (self.new.notes.items ≡ self.old.notes.items ++ record {
          outcome = came.outcome;
          own = min came.own (length self.old.moves.items - former);
          behind = came.behind;
          moves = length self.old.moves.items - former;
          whole = whole;
        } ∷ []) }
    {
        let moves = self.moves.len().saturating_sub(former);
        self.notes.push(Note {
            outcome: came.outcome,
            own: came.own.min(moves),
            behind: came.behind,
            moves,
            whole,
        })?;
        Ok(())
    }

    /// Tells a step that completes, of the event of this number.
    fn complete(&mut self, step: &Step, number: u32) -> Result<(), AllocError>
        requires { self.old.done < 2 ^ 62 }
        ensures ready { OnOk result ((n : ℕ) → IsTapeIn n self.old → IsStepIn n step.now
            → IsTapeIn n self.new) }
        ensures done { OnOk result (HasCompleted self.old step.now number self.new) }
    {
        self.moves.push(Move::Done(*step))?;
        self.numbers.push(number)?;
        self.done += 1;
        Ok(())
    }

    /// Tells a step that the armed cut cuts, and answers false.
    fn lose(&mut self, step: &Step, armed: ArmedCut<'a>) -> Result<bool, AllocError>
        requires { told_of self.old ≡ Some (cut_from armed) }
        ensures ready { OnOk result ((n : ℕ) → IsTapeIn n self.old → IsStepIn n step.now
            → IsTapeIn n self.new) }
        ensures lost { IfOk result (λ whole. (whole ≡ false)
            × HasLost self.old step.now (cut_from armed.entry) self.new) }
    {
        self.moves
            .push(Move::Torn(*step, armed.within, armed.pattern))?;
        self.armed = None;
        Ok(false)
    }

    /// Tells a step of the event of this number, and answers whether it completes.
    fn take_step(&mut self, step: &Step, number: u32) -> Result<bool, AllocError>
        requires { self.old.done < 2 ^ 62 }
        ensures ready { OnOk result ((n : ℕ) → IsTapeIn n self.old → IsStepIn n step.now
            → IsTapeIn n self.new) }
        ensures taken { IfOk result
            (λ whole. HasTaken self.old (step.now ∷ []) number whole self.new) }
    {
        if let Some(armed) = self.armed {
            match nearer(armed) {
                Some(next) => self.armed = Some(next),
                None => return self.lose(step, armed),
            }
        }
        self.complete(step, number)?;
        Ok(true)
    }

    /// Tells the steps of the event of this number, up to the one that the armed cut cuts, and
    /// answers whether all complete.
    pub(crate) fn take_steps(&mut self, steps: &[Step], number: u32) -> Result<bool, AllocError>
        requires { self.old.done + length steps.now < 2 ^ 62 }
        ensures ready { OnOk result ((n : ℕ) → IsTapeIn n self.old → All (IsStepIn n) steps.now
            → IsTapeIn n self.new) }
        ensures taken { IfOk result (λ whole. HasTaken self.old steps.now number whole self.new) }
    {
        for step in steps {
            if !self.take_step(step, number)? {
                return Ok(false);
            }
        }
        Ok(true)
    }
}
