//! Runs: as many cuts, one after the other, as have one class and one decision.

ghost use Rattle.std.specs.Prelude.{◌≡◌, ◌+◌, ◌^◌, ◌<◌, ◌∷◌, ◌++◌, [], None, List, IfOk, OnOk};
ghost use Rattle.boot_cuts.specs.declared.answers.Answer.{Answer as Told};
ghost use Rattle.boot_cuts.specs.Runs.{all_runs, is_same_answer, next_runs, option_list};

use crate::answers::Answer;
use boot_sweep::is_same_decision;
use cut_class::is_same_class;
use std::alloc::{AllocError, Global};

/// As many cuts, one after the other, as have one class and one decision. Cut 2k is the loss of
/// power before step k, and cut 2k + 1 that within it.
#[derive(Debug, Drop)]
pub struct Run {
    /// The run's first cut.
    pub first: u32,
    /// The run's last cut.
    pub last: u32,
    /// The answer of each of its cuts.
    pub answer: Answer,
}

/// Runs of the cuts so far.
#[derive(Drop)]
pub struct Runs {
    /// The runs that have ended.
    pub ended: Vec<Run>,
    /// The run that may go on.
    pub current: Option<Run>,
    /// The number of the next cut.
    pub next: u32,
}

/// Whether the class and the decision are the same.
fn is_same_answer(one: &Answer, two: &Answer) -> bool
    ensures { result ≡ is_same_answer one.now two.now }
{
    is_same_class(one.class, two.class) && is_same_decision(&one.decision, &two.decision)
}

/// The run that ends before a cut, if one does, and the one that the cut belongs to.
fn next_runs(current: Option<Run>, number: u32, answer: Answer) -> (Option<Run>, Run)
    ensures { result ≡ next_runs current number answer }
{
    let run = Run {
        first: number,
        last: number,
        answer,
    };
    match current {
        None => (None, run),
        Some(former) => {
            if is_same_answer(&run.answer, &former.answer) {
                (
                    None,
                    Run {
                        first: former.first,
                        last: number,
                        answer: former.answer,
                    },
                )
            } else {
                (Some(former), run)
            }
        }
    }
}

/// Appends a run, if there is one.
fn push_some(runs: &mut Vec<Run>, run: Option<Run>) -> Result<(), AllocError>
    ensures { OnOk result (runs.new.items ≡ runs.old.items ++ option_list run) }
{
    match run {
        Some(run) => runs.push(run)?,
        None => {}
    }
    Ok(())
}

impl Runs {
    /// The runs of no cut.
    pub fn begin(alloc: Global) -> Runs
        ensures ended { result.ended.items ≡ [] }
        ensures none { result.current ≡ None }
        ensures next { result.next ≡ 0 }
    {
        Runs {
            ended: Vec::new(alloc),
            current: None,
            next: 0,
        }
    }

    /// Adds the next cut.
    pub fn add(&mut self, answer: Answer) -> Result<(), AllocError>
        requires { self.old.next < 2 ^ 31 }
        ensures runs { OnOk result ((answers : List Told)
            → all_runs self.new answers ≡ all_runs self.old (answer ∷ answers)) }
        ensures next { OnOk result (self.new.next ≡ self.old.next + 1) }
    {
        let (ended, current) = next_runs(self.current.take(), self.next, answer);
        push_some(&mut self.ended, ended)?;
        self.current = Some(current);
        self.next += 1;
        Ok(())
    }

    /// The runs, where no cut follows.
    pub fn end(self) -> Result<Vec<Run>, AllocError>
        ensures { IfOk result (λ runs. runs.items ≡ all_runs self []) }
    {
        let mut runs = self.ended;
        push_some(&mut runs, self.current)?;
        Ok(runs)
    }
}
