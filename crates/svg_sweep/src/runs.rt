//! Runs: as many steps, one after the other, as have one class.

ghost use Rattle.std.specs.Prelude.{◌≡◌, ◌+◌, ◌<◌, ◌≤◌, ◌++◌, [], IfOk, OnOk, length, slice_get};
ghost use Rattle.svg_marks.specs.Reading.{is_class};
ghost use Rattle.svg_sweep.specs.Runs.{chance_runs, class_count, ends_run, next_first, run_by, runs};

use std::alloc::{AllocError, Global};
use svg_marks::{Class, is_class};

/// As many steps, one after the other, as have one class.
#[derive(Clone, Copy, Debug, PartialEq, Eq)]
pub struct Run {
    /// The run's first step.
    pub first: u32,
    /// The run's last step.
    pub last: u32,
    /// The class of the run's steps.
    pub class: Class,
}

/// Whether a run of this class ends before the next step, if there is one.
fn ends_run(class: Class, next: Option<Class>) -> bool
    ensures { result ≡ ends_run class next }
{
    match next {
        Some(next) => !is_class(class, next),
        None => true,
    }
}

/// The class of the step of this number, if there is one.
fn class_at(classes: &[Class], number: usize) -> Option<Class>
    ensures { result ≡ slice_get classes.now number }
{
    classes.get(number).copied()
}

/// Where the next run begins, when the step of this number is done.
fn next_first(ends: bool, first: u32, last: u32) -> u32
    requires { last < 262144 }
    ensures { result ≡ next_first ends first last }
{
    if ends { last + 1 } else { first }
}

/// Appends a run that is wanted.
fn push_wanted(runs: &mut Vec<Run>, wanted: bool, run: Run) -> Result<(), AllocError>
    ensures ok { OnOk result (runs.new.items ≡ runs.old.items ++ run_by wanted run []) }
    ensures few { OnOk result (length runs.new.items ≤ length runs.old.items + 1) }
{
    if wanted {
        runs.push(run)?;
    }
    Ok(())
}

/// The runs of steps with these classes.
pub fn runs_of(alloc: Global, classes: &[Class]) -> Result<Vec<Run>, AllocError>
    requires { length classes.now ≤ 262144 }
    ensures exact { IfOk result (λ found. found.items ≡ runs classes.now) }
    ensures few { IfOk result (λ found. length found.items ≤ length classes.now) }
{
    let mut found = Vec::new(alloc);
    let mut first = 0;
    for (last, class) in classes.iter().enumerate() {
        let ends = ends_run(*class, class_at(classes, last + 1));
        let run = Run {
            first,
            last: last as u32,
            class: *class,
        };
        push_wanted(&mut found, ends, run)?;
        first = next_first(ends, first, last as u32);
    }
    Ok(found)
}

/// The runs of result `chance`.
pub fn chance_runs(alloc: Global, runs: &[Run]) -> Result<Vec<Run>, AllocError>
    ensures exact { IfOk result (λ found. found.items ≡ chance_runs runs.now) }
    ensures few { IfOk result (λ found. length found.items ≤ length runs.now) }
{
    let mut found = Vec::new(alloc);
    for run in runs {
        push_wanted(&mut found, is_class(Class::Chance, run.class), *run)?;
    }
    Ok(found)
}

/// How many of the classes are this one.
pub fn class_count(class: Class, classes: &[Class]) -> usize
    ensures exact { result ≡ class_count class classes.now }
    ensures most { result ≤ length classes.now }
{
    let mut count = 0;
    for other in classes {
        if is_class(class, *other) {
            count += 1;
        }
    }
    count
}
