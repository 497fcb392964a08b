//! The results of a sweep as classes of marks.

ghost use Rattle.std.specs.Prelude.{◌≡◌, IfOk, length, map};
ghost use Rattle.cli_sweep.specs.ChartWorks.{before_class, class_of, within_class};

use boot_sweep::{CutResult, StepResults};
use std::alloc::{AllocError, Global};
use svg_marks::Class;

/// The class of a result.
pub fn class_of(outcome: CutResult) -> Class
    ensures { result ≡ class_of outcome }
{
    match outcome {
        CutResult::Former => Class::Former,
        CutResult::Finished => Class::Finished,
        CutResult::Chance => Class::Chance,
    }
}

/// The classes of the results of a loss of power before each step.
pub fn before_classes(alloc: Global, cuts: &[StepResults]) -> Result<Vec<Class>, AllocError>
    ensures exact { IfOk result (λ classes. classes.items ≡ map before_class cuts.now) }
    ensures long { IfOk result (λ classes. length classes.items ≡ length cuts.now) }
{
    let mut classes = Vec::new(alloc);
    for cut in cuts {
        classes.push(class_of(cut.before))?;
    }
    Ok(classes)
}

/// The classes of the results of a loss of power within each step.
pub fn within_classes(alloc: Global, cuts: &[StepResults]) -> Result<Vec<Class>, AllocError>
    ensures exact { IfOk result (λ classes. classes.items ≡ map within_class cuts.now) }
    ensures long { IfOk result (λ classes. length classes.items ≡ length cuts.now) }
{
    let mut classes = Vec::new(alloc);
    for cut in cuts {
        classes.push(class_of(cut.within))?;
    }
    Ok(classes)
}
