//! The first step that programs a page whose sector no step before it erases.

ghost use Rattle.std.specs.Prelude.{◌≡◌, ◌++◌, ◌∷◌, [], IfOk, List, OnOk};
ghost use Rattle.pico_board.specs.declared.Step.{Step as Written};
ghost use Rattle.check_records.specs.Erased.{HasErased};
ghost use Rattle.check_records.specs.Unerased.{first_unerased, is_unerased};

use pico_board::Step;
use std::alloc::{AllocError, Global};
use std::collections::BTreeSet;

/// The pages of a sector.
const PAGES: u32 = 16;

/// Whether the step programs a page whose sector is none of these.
fn is_unerased(erased: &BTreeSet<u32>, step: &Step) -> bool
    ensures { (before : List Written) → HasErased erased.now before
        → result ≡ is_unerased before step.now }
{
    match step {
        Step::Program(page, _) => !erased.contains(&(*page / PAGES)),
        Step::Erase(_) | Step::Raise(_, _) => false,
    }
}

/// Adds the sector that the step erases.
fn note(erased: &mut BTreeSet<u32>, step: &Step) -> Result<(), AllocError>
    ensures { OnOk result ((before : List Written) → HasErased erased.old before
        → HasErased erased.new (before ++ step.now ∷ [])) }
{
    if let Step::Erase(sector) = step {
        erased.insert(*sector)?;
    }
    Ok(())
}

/// The number of the first of the steps that programs a page whose sector no step before it
/// erases. It fails only where memory is out.
pub fn first_unerased(alloc: Global, steps: &[Step]) -> Result<Option<usize>, AllocError>
    ensures { IfOk result (λ number. number ≡ first_unerased steps.now) }
{
    let mut erased = BTreeSet::new(alloc);
    for (number, step) in steps.iter().enumerate() {
        if is_unerased(&erased, step) {
            return Ok(Some(number));
        }
        note(&mut erased, step)?;
    }
    Ok(None)
}
