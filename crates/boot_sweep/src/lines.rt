//! The lines of a sweep.

ghost use Rattle.std.specs.Prelude.{◌≡◌, ◌++◌, IfOk, OnOk, false, length, string_bytes, true};
ghost use Rattle.std.specs.List.{flat_map};
ghost use Rattle.boot_sweep.specs.StepResults.{told_line, told_lines};
ghost use Rattle.boot_sweep.specs.Sweeps.{end_text, line_text, part_text, result_text, step_text};

use crate::results::{CutResult, StepResults, SweepResults};
use pico_board::Step;
use std::alloc::{AllocError, Global};

/// What a normal boot makes of a cut, in a word.
fn result_word(outcome: CutResult) -> &'static str
    ensures { result.now ≡ result_text outcome }
{
    match outcome {
        CutResult::Former => "former",
        CutResult::Finished => "finished",
        CutResult::Chance => "chance",
    }
}

/// Where a cut falls in its step.
fn part_word(within: bool) -> &'static str
    ensures { result.now ≡ part_text within }
{
    if within { " within " } else { " before " }
}

/// A step, with its flash offset.
fn step_words(alloc: Global, step: &Step) -> Result<String, AllocError>
    ensures { IfOk result (λ t. string_bytes t ≡ step_text step.now) }
{
    match step {
        Step::Erase(sector) => {
            let at = 4096 * u64::from(*sector);
            format!(in alloc; "erase 0x{at:08x}")
        }
        Step::Program(page, _) => {
            let at = 256 * u64::from(*page);
            format!(in alloc; "program 0x{at:08x}")
        }
        Step::Raise(row, _) => {
            let row = *row;
            format!(in alloc; "raise 0x{row:08x}")
        }
    }
}

/// Appends the line of a cut.
fn push_line(
    alloc: Global,
    text: &mut String,
    number: usize,
    step: &Step,
    within: bool,
    outcome: CutResult,
) -> Result<(), AllocError>
    ensures { OnOk result (string_bytes text.new
        ≡ string_bytes text.old ++ line_text (told_line number step.now within outcome)) }
{
    let step = step_words(alloc, step)?;
    let part = part_word(within);
    let word = result_word(outcome);
    let line = format!(in alloc; "{number} {step}{part}{word}\n")?;
    text.push_str(&line)
}

/// Appends the two lines of a step.
fn push_lines(
    alloc: Global,
    text: &mut String,
    number: usize,
    step: &Step,
    cut: &StepResults,
) -> Result<(), AllocError>
    ensures { OnOk result (string_bytes text.new ≡ string_bytes text.old
        ++ (line_text (told_line number step.now false cut.now.before)
        ++ line_text (told_line number step.now true cut.now.within))) }
{
    push_line(alloc, text, number, step, false, cut.before)?;
    push_line(alloc, text, number, step, true, cut.within)
}

/// Appends the end line.
fn push_end(
    alloc: Global,
    text: &mut String,
    count: usize,
    outcome: CutResult,
) -> Result<(), AllocError>
    ensures { OnOk result (string_bytes text.new
        ≡ string_bytes text.old ++ end_text count outcome) }
{
    let word = result_word(outcome);
    let line = format!(in alloc; "end {count} {word}\n")?;
    text.push_str(&line)
}

/// The lines of what a sweep found, and the end line.
pub fn results_text(alloc: Global, found: &SweepResults) -> Result<String, AllocError>
    requires same { length found.now.cuts.items ≡ length found.now.steps.items }
    ensures { IfOk result (λ t. string_bytes t
        ≡ flat_map line_text (told_lines 0 found.now.steps.items found.now.cuts.items)
        ++ end_text (length found.now.steps.items) found.now.end) }
{
    let mut text = String::new(alloc);
    for (number, cut) in found.cuts.iter().enumerate() {
        push_lines(alloc, &mut text, number, &found.steps[number], cut)?;
    }
    push_end(alloc, &mut text, found.steps.len(), found.end)?;
    Ok(text)
}
