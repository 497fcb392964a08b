//! The lines of the cuts of a script.

ghost use Rattle.std.specs.Prelude.{◌≡◌, ◌++◌, IfOk, OnOk, slice_get, string_bytes};
ghost use Rattle.std.specs.List.{flat_map};
ghost use Rattle.cli_check.specs.CutsTexts.{answer_text, class_text, cut_text, cuts_text, end_text, number_at_text, part_text, run_text, step_at_text, step_text};

use boot_cuts::{Class, Cuts, Run};
use boot_rules::Decision;
use pico_board::Step;
use std::alloc::{AllocError, Global};
use text_lines::decision_line;

/// A class, in a word.
fn class_word(class: Class) -> &'static str
    ensures { result.now ≡ class_text class }
{
    match class {
        Class::Former => "former",
        Class::Finished => "finished",
        Class::Whole => "whole",
        Class::Tail => "tail",
        Class::Mixed => "mixed",
        Class::Bootsel => "bootsel",
    }
}

/// Where in its step a cut falls.
fn part_word(cut: u32) -> &'static str
    ensures { result.now ≡ part_text cut }
{
    if cut % 2 == 0 { " before" } else { " within" }
}

/// A step, with its flash offset or its row.
fn step_words(alloc: Global, step: &Step) -> Result<String, AllocError>
    ensures { IfOk result (λ t. string_bytes t ≡ step_text step.now) }
{
    match step {
        Step::Erase(sector) => {
            let at = 4096 * u64::from(*sector);
            format!(in alloc; "erase 0x{at:08x}")
        }
        Step::Program(page, _) => {
            let at = 256 * u64::from(*page);
            format!(in alloc; "program 0x{at:08x}")
        }
        Step::Raise(row, _) => {
            let row = *row;
            format!(in alloc; "raise 0x{row:03x}")
        }
    }
}

/// The step at a place of a trace.
fn step_at_words(alloc: Global, steps: &[Step], place: usize) -> Result<String, AllocError>
    ensures { IfOk result (λ t. string_bytes t ≡ step_at_text (slice_get steps.now place)) }
{
    match steps.get(place) {
        Some(step) => step_words(alloc, step),
        None => Ok(String::new(alloc)),
    }
}

/// The number of the event at a place of a trace.
fn number_at_words(alloc: Global, numbers: &[u32], place: usize) -> Result<String, AllocError>
    ensures { IfOk result (λ t. string_bytes t ≡ number_at_text (slice_get numbers.now place)) }
{
    match numbers.get(place) {
        Some(number) => {
            let number = *number;
            format!(in alloc; "{number}")
        }
        None => Ok(String::new(alloc)),
    }
}

/// A cut: the number of its step, the number of the event that does it, the step, and where in the
/// step it falls.
fn cut_words(alloc: Global, steps: &[Step], numbers: &[u32], cut: u32) -> Result<String, AllocError>
    ensures { IfOk result (λ t. string_bytes t ≡ cut_text steps.now numbers.now cut) }
{
    let number = cut / 2;
    let event = number_at_words(alloc, numbers, number as usize)?;
    let step = step_at_words(alloc, steps, number as usize)?;
    let part = part_word(cut);
    format!(in alloc; "{number} event={event} {step}{part}")
}

/// A class with a decision, to the end of a line.
fn answer_words(alloc: Global, class: Class, decision: &Decision) -> Result<String, AllocError>
    ensures { IfOk result (λ t. string_bytes t ≡ answer_text class decision.now) }
{
    let class = class_word(class);
    let decision = decision_line(alloc, decision)?;
    format!(in alloc; "{class} {decision}")
}

/// Appends the line of a run.
fn push_run(
    alloc: Global,
    text: &mut String,
    steps: &[Step],
    numbers: &[u32],
    run: &Run,
) -> Result<(), AllocError>
    ensures { OnOk result
        (string_bytes text.new ≡ string_bytes text.old ++ run_text steps.now numbers.now run.now) }
{
    let first = cut_words(alloc, steps, numbers, run.first)?;
    let last = cut_words(alloc, steps, numbers, run.last)?;
    let answer = answer_words(alloc, run.answer.class, &run.answer.decision)?;
    let line = format!(in alloc; "{first} to {last} {answer}")?;
    text.push_str(&line)
}

/// Appends the lines of runs.
fn push_runs(
    alloc: Global,
    text: &mut String,
    steps: &[Step],
    numbers: &[u32],
    runs: &[Run],
) -> Result<(), AllocError>
    ensures { OnOk result (string_bytes text.new
        ≡ string_bytes text.old ++ flat_map (run_text steps.now numbers.now) runs.now) }
{
    for run in runs {
        push_run(alloc, text, steps, numbers, run)?;
    }
    Ok(())
}

/// The end line, of so many steps.
fn end_line(
    alloc: Global,
    count: usize,
    class: Class,
    decision: &Decision,
) -> Result<String, AllocError>
    ensures { IfOk result (λ t. string_bytes t ≡ end_text count class decision.now) }
{
    let answer = answer_words(alloc, class, decision)?;
    format!(in alloc; "end {count} {answer}")
}

/// The text of the cuts of a script.
pub fn cuts_text(alloc: Global, found: &Cuts) -> Result<String, AllocError>
    ensures { IfOk result (λ t. string_bytes t ≡ cuts_text found.now.steps.items
        found.now.numbers.items found.now.runs.items found.now.end_ found.now.finished) }
{
    let mut text = String::new(alloc);
    push_runs(alloc, &mut text, &found.steps, &found.numbers, &found.runs)?;
    let count = found.steps.as_slice().len();
    let end = end_line(alloc, count, found.end_, &found.finished)?;
    text.push_str(&end)?;
    Ok(text)
}
