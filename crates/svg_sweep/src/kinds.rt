//! The row of the kinds of steps.

ghost use Rattle.std.specs.Prelude.{◌≡◌, ◌≤◌, ◌^◌, ◌+◌, ◌++◌, IfOk, OnOk, codes, length, map, slice_get, string_bytes};
ghost use Rattle.std.specs.List.{flat_map};
ghost use Rattle.svg_marks.specs.Marks.{Label, mark_text};
ghost use Rattle.svg_sweep.specs.Runs.{runs};
ghost use Rattle.svg_sweep.specs.Charts.{kind_bar, class_of_step, kind_row, kind_title, offset_by, offset_of_step, steps_text};

use crate::bars::{class_colour, push_row_front, run_area};
use crate::runs::{Run, runs_of};
use pico_board::Step;
use std::alloc::{AllocError, Global};
use svg_marks::{Class, class_word, close_strip, push_label, push_rect};
use text_words::hex_text;

/// The kind of a step.
fn class_of_step(step: &Step) -> Class
    ensures { result ≡ class_of_step step.now }
{
    match step {
        Step::Erase(_) => Class::Erase,
        Step::Program(..) => Class::Program,
        Step::Raise(..) => Class::Raise,
    }
}

/// The kinds of steps.
fn kinds_of(alloc: Global, steps: &[Step]) -> Result<Vec<Class>, AllocError>
    ensures exact { IfOk result (λ kinds. kinds.items ≡ map class_of_step steps.now) }
    ensures long { IfOk result (λ kinds. length kinds.items ≡ length steps.now) }
{
    let mut kinds = Vec::new(alloc);
    for step in steps {
        kinds.push(class_of_step(step))?;
    }
    Ok(kinds)
}

/// The flash offset of a step, or the row of a raise.
fn offset_of_step(step: &Step) -> u64
    ensures { result ≡ offset_of_step step.now }
{
    match step {
        Step::Erase(sector) => 4096 * u64::from(*sector),
        Step::Program(page, _) => 256 * u64::from(*page),
        Step::Raise(row, _) => u64::from(*row),
    }
}

/// The flash offset of the step of this number, or the row of a raise; 0 where there is no such
/// step.
fn offset_at(steps: &[Step], number: u32) -> u64
    ensures { result ≡ offset_by (slice_get steps.now number) }
{
    match steps.get(number as usize) {
        Some(step) => offset_of_step(step),
        None => 0,
    }
}

/// The title of a run of kinds.
#[tactic(auto, unfolding(crate::specs::Charts::kind_title))]
fn kind_title(alloc: Global, steps: &[Step], run: Run) -> Result<String, AllocError>
    ensures { IfOk result (λ t. string_bytes t ≡ kind_title steps.now run) }
{
    let class = class_word(run.class);
    let first = hex_text(alloc, offset_at(steps, run.first))?;
    let last = hex_text(alloc, offset_at(steps, run.last))?;
    format!(in alloc; "{class} {first} to {last}")
}

/// Appends the rectangle of a run of kinds.
fn push_kind_bar(
    alloc: Global,
    out: &mut Vec<u8>,
    steps: &[Step],
    run: Run,
) -> Result<(), AllocError>
    ensures { OnOk result (out.new.items ≡ out.old.items ++ mark_text (kind_bar steps.now run)) }
{
    let title = kind_title(alloc, steps, run)?;
    push_rect(
        alloc,
        out,
        run.class,
        run_area(run),
        class_colour(run.class),
        &title,
    )
}

/// Appends the rectangles of runs of kinds.
fn push_kind_bars(
    alloc: Global,
    out: &mut Vec<u8>,
    steps: &[Step],
    runs: &[Run],
) -> Result<(), AllocError>
    ensures { OnOk result (out.new.items
        ≡ out.old.items ++ flat_map mark_text (map (kind_bar steps.now) runs.now)) }
{
    for run in runs {
        push_kind_bar(alloc, out, steps, *run)?;
    }
    Ok(())
}

/// Which steps there are, of so many.
#[tactic(auto, unfolding(crate::specs::Charts::steps_text))]
fn steps_text(alloc: Global, count: usize) -> Result<String, AllocError>
    ensures { IfOk result (λ t. string_bytes t ≡ steps_text count) }
{
    let last = count.saturating_sub(1);
    format!(in alloc; "steps 0 to {last}")
}

/// Appends which steps there are.
fn push_steps(alloc: Global, out: &mut Vec<u8>, y: usize, count: usize) -> Result<(), AllocError>
    ensures { OnOk result (out.new.items
        ≡ out.old.items ++ mark_text (Label 120 y (steps_text count))) }
{
    let words = steps_text(alloc, count)?;
    push_label(alloc, out, 120, y, &words)
}

/// Appends the row of kinds, and below it which steps there are.
#[tactic(auto, unfolding(crate::specs::Charts::kind_row))]
pub fn push_kind_row(
    alloc: Global,
    out: &mut Vec<u8>,
    top: usize,
    steps: &[Step],
) -> Result<(), AllocError>
    requires top { top ≤ 2 ^ 32 }
    requires few { length steps.now ≤ 262144 }
    ensures { OnOk result (out.new.items
        ≡ out.old.items ++ flat_map mark_text (kind_row top steps.now)) }
{
    let kinds = kinds_of(alloc, steps)?;
    let runs = runs_of(alloc, &kinds)?;
    push_row_front(alloc, out, "steps", top, steps.len())?;
    push_kind_bars(alloc, out, steps, &runs)?;
    close_strip(out)?;
    push_steps(alloc, out, top + 42, steps.len())?;
    Ok(())
}
