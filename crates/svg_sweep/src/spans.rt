//! Rows of results, and the names of their chance runs.

ghost use Rattle.std.specs.Prelude.{◌≡◌, ◌≤◌, ◌^◌, ◌+◌, ◌++◌, IfOk, OnOk, codes, length, map, slice_get, string_bytes};
ghost use Rattle.std.specs.List.{flat_map};
ghost use Rattle.svg_marks.specs.Marks.{mark_text};
ghost use Rattle.svg_sweep.specs.Runs.{chance_runs, runs};
ghost use Rattle.svg_sweep.specs.Charts.{result_row, results_height, span, spans_from, spans_height};

use crate::bars::{push_bars, push_row_front, run_span_text};
use crate::runs::{Run, chance_runs, runs_of};
use std::alloc::{AllocError, Global};
use svg_marks::{Class, close_strip, push_caption};

/// How high the lines are that name so many runs.
fn spans_height(count: usize) -> usize
    requires { count ≤ 262144 }
    ensures { result ≡ spans_height count }
{
    20 * ((count + 4) / 5)
}

/// Appends the name of the chance run of this number.
fn push_span(
    alloc: Global,
    out: &mut Vec<u8>,
    top: usize,
    number: usize,
    run: Run,
) -> Result<(), AllocError>
    requires top { top ≤ 2 ^ 32 }
    requires number { number ≤ 262144 }
    ensures { OnOk result (out.new.items ≡ out.old.items ++ mark_text (span top number run)) }
{
    let words = run_span_text(alloc, run)?;
    let x = 120 + 160 * (number % 5);
    let y = top + 44 + 20 * (number / 5);
    push_caption(alloc, out, Class::Span, x, y, &words)
}

/// Appends the names of chance runs.
fn push_spans(alloc: Global, out: &mut Vec<u8>, top: usize, runs: &[Run]) -> Result<(), AllocError>
    requires top { top ≤ 2 ^ 32 }
    requires few { length runs.now ≤ 262144 }
    ensures { OnOk result (out.new.items
        ≡ out.old.items ++ flat_map mark_text (spans_from top 0 runs.now)) }
{
    for (number, run) in runs.iter().enumerate() {
        push_span(alloc, out, top, number, *run)?;
    }
    Ok(())
}

/// Appends a row of results, and answers how high it is.
#[tactic(auto, unfolding(crate::specs::Charts::result_row))]
pub fn push_result_row(
    alloc: Global,
    out: &mut Vec<u8>,
    part: &str,
    top: usize,
    classes: &[Class],
) -> Result<usize, AllocError>
    requires top { top ≤ 2 ^ 32 }
    requires few { length classes.now ≤ 262144 }
    ensures drawn { OnOk result (out.new.items
        ≡ out.old.items ++ flat_map mark_text (result_row part.now top classes.now)) }
    ensures height { IfOk result (λ height. height ≡ results_height classes.now) }
    ensures most { IfOk result (λ height. height ≤ 2 ^ 31) }
{
    let runs = runs_of(alloc, classes)?;
    let chances = chance_runs(alloc, &runs)?;
    push_row_front(alloc, out, part, top, classes.len())?;
    push_bars(alloc, out, part, &runs)?;
    close_strip(out)?;
    push_spans(alloc, out, top, &chances)?;
    Ok(44 + spans_height(chances.len()))
}
