//! The picture of a sweep.

ghost use Rattle.std.specs.Prelude.{◌≡◌, ◌≤◌, ◌^◌, ◌+◌, ◌++◌, IfOk, OnOk, [], codes, length, map, slice_get, string_bytes};
ghost use Rattle.std.specs.List.{flat_map};
ghost use Rattle.svg_marks.specs.Marks.{front_text, mark_text, picture_text};
ghost use Rattle.svg_sweep.specs.Charts.{chart_words, count_of, end_rows, end_top, height_by, kind_legend, legend, marks_by, picture_of, results_height, step_rows, within_top};

use crate::kinds::push_kind_row;
use crate::legend::{push_end_row, push_kind_legend, push_legend_entry};
use crate::runs::class_count;
use crate::spans::push_result_row;
use pico_board::Step;
use std::alloc::{AllocError, Global};
use svg_marks::{Class, push_end, push_front};

/// How many of the lines of a sweep have this result.
fn count_of(class: Class, before: &[Class], within: &[Class]) -> usize
    requires before { length before.now ≤ 262144 }
    requires within { length within.now ≤ 262144 }
    ensures { result ≡ count_of class before.now within.now }
{
    class_count(class, before) + class_count(class, within)
}

/// What the command says of a sweep of these steps: how many steps there are, and how many lines
/// have each result. The results are those of a loss of power before and within each step.
#[tactic(auto, unfolding(crate::specs::Charts::chart_words))]
pub fn chart_words(
    alloc: Global,
    steps: &[Step],
    before: &[Class],
    within: &[Class],
) -> Result<String, AllocError>
    requires before { length before.now ≤ 262144 }
    requires within { length within.now ≤ 262144 }
    ensures { IfOk result
        (λ t. string_bytes t ≡ chart_words steps.now before.now within.now) }
{
    let count = steps.len();
    let former = count_of(Class::Former, before, within);
    let finished = count_of(Class::Finished, before, within);
    let chance = count_of(Class::Chance, before, within);
    format!(in alloc; "chart steps={count} former={former} finished={finished} chance={chance}")
}

/// Appends the legend: how many lines have each result.
#[tactic(auto, unfolding(crate::specs::Charts::legend))]
fn push_legend(
    alloc: Global,
    out: &mut Vec<u8>,
    y: usize,
    before: &[Class],
    within: &[Class],
) -> Result<(), AllocError>
    requires before { length before.now ≤ 262144 }
    requires within { length within.now ≤ 262144 }
    ensures { OnOk result (out.new.items
        ≡ out.old.items ++ flat_map mark_text (legend y before.now within.now)) }
{
    let former = count_of(Class::Former, before, within);
    let finished = count_of(Class::Finished, before, within);
    let chance = count_of(Class::Chance, before, within);
    push_legend_entry(alloc, out, 120, y, Class::Former, former)?;
    push_legend_entry(alloc, out, 320, y, Class::Finished, finished)?;
    push_legend_entry(alloc, out, 520, y, Class::Chance, chance)
}

/// Appends the result of the whole session, and the legend.
#[tactic(auto, unfolding(crate::specs::Charts::end_rows))]
fn push_end_rows(
    alloc: Global,
    out: &mut Vec<u8>,
    top: usize,
    before: &[Class],
    within: &[Class],
    end: Class,
) -> Result<(), AllocError>
    requires top { top ≤ 2 ^ 33 }
    requires before { length before.now ≤ 262144 }
    requires within { length within.now ≤ 262144 }
    ensures { OnOk result (out.new.items
        ≡ out.old.items ++ flat_map mark_text (end_rows top before.now within.now end)) }
{
    push_end_row(alloc, out, top, end)?;
    push_legend(alloc, out, top + 60, before, within)
}

/// Appends the rows of the steps, and answers where the next row lies.
#[tactic(auto, unfolding(crate::specs::Charts::step_rows))]
fn push_step_rows(
    alloc: Global,
    out: &mut Vec<u8>,
    steps: &[Step],
    before: &[Class],
    within: &[Class],
) -> Result<usize, AllocError>
    requires steps { length steps.now ≤ 262144 }
    requires before { length before.now ≤ 262144 }
    requires within { length within.now ≤ 262144 }
    ensures drawn { OnOk result (out.new.items
        ≡ out.old.items ++ flat_map mark_text (step_rows steps.now before.now within.now)) }
    ensures top { IfOk result (λ top. top ≡ end_top before.now within.now) }
    ensures most { IfOk result (λ top. top ≤ 2 ^ 33) }
{
    push_kind_row(alloc, out, 24, steps)?;
    let height = push_result_row(alloc, out, "before", 84, before)?;
    let next = push_result_row(alloc, out, "within", 84 + height, within)?;
    Ok(84 + height + next)
}

/// Appends the marks of the picture, and answers how high it is.
fn push_marks(
    alloc: Global,
    out: &mut Vec<u8>,
    steps: &[Step],
    before: &[Class],
    within: &[Class],
    end: Class,
) -> Result<usize, AllocError>
    requires steps { length steps.now ≤ 262144 }
    requires before { length before.now ≤ 262144 }
    requires within { length within.now ≤ 262144 }
    ensures drawn { OnOk result (out.new.items
        ≡ out.old.items ++ flat_map mark_text (marks_by steps.now before.now within.now end)) }
    ensures height { IfOk result
        (λ height. height ≡ height_by steps.now before.now within.now) }
{
    match steps {
        [] => {
            push_end_rows(alloc, out, 24, before, within, end)?;
            Ok(108)
        }
        [_, ..] => {
            let top = push_step_rows(alloc, out, steps, before, within)?;
            push_end_rows(alloc, out, top, before, within, end)?;
            push_kind_legend(alloc, out, top + 84)?;
            Ok(top + 108)
        }
    }
}

/// The picture of a sweep of these steps. It has the results of a loss of power before and within
/// each step, and the result of the whole session. Other words say what it shows. It fails only
/// where memory is out.
#[tactic(auto, unfolding(crate::specs::Charts::picture_of, svg_marks::specs::Marks::picture_text))]
pub fn chart_svg(
    alloc: Global,
    steps: &[Step],
    before: &[Class],
    within: &[Class],
    end: Class,
    desc: &str,
) -> Result<Vec<u8>, AllocError>
    requires steps { length steps.now ≤ 262144 }
    requires before { length before.now ≤ 262144 }
    requires within { length within.now ≤ 262144 }
    ensures { IfOk result (λ out. out.items ≡ picture_text (picture_of (record {
      steps = steps.now;
      before = before.now;
      within = within.now;
      end_ = end;
    }) desc.now)) }
{
    let mut marks = Vec::new(alloc);
    let height = push_marks(alloc, &mut marks, steps, before, within, end)?;
    let title = chart_words(alloc, steps, before, within)?;
    let mut out = Vec::new(alloc);
    push_front(alloc, &mut out, height, &title, desc)?;
    out.extend_from_slice(&marks)?;
    push_end(&mut out)?;
    Ok(out)
}
