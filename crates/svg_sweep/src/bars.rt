//! Rectangles of runs of results.

ghost use Rattle.std.specs.Prelude.{◌≡◌, ◌≤◌, ◌^◌, ◌+◌, ◌++◌, IfOk, OnOk, codes, length, map, slice_get, string_bytes};
ghost use Rattle.std.specs.List.{flat_map};
ghost use Rattle.svg_marks.specs.Marks.{mark_text};
ghost use Rattle.svg_sweep.specs.Charts.{bar, class_colour, strip_frame, row_front, run_area, run_title, run_span_text};

use crate::runs::Run;
use std::alloc::{AllocError, Global};
use svg_marks::{
    Area, Class, Colour, area_at, class_word, open_strip, push_label, push_plain, push_rect,
};

/// The colour of a class.
pub fn class_colour(class: Class) -> Colour
    ensures { result ≡ class_colour class }
{
    match class {
        Class::Former => Colour::Grey,
        Class::Finished => Colour::Blue,
        Class::Chance => Colour::Orange,
        Class::Erase => Colour::Slate,
        Class::Program => Colour::Sky,
        Class::Span
        | Class::Raise
        | Class::Legend
        | Class::Window
        | Class::Row
        | Class::Join
        | Class::Starts => Colour::Ink,
    }
}

/// The place of a run in its strip, one unit a step.
pub fn run_area(run: Run) -> Area
    ensures { result ≡ run_area run }
{
    let end = run.last as usize + 1;
    area_at(
        run.first as usize,
        0,
        end.saturating_sub(run.first as usize),
        1,
    )
}

/// The first and the last step of a run.
#[tactic(auto, unfolding(crate::specs::Charts::run_span_text))]
pub fn run_span_text(alloc: Global, run: Run) -> Result<String, AllocError>
    ensures { IfOk result (λ t. string_bytes t ≡ run_span_text run) }
{
    let first = run.first;
    let last = run.last;
    format!(in alloc; "{first} to {last}")
}

/// The title of a run of results.
#[tactic(auto, unfolding(crate::specs::Charts::run_title))]
fn run_title(alloc: Global, part: &str, run: Run) -> Result<String, AllocError>
    ensures { IfOk result (λ t. string_bytes t ≡ run_title part.now run) }
{
    let span = run_span_text(alloc, run)?;
    let class = class_word(run.class);
    format!(in alloc; "{part} {span} {class}")
}

/// Appends the rectangle of a run of results.
fn push_bar(alloc: Global, out: &mut Vec<u8>, part: &str, run: Run) -> Result<(), AllocError>
    ensures { OnOk result (out.new.items ≡ out.old.items ++ mark_text (bar part.now run)) }
{
    let title = run_title(alloc, part, run)?;
    push_rect(
        alloc,
        out,
        run.class,
        run_area(run),
        class_colour(run.class),
        &title,
    )
}

/// Appends the rectangles of runs of results.
pub fn push_bars(
    alloc: Global,
    out: &mut Vec<u8>,
    part: &str,
    runs: &[Run],
) -> Result<(), AllocError>
    ensures { OnOk result (out.new.items
        ≡ out.old.items ++ flat_map mark_text (map (bar part.now) runs.now)) }
{
    for run in runs {
        push_bar(alloc, out, part, *run)?;
    }
    Ok(())
}

/// Appends the frame of a strip: a dark line, a white one within it, and a dark ground.
#[tactic(auto, unfolding(crate::specs::Charts::strip_frame))]
fn push_frame(alloc: Global, out: &mut Vec<u8>, top: usize) -> Result<(), AllocError>
    ensures { OnOk result (out.new.items ≡ out.old.items ++ flat_map mark_text (strip_frame top)) }
{
    let outer = area_at(118, top.saturating_sub(2), 804, 28);
    let inner = area_at(119, top.saturating_sub(1), 802, 26);
    push_plain(alloc, out, outer, Colour::Ink)?;
    push_plain(alloc, out, inner, Colour::White)?;
    push_plain(alloc, out, area_at(120, top, 800, 24), Colour::Ink)
}

/// Appends the front of a row: its words on the left, the frame of its strip, and the beginning of
/// the strip of so many steps.
#[tactic(auto, unfolding(crate::specs::Charts::row_front))]
pub fn push_row_front(
    alloc: Global,
    out: &mut Vec<u8>,
    name: &str,
    top: usize,
    count: usize,
) -> Result<(), AllocError>
    requires { top ≤ 2 ^ 32 }
    ensures { OnOk result (out.new.items
        ≡ out.old.items ++ flat_map mark_text (row_front name.now top count)) }
{
    push_label(alloc, out, 24, top + 17, name)?;
    push_frame(alloc, out, top)?;
    open_strip(alloc, out, area_at(120, top, 800, 24), count)
}
