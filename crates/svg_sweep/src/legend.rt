//! The end, and what the colours stand for.

ghost use Rattle.std.specs.Prelude.{◌≡◌, ◌≤◌, ◌^◌, ◌+◌, ◌++◌, IfOk, OnOk, codes, length, map, slice_get, string_bytes};
ghost use Rattle.std.specs.List.{flat_map};
ghost use Rattle.svg_marks.specs.Marks.{mark_text};
ghost use Rattle.svg_sweep.specs.Charts.{end_row, kind_legend, legend_entry, legend_text, swatch};

use crate::bars::class_colour;
use std::alloc::{AllocError, Global};
use svg_marks::{
    Class, Colour, area_at, class_word, push_caption, push_label, push_plain, push_rect,
};

/// Appends the result of the whole session.
#[tactic(auto, unfolding(crate::specs::Charts::end_row))]
pub fn push_end_row(
    alloc: Global,
    out: &mut Vec<u8>,
    top: usize,
    class: Class,
) -> Result<(), AllocError>
    requires { top ≤ 2 ^ 33 }
    ensures { OnOk result (out.new.items
        ≡ out.old.items ++ flat_map mark_text (end_row top class)) }
{
    let word = class_word(class);
    let title = format!(in alloc; "end {word}")?;
    push_label(alloc, out, 24, top + 17, "end")?;
    push_plain(
        alloc,
        out,
        area_at(119, top.saturating_sub(1), 26, 26),
        Colour::Ink,
    )?;
    push_rect(
        alloc,
        out,
        class,
        area_at(120, top, 24, 24),
        class_colour(class),
        &title,
    )?;
    push_label(alloc, out, 156, top + 17, word)
}

/// Appends a small rectangle of a colour.
#[tactic(auto, unfolding(crate::specs::Charts::swatch))]
fn push_swatch(
    alloc: Global,
    out: &mut Vec<u8>,
    x: usize,
    y: usize,
    colour: Colour,
) -> Result<(), AllocError>
    ensures { OnOk result (out.new.items
        ≡ out.old.items ++ flat_map mark_text (swatch x y colour)) }
{
    let frame = area_at(x.saturating_sub(1), y.saturating_sub(13), 16, 16);
    push_plain(alloc, out, frame, Colour::Ink)?;
    push_plain(alloc, out, area_at(x, y.saturating_sub(12), 14, 14), colour)
}

/// A count of the legend.
#[tactic(auto, unfolding(crate::specs::Charts::legend_text))]
fn legend_text(alloc: Global, class: Class, count: usize) -> Result<String, AllocError>
    ensures { IfOk result (λ t. string_bytes t ≡ legend_text class count) }
{
    let word = class_word(class);
    format!(in alloc; "{word} {count}")
}

/// Appends a count of the legend, with its colour.
#[tactic(auto, unfolding(crate::specs::Charts::legend_entry))]
pub fn push_legend_entry(
    alloc: Global,
    out: &mut Vec<u8>,
    x: usize,
    y: usize,
    class: Class,
    count: usize,
) -> Result<(), AllocError>
    requires { x ≤ 960 }
    ensures { OnOk result (out.new.items
        ≡ out.old.items ++ flat_map mark_text (legend_entry x y class count)) }
{
    let words = legend_text(alloc, class, count)?;
    push_swatch(alloc, out, x, y, class_colour(class))?;
    push_caption(alloc, out, Class::Legend, x + 22, y, &words)
}

/// Appends the colours of kinds, with their words.
#[tactic(auto, unfolding(crate::specs::Charts::kind_legend))]
pub fn push_kind_legend(alloc: Global, out: &mut Vec<u8>, y: usize) -> Result<(), AllocError>
    ensures { OnOk result (out.new.items ≡ out.old.items ++ flat_map mark_text (kind_legend y)) }
{
    push_swatch(alloc, out, 120, y, class_colour(Class::Erase))?;
    push_label(alloc, out, 142, y, "erase")?;
    push_swatch(alloc, out, 320, y, class_colour(Class::Program))?;
    push_label(alloc, out, 342, y, "program")
}
