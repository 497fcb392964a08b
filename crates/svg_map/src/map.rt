//! The picture of a flash.

ghost use Rattle.std.specs.Prelude.{◌≡◌, ◌≤◌, ◌^◌, ◌+◌, ◌++◌, IfOk, OnOk, length, map, string_bytes};
ghost use Rattle.std.specs.List.{flat_map};
ghost use Rattle.svg_marks.specs.Marks.{front_text, mark_text, picture_text};
ghost use Rattle.svg_map.specs.Maps.{bar_from, map_marks, map_picture, map_words};

use crate::bars::{MapBar, push_windows};
use crate::rows::{column_height, push_rows};
use std::alloc::{AllocError, Global};
use svg_marks::{Colour, area_at, close_strip, open_column, push_end, push_front, push_plain};

/// What the command says of a flash of so many windows.
#[tactic(auto, unfolding(crate::specs::Maps::map_words))]
pub fn map_words(alloc: Global, count: usize) -> Result<String, AllocError>
    ensures { IfOk result (λ t. string_bytes t ≡ map_words count) }
{
    format!(in alloc; "map windows={count}")
}

/// Appends the column, of this height, and the rows next to it.
#[tactic(auto, unfolding(crate::specs::Maps::map_marks))]
fn push_marks(
    alloc: Global,
    out: &mut Vec<u8>,
    flash: u32,
    high: usize,
    bars: &[MapBar],
) -> Result<(), AllocError>
    requires { high ≤ 2 ^ 30 }
    ensures { OnOk result (out.new.items ≡ out.old.items
        ++ flat_map mark_text (map_marks flash high (map bar_from bars.now))) }
{
    push_plain(alloc, out, area_at(23, 23, 50, high + 2), Colour::Ink)?;
    open_column(alloc, out, area_at(24, 24, 48, high), flash as usize)?;
    push_windows(alloc, out, bars)?;
    close_strip(out)?;
    push_rows(alloc, out, flash, high, bars)
}

/// The picture of a flash of so many bytes with these windows. Other words say what it shows. It
/// fails where memory is out, and where the picture would be higher than 2^30 points.
#[tactic(auto, unfolding(crate::specs::Maps::map_picture, svg_marks::specs::Marks::picture_text))]
pub fn map_svg(
    alloc: Global,
    flash_len: u32,
    bars: &[MapBar],
    desc: &str,
) -> Result<Vec<u8>, AllocError>
    ensures { IfOk result (λ out. out.items
        ≡ picture_text (map_picture flash_len (map bar_from bars.now) desc.now)) }
{
    let high = column_height(bars)?;
    let title = map_words(alloc, bars.len())?;
    let mut out = Vec::new(alloc);
    push_front(alloc, &mut out, high + 48, &title, desc)?;
    push_marks(alloc, &mut out, flash_len, high, bars)?;
    push_end(&mut out)?;
    Ok(out)
}
