//! Rows of words, and what joins them to the rectangles.

ghost use Rattle.std.specs.Prelude.{◌≡◌, ◌≤◌, ◌^◌, ◌*◌, ◌+◌, ◌++◌, IfOk, OnOk, drop, map, string_bytes};
ghost use Rattle.std.specs.List.{flat_map};
ghost use Rattle.svg_marks.specs.Breaks.{line_count};
ghost use Rattle.svg_marks.specs.Marks.{line_height, mark_text};
ghost use Rattle.svg_map.specs.Maps.{bar_from, column_height, join_mark, middle, bar_height, row_marks, rows_from, rows_height, window_span_text};

use crate::bars::{MapBar, bar_colour};
use pico_board::{FLASH_BASE, Window};
use std::alloc::{AllocError, Global};
use svg_marks::{
    Class, Colour, Ends, LINE_HEIGHT, area_at, line_count, push_line, push_lines, push_plain,
};
use text_words::hex_text;

/// The most points that lie below one another: the words of so many lines fit no memory.
const MOST_HEIGHT: usize = 1_073_741_824;

/// The flash addresses of a window's first and last byte.
#[tactic(auto, unfolding(crate::specs::Maps::window_span_text))]
pub fn window_span_text(alloc: Global, window: Window) -> Result<String, AllocError>
    ensures { IfOk result (λ t. string_bytes t ≡ window_span_text window) }
{
    let start = u64::from(FLASH_BASE) + u64::from(window.start);
    let first = hex_text(alloc, start)?;
    let last = hex_text(alloc, start + u64::from(window.len) - 1)?;
    format!(in alloc; "{first} to {last}")
}

/// How high a row of so many lines is.
fn lines_height(lines: usize) -> usize
    requires { lines ≤ 2 ^ 30 }
    ensures { result ≡ line_height * lines + 8 }
{
    LINE_HEIGHT * lines + 8
}

/// Where the next row begins, after this row that begins at `top`. It fails where no more rows
/// fit.
fn next_top(top: usize, bar: &MapBar) -> Result<usize, AllocError>
    requires { top ≤ 2 ^ 30 }
    ensures exact { IfOk result (λ next. next ≡ top + bar_height (bar_from bar.now)) }
    ensures most { IfOk result (λ next. next ≤ 2 ^ 30) }
{
    let lines = line_count(&bar.words);
    if MOST_HEIGHT < lines {
        return Err(AllocError);
    }
    let next = top + lines_height(lines);
    if next <= MOST_HEIGHT {
        Ok(next)
    } else {
        Err(AllocError)
    }
}

/// How high the column next to rows is.
pub fn column_height(bars: &[MapBar]) -> Result<usize, AllocError>
    ensures exact { IfOk result (λ high. high ≡ column_height (map bar_from bars.now)) }
    ensures most { IfOk result (λ high. high ≤ 2 ^ 30) }
{
    let mut height = 0;
    for bar in bars {
        height = next_top(height, bar)?;
    }
    Ok(height.max(400))
}

/// How far the middle of a window is from the top of a column of this height.
#[tactic(auto, unfolding(crate::specs::Maps::middle))]
fn middle(flash: u32, high: usize, window: Window) -> usize
    requires { high ≤ 2 ^ 30 }
    ensures exact { result ≡ middle flash high window }
    ensures most { result ≤ 2 ^ 63 }
{
    let twice = 2 * u64::from(window.start) + u64::from(window.len);
    let whole = 2 * u64::from(flash.max(1));
    (twice * high as u64 / whole) as usize
}

/// Appends the line from the middle of a window's rectangle to its row.
fn push_join(
    alloc: Global,
    out: &mut Vec<u8>,
    flash: u32,
    high: usize,
    top: usize,
    bar: &MapBar,
) -> Result<(), AllocError>
    requires high { high ≤ 2 ^ 30 }
    requires top { top ≤ 2 ^ 30 }
    ensures { OnOk result (out.new.items
        ≡ out.old.items ++ mark_text (join_mark flash high top (bar_from bar.now))) }
{
    let title = window_span_text(alloc, bar.window)?;
    let ends = Ends {
        x1: 73,
        y1: 24 + middle(flash, high, bar.window),
        x2: 138,
        y2: top + 10,
    };
    push_line(alloc, out, Class::Join, ends, Colour::Slate, &title)
}

/// Appends the row of the window of this number.
#[tactic(auto, unfolding(crate::specs::Maps::row_marks))]
fn push_row(
    alloc: Global,
    out: &mut Vec<u8>,
    flash: u32,
    high: usize,
    number: usize,
    top: usize,
    bar: &MapBar,
) -> Result<(), AllocError>
    requires high { high ≤ 2 ^ 30 }
    requires top { top ≤ 2 ^ 30 }
    ensures { OnOk result (out.new.items ≡ out.old.items
        ++ flat_map mark_text (row_marks flash high number top (bar_from bar.now))) }
{
    push_join(alloc, out, flash, high, top, bar)?;
    push_plain(alloc, out, area_at(138, top + 3, 14, 14), Colour::Ink)?;
    push_plain(
        alloc,
        out,
        area_at(139, top + 4, 12, 12),
        bar_colour(number, bar),
    )?;
    push_lines(
        alloc,
        out,
        Class::Row,
        160,
        top + 15,
        &bar.words,
        bar.starts,
    )
}

/// Appends the rows of windows.
pub fn push_rows(
    alloc: Global,
    out: &mut Vec<u8>,
    flash: u32,
    high: usize,
    bars: &[MapBar],
) -> Result<(), AllocError>
    requires { high ≤ 2 ^ 30 }
    ensures { OnOk result (out.new.items ≡ out.old.items
        ++ flat_map mark_text (rows_from flash high 0 24 (map bar_from bars.now))) }
{
    let mut top = 24;
    for (number, bar) in bars.iter().enumerate() {
        push_row(alloc, out, flash, high, number, top, bar)?;
        top = next_top(top, bar)?;
    }
    Ok(())
}
