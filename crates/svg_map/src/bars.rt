//! Windows of a flash, and their rectangles.

ghost use Rattle.std.specs.Prelude.{◌≡◌, ◌≤◌, ◌^◌, ◌+◌, ◌++◌, IfOk, OnOk, drop, map, string_bytes};
ghost use Rattle.std.specs.List.{flat_map};
ghost use Rattle.svg_marks.specs.Marks.{line_words, mark_text};
ghost use Rattle.svg_map.specs.Maps.{bar_from, bar_colour, row_words, window_mark, windows_from};

use pico_board::Window;
use std::alloc::{AllocError, Global};
use svg_marks::{Class, Colour, area_at, push_rect};

/// What is drawn of a window of a flash.
#[derive(Drop, Debug)]
pub struct MapBar {
    /// Where the window lies.
    pub window: Window,
    /// What is said of it, without the word ` starts` at the end.
    pub words: String,
    /// Whether the bar is a free stretch.
    pub free: bool,
    /// Whether a boot starts the image of the bar.
    pub starts: bool,
}

/// The colour of the window of this number.
pub fn bar_colour(number: usize, bar: &MapBar) -> Colour
    ensures { result ≡ bar_colour number (bar_from bar.now) }
{
    if bar.free {
        Colour::Grey
    } else if bar.starts {
        Colour::Orange
    } else if number % 2 == 0 {
        Colour::Blue
    } else {
        Colour::Sky
    }
}

/// The whole row of a window.
fn row_words(alloc: Global, bar: &MapBar) -> Result<String, AllocError>
    ensures { IfOk result (λ t. string_bytes t ≡ row_words (bar_from bar.now)) }
{
    let words = bar.words.as_str();
    if bar.starts {
        format!(in alloc; "{words} starts")
    } else {
        String::from_str(alloc, words)
    }
}

/// Appends the rectangle of the window of this number.
fn push_window(
    alloc: Global,
    out: &mut Vec<u8>,
    number: usize,
    bar: &MapBar,
) -> Result<(), AllocError>
    ensures { OnOk result (out.new.items
        ≡ out.old.items ++ mark_text (window_mark number (bar_from bar.now))) }
{
    let title = row_words(alloc, bar)?;
    let Window { start, len } = bar.window;
    let area = area_at(0, start as usize, 1, len as usize);
    push_rect(
        alloc,
        out,
        Class::Window,
        area,
        bar_colour(number, bar),
        &title,
    )
}

/// Appends the rectangles of windows.
pub fn push_windows(alloc: Global, out: &mut Vec<u8>, bars: &[MapBar]) -> Result<(), AllocError>
    ensures { OnOk result (out.new.items
        ≡ out.old.items ++ flat_map mark_text (windows_from 0 (map bar_from bars.now))) }
{
    for (number, bar) in bars.iter().enumerate() {
        push_window(alloc, out, number, bar)?;
    }
    Ok(())
}
