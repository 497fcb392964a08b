//! Words in lines to bytes.

ghost use Rattle.std.specs.Prelude.{◌≡◌, ◌||◌, ◌++◌, ◌≤◌, IfOk, OnOk, codes, drop, length, string_bytes};
ghost use Rattle.svg_marks.specs.Breaks.{broken_lines};
ghost use Rattle.svg_marks.specs.Marks.{Lines, next_line_text, lines_text, mark_text, starts_text, text_if};

use crate::breaks::{is_broken, next_column};
use crate::class::Class;
use crate::writing::{class_text, position_text, push_escaped_byte};
use std::alloc::{AllocError, Global};

/// How far the next line of words lies below a line.
pub const LINE_HEIGHT: usize = 20;

/// How a further line begins.
#[tactic(auto, unfolding(crate::specs::Marks::next_line_text))]
fn next_line_text(alloc: Global, x: usize) -> Result<String, AllocError>
    ensures { IfOk result (λ t. string_bytes t ≡ next_line_text x) }
{
    format!(in alloc; "<tspan x=\"{x}\" dy=\"20\">")
}

/// Ends a further line, if one has begun.
fn push_line_end(out: &mut Vec<u8>, opened: bool) -> Result<(), AllocError>
    ensures { OnOk result (out.new.items ≡ out.old.items ++ text_if opened (codes "</tspan>")) }
{
    if opened {
        out.extend_from_slice(b"</tspan>")?;
    }
    Ok(())
}

/// Begins a further line, after another one or not.
fn push_next_line(
    alloc: Global,
    out: &mut Vec<u8>,
    x: usize,
    opened: bool,
) -> Result<(), AllocError>
    ensures { OnOk result (out.new.items
        ≡ out.old.items ++ (text_if opened (codes "</tspan>") ++ next_line_text x)) }
{
    push_line_end(out, opened)?;
    let line = next_line_text(alloc, x)?;
    out.extend_from_slice(line.as_bytes())
}

/// Begins a further line, after another one or not, where one begins here.
fn push_break(
    alloc: Global,
    out: &mut Vec<u8>,
    x: usize,
    opened: bool,
    broken: bool,
) -> Result<(), AllocError>
    ensures { OnOk result (out.new.items
        ≡ out.old.items ++ text_if broken (text_if opened (codes "</tspan>") ++ next_line_text x)) }
{
    if broken {
        push_next_line(alloc, out, x, opened)?;
    }
    Ok(())
}

/// Whether a line is a further one, after a byte that begins a line or not.
fn is_further(opened: bool, broken: bool) -> bool
    ensures { result ≡ (opened || broken) }
{
    opened || broken
}

/// Appends words in lines that begin at x.
fn push_words(alloc: Global, out: &mut Vec<u8>, x: usize, words: &str) -> Result<(), AllocError>
    ensures { OnOk result (out.new.items ≡ out.old.items ++ lines_text x (broken_lines words.now)) }
{
    let bytes = words.as_bytes();
    let mut column = 0;
    let mut blank = false;
    let mut opened = false;
    for (number, byte) in bytes.iter().enumerate() {
        let broken = is_broken(bytes, number, column, blank);
        push_break(alloc, out, x, opened, broken)?;
        push_escaped_byte(out, *byte)?;
        column = next_column(broken, column);
        blank = *byte == b' ';
        opened = is_further(opened, broken);
    }
    push_line_end(out, opened)
}

/// Appends a blank and the word `starts`, where this is asked for.
#[tactic(auto, unfolding(crate::specs::Marks::starts_text))]
fn push_starts(alloc: Global, out: &mut Vec<u8>, starts: bool) -> Result<(), AllocError>
    ensures { OnOk result (out.new.items ≡ out.old.items ++ starts_text starts) }
{
    if starts {
        let class = class_text(alloc, Class::Starts)?;
        let word = format!(in alloc; " <tspan {class} font-weight=\"bold\">starts</tspan>")?;
        out.extend_from_slice(word.as_bytes())?;
    }
    Ok(())
}

/// Appends a front, words in lines, the word after them, and the end of their element.
fn push_content(
    alloc: Global,
    out: &mut Vec<u8>,
    front: &str,
    x: usize,
    words: &str,
    starts: bool,
) -> Result<(), AllocError>
    ensures { OnOk result (out.new.items ≡ out.old.items ++ (front.now
        ++ (lines_text x (broken_lines words.now) ++ (starts_text starts ++ codes "</text>\n")))) }
{
    out.extend_from_slice(front.as_bytes())?;
    push_words(alloc, out, x, words)?;
    push_starts(alloc, out, starts)?;
    out.extend_from_slice(b"</text>\n")
}

/// Appends words that are counted, in lines of 80 bytes that are broken between words. The first
/// line begins at this place. Where this is asked for, a blank and the word `starts` follow. This
/// word is counted too.
#[tactic(auto, unfolding(crate::specs::Marks::mark_text))]
pub fn push_lines(
    alloc: Global,
    out: &mut Vec<u8>,
    class: Class,
    x: usize,
    y: usize,
    words: &str,
    starts: bool,
) -> Result<(), AllocError>
    ensures { OnOk result (out.new.items
        ≡ out.old.items ++ mark_text (Lines class x y words.now starts)) }
{
    let class = class_text(alloc, class)?;
    let place = position_text(alloc, x, y)?;
    let front = format!(in alloc; "<text {class}{place} xml:space=\"preserve\">")?;
    push_content(alloc, out, &front, x, words, starts)
}
