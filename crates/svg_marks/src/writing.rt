//! Marks to bytes.

ghost use Rattle.std.specs.Prelude.{◌≡◌, ◌++◌, IfOk, OnOk, codes, string_bytes};
ghost use Rattle.svg_marks.specs.Marks.{Caption, Column, Label, Line, Plain, Rect, Strip, StripEnd, area_text, class_text, desc_text, ends_text, escaped, escaped_byte, fill_text, front_text, ground_text, mark_text, open_text, position_text, stroke_text, title_text};

use crate::class::{Class, class_word};
use crate::mark::{Area, Colour, Ends, colour_word};
use std::alloc::{AllocError, Global};

/// Appends a byte of a text as it stands in a file.
#[tactic(auto, unfolding(crate::specs::Marks::escaped_byte))]
pub(crate) fn push_escaped_byte(out: &mut Vec<u8>, byte: u8) -> Result<(), AllocError>
    ensures { OnOk result (out.new.items ≡ out.old.items ++ escaped_byte byte) }
{
    match byte {
        b'&' => out.extend_from_slice(b"&amp;"),
        b'<' => out.extend_from_slice(b"&lt;"),
        b'>' => out.extend_from_slice(b"&gt;"),
        b'"' => out.extend_from_slice(b"&quot;"),
        _ => out.extend_from_slice(&[byte]),
    }
}

/// Appends a text as it stands in a file.
fn push_escaped(out: &mut Vec<u8>, text: &str) -> Result<(), AllocError>
    ensures { OnOk result (out.new.items ≡ out.old.items ++ escaped text.now) }
{
    for byte in text.as_bytes() {
        push_escaped_byte(out, *byte)?;
    }
    Ok(())
}

/// Appends a text between a front and a back.
fn push_between(out: &mut Vec<u8>, front: &str, text: &str, back: &str) -> Result<(), AllocError>
    ensures { OnOk result (out.new.items
        ≡ out.old.items ++ (front.now ++ (escaped text.now ++ back.now))) }
{
    out.extend_from_slice(front.as_bytes())?;
    push_escaped(out, text)?;
    out.extend_from_slice(back.as_bytes())
}

/// Where and how large, as attributes.
#[tactic(auto, unfolding(crate::specs::Marks::area_text))]
fn area_text(alloc: Global, area: Area) -> Result<String, AllocError>
    ensures { IfOk result (λ t. string_bytes t ≡ area_text area) }
{
    let Area {
        x,
        y,
        width,
        height,
    } = area;
    format!(in alloc; " x=\"{x}\" y=\"{y}\" width=\"{width}\" height=\"{height}\"")
}

/// A class, as an attribute.
#[tactic(auto, unfolding(crate::specs::Marks::class_text))]
pub(crate) fn class_text(alloc: Global, class: Class) -> Result<String, AllocError>
    ensures { IfOk result (λ t. string_bytes t ≡ class_text class) }
{
    let class = class_word(class);
    format!(in alloc; "class=\"{class}\"")
}

/// A colour, as an attribute.
#[tactic(auto, unfolding(crate::specs::Marks::fill_text))]
fn fill_text(alloc: Global, colour: Colour) -> Result<String, AllocError>
    ensures { IfOk result (λ t. string_bytes t ≡ fill_text colour) }
{
    let colour = colour_word(colour);
    format!(in alloc; " fill=\"#{colour}\"")
}

/// Where words begin, as attributes.
#[tactic(auto, unfolding(crate::specs::Marks::position_text))]
pub(crate) fn position_text(alloc: Global, x: usize, y: usize) -> Result<String, AllocError>
    ensures { IfOk result (λ t. string_bytes t ≡ position_text x y) }
{
    format!(in alloc; " x=\"{x}\" y=\"{y}\"")
}

/// The two ends of a line, as attributes.
#[tactic(auto, unfolding(crate::specs::Marks::ends_text))]
fn ends_text(alloc: Global, ends: Ends) -> Result<String, AllocError>
    ensures { IfOk result (λ t. string_bytes t ≡ ends_text ends) }
{
    let Ends { x1, y1, x2, y2 } = ends;
    format!(in alloc; " x1=\"{x1}\" y1=\"{y1}\" x2=\"{x2}\" y2=\"{y2}\"")
}

/// The colour of a line, as an attribute.
#[tactic(auto, unfolding(crate::specs::Marks::stroke_text))]
fn stroke_text(alloc: Global, colour: Colour) -> Result<String, AllocError>
    ensures { IfOk result (λ t. string_bytes t ≡ stroke_text colour) }
{
    let colour = colour_word(colour);
    format!(in alloc; " stroke=\"#{colour}\"")
}

/// Appends a rectangle that is not counted.
#[tactic(auto, unfolding(crate::specs::Marks::mark_text))]
pub fn push_plain(
    alloc: Global,
    out: &mut Vec<u8>,
    area: Area,
    colour: Colour,
) -> Result<(), AllocError>
    ensures { OnOk result (out.new.items ≡ out.old.items ++ mark_text (Plain area colour)) }
{
    let area = area_text(alloc, area)?;
    let fill = fill_text(alloc, colour)?;
    let rect = format!(in alloc; "<rect{area}{fill}/>\n")?;
    out.extend_from_slice(rect.as_bytes())
}

/// Appends a rectangle that is counted, with a title in it.
#[tactic(auto, unfolding(crate::specs::Marks::mark_text))]
pub fn push_rect(
    alloc: Global,
    out: &mut Vec<u8>,
    class: Class,
    area: Area,
    colour: Colour,
    title: &str,
) -> Result<(), AllocError>
    ensures { OnOk result (out.new.items
        ≡ out.old.items ++ mark_text (Rect class area colour title.now)) }
{
    let class = class_text(alloc, class)?;
    let area = area_text(alloc, area)?;
    let fill = fill_text(alloc, colour)?;
    let front = format!(in alloc; "<rect {class}{area}{fill}><title>")?;
    push_between(out, &front, title, "</title></rect>\n")
}

/// Appends a line that is counted, with a title in it.
#[tactic(auto, unfolding(crate::specs::Marks::mark_text))]
pub fn push_line(
    alloc: Global,
    out: &mut Vec<u8>,
    class: Class,
    ends: Ends,
    colour: Colour,
    title: &str,
) -> Result<(), AllocError>
    ensures { OnOk result (out.new.items
        ≡ out.old.items ++ mark_text (Line class ends colour title.now)) }
{
    let class = class_text(alloc, class)?;
    let ends = ends_text(alloc, ends)?;
    let stroke = stroke_text(alloc, colour)?;
    let front = format!(in alloc; "<line {class}{ends}{stroke}><title>")?;
    push_between(out, &front, title, "</title></line>\n")
}

/// Appends words that are not counted, which begin at this place.
#[tactic(auto, unfolding(crate::specs::Marks::mark_text))]
pub fn push_label(
    alloc: Global,
    out: &mut Vec<u8>,
    x: usize,
    y: usize,
    words: &str,
) -> Result<(), AllocError>
    ensures { OnOk result (out.new.items ≡ out.old.items ++ mark_text (Label x y words.now)) }
{
    let place = position_text(alloc, x, y)?;
    let front = format!(in alloc; "<text{place}>")?;
    push_between(out, &front, words, "</text>\n")
}

/// Appends words that are counted, which begin at this place.
#[tactic(auto, unfolding(crate::specs::Marks::mark_text))]
pub fn push_caption(
    alloc: Global,
    out: &mut Vec<u8>,
    class: Class,
    x: usize,
    y: usize,
    words: &str,
) -> Result<(), AllocError>
    ensures { OnOk result (out.new.items
        ≡ out.old.items ++ mark_text (Caption class x y words.now)) }
{
    let class = class_text(alloc, class)?;
    let place = position_text(alloc, x, y)?;
    let front = format!(in alloc; "<text {class}{place}>")?;
    push_between(out, &front, words, "</text>\n")
}

/// Begins a strip: the marks up to its end lie in this area. It is so many units wide, and one
/// high.
#[tactic(auto, unfolding(crate::specs::Marks::mark_text))]
pub fn open_strip(
    alloc: Global,
    out: &mut Vec<u8>,
    area: Area,
    units: usize,
) -> Result<(), AllocError>
    ensures { OnOk result (out.new.items ≡ out.old.items ++ mark_text (Strip area units)) }
{
    let area = area_text(alloc, area)?;
    let front = format!(in alloc;
        "<svg{area} viewBox=\"0 0 {units} 1\" preserveAspectRatio=\"none\">\n"
    )?;
    out.extend_from_slice(front.as_bytes())
}

/// Begins a column: the marks up to its end lie in this area. It is so many units high, and one
/// wide.
#[tactic(auto, unfolding(crate::specs::Marks::mark_text))]
pub fn open_column(
    alloc: Global,
    out: &mut Vec<u8>,
    area: Area,
    units: usize,
) -> Result<(), AllocError>
    ensures { OnOk result (out.new.items ≡ out.old.items ++ mark_text (Column area units)) }
{
    let area = area_text(alloc, area)?;
    let front = format!(in alloc;
        "<svg{area} viewBox=\"0 0 1 {units}\" preserveAspectRatio=\"none\">\n"
    )?;
    out.extend_from_slice(front.as_bytes())
}

/// Ends a strip or a column.
#[tactic(auto, unfolding(crate::specs::Marks::mark_text))]
pub fn close_strip(out: &mut Vec<u8>) -> Result<(), AllocError>
    ensures { OnOk result (out.new.items ≡ out.old.items ++ mark_text StripEnd) }
{
    out.extend_from_slice(b"</svg>\n")
}

/// How a picture of this height begins.
#[tactic(auto, unfolding(crate::specs::Marks::open_text))]
fn open_text(alloc: Global, height: usize) -> Result<String, AllocError>
    ensures { IfOk result (λ t. string_bytes t ≡ open_text height) }
{
    format!(in alloc;
        "<svg xmlns=\"http://www.w3.org/2000/svg\" version=\"1.1\" \
         width=\"960\" height=\"{height}\" \
         viewBox=\"0 0 960 {height}\" font-family=\"monospace\" font-size=\"14\" \
         fill=\"#1a1a1a\">\n<title>"
    )
}

/// The end of what a picture shows, and its white ground.
#[tactic(auto, unfolding(crate::specs::Marks::ground_text))]
fn ground_text(alloc: Global, height: usize) -> Result<String, AllocError>
    ensures { IfOk result (λ t. string_bytes t ≡ ground_text height) }
{
    format!(in alloc; "</desc>\n<rect width=\"960\" height=\"{height}\" fill=\"#ffffff\"/>\n")
}

/// Begins a picture of this height with its title.
#[tactic(auto, unfolding(crate::specs::Marks::title_text))]
fn push_title(
    alloc: Global,
    out: &mut Vec<u8>,
    height: usize,
    title: &str,
) -> Result<(), AllocError>
    ensures { OnOk result (out.new.items ≡ out.old.items ++ title_text height title.now) }
{
    let front = open_text(alloc, height)?;
    push_between(out, &front, title, "</title>\n")
}

/// Appends what a picture of this height shows, and its ground.
#[tactic(auto, unfolding(crate::specs::Marks::desc_text))]
fn push_desc(alloc: Global, out: &mut Vec<u8>, height: usize, desc: &str) -> Result<(), AllocError>
    ensures { OnOk result (out.new.items ≡ out.old.items ++ desc_text height desc.now) }
{
    let ground = ground_text(alloc, height)?;
    push_between(out, "<desc>", desc, &ground)
}

/// Begins a picture of this height: its title, what it shows, and a white ground.
pub fn push_front(
    alloc: Global,
    out: &mut Vec<u8>,
    height: usize,
    title: &str,
    desc: &str,
) -> Result<(), AllocError>
    ensures { OnOk result (out.new.items
        ≡ out.old.items ++ front_text height title.now desc.now) }
{
    push_title(alloc, out, height, title)?;
    push_desc(alloc, out, height, desc)
}

/// Ends a picture.
pub fn push_end(out: &mut Vec<u8>) -> Result<(), AllocError>
    ensures { OnOk result (out.new.items ≡ out.old.items ++ codes "</svg>\n") }
{
    out.extend_from_slice(b"</svg>\n")
}
