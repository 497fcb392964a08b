//! Places and colours of marks.

ghost use Rattle.std.specs.Prelude.{◌≡◌};
ghost use Rattle.svg_marks.specs.Marks.{area_at, colour_word};

/// Where a rectangle lies: in points of the picture, or within a strip in units of it.
#[derive(Clone, Copy, Debug, PartialEq, Eq)]
pub struct Area {
    /// How far its left side is from the left.
    pub x: usize,
    /// How far its upper side is from the top.
    pub y: usize,
    /// The rectangle's width.
    pub width: usize,
    /// The rectangle's height.
    pub height: usize,
}

/// The area of this place and size.
pub fn area_at(x: usize, y: usize, width: usize, height: usize) -> Area
    ensures { result ≡ area_at x y width height }
{
    Area {
        x,
        y,
        width,
        height,
    }
}

/// The two ends of a line, in points of the picture.
#[derive(Clone, Copy, Debug, PartialEq, Eq)]
pub struct Ends {
    /// How far the first end is from the left.
    pub x1: usize,
    /// How far the first end is from the top.
    pub y1: usize,
    /// How far the second end is from the left.
    pub x2: usize,
    /// How far the second end is from the top.
    pub y2: usize,
}

/// A colour. No two colours that stand for something in one row are equally light. So readers who
/// see red and green alike, or no colour at all, tell them apart.
#[derive(Clone, Copy, Debug, PartialEq, Eq)]
pub enum Colour {
    /// A frame round rectangles.
    Ink,
    /// A light grey.
    Grey,
    /// A dark blue.
    Blue,
    /// An orange.
    Orange,
    /// A dark grey.
    Slate,
    /// A light blue.
    Sky,
    /// The ground between a frame and rectangles.
    White,
}

/// The six digits of a colour.
pub fn colour_word(colour: Colour) -> &'static str
    ensures { result.now ≡ colour_word colour }
{
    match colour {
        Colour::Ink => "1a1a1a",
        Colour::Grey => "d0d0d0",
        Colour::Blue => "00509e",
        Colour::Orange => "e98a15",
        Colour::Slate => "505050",
        Colour::Sky => "9ed0f5",
        Colour::White => "ffffff",
    }
}
