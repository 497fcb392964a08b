//! Pictures as SVG 1.1: a small set of marks as plain data, and the bytes of a picture of them. A
//! picture is 960 wide, has ASCII alone where its words have, and takes nothing from outside. What
//! is counted in a picture has a class. A reader of the bytes finds each such mark with its words.
//! The set of marks is this project's own.
#![tactic(auto)]

mod breaks;
mod class;
pub mod examples;
pub mod laws;
mod lines;
mod mark;
mod writing;

pub use breaks::line_count;
pub use class::{Class, class_word, is_class};
pub use lines::{LINE_HEIGHT, push_lines};
pub use mark::{Area, Colour, Ends, area_at};
pub use writing::{
    close_strip, open_column, open_strip, push_caption, push_end, push_front, push_label,
    push_line, push_plain, push_rect,
};
