//! Numbers in decimal and hexadecimal, and `yes` and `no`: as they are written, into a line of
//! bounded length or as a text, and as they are read. All texts of this repository write and read
//! them by these calls.
#![tactic(auto)]

pub mod examples;
pub mod laws;
mod reading;
mod writing;

pub use reading::{
    behind_word, decimal_number, hex_number, read_array, read_bytes, read_number, read_word,
};
pub use writing::{
    hex_text, put_byte, put_number, put_pair, put_row, put_short, put_text, put_word, set_text,
    yes_or_no,
};
