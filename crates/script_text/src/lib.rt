//! The text form of scripts: one record a line, in words. A script is listed as a text, in one
//! spelling, and a text is read as a script, in any spelling. Where a line has hexadecimal bytes, a
//! comment above it says what it is; behind each other line its number stands. The form is this
//! project's own.
#![tactic(auto)]

mod comments;
pub mod examples;
pub mod laws;
mod listing;
mod reading;
mod script;

pub use listing::list_text;
pub use reading::read_text;
pub use script::{TEXT_LIMIT, TextError, TextFault, TextScript};
