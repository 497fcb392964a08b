//! The arguments of a run: which command they are, how the program is used, and its version.
#![tactic(auto)]

mod arguments;
pub mod examples;
mod rows;
mod usage;
mod values;

pub use arguments::Word;
pub use rows::{CommandLine, Row, Verb, find_command};
pub use usage::{VERSION, help_text, release_line, usage_text};
pub use values::Values;
