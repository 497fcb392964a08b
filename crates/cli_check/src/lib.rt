//! The work of `cuts`, what the next normal boot makes of each loss of power in a script, and of
//! `check`: whether an update does what it is for, and whether it meets what a team asks of it.
//!
//! `specs/Findings` has what is found of a script, as functions of the crates that find it, and
//! `specs/FindingRules` has it in the words of the rules. `specs/Reporting` says what of it a
//! member of the text looks at. `specs/CheckTexts` and `CutsTexts` have the lines, `CheckWorks` and
//! `CutsWorks` the work as a function, `CheckRules` and `CutsRules` what is right for the command.
#![tactic(auto)]

mod checking;
mod cut_lines;
mod cutting;
pub mod examples;
mod finding;
mod findings;
pub mod laws;
mod lines;
mod names;
mod reporting;

pub use checking::{check, check_asked};
pub use cutting::cuts;
pub use findings::{Findings, ImagesFound, LawsFound};
