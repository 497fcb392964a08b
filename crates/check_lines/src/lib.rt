//! The lines of what `check` finds of an update: of the images in `specs/Texts`, and of cuts, rows,
//! laws, caveats and what is not met in `specs/Counting`. The words of windows, versions and faults
//! are those of `text_lines`, those of a caveat of `cli_caveats`.
#![tactic(auto)]

mod counting;
pub mod examples;
mod texts;
mod words;

pub use counting::{
    boot_line, buy_line, caveat_seen, cuts_line, held_line, rows_line, session_line, skipped_line,
    unmet_line,
};
pub use texts::{effect_line, fallback_line, lost_line, starts_line, written_line};
