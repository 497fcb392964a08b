//! The texts of windows, images, tables and decisions; what comes of an event of a machine, as a
//! value, and its line. Texts are written into lines of at most 320 bytes without allocation, and
//! as texts of their own. The texts are this project's own.
#![tactic(auto)]

mod commands;
mod decisions;
mod downloads;
mod events;
pub mod examples;
mod faults;
pub mod laws;
mod outcome;
mod texts;
mod windows;

pub use decisions::put_decision;
pub use events::set_outcome;
pub use outcome::{
    BlockOutcome, CommandAnswer, CommandOutcome, EventOutcome, Refusal, ReplySum, accepted_outcome,
    boot_outcome, command_outcome, ram_start_outcome, refused_outcome,
};
pub use texts::{
    data_line, decision_line, image_line, invalid_text, place_text, rollback_text, table_line,
    valid_text, version_text, why_text,
};
