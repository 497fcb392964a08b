//! All that the program does: arguments and files in; a text, files and a status out. What each
//! command does is the work of the crates below. Here stands which command has which inputs and
//! which work, and what is right for it.
#![tactic(auto)]

pub mod examples;
mod inputs;
pub mod laws;
mod program;
mod work;

pub use cli_course::Status;
pub use cli_inputs::{
    BINARY_LIMIT, FLASH_LIMIT, Form, IMAGE_LIMIT, JSON_LIMIT, OTP_LIMIT, RECORD_LIMIT, SCRIPT_LIMIT,
};
pub use program::run;
