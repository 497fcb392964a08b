//! The course of a run: its inputs are read one after another; its work makes an answer in memory;
//! the answer's files are written; and its text is put.
#![tactic(auto)]

mod answers;
mod course;
pub mod examples;
pub mod laws;
mod status;

pub use answers::{Answer, OutFile, ended, one_file, refusal, told, told_bytes};
pub use course::{LimitedInput, finish, put_text, read_all};
pub use status::Status;
