//! The result of a command's work, and answers of one kind, which several commands use.

ghost use Rattle.std.specs.Prelude.{◌≡◌, [], IfOk, false, string_bytes};
ghost use Rattle.cli_course.specs.declared.status.Status.TheVariants.{Done};
ghost use Rattle.cli_course.specs.Outcomes.{Answers, ended, input_line, one_file, refused, worked};
ghost use Rattle.cli_course.specs.Views.{answer_from};

use crate::status::Status;
use std::alloc::{AllocError, Global};

/// A file that a command writes.
#[derive(Drop)]
pub struct OutFile<'a> {
    /// The argument that names the file.
    pub name: &'a str,
    /// The bytes of the file.
    pub bytes: Vec<u8>,
}

/// The result of a command's work, in memory.
#[derive(Drop)]
pub struct Answer<'a> {
    /// The status with which the run ends where all is written and put.
    pub status: Status,
    /// The text to put, as bytes.
    pub text: Vec<u8>,
    /// The files to write, in the order of the arguments.
    pub files: Vec<OutFile<'a>>,
}

/// The line of an input file, by its argument, and its fault.
fn fault_line(alloc: Global, name: &str, fault: &str) -> Result<String, AllocError>
    ensures { IfOk result (λ t. string_bytes t ≡ input_line name.now fault.now) }
{
    format!(in alloc; "input {name}: {fault}\n")
}

/// The answer that refuses an input file. It fails only where memory is out.
pub fn refusal(alloc: Global, name: &str, fault: &str) -> Result<Answer<'static>, AllocError>
    ensures { IfOk result (λ answer. answer_from answer ≡ refused name.now fault.now) }
{
    let text = fault_line(alloc, name, fault)?;
    Ok(Answer {
        status: Status::Input,
        text: text.into_bytes(),
        files: Vec::new(alloc),
    })
}

/// The answer of a command that prints the bytes of a text, is no fall and writes no file.
pub fn told_bytes<'a>(alloc: Global, text: Vec<u8>) -> Answer<'a>
    ensures { answer_from result ≡ worked (Answers false text.items []) }
{
    Answer {
        status: Status::Done,
        text,
        files: Vec::new(alloc),
    }
}

/// The answer of a command that prints a text, is no fall and writes no file.
pub fn told<'a>(alloc: Global, text: String) -> Answer<'a>
    ensures { answer_from result ≡ worked (Answers false (string_bytes text) []) }
{
    told_bytes(alloc, text.into_bytes())
}

/// The answer of a command that prints a text with this status and writes no file.
pub fn ended<'a>(alloc: Global, status: Status, text: String) -> Answer<'a>
    ensures { answer_from result ≡ ended status (string_bytes text) }
{
    Answer {
        status,
        text: text.into_bytes(),
        files: Vec::new(alloc),
    }
}

/// The answer that prints a text and writes one file. It fails only where memory is out.
pub fn one_file<'a>(
    alloc: Global,
    text: String,
    name: &'a str,
    bytes: Vec<u8>,
) -> Result<Answer<'a>, AllocError>
    ensures { IfOk result (λ answer. answer_from answer
        ≡ worked (Answers false (string_bytes text) (one_file name.entry.now bytes.items))) }
{
    let file = OutFile { name, bytes };
    Ok(Answer {
        status: Status::Done,
        text: text.into_bytes(),
        files: vec![in alloc; file]?,
    })
}
