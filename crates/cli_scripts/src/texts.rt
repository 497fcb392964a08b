//! A script as text, and the script of a text.

ghost use Rattle.std.specs.Prelude.{◌≡◌, IfOk, string_bytes};
ghost use Rattle.cli_course.specs.Outcomes.{refused, worked};
ghost use Rattle.cli_course.specs.Views.{answer_from};
ghost use Rattle.cli_scripts.specs.TextWorks.{fault_text, list_work, script_line, text_fault, write_work};

use boot_script::Script;
use cli_course::{Answer, one_file, refusal, told};
use cli_inputs::Text;
use script_text::{TextError, TextFault, list_text, read_text};
use script_words::LineFault;
use std::alloc::{AllocError, Global};

/// The work of `list` on a script: its events up to its end, one a line, in words. A comment stands
/// above each line with hexadecimal bytes. It fails only where memory is out.
pub fn list_script<'a>(alloc: Global, script: Script<'_>) -> Result<Answer<'a>, AllocError>
    ensures { IfOk result
        (λ answer. answer_from answer ≡ worked (list_work script.entry.bytes.now)) }
{
    let text = list_text(alloc, &script)?;
    Ok(told(alloc, text))
}

/// Why a line is not read.
fn fault_text(alloc: Global, fault: TextFault) -> Result<String, AllocError>
    ensures { IfOk result (λ t. string_bytes t ≡ fault_text fault) }
{
    match fault {
        TextFault::BehindEnd => format!(in alloc; "behind-end"),
        TextFault::Words(LineFault::Word) => format!(in alloc; "word"),
        TextFault::Words(LineFault::Words) => format!(in alloc; "words"),
        TextFault::Words(LineFault::Value(number)) => format!(in alloc; "value {number}"),
        TextFault::Image => format!(in alloc; "image"),
        TextFault::TooMany => format!(in alloc; "too-many"),
        TextFault::TooLong => format!(in alloc; "too-long"),
    }
}

/// Why a text is not read.
fn text_fault(alloc: Global, fault: TextError) -> Result<String, AllocError>
    ensures { IfOk result (λ t. string_bytes t ≡ text_fault fault) }
{
    match fault {
        TextError::Line(n, fault) => {
            let fault = fault_text(alloc, fault)?;
            format!(in alloc; "text {n} {fault}")
        }
        TextError::Memory => format!(in alloc; "memory"),
    }
}

/// The line of a script of so many records.
fn script_line(alloc: Global, records: u32) -> Result<String, AllocError>
    ensures { IfOk result (λ t. string_bytes t ≡ script_line records) }
{
    format!(in alloc; "script records={records}\n")
}

/// The answer that refuses a text for a fault.
fn unread<'a>(alloc: Global, name: &str, fault: TextError) -> Result<Answer<'a>, AllocError>
    ensures { IfOk result
        (λ answer. answer_from answer ≡ refused name.now (text_fault fault)) }
{
    let fault = text_fault(alloc, fault)?;
    refusal(alloc, name, &fault)
}

/// The work of `script` on a text: the script of its records up to its `end` line, or of all
/// records where it has no such line. Its lines may take bytes of an image, which has no byte where
/// there is none. Or it refuses the text, by its argument, for its first fault. It fails only where
/// memory is out.
pub fn write_script<'a>(
    alloc: Global,
    name: &str,
    text: Text<'_>,
    image: &[u8],
    out: &'a str,
) -> Result<Answer<'a>, AllocError>
    ensures { IfOk result (λ answer. answer_from answer
        ≡ worked (write_work name.now out.entry.now image.now text.entry.bytes.now)) }
{
    match read_text(alloc, text.bytes, image) {
        Ok(script) => {
            let line = script_line(alloc, script.records)?;
            one_file(alloc, line, out, script.bytes)
        }
        Err(TextError::Memory) => Err(AllocError),
        Err(fault) => unread(alloc, name, fault),
    }
}
