//! Why an input file gives no value.

ghost use Rattle.std.specs.Prelude.{◌≡◌, ◌≤◌, IfErr, OnOk, Some, length};
ghost use Rattle.cli_course.specs.Outcomes.{refused};
ghost use Rattle.cli_inputs.specs.declared.fail.InputFail.TheVariants as fails;
ghost use Rattle.cli_inputs.specs.Forms.{limit_of};
ghost use Rattle.cli_inputs.specs.Inputs.{named_fault, Tells};

use crate::forms::Form;
use cli_course::{Answer, refusal};
use std::alloc::{AllocError, Global};

/// Why an input file gives no value.
#[derive(Drop)]
pub enum InputFail {
    /// The file breaks its form. The answer names it, with its first fault.
    Refused(Answer<'static>),
    /// There was no memory.
    Memory,
}

impl From<AllocError> for InputFail {
    ghost from_gives = { λ _ fail. fail ≡ fails.Memory };

    fn from(_error: AllocError) -> InputFail {
        InputFail::Memory
    }
}

/// An input is refused, by its argument, with its first fault; or there was no memory.
pub(crate) fn refuse(alloc: Global, name: &str, fault: &str) -> InputFail
    ensures { Tells result (Some (refused name.now fault.now)) }
{
    match refusal(alloc, name, fault) {
        Ok(answer) => InputFail::Refused(answer),
        Err(_) => InputFail::Memory,
    }
}

/// Judges that a file is not too long for its form.
pub(crate) fn judge_length(
    alloc: Global,
    form: Form,
    name: &str,
    file: &[u8],
) -> Result<(), InputFail>
    ensures within { OnOk result (length file.now ≤ limit_of form) }
    ensures refused { IfErr result (λ fail. Tells fail
        (named_fault (record { name = name.now; form = form }) file.now)) }
{
    if file.len() > form.limit() as usize {
        return Err(refuse(alloc, name, "too-large"));
    }
    Ok(())
}
