//! What a JSON text asks of an update, and the texts of its faults.

ghost use Rattle.std.specs.Prelude.{◌≡◌, Some, Ok, IfOk, string_bytes};
ghost use Rattle.cli_course.specs.Outcomes.{refused};
ghost use Rattle.check_require.specs.Requires.{require_from};
ghost use Rattle.check_require.specs.Texts.{require_read};
ghost use Rattle.cli_inputs.specs.Asks.{ask_text};
ghost use Rattle.cli_inputs.specs.Inputs.{IsJudged, Tells};

use crate::fail::{InputFail, judge_length, refuse};
use crate::forms::Form;
use check_require::{Require, RequireFault, require_of};
use std::alloc::{AllocError, Global};

/// The fault of a text.
fn ask_text(alloc: Global, fault: RequireFault) -> Result<String, AllocError>
    ensures { IfOk result (λ t. string_bytes t ≡ ask_text fault) }
{
    match fault {
        RequireFault::NotJson => format!(in alloc; "not-json"),
        RequireFault::Unknown => format!(in alloc; "unknown top"),
        RequireFault::Value(member) => {
            let name = member.name();
            format!(in alloc; "value top {name}")
        }
        RequireFault::Memory => format!(in alloc; "memory"),
    }
}

/// The text of a fault, which refuses an input by its argument.
fn refuse_ask(alloc: Global, name: &str, fault: RequireFault) -> InputFail
    ensures { Tells result (Some (refused name.now (ask_text fault))) }
{
    match ask_text(alloc, fault) {
        Ok(text) => refuse(alloc, name, &text),
        Err(_) => InputFail::Memory,
    }
}

/// What a text asks of an update.
pub fn read_require(alloc: Global, name: &str, text: &[u8]) -> Result<Require, InputFail>
    ensures value { IfOk result (λ ask. require_read text.now ≡ Ok (require_from ask)) }
    ensures judged { IsJudged result (record { name = name.now; form = Form.Require }) text.now }
{
    judge_length(alloc, Form::Require, name, text)?;
    match require_of(alloc, text) {
        Ok(ask) => Ok(ask),
        Err(RequireFault::Memory) => Err(InputFail::Memory),
        Err(fault) => Err(refuse_ask(alloc, name, fault)),
    }
}
