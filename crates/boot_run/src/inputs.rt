//! The inputs of a command: the arguments of its row that name input files, in their order.

ghost use Rattle.std.specs.Prelude.{◌≡◌, IfOk, map, option_map};
ghost use Rattle.cli_inputs.specs.Inputs.{form_input_from};
ghost use Rattle.cli_words.specs.Rows.{command_from};
ghost use Rattle.cli_words.specs.Values.{values_from};
ghost use Rattle.boot_run.specs.Inputs.{word_input, row_inputs, inputs_of};

use cli_inputs::{Form, FormInput};
use cli_words::{CommandLine, Values, Word};
use std::alloc::{AllocError, Global};

/// The input that an argument names, with the form of its file.
fn word_input<'a>(word: Word, values: &Values<'a>) -> Option<FormInput<'a>>
    ensures { option_map form_input_from result ≡ word_input word (values_from values.now) }
{
    let (name, form) = match word {
        Word::Flash => (values.flash, Form::Flash),
        Word::Otp => (values.otp, Form::Otp),
        Word::Script => (values.file, Form::Script),
        Word::Pattern => (values.pattern, Form::Pattern),
        Word::Require => (values.require, Form::Require),
        Word::Binary => (values.file, Form::Binary),
        Word::Elf => (values.file, Form::Elf),
        Word::Spec => (values.spec, Form::Spec),
        Word::Json => (values.file, Form::Json),
        Word::OtpJson => (values.file, Form::OtpText),
        Word::Image => (values.file, Form::Image),
        Word::SourceImage => (values.image, Form::SourceImage),
        Word::Uf2 => (values.file, Form::Uf2),
        Word::Text => (values.file, Form::Text),
        Word::Cpu
        | Word::Kind
        | Word::OutFlash
        | Word::OutOtp
        | Word::Family
        | Word::Number
        | Word::Out
        | Word::Command => return None,
    };
    Some(FormInput { name, form })
}

/// The inputs of a row of these arguments. It fails only where memory is out.
fn row_inputs<'a>(
    alloc: Global,
    words: &[Word],
    values: &Values<'a>,
) -> Result<Vec<FormInput<'a>>, AllocError>
    ensures { IfOk result (λ inputs. map form_input_from inputs.items
        ≡ row_inputs words.now (values_from values.now)) }
{
    let mut inputs = Vec::new(alloc);
    for word in words {
        if let Some(input) = word_input(*word, values) {
            inputs.push(input)?;
        }
    }
    Ok(inputs)
}

/// The inputs of a command. It fails only where memory is out.
pub fn inputs_of<'a>(
    alloc: Global,
    command: &CommandLine<'a>,
) -> Result<Vec<FormInput<'a>>, AllocError>
    ensures { IfOk result (λ inputs. map form_input_from inputs.items
        ≡ inputs_of (command_from command.now)) }
{
    row_inputs(alloc, command.verb.row().words, &command.values)
}
