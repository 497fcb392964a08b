//! The inputs of a command: what is read of each, and the bytes of each.

ghost use Rattle.std.specs.Prelude.{◌≡◌, ◌∷◌, [], IfOk, length, map};
ghost use Rattle.cli_course.specs.Views.{limited_input_from, bytes_of_files};
ghost use Rattle.cli_inputs.specs.Inputs.{to_read, readings, form_input_from};

use crate::forms::Form;
use cli_course::LimitedInput;
use std::alloc::{AllocError, Global};

/// An input of a command: the argument that names it, and its form.
#[derive(Drop)]
pub struct FormInput<'a> {
    /// The name.
    pub name: &'a str,
    /// The form.
    pub form: Form,
}

/// What is read of an input.
fn reading<'a>(input: &FormInput<'a>) -> LimitedInput<'a>
    ensures { limited_input_from result ≡ to_read (form_input_from input.now) }
{
    LimitedInput {
        name: input.name,
        limit: input.form.limit(),
    }
}

/// What is read of inputs, in their order. It fails only where memory is out.
pub fn readings<'a>(
    alloc: Global,
    inputs: &[FormInput<'a>],
) -> Result<Vec<LimitedInput<'a>>, AllocError>
    ensures { IfOk result
        (λ words. map limited_input_from words.items ≡ readings (map form_input_from inputs.now)) }
{
    let mut words = Vec::new(alloc);
    for input in inputs {
        words.push(reading(input))?;
    }
    Ok(words)
}

/// The files of one input.
pub fn one(files: Vec<Vec<u8>>) -> Vec<u8>
    requires { length files.items ≡ 1 }
    ensures { bytes_of_files files.items ≡ (result.items ∷ []) }
{
    let mut files = files.into_iter();
    files.next().unwrap()
}

/// The files of two inputs.
pub fn two(files: Vec<Vec<u8>>) -> (Vec<u8>, Vec<u8>)
    requires { length files.items ≡ 2 }
    ensures { bytes_of_files files.items ≡ (result.0.items ∷ result.1.items ∷ []) }
{
    let mut files = files.into_iter();
    let first = files.next().unwrap();
    let second = files.next().unwrap();
    (first, second)
}

/// The files of three inputs.
pub fn three(files: Vec<Vec<u8>>) -> (Vec<u8>, Vec<u8>, Vec<u8>)
    requires { length files.items ≡ 3 }
    ensures { bytes_of_files files.items ≡ (result.0.items ∷ result.1.items ∷ result.2.items ∷ []) }
{
    let mut files = files.into_iter();
    let first = files.next().unwrap();
    let second = files.next().unwrap();
    let third = files.next().unwrap();
    (first, second, third)
}

/// The files of four inputs.
pub fn four(files: Vec<Vec<u8>>) -> (Vec<u8>, Vec<u8>, Vec<u8>, Vec<u8>)
    requires { length files.items ≡ 4 }
    ensures { bytes_of_files files.items
        ≡ (result.0.items ∷ result.1.items ∷ result.2.items ∷ result.3.items ∷ []) }
{
    let mut files = files.into_iter();
    let first = files.next().unwrap();
    let second = files.next().unwrap();
    let third = files.next().unwrap();
    let fourth = files.next().unwrap();
    (first, second, third, fourth)
}

/// The files of five inputs.
pub fn five(files: Vec<Vec<u8>>) -> (Vec<u8>, Vec<u8>, Vec<u8>, Vec<u8>, Vec<u8>)
    requires { length files.items ≡ 5 }
    ensures { bytes_of_files files.items ≡ (result.0.items ∷ result.1.items ∷ result.2.items
        ∷ result.3.items ∷ result.4.items ∷ []) }
{
    let mut files = files.into_iter();
    let first = files.next().unwrap();
    let second = files.next().unwrap();
    let third = files.next().unwrap();
    let fourth = files.next().unwrap();
    let fifth = files.next().unwrap();
    (first, second, third, fourth, fifth)
}
