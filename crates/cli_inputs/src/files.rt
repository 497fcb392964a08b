//! The values of input files: scripts, patterns, binaries, ELF files, images, UF2 files and texts.

ghost use Rattle.std.specs.Prelude.{◌≡◌, IfOk, string_bytes};
ghost use Rattle.cli_inputs.specs.Forms.{script_text};
ghost use Rattle.cli_inputs.specs.Inputs.{IsJudged};

use crate::fail::{InputFail, judge_length, refuse};
use crate::forms::Form;
use crate::values::{Binary, Elf, Image, Pattern, SourceImage, Text, Uf2};
use boot_script::{Script, ScriptError, ScriptFault};
use std::alloc::{AllocError, Global};

/// Why bytes are no script.
fn script_text(alloc: Global, error: ScriptError) -> Result<String, AllocError>
    ensures { IfOk result (λ t. string_bytes t ≡ script_text error) }
{
    match error {
        ScriptError::TooLarge => format!(in alloc; "too-large"),
        ScriptError::Record(fault) => match fault {
            ScriptFault::Kind(at) => format!(in alloc; "script kind at={at}"),
            ScriptFault::Short(at) => format!(in alloc; "script short at={at}"),
            ScriptFault::Pattern(at) => format!(in alloc; "script pattern at={at}"),
        },
        ScriptError::TooMany => format!(in alloc; "script too-many"),
    }
}

/// The script of a file.
pub fn read_script<'a>(alloc: Global, name: &str, file: &'a [u8]) -> Result<Script<'a>, InputFail>
    ensures value { IfOk result (λ script. script.bytes.now ≡ file.now) }
    ensures judged { IsJudged result (record { name = name.now; form = Form.Script }) file.now }
{
    judge_length(alloc, Form::Script, name, file)?;
    match Script::read(file) {
        Ok(script) => Ok(script),
        Err(error) => {
            let fault = script_text(alloc, error)?;
            Err(refuse(alloc, name, &fault))
        }
    }
}

/// The pattern of a file.
pub fn read_pattern<'a>(alloc: Global, name: &str, file: &'a [u8]) -> Result<Pattern<'a>, InputFail>
    ensures value { IfOk result (λ pattern. pattern.bytes.now ≡ file.now) }
    ensures judged { IsJudged result (record { name = name.now; form = Form.Pattern }) file.now }
{
    judge_length(alloc, Form::Pattern, name, file)?;
    if file.is_empty() {
        return Err(refuse(alloc, name, "pattern-length"));
    }
    Ok(Pattern { bytes: file })
}

/// The binary of a file.
pub fn read_binary<'a>(alloc: Global, name: &str, file: &'a [u8]) -> Result<Binary<'a>, InputFail>
    ensures value { IfOk result (λ binary. binary.bytes.now ≡ file.now) }
    ensures judged { IsJudged result (record { name = name.now; form = Form.Binary }) file.now }
{
    judge_length(alloc, Form::Binary, name, file)?;
    Ok(Binary { bytes: file })
}

/// The ELF file of a file's bytes. What they say is judged by the work.
pub fn read_elf<'a>(alloc: Global, name: &str, file: &'a [u8]) -> Result<Elf<'a>, InputFail>
    ensures value { IfOk result (λ elf. elf.bytes.now ≡ file.now) }
    ensures judged { IsJudged result (record { name = name.now; form = Form.Elf }) file.now }
{
    judge_length(alloc, Form::Elf, name, file)?;
    Ok(Elf { bytes: file })
}

/// The image of a file. What its bytes say is judged by the work.
pub fn read_image(alloc: Global, name: &str, file: Vec<u8>) -> Result<Image, InputFail>
    ensures value { IfOk result (λ image. image.bytes.items ≡ file.items) }
    ensures judged { IsJudged result (record { name = name.now; form = Form.Image }) file.items }
{
    judge_length(alloc, Form::Image, name, &file)?;
    Ok(Image { bytes: file })
}

/// The image of a file, of which a script takes bytes.
pub fn read_source<'a>(
    alloc: Global,
    name: &str,
    file: &'a [u8],
) -> Result<SourceImage<'a>, InputFail>
    ensures value { IfOk result (λ image. image.bytes.now ≡ file.now) }
    ensures judged { IsJudged result
        (record { name = name.now; form = Form.SourceImage }) file.now }
{
    judge_length(alloc, Form::SourceImage, name, file)?;
    if file.is_empty() {
        return Err(refuse(alloc, name, "empty"));
    }
    Ok(SourceImage { bytes: file })
}

/// The blocks of a UF2 file. The blocks themselves are not judged.
pub fn read_uf2<'a>(alloc: Global, name: &str, file: &'a [u8]) -> Result<Uf2<'a>, InputFail>
    ensures value { IfOk result (λ uf2. uf2.bytes.now ≡ file.now) }
    ensures judged { IsJudged result (record { name = name.now; form = Form.Uf2 }) file.now }
{
    judge_length(alloc, Form::Uf2, name, file)?;
    if file.is_empty() || file.len() % 512 != 0 {
        return Err(refuse(alloc, name, "uf2-length"));
    }
    Ok(Uf2 { bytes: file })
}

/// The text of a file. What it says is judged by the work.
pub fn read_text<'a>(alloc: Global, name: &str, file: &'a [u8]) -> Result<Text<'a>, InputFail>
    ensures value { IfOk result (λ text. text.bytes.now ≡ file.now) }
    ensures judged { IsJudged result (record { name = name.now; form = Form.Text }) file.now }
{
    judge_length(alloc, Form::Text, name, file)?;
    Ok(Text { bytes: file })
}
