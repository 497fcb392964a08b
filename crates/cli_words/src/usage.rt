//! How the program is used, and its version.

ghost use Rattle.std.specs.Prelude.{◌≡◌, IfOk, string_bytes};
ghost use Rattle.std.specs.List.{flat_map};
ghost use Rattle.cli_words.specs.Usages.{usage_text, release_line, help_text, words_text, synopsis, row_line, rows_text, row_help, forms_text};
ghost use Rattle.cli_words.specs.Arguments.{word_note};
ghost use Rattle.cli_words.specs.Rows.{row_from};

use crate::arguments::{WORDS, Word};
use crate::rows::{Row, VERBS, Verb};
use std::alloc::{AllocError, Global};

/// The version of the program.
pub const VERSION: &str = "0.1.0";

/// The lines of the usage on the statuses.
pub const STATUSES: &str =
    "Status 0 means that the text is whole, 1 that the words are no command, 2 that an input is refused,
3 that the boot falls to BOOTSEL, 4 that a file could not be read, 5 that a file could not be
written, 6 that standard output failed, and 7 that there was no memory. cuts and check end with 8
where some loss of power, or the whole script, leaves nothing to start, and with 9 where one starts
a half-written image. check ends with 11 where a record of the script did nothing, with 10 where the
script does not do what it is for, and with 12 where something else is not met that is asked of it.
";

/// The arguments of a row after its name, each after a blank.
fn words_text(alloc: Global, words: &[Word]) -> Result<String, AllocError>
    ensures { IfOk result (λ t. string_bytes t ≡ words_text words.now) }
{
    let mut text = String::new(alloc);
    for word in words {
        text.push_str(" ")?;
        text.push_str(word.name())?;
    }
    Ok(text)
}

/// The name and the arguments of a row.
fn synopsis(alloc: Global, row: Row) -> Result<String, AllocError>
    ensures { IfOk result (λ t. string_bytes t ≡ synopsis (row_from row)) }
{
    let words = words_text(alloc, row.words)?;
    let name = row.name;
    format!(in alloc; "{name}{words}")
}

/// The line of a row: its name and arguments, and what the command does, in columns where the
/// first part is short.
fn row_line(alloc: Global, row: Row) -> Result<String, AllocError>
    ensures { IfOk result (λ t. string_bytes t ≡ row_line (row_from row)) }
{
    let synopsis = synopsis(alloc, row)?;
    let does = row.does;
    format!(in alloc; "{synopsis:<23}  {does}\n")
}

/// The lines of rows.
#[tactic(auto, unfolding(crate::specs::Usages::rows_text))]
fn rows_text(alloc: Global, verbs: &[Verb]) -> Result<String, AllocError>
    ensures { IfOk result (λ t. string_bytes t ≡ rows_text verbs.now) }
{
    let mut text = String::new(alloc);
    for verb in verbs {
        let line = row_line(alloc, verb.row())?;
        text.push_str(&line)?;
    }
    Ok(text)
}

/// The lines on arguments.
fn notes_text(alloc: Global, words: &[Word]) -> Result<String, AllocError>
    ensures { IfOk result (λ t. string_bytes t ≡ flat_map word_note words.now) }
{
    let mut text = String::new(alloc);
    for word in words {
        text.push_str(word.note())?;
    }
    Ok(text)
}

/// The forms of the arguments, and the statuses.
fn forms_text(alloc: Global) -> Result<String, AllocError>
    ensures { IfOk result (λ t. string_bytes t ≡ forms_text) }
{
    let notes = notes_text(alloc, &WORDS)?;
    format!(in alloc; "{notes}\n{STATUSES}")
}

/// How the program is used.
#[tactic(auto, unfolding(crate::specs::Usages::usage_text))]
pub fn usage_text(alloc: Global) -> Result<String, AllocError>
    ensures { IfOk result (λ t. string_bytes t ≡ usage_text) }
{
    let rows = rows_text(alloc, &VERBS)?;
    let forms = forms_text(alloc)?;
    format!(in alloc; "{rows}\n{forms}")
}

/// The line of a row and the lines on its arguments, where the row has this name.
fn row_help(alloc: Global, name: &str, verb: Verb) -> Result<String, AllocError>
    ensures { IfOk result (λ t. string_bytes t ≡ row_help name.now verb) }
{
    let row = verb.row();
    if row.name == name {
        let line = row_line(alloc, row)?;
        let notes = notes_text(alloc, row.words)?;
        format!(in alloc; "{line}{notes}")
    } else {
        Ok(String::new(alloc))
    }
}

/// The lines of the rows of this name and on their arguments.
fn rows_help(alloc: Global, name: &str, verbs: &[Verb]) -> Result<String, AllocError>
    ensures { IfOk result (λ t. string_bytes t ≡ flat_map (row_help name.now) verbs.now) }
{
    let mut text = String::new(alloc);
    for verb in verbs {
        let lines = row_help(alloc, name, *verb)?;
        text.push_str(&lines)?;
    }
    Ok(text)
}

/// How a command is used: the line of each row of its name, the lines on its arguments, and those
/// on the statuses.
#[tactic(auto, unfolding(crate::specs::Usages::help_text))]
pub fn help_text(alloc: Global, name: &str) -> Result<String, AllocError>
    ensures { IfOk result (λ t. string_bytes t ≡ help_text name.now) }
{
    let rows = rows_help(alloc, name, &VERBS)?;
    format!(in alloc; "{rows}{STATUSES}")
}

/// The line of the program's version.
#[tactic(auto, unfolding(crate::specs::Usages::release_line))]
pub fn release_line(alloc: Global) -> Result<String, AllocError>
    ensures { IfOk result (λ t. string_bytes t ≡ release_line) }
{
    format!(in alloc; "dugnatsew {VERSION}\n")
}
