//! The line of a window with data.

ghost use Rattle.std.specs.Prelude.{◌≡◌, IfOk, string_bytes};
ghost use Rattle.check_data.specs.Texts.{data_line, owner_word, written_word};

use crate::found::DataWindow;
use check_require::{DataOwner, DataWritten};
use std::alloc::{AllocError, Global};
use text_lines::place_text;

/// Whose data a window has, in a word.
fn owner_word(owner: DataOwner) -> &'static str
    ensures { result.now ≡ owner_word owner }
{
    match owner {
        DataOwner::Both => "both",
        DataOwner::Former => "former",
        DataOwner::End => "end",
    }
}

/// Whether a window is written, in a word.
fn written_word(written: DataWritten) -> &'static str
    ensures { result.now ≡ written_word written }
{
    match written {
        DataWritten::Yes => "yes",
        DataWritten::No => "no",
        DataWritten::Torn => "torn",
    }
}

/// The line of a window with data, with so many cuts at which an image runs on other data than its
/// own. It fails only where memory is out.
#[tactic(auto, unfolding(crate::specs::Texts::data_line))]
pub fn data_line(alloc: Global, window: &DataWindow, torn: u32) -> Result<String, AllocError>
    ensures { IfOk result (λ t. string_bytes t ≡ data_line window.now torn) }
{
    let place = place_text(alloc, window.window)?;
    let owner = owner_word(window.of);
    let written = written_word(window.written);
    format!(in alloc; "data {place} of={owner} written={written} torn={torn}\n")
}
