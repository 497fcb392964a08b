//! Windows, images, tables and decisions as texts on the heap, of which other texts are made.

ghost use Rattle.std.specs.Prelude.{◌≡◌, IfOk, option_map, string_bytes};
ghost use Rattle.text_words.specs.Writing.{line};
ghost use Rattle.text_lines.specs.Faults.{why_text};
ghost use Rattle.text_lines.specs.Texts.{data_text, decision_line, image_text, invalid_text, rollback_text, table_text, valid_text, version_text, window_text};

use crate::decisions::put_decision;
use crate::faults::put_why;
use crate::windows::{
    put_data, put_image, put_invalid, put_rollback, put_table, put_valid, put_version, put_window,
};
use arrayvec::ArrayString;
use block_codec::Version;
use boot_rules::{Decision, Found, Started};
use image_check::Why;
use pico_board::Window;
use std::alloc::{AllocError, Global};
use text_words::put_text;

/// What a line holds, as a text.
fn text_of(alloc: Global, line: &ArrayString<320>) -> Result<String, AllocError>
    ensures { IfOk result (λ t. string_bytes t ≡ line.now.bytes) }
{
    String::from_str(alloc, line.as_str())
}

/// The rollback version, or `none`.
pub fn rollback_text(alloc: Global, rollback: Option<u16>) -> Result<String, AllocError>
    ensures { IfOk result (λ t. string_bytes t ≡ rollback_text rollback) }
{
    let mut line = ArrayString::new();
    put_rollback(&mut line, rollback);
    text_of(alloc, &line)
}

/// A window: its start and its length.
pub fn place_text(alloc: Global, window: Window) -> Result<String, AllocError>
    ensures { IfOk result (λ t. string_bytes t ≡ window_text window) }
{
    let mut line = ArrayString::new();
    put_window(&mut line, window);
    text_of(alloc, &line)
}

/// A version.
pub fn version_text(alloc: Global, version: Version) -> Result<String, AllocError>
    ensures { IfOk result (λ t. string_bytes t ≡ version_text version) }
{
    let mut line = ArrayString::new();
    put_version(&mut line, version);
    text_of(alloc, &line)
}

/// The line of a decision.
pub fn decision_line(alloc: Global, decision: &Decision) -> Result<String, AllocError>
    ensures { IfOk result (λ t. string_bytes t ≡ decision_line decision.now) }
{
    let mut line = ArrayString::new();
    put_decision(&mut line, decision);
    put_text(&mut line, "\n");
    text_of(alloc, &line)
}

/// The line of the partition table that a flash has.
pub fn table_line(alloc: Global, found: Option<&Found>) -> Result<String, AllocError>
    ensures { IfOk result
        (λ t. string_bytes t ≡ line (table_text (option_map (λ f. f.now) found.entry))) }
{
    let mut line = ArrayString::new();
    put_table(&mut line, found);
    put_text(&mut line, "\n");
    text_of(alloc, &line)
}

/// A window with a valid image.
pub fn valid_text(alloc: Global, window: Window, image: &Started) -> Result<String, AllocError>
    ensures { IfOk result (λ t. string_bytes t ≡ valid_text window image.now) }
{
    let mut line = ArrayString::new();
    put_valid(&mut line, window, image);
    text_of(alloc, &line)
}

/// A window without a valid image.
pub fn invalid_text(alloc: Global, window: Window, why: Why) -> Result<String, AllocError>
    ensures { IfOk result (λ t. string_bytes t ≡ invalid_text window why) }
{
    let mut line = ArrayString::new();
    put_invalid(&mut line, window, why);
    text_of(alloc, &line)
}

/// The line of a window, with its image or why there is none.
pub fn image_line(
    alloc: Global,
    window: Window,
    image: &Result<Started, Why>,
) -> Result<String, AllocError>
    ensures { IfOk result (λ t. string_bytes t ≡ line (image_text window image.now)) }
{
    let mut line = ArrayString::new();
    put_image(&mut line, window, image);
    put_text(&mut line, "\n");
    text_of(alloc, &line)
}

/// The line of a window of data.
pub fn data_line(alloc: Global, window: Window) -> Result<String, AllocError>
    ensures { IfOk result (λ t. string_bytes t ≡ line (data_text window)) }
{
    let mut line = ArrayString::new();
    put_data(&mut line, window);
    put_text(&mut line, "\n");
    text_of(alloc, &line)
}

/// Why an image is not valid.
pub fn why_text(alloc: Global, why: Why) -> Result<String, AllocError>
    ensures { IfOk result (λ t. string_bytes t ≡ why_text why) }
{
    let mut line = ArrayString::new();
    put_why(&mut line, why);
    text_of(alloc, &line)
}
