//! Windows, versions and rollback versions in a line, and what a window or a flash has.

ghost use Rattle.std.specs.Prelude.{◌≡◌, ◌+◌, ◌≤◌, ◌++◌, length, option_map};
ghost use Rattle.text_lines.specs.Texts.{data_text, found_text, image_text, invalid_text, range_text, rollback_text, table_text, valid_text, version_text, window_text};

use crate::faults::put_why;
use arrayvec::ArrayString;
use block_codec::Version;
use boot_rules::{Found, Started};
use image_check::Why;
use part_table::Table;
use pico_board::Window;
use text_words::{put_number, put_short, put_text, put_word};

/// Appends the start and the length of a window.
pub(crate) fn put_range(line: &mut ArrayString<320>, window: Window)
    requires room { length line.old.bytes + 21 ≤ 320 }
    ensures bytes { line.new.bytes ≡ line.old.bytes ++ range_text window }
    ensures len { length line.new.bytes ≡ length line.old.bytes + 21 }
{
    put_word(line, window.start);
    put_text(line, "+");
    put_word(line, window.len);
}

/// Appends a window.
pub(crate) fn put_window(line: &mut ArrayString<320>, window: Window)
    requires room { length line.old.bytes + 28 ≤ 320 }
    ensures bytes { line.new.bytes ≡ line.old.bytes ++ window_text window }
    ensures len { length line.new.bytes ≡ length line.old.bytes + 28 }
{
    put_text(line, "window=");
    put_range(line, window);
}

/// Appends a version.
pub(crate) fn put_version(line: &mut ArrayString<320>, version: Version)
    requires room { length line.old.bytes + 19 ≤ 320 }
    ensures bytes { line.new.bytes ≡ line.old.bytes ++ version_text version }
    ensures most { length line.new.bytes ≤ length line.old.bytes + 19 }
{
    put_text(line, "version=");
    put_short(line, version.major);
    put_text(line, ".");
    put_short(line, version.minor);
}

/// Appends the rollback version, or `none`.
pub(crate) fn put_rollback(line: &mut ArrayString<320>, rollback: Option<u16>)
    requires room { length line.old.bytes + 5 ≤ 320 }
    ensures bytes { line.new.bytes ≡ line.old.bytes ++ rollback_text rollback }
    ensures most { length line.new.bytes ≤ length line.old.bytes + 5 }
{
    match rollback {
        Some(version) => put_short(line, version),
        None => put_text(line, "none"),
    }
}

/// Appends a window with a valid image.
pub(crate) fn put_valid(line: &mut ArrayString<320>, window: Window, image: &Started)
    requires room { length line.old.bytes + 72 ≤ 320 }
    ensures bytes { line.new.bytes ≡ line.old.bytes ++ valid_text window image.now }
    ensures most { length line.new.bytes ≤ length line.old.bytes + 72 }
{
    put_text(line, "image ");
    put_window(line, window);
    put_text(line, " ok ");
    put_version(line, image.version);
    put_text(line, " rollback=");
    put_rollback(line, image.rollback);
}

/// Appends a window without a valid image.
pub(crate) fn put_invalid(line: &mut ArrayString<320>, window: Window, why: Why)
    requires room { length line.old.bytes + 75 ≤ 320 }
    ensures bytes { line.new.bytes ≡ line.old.bytes ++ invalid_text window why }
    ensures most { length line.new.bytes ≤ length line.old.bytes + 75 }
{
    put_text(line, "image ");
    put_window(line, window);
    put_text(line, " fault=");
    put_why(line, why);
}

/// Appends a window, with its image or why there is none.
pub(crate) fn put_image(line: &mut ArrayString<320>, window: Window, image: &Result<Started, Why>)
    requires room { length line.old.bytes + 75 ≤ 320 }
    ensures bytes { line.new.bytes ≡ line.old.bytes ++ image_text window image.now }
    ensures most { length line.new.bytes ≤ length line.old.bytes + 75 }
{
    match image {
        Ok(image) => put_valid(line, window, image),
        Err(why) => put_invalid(line, window, *why),
    }
}

/// Appends a window of data that follows its owner.
pub(crate) fn put_data(line: &mut ArrayString<320>, window: Window)
    requires room { length line.old.bytes + 33 ≤ 320 }
    ensures bytes { line.new.bytes ≡ line.old.bytes ++ data_text window }
    ensures len { length line.new.bytes ≡ length line.old.bytes + 33 }
{
    put_text(line, "data ");
    put_window(line, window);
}

/// How many partitions a table has.
fn part_count(table: &Table) -> u32
    ensures { result ≡ length table.now.parts.items }
{
    table.parts.len() as u32
}

/// Appends the table that was found, by its slot.
fn put_found(line: &mut ArrayString<320>, found: &Found)
    requires room { length line.old.bytes + 63 ≤ 320 }
    ensures bytes { line.new.bytes ≡ line.old.bytes ++ found_text found.now }
    ensures most { length line.new.bytes ≤ length line.old.bytes + 63 }
{
    put_text(line, "table slot=");
    put_number(line, found.slot);
    put_text(line, " ");
    put_version(line, found.table.version);
    put_text(line, " partitions=");
    put_number(line, part_count(&found.table));
}

/// Appends the partition table that a flash has, or that it has none.
pub(crate) fn put_table(line: &mut ArrayString<320>, found: Option<&Found>)
    requires room { length line.old.bytes + 63 ≤ 320 }
    ensures bytes { line.new.bytes
        ≡ line.old.bytes ++ table_text (option_map (λ f. f.now) found.entry) }
    ensures most { length line.new.bytes ≤ length line.old.bytes + 63 }
{
    match found {
        Some(found) => put_found(line, found),
        None => put_text(line, "table none"),
    }
}
