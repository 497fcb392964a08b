//! Decisions and started images in a line.

ghost use Rattle.std.specs.Prelude.{◌≡◌, ◌+◌, ◌≤◌, ◌++◌, length};
ghost use Rattle.text_words.specs.Writing.{hex_word};
ghost use Rattle.text_lines.specs.Events.{ram_start_text};
ghost use Rattle.text_lines.specs.Texts.{decision_text, entry_text, fall_text, rest_text, standing_text, start_text};

use crate::windows::{put_range, put_rollback, put_version, put_window};
use arrayvec::ArrayString;
use boot_rules::{Decision, Fall};
use image_def::Started;
use text_words::{put_text, put_word, yes_or_no};

/// Appends a number behind its name.
fn put_field(line: &mut ArrayString<320>, name: &str, n: u32)
    requires room { length line.old.bytes + length name.now + 10 ≤ 320 }
    ensures bytes { line.new.bytes ≡ line.old.bytes ++ (name.now ++ hex_word n) }
    ensures len { length line.new.bytes ≡ length line.old.bytes + length name.now + 10 }
{
    put_text(line, name);
    put_word(line, n);
}

/// Appends where an image starts.
fn put_entry(line: &mut ArrayString<320>, image: &Started)
    requires room { length line.old.bytes + 61 ≤ 320 }
    ensures bytes { line.new.bytes ≡ line.old.bytes ++ entry_text image.now }
    ensures len { length line.new.bytes ≡ length line.old.bytes + 61 }
{
    put_field(line, "block=", image.block);
    put_field(line, " pc=", image.pc);
    put_field(line, " sp=", image.sp);
    put_field(line, " limit=", image.limit);
}

/// Appends the rollback version of an image, and whether it is a trial.
fn put_standing(line: &mut ArrayString<320>, image: &Started)
    requires room { length line.old.bytes + 25 ≤ 320 }
    ensures bytes { line.new.bytes ≡ line.old.bytes ++ standing_text image.now }
    ensures most { length line.new.bytes ≤ length line.old.bytes + 25 }
{
    put_text(line, " rollback=");
    put_rollback(line, image.rollback);
    put_text(line, " trial=");
    put_text(line, yes_or_no(image.trial));
}

/// Appends the rest of a start, behind its window.
fn put_rest(line: &mut ArrayString<320>, image: &Started)
    requires room { length line.old.bytes + 107 ≤ 320 }
    ensures bytes { line.new.bytes ≡ line.old.bytes ++ rest_text image.now }
    ensures most { length line.new.bytes ≤ length line.old.bytes + 107 }
{
    put_text(line, " ");
    put_entry(line, image);
    put_text(line, " ");
    put_version(line, image.version);
    put_standing(line, image);
}

/// Appends an image that starts.
fn put_start(line: &mut ArrayString<320>, image: &Started)
    requires room { length line.old.bytes + 141 ≤ 320 }
    ensures bytes { line.new.bytes ≡ line.old.bytes ++ start_text image.now }
    ensures most { length line.new.bytes ≤ length line.old.bytes + 141 }
{
    put_text(line, "start ");
    put_window(line, image.window);
    put_rest(line, image);
}

/// Why a boot falls to BOOTSEL.
fn fall_word(fall: Fall) -> &'static str
    ensures word { result.now ≡ fall_text fall }
    ensures most { length result.now ≤ 17 }
{
    match fall {
        Fall::Requested => "bootsel requested",
        Fall::FlashOff => "bootsel flash-off",
        Fall::NoImage => "bootsel no-image",
    }
}

/// Appends the decision of a boot, which has at most 141 bytes.
pub fn put_decision(line: &mut ArrayString<320>, decision: &Decision)
    requires room { length line.old.bytes + 141 ≤ 320 }
    ensures bytes { line.new.bytes ≡ line.old.bytes ++ decision_text decision.now }
    ensures most { length line.new.bytes ≤ length line.old.bytes + 141 }
{
    match decision {
        Decision::Start(choice) => put_start(line, &choice.image),
        Decision::Bootsel(fall) => put_text(line, fall_word(*fall)),
    }
}

/// Appends the start of an image in RAM, behind the text of its command, at most 144 bytes.
pub(crate) fn put_ram_start(line: &mut ArrayString<320>, image: &Started)
    requires room { length line.old.bytes + 144 ≤ 320 }
    ensures bytes { line.new.bytes ≡ line.old.bytes ++ ram_start_text image.now }
    ensures most { length line.new.bytes ≤ length line.old.bytes + 144 }
{
    put_text(line, " boot start ram=");
    put_range(line, image.window);
    put_rest(line, image);
}
