//! The rows of an OTP that a text describes, its file and its line.

ghost use Rattle.std.specs.Prelude.{◌≡◌, ◌==◌, IfOk, Ok, OnOk, length, map, not, replicate, slice_set, string_bytes, count_by, ◌++◌, ◌≤◌, ◌*◌, ◌^◌, codes, decimal};
ghost use Rattle.block_codec.specs.Words.{bytes_of};
ghost use Rattle.cli_course.specs.Outcomes.{line, worked};
ghost use Rattle.cli_course.specs.Views.{answer_from};
ghost use Rattle.table_json.specs.Otps.{otp_spec_from};
ghost use Rattle.cli_otp.specs.OtpWords.{flag_word, otp_line, otp_work, otp_words, set_count};
ghost use Rattle.cli_otp.specs.Setting.{first_bits, flags_set, rows_set, secure_set};

use cli_course::{Answer, one_file};
use cli_explain::otp_text;
use cli_inputs::JsonOtp;
use otp_roll::{BOOT_FLAGS, SLOT_SIZE_ROW};
use pico_board::{ROWS, SECTOR};
use std::alloc::{AllocError, Global};
use table_json::{OtpRow, OtpSpec};

/// The first of the rows that ask for secure boot.
pub const FIRST_SECURE_ROW: u16 = 0x040;
/// How many rows ask for secure boot.
pub const SECURE_ROWS: u16 = 8;

/// So many rows of 0. It fails only where memory is out.
fn clear_rows(alloc: Global, count: usize) -> Result<Vec<u32>, AllocError>
    ensures { IfOk result (λ words. words.items ≡ replicate count 0) }
{
    let mut words = Vec::new(alloc);
    words.resize(count, 0)?;
    Ok(words)
}

/// Sets a row, where it is one.
fn set_row(words: &mut Vec<u32>, row: usize, value: u32)
    ensures { words.new.items ≡ slice_set words.old.items row value }
{
    if row < words.len() {
        words[row] = value;
    }
}

/// Sets listed rows, one after the other.
fn set_rows(words: &mut Vec<u32>, pairs: &[OtpRow])
    ensures { words.new.items ≡ rows_set words.old.items pairs.now }
{
    for pair in pairs {
        set_row(words, pair.row as usize, pair.value);
    }
}

/// Sets bit 0 alone of each row that asks for secure boot.
fn set_secure_rows(words: &mut Vec<u32>)
    ensures { words.new.items
        ≡ rows_set words.old.items (first_bits FIRST_SECURE_ROW SECURE_ROWS) }
{
    for place in 0..SECURE_ROWS {
        set_row(words, (FIRST_SECURE_ROW + place) as usize, 1);
    }
}

/// Sets the rows that ask for secure boot, where it is on.
fn set_secure(words: &mut Vec<u32>, secure: bool)
    ensures { words.new.items ≡ secure_set words.old.items secure }
{
    if secure {
        set_secure_rows(words);
    }
}

/// How many rows are not 0.
fn set_rows_in(words: &[u32]) -> usize
    ensures { result ≡ count_by (λ word. not (word == 0)) words.now }
{
    let mut count = 0;
    for word in words {
        if *word != 0 {
            count += 1;
        }
    }
    count
}

/// The boot flags.
fn flag_word(required: bool, off: bool) -> u32
    ensures { result ≡ flag_word required off }
{
    u32::from(required) + 2 * u32::from(off)
}

/// Sets the boot flags and the exponent of the slot size.
fn set_flags(words: &mut Vec<u32>, spec: &OtpSpec)
    ensures { words.new.items ≡ flags_set words.old.items (otp_spec_from spec.now) }
{
    let flags = flag_word(spec.rollback_required, spec.flash_off);
    set_row(words, SLOT_SIZE_ROW as usize, spec.slot_exponent);
    set_row(words, BOOT_FLAGS as usize, flags);
}

/// How many rows have a last listed value that is not 0. It fails only where memory is out.
fn set_count(alloc: Global, pairs: &[OtpRow]) -> Result<usize, AllocError>
    ensures { IfOk result (λ count. count ≡ set_count pairs.now) }
{
    let mut words = clear_rows(alloc, ROWS as usize)?;
    set_rows(&mut words, pairs);
    Ok(set_rows_in(&words))
}

/// The rows of an OTP. It fails only where memory is out.
fn otp_words(alloc: Global, spec: &OtpSpec) -> Result<Vec<u32>, AllocError>
    ensures { IfOk result (λ words. words.items ≡ otp_words (otp_spec_from spec.now)) }
{
    let mut words = clear_rows(alloc, ROWS as usize)?;
    set_secure(&mut words, spec.secure_boot);
    set_rows(&mut words, &spec.rows);
    set_flags(&mut words, spec);
    Ok(words)
}

/// Each row in four bytes, the lowest first. It fails only where memory is out.
#[tactic(auto, unfolding(block_codec::specs::Words::word_bytes))]
fn row_bytes(alloc: Global, rows: &[u32]) -> Result<Vec<u8>, AllocError>
    ensures { IfOk result (λ bytes. bytes.items ≡ bytes_of rows.now) }
{
    let mut bytes = Vec::new(alloc);
    for row in rows {
        bytes.extend_from_slice(&row.to_le_bytes())?;
    }
    Ok(bytes)
}

/// The size of a slot, by its exponent.
fn slot_size(exponent: u32) -> u32
    requires { exponent ≤ 11 }
    ensures { result ≡ 4096 * 2 ^ exponent }
{
    SECTOR << exponent
}

/// The line of a text on an OTP and of so many rows. It fails only where memory is out.
fn counted_line(alloc: Global, told: &str, count: usize) -> Result<String, AllocError>
    ensures { IfOk result (λ t. string_bytes t
        ≡ told.now ++ (codes " rows=" ++ line (decimal count))) }
{
    format!(in alloc; "{told} rows={count}\n")
}

/// The line of an OTP with so many listed rows that are not 0. It fails only where memory is out.
fn otp_line(alloc: Global, spec: &OtpSpec, count: usize) -> Result<String, AllocError>
    requires size { spec.now.slot_exponent ≤ 11 }
    requires count { count ≡ set_count (otp_spec_from spec.now).rows }
    ensures { IfOk result (λ t. string_bytes t ≡ otp_line (otp_spec_from spec.now)) }
{
    let size = slot_size(spec.slot_exponent);
    let told = otp_text(alloc, spec.rollback_required, spec.flash_off, size)?;
    counted_line(alloc, &told, count)
}

/// The work of `otp` on what a text says of an OTP: the line, and the file of the rows. It fails
/// only where memory is out.
pub fn otp<'a>(alloc: Global, json: &JsonOtp, out: &'a str) -> Result<Answer<'a>, AllocError>
    ensures { IfOk result (λ answer. answer_from answer
        ≡ worked (otp_work out.entry.now (Ok (otp_spec_from json.now.spec)))) }
{
    let words = otp_words(alloc, &json.spec)?;
    let count = set_count(alloc, &json.spec.rows)?;
    let line = otp_line(alloc, &json.spec, count)?;
    let bytes = row_bytes(alloc, &words)?;
    one_file(alloc, line, out, bytes)
}
