//! Texts and numbers in a line, and `yes` and `no`.

ghost use Rattle.std.specs.Prelude.{◌≡◌, ◌+◌, ◌<◌, ◌≤◌, [], ◌∷◌, ◌++◌, length, false, decimal, IfOk, string_bytes};
ghost use Rattle.std.specs.Fmt.{digit_glyph};
ghost use Rattle.text_words.specs.Digits.{low_digits};
ghost use Rattle.text_words.specs.Writing.{hex_byte, hex_digits, hex_row, hex_word, yes_or_no};

use arrayvec::ArrayString;
use std::alloc::{AllocError, Global};

/// Appends a text, for which there is room.
pub fn put_text(line: &mut ArrayString<320>, text: &str)
    requires room { length line.old.bytes + length text.now ≤ 320 }
    ensures bytes { line.new.bytes ≡ line.old.bytes ++ text.now }
    ensures len { length line.new.bytes ≡ length line.old.bytes + length text.now }
{
    line.push_str(text);
}

/// Replaces the line by a text of at most 320 bytes.
pub fn set_text(line: &mut ArrayString<320>, text: &str)
    requires room { length text.now ≤ 320 }
    ensures { line.new.bytes ≡ text.now }
{
    line.clear();
    line.push_str(text);
}

/// A lower-case hexadecimal digit.
fn digit(n: u32) -> char
    requires { n < 16 }
    ensures glyph { result ≡ digit_glyph false n }
    ensures ascii { result < 128 }
{
    match char::from_digit(n, 16) {
        Some(c) => c,
        None => unreachable!(),
    }
}

/// Appends a digit.
fn put_digit(line: &mut ArrayString<320>, n: u32)
    requires small { n < 16 }
    requires room { length line.old.bytes < 320 }
    ensures bytes { line.new.bytes ≡ line.old.bytes ++ digit_glyph false n ∷ [] }
    ensures len { length line.new.bytes ≡ length line.old.bytes + 1 }
{
    line.push(digit(n));
}

/// Appends the last `count` hexadecimal digits of a number.
fn put_digits(line: &mut ArrayString<320>, n: u32, count: u32)
    requires room { length line.old.bytes + count ≤ 320 }
    ensures bytes { line.new.bytes ≡ line.old.bytes ++ low_digits count n }
    ensures len { length line.new.bytes ≡ length line.old.bytes + count }
{
    if count > 0 {
        put_digits(line, n / 16, count - 1);
        put_digit(line, n % 16);
    }
}

/// Appends a number as 0x and eight digits.
pub fn put_word(line: &mut ArrayString<320>, n: u32)
    requires room { length line.old.bytes + 10 ≤ 320 }
    ensures bytes { line.new.bytes ≡ line.old.bytes ++ hex_word n }
    ensures len { length line.new.bytes ≡ length line.old.bytes + 10 }
{
    put_text(line, "0x");
    put_digits(line, n, 8);
}

/// Appends a byte as two hexadecimal digits.
pub fn put_pair(line: &mut ArrayString<320>, n: u8)
    requires room { length line.old.bytes + 2 ≤ 320 }
    ensures bytes { line.new.bytes ≡ line.old.bytes ++ hex_digits 2 n }
    ensures len { length line.new.bytes ≡ length line.old.bytes + 2 }
{
    put_digits(line, u32::from(n), 2);
}

/// Appends a byte as 0x and two digits.
pub fn put_byte(line: &mut ArrayString<320>, n: u8)
    requires room { length line.old.bytes + 4 ≤ 320 }
    ensures bytes { line.new.bytes ≡ line.old.bytes ++ hex_byte n }
    ensures len { length line.new.bytes ≡ length line.old.bytes + 4 }
{
    put_text(line, "0x");
    put_pair(line, n);
}

/// Appends a number in decimal.
#[tactic(auto, using(crate::proofs::DecimalLemmas::decimal_last))]
pub fn put_decimal(line: &mut ArrayString<320>, n: u32)
    requires room { length line.old.bytes + length (decimal n) ≤ 320 }
    ensures bytes { line.new.bytes ≡ line.old.bytes ++ decimal n }
    ensures len { length line.new.bytes ≡ length line.old.bytes + length (decimal n) }
{
    if n < 10 {
        put_digit(line, n);
    } else {
        put_decimal(line, n / 10);
        put_digit(line, n % 10);
    }
}

/// Appends a number of at most ten decimal digits.
#[tactic(auto, using(crate::proofs::DecimalLemmas::length_number))]
pub fn put_number(line: &mut ArrayString<320>, n: u32)
    requires room { length line.old.bytes + 10 ≤ 320 }
    ensures bytes { line.new.bytes ≡ line.old.bytes ++ decimal n }
    ensures most { length line.new.bytes ≤ length line.old.bytes + 10 }
{
    put_decimal(line, n);
}

/// Appends a number of at most five decimal digits.
#[tactic(auto, using(crate::proofs::DecimalLemmas::length_short))]
pub fn put_short(line: &mut ArrayString<320>, n: u16)
    requires room { length line.old.bytes + 5 ≤ 320 }
    ensures bytes { line.new.bytes ≡ line.old.bytes ++ decimal n }
    ensures most { length line.new.bytes ≤ length line.old.bytes + 5 }
{
    put_decimal(line, u32::from(n));
}

/// Appends the number of an OTP row as 0x and at least three digits.
pub fn put_row(line: &mut ArrayString<320>, row: u16)
    requires room { length line.old.bytes + 6 ≤ 320 }
    ensures bytes { line.new.bytes ≡ line.old.bytes ++ hex_row row }
    ensures most { length line.new.bytes ≤ length line.old.bytes + 6 }
{
    let count = if row < 0x1000 { 3 } else { 4 };
    put_text(line, "0x");
    put_digits(line, u32::from(row), count);
}

/// `yes` or `no`.
pub fn yes_or_no(yes: bool) -> &'static str
    ensures word { result.now ≡ yes_or_no yes }
    ensures most { length result.now ≤ 3 }
{
    if yes { "yes" } else { "no" }
}

/// A number as 0x and at least eight digits, as a text of its own.
pub fn hex_text(alloc: Global, n: u64) -> Result<String, AllocError>
    ensures { IfOk result (λ t. string_bytes t ≡ hex_word n) }
{
    format!(in alloc; "0x{n:08x}")
}
