//! Numbers and bytes as they are read.

ghost use Rattle.std.specs.Prelude.{◌≡◌, ◌<◌, ◌≤◌, IfOk, IfSome, length, option_map};
ghost use Rattle.hex.specs.Hex.{hex_digit_value};
ghost use Rattle.text_words.specs.Reading.{are_digits, array_in, behind_word, bytes_in, decimal_digit, decimal_value, hex_value, is_digit, is_short, number_in, number_of, value_in, word_in};

use hex::FromHex;
use std::alloc::{AllocError, Global};

/// The value of a decimal digit, by its code.
fn decimal_digit(code: u8) -> Option<u64>
    ensures value { result ≡ decimal_digit code }
    ensures small { IfSome result (λ digit. digit < 10) }
{
    match code {
        b'0'..=b'9' => Some((code - b'0') as u64),
        _ => None,
    }
}

/// The number of at most ten decimal digits.
fn decimal_value(digits: &[u8]) -> Option<u64>
    requires { length digits.now ≤ 10 }
    ensures { result ≡ decimal_value 0 digits.now }
{
    let mut number = 0;
    for code in digits {
        match decimal_digit(*code) {
            Some(digit) => number = 10 * number + digit,
            None => return None,
        }
    }
    Some(number)
}

/// The number below 2^32 of at most ten decimal digits.
fn read_value(digits: &[u8]) -> Option<u32>
    requires { length digits.now ≤ 10 }
    ensures { result ≡ value_in digits.now }
{
    let number = decimal_value(digits)?;
    if number < 0x1_0000_0000 {
        Some(number as u32)
    } else {
        None
    }
}

/// The number below 2^32 that 1 to 10 decimal digits are, of which the first ones may be 0.
pub fn decimal_number(digits: &[u8]) -> Option<u32>
    ensures { result ≡ number_of digits.now }
{
    if digits.is_empty() || digits.len() > 10 {
        return None;
    }
    read_value(digits)
}

/// Whether there are one to ten bytes, of which the first is 0 only where it is the only one.
fn is_short(text: &[u8]) -> bool
    ensures { result ≡ is_short text.now }
{
    !text.is_empty() && text.len() <= 10 && (text.len() == 1 || text[0] > b'0')
}

/// The number below 2^32 of decimal digits without a leading zero.
pub fn read_number(text: &[u8]) -> Option<u32>
    ensures { result ≡ number_in text.now }
{
    if !is_short(text) {
        return None;
    }
    read_value(text)
}

/// The value of a hexadecimal digit of either case, by its code.
fn hex_digit(code: u8) -> Option<u32>
    ensures value { result ≡ hex_digit_value code }
    ensures small { IfSome result (λ digit. digit < 16) }
{
    match code {
        b'0'..=b'9' => Some((code - b'0') as u32),
        b'A'..=b'F' => Some((code - b'A' + 10) as u32),
        b'a'..=b'f' => Some((code - b'a' + 10) as u32),
        _ => None,
    }
}

/// The number of at most eight hexadecimal digits of either case.
pub fn hex_number(digits: &[u8]) -> Option<u32>
    requires { length digits.now ≤ 8 }
    ensures { result ≡ hex_value 0 digits.now }
{
    let mut number = 0;
    for code in digits {
        match hex_digit(*code) {
            Some(digit) => number = 16 * number + digit,
            None => return None,
        }
    }
    Some(number)
}

/// What follows this word at the front of a text.
pub fn behind_word<'a>(text: &'a [u8], word: &[u8]) -> Option<&'a [u8]>
    ensures value { option_map (λ rest. rest.now) result ≡ behind_word word.now text.now }
    ensures size { IfSome result (λ rest. length rest.now ≤ length text.now) }
{
    text.strip_prefix(word)
}

/// Whether a byte is a lower-case hexadecimal digit.
fn is_digit(byte: u8) -> bool
    ensures { result ≡ is_digit byte }
{
    byte.is_ascii_digit() || (b'a'..=b'f').contains(&byte)
}

/// Whether all bytes are lower-case hexadecimal digits.
fn are_digits(text: &[u8]) -> bool
    ensures { result ≡ are_digits text.now }
{
    text.iter().all(|byte| is_digit(*byte))
}

/// The bytes of two digits each.
pub fn read_bytes(alloc: Global, text: &[u8]) -> Result<Option<Vec<u8>>, AllocError>
    ensures { IfOk result (λ found. option_map (λ bytes. bytes.items) found ≡ bytes_in text.now) }
{
    if !are_digits(text) {
        return Ok(None);
    }
    match hex::decode(alloc, text) {
        Ok(bytes) => Ok(Some(bytes)),
        Err(hex::FromHexError::OutOfMemory) => Err(AllocError),
        Err(_) => Ok(None),
    }
}

/// So many bytes of two digits each.
pub fn read_array<const N: usize>(text: &[u8]) -> Option<[u8; N]>
    ensures { result ≡ array_in N text.now }
{
    if !are_digits(text) {
        return None;
    }
    <[u8; N]>::from_hex(text).ok()
}

/// The number of 0x and eight digits.
pub fn read_word(text: &[u8]) -> Option<u32>
    ensures { result ≡ word_in text.now }
{
    let digits = behind_word(text, b"0x".as_slice())?;
    let bytes = read_array::<4>(digits)?;
    Some(u32::from_be_bytes(bytes))
}
