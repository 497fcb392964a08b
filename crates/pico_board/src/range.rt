//! Writes into a range of the flash or a row of the OTP.

ghost use Rattle.std.specs.Prelude.{◌≡◌, ◌+◌, ◌^◌, ◌<◌, ◌≤◌, length, IsTrue, if◌then◌else◌, slice_index, slice_set, bit_and, bit_or, bit_xor};
ghost use Rattle.pico_board.specs.Cuts.{pattern_at, pattern_row};
ghost use Rattle.pico_board.specs.Steps.{changed};

use crate::window::{ERASED, PAGE, SECTOR};

/// Makes each byte of a sector 0xff.
#[tactic(auto, using(crate::proofs::ChangedLemmas::changed_steps))]
pub fn erase_sector(flash: &mut [u8], at: usize)
    requires { at + 4096 ≤ length flash.old }
    ensures { flash.new ≡ changed (λ i b. 255) at 4096 flash.old }
{
    for i in 0..SECTOR as usize {
        flash[at + i] = ERASED;
    }
}

/// Clears each bit of a page that is clear in the bytes.
#[tactic(auto, using(crate::proofs::ChangedLemmas::changed_steps))]
pub fn program_page(flash: &mut [u8], at: usize, bytes: &[u8; 256])
    requires { at + 256 ≤ length flash.old }
    ensures { flash.new ≡ changed (λ i b. bit_and b (slice_index bytes.now i)) at 256 flash.old }
{
    for i in 0..PAGE as usize {
        flash[at + i] &= bytes[i];
    }
}

/// Fills a sector with the pattern, repeated.
#[tactic(auto, using(crate::proofs::ChangedLemmas::changed_steps))]
fn paint_sector(flash: &mut [u8], at: usize, pattern: &[u8])
    requires range { at + 4096 ≤ length flash.old }
    requires pattern { 1 ≤ length pattern.now }
    ensures { flash.new ≡ changed (λ i b. pattern_at pattern.now i) at 4096 flash.old }
{
    for i in 0..SECTOR as usize {
        flash[at + i] = pattern[i % pattern.len()];
    }
}

/// Clears each bit of a page that is clear both in the bytes and in the pattern, repeated.
#[tactic(auto, using(crate::proofs::ChangedLemmas::changed_steps))]
fn paint_page(flash: &mut [u8], at: usize, bytes: &[u8; 256], pattern: &[u8])
    requires range { at + 256 ≤ length flash.old }
    requires pattern { 1 ≤ length pattern.now }
    ensures { flash.new ≡ changed
        (λ i b. bit_and b (bit_or (slice_index bytes.now i) (pattern_at pattern.now i)))
        at 256 flash.old }
{
    for i in 0..PAGE as usize {
        flash[at + i] &= bytes[i] | pattern[i % pattern.len()];
    }
}

/// What a cut leaves of an erase: the pattern within it, and nothing before it.
pub fn cut_erase(flash: &mut [u8], at: usize, within: bool, pattern: &[u8])
    requires range { at + 4096 ≤ length flash.old }
    requires pattern { IsTrue within → 1 ≤ length pattern.now }
    ensures { flash.new ≡ (if within
        then changed (λ i b. pattern_at pattern.now i) at 4096 flash.old
        else flash.old) }
{
    if within {
        paint_sector(flash, at, pattern);
    }
}

/// What a cut leaves of a program: some of the bits cleared within it, and nothing before it.
pub fn cut_program(flash: &mut [u8], at: usize, bytes: &[u8; 256], within: bool, pattern: &[u8])
    requires range { at + 256 ≤ length flash.old }
    requires pattern { IsTrue within → 1 ≤ length pattern.now }
    ensures { flash.new ≡ (if within
        then changed
        (λ i b. bit_and b (bit_or (slice_index bytes.now i) (pattern_at pattern.now i)))
        at 256 flash.old
        else flash.old) }
{
    if within {
        paint_page(flash, at, bytes, pattern);
    }
}

/// The first three bytes of the repeated pattern, as a little-endian number.
fn row_of_pattern(pattern: &[u8]) -> u32
    requires { 1 ≤ length pattern.now }
    ensures value { result ≡ pattern_row pattern.now }
    ensures bits { result < 2 ^ 24 }
{
    let low = pattern[0] as u32;
    let middle = pattern[1 % pattern.len()] as u32;
    let high = pattern[2 % pattern.len()] as u32;
    low + 256 * middle + 65536 * high
}

/// What a cut leaves of a raise: some of the bits set within it, and nothing before it.
pub fn cut_raise(otp: &mut [u32], row: usize, bits: u32, within: bool, pattern: &[u8])
    requires range { row < length otp.old }
    requires pattern { IsTrue within → 1 ≤ length pattern.now }
    ensures { otp.new ≡ (if within
        then slice_set otp.old row (bit_or (slice_index otp.old row)
        (bit_and bits (bit_xor (pattern_row pattern.now) 0xff_ffff)))
        else otp.old) }
{
    if within {
        otp[row] |= bits & (row_of_pattern(pattern) ^ 0xff_ffff);
    }
}
