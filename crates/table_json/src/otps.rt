//! The OTP of a board, from a text.

ghost use Rattle.std.specs.Prelude.{◌≡◌, ◌≢◌, ◌≤◌, ◌^◌, [], length, map, Option, None, Ok, Err, IfOk, IfErr, option_and_then};
ghost use Rattle.serde_json.specs.Data.{Data};
ghost use Rattle.serde_json.specs.View.{view};
ghost use Rattle.table_json.specs.Forms.{if_below, number_in, number_or_text};
ghost use Rattle.table_json.specs.Members.{optional};
ghost use Rattle.table_json.specs.Otps.{exponent_of, if_listed, listed_pairs, otp_answer, otp_from, otp_spec_from, pair_form, pair_in, pairs_after, pairs_form, pairs_read, rows_answer, size_form};
ghost use Rattle.table_json.specs.OtpRules.{IsSound};
ghost use Rattle.table_json.specs.Texts.{IsJsonText};

use crate::forms::{number_or_text, values};
use crate::members::{Shape, judge_object};
use crate::partitions::truth;
use crate::reading::read;
use crate::{Field, JsonFault, Place};
use otp_roll::{BOOT_FLAGS, SLOT_SIZE_ROW};
use pico_board::{ROWS, SECTOR};
use serde_json::Value;
use std::alloc::{AllocError, Global};

/// The most rows that may be listed.
pub const MOST_LISTED: usize = 4096;
/// How many slot sizes there are: 4096 times 2 to 0, to 1 and so on.
pub const SLOT_EXPONENTS: u32 = 12;

/// A row of an OTP, and its value.
#[derive(Clone, Copy, PartialEq, Eq, Debug)]
pub struct OtpRow {
    /// The row.
    pub row: u16,
    /// Its value, below 2^24.
    pub value: u32,
}

/// What a text says of the OTP of a board.
#[derive(Drop)]
pub struct OtpSpec {
    /// Whether rollback versions are required.
    pub rollback_required: bool,
    /// Whether flash boot is off.
    pub flash_off: bool,
    /// The exponent of the slot size of a flash without a table. The slot size is 4096 times 2 to
    /// the power of this exponent.
    pub slot_exponent: u32,
    /// Rows and their values. Of a row that comes twice the later value counts.
    pub rows: Vec<OtpRow>,
    /// Whether secure boot is on.
    pub secure_boot: bool,
}

/// The exponent of a slot size.
#[tactic(auto, unfolding(crate::specs::Otps::exponent_of))]
fn exponent_of(size: u64) -> Option<u32>
    ensures { result ≡ exponent_of size }
{
    for exponent in 0..SLOT_EXPONENTS {
        if size == (SECTOR as u64) << exponent {
            return Some(exponent);
        }
    }
    None
}

/// The exponent of the slot size of a value.
fn size_form(value: &Value) -> Option<u32>
    ensures { result ≡ size_form (view value.now) }
{
    exponent_of(value.as_u64()?)
}

/// A row that may be listed: one of the 4096, but not that of the boot flags or of the slot size.
fn if_listed(row: u64) -> Option<u16>
    ensures { result ≡ if_listed row }
{
    if row < ROWS as u64 && row != BOOT_FLAGS as u64 && row != SLOT_SIZE_ROW as u64 {
        Some(row as u16)
    } else {
        None
    }
}

/// The row of a value, where it may be listed.
fn row_in(value: &Value) -> Option<u16>
    ensures { result ≡ option_and_then if_listed (number_or_text (view value.now)) }
{
    if_listed(number_or_text(value)?)
}

/// The 24 bits of a value.
fn word_in(value: &Value) -> Option<u32>
    ensures { result ≡ option_and_then (if_below (2 ^ 24)) (number_or_text (view value.now)) }
{
    let number = number_or_text(value)?;
    if number < 1 << 24 {
        Some(number as u32)
    } else {
        None
    }
}

/// The row and the value of two values.
fn pair_in(values: &[Value]) -> Option<OtpRow>
    ensures { result ≡ pair_in (map view values.now) }
{
    match values {
        [row, value] => Some(OtpRow {
            row: row_in(row)?,
            value: word_in(value)?,
        }),
        _ => None,
    }
}

/// The row and the value of a pair.
fn pair_form(value: &Value) -> Option<OtpRow>
    ensures { result ≡ pair_form (view value.now) }
{
    pair_in(values(value)?)
}

/// The pairs of values, or none where one is no pair. It fails only where memory is out.
fn pairs_of(alloc: Global, values: &[Value]) -> Result<Option<Vec<OtpRow>>, AllocError>
    ensures { IfOk result (λ pairs. pairs_read pairs
        ≡ pairs_after [] (map view values.now)) }
{
    let mut pairs = Vec::new(alloc);
    for value in values {
        match pair_form(value) {
            Some(pair) => pairs.push(pair)?,
            None => return Ok(None),
        }
    }
    Ok(Some(pairs))
}

/// The pairs of a list of at most 4096. It fails only where memory is out.
fn listed_pairs(alloc: Global, values: &[Value]) -> Result<Option<Vec<OtpRow>>, AllocError>
    ensures { IfOk result (λ pairs. pairs_read pairs
        ≡ listed_pairs (map view values.now)) }
{
    if values.len() <= MOST_LISTED {
        pairs_of(alloc, values)
    } else {
        Ok(None)
    }
}

/// The pairs of a value. It fails only where memory is out.
fn pairs_form(alloc: Global, value: &Value) -> Result<Option<Vec<OtpRow>>, AllocError>
    ensures { IfOk result (λ pairs. pairs_read pairs
        ≡ pairs_form (view value.now)) }
{
    match values(value) {
        Some(values) => listed_pairs(alloc, values),
        None => Ok(None),
    }
}

/// The exponent of the slot size, that of 4096 where it is absent.
fn slot_exponent(object: &Value) -> Result<u32, JsonFault>
    ensures { result ≡ optional size_form 0 Place.Top Field.SlotSize (view object.now) }
{
    match object.get(Field::SlotSize.name()) {
        None => Ok(0),
        Some(value) => match size_form(value) {
            Some(exponent) => Ok(exponent),
            None => Err(JsonFault::Value(Place::Top, Field::SlotSize)),
        },
    }
}

/// The rows and their values. Where there is no memory the answer is `Memory`.
fn rows(alloc: Global, object: &Value) -> Result<Vec<OtpRow>, JsonFault>
    ensures { result ≢ Err JsonFault.Memory → rows_answer result
        ≡ optional pairs_form [] Place.Top Field.Rows (view object.now) }
{
    match object.get(Field::Rows.name()) {
        None => Ok(Vec::new(alloc)),
        Some(value) => match pairs_form(alloc, value) {
            Ok(Some(rows)) => Ok(rows),
            Ok(None) => Err(JsonFault::Value(Place::Top, Field::Rows)),
            Err(_) => Err(JsonFault::Memory),
        },
    }
}

/// The OTP of a text's value, or its first fault. Where there is no memory the answer is `Memory`.
fn otp_in(alloc: Global, value: &Value) -> Result<OtpSpec, JsonFault>
    ensures { result ≢ Err JsonFault.Memory
        → otp_answer result ≡ otp_from (view value.now) }
{
    judge_object(value, Shape::OfOtp, Place::Top, Field::RollbackRequired)?;
    Ok(OtpSpec {
        rollback_required: truth(value, Place::Top, Field::RollbackRequired)?,
        flash_off: truth(value, Place::Top, Field::FlashOff)?,
        slot_exponent: slot_exponent(value)?,
        rows: rows(alloc, value)?,
        secure_boot: truth(value, Place::Top, Field::SecureBoot)?,
    })
}

/// What a text says of an OTP, or its first fault.
fn judged_otp(alloc: Global, text: &[u8]) -> Result<OtpSpec, JsonFault>
    ensures spec { IfOk result (λ spec. (d : Data) × IsJsonText text.now d
        × (otp_from d ≡ Ok (otp_spec_from spec))) }
    ensures first { IfErr result
        (λ fault. fault ≢ JsonFault.NotJson → fault ≢ JsonFault.Memory
        → (d : Data) × IsJsonText text.now d × (otp_from d ≡ Err fault)) }
    ensures not_json { result ≡ Err JsonFault.NotJson → (d : Data) → IsJsonText text.now d → ⊥ }
    ensures exact { (d : Data) → IsJsonText text.now d → result ≢ Err JsonFault.Memory
        → otp_answer result ≡ otp_from d }
{
    let value = read(alloc, text)?;
    otp_in(alloc, &value)
}

/// What a JSON text says of the OTP of a board, or its first fault. NotJson comes exactly where
/// the bytes are not UTF-8 or no JSON value that nests at most 127 deep. Else the first fault of
/// the value's object comes. Where there is no memory the answer is `Memory`. The texts are this
/// project's own.
pub fn otp_spec_of(alloc: Global, text: &[u8]) -> Result<OtpSpec, JsonFault>
    ensures spec { IfOk result (λ spec. (d : Data) × IsJsonText text.now d
        × (otp_from d ≡ Ok (otp_spec_from spec))) }
    ensures sound { IfOk result (λ spec. IsSound (otp_spec_from spec)) }
    ensures first { IfErr result
        (λ fault. fault ≢ JsonFault.NotJson → fault ≢ JsonFault.Memory
        → (d : Data) × IsJsonText text.now d × (otp_from d ≡ Err fault)) }
    ensures not_json { result ≡ Err JsonFault.NotJson → (d : Data) → IsJsonText text.now d → ⊥ }
    ensures exact { (d : Data) → IsJsonText text.now d → result ≢ Err JsonFault.Memory
        → otp_answer result ≡ otp_from d }
{
    judged_otp(alloc, text)
}
