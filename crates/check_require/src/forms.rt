//! The forms of the values of members: a form reads a value, or refuses it.

ghost use Rattle.std.specs.Prelude.{◌≡◌, [], IfOk, map, option_map};
ghost use Rattle.serde_json.specs.View.{view};
ghost use Rattle.check_require.specs.Forms.{allowance_form, allowance_named, allowances_form, allowed_caveat, allowed_caveats_form, caveat_form, effect_form, effect_named, read_after, session_form, session_named, values_in, version_form, version_named};

use crate::CaveatName;
use crate::requirement::{Allowance, AllowedCaveat, SessionAsk, VersionAsk, WantedEffect};
use serde_json::Value;
use std::alloc::{AllocError, Global};
use text_words::behind_word;

/// The values of a list.
fn values(value: &Value) -> Option<&[Value]>
    ensures { option_map (λ values. map view values.now) result ≡ values_in (view value.now) }
{
    Some(value.as_array()?.as_slice())
}

/// What a word says that an update is for.
fn effect_named(word: &str) -> Option<WantedEffect>
    ensures { result ≡ effect_named word.now }
{
    match word {
        "image" => Some(WantedEffect::Image),
        "table" => Some(WantedEffect::Table),
        "flash" => Some(WantedEffect::Flash),
        "none" => Some(WantedEffect::Nothing),
        _ => None,
    }
}

pub(crate) fn effect_form(value: &Value) -> Option<WantedEffect>
    ensures { result ≡ effect_form (view value.now) }
{
    effect_named(value.as_str()?)
}

/// Which versions a word lets come.
fn version_named(word: &str) -> Option<VersionAsk>
    ensures { result ≡ version_named word.now }
{
    match word {
        "up" => Some(VersionAsk::Up),
        "same" => Some(VersionAsk::Same),
        "any" => Some(VersionAsk::Any),
        _ => None,
    }
}

pub(crate) fn version_form(value: &Value) -> Option<VersionAsk>
    ensures { result ≡ version_form (view value.now) }
{
    version_named(value.as_str()?)
}

/// The law of a session that a word asks for.
fn session_named(word: &str) -> Option<SessionAsk>
    ensures { result ≡ session_named word.now }
{
    match word {
        "staged" => Some(SessionAsk::Staged),
        "gated" => Some(SessionAsk::Gated),
        "confined" => Some(SessionAsk::Confined),
        "any" => Some(SessionAsk::Any),
        _ => None,
    }
}

pub(crate) fn session_form(value: &Value) -> Option<SessionAsk>
    ensures { result ≡ session_form (view value.now) }
{
    session_named(value.as_str()?)
}

/// What a word allows a loss of power to leave.
fn allowance_named(word: &str) -> Option<Allowance>
    ensures { result ≡ allowance_named word.now }
{
    match word {
        "whole" => Some(Allowance::Whole),
        "tail" => Some(Allowance::Tail),
        "mixed" => Some(Allowance::Mixed),
        "bootsel" => Some(Allowance::Bootsel),
        "raising" => Some(Allowance::Raising),
        _ => None,
    }
}

fn allowance_form(value: &Value) -> Option<Allowance>
    ensures { result ≡ allowance_form (view value.now) }
{
    allowance_named(value.as_str()?)
}

/// The caveat that a text allows: a name, or `cuts:` and a name.
fn allowed_caveat(text: &[u8]) -> Option<AllowedCaveat>
    ensures { result ≡ allowed_caveat text.now }
{
    match behind_word(text, b"cuts:".as_slice()) {
        Some(rest) => Some(AllowedCaveat {
            name: CaveatName::named(rest)?,
            only_in_cuts: true,
        }),
        None => Some(AllowedCaveat {
            name: CaveatName::named(text)?,
            only_in_cuts: false,
        }),
    }
}

fn caveat_form(value: &Value) -> Option<AllowedCaveat>
    ensures { result ≡ caveat_form (view value.now) }
{
    allowed_caveat(value.as_str()?.as_bytes())
}

/// What a list of words allows. It fails only where memory is out.
fn allowances_of(alloc: Global, values: &[Value]) -> Result<Option<Vec<Allowance>>, AllocError>
    ensures { IfOk result (λ read. option_map (λ v. v.items) read
        ≡ read_after allowance_form [] (map view values.now)) }
{
    let mut read = Vec::new(alloc);
    for value in values {
        match allowance_form(value) {
            Some(allowance) => read.push(allowance)?,
            None => return Ok(None),
        }
    }
    Ok(Some(read))
}

pub(crate) fn allowances_form(
    alloc: Global,
    value: &Value,
) -> Result<Option<Vec<Allowance>>, AllocError>
    ensures { IfOk result (λ read. option_map (λ v. v.items) read
        ≡ allowances_form (view value.now)) }
{
    match values(value) {
        Some(values) => allowances_of(alloc, values),
        None => Ok(None),
    }
}

/// The caveats that a list of texts allows. It fails only where memory is out.
fn allowed_caveats_of(
    alloc: Global,
    values: &[Value],
) -> Result<Option<Vec<AllowedCaveat>>, AllocError>
    ensures { IfOk result (λ read. option_map (λ v. v.items) read
        ≡ read_after caveat_form [] (map view values.now)) }
{
    let mut read = Vec::new(alloc);
    for value in values {
        match caveat_form(value) {
            Some(caveat) => read.push(caveat)?,
            None => return Ok(None),
        }
    }
    Ok(Some(read))
}

pub(crate) fn allowed_caveats_form(
    alloc: Global,
    value: &Value,
) -> Result<Option<Vec<AllowedCaveat>>, AllocError>
    ensures { IfOk result (λ read. option_map (λ v. v.items) read
        ≡ allowed_caveats_form (view value.now)) }
{
    match values(value) {
        Some(values) => allowed_caveats_of(alloc, values),
        None => Ok(None),
    }
}
