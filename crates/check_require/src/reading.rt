//! What is asked of an update, from a text.

ghost use Rattle.std.specs.Prelude.{◌≡◌, ◌≢◌, ◌⊎◌, Ok, Err, IfOk, IfErr};
ghost use Rattle.serde_json.specs.Data.{Data};
ghost use Rattle.serde_json.specs.Find.{as_bool};
ghost use Rattle.serde_json.specs.View.{view};
ghost use Rattle.check_require.specs.Forms.{allowances_form, allowed_caveats_form, effect_form, session_form, version_form};
ghost use Rattle.check_require.specs.Texts.{IsRequireFault, IsRequireText, require_read};
ghost use Rattle.check_require.specs.Requires.{IsJsonText, allowed_of, asked, default_caveats, default_require, items_answer, object_judged, require_answer, require_from, require_of_value};

use crate::Member;
use crate::caveats::{CAVEAT_NAMES, CaveatName};
use crate::forms::{
    allowances_form, allowed_caveats_form, effect_form, session_form, version_form,
};
use crate::members::has_unknown;
use crate::requirement::{
    Allowance, AllowedCaveat, Require, RequireFault, SessionAsk, VersionAsk, WantedEffect,
};
use serde_json::Value;
use std::alloc::{AllocError, Global};

/// The value of a text; or NotJson where the text is that of no value; or Memory where there is no
/// memory.
fn read(alloc: Global, text: &[u8]) -> Result<Value, RequireFault>
    ensures value { IfOk result (λ v. IsJsonText text.now (view v)) }
    ensures not_json { result ≡ Err RequireFault.NotJson → (d : Data) → IsJsonText text.now d → ⊥ }
    ensures faults { IfErr result
        (λ fault. (fault ≡ RequireFault.NotJson) ⊎ (fault ≡ RequireFault.Memory)) }
{
    match Value::from_slice(alloc, text) {
        Ok(value) => Ok(value),
        Err(error) if error.is_memory() => Err(RequireFault::Memory),
        Err(_) => Err(RequireFault::NotJson),
    }
}

/// Value where there is no object, and Unknown where a member is not listed.
fn judge_object(value: &Value) -> Result<(), RequireFault>
    ensures { result ≡ object_judged (view value.now) }
{
    match value.as_object() {
        None => Err(RequireFault::Value(Member::Effect)),
        Some(members) if has_unknown(members) => Err(RequireFault::Unknown),
        Some(_) => Ok(()),
    }
}

/// The truth value of a member.
fn truth(object: &Value, member: Member, default: bool) -> Result<bool, RequireFault>
    ensures { result ≡ asked as_bool default member (view object.now) }
{
    match object.get(member.name()) {
        None => Ok(default),
        Some(value) => value.as_bool().ok_or(RequireFault::Value(member)),
    }
}

/// What the update is for.
fn effect(object: &Value) -> Result<WantedEffect, RequireFault>
    ensures { result ≡ asked effect_form default_require.effect Member.Effect (view object.now) }
{
    match object.get(Member::Effect.name()) {
        None => Ok(WantedEffect::Image),
        Some(value) => effect_form(value).ok_or(RequireFault::Value(Member::Effect)),
    }
}

/// Which versions may come.
fn version(object: &Value) -> Result<VersionAsk, RequireFault>
    ensures { result ≡ asked version_form default_require.version Member.Version (view object.now) }
{
    match object.get(Member::Version.name()) {
        None => Ok(VersionAsk::Any),
        Some(value) => version_form(value).ok_or(RequireFault::Value(Member::Version)),
    }
}

/// How strong a law of the session has to be.
fn session(object: &Value) -> Result<SessionAsk, RequireFault>
    ensures { result ≡ asked session_form default_require.session Member.Session (view object.now) }
{
    match object.get(Member::Session.name()) {
        None => Ok(SessionAsk::Any),
        Some(value) => session_form(value).ok_or(RequireFault::Value(Member::Session)),
    }
}

/// What a loss of power may leave where the text says nothing of it.
fn default_cuts(alloc: Global) -> Result<Vec<Allowance>, AllocError>
    ensures { IfOk result (λ cuts. cuts.items ≡ default_require.cuts) }
{
    Ok(vec![in alloc; Allowance::Whole]?)
}

/// What a loss of power may leave. Where there is no memory the answer is `Memory`.
fn cuts(alloc: Global, object: &Value) -> Result<Vec<Allowance>, RequireFault>
    ensures { result ≢ Err RequireFault.Memory → items_answer result
        ≡ asked allowances_form default_require.cuts Member.Cuts (view object.now) }
{
    match object.get(Member::Cuts.name()) {
        None => default_cuts(alloc).map_err(|_| RequireFault::Memory),
        Some(value) => match allowances_form(alloc, value) {
            Ok(Some(cuts)) => Ok(cuts),
            Ok(None) => Err(RequireFault::Value(Member::Cuts)),
            Err(_) => Err(RequireFault::Memory),
        },
    }
}

/// Of these caveats those that may come where the text says nothing of them.
fn allowed_of(alloc: Global, names: &[CaveatName]) -> Result<Vec<AllowedCaveat>, AllocError>
    ensures { IfOk result (λ caveats. caveats.items ≡ allowed_of names.now) }
{
    let mut caveats = Vec::new(alloc);
    for &name in names {
        if !name.is_of_files() {
            caveats.push(AllowedCaveat {
                name,
                only_in_cuts: false,
            })?;
        }
    }
    Ok(caveats)
}

/// The caveats that may come where the text says nothing of them.
fn default_caveats(alloc: Global) -> Result<Vec<AllowedCaveat>, AllocError>
    ensures { IfOk result (λ caveats. caveats.items ≡ default_caveats) }
{
    allowed_of(alloc, &CAVEAT_NAMES)
}

/// The caveats that may come. Where there is no memory the answer is `Memory`.
fn caveats(alloc: Global, object: &Value) -> Result<Vec<AllowedCaveat>, RequireFault>
    ensures { result ≢ Err RequireFault.Memory → items_answer result
        ≡ asked allowed_caveats_form default_require.caveats Member.Caveats (view object.now) }
{
    match object.get(Member::Caveats.name()) {
        None => default_caveats(alloc).map_err(|_| RequireFault::Memory),
        Some(value) => match allowed_caveats_form(alloc, value) {
            Ok(Some(caveats)) => Ok(caveats),
            Ok(None) => Err(RequireFault::Value(Member::Caveats)),
            Err(_) => Err(RequireFault::Memory),
        },
    }
}

/// What a text's value asks, or its first fault. Where there is no memory the answer is `Memory`.
fn require_in(alloc: Global, value: &Value) -> Result<Require, RequireFault>
    ensures { result ≢ Err RequireFault.Memory
        → require_answer result ≡ require_of_value (view value.now) }
{
    judge_object(value)?;
    Ok(Require {
        effect: effect(value)?,
        records: truth(value, Member::Records, true)?,
        written: truth(value, Member::Written, true)?,
        keep: truth(value, Member::Keep, true)?,
        whole_data: truth(value, Member::Data, true)?,
        cuts: cuts(alloc, value)?,
        version: version(value)?,
        fallback: truth(value, Member::Fallback, false)?,
        again: truth(value, Member::Again, false)?,
        covered: truth(value, Member::Covered, true)?,
        hash: truth(value, Member::Hash, false)?,
        no_rows: truth(value, Member::NoRows, false)?,
        session: session(value)?,
        boot: truth(value, Member::Boot, false)?,
        buy: truth(value, Member::Buy, false)?,
        caveats: caveats(alloc, value)?,
    })
}

/// What a text's one value asks, or its first fault.
fn read_require(alloc: Global, text: &[u8]) -> Result<Require, RequireFault>
    ensures asks { IfOk result (λ r. (d : Data) × IsJsonText text.now d
        × (require_of_value d ≡ Ok (require_from r))) }
    ensures first { IfErr result
        (λ fault. fault ≢ RequireFault.NotJson → fault ≢ RequireFault.Memory
        → (d : Data) × IsJsonText text.now d × (require_of_value d ≡ Err fault)) }
    ensures not_json { result ≡ Err RequireFault.NotJson → (d : Data) → IsJsonText text.now d → ⊥ }
    ensures exact { (d : Data) → IsJsonText text.now d → result ≢ Err RequireFault.Memory
        → require_answer result ≡ require_of_value d }
{
    let value = read(alloc, text)?;
    require_in(alloc, &value)
}

/// What a JSON text asks of an update, or its first fault. NotJson comes exactly where the bytes
/// are not UTF-8 or no JSON value that nests at most 127 deep. Else the first fault of the value's
/// object comes, its members judged in the order of [`MEMBERS`](crate::MEMBERS). Where there is no
/// memory the answer is `Memory`. The texts are this project's own.
pub fn require_of(alloc: Global, text: &[u8]) -> Result<Require, RequireFault>
    ensures function { result ≢ Err RequireFault.Memory
        → require_answer result ≡ require_read text.now }
    ensures asks { IfOk result (λ r. IsRequireText text.now (require_from r)) }
    ensures first { IfErr result
        (λ fault. fault ≢ RequireFault.Memory → IsRequireFault text.now fault) }
{
    read_require(alloc, text)
}

/// What is asked of an update where there is no text. It fails only where memory is out.
pub fn default_require(alloc: Global) -> Result<Require, AllocError>
    ensures { IfOk result (λ r. require_from r ≡ default_require) }
{
    Ok(Require {
        effect: WantedEffect::Image,
        records: true,
        written: true,
        keep: true,
        whole_data: true,
        cuts: default_cuts(alloc)?,
        version: VersionAsk::Any,
        fallback: false,
        again: false,
        covered: true,
        hash: false,
        no_rows: false,
        session: SessionAsk::Any,
        boot: false,
        buy: false,
        caveats: default_caveats(alloc)?,
    })
}
