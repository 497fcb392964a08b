//! The spec of a sealed image, from a text.

ghost use Rattle.std.specs.Prelude.{◌≡◌, ◌≢◌, ◌≤◌, [], length, map, None, Ok, Err, IfOk, IfErr};
ghost use Rattle.serde_json.specs.Data.{Data};
ghost use Rattle.serde_json.specs.View.{view};
ghost use Rattle.table_json.specs.Members.{required, optional};
ghost use Rattle.table_json.specs.Seals.{processor_form, rollback_form, rows_after, listed_rows, rows_form, no_rows, spec_from};
ghost use Rattle.table_json.specs.Texts.{IsJsonText};

use crate::forms::{half_word, values};
use crate::members::{Shape, judge_object};
use crate::partitions::truth;
use crate::reading::read;
use crate::tables::version;
use crate::{Field, JsonFault, Place};
use arrayvec::ArrayVec;
use image_pack::SealSpec;
use pico_board::Cpu;
use serde_json::Value;
use std::alloc::Global;

/// The processor of a value.
fn processor_form(value: &Value) -> Option<Cpu>
    ensures { result ≡ processor_form (view value.now) }
{
    Cpu::named(value.as_str()?)
}

/// The rows of at most 32 values.
fn few_rows(values: &[Value]) -> Option<ArrayVec<u16, 32>>
    requires { length values.now ≤ 32 }
    ensures { result ≡ rows_after [] (map view values.now) }
{
    let mut rows = ArrayVec::new();
    for value in values {
        rows.push(half_word(value)?);
    }
    Some(rows)
}

/// The rows of a list of at most 32.
fn listed_rows(values: &[Value]) -> Option<ArrayVec<u16, 32>>
    ensures { result ≡ listed_rows (map view values.now) }
{
    if values.len() <= 32 {
        few_rows(values)
    } else {
        None
    }
}

/// The rows of a value.
fn rows_form(value: &Value) -> Option<ArrayVec<u16, 32>>
    ensures { result ≡ rows_form (view value.now) }
{
    listed_rows(values(value)?)
}

/// The processor.
fn processor(object: &Value) -> Result<Cpu, JsonFault>
    ensures { result ≡ required processor_form Place.Top Field.Processor (view object.now) }
{
    match object.get(Field::Processor.name()) {
        None => Err(JsonFault::Missing(Place::Top, Field::Processor)),
        Some(value) => match processor_form(value) {
            Some(cpu) => Ok(cpu),
            None => Err(JsonFault::Value(Place::Top, Field::Processor)),
        },
    }
}

/// The rollback version.
fn rollback(object: &Value) -> Result<Option<u16>, JsonFault>
    ensures { result ≡ optional rollback_form None Place.Top Field.Rollback (view object.now) }
{
    match object.get(Field::Rollback.name()) {
        None => Ok(None),
        Some(value) => match half_word(value) {
            Some(version) => Ok(Some(version)),
            None => Err(JsonFault::Value(Place::Top, Field::Rollback)),
        },
    }
}

/// The rollback rows.
fn rows(object: &Value) -> Result<ArrayVec<u16, 32>, JsonFault>
    ensures { result ≡ optional rows_form no_rows Place.Top Field.Rows (view object.now) }
{
    match object.get(Field::Rows.name()) {
        None => Ok(ArrayVec::new()),
        Some(value) => match rows_form(value) {
            Some(rows) => Ok(rows),
            None => Err(JsonFault::Value(Place::Top, Field::Rows)),
        },
    }
}

/// The spec of a text's value, or its first fault.
fn spec_in(value: &Value) -> Result<SealSpec, JsonFault>
    ensures { result ≡ spec_from (view value.now) }
{
    judge_object(value, Shape::OfSpec, Place::Top, Field::Processor)?;
    Ok(SealSpec {
        cpu: processor(value)?,
        version: version(value)?,
        rollback: rollback(value)?,
        rows: rows(value)?,
        trial: truth(value, Place::Top, Field::Trial)?,
    })
}

/// The spec of a sealed image of a JSON text, or its first fault. NotJson comes exactly where the
/// bytes are not UTF-8 or no JSON value that nests at most 127 deep. Else the first fault of the
/// value's object comes. Where there is no memory the answer is `Memory`. The texts are this
/// project's own.
pub fn spec_of(alloc: Global, text: &[u8]) -> Result<SealSpec, JsonFault>
    ensures spec { IfOk result (λ spec. (d : Data) × IsJsonText text.now d
        × (spec_from d ≡ Ok spec)) }
    ensures first { IfErr result
        (λ fault. fault ≢ JsonFault.NotJson → fault ≢ JsonFault.Memory
        → (d : Data) × IsJsonText text.now d × (spec_from d ≡ Err fault)) }
    ensures not_json { result ≡ Err JsonFault.NotJson → (d : Data) → IsJsonText text.now d → ⊥ }
    ensures exact { (d : Data) → IsJsonText text.now d → result ≢ Err JsonFault.Memory
        → result ≡ spec_from d }
{
    let value = read(alloc, text)?;
    spec_in(&value)
}
