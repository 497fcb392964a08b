//! The table of a text.

ghost use Rattle.std.specs.Prelude.{◌≡◌, ◌≢◌, ◌↔◌, ◌≤◌, ◌<◌, ℕ, Result, length, map, All, None, Ok, Err, IfSome, IfOk, OnOk, IfErr, option_map};
ghost use Rattle.serde_json.specs.Data.{Data};
ghost use Rattle.serde_json.specs.View.{view};
ghost use Rattle.part_table.specs.Faults.{table_fault};
ghost use Rattle.part_table.specs.Judged.{IsJudgedAs};
ghost use Rattle.part_table.specs.Written.{AgreesWithFlags, IsReadAs, written_table, written_size};
ghost use Rattle.table_json.specs.Members.{optional};
ghost use Rattle.table_json.specs.Forms.{version_form};
ghost use Rattle.table_json.specs.Tables.{no_version, few_form, table_fields, judged, table_of_value};
ghost use Rattle.table_json.specs.Texts.{IsJsonText};
ghost use Rattle.table_json.specs.Whole.{IsReadWith, json_answer};
ghost use Rattle.part_table.specs.declared.table.Table.{Table};
ghost use Rattle.part_table.specs.declared.table.TableFault.{TableFault};

use crate::forms::{values, version_form};
use crate::members::{Shape, judge_object};
use crate::partitions::{partitions, truth, unpartitioned};
use crate::reading::read;
use crate::{Field, JsonFault, Place};
use block_codec::Version;
use part_table::{Table, TableWriteFault, write_table};
use serde_json::Value;
use std::alloc::Global;

/// The version, 0.0 where it is absent.
pub(crate) fn version(object: &Value) -> Result<Version, JsonFault>
    ensures { result ≡ optional version_form no_version Place.Top Field.Version (view object.now) }
{
    match object.get(Field::Version.name()) {
        None => Ok(Version { major: 0, minor: 0 }),
        Some(value) => match version_form(value) {
            Some(version) => Ok(version),
            None => Err(JsonFault::Value(Place::Top, Field::Version)),
        },
    }
}

/// A list of at most 15 values.
fn few(value: &Value) -> Option<&[Value]>
    ensures value { option_map (λ values. map view values.now) result ≡ few_form (view value.now) }
    ensures few { IfSome result (λ values. length values.now ≤ 15) }
{
    let values = values(value)?;
    if values.len() <= 15 {
        Some(values)
    } else {
        None
    }
}

/// The fields of a table, or their first fault.
fn fields(value: &Value) -> Result<Table, JsonFault>
    ensures value { result ≡ table_fields (view value.now) }
    ensures agree { IfOk result (λ t. All AgreesWithFlags t.parts.items) }
{
    judge_object(value, Shape::OfTable, Place::Top, Field::Partitions)?;
    let version = version(value)?;
    let singleton = truth(value, Place::Top, Field::Singleton)?;
    let Some(outside) = value.get(Field::Unpartitioned.name()) else {
        return Err(JsonFault::Missing(Place::Top, Field::Unpartitioned));
    };
    let Some(list) = value.get(Field::Partitions.name()) else {
        return Err(JsonFault::Missing(Place::Top, Field::Partitions));
    };
    let Some(values) = few(list) else {
        return Err(JsonFault::Value(Place::Top, Field::Partitions));
    };
    let unpartitioned = unpartitioned(outside)?;
    let parts = partitions(values)?;
    Ok(Table {
        version,
        singleton,
        unpartitioned,
        parts,
    })
}

/// TooLong where the table's block would have more than 640 bytes. Where there is no memory for
/// the block, the refusal is `Memory`.
fn judge_size(alloc: Global, table: &Table) -> Result<(), JsonFault>
    requires { All AgreesWithFlags table.now.parts.items }
    ensures ok { OnOk result (written_size table.now ≤ 640) }
    ensures again { table_fault table.now 4096 2 ≡ None
        → OnOk result (IsReadAs (written_table table.now) table.now 4096 2) }
    ensures judged { OnOk result (IsJudgedAs (written_table table.now) table.now 4096 2) }
    ensures err { IfErr result (λ fault. fault ≢ JsonFault.Memory
        → (640 < written_size table.now) × (fault ≡ JsonFault.TooLong (written_size table.now))) }
{
    let mut bytes = Vec::new(alloc);
    match write_table(alloc, table, &mut bytes) {
        Ok(()) => Ok(()),
        Err(TableWriteFault::TooLong(size)) => Err(JsonFault::TooLong(size)),
        Err(TableWriteFault::Memory) => Err(JsonFault::Memory),
    }
}

/// The table of a text's value, or its first fault.
fn table_in(alloc: Global, value: &Value) -> Result<Table, JsonFault>
    ensures value { result ≢ Err JsonFault.Memory → result ≡ table_of_value (view value.now) }
    ensures agree { IfOk result (λ t. All AgreesWithFlags t.parts.items) }
    ensures fits { IfOk result (λ t. written_size t ≤ 640) }
    ensures faultless { IfOk result (λ t. table_fault t 4096 2 ≡ None) }
    ensures again { IfOk result (λ t. IsReadAs (written_table t) t 4096 2) }
    ensures judged { (t : Table) → table_fields (view value.now) ≡ Ok t → written_size t ≤ 640
        → result ≢ Err JsonFault.Memory → IsJudgedAs (written_table t) t 4096 2 }
{
    let table = fields(value)?;
    judge_size(alloc, &table)?;
    match table.fault(4096, 2) {
        None => Ok(table),
        Some(fault) => Err(JsonFault::Table(fault)),
    }
}

/// The table of a JSON text, or its first fault, in this order:
/// - NotJson exactly where the bytes are not UTF-8 or no JSON value that nests at most 127 deep
/// - the first fault of the value's objects: the top one first, then `unpartitioned`, then the
///   partitions in order
/// - TooLong where the table's block would have more than 640 bytes
/// - the first fault of the table in a flash of 4096 sectors, where the first two are not free
///
/// Where there is no memory the answer is `Memory`. The texts are this project's own.
pub fn table_of(alloc: Global, text: &[u8]) -> Result<Table, JsonFault>
    ensures table { IfOk result
        (λ t. (d : Data) × IsJsonText text.now d × (table_of_value d ≡ Ok t)) }
    ensures first { IfErr result
        (λ fault. fault ≢ JsonFault.NotJson → fault ≢ JsonFault.Memory
        → (d : Data) × IsJsonText text.now d × (table_of_value d ≡ Err fault)) }
    ensures not_json { result ≡ Err JsonFault.NotJson → (d : Data) → IsJsonText text.now d → ⊥ }
    ensures exact { (d : Data) → IsJsonText text.now d → result ≢ Err JsonFault.Memory
        → result ≡ table_of_value d }

    // The table's block can be written, and its partitions have no fault. The table is read again
    // from what is written for it.
    ensures agree { IfOk result (λ t. All AgreesWithFlags t.parts.items) }
    ensures fits { IfOk result (λ t. written_size t ≤ 640) }
    ensures faultless { IfOk result (λ t. table_fault t 4096 2 ≡ None) }
    ensures again { IfOk result (λ t. IsReadAs (written_table t) t 4096 2) }

    // Where the fields say a table with a block of at most 640 bytes, the answer is exactly what
    // reading that block in such a flash answers.
    ensures whole { (d : Data) (t : Table) (answer : Result Table TableFault)
        → IsJsonText text.now d
        → table_fields d ≡ Ok t → written_size t ≤ 640 → result ≢ Err JsonFault.Memory
        → (result ≡ json_answer answer) ↔ IsReadWith (written_table t) answer }
{
    let value = read(alloc, text)?;
    table_in(alloc, &value)
}
