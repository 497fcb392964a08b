//! The values of JSON texts: specs of sealed images, tables and OTPs; and the texts of their
//! faults.

ghost use Rattle.std.specs.Prelude.{◌≡◌, ◌≢◌, ◌≤◌, All, Some, Ok, Err, IfOk, string_bytes};
ghost use Rattle.cli_course.specs.Outcomes.{refused};
ghost use Rattle.part_table.specs.Written.{AgreesWithFlags, written_size};
ghost use Rattle.cli_inputs.specs.Inputs.{IsJudged, Tells};
ghost use Rattle.cli_inputs.specs.JsonTexts.{object_text, json_member_text, table_fault_text, json_text};
ghost use Rattle.cli_inputs.specs.Jsons.{spec_read, table_read, otp_read};
ghost use Rattle.table_json.specs.Otps.{otp_answer, otp_spec_from};
ghost use Rattle.table_json.specs.OtpRules.{IsSound};

use crate::fail::{InputFail, judge_length, refuse};
use crate::forms::Form;
use crate::values::{JsonOtp, JsonTable};
use image_pack::SealSpec;
use part_table::{Table, TableFault};
use std::alloc::{AllocError, Global};
use table_json::{Field, JsonFault, OtpSpec, Place, otp_spec_of, spec_of, table_of};

/// An object of a text.
fn object_text(alloc: Global, place: Place) -> Result<String, AllocError>
    ensures { IfOk result (λ t. string_bytes t ≡ object_text place) }
{
    match place {
        Place::Top => format!(in alloc; "top"),
        Place::Unpartitioned => format!(in alloc; "unpartitioned"),
        Place::Partition(i) => format!(in alloc; "partition {i}"),
    }
}

/// A member of an object.
fn json_member_text(alloc: Global, place: Place, field: Field) -> Result<String, AllocError>
    ensures { IfOk result (λ t. string_bytes t ≡ json_member_text place field) }
{
    let place = object_text(alloc, place)?;
    let name = field.name();
    format!(in alloc; "{place} {name}")
}

/// The fault of a table. It fails only where memory is out.
pub fn table_fault_text(alloc: Global, fault: TableFault) -> Result<String, AllocError>
    ensures { IfOk result (λ t. string_bytes t ≡ table_fault_text fault) }
{
    match fault {
        TableFault::BadItem => format!(in alloc; "bad-item"),
        TableFault::Permissions(i) => format!(in alloc; "permissions {i}"),
        TableFault::Range(i) => format!(in alloc; "range {i}"),
        TableFault::Overlap(i, j) => format!(in alloc; "overlap {i} {j}"),
        TableFault::Link(i) => format!(in alloc; "link {i}"),
        TableFault::Hash => format!(in alloc; "hash"),
    }
}

/// An object with a member that is not listed for it.
fn unknown_text(alloc: Global, place: Place) -> Result<String, AllocError>
    ensures { IfOk result (λ t. string_bytes t ≡ json_text (JsonFault.Unknown place)) }
{
    let place = object_text(alloc, place)?;
    format!(in alloc; "unknown {place}")
}

/// An object without a member.
fn missing_text(alloc: Global, place: Place, field: Field) -> Result<String, AllocError>
    ensures { IfOk result (λ t. string_bytes t ≡ json_text (JsonFault.Missing place field)) }
{
    let member = json_member_text(alloc, place, field)?;
    format!(in alloc; "missing {member}")
}

/// A member of another form.
fn value_text(alloc: Global, place: Place, field: Field) -> Result<String, AllocError>
    ensures { IfOk result (λ t. string_bytes t ≡ json_text (JsonFault.Value place field)) }
{
    let member = json_member_text(alloc, place, field)?;
    format!(in alloc; "value {member}")
}

/// The fault of a text.
fn json_text(alloc: Global, fault: JsonFault) -> Result<String, AllocError>
    ensures { IfOk result (λ t. string_bytes t ≡ json_text fault) }
{
    match fault {
        JsonFault::NotJson => format!(in alloc; "not-json"),
        JsonFault::Unknown(place) => unknown_text(alloc, place),
        JsonFault::Missing(place, field) => missing_text(alloc, place, field),
        JsonFault::Value(place, field) => value_text(alloc, place, field),
        JsonFault::TooLong(size) => format!(in alloc; "too-long {size}"),
        JsonFault::Table(fault) => {
            let fault = table_fault_text(alloc, fault)?;
            format!(in alloc; "table {fault}")
        }
        JsonFault::Memory => format!(in alloc; "memory"),
    }
}

/// The spec of a text, or its first fault, or `Memory`.
fn exact_spec(alloc: Global, text: &[u8]) -> Result<SealSpec, JsonFault>
    ensures { result ≢ Err JsonFault.Memory → result ≡ spec_read text.now }
{
    spec_of(alloc, text)
}

/// The table of a text, or its first fault, or `Memory`.
fn exact_table(alloc: Global, text: &[u8]) -> Result<Table, JsonFault>
    ensures value { result ≢ Err JsonFault.Memory → result ≡ table_read text.now }
    ensures agree { IfOk result (λ t. All AgreesWithFlags t.parts.items) }
    ensures fits { IfOk result (λ t. written_size t ≤ 640) }
{
    table_of(alloc, text)
}

/// The OTP of a text, or its first fault, or `Memory`.
fn exact_otp(alloc: Global, text: &[u8]) -> Result<OtpSpec, JsonFault>
    ensures value { result ≢ Err JsonFault.Memory → otp_answer result ≡ otp_read text.now }
    ensures sound { IfOk result (λ spec. IsSound (otp_spec_from spec)) }
{
    otp_spec_of(alloc, text)
}

/// The text of a fault, which refuses an input by its argument.
fn refuse_text(alloc: Global, name: &str, fault: JsonFault) -> InputFail
    ensures { Tells result (Some (refused name.now (json_text fault))) }
{
    match json_text(alloc, fault) {
        Ok(text) => refuse(alloc, name, &text),
        Err(_) => InputFail::Memory,
    }
}

/// The spec of a text.
pub fn read_spec(alloc: Global, name: &str, text: &[u8]) -> Result<SealSpec, InputFail>
    ensures value { IfOk result (λ spec. spec_read text.now ≡ Ok spec) }
    ensures judged { IsJudged result (record { name = name.now; form = Form.Spec }) text.now }
{
    judge_length(alloc, Form::Spec, name, text)?;
    match exact_spec(alloc, text) {
        Ok(spec) => Ok(spec),
        Err(JsonFault::Memory) => Err(InputFail::Memory),
        Err(fault) => Err(refuse_text(alloc, name, fault)),
    }
}

/// The table of a text.
pub fn read_table(alloc: Global, name: &str, text: &[u8]) -> Result<JsonTable, InputFail>
    ensures value { IfOk result (λ json. table_read text.now ≡ Ok json.table) }
    ensures judged { IsJudged result (record { name = name.now; form = Form.Json }) text.now }
{
    judge_length(alloc, Form::Json, name, text)?;
    match exact_table(alloc, text) {
        Ok(table) => Ok(JsonTable { table }),
        Err(JsonFault::Memory) => Err(InputFail::Memory),
        Err(fault) => Err(refuse_text(alloc, name, fault)),
    }
}

/// What a text says of an OTP.
pub fn read_otp(alloc: Global, name: &str, text: &[u8]) -> Result<JsonOtp, InputFail>
    ensures value { IfOk result (λ json. otp_read text.now ≡ Ok (otp_spec_from json.spec)) }
    ensures judged { IsJudged result (record { name = name.now; form = Form.OtpText }) text.now }
{
    judge_length(alloc, Form::OtpText, name, text)?;
    match exact_otp(alloc, text) {
        Ok(spec) => Ok(JsonOtp { spec }),
        Err(JsonFault::Memory) => Err(InputFail::Memory),
        Err(fault) => Err(refuse_text(alloc, name, fault)),
    }
}
