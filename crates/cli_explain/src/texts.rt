//! The texts of the reasons of a boot.

ghost use Rattle.std.specs.Prelude.{◌≡◌, ◌+◌, ◌<◌, ◌^◌, ◌≤◌, ◌/◌, ℕ, All, IfOk, IfSome, length, option_map, string_bytes};
ghost use Rattle.std.specs.Result.{result_ok};
ghost use Rattle.part_table.specs.Fields.{first_sector, last_sector};
ghost use Rattle.part_table.specs.Sound.{IsSoundTable};
ghost use Rattle.boot_reasons.specs.Reasons.{table_of_reasons};
ghost use Rattle.cli_course.specs.Outcomes.{line};
ghost use Rattle.cli_explain.specs.Texts.{explain_text, look_lines, looks_lines, member_text, otp_text, pair_text, second_line, slot_fault_text, slot_table_text, slot_text, table_lines, table_reason_text, tables_lines, taken_text, takes_text, told_text, unit_kind_text, unit_reason_text, unit_text, units_lines, unreached_lines, unreached_text};

use crate::partitions::partition_lines;
use block_loop::LoopFault;
use boot_reasons::{
    Reasons, SlotFault, TableInForce, TableReason, TakenImage, UnitReason, UnitReport, taken_table,
};
use cli_inputs::table_fault_text;
use image_check::{Started, Why};
use part_table::Table;
use pico_board::Window;
use slot_choice::SlotUnit;
use std::alloc::{AllocError, Global};
use text_lines::{decision_line, invalid_text, place_text, valid_text, version_text};
use text_words::{hex_text, yes_or_no};

/// A line of a text.
fn line_of(alloc: Global, text: &str) -> Result<String, AllocError>
    ensures { IfOk result (λ t. string_bytes t ≡ line text.now) }
{
    format!(in alloc; "{text}\n")
}

/// What the OTP says of a boot: whether rollback versions are required; whether flash boot is off;
/// and the size of a slot of a flash without a table. It fails only where memory is out.
pub fn otp_text(alloc: Global, required: bool, off: bool, size: u32) -> Result<String, AllocError>
    ensures { IfOk result (λ t. string_bytes t ≡ otp_text required off size) }
{
    let required = yes_or_no(required);
    let off = yes_or_no(off);
    let size = hex_text(alloc, u64::from(size))?;
    format!(in alloc; "otp rollback-required={required} flash-off={off} slot-size={size}")
}

/// Why a slot has no table.
fn slot_fault_text(alloc: Global, fault: SlotFault) -> Result<String, AllocError>
    ensures { IfOk result (λ t. string_bytes t ≡ slot_fault_text fault) }
{
    match fault {
        SlotFault::Loop(LoopFault::NoBlock) => format!(in alloc; "no-block"),
        SlotFault::Loop(LoopFault::Broken(at)) => format!(in alloc; "loop broken at=0x{at:08x}"),
        SlotFault::Loop(LoopFault::TooMany) => format!(in alloc; "loop too-many"),
        SlotFault::Loop(LoopFault::Overlap(i, j)) => format!(in alloc; "loop overlap {i} {j}"),
        SlotFault::NoTable => format!(in alloc; "no-table"),
        SlotFault::Table(fault) => table_fault_text(alloc, fault),
    }
}

/// The table of a slot.
fn slot_table_text(alloc: Global, table: &Table) -> Result<String, AllocError>
    ensures { IfOk result (λ t. string_bytes t ≡ slot_table_text table.now) }
{
    let version = version_text(alloc, table.version)?;
    let count = table.parts.len();
    let singleton = yes_or_no(table.singleton);
    format!(in alloc; "table {version} partitions={count} singleton={singleton}")
}

/// A slot by its number: its table, or why it has none.
pub fn slot_text(
    alloc: Global,
    number: u32,
    answer: &Result<Table, SlotFault>,
) -> Result<String, AllocError>
    ensures { IfOk result (λ t. string_bytes t ≡ slot_text number answer.now) }
{
    match answer {
        Ok(table) => {
            let table = slot_table_text(alloc, table)?;
            format!(in alloc; "slot {number} {table}")
        }
        Err(fault) => {
            let fault = slot_fault_text(alloc, *fault)?;
            format!(in alloc; "slot {number} fault={fault}")
        }
    }
}

/// The line of a slot by its number: its table, or why it has none.
pub fn slot_line(
    alloc: Global,
    number: u32,
    answer: &Result<Table, SlotFault>,
) -> Result<String, AllocError>
    ensures { IfOk result (λ t. string_bytes t ≡ line (slot_text number answer.now)) }
{
    let text = slot_text(alloc, number, answer)?;
    format!(in alloc; "{text}\n")
}

/// Why the table of a slot is that of the flash.
fn table_reason_text(because: TableReason) -> &'static str
    ensures { result.now ≡ table_reason_text because }
{
    match because {
        TableReason::Only => "only",
        TableReason::Singleton => "singleton",
        TableReason::Version => "version",
        TableReason::Tie => "tie",
    }
}

/// The slot whose table is that of the flash, and why.
fn told_text(alloc: Global, taken: Option<TableInForce>) -> Result<String, AllocError>
    ensures { IfOk result (λ t. string_bytes t ≡ told_text taken) }
{
    match taken {
        Some(taken) => {
            let slot = taken.slot;
            let because = table_reason_text(taken.because);
            format!(in alloc; "table slot={slot} because={because}")
        }
        None => format!(in alloc; "table none"),
    }
}

/// The lines of the partitions of a table.
fn table_lines(alloc: Global, table: Option<&Table>) -> Result<String, AllocError>
    requires { IfSome (option_map (λ t. t.now) table)
        (λ t. All (λ p. first_sector p ≤ last_sector p) t.parts.items) }
    ensures { IfOk result
        (λ t. string_bytes t ≡ table_lines (option_map (λ t. t.now) table.entry)) }
{
    match table {
        Some(table) => partition_lines(alloc, table.parts.as_slice()),
        None => Ok(String::new(alloc)),
    }
}

/// A pair of partitions, or one alone.
fn pair_text(alloc: Global, first: u32, second: Option<u32>) -> Result<String, AllocError>
    ensures { IfOk result (λ t. string_bytes t ≡ pair_text first second) }
{
    match second {
        Some(second) => format!(in alloc; "pair {first} {second}"),
        None => format!(in alloc; "alone {first}"),
    }
}

/// What a unit is.
fn unit_kind_text(alloc: Global, unit: &SlotUnit) -> Result<String, AllocError>
    ensures { IfOk result (λ t. string_bytes t ≡ unit_kind_text unit.now unit.now.a_part) }
{
    match unit.a_part {
        Some(first) => pair_text(alloc, first, unit.b_part),
        None => match unit.b {
            Some(_) => format!(in alloc; "slots"),
            None => format!(in alloc; "whole"),
        },
    }
}

/// A unit by its number.
fn unit_text(alloc: Global, number: usize, unit: &SlotUnit) -> Result<String, AllocError>
    ensures { IfOk result (λ t. string_bytes t ≡ unit_text number unit.now) }
{
    let kind = unit_kind_text(alloc, unit)?;
    format!(in alloc; "unit {number} {kind}")
}

/// A member's image, and whether it is a trial, or why it has none.
fn member_text(
    alloc: Global,
    window: Window,
    image: &Result<Started, Why>,
) -> Result<String, AllocError>
    ensures { IfOk result (λ t. string_bytes t ≡ member_text window image.now) }
{
    match image {
        Ok(image) => {
            let valid = valid_text(alloc, window, image)?;
            let trial = yes_or_no(image.trial);
            format!(in alloc; "{valid} trial={trial}")
        }
        Err(why) => invalid_text(alloc, window, *why),
    }
}

/// The line of a member.
fn member_line(
    alloc: Global,
    window: Window,
    image: &Result<Started, Why>,
) -> Result<String, AllocError>
    ensures { IfOk result (λ t. string_bytes t ≡ line (member_text window image.now)) }
{
    let text = member_text(alloc, window, image)?;
    line_of(alloc, &text)
}

/// The line of a second member, where there is one.
fn second_line(
    alloc: Global,
    window: Option<Window>,
    image: &Option<Result<Started, Why>>,
) -> Result<String, AllocError>
    ensures { IfOk result (λ t. string_bytes t ≡ second_line window image.now) }
{
    match window {
        Some(window) => match image {
            Some(image) => member_line(alloc, window, image),
            None => Ok(String::new(alloc)),
        },
        None => Ok(String::new(alloc)),
    }
}

/// Why an image is taken.
fn unit_reason_text(because: UnitReason) -> &'static str
    ensures { result.now ≡ unit_reason_text because }
{
    match because {
        UnitReason::Updated => "updated",
        UnitReason::Only => "only",
        UnitReason::Version => "version",
        UnitReason::Tie => "tie",
    }
}

/// The window whose image is taken, and why, or none.
fn taken_text(alloc: Global, taken: Option<TakenImage>) -> Result<String, AllocError>
    ensures { IfOk result (λ t. string_bytes t ≡ taken_text taken) }
{
    match taken {
        Some(taken) => {
            let window = place_text(alloc, taken.window)?;
            let because = unit_reason_text(taken.because);
            format!(in alloc; "{window} because={because}")
        }
        None => format!(in alloc; "none"),
    }
}

/// What the unit of a number takes.
fn takes_text(alloc: Global, number: usize, taken: Option<TakenImage>) -> Result<String, AllocError>
    ensures { IfOk result (λ t. string_bytes t ≡ takes_text number taken) }
{
    let taken = taken_text(alloc, taken)?;
    format!(in alloc; "unit {number} takes {taken}")
}

/// The lines of the report on a unit.
fn look_lines(alloc: Global, number: usize, look: &UnitReport) -> Result<String, AllocError>
    ensures { IfOk result (λ t. string_bytes t ≡ look_lines number look.now) }
{
    let unit = unit_text(alloc, number, &look.unit)?;
    let unit = line_of(alloc, &unit)?;
    let first = member_line(alloc, look.unit.a, &look.first)?;
    let second = second_line(alloc, look.unit.b, &look.second)?;
    let takes = takes_text(alloc, number, look.taken)?;
    let takes = line_of(alloc, &takes)?;
    format!(in alloc; "{unit}{first}{second}{takes}")
}

/// The lines of the reports on units, numbered from 0 on.
fn looks_lines(alloc: Global, looks: &[UnitReport]) -> Result<String, AllocError>
    ensures { IfOk result (λ t. string_bytes t ≡ looks_lines 0 looks.now) }
{
    let mut text = String::new(alloc);
    for (number, look) in looks.iter().enumerate() {
        let lines = look_lines(alloc, number, look)?;
        text.push_str(&lines)?;
    }
    Ok(text)
}

/// A unit that is not reached, by its number.
fn unreached_text(alloc: Global, number: u64) -> Result<String, AllocError>
    ensures { IfOk result (λ t. string_bytes t ≡ unreached_text number) }
{
    format!(in alloc; "unit {number} not-reached")
}

/// The lines of units that are not reached, numbered from `first` on.
fn unreached_lines(alloc: Global, first: u64, count: u32) -> Result<String, AllocError>
    requires { first ≤ 15 }
    ensures { IfOk result (λ t. string_bytes t ≡ unreached_lines first count) }
{
    let mut text = String::new(alloc);
    for i in 0..count {
        let unit = unreached_text(alloc, first + u64::from(i))?;
        let line = line_of(alloc, &unit)?;
        text.push_str(&line)?;
    }
    Ok(text)
}

/// The lines of the units.
fn units_lines(alloc: Global, looks: &[UnitReport], unreached: u32) -> Result<String, AllocError>
    requires { length looks.now ≤ 15 }
    ensures { IfOk result (λ t. string_bytes t ≡ units_lines looks.now unreached) }
{
    let mut text = looks_lines(alloc, looks)?;
    let more = unreached_lines(alloc, looks.len() as u64, unreached)?;
    text.push_str(&more)?;
    Ok(text)
}

/// The lines of the slots, and of the table of the flash with its partitions.
fn tables_lines(alloc: Global, reasons: &Reasons) -> Result<String, AllocError>
    requires { IfSome (table_of_reasons reasons.now)
        (λ t. All (λ p. first_sector p ≤ last_sector p) t.parts.items) }
    ensures { IfOk result (λ t. string_bytes t ≡ tables_lines reasons.now) }
{
    let first = slot_line(alloc, 0, &reasons.first)?;
    let second = slot_line(alloc, 1, &reasons.second)?;
    let told = told_text(alloc, reasons.table)?;
    let told = line_of(alloc, &told)?;
    let table = taken_table(reasons.table, &reasons.first, &reasons.second);
    let parts = table_lines(alloc, table)?;
    format!(in alloc; "{first}{second}{told}{parts}")
}

/// The text of the reasons of a boot.
pub(crate) fn explain_text(alloc: Global, reasons: &Reasons) -> Result<String, AllocError>
    requires { IfSome (table_of_reasons reasons.now)
        (λ t. All (λ p. first_sector p ≤ last_sector p) t.parts.items) }
    ensures { IfOk result (λ t. string_bytes t ≡ explain_text reasons.now) }
{
    let decision = decision_line(alloc, &reasons.decision)?;
    let otp = otp_text(alloc, reasons.required, reasons.off, reasons.size)?;
    let otp = line_of(alloc, &otp)?;
    let tables = tables_lines(alloc, reasons)?;
    let units = units_lines(alloc, reasons.looks.as_slice(), reasons.unreached)?;
    format!(in alloc; "{decision}{otp}{tables}{units}")
}
