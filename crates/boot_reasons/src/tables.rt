//! Whose table is that of the flash, by what the slots have.

ghost use Rattle.std.specs.Prelude.{◌≡◌, option_map};
ghost use Rattle.std.specs.Result.{result_ok};
ghost use Rattle.boot_reasons.specs.Slots.{taken_table, in_force, table_reason, table_in_force};

use crate::slots::{TableInForce, TableReason};
use boot_rules::{SlotFault, is_first_taken};
use part_table::Table;
use slot_choice::are_different;

/// A slot whose table is that of the flash, and why.
fn in_force(slot: u32, because: TableReason) -> Option<TableInForce>
    ensures { result ≡ in_force slot because }
{
    Some(TableInForce { slot, because })
}

/// Why one of the tables of both slots is taken.
fn table_reason(first: &Table, second: &Table) -> TableReason
    ensures { result ≡ table_reason first.now second.now }
{
    if first.singleton {
        return TableReason::Singleton;
    }
    if are_different(first.version, second.version) {
        TableReason::Version
    } else {
        TableReason::Tie
    }
}

/// Which of two tables is that of the flash, and why.
fn pair_in_force(first: &Table, second: &Table) -> Option<TableInForce>
    ensures { result ≡ table_in_force (Some first.now) (Some second.now) }
{
    let slot = if is_first_taken(first, second) { 0 } else { 1 };
    in_force(slot, table_reason(first, second))
}

/// The slot whose table is that of the flash, by what the slots have, and why it is this one. None
/// exactly where neither slot has a table.
pub fn table_in_force(
    first: &Result<Table, SlotFault>,
    second: &Result<Table, SlotFault>,
) -> Option<TableInForce>
    ensures { result ≡ table_in_force (result_ok first.now) (result_ok second.now) }
{
    match (first, second) {
        (Ok(table), Ok(other)) => pair_in_force(table, other),
        (Ok(_), Err(_)) => in_force(0, TableReason::Only),
        (Err(_), Ok(_)) => in_force(1, TableReason::Only),
        (Err(_), Err(_)) => None,
    }
}

/// The table of the flash, by what the slots have.
pub fn taken_table<'a>(
    taken: Option<TableInForce>,
    first: &'a Result<Table, SlotFault>,
    second: &'a Result<Table, SlotFault>,
) -> Option<&'a Table>
    ensures { option_map (λ t. t.now) result
        ≡ taken_table taken (result_ok first.now) (result_ok second.now) }
{
    match taken {
        None => None,
        Some(TableInForce { slot: 0, .. }) => first.as_ref().ok(),
        Some(_) => second.as_ref().ok(),
    }
}
