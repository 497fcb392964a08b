//! The table that was found when BOOTSEL was entered.

ghost use Rattle.std.specs.Prelude.{◌≡◌, ◌/◌, ◌<◌, None, Option, Some};
ghost use Rattle.std.specs.Option.{option_map};
ghost use Rattle.boot_machine.specs.Serving.{table_slot_of, table_of_found};

use boot_rules::Found;
use part_table::Table;

/// The table that was found.
pub fn table_of_found(found: &Option<Found>) -> Option<&Table>
    ensures { option_map (λ t. t.now) result ≡ table_of_found found.now }
{
    match found {
        Some(found) => Some(&found.table),
        None => None,
    }
}

/// The slot of the table that was found, 0 where there is none.
pub fn table_slot_of(found: &Option<Found>) -> u32
    ensures { result ≡ table_slot_of found.now }
{
    match found {
        Some(found) => found.slot,
        None => 0,
    }
}
