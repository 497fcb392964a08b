//! The table of a board's flash, looked up once as long as no slot changes.

ghost use Rattle.std.specs.Prelude.{◌≡◌, ◌*◌, ◌≤◌, Bool, IsTrue, None, Some, if◌then◌else◌, length, nat_le, option_map};
ghost use Rattle.otp_roll.specs.Flags.{slot_size};
ghost use Rattle.boot_rules.specs.Tables.{table_in, table_of_content};
ghost use Rattle.boot_machine.specs.Remembering.{IsLookup, kept_lookup, looked_up};
ghost use Rattle.boot_machine.specs.declared.lookup.Lookup.TheVariants.{Done as DONE};

use boot_rules::{Found, find_table};
use otp_roll::slot_size;
use part_table::Table;
use pico_board::Board;

/// What is remembered of the table of a flash.
#[derive(Drop)]
pub(crate) enum Lookup {
    /// A slot may have changed since the table was looked up.
    Due,
    /// The table that was found, or that there is none.
    Done(Option<Found>),
}

/// Whether a change of the flash from this offset on leaves both table slots.
pub(crate) fn leaves_slots<B: Board>(board: &B, start: u32) -> bool
    requires { IsTrue (B.state board.now).powered }
    ensures { result ≡ nat_le (2 * slot_size (B.state board.now).content.otp
        (length (B.state board.now).content.flash)) start }
{
    2 * slot_size(board) <= start
}

/// Looks the table up, where that is due.
pub(crate) fn look_up<B: Board>(board: &B, lookup: &mut Lookup)
    requires power { IsTrue (B.state board.now).powered }
    requires known { IsLookup (B.state board.now).content lookup.old }
    ensures { lookup.new ≡ DONE (table_in (B.state board.now).content) }
{
    if matches!(lookup, Lookup::Due) {
        *lookup = Lookup::Done(find_table(board));
    }
}

/// The table that was found.
pub(crate) fn looked_up(lookup: &Lookup) -> Option<&Table>
    ensures { option_map (λ t. t.now) result ≡ looked_up lookup.now }
{
    match lookup {
        Lookup::Done(Some(found)) => Some(&found.table),
        Lookup::Done(None) | Lookup::Due => None,
    }
}

impl Lookup {
    /// What is remembered of the table after a change, which leaves both slots or may not.
    pub(crate) fn keep_if(&mut self, leaves: bool)
        ensures { self.new ≡ kept_lookup leaves self.old }
    {
        if !leaves {
            *self = Lookup::Due;
        }
    }
}
