//! Where a boot leads: an image runs, or BOOTSEL is entered; and the loss of power.

ghost use Rattle.std.specs.Prelude.{◌≡◌, Bool, IsTrue, Some, None, true};
ghost use Rattle.uf2_place.specs.Downloads.{IsOut, lease_of};
ghost use Rattle.boot_rules.specs.Tables.{table_in};
ghost use Rattle.boot_machine.specs.Boots.{booted};
ghost use Rattle.text_lines.specs.declared.outcome.EventOutcome.TheVariants.{PowerLost as LOST};
ghost use Rattle.boot_machine.specs.Standing.{Comes, HasRoom, IsDropped, IsLeft, IsSteady, hosting, running};

use crate::booting::boot;
use crate::copying::copy_of_choice;
use crate::parts::Parts;
use crate::state::{Membership, State};
use boot_rules::{Choice, Decision, find_table};
use pico_board::{Board, BootKind, PowerLost};
use text_lines::{EventOutcome, boot_outcome};

/// Runs the image of a choice.
pub fn run<B: Board>(parts: &mut Parts<B>, choice: Choice)
    ensures { parts.new ≡ running parts.old choice }
{
    parts.membership = Some(Membership {
        member: choice.member,
        other: choice.other,
        updated: choice.updated,
    });
    parts.state = State::Running(choice.image);
}

/// Enters BOOTSEL: finds the table, and clears the SRAM.
pub fn enter_bootsel<B: Board>(parts: &mut Parts<B>)
    requires power { IsTrue (B.state parts.old.board).powered }
    ensures { parts.new ≡ hosting parts.old (table_in (B.state parts.old.board).content) }
{
    parts.found = find_table(&parts.board);
    parts.ram.clear();
    parts.membership = None;
    parts.state = State::Bootsel;
}

/// Drops the current download: its sector is free again, and nothing else changes.
#[tactic(auto, using(crate::proofs::RoomLemmas::room_handed))]
pub fn drop_download<B: Board>(parts: &mut Parts<B>)
    requires room { HasRoom parts.old.pool (lease_of parts.old.download.current) }
    ensures { IsDropped parts.old parts.new }
{
    parts.download.close(&mut parts.pool);
}

/// Goes to the state without power: the download is dropped.
pub fn lose<B: Board>(parts: &mut Parts<B>) -> EventOutcome
    requires room { HasRoom parts.old.pool (lease_of parts.old.download.current) }
    ensures parts { IsLeft parts.old parts.new }
    ensures lost { result ≡ LOST }
{
    drop_download(parts);
    parts.state = State::Off;
    EventOutcome::PowerLost
}

/// Boots, by itself or behind what a host's event came to.
pub fn boot_into<B: Board>(
    parts: &mut Parts<B>,
    kind: BootKind,
    before: Option<EventOutcome>,
) -> EventOutcome
    requires power { IsTrue (B.state parts.old.board).powered }
    requires room { HasRoom parts.old.pool (lease_of parts.old.download.current) }
    ensures comes { Comes B.state B.history parts.old
        (booted (B.state parts.old.board).content parts.old.cpu kind before) parts.new result }
    ensures steady { IsSteady B.state parts.new }
{
    drop_download(parts);
    match boot(&mut parts.board, &mut parts.pool, parts.cpu, kind) {
        Ok(Decision::Start(choice)) => {
            run(parts, copy_of_choice(&choice));
            boot_outcome(before, Decision::Start(choice))
        }
        Ok(Decision::Bootsel(fall)) => {
            enter_bootsel(parts);
            boot_outcome(before, Decision::Bootsel(fall))
        }
        Err(PowerLost) => lose(parts),
    }
}
