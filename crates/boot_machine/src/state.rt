//! What the machine is doing.

use boot_rules::Started;
use pico_board::Window;
use slot_choice::Member;

/// What the machine is doing.
#[derive(PartialEq, Eq, Debug, Drop)]
pub enum State {
    /// The machine has no power.
    Off,
    /// The machine is in BOOTSEL and serves a host.
    Bootsel,
    /// This image runs.
    Running(Started),
}

/// Where an image that was started from flash stands in its unit.
#[derive(Clone, Copy, PartialEq, Eq, Debug)]
pub struct Membership {
    /// The member, A where the unit is no pair.
    pub member: Member,
    /// The window of the other member, where the unit is a pair.
    pub other: Option<Window>,
    /// Whether it stands in the member that a flash-update boot named.
    pub updated: bool,
}
