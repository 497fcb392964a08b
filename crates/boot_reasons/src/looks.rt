//! What a boot sees in a unit, and which image it takes there.

use image_check::{Started, Why};
use pico_board::Window;
use slot_choice::{Member, SlotUnit};

/// Why the image of a member is taken: the first that holds of it, in this order. An image counts
/// where it is valid with trial allowed exactly in the updated member.
#[derive(Clone, Copy, Debug, PartialEq, Eq)]
pub enum UnitReason {
    /// The image is the updated member's.
    Updated,
    /// No other image of the unit counts.
    Only,
    /// Both members' images count, and this one's version is greater.
    Version,
    /// Both members' images count, their versions are equal, and this one is A's.
    Tie,
}

/// The image that is taken in a unit.
#[derive(Clone, Copy, Debug, PartialEq, Eq)]
pub struct TakenImage {
    /// The member that has the image.
    pub member: Member,
    /// The member's window.
    pub window: Window,
    /// Why the image is taken.
    pub because: UnitReason,
}

/// The report on a boot unit: each member's image, and the one that is taken.
#[derive(Debug, Drop)]
pub struct UnitReport {
    /// The unit.
    pub unit: SlotUnit,
    /// The image of A, or why it has none.
    pub first: Result<Started, Why>,
    /// The image of B, or why it has none, where the unit is a pair.
    pub second: Option<Result<Started, Why>>,
    /// The image that is taken, if one counts.
    pub taken: Option<TakenImage>,
}

impl Default for UnitReport {
    fn default() -> Self {
        UnitReport {
            unit: SlotUnit::default(),
            first: Err(Why::NoBlock),
            second: None,
            taken: None,
        }
    }
}
