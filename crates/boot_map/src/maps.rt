//! The map of a flash.

use crate::places::MapPlace;
use arrayvec::ArrayVec;
use boot_reasons::{SlotFault, TableInForce};
use boot_rules::Decision;
use image_check::{Started, Why};
use part_table::Table;
use pico_board::Window;
use slot_choice::Member;

/// The member of a pair that a window is, and the other member.
#[derive(Clone, Copy, Debug, PartialEq, Eq)]
pub struct Pairing {
    /// The member that the window is.
    pub member: Member,
    /// The number of the partition, or without a table of the slot, that is the other member.
    pub other: u32,
}

/// A window of the map.
#[derive(Debug, Drop)]
pub struct MapRow {
    /// What the window is.
    pub place: MapPlace,
    /// The window.
    pub window: Window,
    /// The image of the window, trial not allowed, or the first rule that it fails; None for a
    /// slot where there is a table, and for a free stretch.
    pub image: Option<Result<Started, Why>>,
    /// The member of a pair that the window is, where it is one.
    pub pair: Option<Pairing>,
    /// Whether a normal boot starts the image of this window.
    pub starts: bool,
}

impl Default for MapRow {
    fn default() -> Self {
        MapRow {
            place: MapPlace::default(),
            window: Window::default(),
            image: None,
            pair: None,
            starts: false,
        }
    }
}

/// The map of a flash.
#[derive(Debug, Drop)]
pub struct FlashMap {
    /// What a normal boot decides.
    pub decision: Decision,
    /// The table of slot 0, or why it has none.
    pub first: Result<Table, SlotFault>,
    /// The table of slot 1, or why it has none.
    pub second: Result<Table, SlotFault>,
    /// Whose table is that of the flash, if it has one.
    pub table: Option<TableInForce>,
    /// The windows, in address order.
    pub rows: ArrayVec<MapRow, 33>,
}
