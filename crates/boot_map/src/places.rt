//! The windows of a flash by what they are.

use pico_board::Window;

/// What a window of a flash is.
#[derive(Clone, Copy, Debug, PartialEq, Eq)]
pub enum MapPlace {
    /// Slot 0 or 1.
    Slot(u32),
    /// The partition of this number of the flash's table, counted from 0.
    Partition(u32),
    /// The whole flash, where there is no table and a slot is of the smallest size.
    Whole,
    /// A free stretch: as many sectors, one after the other, as lie in no slot and no partition.
    Free,
}

impl Default for MapPlace {
    fn default() -> Self {
        MapPlace::Free
    }
}

/// A window of a flash, and what it is.
#[derive(Clone, Copy, Default, Debug, PartialEq, Eq)]
pub struct MapWindow {
    /// What the window is.
    pub place: MapPlace,
    /// The window.
    pub window: Window,
}
