//! What is found of data, as plain data, and where it is looked for.

use boot_rules::Decision;
use check_require::{DataOwner, DataWritten};
use pico_board::{MemBoard, Window};

/// A window with data of an image that starts before a script or after it.
#[derive(Clone, Copy, PartialEq, Eq, Debug)]
pub struct DataWindow {
    /// The window.
    pub window: Window,
    /// Whose data it has.
    pub of: DataOwner,
    /// Whether the script writes it.
    pub written: DataWritten,
}

/// The boards before a script and after it, and what a normal boot decides on each.
#[derive(Clone, Copy)]
pub struct Ends<'a> {
    /// The board before it.
    pub start: &'a MemBoard,
    /// The board after it.
    pub finish: &'a MemBoard,
    /// The decision before it.
    pub former: &'a Decision,
    /// The decision after it.
    pub finished: &'a Decision,
}
