//! The faults of an image definition.

use thiserror::Error;

/// The first fault of an image definition. Items are judged in order, each by the items before it;
/// then the block as a whole. A kind is named by its first spelling. (RP2350 Datasheet, chapter 5,
/// "Image definition items"; the faults and their order are this project's own.)
#[derive(Clone, Copy, Debug, PartialEq, Eq, Error)]
pub enum DefFault {
    /// An item of this kind came before.
    #[error("an item of kind {0:#04x} stands twice")]
    Repeated(u8),
    /// An item of this kind has a wrong size, or a content that its kind can't have.
    #[error("an item of kind {0:#04x} is wrong")]
    BadItem(u8),
    /// A listed row lies outside 0x0c0 to 0xefd.
    #[error("row {0:#05x} is no rollback row")]
    BadRow(u16),
    /// A listed row differs by less than 3 from a row listed before it.
    #[error("row {0:#05x} is too near to a row before it")]
    RepeatedRow(u16),
}
