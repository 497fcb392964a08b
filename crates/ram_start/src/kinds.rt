//! The status that RAM commands have besides those of the other commands (RP2350 Datasheet, chapter
//! 5, Bootrom, the PICOBOOT interface).

/// What the command rests on is not there.
pub const PRECONDITION: u32 = 13;
