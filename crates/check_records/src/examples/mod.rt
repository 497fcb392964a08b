//! Worked examples: which outcomes are of an event that did nothing, which downloads stay open,
//! which step programs what none before it erases, what stands against a script that is played
//! again, and the lines.

pub mod again;
pub mod caveats;
pub mod lines;
pub mod records;
