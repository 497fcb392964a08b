//! What is found of the records of a script, as plain data.

use text_lines::EventOutcome;

/// The records that did nothing.
#[derive(Debug, Drop)]
pub struct Refused {
    /// How many there are.
    pub count: u32,
    /// The number of the first of them, from 0.
    pub first: u32,
    /// What came of that one.
    pub outcome: EventOutcome,
}

/// What is found of the records of a script.
#[derive(Debug, Drop)]
pub struct Records {
    /// Those that did nothing, where there are any.
    pub refused: Option<Refused>,
    /// The number of the first event that begins a download which is not done, nor another one of
    /// its kind later.
    pub unfinished: Option<u32>,
    /// Whether an event begins a download.
    pub begins: bool,
}

/// The caveats of a script itself.
#[derive(Clone, Copy, PartialEq, Eq, Debug)]
pub struct ScriptCaveats {
    /// The number of the first event, from 0, that is a taken block of a gated download.
    pub held: Option<usize>,
    /// The number of the first block of the absolute family that is skipped since its page lies
    /// outside the flash.
    pub skipped: Option<usize>,
}

/// Whether a script comes to the same end where it is played again.
#[derive(Clone, Copy, PartialEq, Eq, Debug)]
pub enum Again {
    /// Nothing stands against it.
    Yes,
    /// The step of this number programs a page whose sector no step before it erases.
    NoStep(usize),
    /// A loss of power leaves another partition table.
    NoTable,
    /// A download may go to another slot the second time.
    NoTarget,
}
