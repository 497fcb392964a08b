//! What `check` finds of an update, as far as a member of the text looks at it.

use crate::CaveatName;
use cut_class::Class;

/// What becomes of the image that starts.
#[derive(Clone, Copy, PartialEq, Eq, Debug)]
pub enum ImageEffect {
    /// Nothing starts at the end, or the end is as it was before.
    Unchanged,
    /// An image starts where none did.
    New,
    /// One of a greater version starts.
    Up,
    /// Another one of an equal version starts.
    Same,
    /// One of a lower version starts.
    Down,
}

/// Who wrote a window.
#[derive(Clone, Copy, PartialEq, Eq, Debug)]
pub enum Writer {
    /// A command or a UF2 block of the script.
    Script,
    /// A boot.
    Boot,
    /// A buy.
    Buy,
}

/// A window that was written, and what stands in it at the end.
#[derive(Clone, Copy, PartialEq, Eq, Debug)]
pub struct WrittenFound {
    /// Who wrote it.
    pub by: Writer,
    /// Whether its image is valid.
    pub valid: bool,
}

/// The image that starts at the end.
#[derive(Clone, Copy, PartialEq, Eq, Debug)]
pub struct StartFound {
    /// Whether it has a digest over what its load map stores.
    pub hashed: bool,
    /// At how many cuts it starts before bytes that its load map leaves out are there.
    pub loose: u32,
}

/// Whose data a window has.
#[derive(Clone, Copy, PartialEq, Eq, Debug)]
pub enum DataOwner {
    /// Those of the image that starts before and of the one that starts at the end.
    Both,
    /// Those of the image that starts before.
    Former,
    /// Those of the image that starts at the end.
    End,
}

/// Whether a window with data was written.
#[derive(Clone, Copy, PartialEq, Eq, Debug)]
pub enum DataWritten {
    /// It was.
    Yes,
    /// It was not.
    No,
    /// A cut of the script's own left it torn.
    Torn,
}

/// A window with data of an image that starts.
#[derive(Clone, Copy, PartialEq, Eq, Debug)]
pub struct DataFound {
    /// Whose data it has.
    pub of: DataOwner,
    /// Whether it was written.
    pub written: DataWritten,
    /// At how many cuts an image starts on other data than its own.
    pub torn: u32,
}

/// How many cuts have each class.
#[derive(Clone, Copy, PartialEq, Eq, Debug)]
pub struct ClassCounts {
    /// Those of class `former`.
    pub former: u32,
    /// Those of class `finished`.
    pub finished: u32,
    /// Those of class `whole`.
    pub whole: u32,
    /// Those of class `tail`.
    pub tail: u32,
    /// Those of class `mixed`.
    pub mixed: u32,
    /// Those of class `bootsel`.
    pub bootsel: u32,
}

/// The strongest law that speaks of each loss of power in the session.
#[derive(Clone, Copy, PartialEq, Eq, Debug)]
pub enum SessionLaw {
    /// There is nothing to speak of.
    Silent,
    /// No image is half-written.
    Staged,
    /// The former or the finished answer comes, but by an accidental image.
    Gated,
    /// The former answer comes, or an image that is valid in the window.
    Confined,
    /// No law.
    Open,
}

/// Whether a law speaks of each loss of power in the writes of boots, or of buys.
#[derive(Clone, Copy, PartialEq, Eq, Debug)]
pub enum LawOfWrites {
    /// There is nothing to speak of.
    Silent,
    /// The former or the finished answer comes, but by an accidental image.
    Kept,
    /// No law.
    Open,
}

/// A caveat, and where it holds.
#[derive(Clone, Copy, PartialEq, Eq, Debug)]
pub struct CaveatFound {
    /// Its name.
    pub name: CaveatName,
    /// Whether it holds at the end, or speaks of the script itself.
    pub at_end: bool,
}

/// What `check` finds of an update, as far as a member looks at it.
#[derive(Debug, Drop)]
pub struct Report {
    /// What becomes of the image that starts.
    pub image: ImageEffect,
    /// Whether the partition table changes.
    pub table: bool,
    /// Whether a byte of the flash changes.
    pub flash: bool,
    /// Whether the boots before and at the end decide the same.
    pub same_decision: bool,
    /// Each member of a boot unit that was written.
    pub written: Vec<WrittenFound>,
    /// The image that starts at the end, if one does.
    pub starts: Option<StartFound>,
    /// Whether the other member of its pair holds a valid image.
    pub fallback: bool,
    /// How many images that were valid before are so no more.
    pub lost: u32,
    /// Each window with data.
    pub data_windows: Vec<DataFound>,
    /// Whether each record of the script did something.
    pub records: bool,
    /// Whether the script comes to the same end when it is played again.
    pub again: bool,
    /// How many raises of rollback rows the script does.
    pub raised: u32,
    /// How many the next normal boot does.
    pub next: u32,
    /// Whether the OTP's rows are those of before.
    pub same_rows: bool,
    /// At how many cuts a boot raises a row for a half-written image.
    pub by_mixed: u32,
    /// The law of the session.
    pub session: SessionLaw,
    /// The law of the boots.
    pub boot: LawOfWrites,
    /// The law of the buys.
    pub buy: LawOfWrites,
    /// How many cuts have each class.
    pub cuts: ClassCounts,
    /// The class of the end.
    pub end: Class,
    /// The caveats.
    pub caveats: Vec<CaveatFound>,
}
