//! What is asked of an update, and why a text does not say it.

use crate::{CaveatName, Member};
use thiserror::Error;

/// What an update is for.
#[derive(Clone, Copy, PartialEq, Eq, Debug)]
pub enum WantedEffect {
    /// Another image starts.
    Image,
    /// The partition table changes.
    Table,
    /// Some byte of the flash changes.
    Flash,
    /// Nothing is asked.
    Nothing,
}

/// Which versions may come.
#[derive(Clone, Copy, PartialEq, Eq, Debug)]
pub enum VersionAsk {
    /// Greater ones.
    Up,
    /// Greater or equal ones.
    Same,
    /// All.
    Any,
}

/// How strong a law of the session has to be; each is met by those before it.
#[derive(Clone, Copy, PartialEq, Eq, Debug)]
pub enum SessionAsk {
    /// Nothing half-written, at each cut before a step, without an exception.
    Staged,
    /// The former or the finished answer, but by an accidental image.
    Gated,
    /// The former answer, or an image that is valid in the slot.
    Confined,
    /// No law is asked.
    Any,
}

/// What a loss of power may leave beside the former and the finished answer.
#[derive(Clone, Copy, PartialEq, Eq, Debug)]
pub enum Allowance {
    /// An image that stood whole before, or stands whole at the end.
    Whole,
    /// The finished image but for what stands behind its last block.
    Tail,
    /// A half-written image, or one that has come by accident.
    Mixed,
    /// Nothing that starts.
    Bootsel,
    /// A half-written image for which a boot raises a rollback row.
    Raising,
}

/// A caveat that may come: everywhere, or only at cuts.
#[derive(Clone, Copy, PartialEq, Eq, Debug)]
pub struct AllowedCaveat {
    /// The name of the caveat.
    pub name: CaveatName,
    /// Whether it may come only where it does not hold at the end.
    pub only_in_cuts: bool,
}

/// What is asked of an update. A truth value that is false asks nothing.
#[derive(Debug, Drop)]
pub struct Require {
    /// What the update is for.
    pub effect: WantedEffect,
    /// Whether each record has to do something.
    pub records: bool,
    /// Whether each image that the script wrote has to be valid.
    pub written: bool,
    /// Whether each image that was valid before has to stay so.
    pub keep: bool,
    /// Whether images have to find their data whole.
    pub whole_data: bool,
    /// What a loss of power may leave beside the former and the finished answer.
    pub cuts: Vec<Allowance>,
    /// Which versions may come.
    pub version: VersionAsk,
    /// Whether the other member of the pair has to hold a valid image.
    pub fallback: bool,
    /// Whether the script has to come to the same end when it is played again.
    pub again: bool,
    /// Whether an image that starts has to have all its bytes.
    pub covered: bool,
    /// Whether the image that starts has to have a digest over what it loads.
    pub hash: bool,
    /// Whether no rollback row may rise.
    pub no_rows: bool,
    /// How strong a law of the session has to be.
    pub session: SessionAsk,
    /// Whether a law has to speak of the boots' own writes.
    pub boot: bool,
    /// Whether a law has to speak of the buys.
    pub buy: bool,
    /// The caveats that may come.
    pub caveats: Vec<AllowedCaveat>,
}

/// Why a text does not say what is asked: the first that applies.
#[derive(Clone, Copy, PartialEq, Eq, Debug, Error)]
pub enum RequireFault {
    /// The bytes are not UTF-8, or no JSON value that nests at most 127 deep.
    #[error("the text is no JSON")]
    NotJson,
    /// The object has a member that is not listed.
    #[error("the object has a member that is not listed")]
    Unknown,
    /// The member has another form. Where the value is no object at all, it is `effect`.
    #[error("a member has another form")]
    Value(Member),
    /// There was no memory.
    #[error("out of memory")]
    Memory,
}
