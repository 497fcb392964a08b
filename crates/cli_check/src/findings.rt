//! What is found of an update.

use check_counts::Counted;
use check_data::DataWindow;
use check_images::{ImageFacts, JudgedWindow, LostWindow, WrittenWindow};
use check_laws::SessionFound;
use check_records::{Again, Records, ScriptCaveats};
use check_require::{ImageEffect, LawOfWrites};

/// What an update does to the images of a board.
#[derive(Drop)]
pub struct ImagesFound {
    /// What becomes of the image that starts.
    pub effect: ImageEffect,
    /// Whether the partition table, or its slot, is another one at the end.
    pub table: bool,
    /// Whether a byte of the flash is another one at the end.
    pub flash: bool,
    /// Whether a row of the OTP is another one at the end.
    pub rows: bool,
    /// The members of boot units that were written.
    pub written: Vec<WrittenWindow>,
    /// The image that starts at the end, if one does.
    pub starts: Option<ImageFacts>,
    /// The other member of the unit that starts, if there is one.
    pub fallback: Option<JudgedWindow>,
    /// The members of boot units whose images are lost.
    pub lost: Vec<LostWindow>,
    /// How many raises the next normal boot does.
    pub next: u32,
}

/// Which laws speak of each loss of power.
#[derive(Clone, Copy)]
pub struct LawsFound {
    /// In the session of a host's script.
    pub session: SessionFound,
    /// In what the script's boots write.
    pub boot: LawOfWrites,
    /// In what its buys write.
    pub buy: LawOfWrites,
}

/// What is found of an update.
#[derive(Drop)]
pub struct Findings {
    /// The decisions on both ends, the class of the end, and what is counted over the cuts.
    pub cuts: Counted,
    /// What it does to the images.
    pub images: ImagesFound,
    /// The windows with data of the images that start.
    pub windows: Vec<DataWindow>,
    /// The records that did nothing, and a download that is not done.
    pub records: Records,
    /// Whether it comes to the same end where it is played again.
    pub again: Again,
    /// How many raises it does.
    pub raised: u32,
    /// Which laws speak of it.
    pub laws: LawsFound,
    /// The caveats that speak of the script itself.
    pub script: ScriptCaveats,
}
