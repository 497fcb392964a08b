//! What is found of the images, as plain data.

use block_codec::Version;
use check_require::Writer;
use image_check::Why;
use pico_board::Window;

/// Whether an image has a digest, and what that covers.
#[derive(Clone, Copy, PartialEq, Eq, Debug)]
pub enum Hashed {
    /// It has one, and a load map, whose bytes it covers.
    Yes,
    /// It has one without a load map, so that it covers words of its block alone.
    Bare,
    /// It has none.
    No,
}

/// What is told of a valid image.
#[derive(Clone, Copy, PartialEq, Eq, Debug)]
pub struct ImageFacts {
    /// Its version.
    pub version: Version,
    /// Its rollback version, if it has one.
    pub rollback: Option<u16>,
    /// Whether it is a trial image.
    pub trial: bool,
    /// Its digest.
    pub hash: Hashed,
    /// Whether it is firm: a first sector of it that is programmed in part makes no other image.
    pub firm: bool,
}

/// A window with its image, or why it has none.
#[derive(Clone, Copy, Debug)]
pub struct JudgedWindow {
    /// The window.
    pub window: Window,
    /// Its image, or the first rule that it fails.
    pub image: Result<ImageFacts, Why>,
}

/// A window that was written, with what stands in it at the end.
#[derive(Clone, Copy, Debug)]
pub struct WrittenWindow {
    /// The window.
    pub window: Window,
    /// Who wrote it.
    pub by: Writer,
    /// Its image, with a trial image allowed, or the first rule that it fails.
    pub image: Result<ImageFacts, Why>,
}

/// How the image of a window is lost.
#[derive(Clone, Copy, PartialEq, Eq, Debug)]
pub enum Loss {
    /// No member of a boot unit begins where the window does.
    NoUnit,
    /// The window of that member fails this rule first.
    Fault(Why),
}

/// A window whose image is lost.
#[derive(Clone, Copy, PartialEq, Eq, Debug)]
pub struct LostWindow {
    /// The window.
    pub window: Window,
    /// How its image is lost.
    pub loss: Loss,
}
