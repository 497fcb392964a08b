//! What is known of the images that stand in windows of a board.

use image_check::Started;
use pico_board::Window;

/// A window of a board, and the image that stands in it.
#[derive(Drop)]
pub struct Standing {
    /// The window.
    pub window: Window,
    /// Its image, with no trial image allowed.
    pub image: Option<Started>,
}
