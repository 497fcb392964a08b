use pico_board::Window;

/// Where a download of a UF2 family goes.
#[derive(Clone, Copy, PartialEq, Eq, Debug)]
pub struct Target {
    /// The window of the flash that the download fills.
    pub window: Window,
    /// Whether the window's first sector is held back until the download is whole.
    pub gated: bool,
    /// Whether the machine stays as it is after the download, as flag bit 13 of the target's
    /// partition says.
    pub stay: bool,
}
