//! Places of pages in the flash.

ghost use Rattle.std.specs.Prelude.{◌≡◌, ◌+◌, ◌-◌, ◌*◌, ◌<◌, ◌≤◌, ◌^◌};
ghost use Rattle.uf2_place.specs.Placement.{IsPageInside, page_in, sector_in, first_in};

use crate::block::Uf2;
use pico_board::{FLASH_BASE, Window};

/// The number of the flash page of a block that lies in the window.
pub fn page_in(window: Window, block: &Uf2) -> u32
    requires inside { IsPageInside window block.now }
    requires near { window.start + window.len < 2 ^ 32 }
    ensures { result ≡ page_in window block.now }
{
    (window.start + (block.address - FLASH_BASE)) / 256
}

/// The number of the flash sector of a block that lies in the window.
pub fn sector_in(window: Window, block: &Uf2) -> u32
    requires inside { IsPageInside window block.now }
    requires near { window.start + window.len < 2 ^ 32 }
    ensures { result ≡ sector_in window block.now }
{
    (window.start + (block.address - FLASH_BASE)) / 4096
}

/// The first sector of a window.
pub fn first_in(window: Window) -> u32
    ensures { result ≡ first_in window }
{
    window.start / 4096
}
