//! Whether an image is firm.

ghost use Rattle.std.specs.Prelude.{◌≡◌, ◌+◌, ◌≤◌, IsTrue, length};
ghost use Rattle.pico_board.specs.Content.{window_bytes};
ghost use Rattle.pico_board.specs.MemBoard.{state_of};
ghost use Rattle.image_check.specs.SameImage.{HoldsImage};
ghost use Rattle.boot_firm.specs.Firmness.{is_firm};

use boot_sweep::firm;
use image_check::Started;
use pico_board::{Cpu, FlashView, MemBoard, Window};

/// Whether the image that a window of the board holds is firm.
pub fn is_firm(board: &MemBoard, window: Window, started: &Started, cpu: Cpu) -> bool
    requires power { IsTrue (state_of board.now).powered }
    requires inside { window.start + window.len ≤ length (state_of board.now).content.flash }
    requires held { HoldsImage cpu (window_bytes (state_of board.now).content window) started.now }
    ensures { result ≡ is_firm cpu (window_bytes (state_of board.now).content window)
        started.now }
{
    firm(&FlashView { board, window }, started, cpu)
}
