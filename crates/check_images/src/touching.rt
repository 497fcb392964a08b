//! Which windows a step changes.

ghost use Rattle.std.specs.Prelude.{◌≡◌, ◌^◌, ◌<◌};
ghost use Rattle.check_images.specs.Touching.{shares_byte, touches};

use pico_board::{PAGE, SECTOR, Step, Window};

/// Whether a window shares a byte with n bytes from this offset on.
fn shares_byte(window: Window, at: u64, n: u32) -> bool
    requires { at < 2 ^ 45 }
    ensures { result ≡ shares_byte window at n }
{
    let first = u64::from(window.start).max(at);
    let end = (u64::from(window.start) + u64::from(window.len)).min(at + u64::from(n));
    first < end
}

/// Whether a window shares a byte with the range of an erase or a program.
pub fn touches(window: Window, step: &Step) -> bool
    ensures { result ≡ touches window step.now }
{
    match step {
        Step::Erase(sector) => shares_byte(window, u64::from(SECTOR) * u64::from(*sector), SECTOR),
        Step::Program(page, _) => shares_byte(window, u64::from(PAGE) * u64::from(*page), PAGE),
        Step::Raise(_, _) => false,
    }
}
