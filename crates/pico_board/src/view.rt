//! Views: lists of bytes that are read in parts.

ghost use Rattle.std.specs.Prelude.{◌≡◌, ℕ, ◌+◌, ◌<◌, ◌≤◌, All, List, length, IsTrue, slice_range};
ghost use Rattle.pico_board.specs.Views.{IsViewed};
ghost use Rattle.pico_board.specs.declared.window.TheConstants.{MOST_FLASH_BYTES};

use crate::board::Board;
use crate::window::Window;

/// A list of at most 16,777,216 bytes, which is read in parts.
pub trait View {
    ghost bytes: { Self → List ℕ };

    /// The number of bytes.
    fn len(&self) -> u32
        ensures { result ≡ length (bytes self.now) };

    /// Reads the bytes from the place `at` on.
    fn read(&self, at: u32, into: &mut [u8])
        requires { at + length into.old ≤ length (bytes self.now) }
        ensures { into.new ≡ slice_range (bytes self.now) at (at + length into.old) };

    ghost is_viewed: { (view : Self) → IsViewed (bytes view) };
}

/// The flash bytes of a window of a powered board.
#[derive(Drop)]
pub struct FlashView<'a, B: Board> {
    /// The board that is read.
    pub board: &'a B,
    /// The window, which lies inside the flash.
    pub window: Window,
    pub ghost power: { IsTrue (B.state board.now).powered },
    pub ghost inside: { window.start + window.len ≤ length (B.state board.now).content.flash },
}

impl<'a, B: Board> View for FlashView<'a, B> {
    ghost use Rattle.pico_board.specs.Content.{window_bytes};
    ghost use Rattle.pico_board.specs.ViewedWindows.{IsViewed-window};

    ghost bytes = { λ view. window_bytes (B.state view.board.now).content view.window };

    fn len(&self) -> u32 {
        self.window.len
    }

    fn read(&self, at: u32, into: &mut [u8]) {
        self.board.read(self.window.start + at, into);
    }

    ghost is_viewed = { λ view. IsViewed-window (B.state view.board.now).content view.window
        (B.is_content view.board.now) view.inside };
}

/// The bytes of a slice.
#[derive(Drop)]
pub struct SliceView<'a> {
    /// The bytes, of which there are at most 16,777,216.
    pub bytes: &'a [u8],
    pub ghost short: { length bytes.now ≤ MOST_FLASH_BYTES },
    pub ghost small: { All (λ b. b < 256) bytes.now },
}

impl<'a> View for SliceView<'a> {
    ghost bytes = { λ view. view.bytes.now };

    fn len(&self) -> u32 {
        self.bytes.len() as u32
    }

    fn read(&self, at: u32, into: &mut [u8]) {
        let start = at as usize;
        into.copy_from_slice(&self.bytes[start..start + into.len()]);
    }

    ghost is_viewed = { λ view. record { short = view.short; bytes = view.small } };
}
