//! The board: a flash and an OTP that are read, and that are written by steps. Each step
//! completes, or a loss of power tears it.

ghost use Rattle.std.specs.Prelude.{◌≡◌, ◌+◌, ◌*◌, ◌^◌, ◌<◌, ◌≤◌, List, length, IsTrue, is_ok, slice_index, slice_range};
ghost use Rattle.pico_board.specs.Content.{IsContent};
ghost use Rattle.pico_board.specs.Steps.{Step, Erase, Program, Raise};
ghost use Rattle.pico_board.specs.Cuts.{IsPattern, cut_with};
ghost use Rattle.pico_board.specs.Board.{State, Does, Becomes, with_cut, with_power};

use thiserror::Error;

/// Power was lost in a step. The board is not powered from then on, until its bench powers it
/// again.
#[derive(Clone, Copy, Debug, PartialEq, Eq, Error)]
#[error("power was lost")]
pub struct PowerLost;

/// A board: its flash, its OTP, whether it is powered, and how often power was lost.
///
/// `erase`, `program` and `raise` are the atomic steps. Each answers Ok with the step completed
/// and the board powered, or PowerLost with the step torn and the board not powered. Reads cannot
/// fail.
pub trait Board {
    ghost state: { Self → State };

    // The board has done this list of steps, where it has one.
    ghost history: { Self → List Step → Type 0 };

    /// The number of bytes of the flash.
    fn flash_len(&self) -> u32
        ensures { result ≡ length (state self.now).content.flash };

    /// Whether the board is powered.
    fn powered(&self) -> bool
        ensures { result ≡ (state self.now).powered };

    /// Reads the flash bytes from the offset `at` on.
    fn read(&self, at: u32, into: &mut [u8])
        requires power { IsTrue (state self.now).powered }
        requires range { at + length into.old ≤ length (state self.now).content.flash }
        ensures { into.new ≡ slice_range (state self.now).content.flash at (at + length into.old) };

    /// The 24 bits of an OTP row.
    fn otp_read(&self, row: u16) -> u32
        requires power { IsTrue (state self.now).powered }
        requires range { row < 4096 }
        ensures value { result ≡ slice_index (state self.now).content.otp row }
        ensures bits { result < 2 ^ 24 };

    /// Erases a sector of 4096 bytes, so that each of its bytes is 0xff.
    fn erase(&mut self, sector: u32) -> Result<(), PowerLost>
        requires power { IsTrue (state self.old).powered }
        requires range { 4096 * sector + 4096 ≤ length (state self.old).content.flash }
        ensures { Does state history self.old (Erase sector) (is_ok result) self.new };

    /// Programs a page of 256 bytes, which clears each bit that is clear in `bytes`.
    fn program(&mut self, page: u32, bytes: &[u8; 256]) -> Result<(), PowerLost>
        requires power { IsTrue (state self.old).powered }
        requires range { 256 * page + 256 ≤ length (state self.old).content.flash }
        ensures { Does state history self.old (Program page bytes.now) (is_ok result) self.new };

    /// Raises an OTP row, which sets each bit that is set in `bits`.
    fn raise(&mut self, row: u16, bits: u32) -> Result<(), PowerLost>
        requires power { IsTrue (state self.old).powered }
        requires range { row < 4096 }
        requires bits { bits < 2 ^ 24 }
        ensures { Does state history self.old (Raise row bits) (is_ok result) self.new };

    ghost is_content: { (board : Self) → IsContent (state board).content };
}

/// A board on a test bench, whose power can be cut and can come back.
pub trait Bench: Board {
    /// Arms a cut in place of a former one: the step after `after` further completed steps loses
    /// power, within it or before it. A cut within leaves what the pattern says. It needs no
    /// power.
    fn arm_cut(&mut self, after: u32, within: bool, pattern: &[u8])
        requires { IsPattern within pattern.now }
        ensures { Becomes Self.state Self.history self.old
            (with_cut (Self.state self.old) (cut_with after within pattern.now)) self.new };

    /// Powers the board.
    fn power_on(&mut self)
        ensures { Becomes Self.state Self.history self.old
            (with_power (Self.state self.old)) self.new };
}
