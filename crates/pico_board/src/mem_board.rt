//! A board in memory.

ghost use Rattle.std.specs.Prelude.{◌≡◌, ◌≢◌, ◌↔◌, ℕ, ◌+◌, ◌*◌, ◌^◌, ◌<◌, ◌≤◌, All, IfOk, IsErrOf, IsTrue, MatchOption, is_ok, length};
ghost use Rattle.pico_board.specs.Content.{IsContent, IsFlashLength};
ghost use Rattle.pico_board.specs.Rows.{IsFirstWide};
ghost use Rattle.pico_board.specs.Steps.{Erase, Program, Raise};
ghost use Rattle.pico_board.specs.Cuts.{IsPattern, cut_with};
ghost use Rattle.pico_board.specs.Board.{Does, Becomes, with_cut, with_power};

use crate::board::{Bench, Board, PowerLost};
use crate::range::{cut_erase, cut_program, cut_raise, erase_sector, program_page};
use crate::supply::Supply;
use crate::window::{MOST_FLASH_BYTES, PAGE, ROWS, SECTOR};
use std::alloc::Global;
use thiserror::Error;

/// Why a board in memory was not made.
#[derive(Clone, Copy, Debug, PartialEq, Eq, Error)]
pub enum BoardError {
    /// The flash does not have whole sectors of 4096 bytes, at least two and at most 4096 of them.
    #[error("the flash has no length of a flash")]
    BadFlashLength,
    /// There are not 4096 OTP rows.
    #[error("there are not 4096 OTP rows")]
    BadOtpLength,
    /// The lowest OTP row that has more than 24 bits.
    #[error("OTP row {0:#05x} has more than 24 bits")]
    OtpRowWide(u32),
    /// There was no memory.
    #[error("out of memory")]
    Memory,
}

/// A board in memory, on a bench. The board tells its armed cut, and loses power exactly where
/// this cut falls due.
#[derive(Drop)]
pub struct MemBoard {
    flash: Vec<u8>,
    otp: Vec<u32>,
    supply: Supply,
    ghost sizes: { IsContent (record { flash = flash.items; otp = otp.items }) },
}

/// Whether a flash may have this many bytes.
fn is_flash_length(n: usize) -> bool
    ensures { IsTrue result ↔ IsFlashLength n }
{
    n % SECTOR as usize == 0 && n >= 2 * SECTOR as usize && n <= MOST_FLASH_BYTES
}

/// The lowest row that has more than 24 bits.
fn first_wide(rows: &[u32]) -> Option<u32>
    requires { length rows.now ≤ 4096 }
    ensures { MatchOption result (All (λ v. v < 2 ^ 24) rows.now) (IsFirstWide rows.now) }
{
    for (i, row) in rows.iter().enumerate() {
        if *row >= 1 << 24 {
            return Some(i as u32);
        }
    }
    None
}

impl MemBoard {
    ghost use Rattle.pico_board.specs.MemBoard.{state_of, steps_of, new_state};

    /// A powered board with these contents and no cut armed. The checks stand in the order of the
    /// errors.
    pub fn new(alloc: Global, flash: Vec<u8>, otp: Vec<u32>) -> Result<MemBoard, BoardError>
        ensures made { IfOk result (λ board. state_of board ≡ new_state flash.items otp.items) }
        ensures counted { IfOk result (λ board. steps_of board ≡ 0) }
        ensures flash_length { IsErrOf result BoardError.BadFlashLength ↔ ¬
            (IsFlashLength (length flash.items)) }
        ensures otp_length { IsErrOf result BoardError.BadOtpLength
            ↔ (IsFlashLength (length flash.items) × (length otp.items ≢ 4096)) }
        ensures wide_row { (row : ℕ) → IsErrOf result (BoardError.OtpRowWide row)
            ↔ (IsFlashLength (length flash.items) × (length otp.items ≡ 4096)
            × IsFirstWide otp.items row) }
    {
        if !is_flash_length(flash.len()) {
            return Err(BoardError::BadFlashLength);
        }
        if otp.len() != ROWS as usize {
            return Err(BoardError::BadOtpLength);
        }
        if let Some(row) = first_wide(&otp) {
            return Err(BoardError::OtpRowWide(row));
        }
        match Supply::new(alloc) {
            Ok(supply) => Ok(MemBoard { flash, otp, supply }),
            Err(_) => Err(BoardError::Memory),
        }
    }

    /// The number of completed steps since the board was made, which saturates at 2^64 - 1.
    pub fn steps(&self) -> u64
        ensures { result ≡ steps_of self.now }
    {
        self.supply.steps
    }

    /// The contents: the bytes of the flash and the rows of the OTP.
    pub fn into_parts(self) -> (Vec<u8>, Vec<u32>)
        ensures flash { result.0.items ≡ (state_of self).content.flash }
        ensures otp { result.1.items ≡ (state_of self).content.otp }
    {
        (self.flash, self.otp)
    }
}

impl Board for MemBoard {
    ghost use Rattle.pico_board.specs.MemBoard.{state_of, history_of, steps_of, counted};

    ghost state = { state_of };

    ghost history = { history_of };

    fn flash_len(&self) -> u32 {
        self.flash.len() as u32
    }

    fn powered(&self) -> bool {
        self.supply.powered
    }

    fn read(&self, at: u32, into: &mut [u8]) {
        let start = at as usize;
        into.copy_from_slice(&self.flash[start..start + into.len()]);
    }

    fn otp_read(&self, row: u16) -> u32 {
        self.otp[row as usize]
    }

    fn erase(&mut self, sector: u32) -> Result<(), PowerLost>
        requires power { IsTrue (state_of self.old).powered }
        requires range { 4096 * sector + 4096 ≤ length (state_of self.old).content.flash }
        ensures does { Does state_of history_of self.old (Erase sector) (is_ok result) self.new }
        ensures counts { steps_of self.new ≡ counted (steps_of self.old) (is_ok result) }
    {
        let at = SECTOR as usize * sector as usize;
        match self.supply.due() {
            Some(within) => {
                cut_erase(&mut self.flash, at, within, &self.supply.pattern);
                self.supply.lose();
                Err(PowerLost)
            }
            None => {
                erase_sector(&mut self.flash, at);
                self.supply.complete();
                Ok(())
            }
        }
    }

    fn program(&mut self, page: u32, bytes: &[u8; 256]) -> Result<(), PowerLost>
        requires power { IsTrue (state_of self.old).powered }
        requires range { 256 * page + 256 ≤ length (state_of self.old).content.flash }
        ensures does { Does state_of history_of self.old (Program page bytes.now)
            (is_ok result) self.new }
        ensures counts { steps_of self.new ≡ counted (steps_of self.old) (is_ok result) }
    {
        let at = PAGE as usize * page as usize;
        match self.supply.due() {
            Some(within) => {
                cut_program(&mut self.flash, at, bytes, within, &self.supply.pattern);
                self.supply.lose();
                Err(PowerLost)
            }
            None => {
                program_page(&mut self.flash, at, bytes);
                self.supply.complete();
                Ok(())
            }
        }
    }

    fn raise(&mut self, row: u16, bits: u32) -> Result<(), PowerLost>
        requires power { IsTrue (state_of self.old).powered }
        requires range { row < 4096 }
        requires bits { bits < 2 ^ 24 }
        ensures does { Does state_of history_of self.old (Raise row bits) (is_ok result) self.new }
        ensures counts { steps_of self.new ≡ counted (steps_of self.old) (is_ok result) }
    {
        let row = row as usize;
        match self.supply.due() {
            Some(within) => {
                cut_raise(&mut self.otp, row, bits, within, &self.supply.pattern);
                self.supply.lose();
                Err(PowerLost)
            }
            None => {
                self.otp[row] |= bits;
                self.supply.complete();
                Ok(())
            }
        }
    }

    ghost is_content = { λ board. board.sizes };
}

impl Bench for MemBoard {
    ghost use Rattle.pico_board.specs.MemBoard.{state_of, history_of, steps_of};

    fn arm_cut(&mut self, after: u32, within: bool, pattern: &[u8])
        requires { IsPattern within pattern.now }
        ensures arms { Becomes state_of history_of self.old
            (with_cut (state_of self.old) (cut_with after within pattern.now)) self.new }
        ensures counts { steps_of self.new ≡ steps_of self.old }
    {
        self.supply.arm(after, within, pattern);
    }

    fn power_on(&mut self)
        ensures powers { Becomes state_of history_of self.old
            (with_power (state_of self.old)) self.new }
        ensures counts { steps_of self.new ≡ steps_of self.old }
    {
        self.supply.powered = true;
    }
}
