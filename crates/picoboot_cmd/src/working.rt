//! The work of a command that passes its checks.

ghost use Rattle.std.specs.Prelude.{◌≡◌, ◌+◌, ◌*◌, ◌/◌, ◌≤◌, ◌<◌, ◌++◌, ℕ, List, IsTrue, is_ok, drop, length, slice_range, take, true};
ghost use Rattle.block_codec.specs.Words.{bytes_of, words_of};
ghost use Rattle.pico_board.specs.Board.{DoesAll};
ghost use Rattle.picoboot_cmd.specs.Pages.{padded_page, programs};
ghost use Rattle.picoboot_cmd.specs.Rows.{are_row_words, word_raises};
ghost use Rattle.picoboot_cmd.specs.Sectors.{erases};
ghost use Rattle.picoboot_cmd.specs.Served.{IsReady, boot_of, reply_of, command_steps};

use crate::cmd::Cmd;
use crate::kinds::{ERASE, OTP_READ, OTP_WRITE, READ, REBOOT, WRITE};
use crate::reply::Reply;
use crate::words::word_at;
use pico_board::{Board, BootKind, PAGE, PowerLost, SECTOR};

/// Erases so many sectors from `first` on, ascending.
fn erase_sectors<B: Board>(board: &mut B, first: u32, count: u32) -> Result<(), PowerLost>
    requires power { IsTrue (B.state board.old).powered }
    requires range { 4096 * (first + count) ≤ length (B.state board.old).content.flash }
    ensures { DoesAll B.state B.history board.old (erases first count) (is_ok result) board.new }
{
    for sector in first..first + count {
        board.erase(sector)?;
    }
    Ok(())
}

/// Writes the bytes over the front of a page.
fn fill(page: &mut [u8], bytes: &[u8])
    requires { length bytes.now ≤ length page.old }
    ensures { page.new ≡ bytes.now ++ drop (length bytes.now) page.old }
{
    page[..bytes.len()].copy_from_slice(bytes);
}

/// The first 256 of the bytes, and bytes 0 where they are fewer.
fn page_of(bytes: &[u8]) -> [u8; 256]
    ensures { result ≡ padded_page (take 256 bytes.now) }
{
    let mut page = [0; PAGE as usize];
    fill(&mut page, &bytes[..bytes.len().min(PAGE as usize)]);
    page
}

/// Programs the bytes into the pages from `first` on, ascending, the last one filled with 0.
fn program_payload<B: Board>(board: &mut B, first: u32, bytes: &[u8]) -> Result<(), PowerLost>
    requires power { IsTrue (B.state board.old).powered }
    requires range { 256 * (first + (length bytes.now + 255) / 256)
        ≤ length (B.state board.old).content.flash }
    ensures { DoesAll B.state B.history board.old (programs first bytes.now) (is_ok result)
        board.new }
{
    for i in 0..bytes.len().div_ceil(PAGE as usize) {
        board.program(first + i as u32, &page_of(&bytes[PAGE as usize * i..]))?;
    }
    Ok(())
}

/// Raises the rows from `first` on by a word each, ascending.
fn raise_rows<B: Board>(board: &mut B, first: u16, words: &[u8]) -> Result<(), PowerLost>
    requires power { IsTrue (B.state board.old).powered }
    requires range { first + length words.now / 4 ≤ 4096 }
    requires bits { are_row_words (words_of words.now) ≡ true }
    ensures { DoesAll B.state B.history board.old (word_raises first (words_of words.now))
        (is_ok result) board.new }
{
    for k in 0..words.len() / 4 {
        board.raise(first + k as u16, word_at(words, k))?;
    }
    Ok(())
}

/// Puts a range of the flash, in pieces as long as `piece` or shorter.
fn put_through<B: Board, R: Reply>(board: &B, at: u32, size: u32, piece: &mut [u8], reply: &mut R)
    requires power { IsTrue (B.state board.now).powered }
    requires inside { at + size ≤ length (B.state board.now).content.flash }
    requires some { 0 < length piece.old }
    requires few { length piece.old ≤ 4096 }
    ensures { (before : List ℕ) → R.stands_for reply.old before → R.stands_for reply.new
        (before ++ slice_range (B.state board.now).content.flash at (at + size)) }
{
    let mut done = 0;
    while done < size {
        let count = (size - done).min(piece.len() as u32);
        let part = &mut piece[..count as usize];
        board.read(at + done, part);
        reply.put(&*part);
        done += count;
    }
}

/// Puts a range of the flash.
fn put_flash<B: Board, R: Reply>(board: &B, at: u32, size: u32, reply: &mut R)
    requires power { IsTrue (B.state board.now).powered }
    requires inside { at + size ≤ length (B.state board.now).content.flash }
    ensures { (before : List ℕ) → R.stands_for reply.old before → R.stands_for reply.new
        (before ++ slice_range (B.state board.now).content.flash at (at + size)) }
{
    let mut piece = [0; PAGE as usize];
    put_through(board, at, size, &mut piece, reply);
}

/// Puts so many OTP rows from `first` on, each as a word with its lowest byte first.
#[tactic(auto, unfolding(block_codec::specs::Words::word_bytes))]
fn put_rows<B: Board, R: Reply>(board: &B, first: u16, count: u16, reply: &mut R)
    requires power { IsTrue (B.state board.now).powered }
    requires range { first + count ≤ 4096 }
    ensures { (before : List ℕ) → R.stands_for reply.old before → R.stands_for reply.new
        (before ++ bytes_of (slice_range (B.state board.now).content.otp first (first + count))) }
{
    for row in first..first + count {
        reply.put(&board.otp_read(row).to_le_bytes());
    }
}

/// Does the steps of a command and puts its reply.
pub(crate) fn do_command<B: Board, R: Reply>(
    board: &mut B,
    cmd: &Cmd,
    payload: &[u8],
    reply: &mut R,
) -> Result<(), PowerLost>
    requires power { IsTrue (B.state board.old).powered }
    requires ready { IsReady (length (B.state board.old).content.flash) cmd.now payload.now }
    ensures steps { DoesAll B.state B.history board.old (command_steps cmd.now payload.now)
        (is_ok result) board.new }
    ensures reply { (before : List ℕ) → R.stands_for reply.old before → R.stands_for reply.new
        (before ++ reply_of (B.state board.old).content cmd.now) }
{
    match cmd.id {
        ERASE => erase_sectors(board, cmd.offset() / SECTOR, cmd.size() / SECTOR),
        READ => {
            put_flash(board, cmd.offset(), cmd.size(), reply);
            Ok(())
        }
        WRITE => program_payload(board, cmd.offset() / PAGE, payload),
        OTP_READ => {
            put_rows(board, cmd.first_row(), cmd.row_count(), reply);
            Ok(())
        }
        OTP_WRITE => raise_rows(board, cmd.first_row(), payload),
        _ => Ok(()),
    }
}

/// The boot that a command asks for.
pub(crate) fn boot_of(cmd: &Cmd) -> Option<BootKind>
    ensures { result ≡ boot_of cmd.now }
{
    if cmd.id != REBOOT {
        return None;
    }
    match cmd.reboot_flags() % 16 {
        0 => Some(BootKind::Normal),
        2 => Some(BootKind::Bootsel),
        _ => Some(BootKind::Update(cmd.reboot_p0())),
    }
}
