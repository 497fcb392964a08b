//! How many rows a normal boot raises.

ghost use Rattle.std.specs.Prelude.{◌≡◌, ◌+◌, ◌*◌, ◌^◌, ◌<◌, ◌≤◌, IsTrue, slice_index};
ghost use Rattle.pico_board.specs.MemBoard.{state_of};
ghost use Rattle.pico_board.specs.declared.boot.BootKind.TheVariants.{Normal};
ghost use Rattle.pico_board.specs.declared.boot.Cpu.{Cpu};
ghost use Rattle.otp_roll.specs.Rows.{AreRollbackRows, majority};
ghost use Rattle.otp_roll.specs.Raises.{lowest_clear, raise_lacking, raise_row, raise_triple, raises, taken_bits};
ghost use Rattle.trial_buy.specs.Starting.{image_raises};
ghost use Rattle.boot_rules.specs.Chosen.{Chosen};
ghost use Rattle.check_images.specs.Raising.{boot_raises, raise_count};

use arrayvec::ArrayVec;
use boot_rules::Decision;
use image_check::Started;
use otp_roll::count;
use pico_board::{Board, MemBoard};

/// All the bits of an OTP row.
const ALL_BITS: u32 = 0xff_ffff;

/// The bits that at least two of the three rows from `row` on have.
fn majority(board: &MemBoard, row: u16) -> u32
    requires power { IsTrue (state_of board.now).powered }
    requires range { row + 2 < 4096 }
    ensures value { result ≡ majority (state_of board.now).content.otp row }
    ensures bits { result < 2 ^ 24 }
{
    let first = board.otp_read(row);
    let second = board.otp_read(row + 1);
    let third = board.otp_read(row + 2);
    first & second | (first & third | second & third)
}

/// The `number` lowest clear bits of a row's value, or all of them where they are fewer.
fn lowest_clear(number: u32, value: u32) -> u32
    requires { value < 2 ^ 24 }
    ensures value { result ≡ lowest_clear number value }
    ensures bits { result < 2 ^ 24 }
{
    let mut bits = 0;
    let mut wanted = number;
    for place in 0..24u32 {
        if wanted > 0 && value >> place & 1 == 0 {
            bits += 1 << place;
            wanted -= 1;
        }
    }
    bits
}

/// How many of the wanted bits a listed row takes: all of them, or as many as its majority has
/// clear bits.
fn taken_bits(board: &MemBoard, row: u16, wanted: u32) -> u32
    requires power { IsTrue (state_of board.now).powered }
    requires range { row + 2 < 4096 }
    ensures value { result ≡ taken_bits (state_of board.now).content.otp wanted row }
    ensures most { result ≤ wanted }
{
    (24 - majority(board, row).count_ones()).min(wanted)
}

/// How often a row is raised by those of the bits that it lacks: once, where it lacks one.
fn lacking_raises(board: &MemBoard, row: u16, bits: u32) -> u32
    requires power { IsTrue (state_of board.now).powered }
    requires range { row < 4096 }
    ensures value { result ≡ raise_count (raise_lacking bits
        (slice_index (state_of board.now).content.otp row) row) }
    ensures most { result ≤ 1 }
{
    if bits & (board.otp_read(row) ^ ALL_BITS) == 0 {
        0
    } else {
        1
    }
}

/// How many of the three rows from `row` on are raised by those of the bits that they lack.
fn triple_raises(board: &MemBoard, row: u16, bits: u32) -> u32
    requires power { IsTrue (state_of board.now).powered }
    requires range { row + 2 < 4096 }
    ensures value { result ≡ raise_count (raise_triple (state_of board.now).content.otp bits row) }
    ensures most { result ≤ 3 }
{
    lacking_raises(board, row, bits)
        + lacking_raises(board, row + 1, bits)
        + lacking_raises(board, row + 2, bits)
}

/// How many rows of a listed row's triple are raised, where so many bits are wanted.
fn row_raises(board: &MemBoard, row: u16, wanted: u32) -> u32
    requires power { IsTrue (state_of board.now).powered }
    requires range { row + 2 < 4096 }
    ensures value { result ≡ raise_count (raise_row (state_of board.now).content.otp wanted row) }
    ensures most { result ≤ 3 }
{
    let number = taken_bits(board, row, wanted);
    let bits = lowest_clear(number, majority(board, row));
    triple_raises(board, row, bits)
}

/// How many raises take listed rows to a version.
fn raises_to(board: &MemBoard, rows: &ArrayVec<u16, 32>, version: u16) -> u32
    requires power { IsTrue (state_of board.now).powered }
    requires rows { AreRollbackRows rows.now.items }
    ensures { result ≡ raise_count (raises (state_of board.now).content.otp rows.now.items
        version) }
{
    let mut wanted = u32::from(version).saturating_sub(count(board, rows));
    let mut raised = 0;
    for row in rows.iter() {
        raised += row_raises(board, *row, wanted);
        wanted -= taken_bits(board, *row, wanted);
    }
    raised
}

/// How many raises take an image's rows to its rollback version, where it has one.
fn image_raises(board: &MemBoard, image: &Started) -> u32
    requires power { IsTrue (state_of board.now).powered }
    requires rows { AreRollbackRows image.now.rows.items }
    ensures { result ≡ raise_count (image_raises (state_of board.now).content.otp image.now) }
{
    match image.rollback {
        Some(version) => raises_to(board, &image.rows, version),
        None => 0,
    }
}

/// How many raises are among the steps of a normal boot, which decides so.
pub fn boot_raises(board: &MemBoard, decision: &Decision) -> u32
    requires power { IsTrue (state_of board.now).powered }
    requires chosen { (cpu : Cpu)
        × Chosen (state_of board.now).content cpu Normal decision.now }
    ensures { (cpu : Cpu) → Chosen (state_of board.now).content cpu Normal decision.now
        → result ≡ boot_raises (state_of board.now).content cpu }
{
    match decision {
        Decision::Start(choice) => {
            if choice.image.trial {
                0
            } else {
                image_raises(board, &choice.image)
            }
        }
        Decision::Bootsel(_) => 0,
    }
}
