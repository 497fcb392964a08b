//! The raises that take listed rollback rows to a version.

ghost use Rattle.std.specs.Prelude.{◌≡◌, ◌+◌, ◌^◌, ◌<◌, ◌≤◌, max, IfOk, IsTrue, OnOk, is_ok, slice_index};
ghost use Rattle.pico_board.specs.Board.{DoesAll};
ghost use Rattle.otp_roll.specs.Rows.{AreRollbackRows, IsRollbackVersion, count};
ghost use Rattle.otp_roll.specs.Raises.{lowest_clear, raise_lacking, raise_row, raises, taken_bits};

use crate::rows::{count, majority};
use arrayvec::ArrayVec;
use pico_board::{Board, PowerLost};

/// All the bits of an OTP row.
const ALL_BITS: u32 = 0xff_ffff;

/// Raises listed rows, in their order, until the count of their raised bits is at the version.
///
/// Each listed row takes the lowest clear bits of its majority. Each row of its triple is raised
/// by those of these bits that it lacks.
pub fn raise_to<B: Board>(
    board: &mut B,
    rows: &ArrayVec<u16, 32>,
    version: u16,
) -> Result<(), PowerLost>
    requires power { IsTrue (B.state board.old).powered }
    requires rows { AreRollbackRows rows.now.items }
    requires version { IsRollbackVersion version rows.now.items }
    ensures steps { DoesAll B.state B.history board.old
        (raises (B.state board.old).content.otp rows.now.items version) (is_ok result) board.new }
    ensures count { OnOk result (count (B.state board.new).content.otp rows.now.items
        ≡ max version (count (B.state board.old).content.otp rows.now.items)) }
{
    let mut wanted = u32::from(version).saturating_sub(count(board, rows));
    for row in rows.iter() {
        wanted -= raise_row(board, *row, wanted)?;
    }
    Ok(())
}

/// Raises the lowest clear bits of the majority of a listed row: as many as are wanted, or as many
/// as there are. Answers how many these are.
fn raise_row<B: Board>(board: &mut B, row: u16, wanted: u32) -> Result<u32, PowerLost>
    requires power { IsTrue (B.state board.old).powered }
    requires range { row + 2 < 4096 }
    ensures steps { DoesAll B.state B.history board.old
        (raise_row (B.state board.old).content.otp wanted row) (is_ok result) board.new }
    ensures taken { IfOk result
        (λ number. number ≡ taken_bits (B.state board.old).content.otp wanted row) }
    ensures most { IfOk result (λ number. number ≤ wanted) }
{
    let former = majority(board, row);
    let number = (24 - former.count_ones()).min(wanted);
    let bits = lowest_clear(number, former);
    raise_lacking(board, row, bits)?;
    raise_lacking(board, row + 1, bits)?;
    raise_lacking(board, row + 2, bits)?;
    Ok(number)
}

/// Raises a row by those of the bits that it lacks, where it lacks one.
fn raise_lacking<B: Board>(board: &mut B, row: u16, bits: u32) -> Result<(), PowerLost>
    requires power { IsTrue (B.state board.old).powered }
    requires range { row < 4096 }
    requires bits { bits < 2 ^ 24 }
    ensures { DoesAll B.state B.history board.old
        (raise_lacking bits (slice_index (B.state board.old).content.otp row) row)
        (is_ok result) board.new }
{
    let lacking = bits & (board.otp_read(row) ^ ALL_BITS);
    if lacking == 0 {
        return Ok(());
    }
    board.raise(row, lacking)
}

/// The `number` lowest clear bits of a row's value, or all of them where they are fewer.
fn lowest_clear(number: u32, value: u32) -> u32
    requires { value < 2 ^ 24 }
    ensures value { result ≡ lowest_clear number value }
    ensures bits { result < 2 ^ 24 }
{
    let mut bits = 0;
    let mut wanted = number;
    for place in 0..24u32 {
        if wanted > 0 && value >> place & 1 == 0 {
            bits += 1 << place;
            wanted -= 1;
        }
    }
    bits
}
