//! Whether a spec's rollback version and rows are right.

ghost use Rattle.std.specs.Prelude.{◌≡◌, ◌≤◌, ◌↔◌, All, AllPairs, IsTrue, MatchOption, length};
ghost use Rattle.otp_roll.specs.Rows.{AreRowsApart, AreRollbackRows};
ghost use Rattle.otp_roll.specs.declared.rows.TheConstants.{FIRST_ROW, LAST_ROW};
ghost use Rattle.image_pack.specs.Faults.{IsRightRollback, IsRightSpec, IsWrong};

use crate::spec::{SealSpec, SpecField};
use otp_roll::{FIRST_ROW, LAST_ROW};

/// Whether the triples of two rows share no row.
fn is_apart(row: u16, other: u16) -> bool
    ensures { IsTrue result ↔ AreRowsApart row other }
{
    let (row, other) = (u32::from(row), u32::from(other));
    row + 3 <= other || other + 3 <= row
}

/// Whether the triple of a row shares no row with those of others.
fn is_apart_from_all(row: u16, others: &[u16]) -> bool
    ensures { IsTrue result ↔ All (AreRowsApart row) others.now }
{
    for other in others {
        if !is_apart(row, *other) {
            return false;
        }
    }
    true
}

/// Whether no two rows' triples share a row.
fn are_apart(rows: &[u16]) -> bool
    ensures { IsTrue result ↔ AllPairs AreRowsApart rows.now }
{
    match rows {
        [] => true,
        [row, rest @ ..] => is_apart_from_all(*row, rest) && are_apart(rest),
    }
}

/// Whether a row may be listed.
fn is_in_range(row: u16) -> bool
    ensures { IsTrue result ↔ ((FIRST_ROW ≤ row) × (row ≤ LAST_ROW)) }
{
    row >= FIRST_ROW && row <= LAST_ROW
}

/// Whether each row may be listed.
fn are_in_range(rows: &[u16]) -> bool
    ensures { IsTrue result ↔ All (λ r. (FIRST_ROW ≤ r) × (r ≤ LAST_ROW)) rows.now }
{
    for row in rows {
        if !is_in_range(*row) {
            return false;
        }
    }
    true
}

/// Whether the rows are rollback rows.
fn are_rollback_rows(rows: &[u16]) -> bool
    requires { length rows.now ≤ 32 }
    ensures { IsTrue result ↔ AreRollbackRows rows.now }
{
    are_in_range(rows) && are_apart(rows)
}

/// Whether the rollback version goes with the rows.
fn is_right_rollback(rollback: Option<u16>, rows: &[u16]) -> bool
    requires { length rows.now ≤ 32 }
    ensures { IsTrue result ↔ IsRightRollback rollback rows.now }
{
    match rollback {
        None => rows.is_empty(),
        Some(version) => !rows.is_empty() && version as usize <= 24 * rows.len(),
    }
}

/// The part of a spec that is wrong, the rows first.
pub(crate) fn wrong_field(spec: &SealSpec) -> Option<SpecField>
    ensures { MatchOption result (IsRightSpec spec.now) (IsWrong spec.now) }
{
    let rows = spec.rows.as_slice();
    if !are_rollback_rows(rows) {
        Some(SpecField::Rows)
    } else if !is_right_rollback(spec.rollback, rows) {
        Some(SpecField::Rollback)
    } else {
        None
    }
}
