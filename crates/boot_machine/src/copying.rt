//! Copies of what starts, which take no memory.

ghost use Rattle.std.specs.Prelude.{◌≡◌};

use arrayvec::ArrayVec;
use boot_rules::{Choice, Started};

/// A copy of rows.
fn copy_of_rows(rows: &ArrayVec<u16, 32>) -> ArrayVec<u16, 32>
    ensures { result ≡ rows.now }
{
    let mut copy = ArrayVec::new();
    copy.try_extend_from_slice(rows.as_slice()).unwrap();
    copy
}

/// A copy of an image that starts.
pub(crate) fn copy_of_image(image: &Started) -> Started
    ensures { result ≡ image.now }
{
    Started {
        window: image.window,
        block: image.block,
        image_at: image.image_at,
        pc: image.pc,
        sp: image.sp,
        limit: image.limit,
        version: image.version,
        rollback: image.rollback,
        rows: copy_of_rows(&image.rows),
        trial: image.trial,
    }
}

/// A copy of a choice.
pub(crate) fn copy_of_choice(choice: &Choice) -> Choice
    ensures { result ≡ choice.now }
{
    Choice {
        image: copy_of_image(&choice.image),
        member: choice.member,
        other: choice.other,
        updated: choice.updated,
    }
}
