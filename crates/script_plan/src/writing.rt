//! The script that writes an image into a window, and why there is none.

ghost use Rattle.std.specs.Prelude.{◌≡◌, ◌↔◌, ◌+◌, ◌<◌, ◌≤◌, [], ◌++◌, length, OnOk, OnErr, IsErrOf, IfOk};
ghost use Rattle.pico_board.specs.declared.window.TheConstants.{MOST_FLASH_BYTES};
ghost use Rattle.script_plan.specs.Plans.{IsPlanned, plan_text};
ghost use Rattle.script_plan.specs.Loads.{load_text};
ghost use Rattle.script_plan.specs.Orders.{script_text};

use crate::loading::load_in;
use crate::planning::plan_in;
use pico_board::Window;
use std::alloc::{AllocError, Global};
use thiserror::Error;

/// The order in which a host writes the sectors of an image.
#[derive(Clone, Copy, Debug, PartialEq, Eq)]
pub enum WriteOrder {
    /// The first sector is erased first and written last.
    FirstLast,
    /// One sector after another is erased and written, in ascending order.
    Ascending,
}

/// Why no script is made: the first that applies, in the order of the variants.
#[derive(Clone, Copy, Debug, PartialEq, Eq, Error)]
pub enum PlanError {
    /// The image has no byte.
    #[error("the image is empty")]
    Empty,
    /// The image has more bytes than the window.
    #[error("the image does not fit into the window")]
    TooLarge,
    /// There was no memory.
    #[error("out of memory")]
    Memory,
}

/// The script, as a text of its own. It fails only where memory is out.
fn script_in(alloc: Global, order: WriteOrder, at: u32, image: &[u8]) -> Result<Vec<u8>, AllocError>
    requires near { at < MOST_FLASH_BYTES }
    requires inside { at + length image.now ≤ MOST_FLASH_BYTES }
    ensures { IfOk result (λ text. text.items ≡ script_text order at image.now) }
{
    match order {
        WriteOrder::FirstLast => plan_in(alloc, at, image),
        WriteOrder::Ascending => load_in(alloc, at, image),
    }
}

/// Appends the script that writes an image into a window in this order, and then reboots into an
/// update of the window. After a refusal `out` is unchanged. Where there is no memory, the refusal
/// is `Memory`.
pub fn write_script(
    alloc: Global,
    order: WriteOrder,
    window: Window,
    image: &[u8],
    out: &mut Vec<u8>,
) -> Result<(), PlanError>
    requires { IsPlanned window }
    ensures ok { OnOk result (out.new.items
        ≡ out.old.items ++ script_text order window.start image.now) }
    ensures empty { IsErrOf result PlanError.Empty ↔ (image.now ≡ []) }
    ensures too_large { IsErrOf result PlanError.TooLarge ↔ (window.len < length image.now) }
    ensures err { OnErr result (out.new.items ≡ out.old.items) }
{
    if image.is_empty() {
        return Err(PlanError::Empty);
    }
    if image.len() > window.len as usize {
        return Err(PlanError::TooLarge);
    }
    let text = match script_in(alloc, order, window.start, image) {
        Ok(text) => text,
        Err(_) => return Err(PlanError::Memory),
    };
    match out.extend_from_slice(&text) {
        Ok(()) => Ok(()),
        Err(_) => Err(PlanError::Memory),
    }
}

/// Appends the script that writes an image into a window and then reboots into an update of the
/// window. The window's first sector is written last. After a refusal `out` is unchanged. Where
/// there is no memory, the refusal is `Memory`.
pub fn plan(alloc: Global, window: Window, image: &[u8], out: &mut Vec<u8>) -> Result<(), PlanError>
    requires { IsPlanned window }
    ensures ok { OnOk result (out.new.items ≡ out.old.items ++ plan_text window.start image.now) }
    ensures empty { IsErrOf result PlanError.Empty ↔ (image.now ≡ []) }
    ensures too_large { IsErrOf result PlanError.TooLarge ↔ (window.len < length image.now) }
    ensures err { OnErr result (out.new.items ≡ out.old.items) }
{
    write_script(alloc, WriteOrder::FirstLast, window, image, out)
}

/// Appends the script that writes an image into a window in ascending order, and then reboots into
/// an update of the window. The image is written sector by sector. The last sector has 0 after the
/// image's end. After a refusal `out` is unchanged. Where there is no memory, the refusal is
/// `Memory`.
pub fn load(alloc: Global, window: Window, image: &[u8], out: &mut Vec<u8>) -> Result<(), PlanError>
    requires { IsPlanned window }
    ensures ok { OnOk result (out.new.items ≡ out.old.items ++ load_text window.start image.now) }
    ensures empty { IsErrOf result PlanError.Empty ↔ (image.now ≡ []) }
    ensures too_large { IsErrOf result PlanError.TooLarge ↔ (window.len < length image.now) }
    ensures err { OnErr result (out.new.items ≡ out.old.items) }
{
    write_script(alloc, WriteOrder::Ascending, window, image, out)
}
