//! The script that writes an image into a window with one page last, and why there is none.

ghost use Rattle.std.specs.Prelude.{◌≡◌, ◌↔◌, ◌<◌, [], ◌++◌, length, OnOk, OnErr, IsErrOf};
ghost use Rattle.script_plan.specs.Plans.{IsPlanned};
ghost use Rattle.script_stage.specs.Stages.{stage_text};

use crate::staging::stage_in;
use pico_board::Window;
use script_plan::PlanError;
use std::alloc::Global;

/// Appends the script that writes an image into a window with this page of the window's first
/// sector last, and then reboots into an update of the window. Pages count from 0, and a sector has
/// 16. Where the image is to be bought, the script then buys the image that runs, and resets the
/// board. After a refusal `out` is unchanged. Where there is no memory, the refusal is `Memory`.
pub fn stage(
    alloc: Global,
    window: Window,
    page: u32,
    is_bought: bool,
    image: &[u8],
    out: &mut Vec<u8>,
) -> Result<(), PlanError>
    requires window { IsPlanned window }
    requires page { page < 16 }
    ensures ok { OnOk result (out.new.items
        ≡ out.old.items ++ stage_text window.start page is_bought image.now) }
    ensures empty { IsErrOf result PlanError.Empty ↔ (image.now ≡ []) }
    ensures too_large { IsErrOf result PlanError.TooLarge ↔ (window.len < length image.now) }
    ensures err { OnErr result (out.new.items ≡ out.old.items) }
{
    if image.is_empty() {
        return Err(PlanError::Empty);
    }
    if image.len() > window.len as usize {
        return Err(PlanError::TooLarge);
    }
    match stage_in(alloc, window.start, page, is_bought, image) {
        Ok(text) => match out.extend_from_slice(&text) {
            Ok(()) => Ok(()),
            Err(_) => Err(PlanError::Memory),
        },
        Err(_) => Err(PlanError::Memory),
    }
}
