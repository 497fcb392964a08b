//! The script that writes an image where a download of it goes, with the page of its first block
//! last; or why there is none.

ghost use Rattle.std.specs.Prelude.{◌≡◌, ◌/◌, ◌≤◌, IfOk, IsTrue, length};
ghost use Rattle.pico_board.specs.declared.window.TheConstants.{MOST_FLASH_BYTES};
ghost use Rattle.pico_board.specs.MemBoard.{state_of};
ghost use Rattle.part_table.specs.Windows.{IsPlacedWindow};
ghost use Rattle.script_plan.specs.Plans.{IsPlanned};
ghost use Rattle.cli_course.specs.Outcomes.{worked};
ghost use Rattle.cli_course.specs.Views.{answer_from};
ghost use Rattle.cli_stage.specs.StageWorks.{stage_work, staged_work, window_work, written_work};

use crate::images::{first_page, is_bought, is_lone};
use crate::texts::{file_fault, stage_line, unbootable_text};
use cli_course::{Answer, one_file, refusal};
use cli_inputs::{Image, new_pool};
use cli_tools::plan_target;
use image_check::{Addressing, Started, check_view};
use pico_board::{Board, Cpu, FlashView, MemBoard, SliceView, Window};
use script_stage::{stage, written_window};
use std::alloc::{AllocError, Global};

/// The script for an image that starts in the bytes that the window then has.
fn staged_answer<'a, B: Board>(
    alloc: Global,
    board: &B,
    cpu: Cpu,
    window: Window,
    out: &'a str,
    image: &[u8],
    written: &[u8],
    started: &Started,
) -> Result<Answer<'a>, AllocError>
    requires power { IsTrue (B.state board.now).powered }
    requires planned { IsPlanned window }
    requires short { length written.now ≤ MOST_FLASH_BYTES }
    ensures { IfOk result (λ answer. answer_from answer ≡ worked
        (staged_work (B.state board.now).content cpu window out.entry.now image.now written.now
        started.now)) }
{
    let view = SliceView { bytes: written };
    let text = stage_line(alloc, window, image.len(), is_lone(&view))?;
    let page = first_page(&view);
    let is_bought = is_bought(board, cpu, window, started);
    let mut script = Vec::new(alloc);
    match stage(alloc, window, page, is_bought, image, &mut script) {
        Ok(()) => one_file(alloc, text, out, script),
        Err(_) => Err(AllocError),
    }
}

/// The script for an image, or the rule that it fails in the bytes that the window then has.
fn judged_answer<'a, B: Board>(
    alloc: Global,
    board: &B,
    cpu: Cpu,
    window: Window,
    name: &str,
    out: &'a str,
    image: &[u8],
    written: &[u8],
) -> Result<Answer<'a>, AllocError>
    requires power { IsTrue (B.state board.now).powered }
    requires planned { IsPlanned window }
    requires short { length written.now ≤ MOST_FLASH_BYTES }
    ensures { IfOk result (λ answer. answer_from answer ≡ worked
        (written_work (B.state board.now).content cpu window name.now out.entry.now image.now
        written.now)) }
{
    let mut pool = new_pool(alloc)?;
    let view = SliceView { bytes: written };
    match check_view(
        board,
        &mut pool,
        &view,
        window,
        Addressing::FLASH,
        cpu,
        true,
    ) {
        Ok(started) => staged_answer(alloc, board, cpu, window, out, image, written, &started),
        Err(why) => {
            let fault = unbootable_text(alloc, why)?;
            refusal(alloc, name, &fault)
        }
    }
}

/// The script for an image that goes to a window, or why there is none.
fn window_answer<'a, B: Board>(
    alloc: Global,
    board: &B,
    cpu: Cpu,
    window: Window,
    name: &str,
    out: &'a str,
    image: &[u8],
) -> Result<Answer<'a>, AllocError>
    requires power { IsTrue (B.state board.now).powered }
    requires placed { IsPlacedWindow window (length (B.state board.now).content.flash / 4096) 0 }
    ensures { IfOk result (λ answer. answer_from answer ≡ worked
        (window_work (B.state board.now).content cpu name.now out.entry.now image.now window)) }
{
    if image.is_empty() {
        return refusal(alloc, name, "empty");
    }
    if image.len() > window.len as usize {
        return refusal(alloc, name, "past-window");
    }
    if let Some(fault) = file_fault(image) {
        return refusal(alloc, name, fault);
    }
    let view = FlashView { board, window };
    let written = written_window(alloc, &view, image)?;
    judged_answer(alloc, board, cpu, window, name, out, image, &written)
}

/// The work of `stage` on a board with power and an image: the line of the window, the length and
/// the order, and the script that writes the image with the page of its first block last. Where the
/// image is a trial and the window a member of a boot unit, the script buys it. Or it refuses the
/// image, by its argument, with the reason: there is no target; it has no byte, or more bytes than
/// the window; it is a UF2 file or an ELF file; it fails a rule in the bytes that the window then
/// has, with trial images allowed. It fails only where memory is out.
pub fn stage_image<'a>(
    alloc: Global,
    board: MemBoard,
    cpu: Cpu,
    name: &str,
    out: &'a str,
    image: &Image,
) -> Result<Answer<'a>, AllocError>
    requires { IsTrue (state_of board).powered }
    ensures { IfOk result (λ answer. answer_from answer ≡ worked
        (stage_work (state_of board).content cpu name.now out.entry.now image.now.bytes.items)) }
{
    let mut pool = new_pool(alloc)?;
    match plan_target(&board, &mut pool, cpu) {
        Some(target) => {
            window_answer(alloc, &board, cpu, target.window, name, out, &image.bytes)
        }
        None => refusal(alloc, name, "no-target"),
    }
}
