//! Whether an image is firm, alone in a flash of its own.

ghost use Rattle.std.specs.Prelude.{◌≡◌, ◌+◌, ◌++◌, ◌≤◌, codes, ℕ, IfOk, IsTrue, List, length, string_bytes, true};
ghost use Rattle.pico_board.specs.Content.{window_bytes};
ghost use Rattle.image_check.specs.SameImage.{HoldsImage};
ghost use Rattle.cli_course.specs.Outcomes.{refused, worked};
ghost use Rattle.text_lines.specs.Faults.{why_text};
ghost use Rattle.cli_course.specs.Views.{answer_from};
ghost use Rattle.cli_sweep.specs.FirmWorks.{firm_line, firm_work, image_alone, judged_work, whole_window};
ghost use Rattle.pico_board.specs.MemBoard.{state_of};
ghost use Rattle.image_check.specs.Image.{image_at};

use boot_firm::is_firm;
use cli_course::{Answer, refusal, told};
use cli_inputs::{Image, lone_board, new_pool};
use image_check::{Started, Why, check};
use pico_board::{Board, Cpu, FlashView, MemBoard, Window};
use std::alloc::{AllocError, Global};
use text_lines::why_text;
use text_words::yes_or_no;

/// The line that says whether an image is firm.
fn firm_line(alloc: Global, firm: bool) -> Result<String, AllocError>
    ensures { IfOk result (λ t. string_bytes t ≡ firm_line firm) }
{
    let word = yes_or_no(firm);
    format!(in alloc; "firm {word}\n")
}

/// The rule that an image fails.
fn unbootable_text(alloc: Global, why: Why) -> Result<String, AllocError>
    ensures { IfOk result (λ t. string_bytes t ≡ codes "not-bootable " ++ why_text why) }
{
    let why = why_text(alloc, why)?;
    format!(in alloc; "not-bootable {why}")
}

/// The answer that refuses an image for the rule that it fails.
fn unbootable<'a>(alloc: Global, name: &str, why: Why) -> Result<Answer<'a>, AllocError>
    ensures { IfOk result (λ answer. answer_from answer
        ≡ refused name.now (codes "not-bootable " ++ why_text why)) }
{
    let fault = unbootable_text(alloc, why)?;
    refusal(alloc, name, &fault)
}

/// The answer of `firm` on a board with the image alone: whether it is firm, or the rule that it
/// fails.
fn firm_answer<'a>(
    alloc: Global,
    board: &MemBoard,
    name: &str,
    cpu: Cpu,
) -> Result<Answer<'a>, AllocError>
    requires power { IsTrue (state_of board.now).powered }
    ensures { IfOk result (λ answer. (image : List ℕ)
        → (state_of board.now).content ≡ image_alone image
        → answer_from answer ≡ worked (judged_work name.now image cpu
        (image_at (image_alone image) (whole_window image) cpu true))) }
{
    let mut pool = new_pool(alloc)?;
    let window = Window {
        start: 0,
        len: board.flash_len(),
    };
    match check(board, &mut pool, window, cpu, true) {
        Ok(started) => {
            let line = firm_line(alloc, is_firm(board, window, &started, cpu))?;
            Ok(told(alloc, line))
        }
        Err(why) => unbootable(alloc, name, why),
    }
}

/// The work of `firm` on an image. It prints whether the image is firm for the processor, alone in
/// a flash with an OTP of zeros and with trial images allowed. Or it refuses the image, by its
/// argument: there is no byte, or the image fails a rule. It fails only where memory is out.
pub fn firm_image<'a>(
    alloc: Global,
    name: &str,
    image: Image,
    cpu: Cpu,
) -> Result<Answer<'a>, AllocError>
    ensures { IfOk result
        (λ answer. answer_from answer ≡ worked (firm_work name.now image.bytes.items cpu)) }
{
    if image.bytes.is_empty() {
        return refusal(alloc, name, "empty");
    }
    let board = lone_board(alloc, image.bytes)?;
    firm_answer(alloc, &board, name, cpu)
}
