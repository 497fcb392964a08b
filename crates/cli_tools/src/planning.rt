//! The scripts that write an image where a download of it goes.

ghost use Rattle.std.specs.Prelude.{◌≡◌, ◌/◌, IfOk, IfSome, IsTrue, length, string_bytes};
ghost use Rattle.part_table.specs.Windows.{IsPlacedWindow};
ghost use Rattle.sector_pool.specs.Pool.{HasFree};
ghost use Rattle.script_plan.specs.Plans.{IsPlanned};
ghost use Rattle.cli_course.specs.Outcomes.{worked};
ghost use Rattle.cli_tools.specs.ToolWorks.{executable_family, order_word, plan_target, script_line, script_work, window_work};
ghost use Rattle.pico_board.specs.MemBoard.{state_of};
ghost use Rattle.cli_course.specs.Views.{answer_from};

use boot_rules::{Target, find_table, target};
use cli_course::{Answer, one_file, refusal};
use cli_inputs::{Image, new_pool};
use part_table::{ARM_S_FAMILY, RISCV_FAMILY};
use pico_board::{Board, Cpu, MemBoard, Window};
use script_plan::{PlanError, WriteOrder, write_script};
use sector_pool::SectorPool;
use std::alloc::{AllocError, Global};
use text_lines::place_text;

/// The family of a processor's executables.
fn executable_family(cpu: Cpu) -> u32
    ensures { result ≡ executable_family cpu }
{
    match cpu {
        Cpu::Arm => ARM_S_FAMILY,
        Cpu::Riscv => RISCV_FAMILY,
    }
}

/// Where a download of the processor's executables goes: the window, inside the flash. None exactly
/// where the flash takes none of them. It takes no memory.
pub fn plan_target<B: Board>(board: &B, pool: &mut SectorPool, cpu: Cpu) -> Option<Target>
    requires power { IsTrue (B.state board.now).powered }
    requires free { HasFree pool.old }
    ensures value { result ≡ plan_target (B.state board.now).content cpu }
    ensures placed { IfSome result
        (λ t. IsPlacedWindow t.window (length (B.state board.now).content.flash / 4096) 0) }
{
    let family = executable_family(cpu);
    match find_table(board) {
        Some(found) => target(board, pool, Some(&found.table), cpu, family),
        None => target(board, pool, None, cpu, family),
    }
}

/// The word of the command that writes an image in this order.
fn order_word(order: WriteOrder) -> &'static str
    ensures { result.now ≡ order_word order }
{
    match order {
        WriteOrder::FirstLast => "plan",
        WriteOrder::Ascending => "load",
    }
}

/// The line of a script for an image of so many bytes.
fn script_line(
    alloc: Global,
    order: WriteOrder,
    window: Window,
    length: usize,
) -> Result<String, AllocError>
    ensures { IfOk result (λ t. string_bytes t ≡ script_line order window length) }
{
    let word = order_word(order);
    let place = place_text(alloc, window)?;
    format!(in alloc; "{word} {place} bytes={length}\n")
}

/// The script that writes an image into a window, or why there is none.
fn window_answer<'a>(
    alloc: Global,
    order: WriteOrder,
    window: Window,
    name: &str,
    out: &'a str,
    image: &[u8],
) -> Result<Answer<'a>, AllocError>
    requires { IsPlanned window }
    ensures { IfOk result (λ answer. answer_from answer
        ≡ worked (window_work order window name.now out.entry.now image.now)) }
{
    let mut script = Vec::new(alloc);
    match write_script(alloc, order, window, image, &mut script) {
        Ok(()) => {
            let text = script_line(alloc, order, window, image.len())?;
            one_file(alloc, text, out, script)
        }
        Err(PlanError::Empty) => refusal(alloc, name, "empty"),
        Err(PlanError::TooLarge) => refusal(alloc, name, "past-window"),
        Err(PlanError::Memory) => Err(AllocError),
    }
}

/// The window and the length, and the script that writes an image in this order; or why there is
/// no script.
fn script_answer<'a, B: Board>(
    alloc: Global,
    order: WriteOrder,
    board: &B,
    cpu: Cpu,
    name: &str,
    out: &'a str,
    image: &Image,
) -> Result<Answer<'a>, AllocError>
    requires power { IsTrue (B.state board.now).powered }
    ensures { IfOk result (λ answer. answer_from answer ≡ worked
        (script_work order (B.state board.now).content cpu name.now out.entry.now
        image.now.bytes.items)) }
{
    let mut pool = new_pool(alloc)?;
    match plan_target(board, &mut pool, cpu) {
        Some(target) => window_answer(alloc, order, target.window, name, out, &image.bytes),
        None => refusal(alloc, name, "no-target"),
    }
}

/// The work of `plan` on a board with power and an image: the line of the window and the length,
/// and the script that writes the image's first sector last. Or it refuses the image, by its
/// argument, with the reason. It fails only where memory is out.
pub fn plan_image<'a>(
    alloc: Global,
    board: MemBoard,
    cpu: Cpu,
    name: &str,
    out: &'a str,
    image: &Image,
) -> Result<Answer<'a>, AllocError>
    requires { IsTrue (state_of board).powered }
    ensures { IfOk result (λ answer. answer_from answer ≡ worked
        (script_work WriteOrder.FirstLast (state_of board).content cpu name.now out.entry.now
        image.now.bytes.items)) }
{
    script_answer(alloc, WriteOrder::FirstLast, &board, cpu, name, out, image)
}

/// The work of `load` on a board with power and an image: the line of the window and the length,
/// and the script that writes the image in ascending order, sector by sector. Or it refuses the
/// image, by its argument, with the reason. It fails only where memory is out.
pub fn load<'a>(
    alloc: Global,
    board: MemBoard,
    cpu: Cpu,
    name: &str,
    out: &'a str,
    image: &Image,
) -> Result<Answer<'a>, AllocError>
    requires { IsTrue (state_of board).powered }
    ensures { IfOk result (λ answer. answer_from answer ≡ worked
        (script_work WriteOrder.Ascending (state_of board).content cpu name.now out.entry.now
        image.now.bytes.items)) }
{
    script_answer(alloc, WriteOrder::Ascending, &board, cpu, name, out, image)
}
