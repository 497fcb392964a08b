//! The work of a command on a board.

ghost use Rattle.std.specs.Prelude.{◌≡◌, ◌+◌, ◌/◌, ◌≤◌, All, IfOk, IfSome, IsTrue, length, map, option_map, string_bytes};
ghost use Rattle.std.specs.List.{flat_map};
ghost use Rattle.pico_board.specs.MemBoard.{state_of};
ghost use Rattle.otp_roll.specs.Flags.{slot_size};
ghost use Rattle.part_table.specs.Fields.{first_sector, last_sector};
ghost use Rattle.part_table.specs.Sound.{IsSoundTable};
ghost use Rattle.part_table.specs.Windows.{part_window};
ghost use Rattle.sector_pool.specs.Pool.{HasFree};
ghost use Rattle.slot_choice.specs.Units.{units};
ghost use Rattle.cli_course.specs.Outcomes.{worked, answered_status};
ghost use Rattle.cli_boot.specs.Works.{boot_work, info_work, data_work, unit_windows, windows_of, window_line, decided_data, data_line, is_fall};
ghost use Rattle.cli_course.specs.Views.{answer_from};

use arrayvec::ArrayVec;
use boot_rules::{Decision, Found, data_of, decide, find_table};
use cli_course::{Answer, Status};
use cli_inputs::new_pool;
use image_check::check;
use otp_roll::slot_size;
use part_table::Partition;
use pico_board::{Board, BootKind, Cpu, MemBoard, Window};
use sector_pool::SectorPool;
use slot_choice::boot_units;
use std::alloc::{AllocError, Global};
use text_lines::{data_line, decision_line, image_line, table_line};

/// The windows of the members of a flash without a table, A first.
fn tableless_windows(flash_len: u32, slot: u32, cpu: Cpu) -> ArrayVec<Window, 15>
    ensures { result.items ≡ flat_map unit_windows (units None flash_len slot cpu) }
{
    let units = boot_units(None, flash_len, slot, cpu);
    let unit = &units.as_slice()[0];
    let mut windows = ArrayVec::new();
    windows.push(unit.a);
    if let Some(second) = unit.b {
        windows.push(second);
    }
    windows
}

/// The windows of partitions, in table order.
fn part_windows(parts: &[Partition]) -> ArrayVec<Window, 15>
    requires few { length parts.now ≤ 15 }
    requires right { All (λ p. first_sector p ≤ last_sector p) parts.now }
    ensures { result.items ≡ map part_window parts.now }
{
    let mut windows = ArrayVec::new();
    for part in parts {
        windows.push(part.window());
    }
    windows
}

/// The windows of a flash: those of its table's partitions, in table order; without a table those
/// of the members of its one unit.
fn windows_of<B: Board>(board: &B, found: Option<&Found>, cpu: Cpu) -> ArrayVec<Window, 15>
    requires power { IsTrue (B.state board.now).powered }
    requires sound { IfSome (option_map (λ f. f.now) found)
        (λ f. IsSoundTable f.table (length (B.state board.now).content.flash / 4096)) }
    ensures value { result.items
        ≡ windows_of (option_map (λ f. f.now) found.entry)
        (length (B.state board.now).content.flash)
        (slot_size (B.state board.now).content.otp (length (B.state board.now).content.flash)) cpu }
    ensures inside { All
        (λ w. w.start + w.len ≤ length (B.state board.now).content.flash) result.items }
{
    match found {
        Some(found) => part_windows(found.table.parts.as_slice()),
        None => tableless_windows(board.flash_len(), slot_size(board), cpu),
    }
}

/// The lines of windows, each with its image or why there is none; a trial image is not allowed.
fn window_lines<B: Board>(
    alloc: Global,
    board: &B,
    pool: &mut SectorPool,
    windows: &[Window],
    cpu: Cpu,
) -> Result<String, AllocError>
    requires power { IsTrue (B.state board.now).powered }
    requires free { HasFree pool.old }
    requires inside { All
        (λ w. w.start + w.len ≤ length (B.state board.now).content.flash) windows.now }
    ensures { IfOk result
        (λ t. string_bytes t ≡ flat_map (window_line (B.state board.now).content cpu) windows.now) }
{
    let mut text = String::new(alloc);
    for window in windows {
        let image = check(board, pool, *window, cpu, false);
        let line = image_line(alloc, *window, &image)?;
        text.push_str(&line)?;
    }
    Ok(text)
}

/// The lines of windows of data.
fn data_lines(alloc: Global, windows: &[Window]) -> Result<String, AllocError>
    ensures { IfOk result (λ t. string_bytes t ≡ flat_map data_line windows.now) }
{
    let mut text = String::new(alloc);
    for window in windows {
        let line = data_line(alloc, *window)?;
        text.push_str(&line)?;
    }
    Ok(text)
}

/// The windows of the data of a decision; a fall has none.
fn decided_data<B: Board>(board: &B, decision: &Decision) -> ArrayVec<Window, 14>
    requires power { IsTrue (B.state board.now).powered }
    ensures { result.items ≡ decided_data (B.state board.now).content decision.now }
{
    match decision {
        Decision::Start(choice) => match find_table(board) {
            Some(found) => data_of(Some(&found.table), choice),
            None => data_of(None, choice),
        },
        Decision::Bootsel(_) => ArrayVec::new(),
    }
}

/// The status of a decision.
fn decision_status(decision: &Decision) -> Status
    ensures { result ≡ answered_status (is_fall decision.now) }
{
    match decision {
        Decision::Start(_) => Status::Done,
        Decision::Bootsel(_) => Status::Bootsel,
    }
}

/// The answer of `boot`: the decision.
fn boot_answer<'a, B: Board>(
    alloc: Global,
    board: &B,
    pool: &mut SectorPool,
    cpu: Cpu,
    kind: BootKind,
) -> Result<Answer<'a>, AllocError>
    requires power { IsTrue (B.state board.now).powered }
    requires free { HasFree pool.old }
    ensures { IfOk result
        (λ answer. answer_from answer ≡ worked (boot_work (B.state board.now).content cpu kind)) }
{
    let decision = decide(board, pool, cpu, kind);
    let text = decision_line(alloc, &decision)?;
    Ok(Answer {
        status: decision_status(&decision),
        text: text.into_bytes(),
        files: Vec::new(alloc),
    })
}

/// The answer of `info`: the table, and each window.
fn info_answer<'a, B: Board>(
    alloc: Global,
    board: &B,
    pool: &mut SectorPool,
    cpu: Cpu,
) -> Result<Answer<'a>, AllocError>
    requires power { IsTrue (B.state board.now).powered }
    requires free { HasFree pool.old }
    ensures { IfOk result
        (λ answer. answer_from answer ≡ worked (info_work (B.state board.now).content cpu)) }
{
    let found = find_table(board);
    let mut text = table_line(alloc, found.as_ref())?;
    let windows = windows_of(board, found.as_ref(), cpu);
    let lines = window_lines(alloc, board, pool, windows.as_slice(), cpu)?;
    text.push_str(&lines)?;
    Ok(Answer {
        status: Status::Done,
        text: text.into_bytes(),
        files: Vec::new(alloc),
    })
}

/// The answer of `data`: the decision, and the windows of the data that the image owns.
fn data_answer<'a, B: Board>(
    alloc: Global,
    board: &B,
    pool: &mut SectorPool,
    cpu: Cpu,
    kind: BootKind,
) -> Result<Answer<'a>, AllocError>
    requires power { IsTrue (B.state board.now).powered }
    requires free { HasFree pool.old }
    ensures { IfOk result
        (λ answer. answer_from answer ≡ worked (data_work (B.state board.now).content cpu kind)) }
{
    let decision = decide(board, pool, cpu, kind);
    let mut text = decision_line(alloc, &decision)?;
    let windows = decided_data(board, &decision);
    let lines = data_lines(alloc, windows.as_slice())?;
    text.push_str(&lines)?;
    Ok(Answer {
        status: decision_status(&decision),
        text: text.into_bytes(),
        files: Vec::new(alloc),
    })
}

/// The work of `boot` on a board with power: the decision of a
/// boot of this type for the processor. It fails only where memory is out.
pub fn boot<'a>(
    alloc: Global,
    board: MemBoard,
    cpu: Cpu,
    kind: BootKind,
) -> Result<Answer<'a>, AllocError>
    requires { IsTrue (state_of board).powered }
    ensures { IfOk result (λ answer. answer_from answer
        ≡ worked (boot_work (state_of board).content cpu kind)) }
{
    let mut pool = new_pool(alloc)?;
    boot_answer(alloc, &board, &mut pool, cpu, kind)
}

/// The work of `info` on a board with power: the table, and each window with its image for the
/// processor, or why there is none. It fails only where memory is out.
pub fn info<'a>(alloc: Global, board: MemBoard, cpu: Cpu) -> Result<Answer<'a>, AllocError>
    requires { IsTrue (state_of board).powered }
    ensures { IfOk result (λ answer. answer_from answer
        ≡ worked (info_work (state_of board).content cpu)) }
{
    let mut pool = new_pool(alloc)?;
    info_answer(alloc, &board, &mut pool, cpu)
}

/// The work of `data` on a board with power. It prints the decision of a boot of this type for the
/// processor, and the windows of the data that its image owns. It fails only where memory is out.
pub fn data<'a>(
    alloc: Global,
    board: MemBoard,
    cpu: Cpu,
    kind: BootKind,
) -> Result<Answer<'a>, AllocError>
    requires { IsTrue (state_of board).powered }
    ensures { IfOk result (λ answer. answer_from answer
        ≡ worked (data_work (state_of board).content cpu kind)) }
{
    let mut pool = new_pool(alloc)?;
    data_answer(alloc, &board, &mut pool, cpu, kind)
}
