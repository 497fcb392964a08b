//! The picture of a flash on a board in memory.

ghost use Rattle.std.specs.Prelude.{◌≡◌, All, IfOk, IsTrue, string_bytes};
ghost use Rattle.pico_board.specs.MemBoard.{state_of};
ghost use Rattle.sector_pool.specs.Pool.{HasFree};
ghost use Rattle.boot_map.specs.WindowRules.{IsListed};
ghost use Rattle.cli_course.specs.Outcomes.{worked};
ghost use Rattle.cli_course.specs.Views.{answer_from};
ghost use Rattle.text_lines.specs.Texts.{decision_text};
ghost use Rattle.boot_map.specs.Maps.{table_of_map};
ghost use Rattle.cli_map.specs.Works.{drawn_work, map_work};

use crate::texts::bars_of;
use arrayvec::ArrayString;
use boot_map::{FlashMap, gather_map};
use boot_rules::Decision;
use cli_course::{Answer, one_file};
use cli_inputs::new_pool;
use pico_board::{Board, Cpu, MemBoard};
use sector_pool::SectorPool;
use std::alloc::{AllocError, Global};
use svg_map::{map_svg, map_words};
use text_lines::put_decision;

/// What a boot decides, in words.
fn decided_words(alloc: Global, decision: &Decision) -> Result<String, AllocError>
    ensures { IfOk result (λ t. string_bytes t ≡ decision_text decision.now) }
{
    let mut words = ArrayString::new();
    put_decision(&mut words, decision);
    let text = words.as_str();
    format!(in alloc; "{text}")
}

/// The answer that prints how many windows a flash of so many bytes has, and writes its picture.
fn drawn<'a>(
    alloc: Global,
    flash_len: u32,
    shown: &FlashMap,
    out: &'a str,
) -> Result<Answer<'a>, AllocError>
    requires { All (λ row. IsListed (table_of_map shown.now) row.place) shown.now.rows.items }
    ensures { IfOk result (λ answer. answer_from answer
        ≡ worked (drawn_work flash_len shown.now out.entry.now)) }
{
    let bars = bars_of(alloc, shown)?;
    let words = map_words(alloc, shown.rows.len())?;
    let line = format!(in alloc; "{words}\n")?;
    let decided = decided_words(alloc, &shown.decision)?;
    let picture = map_svg(alloc, flash_len, &bars, &decided)?;
    one_file(alloc, line, out, picture)
}

/// The answer of `map` on a board.
fn map_answer<'a, B: Board>(
    alloc: Global,
    board: &B,
    pool: &mut SectorPool,
    cpu: Cpu,
    out: &'a str,
) -> Result<Answer<'a>, AllocError>
    requires power { IsTrue (B.state board.now).powered }
    requires free { HasFree pool.old }
    ensures { IfOk result (λ answer. answer_from answer
        ≡ worked (map_work (B.state board.now).content cpu out.entry.now)) }
{
    let shown = gather_map(board, pool, cpu);
    drawn(alloc, board.flash_len(), &shown, out)
}

/// The work of `map` on a board with power: how many windows the flash has, and its picture. The
/// picture shows what the processor finds in each window, and what a normal boot starts. It fails
/// only where memory is out.
pub fn map_flash<'a>(
    alloc: Global,
    board: MemBoard,
    cpu: Cpu,
    out: &'a str,
) -> Result<Answer<'a>, AllocError>
    requires { IsTrue (state_of board).powered }
    ensures { IfOk result (λ answer. answer_from answer
        ≡ worked (map_work (state_of board).content cpu out.entry.now)) }
{
    let mut pool = new_pool(alloc)?;
    map_answer(alloc, &board, &mut pool, cpu, out)
}
