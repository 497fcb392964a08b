//! The picture of the sweep of a script's session on a board in memory.

ghost use Rattle.std.specs.Prelude.{◌≡◌, ◌≤◌, IfOk, IsTrue, false, length, string_bytes};
ghost use Rattle.pico_board.specs.declared.boot.BootKind.TheVariants.{Normal};
ghost use Rattle.pico_board.specs.MemBoard.{state_of};
ghost use Rattle.sector_pool.specs.Pool.{HasFree};
ghost use Rattle.boot_rules.specs.Choosing.{decision_in};
ghost use Rattle.cli_course.specs.Outcomes.{Answers, line, one_file, worked};
ghost use Rattle.cli_course.specs.Views.{answer_from};
ghost use Rattle.text_lines.specs.Texts.{decision_text};
ghost use Rattle.svg_sweep.specs.Charts.{chart_words};
ghost use Rattle.cli_sweep.specs.ChartWorks.{chart_file, chart_line, chart_with, chart_work};

use crate::results::{before_classes, class_of, within_classes};
use crate::sweeping::unswept;
use arrayvec::ArrayString;
use boot_rules::decide;
use boot_script::Script;
use boot_sweep::{SweepError, SweepResults, swept};
use cli_course::{Answer, one_file};
use cli_inputs::{Pattern, new_pool};
use pico_board::{Board, BootKind, Cpu, MemBoard};
use sector_pool::SectorPool;
use std::alloc::{AllocError, Global};
use svg_sweep::{chart_svg, chart_words};
use text_lines::put_decision;

/// What a normal boot decides on the board, in words.
fn decided_words<B: Board>(
    alloc: Global,
    board: &B,
    pool: &mut SectorPool,
    cpu: Cpu,
) -> Result<String, AllocError>
    requires power { IsTrue (B.state board.now).powered }
    requires free { HasFree pool.old }
    ensures words { IfOk result (λ t. string_bytes t
        ≡ decision_text (decision_in (B.state board.now).content cpu Normal)) }
    ensures kept { IfOk result (λ t. HasFree pool.new) }
{
    let decision = decide(board, pool, cpu, BootKind::Normal);
    let mut words = ArrayString::new();
    put_decision(&mut words, &decision);
    let text = words.as_str();
    format!(in alloc; "{text}")
}

/// The answer that prints what a sweep found, and writes its picture.
fn drawn<'a>(
    alloc: Global,
    found: &SweepResults,
    decided: &str,
    out: &'a str,
) -> Result<Answer<'a>, AllocError>
    requires steps { length found.now.steps.items ≤ 262144 }
    requires cuts { length found.now.cuts.items ≤ 262144 }
    ensures { IfOk result (λ answer. answer_from answer ≡ worked (Answers false
        (chart_line (chart_with found.now.steps.items found.now.cuts.items found.now.end))
        (one_file out.entry.now (chart_file
        (chart_with found.now.steps.items found.now.cuts.items found.now.end) decided.now)))) }
{
    let before = before_classes(alloc, &found.cuts)?;
    let within = within_classes(alloc, &found.cuts)?;
    let words = chart_words(alloc, &found.steps, &before, &within)?;
    let line = format!(in alloc; "{words}\n")?;
    let end = class_of(found.end);
    let picture = chart_svg(alloc, &found.steps, &before, &within, end, decided)?;
    one_file(alloc, line, out, picture)
}

/// The work of `chart` on a board with power, a script and a pattern. It prints how many steps the
/// script's session has for the processor, and how many lines of its sweep have each result. It
/// writes the picture of the sweep. Or it refuses the script, by its argument, with the reason why
/// the session is not swept. It fails only where memory is out.
pub fn chart_script<'a>(
    alloc: Global,
    board: MemBoard,
    cpu: Cpu,
    name: &str,
    script: Script<'_>,
    pattern: Pattern<'_>,
    out: &'a str,
) -> Result<Answer<'a>, AllocError>
    requires power { IsTrue (state_of board).powered }
    ensures { IfOk result (λ answer. answer_from answer ≡ worked (chart_work
        (state_of board).content cpu name.now out.entry.now script.entry.bytes.now
        pattern.entry.bytes.now)) }
{
    let mut pool = new_pool(alloc)?;
    let decided = decided_words(alloc, &board, &mut pool, cpu)?;
    let (flash, otp) = board.into_parts();
    match swept(
        alloc,
        &flash,
        &otp,
        &mut pool,
        cpu,
        script.bytes,
        pattern.bytes,
    ) {
        Ok(found) => drawn(alloc, &found, &decided, out),
        Err(SweepError::Memory) => Err(AllocError),
        Err(reason) => unswept(alloc, name, reason),
    }
}
