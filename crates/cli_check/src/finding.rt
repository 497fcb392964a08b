//! What is found of a script on a board, by what it does to it.

ghost use Rattle.std.specs.Prelude.{◌≡◌, ◌<◌, ◌^◌, IfOk, IsTrue, List, length, true};
ghost use Rattle.pico_board.specs.declared.boot.BootKind.TheVariants.{Normal};
ghost use Rattle.pico_board.specs.Cuts.{IsPattern};
ghost use Rattle.pico_board.specs.MemBoard.{state_of};
ghost use Rattle.sector_pool.specs.Keeping.{KeepsOut};
ghost use Rattle.sector_pool.specs.Pool.{HasFree};
ghost use Rattle.boot_rules.specs.Chosen.{Chosen};
ghost use Rattle.boot_script.specs.Events.{EventView};
ghost use Rattle.boot_script.specs.Scripts.{script_events};
ghost use Rattle.boot_session.specs.Standing.{IsUnarmed};
ghost use Rattle.boot_tape.specs.Moving.{moves_from};
ghost use Rattle.boot_tape.specs.Playing.{IsTraceOf};
ghost use Rattle.check_counts.specs.Counted.{AreCounted};
ghost use Rattle.check_images.specs.Raising.{is_raise, raise_count};
ghost use Rattle.check_laws.specs.Told.{session_told};
ghost use Rattle.check_records.specs.Again.{again_by};
ghost use Rattle.check_records.specs.Unerased.{first_unerased};
ghost use Rattle.cli_check.specs.Finding.{findings_of, images_by, loose_of, windows_of, writes_of};
ghost use Rattle.cli_check.specs.Findings.{findings_from, images_from};

use crate::findings::{Findings, ImagesFound, LawsFound};
use boot_cuts::steps_of;
use boot_rules::decide;
use boot_script::Script;
use boot_tape::{Trace, doers_of};
use check_counts::{Counted, Counts, counts_of};
use check_data::{DataWindow, Ends, data_windows, loose_bytes};
use check_images::{
    after_boot, boot_raises, effect_of, fallback_of, has_other_flash, has_other_rows,
    has_other_table, lost_windows, start_of, written_windows,
};
use check_laws::{session_law, write_laws};
use check_records::{Again, again_of, first_unerased, records_of, script_caveats};
use cli_inputs::{Pattern, new_pool};
use pico_board::{BootKind, Cpu, MemBoard, Step};
use sector_pool::SectorPool;
use std::alloc::{AllocError, Global};

/// Whether a step raises a row.
fn is_raise(step: &Step) -> bool
    ensures { result ≡ is_raise step.now }
{
    matches!(step, Step::Raise(_, _))
}

/// How many of the steps raise a row.
fn raise_count(steps: &[Step]) -> u32
    requires { length steps.now < 2 ^ 32 }
    ensures { result ≡ raise_count steps.now }
{
    let mut count = 0u32;
    for step in steps {
        if is_raise(step) {
            count += 1;
        }
    }
    count
}

/// What a script that leads from one board to the other one does to the images.
fn images_found(
    alloc: Global,
    start: &MemBoard,
    trace: &Trace<'_>,
    pool: &mut SectorPool,
    cpu: Cpu,
    cuts: &Counted,
) -> Result<ImagesFound, AllocError>
    requires start { IsTrue (state_of start.now).powered }
    requires end_ { IsTrue (state_of trace.now.board).powered }
    requires free { HasFree pool.old }
    requires former { Chosen (state_of start.now).content cpu Normal cuts.now.former }
    requires finished { Chosen (state_of trace.now.board).content cpu Normal cuts.now.finished }
    ensures { IfOk result (λ found. images_from found ≡ images_by (state_of start.now).content
        (state_of trace.now.board).content cpu (moves_from trace.now.moves.items)
        trace.now.notes.items cuts.now.end_class) }
{
    let end = &trace.board;
    let doers = doers_of(alloc, &trace.notes)?;
    let booted = after_boot(alloc, end, pool, cpu, &cuts.finished)?;
    Ok(ImagesFound {
        effect: effect_of(&cuts.former, &cuts.finished, cuts.end_class),
        table: has_other_table(start, end),
        flash: has_other_flash(start, end),
        rows: has_other_rows(start, end),
        written: written_windows(alloc, end, pool, cpu, &trace.moves, &doers)?,
        starts: start_of(end, cpu, &cuts.finished),
        fallback: fallback_of(&booted, pool, cpu, &cuts.finished),
        lost: lost_windows(alloc, start, end, &booted, pool, cpu, &cuts.finished)?,
        next: boot_raises(end, &cuts.finished),
    })
}

/// Which laws speak of each loss of power in a script.
fn laws_found(
    alloc: Global,
    board: &MemBoard,
    cpu: Cpu,
    script: &Script<'_>,
    trace: &Trace<'_>,
) -> Result<LawsFound, AllocError>
    requires power { IsTrue (state_of board.now).powered }
    requires trace { IsTraceOf (state_of board.now).content cpu
        (script_events script.now.bytes.now) trace.now }
    ensures session { IfOk result (λ found. found.session ≡ session_told
        (state_of board.now).content cpu (script_events script.now.bytes.now)) }
    ensures boot { IfOk result (λ found. found.boot ≡ (writes_of
        (state_of board.now).content cpu (script_events script.now.bytes.now)).boot) }
    ensures buy { IfOk result (λ found. found.buy ≡ (writes_of
        (state_of board.now).content cpu (script_events script.now.bytes.now)).buy) }
{
    let session = session_law(alloc, board, cpu, script, trace)?;
    let writes = write_laws(alloc, board, cpu, trace)?;
    Ok(LawsFound {
        session,
        boot: writes.boot,
        buy: writes.buy,
    })
}

/// What stands against it that a script with these steps is played again.
fn again_found(
    alloc: Global,
    steps: &[Step],
    counts: &Counts,
    begins: bool,
) -> Result<Again, AllocError>
    ensures { IfOk result (λ found. found ≡ again_by (first_unerased steps.now)
        counts.now.other_table begins counts.now.other_class) }
{
    let unerased = first_unerased(alloc, steps)?;
    Ok(again_of(unerased, counts.other_table, begins, counts.other_class))
}

/// The windows with data of the images that start, and what is counted over the cuts.
fn cuts_found(
    alloc: Global,
    board: &MemBoard,
    pool: &mut SectorPool,
    cpu: Cpu,
    trace: &Trace<'_>,
    pattern: &[u8],
) -> Result<(Vec<DataWindow>, Counted), AllocError>
    requires ready { IsUnarmed (state_of board.now) }
    requires trace { (events : List EventView)
        × IsTraceOf (state_of board.now).content cpu events trace.now }
    requires pattern { IsPattern true pattern.now }
    requires free { HasFree pool.old }
    ensures windows { IfOk result (λ found. (events : List EventView)
        → IsTraceOf (state_of board.now).content cpu events trace.now
        → found.0.items ≡ windows_of (state_of board.now).content cpu events) }
    ensures counted { IfOk result (λ found. (events : List EventView)
        → IsTraceOf (state_of board.now).content cpu events trace.now
        → AreCounted (state_of board.now).content cpu events pattern.now found.0.items
        (loose_of (state_of board.now).content cpu events) found.1) }
    ensures kept { KeepsOut pool.old pool.new }
{
    let former = decide(board, pool, cpu, BootKind::Normal);
    let finished = decide(&trace.board, pool, cpu, BootKind::Normal);
    let ends = Ends {
        start: board,
        finish: &trace.board,
        former: &former,
        finished: &finished,
    };
    let windows = data_windows(alloc, &ends, &trace.moves)?;
    let loose = loose_bytes(alloc, &trace.board, cpu, &finished, &trace.moves)?;
    let cuts = counts_of(alloc, board, cpu, trace, pattern, &windows, &loose)?;
    Ok((windows, cuts))
}

/// What is found of a script on a board, by what it does to it. It fails only where memory is out.
pub(crate) fn findings_on(
    alloc: Global,
    board: &MemBoard,
    cpu: Cpu,
    trace: &Trace<'_>,
    script: &Script<'_>,
    pattern: Pattern<'_>,
) -> Result<Findings, AllocError>
    requires ready { IsUnarmed (state_of board.now) }
    requires trace { IsTraceOf (state_of board.now).content cpu
        (script_events script.now.bytes.now) trace.now }
    ensures { IfOk result (λ found. findings_from found ≡ findings_of
        (state_of board.now).content cpu (script_events script.now.bytes.now)
        pattern.entry.bytes.now) }
{
    let mut pool = new_pool(alloc)?;
    let steps = steps_of(alloc, &trace.moves)?;
    let (windows, cuts) = cuts_found(alloc, board, &mut pool, cpu, trace, pattern.bytes)?;
    let images = images_found(alloc, board, trace, &mut pool, cpu, &cuts)?;
    let records = records_of(alloc, script, trace)?;
    let again = again_found(alloc, &steps, &cuts.counts, records.begins)?;
    let laws = laws_found(alloc, board, cpu, script, trace)?;
    let raised = raise_count(&steps);
    let caveats = script_caveats(script, trace);
    Ok(Findings {
        cuts,
        images,
        windows,
        records,
        again,
        raised,
        laws,
        script: caveats,
    })
}
