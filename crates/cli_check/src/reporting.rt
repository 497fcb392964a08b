//! What is found of an update, as far as a member of the text looks at it.

ghost use Rattle.std.specs.Prelude.{◌≡◌, ◌++◌, IfOk, OnOk, map, option_to_list};
ghost use Rattle.check_require.specs.Reports.{report_from};
ghost use Rattle.check_counts.specs.Tallies.{tally_of};
ghost use Rattle.cli_check.specs.Findings.{findings_from};
ghost use Rattle.cli_check.specs.Reporting.{are_records_ok, caveat_found, class_counts, data_found, data_each, event_caveat, falls_back, report_of, script_caveats, start_found, written_found};

use crate::findings::Findings;
use crate::names::{law_name, name_of};
use boot_sweep::is_same_decision;
use check_counts::{CaveatSeen, Counts};
use check_data::DataWindow;
use check_images::{Hashed, ImageFacts, JudgedWindow, WrittenWindow};
use check_records::{Again, Records, ScriptCaveats};
use check_require::{
    CaveatFound, CaveatName, ClassCounts, DataFound, Report, StartFound, WrittenFound,
};
use std::alloc::{AllocError, Global};

/// A window that was written.
fn written_found(written: &WrittenWindow) -> WrittenFound
    ensures { result ≡ written_found written.now }
{
    WrittenFound {
        by: written.by,
        valid: written.image.is_ok(),
    }
}

/// The windows that were written.
fn written_all(alloc: Global, written: &[WrittenWindow]) -> Result<Vec<WrittenFound>, AllocError>
    ensures { IfOk result (λ found. found.items ≡ map written_found written.now) }
{
    let mut found = Vec::new(alloc);
    for window in written {
        found.push(written_found(window))?;
    }
    Ok(found)
}

/// The image that starts, which starts at so many cuts before its loose bytes are there.
fn start_found(starts: &Option<ImageFacts>, loose: u32) -> Option<StartFound>
    ensures { result ≡ start_found starts.now loose }
{
    match starts {
        Some(image) => Some(StartFound {
            hashed: matches!(image.hash, Hashed::Yes),
            loose,
        }),
        None => None,
    }
}

/// Whether there is a valid image to fall back on.
fn falls_back(fallback: &Option<JudgedWindow>) -> bool
    ensures { result ≡ falls_back fallback.now }
{
    match fallback {
        Some(other) => other.image.is_ok(),
        None => false,
    }
}

/// A window with data, on which an image runs with other data at so many cuts.
fn data_found(window: &DataWindow, torn: u32) -> DataFound
    ensures { result ≡ data_found window.now torn }
{
    DataFound {
        of: window.of,
        written: window.written,
        torn,
    }
}

/// The windows with data.
fn data_all(
    alloc: Global,
    windows: &[DataWindow],
    torn: &[u32],
) -> Result<Vec<DataFound>, AllocError>
    ensures { IfOk result (λ found. found.items ≡ data_each windows.now torn.now) }
{
    let mut found = Vec::new(alloc);
    for (window, torn) in windows.iter().zip(torn.iter()) {
        found.push(data_found(window, *torn))?;
    }
    Ok(found)
}

/// Whether each record did something, and each download is done.
fn are_records_ok(records: &Records) -> bool
    ensures { result ≡ are_records_ok records.now }
{
    records.refused.is_none() && records.unfinished.is_none()
}

/// How many cuts have each class.
fn class_counts(counts: &Counts) -> ClassCounts
    ensures { result ≡ class_counts (tally_of counts.now) }
{
    ClassCounts {
        former: counts.former,
        finished: counts.finished,
        whole: counts.whole,
        tail: counts.tail,
        mixed: counts.mixed,
        bootsel: counts.bootsel,
    }
}

/// A caveat, and whether it holds at the end.
fn caveat_found(seen: &CaveatSeen) -> CaveatFound
    ensures { result ≡ caveat_found seen.now }
{
    CaveatFound {
        name: name_of(seen.caveat),
        at_end: seen.end,
    }
}

/// Adds a caveat of the script itself, where an event has it.
fn add_event(
    found: &mut Vec<CaveatFound>,
    name: CaveatName,
    event: Option<usize>,
) -> Result<(), AllocError>
    ensures { OnOk result (found.new.items
        ≡ found.old.items ++ option_to_list (event_caveat name event)) }
{
    if event.is_some() {
        found.push(CaveatFound { name, at_end: true })?;
    }
    Ok(())
}

/// The caveats of contents, and then those of the script itself.
fn caveats_all(
    alloc: Global,
    seen: &[CaveatSeen],
    script: &ScriptCaveats,
) -> Result<Vec<CaveatFound>, AllocError>
    ensures { IfOk result (λ found. found.items
        ≡ map caveat_found seen.now ++ script_caveats script.now) }
{
    let mut found = Vec::new(alloc);
    for one in seen {
        found.push(caveat_found(one))?;
    }
    add_event(&mut found, CaveatName::HeldSector, script.held)?;
    add_event(&mut found, CaveatName::SkippedBlock, script.skipped)?;
    Ok(found)
}

/// What a member of the text looks at. It fails only where memory is out.
#[tactic(auto, unfolding(crate::specs::Reporting::report_of))]
pub(crate) fn report_of(alloc: Global, found: &Findings) -> Result<Report, AllocError>
    ensures { IfOk result (λ report. report_from report ≡ report_of (findings_from found.now)) }
{
    let images = &found.images;
    let counts = &found.cuts.counts;
    Ok(Report {
        image: images.effect,
        table: images.table,
        flash: images.flash,
        same_decision: is_same_decision(&found.cuts.former, &found.cuts.finished),
        written: written_all(alloc, &images.written)?,
        starts: start_found(&images.starts, counts.early),
        fallback: falls_back(&images.fallback),
        lost: u32::try_from(images.lost.len()).unwrap_or(u32::MAX),
        data_windows: data_all(alloc, &found.windows, &counts.other_data)?,
        records: are_records_ok(&found.records),
        again: matches!(found.again, Again::Yes),
        raised: found.raised,
        next: images.next,
        same_rows: !images.rows,
        by_mixed: counts.by_mixed,
        session: law_name(found.laws.session),
        boot: found.laws.boot,
        buy: found.laws.buy,
        cuts: class_counts(counts),
        end: found.cuts.end_class,
        caveats: caveats_all(alloc, &counts.caveats, &found.script)?,
    })
}
