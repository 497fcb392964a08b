//! The lines of what is found of an update.

ghost use Rattle.std.specs.Prelude.{◌≡◌, IfOk, string_bytes};
ghost use Rattle.std.specs.List.{flat_map};
ghost use Rattle.check_lines.specs.Texts.{lost_line, written_line};
ghost use Rattle.check_lines.specs.Counting.{caveat_seen, unmet_line};
ghost use Rattle.cli_check.specs.CheckTexts.{boot_lines, check_text, count_lines, data_lines, event_lines, findings_text, held_lines, image_lines, law_lines, record_lines, skipped_lines};
ghost use Rattle.cli_check.specs.Findings.{findings_from, images_from};

use crate::findings::{Findings, ImagesFound, LawsFound};
use boot_rules::Decision;
use check_counts::CaveatSeen;
use check_data::{DataWindow, data_line};
use check_images::{LostWindow, WrittenWindow};
use check_lines::{
    boot_line, buy_line, caveat_seen, cuts_line, effect_line, fallback_line, held_line, lost_line,
    rows_line, session_line, skipped_line, starts_line, unmet_line, written_line,
};
use check_records::{ScriptCaveats, again_line, records_lines};
use check_require::Member;
use std::alloc::{AllocError, Global};
use text_lines::decision_line;

/// The lines of what a normal boot decides before the script and after it.
#[tactic(auto, unfolding(crate::specs::CheckTexts::boot_lines))]
fn boot_lines(alloc: Global, former: &Decision, finished: &Decision) -> Result<String, AllocError>
    ensures { IfOk result (λ t. string_bytes t ≡ boot_lines former.now finished.now) }
{
    let former = decision_line(alloc, former)?;
    let finished = decision_line(alloc, finished)?;
    format!(in alloc; "former {former}end {finished}")
}

/// The lines of the windows that were written.
fn written_lines(alloc: Global, written: &[WrittenWindow]) -> Result<String, AllocError>
    ensures { IfOk result (λ t. string_bytes t ≡ flat_map written_line written.now) }
{
    let mut text = String::new(alloc);
    for window in written {
        let line = written_line(alloc, window)?;
        text.push_str(&line)?;
    }
    Ok(text)
}

/// The lines of the windows whose images are lost.
fn lost_lines(alloc: Global, lost: &[LostWindow]) -> Result<String, AllocError>
    ensures { IfOk result (λ t. string_bytes t ≡ flat_map lost_line lost.now) }
{
    let mut text = String::new(alloc);
    for window in lost {
        let line = lost_line(alloc, window)?;
        text.push_str(&line)?;
    }
    Ok(text)
}

/// The lines of the images, where one starts at so many cuts before its loose bytes are there.
#[tactic(auto, unfolding(crate::specs::CheckTexts::image_lines))]
fn image_lines(alloc: Global, images: &ImagesFound, early: u32) -> Result<String, AllocError>
    ensures { IfOk result (λ t. string_bytes t
        ≡ image_lines (images_from images.now) early) }
{
    let effect = effect_line(alloc, images.effect, images.table, images.flash)?;
    let written = written_lines(alloc, &images.written)?;
    let starts = starts_line(alloc, &images.starts, early)?;
    let fallback = fallback_line(alloc, &images.fallback)?;
    let lost = lost_lines(alloc, &images.lost)?;
    format!(in alloc; "{effect}{written}{starts}{fallback}{lost}")
}

/// The lines of the windows with data, each with the cuts at which an image runs on other data.
fn data_lines(alloc: Global, windows: &[DataWindow], torn: &[u32]) -> Result<String, AllocError>
    ensures { IfOk result (λ t. string_bytes t ≡ data_lines windows.now torn.now) }
{
    let mut text = String::new(alloc);
    for (window, torn) in windows.iter().zip(torn.iter()) {
        let line = data_line(alloc, window, *torn)?;
        text.push_str(&line)?;
    }
    Ok(text)
}

/// The lines of the records, and of a script that is played again.
#[tactic(auto, unfolding(crate::specs::CheckTexts::record_lines))]
fn record_lines(alloc: Global, found: &Findings) -> Result<String, AllocError>
    ensures { IfOk result (λ t. string_bytes t
        ≡ record_lines found.now.records found.now.again) }
{
    let records = records_lines(alloc, &found.records)?;
    let again = again_line(alloc, found.again)?;
    format!(in alloc; "{records}{again}")
}

/// The lines of the laws.
#[tactic(auto, unfolding(crate::specs::CheckTexts::law_lines))]
fn law_lines(alloc: Global, laws: LawsFound) -> Result<String, AllocError>
    ensures { IfOk result (λ t. string_bytes t ≡ law_lines laws.session laws.boot laws.buy) }
{
    let session = session_line(alloc, laws.session)?;
    let boot = boot_line(alloc, laws.boot)?;
    let buy = buy_line(alloc, laws.buy)?;
    format!(in alloc; "{session}{boot}{buy}")
}

/// The lines of the caveats that hold before the script, after it or at a cut.
fn caveat_lines(alloc: Global, caveats: &[CaveatSeen]) -> Result<String, AllocError>
    ensures { IfOk result (λ t. string_bytes t ≡ flat_map caveat_seen caveats.now) }
{
    let mut text = String::new(alloc);
    for seen in caveats {
        let line = caveat_seen(alloc, seen)?;
        text.push_str(&line)?;
    }
    Ok(text)
}

/// The line of a block that was held back, if one was.
fn held_lines(alloc: Global, event: Option<usize>) -> Result<String, AllocError>
    ensures { IfOk result (λ t. string_bytes t ≡ held_lines event) }
{
    match event {
        Some(event) => held_line(alloc, event),
        None => Ok(String::new(alloc)),
    }
}

/// The line of a block that was skipped, if one was.
fn skipped_lines(alloc: Global, event: Option<usize>) -> Result<String, AllocError>
    ensures { IfOk result (λ t. string_bytes t ≡ skipped_lines event) }
{
    match event {
        Some(event) => skipped_line(alloc, event),
        None => Ok(String::new(alloc)),
    }
}

/// The lines of the caveats of the script itself.
#[tactic(auto, unfolding(crate::specs::CheckTexts::event_lines))]
fn event_lines(alloc: Global, script: &ScriptCaveats) -> Result<String, AllocError>
    ensures { IfOk result (λ t. string_bytes t ≡ event_lines script.now) }
{
    let held = held_lines(alloc, script.held)?;
    let skipped = skipped_lines(alloc, script.skipped)?;
    format!(in alloc; "{held}{skipped}")
}

/// The lines of raised rows, laws and cuts.
#[tactic(auto, unfolding(crate::specs::CheckTexts::count_lines))]
fn count_lines(alloc: Global, found: &Findings) -> Result<String, AllocError>
    ensures { IfOk result (λ t. string_bytes t ≡ count_lines (findings_from found.now)) }
{
    let counts = &found.cuts.counts;
    let rows = rows_line(alloc, found.raised, found.images.next, counts.by_mixed)?;
    let laws = law_lines(alloc, found.laws)?;
    let cuts = cuts_line(alloc, counts)?;
    format!(in alloc; "{rows}{laws}{cuts}")
}

/// The lines of what is found. It fails only where memory is out.
#[tactic(auto, unfolding(crate::specs::CheckTexts::findings_text))]
fn findings_text(alloc: Global, found: &Findings) -> Result<String, AllocError>
    ensures { IfOk result (λ t. string_bytes t ≡ findings_text (findings_from found.now)) }
{
    let counts = &found.cuts.counts;
    let boots = boot_lines(alloc, &found.cuts.former, &found.cuts.finished)?;
    let images = image_lines(alloc, &found.images, counts.early)?;
    let data = data_lines(alloc, &found.windows, &counts.other_data)?;
    let records = record_lines(alloc, found)?;
    let counted = count_lines(alloc, found)?;
    let caveats = caveat_lines(alloc, &counts.caveats)?;
    let events = event_lines(alloc, &found.script)?;
    format!(in alloc; "{boots}{images}{data}{records}{counted}{caveats}{events}")
}

/// The lines of the members that are not met.
fn unmet_lines(alloc: Global, unmet: &[Member]) -> Result<String, AllocError>
    ensures { IfOk result (λ t. string_bytes t ≡ flat_map unmet_line unmet.now) }
{
    let mut text = String::new(alloc);
    for member in unmet {
        let line = unmet_line(alloc, *member)?;
        text.push_str(&line)?;
    }
    Ok(text)
}

/// The whole text: what is found, and which members are not met. It fails only where memory is out.
#[tactic(auto, unfolding(crate::specs::CheckTexts::check_text))]
pub(crate) fn check_text(
    alloc: Global,
    found: &Findings,
    unmet: &[Member],
) -> Result<String, AllocError>
    ensures { IfOk result (λ t. string_bytes t
        ≡ check_text (findings_from found.now) unmet.now) }
{
    let lines = findings_text(alloc, found)?;
    let unmet = unmet_lines(alloc, unmet)?;
    format!(in alloc; "{lines}{unmet}")
}
