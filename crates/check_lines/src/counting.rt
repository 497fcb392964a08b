//! The lines of what is counted over cuts, of raised rows, of laws, of caveats and of what is not
//! met.

ghost use Rattle.std.specs.Prelude.{◌≡◌, IfOk, string_bytes};
ghost use Rattle.check_counts.specs.Tallies.{tally_of};
ghost use Rattle.check_lines.specs.Counting.{boot_line, buy_line, caveat_seen, cuts_line, held_line, law_word, other_counts, reason_word, rows_line, session_line, session_text, skipped_line, unmet_line, well_counts};

use check_counts::{CaveatSeen, Counts};
use check_laws::{Reason, SessionFound};
use check_require::{LawOfWrites, Member};
use cli_caveats::caveat_text;
use std::alloc::{AllocError, Global};
use text_lines::place_text;
use text_words::yes_or_no;

/// The line of raised rows. It fails only where memory is out.
#[tactic(auto, unfolding(crate::specs::Counting::rows_line))]
pub fn rows_line(alloc: Global, raised: u32, next: u32, by_mixed: u32) -> Result<String, AllocError>
    ensures { IfOk result (λ t. string_bytes t ≡ rows_line raised next by_mixed) }
{
    format!(in alloc; "rows raised={raised} next={next} by-mixed={by_mixed}\n")
}

/// Why there is no law of the session, in a word.
fn reason_word(reason: Reason) -> &'static str
    ensures { result.now ≡ reason_word reason }
{
    match reason {
        Reason::Script => "script",
        Reason::Windows => "windows",
        Reason::Running => "running",
        Reason::Table => "table",
        Reason::Order => "order",
    }
}

/// The law of the session, or why there is none.
#[tactic(auto, unfolding(crate::specs::Counting::session_text))]
fn session_text(alloc: Global, law: SessionFound) -> Result<String, AllocError>
    ensures { IfOk result (λ t. string_bytes t ≡ session_text law) }
{
    match law {
        SessionFound::Silent => format!(in alloc; "none"),
        SessionFound::Staged(window) => {
            let place = place_text(alloc, window)?;
            format!(in alloc; "staged {place}")
        }
        SessionFound::Gated(window) => {
            let place = place_text(alloc, window)?;
            format!(in alloc; "gated {place}")
        }
        SessionFound::Confined(window) => {
            let place = place_text(alloc, window)?;
            format!(in alloc; "confined {place}")
        }
        SessionFound::Open(reason) => {
            let reason = reason_word(reason);
            format!(in alloc; "open because={reason}")
        }
    }
}

/// The line of the session's law. It fails only where memory is out.
#[tactic(auto, unfolding(crate::specs::Counting::session_line))]
pub fn session_line(alloc: Global, law: SessionFound) -> Result<String, AllocError>
    ensures { IfOk result (λ t. string_bytes t ≡ session_line law) }
{
    let text = session_text(alloc, law)?;
    format!(in alloc; "law session={text}\n")
}

/// Whether a law speaks of the writes, in a word.
fn law_word(law: LawOfWrites) -> &'static str
    ensures { result.now ≡ law_word law }
{
    match law {
        LawOfWrites::Silent => "none",
        LawOfWrites::Kept => "kept",
        LawOfWrites::Open => "open",
    }
}

/// The line of the boots' law. It fails only where memory is out.
#[tactic(auto, unfolding(crate::specs::Counting::boot_line))]
pub fn boot_line(alloc: Global, law: LawOfWrites) -> Result<String, AllocError>
    ensures { IfOk result (λ t. string_bytes t ≡ boot_line law) }
{
    let word = law_word(law);
    format!(in alloc; "law boot={word}\n")
}

/// The line of the buys' law. It fails only where memory is out.
#[tactic(auto, unfolding(crate::specs::Counting::buy_line))]
pub fn buy_line(alloc: Global, law: LawOfWrites) -> Result<String, AllocError>
    ensures { IfOk result (λ t. string_bytes t ≡ buy_line law) }
{
    let word = law_word(law);
    format!(in alloc; "law buy={word}\n")
}

/// How many cuts have each class that may come where nothing is asked.
#[tactic(auto, unfolding(crate::specs::Counting::well_counts))]
fn well_counts(alloc: Global, counts: &Counts) -> Result<String, AllocError>
    ensures { IfOk result (λ t. string_bytes t ≡ well_counts (tally_of counts.now)) }
{
    let (former, finished, whole) = (counts.former, counts.finished, counts.whole);
    format!(in alloc; "former={former} finished={finished} whole={whole}")
}

/// How many cuts have each of the other classes.
#[tactic(auto, unfolding(crate::specs::Counting::other_counts))]
fn other_counts(alloc: Global, counts: &Counts) -> Result<String, AllocError>
    ensures { IfOk result (λ t. string_bytes t ≡ other_counts (tally_of counts.now)) }
{
    let (tail, mixed, bootsel) = (counts.tail, counts.mixed, counts.bootsel);
    format!(in alloc; "tail={tail} mixed={mixed} bootsel={bootsel}")
}

/// The line of the cuts by their classes. It fails only where memory is out.
#[tactic(auto, unfolding(crate::specs::Counting::cuts_line))]
pub fn cuts_line(alloc: Global, counts: &Counts) -> Result<String, AllocError>
    ensures { IfOk result (λ t. string_bytes t ≡ cuts_line (tally_of counts.now)) }
{
    let well = well_counts(alloc, counts)?;
    let others = other_counts(alloc, counts)?;
    let falls = counts.falls;
    format!(in alloc; "cuts {well} {others} falls={falls}\n")
}

/// The line of a caveat: whether it holds before the script and after it, and at how many cuts. It
/// fails only where memory is out.
#[tactic(auto, unfolding(crate::specs::Counting::caveat_seen))]
pub fn caveat_seen(alloc: Global, seen: &CaveatSeen) -> Result<String, AllocError>
    ensures { IfOk result (λ t. string_bytes t ≡ caveat_seen seen.now) }
{
    let caveat = caveat_text(alloc, seen.caveat)?;
    let former = yes_or_no(seen.former);
    let end = yes_or_no(seen.end);
    let cuts = seen.cuts;
    format!(in alloc; "{caveat} former={former} end={end} cuts={cuts}\n")
}

/// The line of a block that was held back. It fails only where memory is out.
#[tactic(auto, unfolding(crate::specs::Counting::held_line))]
pub fn held_line(alloc: Global, event: usize) -> Result<String, AllocError>
    ensures { IfOk result (λ t. string_bytes t ≡ held_line event) }
{
    format!(in alloc; "caveat held-sector event={event}\n")
}

/// The line of a block that was skipped. It fails only where memory is out.
#[tactic(auto, unfolding(crate::specs::Counting::skipped_line))]
pub fn skipped_line(alloc: Global, event: usize) -> Result<String, AllocError>
    ensures { IfOk result (λ t. string_bytes t ≡ skipped_line event) }
{
    format!(in alloc; "caveat skipped-block event={event}\n")
}

/// The line of a member that is not met. It fails only where memory is out.
#[tactic(auto, unfolding(crate::specs::Counting::unmet_line))]
pub fn unmet_line(alloc: Global, member: Member) -> Result<String, AllocError>
    ensures { IfOk result (λ t. string_bytes t ≡ unmet_line member) }
{
    let name = member.name();
    format!(in alloc; "unmet {name}\n")
}
