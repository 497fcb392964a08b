//! When each member of what is asked is met, and the verdict.

ghost use Rattle.std.specs.Prelude.{◌≡◌, ◌≤◌, filter, length, not};
ghost use Rattle.std.specs.List.{list_all};
ghost use Rattle.check_require.specs.Meeting.{allows, are_cuts_allowed, has_data, has_effect, has_version, is_covered, is_hashed, is_kept, is_law_of, is_met, is_overwritten, is_written_well, keeps_rows, may_come, may_come_by, some_bootsel, some_mixed, some_tail, some_whole, still_starts, unmet, verdict_on};
ghost use Rattle.check_require.specs.Reports.{report_from};
ghost use Rattle.check_require.specs.Requires.{require_from};

use crate::report::{
    CaveatFound, DataFound, DataOwner, DataWritten, ImageEffect, LawOfWrites, Report, SessionLaw,
    StartFound, Writer, WrittenFound,
};
use crate::requirement::{Allowance, AllowedCaveat, Require, SessionAsk, VersionAsk, WantedEffect};
use crate::{MEMBERS, Member};
use arrayvec::ArrayVec;
use cut_class::Class;

/// What comes of an update by what is asked of it.
#[derive(Clone, Copy, PartialEq, Eq, Debug)]
pub enum Verdict {
    /// All that is asked is met.
    Passed,
    /// Some loss of power, or the whole script, starts a half-written image, and this is not
    /// allowed.
    Mixed,
    /// Some loss of power, or the whole script, leaves nothing to start, and this is not allowed.
    Unbootable,
    /// A record of the script did nothing, and each has to.
    Refused,
    /// The update does not do what it is for.
    NoEffect,
    /// Another member is not met.
    Unmet,
}

/// Whether the update does what it is for.
fn has_effect(wanted: WantedEffect, report: &Report) -> bool
    ensures { result ≡ has_effect wanted (report_from report.now) }
{
    match wanted {
        WantedEffect::Image => !matches!(report.image, ImageEffect::Unchanged),
        WantedEffect::Table => report.table,
        WantedEffect::Flash => report.flash,
        WantedEffect::Nothing => true,
    }
}

/// Whether the image that stands where the script wrote is valid.
fn is_written_well(written: &WrittenFound) -> bool
    ensures { result ≡ is_written_well written.now }
{
    match written.by {
        Writer::Script => written.valid,
        Writer::Boot | Writer::Buy => true,
    }
}

/// Whether a window with data of the former image alone was written.
fn is_overwritten(of: DataOwner, written: DataWritten) -> bool
    ensures { result ≡ is_overwritten of written }
{
    matches!((of, written), (DataOwner::Former, DataWritten::Yes))
}

/// Whether an image finds the data of the window whole.
fn has_data(same_decision: bool, window: &DataFound) -> bool
    ensures { result ≡ has_data same_decision window.now }
{
    window.torn == 0
        && !matches!(window.written, DataWritten::Torn)
        && !is_overwritten(window.of, window.written)
        && (!same_decision || matches!(window.of, DataOwner::Both))
}

/// Whether it is listed what a loss of power may leave.
fn allows(listed: &[Allowance], allowance: Allowance) -> bool
    ensures { result ≡ allows listed.now allowance }
{
    listed.contains(&allowance)
}

/// Whether some cut or the end starts a half-written image.
fn some_mixed(report: &Report) -> bool
    ensures { result ≡ some_mixed (report_from report.now) }
{
    report.cuts.mixed != 0 || matches!(report.end, Class::Mixed)
}

/// Whether some cut or the end starts nothing.
fn some_bootsel(report: &Report) -> bool
    ensures { result ≡ some_bootsel (report_from report.now) }
{
    report.cuts.bootsel != 0 || matches!(report.end, Class::Bootsel)
}

/// Whether some cut or the end starts another whole image.
fn some_whole(report: &Report) -> bool
    ensures { result ≡ some_whole (report_from report.now) }
{
    report.cuts.whole != 0 || matches!(report.end, Class::Whole)
}

/// Whether some cut or the end starts the finished image without its tail.
fn some_tail(report: &Report) -> bool
    ensures { result ≡ some_tail (report_from report.now) }
{
    report.cuts.tail != 0 || matches!(report.end, Class::Tail)
}

/// Whether each cut is former or finished, or of a class that is listed.
fn are_cuts_allowed(listed: &[Allowance], report: &Report) -> bool
    ensures { result ≡ are_cuts_allowed listed.now (report_from report.now) }
{
    (!some_whole(report) || allows(listed, Allowance::Whole))
        && (!some_tail(report) || allows(listed, Allowance::Tail))
        && (!some_mixed(report) || allows(listed, Allowance::Mixed))
        && (!some_bootsel(report) || allows(listed, Allowance::Bootsel))
        && (report.by_mixed == 0 || allows(listed, Allowance::Raising))
}

/// Whether an image starts at the end as one did before.
fn still_starts(report: &Report) -> bool
    ensures { result ≡ still_starts (report_from report.now) }
{
    matches!(report.image, ImageEffect::Unchanged) && report.starts.is_some()
}

/// Whether what starts at the end is of a version that may come.
fn has_version(ask: VersionAsk, report: &Report) -> bool
    ensures { result ≡ has_version ask (report_from report.now) }
{
    match ask {
        VersionAsk::Up => matches!(report.image, ImageEffect::Up | ImageEffect::New),
        VersionAsk::Same => match report.image {
            ImageEffect::Up | ImageEffect::New | ImageEffect::Same => true,
            ImageEffect::Unchanged | ImageEffect::Down => still_starts(report),
        },
        VersionAsk::Any => true,
    }
}

/// Whether the image that starts, if one does, has all its bytes.
fn is_covered(starts: Option<StartFound>) -> bool
    ensures { result ≡ is_covered starts }
{
    match starts {
        None => true,
        Some(start) => start.loose == 0,
    }
}

/// Whether an image starts that has a digest over what it loads.
fn is_hashed(starts: Option<StartFound>) -> bool
    ensures { result ≡ is_hashed starts }
{
    match starts {
        None => false,
        Some(start) => start.hashed,
    }
}

/// Whether no rollback row rises.
fn keeps_rows(report: &Report) -> bool
    ensures { result ≡ keeps_rows (report_from report.now) }
{
    report.raised == 0 && report.next == 0 && report.same_rows
}

/// Whether the law of the session is as strong as is asked.
fn is_law_of(ask: SessionAsk, law: SessionLaw) -> bool
    ensures { result ≡ is_law_of ask law }
{
    match law {
        SessionLaw::Silent | SessionLaw::Staged => true,
        SessionLaw::Gated => !matches!(ask, SessionAsk::Staged),
        SessionLaw::Confined => matches!(ask, SessionAsk::Confined | SessionAsk::Any),
        SessionLaw::Open => matches!(ask, SessionAsk::Any),
    }
}

/// Whether a law speaks of the writes, or there are none.
fn is_kept(law: LawOfWrites) -> bool
    ensures { result ≡ is_kept law }
{
    match law {
        LawOfWrites::Silent | LawOfWrites::Kept => true,
        LawOfWrites::Open => false,
    }
}

/// Whether a caveat that is found may come by one that is allowed.
fn may_come_by(found: &CaveatFound, allowed: &AllowedCaveat) -> bool
    ensures { result ≡ may_come_by found.now allowed.now }
{
    found.name == allowed.name && (!allowed.only_in_cuts || !found.at_end)
}

/// Whether a caveat that is found may come.
fn may_come(listed: &[AllowedCaveat], found: &CaveatFound) -> bool
    ensures { result ≡ may_come listed.now found.now }
{
    listed.iter().any(|allowed| may_come_by(found, allowed))
}

/// Whether all caveats that are found may come.
fn may_all_come(listed: &[AllowedCaveat], found: &[CaveatFound]) -> bool
    ensures { result ≡ list_all (may_come listed.now) found.now }
{
    found.iter().all(|caveat| may_come(listed, caveat))
}

/// Whether each image that stands where the script wrote is valid.
fn are_written_well(written: &[WrittenFound]) -> bool
    ensures { result ≡ list_all is_written_well written.now }
{
    written.iter().all(is_written_well)
}

/// Whether images find their data whole.
fn have_data(same_decision: bool, windows: &[DataFound]) -> bool
    ensures { result ≡ list_all (has_data same_decision) windows.now }
{
    windows.iter().all(|window| has_data(same_decision, window))
}

/// Whether a member of what is asked is met. A truth value that is false asks nothing.
pub fn is_met(ask: &Require, report: &Report, member: Member) -> bool
    ensures { result ≡ is_met (require_from ask.now) (report_from report.now) member }
{
    match member {
        Member::Effect => has_effect(ask.effect, report),
        Member::Records => !ask.records || report.records,
        Member::Written => !ask.written || are_written_well(&report.written),
        Member::Keep => !ask.keep || report.lost == 0,
        Member::Data => !ask.whole_data || have_data(report.same_decision, &report.data_windows),
        Member::Cuts => are_cuts_allowed(&ask.cuts, report),
        Member::Version => has_version(ask.version, report),
        Member::Fallback => !ask.fallback || report.fallback || still_starts(report),
        Member::Again => !ask.again || report.again,
        Member::Covered => !ask.covered || is_covered(report.starts),
        Member::Hash => !ask.hash || is_hashed(report.starts),
        Member::NoRows => !ask.no_rows || keeps_rows(report),
        Member::Session => is_law_of(ask.session, report.session),
        Member::Boot => !ask.boot || is_kept(report.boot),
        Member::Buy => !ask.buy || is_kept(report.buy),
        Member::Caveats => may_all_come(&ask.caveats, &report.caveats),
    }
}

/// Of these members those that are not met, in their order.
fn unmet_of(ask: &Require, report: &Report, members: &[Member]) -> ArrayVec<Member, 16>
    requires few { length members.now ≤ 16 }
    ensures { result.items
        ≡ filter (λ m. not (is_met (require_from ask.now) (report_from report.now) m)) members.now }
{
    let mut found = ArrayVec::new();
    for &member in members {
        if !is_met(ask, report, member) {
            found.push(member);
        }
    }
    found
}

/// The members of what is asked that are not met, in the order of [`MEMBERS`].
pub fn unmet(ask: &Require, report: &Report) -> ArrayVec<Member, 16>
    ensures { result.items ≡ unmet (require_from ask.now) (report_from report.now) }
{
    unmet_of(ask, report, &MEMBERS)
}

/// Whether these members are met.
fn are_all_met(ask: &Require, report: &Report, members: &[Member]) -> bool
    ensures { result
        ≡ list_all (is_met (require_from ask.now) (report_from report.now)) members.now }
{
    members.iter().all(|&member| is_met(ask, report, member))
}

/// The verdict on an update: the first that holds of a half-written image that is not allowed,
/// nothing to start where that is not allowed, a record that did nothing, no effect, and another
/// member that is not met. It passes exactly where no member is unmet.
pub fn verdict_on(ask: &Require, report: &Report) -> Verdict
    ensures { result ≡ verdict_on (require_from ask.now) (report_from report.now) }
{
    if some_mixed(report) && !allows(&ask.cuts, Allowance::Mixed) {
        Verdict::Mixed
    } else if some_bootsel(report) && !allows(&ask.cuts, Allowance::Bootsel) {
        Verdict::Unbootable
    } else if !is_met(ask, report, Member::Records) {
        Verdict::Refused
    } else if !is_met(ask, report, Member::Effect) {
        Verdict::NoEffect
    } else if are_all_met(ask, report, &MEMBERS) {
        Verdict::Passed
    } else {
        Verdict::Unmet
    }
}
