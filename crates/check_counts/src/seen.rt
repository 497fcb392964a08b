//! Where a caveat holds.

ghost use Rattle.std.specs.Prelude.{◌≡◌, ◌∷◌, [], IfOk, OnOk, map};
ghost use Rattle.check_counts.specs.CaveatsSeen.{has_caveat};
ghost use Rattle.check_counts.specs.Tallies.{counted, first_seen, is_seen, seen_again, seen_first, seen_with, with_seen};

use slot_caveats::{Caveat, is_same_caveat};
use std::alloc::{AllocError, Global};

/// A caveat that holds before a script, after it, or at a cut.
#[derive(Clone, Copy, Debug, PartialEq, Eq)]
pub struct CaveatSeen {
    /// The caveat.
    pub caveat: Caveat,
    /// Whether it holds before the script.
    pub former: bool,
    /// Whether it holds after it.
    pub end: bool,
    /// At how many cuts it holds.
    pub cuts: u32,
}

/// A count after one thing more, which is counted where a test says so.
pub(crate) fn counted(count: u32, holds: bool) -> u32
    ensures { result ≡ counted count holds }
{
    if holds {
        count.saturating_add(1)
    } else {
        count
    }
}

/// Whether the caveat is in the list.
fn has_caveat(list: &[Caveat], caveat: &Caveat) -> bool
    ensures { result ≡ has_caveat list.now caveat.now }
{
    list.iter().any(|other| is_same_caveat(caveat, other))
}

/// Whether the caveat is among those that are seen.
fn is_seen(seen: &[CaveatSeen], caveat: &Caveat) -> bool
    ensures { result ≡ is_seen seen.now caveat.now }
{
    seen.iter().any(|one| is_same_caveat(caveat, &one.caveat))
}

/// Adds a caveat that is not seen yet, by the caveats of the two ends, at so many cuts.
fn add_first(
    seen: &mut Vec<CaveatSeen>,
    former: &[Caveat],
    end: &[Caveat],
    cuts: u32,
    caveat: &Caveat,
) -> Result<(), AllocError>
    ensures { OnOk result (seen.new.items
        ≡ with_seen (first_seen former.now end.now cuts) seen.old.items (caveat.now ∷ [])) }
{
    if !is_seen(seen, caveat) {
        seen.push(CaveatSeen {
            caveat: *caveat,
            former: has_caveat(former, caveat),
            end: has_caveat(end, caveat),
            cuts,
        })?;
    }
    Ok(())
}

/// Adds those of a list that are not seen yet.
fn add_firsts(
    seen: &mut Vec<CaveatSeen>,
    former: &[Caveat],
    end: &[Caveat],
    cuts: u32,
    list: &[Caveat],
) -> Result<(), AllocError>
    ensures { OnOk result (seen.new.items
        ≡ with_seen (first_seen former.now end.now cuts) seen.old.items list.now) }
{
    for caveat in list {
        add_first(seen, former, end, cuts, caveat)?;
    }
    Ok(())
}

/// Counts a cut with these caveats for each that is seen.
fn see_again(seen: &mut [CaveatSeen], list: &[Caveat])
    ensures { seen.new ≡ map (seen_again list.now) seen.old }
{
    for one in seen.iter_mut() {
        one.cuts = counted(one.cuts, has_caveat(list, &one.caveat));
    }
}

/// Adds a cut with these caveats.
pub(crate) fn add_cut(seen: &mut Vec<CaveatSeen>, list: &[Caveat]) -> Result<(), AllocError>
    ensures { OnOk result (seen.new.items ≡ seen_with seen.old.items list.now) }
{
    see_again(seen, list);
    add_firsts(seen, &[], &[], 1, list)
}

/// What is seen before any cut: the caveats of the two ends.
pub(crate) fn seen_first(
    alloc: Global,
    former: &[Caveat],
    end: &[Caveat],
) -> Result<Vec<CaveatSeen>, AllocError>
    ensures { IfOk result (λ seen. seen.items ≡ seen_first former.now end.now) }
{
    let mut seen = Vec::new(alloc);
    add_firsts(&mut seen, former, end, 0, former)?;
    add_firsts(&mut seen, former, end, 0, end)?;
    Ok(seen)
}
