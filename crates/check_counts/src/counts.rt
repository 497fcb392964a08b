//! What is counted over cuts.

ghost use Rattle.std.specs.Prelude.{◌≡◌, ◌≤◌, ◌+◌, [], IfOk, OnOk, false, length, replicate, vec_len};
ghost use Rattle.check_counts.specs.Tallies.{begun, counted_each, tally_of, with_class, with_facts};

use crate::facts::CutFacts;
use crate::seen::{CaveatSeen, add_cut, counted};
use boot_cuts::Class;
use std::alloc::{AllocError, Global};

/// What is counted over the cuts of a script, each of which leaves a content.
#[derive(Debug, Drop)]
pub struct Counts {
    /// How many are former.
    pub former: u32,
    /// How many are finished.
    pub finished: u32,
    /// How many are whole.
    pub whole: u32,
    /// How many are a tail.
    pub tail: u32,
    /// How many are mixed.
    pub mixed: u32,
    /// How many are a fall to BOOTSEL that is not the former one.
    pub bootsel: u32,
    /// At how many a normal boot falls.
    pub falls: u32,
    /// At how many the image of the end starts before its loose bytes are there.
    pub early: u32,
    /// At how many an image runs on other data than its own, for each window with data.
    pub other_data: Vec<u32>,
    /// How many are mixed, and a normal boot raises a row.
    pub by_mixed: u32,
    /// Whether the table is another one at a cut.
    pub other_table: bool,
    /// Whether a cut is neither former nor a fall to BOOTSEL.
    pub other_class: bool,
    /// Each caveat that holds before the script, after it, or at a cut.
    pub caveats: Vec<CaveatSeen>,
}

/// Counts one thing more in each of the counts.
fn count_each(counts: &mut [u32], each: &[bool])
    ensures { counts.new ≡ counted_each counts.old each.now }
{
    for (i, holds) in each.iter().enumerate() {
        if i < counts.len() {
            counts[i] = counted(counts[i], *holds);
        }
    }
}

/// So many counts of 0.
fn zeros(alloc: Global, number: usize) -> Result<Vec<u32>, AllocError>
    ensures { IfOk result (λ counts. counts.items ≡ replicate number 0) }
{
    vec![in alloc; 0u32; number]
}

impl Counts {
    /// The counts over no cut, for so many windows with data, with what is seen of caveats.
    pub(crate) fn begin(
        alloc: Global,
        windows: usize,
        caveats: Vec<CaveatSeen>,
    ) -> Result<Counts, AllocError>
        ensures { IfOk result (λ counts. tally_of counts ≡ begun windows caveats.items) }
    {
        Ok(Counts {
            former: 0,
            finished: 0,
            whole: 0,
            tail: 0,
            mixed: 0,
            bootsel: 0,
            falls: 0,
            early: 0,
            other_data: zeros(alloc, windows)?,
            by_mixed: 0,
            other_table: false,
            other_class: false,
            caveats,
        })
    }

    /// Counts the classes, and the cuts at which a normal boot falls.
    fn add_class(&mut self, facts: &CutFacts)
        ensures { tally_of self.new ≡ with_class (tally_of self.old) facts.now }
    {
        self.former = counted(self.former, facts.has_class(Class::Former));
        self.finished = counted(self.finished, facts.has_class(Class::Finished));
        self.whole = counted(self.whole, facts.has_class(Class::Whole));
        self.tail = counted(self.tail, facts.has_class(Class::Tail));
        self.mixed = counted(self.mixed, facts.has_class(Class::Mixed));
        self.bootsel = counted(self.bootsel, facts.has_class(Class::Bootsel));
        self.falls = counted(self.falls, facts.falls());
        let known = facts.has_class(Class::Former) || facts.has_class(Class::Bootsel);
        self.other_class = self.other_class || !known;
    }

    /// Adds a cut.
    pub(crate) fn add(&mut self, facts: &CutFacts) -> Result<(), AllocError>
        ensures { OnOk result (tally_of self.new ≡ with_facts (tally_of self.old) facts.now) }
    {
        self.add_class(facts);
        self.early = counted(self.early, facts.is_early());
        count_each(&mut self.other_data, facts.other_data());
        self.by_mixed = counted(self.by_mixed, facts.is_raising());
        self.other_table = self.other_table || facts.has_other_table();
        add_cut(&mut self.caveats, facts.caveats())
    }
}
