//! What is told of the content that a cut leaves.

ghost use Rattle.std.specs.Prelude.{◌≡◌, not};
ghost use Rattle.boot_cuts.specs.Classing.{is_start};
ghost use Rattle.boot_cuts.specs.Counts.{has_class};

use boot_cuts::{Answer, Class, is_same_class};
use boot_rules::Decision;
use slot_caveats::Caveat;
use std::marker::Model;

/// What is told of the content that a cut leaves. Contracts see the lists, and not their room.
#[derive(Drop)]
pub struct CutFacts {
    answer: Answer,
    early: bool,
    other_data: Vec<bool>,
    raises: bool,
    other_table: bool,
    caveats: Vec<Caveat>,
}

impl Model for CutFacts {
    ghost use Rattle.check_counts.specs.Facts.{Facts};

    ghost Value = { Facts };

    ghost view = { λ facts. record {
      answer = facts.answer;
      early = facts.early;
      other_data = facts.other_data.items;
      raises = facts.raises;
      other_table = facts.other_table;
      caveats = facts.caveats.items;
    } };
}

impl CutFacts {
    /// The facts: what a normal boot makes of the content; whether the image of the end starts
    /// before its loose bytes are there; whether an image runs on other data, for each window with
    /// data; whether the cut is mixed and the boot raises a row; whether the table is another one;
    /// the caveats of the boot.
    pub(crate) fn new(
        answer: Answer,
        early: bool,
        other_data: Vec<bool>,
        raises: bool,
        other_table: bool,
        caveats: Vec<Caveat>,
    ) -> CutFacts
        ensures { result ≡ record {
          answer = answer;
          early = early;
          other_data = other_data.items;
          raises = raises;
          other_table = other_table;
          caveats = caveats.items;
        } }
    {
        CutFacts {
            answer,
            early,
            other_data,
            raises,
            other_table,
            caveats,
        }
    }

    /// Whether the cut is of this class.
    pub(crate) fn has_class(&self, class: Class) -> bool
        ensures { result ≡ has_class class self.now.answer }
    {
        is_same_class(class, self.answer.class)
    }

    /// Whether a normal boot falls.
    pub(crate) fn falls(&self) -> bool
        ensures { result ≡ not (is_start self.now.answer.decision) }
    {
        match &self.answer.decision {
            Decision::Start(_) => false,
            Decision::Bootsel(_) => true,
        }
    }

    /// Whether the image of the end starts before its loose bytes are there.
    pub(crate) fn is_early(&self) -> bool
        ensures { result ≡ self.now.early }
    {
        self.early
    }

    /// Whether an image runs on other data, for each window with data.
    pub(crate) fn other_data(&self) -> &[bool]
        ensures { result.now ≡ self.now.other_data }
    {
        &self.other_data
    }

    /// Whether the cut is mixed and the boot raises a row.
    pub(crate) fn is_raising(&self) -> bool
        ensures { result ≡ self.now.raises }
    {
        self.raises
    }

    /// Whether the table is another one.
    pub(crate) fn has_other_table(&self) -> bool
        ensures { result ≡ self.now.other_table }
    {
        self.other_table
    }

    /// The caveats of the boot.
    pub(crate) fn caveats(&self) -> &[Caveat]
        ensures { result.now ≡ self.now.caveats }
    {
        &self.caveats
    }
}
