//! Worked verdicts, with what is asked by default.

ghost use Rattle.std.specs.Prelude.{◌≡◌, ◌∷◌, []};
ghost use Rattle.cut_class.specs.declared.class.Class.TheVariants as classes;
ghost use Rattle.check_lines.specs.Examples.{counts_so};
ghost use Rattle.check_require.specs.declared.report.ImageEffect.TheVariants.{Down, New, Unchanged};
ghost use Rattle.cli_course.specs.declared.status.Status.TheVariants.{Done, Mixed, NoEffect, Refused, Unbootable, Unmet};
ghost use Rattle.cli_check.specs.Examples.{all_well, cuts_so, found_so, images_so, not_done, one_ignored, other_lost, status_by_default};

/// A cut or an end of each class.
pub fn statuses_by_cuts()
    ensures passes { status_by_default (cuts_so classes.Finished 0 0 0 0) ≡ Done }
    ensures former_end { status_by_default (cuts_so classes.Former 0 0 0 0) ≡ Done }
    ensures whole { status_by_default (cuts_so classes.Finished 1 0 0 0) ≡ Done }
    ensures tail { status_by_default (cuts_so classes.Finished 0 1 0 0) ≡ Unmet }
    ensures tail_end { status_by_default (cuts_so classes.Tail 0 0 0 0) ≡ Unmet }
    ensures mixed { status_by_default (cuts_so classes.Finished 0 0 1 0) ≡ Mixed }
    ensures mixed_end { status_by_default (cuts_so classes.Mixed 0 0 0 0) ≡ Mixed }
    ensures bootsel { status_by_default (cuts_so classes.Finished 0 0 0 1) ≡ Unbootable }
    ensures bootsel_end { status_by_default (cuts_so classes.Bootsel 0 0 0 0) ≡ Unbootable }
    ensures both { status_by_default (cuts_so classes.Bootsel 0 1 1 1) ≡ Mixed }
{}

/// A script that has no effect, or loses an image, or has a record that did nothing: alone, and
/// with each fault that comes before it.
pub fn statuses_by_findings()
    ensures lost { status_by_default (found_so classes.Finished (counts_so 10 2 0 0 0 0 10)
        (images_so New (other_lost ∷ [])) all_well) ≡ Unmet }
    ensures lower { status_by_default (found_so classes.Finished (counts_so 10 2 0 0 0 0 10)
        (images_so Down []) all_well) ≡ Done }
    ensures no_effect { status_by_default (found_so classes.Former (counts_so 12 0 0 0 0 0 12)
        (images_so Unchanged (other_lost ∷ [])) all_well) ≡ NoEffect }
    ensures refused { status_by_default (found_so classes.Former (counts_so 12 0 0 0 0 0 12)
        (images_so Unchanged []) one_ignored) ≡ Refused }
    ensures unfinished { status_by_default (found_so classes.Finished (counts_so 10 2 0 0 0 0 10)
        (images_so New []) not_done) ≡ Refused }
    ensures dead { status_by_default (found_so classes.Bootsel (counts_so 12 0 0 0 0 0 12)
        (images_so Unchanged []) one_ignored) ≡ Unbootable }
    ensures half_written { status_by_default (found_so classes.Bootsel
        (counts_so 12 0 0 0 1 0 12) (images_so Unchanged []) one_ignored) ≡ Mixed }
{}
