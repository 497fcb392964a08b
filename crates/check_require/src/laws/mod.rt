//! Laws of the definitions, proved: each is the `ensures` of a function that does nothing.

ghost use Rattle.std.specs.Prelude.{◌≡◌, ◌≢◌, ◌↔◌, [], Err};
ghost use Rattle.std.specs.Result.{result_err};
ghost use Rattle.serde_json.specs.Data.{Data};
ghost use Rattle.check_require.specs.declared.meeting.Verdict.TheVariants.{Passed};
ghost use Rattle.check_require.specs.declared.requirement.RequireFault.{RequireFault};
ghost use Rattle.check_require.specs.Meeting.{unmet, verdict_on};
ghost use Rattle.check_require.specs.Reports.{ReportView};
ghost use Rattle.check_require.specs.Requires.{RequireView, require_of_value};
ghost use Rattle.check_require.specs.Rules.{first_broken, require_rules};

/// The fault of a text's value is that of the first rule that it breaks, in the order of the
/// rules. There is none exactly where no rule is broken. NotJson is about the text alone, and
/// Memory about the memory alone: no value has such an answer.
pub fn faults_are_the_first()
    ensures first { (d : Data)
        → result_err (require_of_value d) ≡ first_broken (require_rules d) }
    ensures not_json { (d : Data) → require_of_value d ≢ Err RequireFault.NotJson }
    ensures memory { (d : Data) → require_of_value d ≢ Err RequireFault.Memory }
{}

/// The verdict on an update passes exactly where no member of what is asked is unmet.
pub fn an_update_passes_exactly_where_nothing_is_unmet()
    ensures { (ask : RequireView) (r : ReportView)
        → (verdict_on ask r ≡ Passed) ↔ (unmet ask r ≡ []) }
{}
