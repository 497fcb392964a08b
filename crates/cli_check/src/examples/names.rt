//! Worked names of laws.

ghost use Rattle.std.specs.Prelude.{◌≡◌};
ghost use Rattle.check_laws.specs.declared.found.Reason.TheVariants.{Order, Script};
ghost use Rattle.check_laws.specs.declared.found.SessionFound.TheVariants as sessions;
ghost use Rattle.check_require.specs.declared.report.SessionLaw.TheVariants as laws;
ghost use Rattle.cli_check.specs.Examples.{one, other};
ghost use Rattle.cli_check.specs.Reporting.{law_name};

/// Each law of a session has one name, whatever its window or its reason.
pub fn names_of_laws()
    ensures none { law_name sessions.Silent ≡ laws.Silent }
    ensures staged { law_name (sessions.Staged one) ≡ laws.Staged }
    ensures gated { law_name (sessions.Gated other) ≡ laws.Gated }
    ensures confined { law_name (sessions.Confined one) ≡ laws.Confined }
    ensures first_reason { law_name (sessions.Open Script) ≡ laws.Open }
    ensures last_reason { law_name (sessions.Open Order) ≡ laws.Open }
{}
