//! Laws of runs, each the contract of a function that does nothing.

ghost use Rattle.std.specs.Prelude.{◌≡◌, ◌↔◌, Bool, List, true};
ghost use Rattle.equal_runs.specs.Runs.{AreRuns, RunOf, runs_of};

/// The runs that the function finds are all entries in their order, each of one entry, and
/// neighbours differ, where `same` tells whether two entries are the same.
pub fn runs_are_runs<T>()
    ensures { (same : T → T → Bool) → ((a b : T) → (same a b ≡ true) ↔ (a ≡ b))
        → (entries : List T) → AreRuns entries (runs_of same entries) }
{}

/// No other list of runs is that of these entries.
pub fn runs_are_the_only_ones<T>()
    ensures { (entries : List T) (a b : List (RunOf T))
        → AreRuns entries a → AreRuns entries b → a ≡ b }
{}
