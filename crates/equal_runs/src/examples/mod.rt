//! Worked runs of numbers: each is the `ensures` of a function that does nothing.

ghost use Rattle.std.specs.Prelude.{◌≡◌, ◌∷◌, ◌==◌, [], ℕ};
ghost use Rattle.equal_runs.specs.Examples.{run_to};
ghost use Rattle.equal_runs.specs.Runs.{AreRuns, runs_of};

/// Neighbours that are the same are one run. A number that comes back later is a run of its own,
/// and no number is no run.
pub fn numbers_and_their_runs()
    ensures none { AreRuns {A = ℕ} [] [] }
    ensures one { AreRuns (7 ∷ 7 ∷ 7 ∷ []) (run_to 0 2 7 ∷ []) }
    ensures several { AreRuns (7 ∷ 7 ∷ 9 ∷ 7 ∷ [])
        (run_to 0 1 7 ∷ run_to 2 2 9 ∷ run_to 3 3 7 ∷ []) }
    ensures found { runs_of (λ a b. a == b) (7 ∷ 7 ∷ 9 ∷ 7 ∷ [])
        ≡ run_to 0 1 7 ∷ run_to 2 2 9 ∷ run_to 3 3 7 ∷ [] }
{}

/// No runs of these numbers are: a run that is cut in two, a last number that is left out, one
/// that stands in no run, and a run over two numbers.
pub fn lists_that_are_no_runs()
    ensures split { AreRuns (7 ∷ 7 ∷ []) (run_to 0 0 7 ∷ run_to 1 1 7 ∷ []) → ⊥ }
    ensures short { AreRuns (7 ∷ 7 ∷ 9 ∷ []) (run_to 0 1 7 ∷ []) → ⊥ }
    ensures gap { AreRuns (7 ∷ 8 ∷ 9 ∷ []) (run_to 0 0 7 ∷ run_to 2 2 9 ∷ []) → ⊥ }
    ensures mixed { AreRuns (7 ∷ 9 ∷ []) (run_to 0 1 7 ∷ []) → ⊥ }
{}
