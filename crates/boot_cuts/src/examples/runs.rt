//! Worked runs, by computing.

ghost use Rattle.std.specs.Prelude.{◌≡◌, ◌∷◌, []};
ghost use Rattle.cut_class.specs.declared.class.Class.TheVariants.{Former, Finished, Mixed, Bootsel};
ghost use Rattle.boot_cuts.specs.Examples.{falls, falls_otherwise, first_start, last_start, run_to, told};
ghost use Rattle.boot_cuts.specs.Runs.{runs_of};

/// Equal answers one after the other are one run; no cut is no run.
pub fn cuts_with_one_answer()
    ensures none { runs_of [] ≡ [] }
    ensures one { runs_of (told Former falls ∷ []) ≡ run_to 0 0 (told Former falls) ∷ [] }
    ensures two { runs_of (told Former first_start ∷ told Former first_start ∷ [])
        ≡ run_to 0 1 (told Former first_start) ∷ [] }
    ensures three { runs_of (told Bootsel falls ∷ told Bootsel falls ∷ told Bootsel falls ∷ [])
        ≡ run_to 0 2 (told Bootsel falls) ∷ [] }
{}

/// A run ends where the class or the decision is another, also where the other one stays. What
/// comes back later is a run of its own.
pub fn cuts_with_two_answers()
    ensures classes { runs_of (told Former first_start ∷ told Mixed first_start ∷ [])
        ≡ run_to 0 0 (told Former first_start) ∷ run_to 1 1 (told Mixed first_start) ∷ [] }
    ensures starts { runs_of (told Mixed first_start ∷ told Mixed last_start ∷ [])
        ≡ run_to 0 0 (told Mixed first_start) ∷ run_to 1 1 (told Mixed last_start) ∷ [] }
    ensures falls { runs_of (told Bootsel falls ∷ told Bootsel falls_otherwise ∷ [])
        ≡ run_to 0 0 (told Bootsel falls) ∷ run_to 1 1 (told Bootsel falls_otherwise) ∷ [] }
    ensures back { runs_of (told Former first_start ∷ told Former first_start
        ∷ told Finished last_start ∷ told Former first_start ∷ [])
        ≡ run_to 0 1 (told Former first_start) ∷ run_to 2 2 (told Finished last_start)
        ∷ run_to 3 3 (told Former first_start) ∷ [] }
{}
