//! Laws of the definitions of a run's course, proved: each is the `ensures` of a function that
//! does nothing.

ghost use Rattle.std.specs.Prelude.{ℕ, ◌≡◌, ◌<◌, ◌≤◌, ◌+◌, ◌++◌, [], ◌∷◌, List, length, true, false};
ghost use Rattle.cli_course.specs.declared.status.Status.TheVariants.{Done, Words, Input, Bootsel, ReadFault, WriteFault, OutputFault, Memory, Unbootable, Mixed, NoEffect, Refused, Unmet};
ghost use Rattle.cli_course.specs.Statuses.{exit_status};
ghost use Rattle.cli_course.specs.Outcomes.{LimitedInputView as ReadInput, is_finished};
ghost use Rattle.cli_course.specs.Ends.{cut};

/// The program ends with one of thirteen numbers, by how the run ended.
pub fn statuses_have_numbers()
    ensures done { exit_status Done ≡ 0 }
    ensures words { exit_status Words ≡ 1 }
    ensures input { exit_status Input ≡ 2 }
    ensures bootsel { exit_status Bootsel ≡ 3 }
    ensures read_fault { exit_status ReadFault ≡ 4 }
    ensures write_fault { exit_status WriteFault ≡ 5 }
    ensures output_fault { exit_status OutputFault ≡ 6 }
    ensures memory { exit_status Memory ≡ 7 }
    ensures unbootable { exit_status Unbootable ≡ 8 }
    ensures mixed { exit_status Mixed ≡ 9 }
    ensures no_effect { exit_status NoEffect ≡ 10 }
    ensures refused { exit_status Refused ≡ 11 }
    ensures unmet { exit_status Unmet ≡ 12 }
{}

/// A run is finished where its whole text was put: it is done, its arguments are no command, an
/// input is refused, the boot falls to BOOTSEL, or a script is judged. After one of four failures
/// it is not finished: of a read, of a write, of the put, or of memory.
pub fn statuses_of_finished_runs()
    ensures done { is_finished Done ≡ true }
    ensures words { is_finished Words ≡ true }
    ensures input { is_finished Input ≡ true }
    ensures bootsel { is_finished Bootsel ≡ true }
    ensures read_fault { is_finished ReadFault ≡ false }
    ensures write_fault { is_finished WriteFault ≡ false }
    ensures output_fault { is_finished OutputFault ≡ false }
    ensures memory { is_finished Memory ≡ false }
    ensures unbootable { is_finished Unbootable ≡ true }
    ensures mixed { is_finished Mixed ≡ true }
    ensures no_effect { is_finished NoEffect ≡ true }
    ensures refused { is_finished Refused ≡ true }
    ensures unmet { is_finished Unmet ≡ true }
{}

/// Of a longer file one byte more than its limit is read. A file within its limit is read whole.
pub fn what_is_read_of_files()
    ensures longer { (input : ReadInput) (bytes : List ℕ) → input.limit < length bytes
        → (first : List ℕ) × (rest : List ℕ) × (length first ≡ input.limit + 1)
        × (bytes ≡ first ++ rest) × (cut (input ∷ []) (bytes ∷ []) ≡ first ∷ []) }
    ensures whole { (input : ReadInput) (bytes : List ℕ) → length bytes ≤ input.limit
        → cut (input ∷ []) (bytes ∷ []) ≡ bytes ∷ [] }
{}
