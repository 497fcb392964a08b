//! Worked examples of the definitions, proved by computing: each is the `ensures` of a function
//! that does nothing.

ghost use Rattle.std.specs.Prelude.{◌≡◌, [], ◌∷◌, codes};
ghost use Rattle.cli_course.specs.declared.status.Status.TheVariants.{Words};
ghost use Rattle.cli_course.specs.Outcomes.{AreBytes, input_line, unread, not_understood, outcome_found, found};
ghost use Rattle.cli_course.specs.Ends.{saved};

/// The line of an input that is refused, with the file's argument.
pub fn lines_of_inputs()
    ensures { input_line (codes "f") (codes "empty") ≡ codes "input f: empty\n" }
{}

/// Arguments that are no command are answered with one line and write no file.
pub fn words_that_are_no_command()
    ensures { not_understood
        ≡ record { status = Words; text = codes "words not understood\n"; files = [] } }
{}

/// Bytes are below 256.
pub fn bytes_of_files()
    ensures greatest { AreBytes (0 ∷ 255 ∷ []) }
    ensures past { ¬ (AreBytes (0 ∷ 256 ∷ [])) }
{}

/// Of two writes of one name the later bytes stand.
pub fn the_later_bytes_stand()
    ensures { saved
        (record { name = codes "a"; bytes = 1 ∷ [] } ∷ record { name = codes "a"; bytes = 2 ∷ [] }
        ∷ []) []
        ≡ record { name = codes "a"; bytes = 2 ∷ [] } ∷ record { name = codes "a"; bytes = 1 ∷ [] }
        ∷ [] }
{}

/// Where an input is missing there is no text, and the status is that of a read fault.
pub fn lacking_inputs()
    ensures { outcome_found (λ read. not_understood)
        (found (record { name = codes "f"; bytes = [] } ∷ [])
        (record { name = codes "f"; limit = 1 } ∷ record { name = codes "o"; limit = 1 } ∷ []))
        ≡ unread }
{}
