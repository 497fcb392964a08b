//! Worked examples of the definitions, proved by computing: each is the `ensures` of a function
//! that does nothing.

ghost use Rattle.std.specs.Prelude.{◌≡◌, [], ◌∷◌, codes, false, Some, None};
ghost use Rattle.pico_board.specs.declared.boot.Cpu.TheVariants.{Arm};
ghost use Rattle.pico_board.specs.declared.boot.BootKind.TheVariants.{Normal};
ghost use Rattle.cli_words.specs.Rows.{Boot, boot_line, command_line};
ghost use Rattle.cli_words.specs.declared.rows.Verb.TheVariants as verbs;
ghost use Rattle.boot_run.specs.Commands.{Names, NeedsBytes, command_outcome, outcome_on, row_work};
ghost use Rattle.boot_run.specs.Examples.{named, no_start, sink_of};
ghost use Rattle.cli_course.specs.Outcomes.{Answers, refused, unread, not_understood};
ghost use Rattle.cli_course.specs.declared.status.Status.{Status};

/// Of two inputs that break their form the first, in the order of the arguments, is named. A
/// missing name has no text.
pub fn first_faults()
    ensures flash { command_outcome (Boot (codes "f") (codes "o") Arm Normal) ([] ∷ (0 ∷ []) ∷ [])
        ≡ refused (codes "f") (codes "empty") }
    ensures otp { command_outcome (command_line verbs.Info named) ((0 ∷ []) ∷ (0 ∷ []) ∷ [])
        ≡ refused (codes "o") (codes "otp-length") }
    ensures data { command_outcome (boot_line verbs.OwnedData (codes "f") (codes "o") Arm Normal)
        ([] ∷ (0 ∷ []) ∷ []) ≡ refused (codes "f") (codes "empty") }
    ensures caveats { command_outcome (boot_line verbs.Caveats (codes "f") (codes "o") Arm Normal)
        ([] ∷ (0 ∷ []) ∷ []) ≡ refused (codes "f") (codes "empty") }
    ensures replay_flash { command_outcome (command_line verbs.Replay named)
        ([] ∷ (0 ∷ []) ∷ (9 ∷ []) ∷ []) ≡ refused (codes "f") (codes "empty") }
    ensures replay_otp { command_outcome (command_line verbs.Replay named)
        ((0 ∷ []) ∷ (0 ∷ []) ∷ (9 ∷ []) ∷ []) ≡ refused (codes "o") (codes "otp-length") }
    ensures replay_script { command_outcome (command_line verbs.Replay named)
        ((0 ∷ []) ∷ [] ∷ (9 ∷ []) ∷ []) ≡ refused (codes "i") (codes "script kind at=0") }
    ensures lacking { outcome_on (Some (Boot (codes "f") (codes "o") Arm Normal))
        (record { name = codes "f"; bytes = [] } ∷ []) ≡ unread }
    ensures words { outcome_on None [] ≡ not_understood }
{}

/// On another number of inputs than its own a command comes to nothing: no fall, no text and no
/// file.
pub fn other_numbers_of_inputs()
    ensures fewer { row_work verbs.Boot named ([] ∷ []) ≡ Answers false [] [] }
    ensures more { row_work verbs.Firm named ([] ∷ [] ∷ []) ≡ Answers false [] [] }
{}

/// A wrong spec is refused under its own name. A fault of a form comes before any refusal.
pub fn refusals_of_sealings()
    ensures rollback { command_outcome (command_line verbs.Seal named)
        ([] ∷ codes "{\"processor\":\"arm\",\"rollback\":1}" ∷ [])
        ≡ refused (codes "s") (codes "bad-spec rollback") }
    ensures rows { command_outcome (command_line verbs.Seal named)
        ([] ∷ codes "{\"processor\":\"arm\",\"rows\":[192,194]}" ∷ [])
        ≡ refused (codes "s") (codes "bad-spec rows") }
    ensures form { command_outcome (command_line verbs.Seal named) ([] ∷ codes "{}" ∷ [])
        ≡ refused (codes "s") (codes "missing top processor") }
    ensures table { command_outcome (command_line verbs.Table named) (codes "[]" ∷ [])
        ≡ refused (codes "i") (codes "value top partitions") }
    ensures otp { command_outcome (command_line verbs.OtpFile named) (codes "{\"x\":1}" ∷ [])
        ≡ refused (codes "i") (codes "unknown top") }
{}

/// An image is refused for the first fault, under its own name. Faults of forms come before it.
pub fn refusals_of_images()
    ensures uf2 { command_outcome (command_line verbs.Uf2 named) ([] ∷ [])
        ≡ refused (codes "i") (codes "empty") }
    ensures flash { command_outcome (command_line verbs.Plan named)
        ([] ∷ (0 ∷ []) ∷ [] ∷ []) ≡ refused (codes "f") (codes "empty") }
    ensures otp { command_outcome (command_line verbs.Plan named)
        ((0 ∷ []) ∷ (0 ∷ []) ∷ [] ∷ []) ≡ refused (codes "o") (codes "otp-length") }
    ensures load { command_outcome (command_line verbs.Load named)
        ((0 ∷ []) ∷ (0 ∷ []) ∷ [] ∷ []) ≡ refused (codes "o") (codes "otp-length") }
{}

/// A replay and the packing of an ELF file ask that each of their inputs is of bytes. A boot asks
/// nothing.
pub fn inputs_of_bytes()
    ensures elf { NeedsBytes (command_line verbs.Elf named)
        ((0 ∷ 255 ∷ []) ∷ codes "{}" ∷ []) }
    ensures replay { NeedsBytes (command_line verbs.Replay named)
        ((255 ∷ []) ∷ [] ∷ (0 ∷ []) ∷ []) }
    ensures past { ¬ (NeedsBytes (command_line verbs.Elf named)
        ((0 ∷ 256 ∷ []) ∷ codes "{}" ∷ [])) }
    ensures last { ¬ (NeedsBytes (command_line verbs.Replay named)
        ((255 ∷ []) ∷ [] ∷ (256 ∷ []) ∷ [])) }
    ensures any { NeedsBytes (Boot (codes "f") (codes "o") Arm Normal) ((256 ∷ []) ∷ [] ∷ []) }
{}

/// A run names a decision where it ends with the decision's status and puts its line. It does not
/// where it puts nothing, or more, or ends with another status. What was put before stays.
pub fn what_names_a_decision()
    ensures line { Names no_start Status.Bootsel (sink_of (7 ∷ []))
        (sink_of (7 ∷ codes "bootsel no-image\n")) }
    ensures nothing { ¬ (Names no_start Status.Bootsel (sink_of []) (sink_of [])) }
    ensures more { ¬ (Names no_start Status.Bootsel (sink_of [])
        (sink_of (codes "bootsel no-image\n\n"))) }
    ensures other_line { ¬ (Names no_start Status.Bootsel (sink_of [])
        (sink_of (codes "bootsel off\n"))) }
    ensures other_status { ¬ (Names no_start Status.Done (sink_of [])
        (sink_of (codes "bootsel no-image\n"))) }
{}
