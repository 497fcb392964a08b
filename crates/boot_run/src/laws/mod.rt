//! Laws of the program's definitions, proved: each is the `ensures` of a function that does
//! nothing.

ghost use Rattle.std.specs.Prelude.{◌≡◌, ◌↔◌, ℕ, List, [], ◌∷◌, Some, false, true, length};
ghost use Rattle.pico_board.specs.declared.boot.Cpu.{Cpu};
ghost use Rattle.pico_board.specs.declared.boot.BootKind.{BootKind};
ghost use Rattle.pico_board.specs.Files.{File};
ghost use Rattle.cli_course.specs.declared.status.Status.{Status};
ghost use Rattle.cli_course.specs.declared.status.Status.TheVariants.{Input, Bootsel};
ghost use Rattle.cli_words.specs.Rows.{CommandLineView, Boot, boot_line};
ghost use Rattle.cli_words.specs.declared.rows.Verb.TheVariants as verbs;
ghost use Rattle.cli_inputs.specs.Inputs.{readings};
ghost use Rattle.cli_course.specs.Outcomes.{AnswerView, found};
ghost use Rattle.boot_run.specs.Inputs.{inputs_of};
ghost use Rattle.boot_run.specs.Commands.{command_outcome, outcome_on, Obeys, FallsOn, NeedsBytes, IsRefusedCommand, IsRightWith, judges, is_verdict};
ghost use Rattle.cli_course.specs.Ends.{cut};

/// The outcome of a command on the bytes of its inputs is the one that is right by the rules. The
/// inputs of the commands that `NeedsBytes` names have to be of bytes.
pub fn outcomes_are_right()
    ensures right { (command : CommandLineView) (read : List (List ℕ))
        → length read ≡ length (inputs_of command) → NeedsBytes command read
        → Obeys command read (command_outcome command read) }
    ensures only { (command : CommandLineView) (read : List (List ℕ)) (o : AnswerView)
        → Obeys command read o → o ≡ command_outcome command read }
    ensures whole { (command : CommandLineView) (files : List File) (read : List (List ℕ))
        → found files (readings (inputs_of command)) ≡ Some read → NeedsBytes command read
        → Obeys command read (outcome_on (Some command) files) }
{}

/// The status is Input exactly where an input breaks its form, or each has its form and the work
/// refuses one. It is Bootsel exactly where a boot that was asked for falls. A verdict that is no
/// pass comes exactly where each input has its form and what is right for the command ends with
/// this verdict. It comes of no command but those that judge a script.
pub fn statuses_come_exactly()
    ensures input { (command : CommandLineView) (read : List (List ℕ))
        → length read ≡ length (inputs_of command)
        → ((command_outcome command read).status ≡ Input) ↔ IsRefusedCommand command read }
    ensures boot { (flash otp f g : List ℕ) (cpu : Cpu) (kind : BootKind)
        → ((command_outcome (Boot flash otp cpu kind) (f ∷ g ∷ [])).status ≡ Bootsel)
        ↔ FallsOn f g cpu kind }
    ensures data { (flash otp f g : List ℕ) (cpu : Cpu) (kind : BootKind)
        → ((command_outcome (boot_line verbs.OwnedData flash otp cpu kind) (f ∷ g ∷ [])).status
        ≡ Bootsel) ↔ FallsOn f g cpu kind }
    ensures caveats { (flash otp f g : List ℕ) (cpu : Cpu) (kind : BootKind)
        → ((command_outcome (boot_line verbs.Caveats flash otp cpu kind) (f ∷ g ∷ [])).status
        ≡ Bootsel) ↔ FallsOn f g cpu kind }
    ensures judged { (command : CommandLineView) (read : List (List ℕ)) (status : Status)
        → length read ≡ length (inputs_of command) → NeedsBytes command read
        → is_verdict status ≡ true
        → ((command_outcome command read).status ≡ status) ↔ IsRightWith command read status }
    ensures verdict { (command : CommandLineView) (read : List (List ℕ))
        → length read ≡ length (inputs_of command) → judges command.verb ≡ false
        → is_verdict (command_outcome command read).status ≡ false }
{}

/// What is read of files that are longer decides as the whole files do.
pub fn longer_files_decide()
    ensures { (command : CommandLineView) (whole : List (List ℕ))
        → length whole ≡ length (inputs_of command)
        → command_outcome command (cut (readings (inputs_of command)) whole)
        ≡ command_outcome command whole }
{}
