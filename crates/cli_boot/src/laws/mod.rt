//! Laws of the commands on a board, proved: each is the `ensures` of a function that does nothing.

ghost use Rattle.std.specs.Prelude.{⊤};
ghost use Rattle.pico_board.specs.declared.boot.Cpu.{Cpu};
ghost use Rattle.pico_board.specs.declared.boot.BootKind.{BootKind};
ghost use Rattle.pico_board.specs.Content.{Content};
ghost use Rattle.cli_boot.specs.Works.{boot_work, info_work, data_work};
ghost use Rattle.cli_boot.specs.Rules.{IsBootOutcome, IsInfoOutcome, IsDataOutcome};
ghost use Rattle.cli_inputs.specs.Rules.{IsByRules};

/// The work of each command on a content is right by its rules, and refuses nothing.
pub fn works_are_right()
    ensures boot { (c : Content) (cpu : Cpu) (kind : BootKind)
        → IsByRules ⊤ (boot_work c cpu kind) (λ name fault. ⊥) (IsBootOutcome c cpu kind) }
    ensures info { (c : Content) (cpu : Cpu)
        → IsByRules ⊤ (info_work c cpu) (λ name fault. ⊥) (IsInfoOutcome c cpu) }
    ensures data { (c : Content) (cpu : Cpu) (kind : BootKind)
        → IsByRules ⊤ (data_work c cpu kind) (λ name fault. ⊥) (IsDataOutcome c cpu kind) }
{}
