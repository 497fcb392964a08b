//! Laws of `caveats`, proved: each is the `ensures` of a function that does nothing.

ghost use Rattle.std.specs.Prelude.{⊤};
ghost use Rattle.pico_board.specs.declared.boot.Cpu.{Cpu};
ghost use Rattle.pico_board.specs.declared.boot.BootKind.{BootKind};
ghost use Rattle.pico_board.specs.Content.{Content};
ghost use Rattle.cli_inputs.specs.Rules.{IsByRules};
ghost use Rattle.cli_caveats.specs.Rules.{IsCaveatsOf};
ghost use Rattle.cli_caveats.specs.Works.{caveats_work};

/// The work on a content is right by its rules, and refuses nothing.
pub fn works_are_right()
    ensures { (c : Content) (cpu : Cpu) (kind : BootKind)
        → IsByRules ⊤ (caveats_work c cpu kind) (λ name fault. ⊥) (IsCaveatsOf c cpu kind) }
{}
