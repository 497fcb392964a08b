//! Laws of `explain`, proved: each is the `ensures` of a function that does nothing.

ghost use Rattle.std.specs.Prelude.{⊤};
ghost use Rattle.pico_board.specs.declared.boot.Cpu.{Cpu};
ghost use Rattle.pico_board.specs.declared.boot.BootKind.{BootKind};
ghost use Rattle.pico_board.specs.Content.{Content};
ghost use Rattle.cli_inputs.specs.Rules.{IsByRules};
ghost use Rattle.cli_explain.specs.Rules.{IsExplainOf};
ghost use Rattle.cli_explain.specs.Works.{explain_work};

/// The work on a content is right by its rules, and refuses nothing.
pub fn works_are_right()
    ensures { (c : Content) (cpu : Cpu) (kind : BootKind)
        → IsByRules ⊤ (explain_work c cpu kind) (λ name fault. ⊥) (IsExplainOf c cpu kind) }
{}
