//! Laws of the work, each the contract of a function that does nothing.

ghost use Rattle.std.specs.Prelude.{ℕ, ⊤, List};
ghost use Rattle.pico_board.specs.declared.boot.Cpu.{Cpu};
ghost use Rattle.pico_board.specs.Content.{Content};
ghost use Rattle.cli_inputs.specs.declared.forms.Form.TheVariants.{Script};
ghost use Rattle.cli_inputs.specs.Forms.{HasForm};
ghost use Rattle.cli_inputs.specs.Rules.{IsByRules};
ghost use Rattle.cli_check.specs.CutsRules.{IsCutsOf, IsCutsRefused};
ghost use Rattle.cli_check.specs.CutsWorks.{cuts_work};

/// On a script that has its form the work of `cuts` is right by its rules. It refuses the script
/// exactly where its trace is too long.
pub fn works_are_right()
    ensures { (c : Content) (cpu : Cpu) (script s p : List ℕ) → HasForm Script s
        → IsByRules ⊤ (cuts_work c cpu script s p)
        (IsCutsRefused script c cpu s) (IsCutsOf c cpu s p) }
{}
