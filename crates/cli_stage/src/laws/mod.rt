//! Laws of stages, proved: each is the `ensures` of a function that does nothing.

ghost use Rattle.std.specs.Prelude.{ℕ, List, ⊤};
ghost use Rattle.pico_board.specs.declared.boot.Cpu.{Cpu};
ghost use Rattle.pico_board.specs.Content.{Content};
ghost use Rattle.cli_inputs.specs.Rules.{IsByRules};
ghost use Rattle.cli_stage.specs.StageRules.{IsStageOf, IsStageRefused};
ghost use Rattle.cli_stage.specs.StageWorks.{stage_work};

/// The work of `stage` refuses an image where the rules do, and is right by the rules otherwise.
pub fn works_are_right()
    ensures { (image out i : List ℕ) (c : Content) (cpu : Cpu)
        → IsByRules ⊤ (stage_work c cpu image out i) (IsStageRefused c cpu image i)
        (IsStageOf c cpu i out) }
{}
