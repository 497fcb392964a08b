//! Laws of the works, proved: each is the `ensures` of a function that does nothing.

ghost use Rattle.std.specs.Prelude.{⊤, ℕ, List};
ghost use Rattle.pico_board.specs.declared.boot.Cpu.{Cpu};
ghost use Rattle.pico_board.specs.Content.{Content, IsContent};
ghost use Rattle.cli_course.specs.Outcomes.{AreBytes};
ghost use Rattle.cli_inputs.specs.Rules.{IsByRules};
ghost use Rattle.cli_sweep.specs.FirmWorks.{firm_work};
ghost use Rattle.cli_sweep.specs.SweepRules.{IsFirmOf, IsFirmRefused, IsSweepOf, IsSweepRefused};
ghost use Rattle.cli_sweep.specs.SweepWorks.{sweep_work};

/// The works of `sweep` and `firm` are right by their rules. `sweep` asks for a content and a
/// pattern of bytes, since power that is lost in an erase leaves bytes.
pub fn works_are_right()
    ensures sweep { (c : Content) (cpu : Cpu) (script s p : List ℕ)
        → IsByRules (IsContent c × AreBytes p) (sweep_work c cpu script s p)
        (IsSweepRefused script c cpu s) (IsSweepOf c cpu s p) }
    ensures firm { (image i : List ℕ) (cpu : Cpu)
        → IsByRules ⊤ (firm_work image i cpu) (IsFirmRefused image i cpu) (IsFirmOf i cpu) }
{}
