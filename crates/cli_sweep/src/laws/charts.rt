//! Laws of the works, proved: each is the `ensures` of a function that does nothing.

ghost use Rattle.std.specs.Prelude.{ℕ, List};
ghost use Rattle.pico_board.specs.declared.boot.Cpu.{Cpu};
ghost use Rattle.pico_board.specs.Content.{Content, IsContent};
ghost use Rattle.cli_inputs.specs.Rules.{IsByRules};
ghost use Rattle.cli_sweep.specs.SweepRules.{IsSweepRefused};
ghost use Rattle.cli_sweep.specs.ChartWorks.{chart_work};
ghost use Rattle.cli_sweep.specs.ChartRules.{IsChartOf};

/// On a content the work of `chart` is right by the rules of a sweep. It refuses what `sweep`
/// refuses, in the same words.
pub fn works_are_right()
    ensures { (c : Content) (cpu : Cpu) (script out s p : List ℕ)
        → IsByRules (IsContent c) (chart_work c cpu script out s p)
        (IsSweepRefused script c cpu s) (IsChartOf c cpu out s p) }
{}
