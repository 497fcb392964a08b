//! Laws of replays, proved: each is the `ensures` of a function that does nothing.

ghost use Rattle.std.specs.Prelude.{ℕ, List};
ghost use Rattle.pico_board.specs.declared.boot.Cpu.{Cpu};
ghost use Rattle.cli_course.specs.Outcomes.{AreBytes};
ghost use Rattle.cli_inputs.specs.declared.forms.Form.TheVariants.{Script};
ghost use Rattle.cli_inputs.specs.Forms.{HasForm, content_of_files};
ghost use Rattle.cli_inputs.specs.Rules.{IsByRules};
ghost use Rattle.cli_scripts.specs.ReplayWorks.{replay_work};
ghost use Rattle.cli_scripts.specs.ReplayRules.{IsReplayOf};

/// On a flash file and a script of bytes, where the script has its form, the work of a replay is
/// right by its rules. It refuses no file.
pub fn works_are_right()
    ensures { (f g s out_flash out_otp : List ℕ) (cpu : Cpu) → HasForm Script s
        → IsByRules (AreBytes f × AreBytes s)
        (replay_work (content_of_files f g) cpu s out_flash out_otp) (λ name fault. ⊥)
        (IsReplayOf (content_of_files f g) cpu s out_flash out_otp) }
{}
