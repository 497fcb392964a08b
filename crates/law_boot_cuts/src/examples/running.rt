//! Worked examples of updated images that run: what is valid is not chosen by that alone.

ghost use Rattle.std.specs.Prelude.{◌≡◌, false, true};
ghost use Rattle.pico_board.specs.declared.boot.BootKind.{BootKind};
ghost use Rattle.pico_board.specs.declared.boot.BootKind.TheVariants.{Update};
ghost use Rattle.pico_board.specs.declared.boot.Cpu.TheVariants.{Arm};
ghost use Rattle.worked_flashes.specs.Tables.{the_pair};
ghost use Rattle.slot_choice.specs.Examples.{window_at};
ghost use Rattle.image_check.specs.Valid.{Valid};
ghost use Rattle.boot_rules.specs.Chosen.{Chosen};
ghost use Rattle.worked_flashes.specs.Images.{in_b};
ghost use Rattle.worked_flashes.specs.Choices.{starts_b};
ghost use Rattle.boot_rules.specs.declared.decision.Decision.TheVariants.{Start};
ghost use Rattle.law_boot_cuts.specs.RunningExamples.{trial_content};
ghost use Rattle.law_boot_cuts.specs.Running.{StandsValid};

/// A trial of version 1.1 in B, next to version 1.0 in A. The trial is valid in its window, and
/// the update boot of that window chooses it as updated. No boot chooses it as not updated. No
/// boot chooses it where flash boot is off, though it is as valid there.
pub fn valid_and_chosen()
    ensures valid { Valid (trial_content 0) (window_at 0x20000 0x1e000) Arm true (in_b 1 1 true) }
    ensures stands { StandsValid (trial_content 0) Arm (starts_b true (in_b 1 1 true)) the_pair }
    ensures chosen { Chosen (trial_content 0) Arm (Update 0x10020000)
        (Start (starts_b true (in_b 1 1 true))) }
    ensures not_updated { (kind : BootKind)
        → ¬ (Chosen (trial_content 0) Arm kind (Start (starts_b false (in_b 1 1 true)))) }
    ensures valid_and_off { Valid (trial_content 2) (window_at 0x20000 0x1e000) Arm true
        (in_b 1 1 true) }
    ensures off { (kind : BootKind)
        → ¬ (Chosen (trial_content 2) Arm kind (Start (starts_b true (in_b 1 1 true)))) }
{}
