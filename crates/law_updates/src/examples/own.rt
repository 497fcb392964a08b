//! Boots and buys that raise rows, and all premises of their laws on the same values.

ghost use Rattle.std.specs.Prelude.{[], ◌∷◌, Contains, false};
ghost use Rattle.pico_board.specs.declared.Step.TheVariants.{Erase, Raise};
ghost use Rattle.pico_board.specs.declared.boot.BootKind.TheVariants.{Normal};
ghost use Rattle.pico_board.specs.declared.boot.Cpu.TheVariants.{Arm};
ghost use Rattle.pico_board.specs.Steps.{IsCutAt, after_all};
ghost use Rattle.boot_rules.specs.Chosen.{Chosen};
ghost use Rattle.boot_rules.specs.declared.decision.Decision.TheVariants.{Start};
ghost use Rattle.boot_script.specs.Events.{PowerOn};
ghost use Rattle.boot_machine.specs.Plays.{powerless};
ghost use Rattle.check_require.specs.declared.report.LawOfWrites.TheVariants.{Kept};
ghost use Rattle.check_laws.specs.OwnLaws.{IsBootLaw, IsBuyKept, IsBuyLaw, StartsTheSame, boots_in, buys_in};
ghost use Rattle.law_boot_cuts.specs.Crashes.{LeavesNoAccidentalImage};
ghost use Rattle.law_boot_cuts.specs.Examples.{rows_image};
ghost use Rattle.slot_choice.specs.Examples.{window_at};
ghost use Rattle.worked_flashes.specs.Choices.{starts_alone};
ghost use Rattle.law_updates.specs.Made.{BeginsBoot, BeginsBuy};
ghost use Rattle.law_updates.specs.Played.{IsOnBoard};
ghost use Rattle.law_updates.specs.Rising.{a_rise, a_rising_buy, buying_events, rising_choice, rising_images, rising_trial, rising_trial_choice, runs_rising};

/// A normal boot raises the row of the image that it starts. It does so whole, or its first step
/// alone.
pub fn a_boot_that_raises_a_row()
    ensures whole { BeginsBoot Arm a_rise rising_choice }
    ensures cut { BeginsBoot Arm (record a_rise { done = Raise 0x0c0 3 ∷ [] }) rising_choice }
    ensures same { StartsTheSame Arm a_rise }
{}

/// All premises of the law of boots at once. Power comes back to the flash of that image. It is
/// lost in the second raise of the boot, where one of two bits is raised.
pub fn premises_of_the_law_of_boots()
    ensures on { IsOnBoard (rising_images 0 0 0) Arm (PowerOn ∷ []) }
    ensures law { IsBootLaw (rising_images 0 0 0) Arm (PowerOn ∷ []) Kept }
    ensures among { Contains (boots_in (powerless (rising_images 0 0 0) Arm) (PowerOn ∷ [])) a_rise }
    ensures chosen { Chosen a_rise.before Arm a_rise.kind (Start rising_choice) }
    ensures former { Chosen a_rise.before Arm Normal (Start rising_choice) }
    ensures cut { IsCutAt a_rise.before a_rise.done 1 (Raise 0x0c1 3) (rising_images 3 1 0) }
    ensures no_accident { LeavesNoAccidentalImage a_rise.before
        (after_all a_rise.before a_rise.done)
        (rising_images 3 1 0) Arm rising_choice (Raise 0x0c1 3) }
{
    a_boot_that_raises_a_row();
}

/// The buy of a trial image raises its row, which no other image lists, so it is kept.
pub fn a_buy_that_raises_rows()
    ensures begins { BeginsBuy runs_rising a_rising_buy }
    ensures raises { Contains a_rising_buy.done (Raise 0x0c0 1) }
    ensures kept { IsBuyKept Arm a_rising_buy }
{}

/// All premises of the law of buys at once. The image buys itself in a script that starts it by an
/// update boot. Power is lost in the erase of its sector, before a byte of that has changed.
pub fn premises_of_the_law_of_buys()
    ensures on { IsOnBoard rising_trial Arm buying_events }
    ensures law { IsBuyLaw rising_trial Arm buying_events Kept }
    ensures among { Contains (buys_in (powerless rising_trial Arm) buying_events) a_rising_buy }
    ensures former { Chosen a_rising_buy.before Arm Normal
        (Start (starts_alone false (rows_image (window_at 0x3000 0x1000) 0 0x0c3))) }
    ensures cut { IsCutAt a_rising_buy.before a_rising_buy.done 0 (Erase 2) rising_trial }
    ensures no_accident { LeavesNoAccidentalImage a_rising_buy.before
        (after_all a_rising_buy.before a_rising_buy.done) rising_trial Arm rising_trial_choice
        (Erase 2) }
{
    a_buy_that_raises_rows();
}
