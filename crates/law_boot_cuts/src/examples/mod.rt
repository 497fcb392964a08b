//! Worked contents on which power is lost in a boot's own writes. Each is the `ensures` of a
//! function that does nothing.

pub mod running;

ghost use Rattle.std.specs.Prelude.{◌≡◌, false, true, None, IsSome};
ghost use Rattle.law_boot_cuts.specs.Examples.{BothPick, BothStart, SectorHasNoAccidentalImage, hidden_table, last_unit, mapped_sector, rows_image, second_page, table_sector, three_images, three_raises, torn_sector, trial_sector, two_trials, whole_image};
ghost use Rattle.worked_flashes.specs.Flashes.{bare_sector, one_sector, plain_sector, table_and_bare};
ghost use Rattle.law_boot_cuts.specs.Crashes.{AreOwnSteps, LeavesNoAccidentalImage, KeepsOtherRows, KeepsOtherTriples};
ghost use Rattle.boot_rules.specs.AccidentalImages.{HasNoAccidentalImage};
ghost use Rattle.pico_board.specs.Content.{Content, IsContent};
ghost use Rattle.pico_board.specs.declared.window.Window.{Window};
ghost use Rattle.boot_rules.specs.Choosing.{decision_in, images_in};
ghost use Rattle.worked_flashes.specs.Choices.{starts_alone};
ghost use Rattle.boot_rules.specs.Tables.{table_in};
ghost use Rattle.boot_rules.specs.declared.decision.Decision.TheVariants.{Bootsel, Start};
ghost use Rattle.boot_rules.specs.declared.decision.Fall.TheVariants.{NoImage};
ghost use Rattle.pico_board.specs.Steps.{IsCutAt, after_all};
ghost use Rattle.pico_board.specs.declared.Step.TheVariants.{Raise};
ghost use Rattle.pico_board.specs.declared.boot.BootKind.TheVariants.{Normal, Update};
ghost use Rattle.pico_board.specs.declared.boot.Cpu.TheVariants.{Arm};
ghost use Rattle.slot_choice.specs.Examples.{window_at};
ghost use Rattle.trial_buy.specs.Buying.{buy_steps};
ghost use Rattle.trial_buy.specs.Starting.{start_steps};

/// Three images list the same row, with the rollback versions 0, 1 and 2. Before an update of the
/// last image a normal boot starts the first one. After all raises of the update it starts the
/// last one. Where power is lost in the second raise, one bit alone counts, and the boot starts
/// the image between them. So the premise on the rows of other units is needed.
pub fn other_rows_matter()
    ensures before { decision_in (three_images 0x0c0 0 0 0) Arm Normal
        ≡ Start (starts_alone false (rows_image (window_at 0x2000 0x1000) 0 0x0c0)) }
    ensures started { decision_in (three_images 0x0c0 0 0 0) Arm (Update 0x10004000)
        ≡ Start (starts_alone true (rows_image (window_at 0x4000 0x1000) 2 0x0c0)) }
    ensures steps { start_steps (three_images 0x0c0 0 0 0) Arm
        (starts_alone true (rows_image (window_at 0x4000 0x1000) 2 0x0c0)) ≡ three_raises }
    ensures own { AreOwnSteps (three_images 0x0c0 0 0 0) Arm
        (starts_alone true (rows_image (window_at 0x4000 0x1000) 2 0x0c0)) three_raises }
    ensures content { IsContent (three_images 0x0c0 0 0 0) }
    ensures cut { IsCutAt (three_images 0x0c0 0 0 0) three_raises 1 (Raise 0x0c1 3)
        (three_images 0x0c0 3 1 0) }
    ensures done { after_all (three_images 0x0c0 0 0 0) three_raises ≡ three_images 0x0c0 3 3 3 }
    ensures after { decision_in (three_images 0x0c0 3 3 3) Arm Normal
        ≡ Start (starts_alone false (rows_image (window_at 0x4000 0x1000) 2 0x0c0)) }
    ensures torn { decision_in (three_images 0x0c0 3 1 0) Arm Normal
        ≡ Start (starts_alone false (rows_image (window_at 0x3000 0x1000) 1 0x0c0)) }
    ensures premise { KeepsOtherRows (three_images 0x0c0 0 0 0) Arm last_unit three_raises → ⊥ }
    ensures triples { KeepsOtherTriples (three_images 0x0c0 0 0 0) Arm
        (starts_alone true (rows_image (window_at 0x4000 0x1000) 2 0x0c0)) last_unit three_raises
        → ⊥ }
{}

/// Where the other two images list the row after that triple, they keep their rows. Then a normal
/// boot starts the first one of them before the update, after it, and where power is lost in it.
pub fn other_rows_stand_apart()
    ensures before { decision_in (three_images 0x0c3 0 0 0) Arm Normal
        ≡ Start (starts_alone false (rows_image (window_at 0x2000 0x1000) 0 0x0c3)) }
    ensures steps { start_steps (three_images 0x0c3 0 0 0) Arm
        (starts_alone true (rows_image (window_at 0x4000 0x1000) 2 0x0c0)) ≡ three_raises }
    ensures after { decision_in (three_images 0x0c3 3 3 3) Arm Normal
        ≡ Start (starts_alone false (rows_image (window_at 0x2000 0x1000) 0 0x0c3)) }
    ensures torn { decision_in (three_images 0x0c3 3 1 0) Arm Normal
        ≡ Start (starts_alone false (rows_image (window_at 0x2000 0x1000) 0 0x0c3)) }
    ensures premise { KeepsOtherRows (three_images 0x0c3 0 0 0) Arm last_unit three_raises }
    ensures triples { KeepsOtherTriples (three_images 0x0c3 0 0 0) Arm
        (starts_alone true (rows_image (window_at 0x4000 0x1000) 2 0x0c0)) last_unit three_raises }
{}

/// Trial images of other units list the very row, and an update starts one of them. A normal boot
/// starts none of them, so they ask for nothing.
pub fn rows_of_other_trials_may_rise()
    ensures trials { IsSome (images_in two_trials Arm (window_at 0x2000 0x1000) true) }
    ensures steps { start_steps two_trials Arm
        (starts_alone true (rows_image (window_at 0x4000 0x1000) 2 0x0c0)) ≡ three_raises }
    ensures rows { KeepsOtherRows two_trials Arm last_unit three_raises }
    ensures triples { KeepsOtherTriples two_trials Arm
        (starts_alone true (rows_image (window_at 0x4000 0x1000) 2 0x0c0)) last_unit three_raises }
{}

/// A table in the second slot holds in a name the definition of a trial image in the whole flash.
/// The table has its right digest where the trial bit is clear. So the buy of that image makes a
/// table whose partition is bare. Where power is lost after the first page of the rewritten
/// sector, the image is there without its trial bit, and the table is not. So the premise on the
/// table after all steps is needed.
pub fn a_buy_may_make_a_table()
    ensures tableless { table_in (hidden_table (table_sector 0x90210142)) ≡ None }
    ensures content { IsContent (hidden_table (table_sector 0x90210142)) }
    ensures before { decision_in (hidden_table (table_sector 0x90210142)) Arm Normal
        ≡ Bootsel NoImage }
    ensures started { decision_in (hidden_table (table_sector 0x90210142)) Arm (Update 0x10000000)
        ≡ Start (starts_alone true (whole_image true)) }
    ensures own { AreOwnSteps (hidden_table (table_sector 0x90210142)) Arm
        (starts_alone true (whole_image true))
        (buy_steps (hidden_table (table_sector 0x90210142)) Arm
        (starts_alone true (whole_image true))) }
    ensures done { after_all (hidden_table (table_sector 0x90210142))
        (buy_steps (hidden_table (table_sector 0x90210142)) Arm
        (starts_alone true (whole_image true)))
        ≡ hidden_table (table_sector 0x10210142) }
    ensures cut { IsCutAt (hidden_table (table_sector 0x90210142))
        (buy_steps (hidden_table (table_sector 0x90210142)) Arm
        (starts_alone true (whole_image true)))
        2 second_page (hidden_table torn_sector) }
    ensures no_accident { LeavesNoAccidentalImage (hidden_table (table_sector 0x90210142))
        (hidden_table (table_sector 0x10210142)) (hidden_table torn_sector) Arm
        (starts_alone true (whole_image true)) second_page }
    ensures table { IsSome (table_in (hidden_table (table_sector 0x10210142))) }
    ensures after { decision_in (hidden_table (table_sector 0x10210142)) Arm Normal
        ≡ Bootsel NoImage }
    ensures torn_table { table_in (hidden_table torn_sector) ≡ None }
    ensures torn { decision_in (hidden_table torn_sector) Arm Normal
        ≡ Start (starts_alone false (whole_image false)) }
{}

/// A window has no accidental image where it is bare or has a trial image. It has none where it
/// has the image of before or of after with its bytes. It has an accidental image where its image
/// is neither there before nor after, or is valid in a normal boot in neither. It also has one
/// where it has one of these images with another byte.
pub fn the_former_and_the_finished_image_are_no_accident()
    ensures bare { SectorHasNoAccidentalImage (plain_sector 0) (plain_sector 1) bare_sector }
    ensures former { SectorHasNoAccidentalImage (plain_sector 0) bare_sector (plain_sector 0) }
    ensures finished { SectorHasNoAccidentalImage bare_sector (plain_sector 0) (plain_sector 0) }
    ensures new { SectorHasNoAccidentalImage bare_sector bare_sector (plain_sector 0) → ⊥ }
    ensures other_byte { SectorHasNoAccidentalImage (plain_sector 0) (plain_sector 0)
        (plain_sector 1) → ⊥ }
    ensures byte_outside { SectorHasNoAccidentalImage (mapped_sector 0) bare_sector
        (mapped_sector 1) }
    ensures other_block { SectorHasNoAccidentalImage (plain_sector 0) bare_sector (mapped_sector 0)
        → ⊥ }
    ensures trial { SectorHasNoAccidentalImage bare_sector bare_sector trial_sector }
    ensures was_trial { SectorHasNoAccidentalImage trial_sector bare_sector (plain_sector 0) → ⊥ }
    ensures was_below { HasNoAccidentalImage (three_images 0x0c0 3 3 3) (three_images 0x0c0 3 3 3)
        (three_images 0x0c0 0 0 0) (window_at 0x2000 0x1000) Arm → ⊥ }
{}

/// The image of the cut and that of the finished steps are the same where both are there with the
/// same bytes. They are not where one of them is missing or has another byte.
pub fn both_have_the_bought_image()
    ensures starts { BothStart (plain_sector 0) (plain_sector 0) }
    ensures not_here { BothStart bare_sector (plain_sector 0) → ⊥ }
    ensures not_after { BothStart (plain_sector 0) bare_sector → ⊥ }
    ensures not_same { BothStart (plain_sector 0) (plain_sector 1) → ⊥ }
    ensures picked { BothPick (plain_sector 0) (plain_sector 0) }
    ensures not_picked { BothPick bare_sector (plain_sector 0) → ⊥ }
    ensures not_picked_after { BothPick (plain_sector 0) bare_sector → ⊥ }
    ensures not_picked_same { BothPick (plain_sector 0) (plain_sector 1) → ⊥ }
{}

/// Where the table differs from the former one, `HasNoAccidentalImage` holds of no window,
/// whatever it has.
pub fn no_accidental_image_keeps_the_table()
    ensures gone { (z : Content) (w : Window)
        → HasNoAccidentalImage table_and_bare z (one_sector bare_sector) w Arm → ⊥ }
    ensures came { (z : Content) (w : Window)
        → HasNoAccidentalImage (one_sector bare_sector) z table_and_bare w Arm → ⊥ }
    ensures kept { (z : Content)
        → HasNoAccidentalImage table_and_bare z table_and_bare (window_at 0x1000 0x1000) Arm }
{}
