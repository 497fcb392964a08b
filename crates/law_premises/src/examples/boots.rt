//! Premises on boots and their reasons.

ghost use Rattle.std.specs.Prelude.{◌≡◌, ◌∷◌, [], true, false, None, Some};
ghost use Rattle.pico_board.specs.declared.boot.Cpu.TheVariants.{Arm};
ghost use Rattle.pico_board.specs.declared.boot.BootKind.TheVariants.{Bootsel, Normal};
ghost use Rattle.slot_choice.specs.Examples.{the_pair};
ghost use Rattle.slot_choice.specs.declared.unit.Member.TheVariants.{A, B};
ghost use Rattle.image_def.specs.declared.started.Started.{Started};
ghost use Rattle.boot_rules.specs.AccidentalImages.{HasNoImage};
ghost use Rattle.boot_rules.specs.Picking.{IsNormalImage};
ghost use Rattle.boot_rules.specs.Changes.{HaveSameImages, HaveSameImagesBut, IsNotIn};
ghost use Rattle.boot_rules.specs.Starts.{IsOwnedPair};
ghost use Rattle.boot_reasons.specs.Rules.{FallsBefore, TakeNone};
ghost use Rattle.part_table.specs.Examples.{owned_table};
ghost use Rattle.worked_flashes.specs.Choices.{small_first, small_former, small_slot};
ghost use Rattle.worked_flashes.specs.Flashes.{arm_member, bare, beside_former, rows_with};
ghost use Rattle.worked_flashes.specs.Images.{in_a};
ghost use Rattle.worked_flashes.specs.Writes.{slot};
ghost use Rattle.law_premises.specs.Examples.{bare_report, images_with_second, no_images, owned_unit, owned_second, second_window};

/// A boot that asks for BOOTSEL, one where flash boot is off, and one without either.
pub fn boots_that_fall_before_a_unit()
    ensures asked { FallsBefore (record { flash = []; otp = [] }) Bootsel }
    ensures off { FallsBefore (record { flash = []; otp = rows_with 2 0 }) Normal }
    ensures neither { FallsBefore (record { flash = []; otp = rows_with 1 0 }) Normal → ⊥ }
{}

/// Two reports without an image that is taken.
pub fn reports_that_take_none()
    ensures none { TakeNone (bare_report ∷ bare_report ∷ []) }
{}

/// A pair without an image, and the same with one in its B alone.
pub fn images_of_a_pair()
    ensures same { HaveSameImages no_images no_images (the_pair ∷ []) }
    ensures but_second { HaveSameImagesBut second_window no_images images_with_second
        (the_pair ∷ []) }
    ensures not_same { HaveSameImages no_images images_with_second (the_pair ∷ []) → ⊥ }
{}

/// A choice of the first slot is none of the second.
pub fn a_choice_in_another_slot()
    ensures outside { IsNotIn small_slot (Some small_former) }
    ensures inside { IsNotIn small_first (Some small_former) → ⊥ }
{}

/// The pair of data that a pair of images owns.
pub fn an_owned_pair()
    ensures owned { IsOwnedPair owned_table owned_unit owned_second }
{}

/// A bare slot next to version 1.9 has no image. A slot in which version 1.10 stands has one.
pub fn a_slot_without_an_image()
    ensures bare { HasNoImage (beside_former bare) slot Arm }
    ensures written { HasNoImage (beside_former (arm_member 0x0001000a)) slot Arm → ⊥ }
{}

/// The image of the A of a pair, and the bare B of that pair.
pub fn a_normal_image_of_a_pair()
    ensures first { IsNormalImage (beside_former bare) Arm the_pair A (in_a 1 9 false) }
    ensures second { (s : Started) → IsNormalImage (beside_former bare) Arm the_pair B s → ⊥ }
{}
