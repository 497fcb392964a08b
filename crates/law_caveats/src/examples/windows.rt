//! Worked examples of caveats of what stands in windows, proved by computing: each is the `ensures`
//! of a function that does nothing.

ghost use Rattle.std.specs.Prelude.{◌≡◌, [], ◌∷◌, None, Some, Ok, Err, true, false};
ghost use Rattle.pico_board.specs.declared.boot.Cpu.TheVariants.{Arm};
ghost use Rattle.image_check.specs.declared.why.Why.{Why};
ghost use Rattle.boot_rules.specs.declared.decision.Decision.TheVariants.{Bootsel, Start};
ghost use Rattle.boot_rules.specs.declared.decision.Fall.{Fall};
ghost use Rattle.worked_flashes.specs.Flashes.{framed, region};
ghost use Rattle.worked_flashes.specs.Images.{image_of_version};
ghost use Rattle.worked_flashes.specs.Tables.{plain_partition, sectors, window_at};
ghost use Rattle.slot_caveats.specs.declared.caveat.Caveat.{Caveat};
ghost use Rattle.boot_caveats.specs.ChoiceCaveats.{slot_images};
ghost use Rattle.boot_caveats.specs.ImageCaveats.{owned_image};
ghost use Rattle.boot_caveats.specs.ProcessorCaveats.{other_window};
ghost use Rattle.boot_caveats.specs.StartCaveats.{table_place};
ghost use Rattle.law_caveats.specs.Examples.{looked};
ghost use Rattle.slot_caveats.specs.Examples.{arm_trial_word, arm_word, backward_loop, bare, first, in_slot, riscv_trial_word, riscv_word, sector_with, start_of, three_sectors};

/// The first table of a loop that closes, in the loop's order.
pub fn tables_of_loops()
    ensures first { table_place backward_loop ≡ Some 0x200 }
    ensures none { table_place (region 0x100 (framed (arm_word ∷ []) 0)) ≡ None }
    ensures broken { table_place (region 0x100 (framed (0x0000020a ∷ 0 ∷ []) 0x20)) ≡ None }
{}

/// Slots of the smallest size are told where there is no table: both where no image starts, and
/// slot 1 whatever the decision.
pub fn slots_without_a_table()
    ensures no_image { slot_images
        (three_sectors 0 0 (sector_with (arm_word ∷ [])) (sector_with (arm_word ∷ [])))
        Arm (Bootsel Fall.NoImage) 0x1000 None
        ≡ Caveat.SlotImage (window_at 0 0x1000) ∷ Caveat.SlotImage (window_at 0x1000 0x1000) ∷ [] }
    ensures off { slot_images
        (three_sectors 0 0 (sector_with (arm_word ∷ [])) (sector_with (arm_word ∷ [])))
        Arm (Bootsel Fall.FlashOff) 0x1000 None ≡ Caveat.SlotImage (window_at 0x1000 0x1000) ∷ [] }
    ensures first_alone { slot_images (three_sectors 0 0 (sector_with (arm_word ∷ [])) bare)
        Arm (Bootsel Fall.NoImage) 0x1000 None ≡ Caveat.SlotImage (window_at 0 0x1000) ∷ [] }
    ensures start { slot_images (three_sectors 0 0 (sector_with (arm_word ∷ [])) bare)
        Arm (Start (start_of first)) 0x1000 None ≡ [] }
    ensures table { slot_images (three_sectors 0 0 bare (sector_with (arm_word ∷ [])))
        Arm (Bootsel Fall.NoImage) 0x1000 in_slot ≡ [] }
    ensures larger { slot_images (three_sectors 0 0 bare (sector_with (arm_word ∷ [])))
        Arm (Bootsel Fall.NoImage) 0x2000 None ≡ [] }
{}

/// A member without an image that counts, and with one for the other processor; a trial image where
/// one is allowed.
pub fn members_for_the_other_processor()
    ensures image { other_window (three_sectors 0 0 bare (sector_with (riscv_word ∷ []))) Arm
        (looked (Err Why.NotForProcessor) false) ≡ Some (window_at 0x1000 0x1000) }
    ensures same { other_window (three_sectors 0 0 bare (sector_with (arm_word ∷ []))) Arm
        (looked (Err Why.NotForProcessor) false) ≡ None }
    ensures counts { other_window (three_sectors 0 0 bare (sector_with (riscv_word ∷ []))) Arm
        (looked (Ok (image_of_version (window_at 0x1000 0x1000) 0 0 false)) false) ≡ None }
    ensures trial { other_window (three_sectors 0 0 bare (sector_with (riscv_trial_word ∷ []))) Arm
        (looked (Err Why.NotForProcessor) true) ≡ Some (window_at 0x1000 0x1000) }
    ensures no_trial { other_window (three_sectors 0 0 bare (sector_with (riscv_trial_word ∷ [])))
        Arm (looked (Err Why.NotForProcessor) false) ≡ None }
{}

/// An owned partition with an image that is no trial.
pub fn images_of_owned_partitions()
    ensures image { owned_image (three_sectors 0 0 bare (sector_with (arm_word ∷ []))) Arm
        (plain_partition (sectors 1 1) 0xfc000004 ∷ []) 0 ≡ Some (Caveat.OwnedImage 0) }
    ensures free { owned_image (three_sectors 0 0 bare (sector_with (arm_word ∷ []))) Arm
        (plain_partition (sectors 1 1) 0xfc000000 ∷ []) 0 ≡ None }
    ensures no_image { owned_image (three_sectors 0 0 bare (sector_with (arm_word ∷ []))) Arm
        (plain_partition (sectors 2 2) 0xfc000004 ∷ []) 0 ≡ None }
    ensures trial { owned_image (three_sectors 0 0 bare (sector_with (arm_trial_word ∷ []))) Arm
        (plain_partition (sectors 1 1) 0xfc000004 ∷ []) 0 ≡ None }
{}
