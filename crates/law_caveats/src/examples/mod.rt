//! Worked examples of the other rules, proved by computing: each is the `ensures` of a function
//! that does nothing.

pub mod flashes;
pub mod starts;
pub mod windows;

ghost use Rattle.std.specs.Prelude.{◌≡◌, [], ◌∷◌, None, Some, Ok, true, false};
ghost use Rattle.pico_board.specs.declared.boot.BootKind.TheVariants.{Normal};
ghost use Rattle.pico_board.specs.declared.boot.Cpu.TheVariants.{Arm, Riscv};
ghost use Rattle.image_check.specs.declared.why.Why.{Why};
ghost use Rattle.slot_choice.specs.declared.unit.Member.TheVariants.{A, B};
ghost use Rattle.worked_flashes.specs.Images.{image_of_version};
ghost use Rattle.worked_flashes.specs.Tables.{window_at};
ghost use Rattle.boot_rules.specs.Choosing.{decision_in};
ghost use Rattle.slot_caveats.specs.declared.caveat.Caveat.{Caveat};
ghost use Rattle.boot_caveats.specs.Caveats.{caveats_in};
ghost use Rattle.boot_caveats.specs.ChoiceCaveats.{started_window};
ghost use Rattle.slot_caveats.specs.Examples.{arm_word, bare, block_with, first, riscv_word, second, sector_with, table_of_parts, table_sector, third, three_sectors};
ghost use Rattle.law_caveats.specs.Alternatives.{better_last, decision_of_both, decision_ordered, decision_slots, decision_unread, ordered_answer_in_loop, slots_before, suits_first};
ghost use Rattle.law_caveats.specs.Examples.{images_from, late_table_block, table_block, taken_window, third_alone, word_of_answer};

/// A block that begins with another item suits no processor by another rule.
pub fn blocks_by_their_first_item()
    ensures suits { suits_first Arm (block_with 0 (0x10210142 ∷ 0x00000248 ∷ 0 ∷ [])) ≡ true }
    ensures suits_not { suits_first Arm (block_with 0 (0x00000248 ∷ 0 ∷ 0x10210142 ∷ []))
        ≡ false }
    ensures other { suits_first Riscv (block_with 0 (0x10210142 ∷ 0x00000248 ∷ 0 ∷ [])) ≡ false }
{}

/// On a tie B is better by another rule. The greater version is better by both rules.
pub fn versions_by_another_rule()
    ensures tie { better_last (Some (image_of_version first 1 9 false).version)
        (Some (image_of_version second 1 9 false).version) ≡ Some B }
    ensures first { better_last (Some (image_of_version first 1 10 false).version)
        (Some (image_of_version second 1 9 false).version) ≡ Some A }
    ensures second { better_last (Some (image_of_version first 1 9 false).version)
        (Some (image_of_version second 2 0 false).version) ≡ Some B }
    ensures only { better_last (Some (image_of_version first 1 9 false).version) None ≡ Some A }
{}

/// Flashes of 12 KiB on which a boot by another rule starts an image, and the model none, with the
/// caveats of the model's answer: an image in slot 0 with a table in slot 1; one whose block has a
/// table behind its first item; one for the other processor, whose caveat
/// `boots_of_both_processors` has; and one without a rollback version where one is required.
pub fn starts_by_another_rule()
    ensures slot { started_window (decision_slots
        (three_sectors 0 0 (sector_with (arm_word ∷ []))
        (table_sector (0x0000020a ∷ 0xfc008000 ∷ []))) Arm Normal)
        ≡ Some (window_at 0 0x1000) }
    ensures slot_listed { caveats_in
        (three_sectors 0 0 (sector_with (arm_word ∷ []))
        (table_sector (0x0000020a ∷ 0xfc008000 ∷ []))) Arm Normal
        ≡ Caveat.ImageInSlot 0 ∷ [] }
    ensures slot_of_model { started_window (decision_in
        (three_sectors 0 0 (sector_with (arm_word ∷ []))
        (table_sector (0x0000020a ∷ 0xfc008000 ∷ []))) Arm Normal) ≡ None }
    ensures order { started_window (decision_ordered
        (three_sectors 0 0 (sector_with (arm_word ∷ 0x0000020a ∷ 0xfc008000 ∷ [])) bare) Arm Normal)
        ≡ Some (window_at 0 0x3000) }
    ensures order_listed { caveats_in
        (three_sectors 0 0 (sector_with (arm_word ∷ 0x0000020a ∷ 0xfc008000 ∷ [])) bare) Arm Normal
        ≡ Caveat.ImageInSlot 0 ∷ Caveat.TableOrder 0 ∷ [] }
    ensures order_of_model { started_window (decision_in
        (three_sectors 0 0 (sector_with (arm_word ∷ 0x0000020a ∷ 0xfc008000 ∷ [])) bare) Arm Normal)
        ≡ None }
    ensures processor { started_window (decision_of_both
        (three_sectors 0 0 (sector_with (riscv_word ∷ [])) bare) Arm Normal)
        ≡ Some (window_at 0 0x3000) }
    ensures processor_of_model { started_window (decision_in
        (three_sectors 0 0 (sector_with (riscv_word ∷ [])) bare) Arm Normal) ≡ None }
    ensures rows { started_window (decision_unread
        (three_sectors 1 0 (sector_with (arm_word ∷ [])) bare) Arm Normal)
        ≡ Some (window_at 0 0x3000) }
    ensures rows_listed { caveats_in
        (three_sectors 1 0 (sector_with (arm_word ∷ [])) bare) Arm Normal
        ≡ Caveat.MayStart (window_at 0 0x3000) Why.RollbackRequired ∷ [] }
    ensures rows_of_model { started_window (decision_in
        (three_sectors 1 0 (sector_with (arm_word ∷ [])) bare) Arm Normal) ≡ None }
{}

/// Beside a table slot 0 and then slot 1 are tried before other units; without one they are not.
pub fn slots_beside_a_table()
    ensures first { taken_window (slots_before (Some (table_of_parts false 0 0 [])) (images_from 0)
        0x1000 third_alone) ≡ Some (window_at 0 0x1000) }
    ensures second { taken_window (slots_before (Some (table_of_parts false 0 0 []))
        (images_from 0x1000) 0x1000 third_alone) ≡ Some (window_at 0x1000 0x1000) }
    ensures other { taken_window (slots_before (Some (table_of_parts false 0 0 []))
        (images_from 0x1004) 0x1000 third_alone) ≡ Some third }
    ensures no_table { taken_window (slots_before None (images_from 0) 0x1000 third_alone)
        ≡ Some third }
{}

/// The last block of a loop counts that begins with its table.
pub fn tables_that_begin_their_block()
    ensures last { word_of_answer (ordered_answer_in_loop 3 2
        (Ok (table_block 0xfc000000 ∷ table_block 0xfc008000 ∷ []))) ≡ Some 0xfc008000 }
    ensures earlier { word_of_answer (ordered_answer_in_loop 3 2
        (Ok (table_block 0xfc000000 ∷ late_table_block 0xfc008000 ∷ []))) ≡ Some 0xfc000000 }
    ensures none { word_of_answer (ordered_answer_in_loop 3 2
        (Ok (late_table_block 0xfc008000 ∷ []))) ≡ None }
{}
