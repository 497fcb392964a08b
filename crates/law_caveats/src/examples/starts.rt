//! Worked examples of flashes on which a boot by another rule decides otherwise than the model,
//! with the caveats of the model's answer, proved by computing: each is the `ensures` of a function
//! that does nothing.

ghost use Rattle.std.specs.Prelude.{◌≡◌, [], ◌∷◌, Some};
ghost use Rattle.pico_board.specs.declared.boot.BootKind.TheVariants.{Normal, Update};
ghost use Rattle.pico_board.specs.declared.boot.Cpu.TheVariants.{Arm};
ghost use Rattle.worked_flashes.specs.Tables.{window_at};
ghost use Rattle.boot_rules.specs.Choosing.{decision_in};
ghost use Rattle.boot_rules.specs.declared.decision.Decision.TheVariants.{Bootsel, Start};
ghost use Rattle.boot_rules.specs.declared.decision.Fall.{Fall};
ghost use Rattle.slot_caveats.specs.declared.caveat.Caveat.{Caveat};
ghost use Rattle.boot_caveats.specs.Caveats.{caveats_in};
ghost use Rattle.boot_caveats.specs.ChoiceCaveats.{started_window};
ghost use Rattle.law_caveats.specs.Alternatives.{ChosenOfBoth, ChosenWithSlots, decision_early, decision_last, decision_typed, decision_unmoved};
ghost use Rattle.law_caveats.specs.Examples.{equal_slots_flash, late_block_flash, riscv_flash, riscv_start, second_slot_flash, second_slot_start, two_parts_flash, version_first_flash};

/// Where no image starts, a boot that decides again for the other processor starts its image.
pub fn boots_of_both_processors()
    ensures other { ChosenOfBoth riscv_flash Arm Normal (Start riscv_start) }
    ensures model { decision_in riscv_flash Arm Normal ≡ Bootsel Fall.NoImage }
    ensures listed { caveats_in riscv_flash Arm Normal
        ≡ Caveat.OtherProcessor (window_at 0 0x3000) ∷ [] }
{}

/// Where no image starts, a boot that tries the two slots starts the image in slot 1.
pub fn boots_from_slots()
    ensures other { ChosenWithSlots second_slot_flash Arm Normal (Start second_slot_start) }
    ensures model { decision_in second_slot_flash Arm Normal ≡ Bootsel Fall.NoImage }
    ensures listed { caveats_in second_slot_flash Arm Normal
        ≡ Caveat.SlotImage (window_at 0x1000 0x1000) ∷ [] }
{}

/// On a tie a boot that takes B starts it.
pub fn boots_on_a_tie()
    ensures other { started_window (decision_last equal_slots_flash Arm Normal)
        ≡ Some (window_at 0x2000 0x2000) }
    ensures model { started_window (decision_in equal_slots_flash Arm Normal)
        ≡ Some (window_at 0 0x2000) }
    ensures listed { caveats_in equal_slots_flash Arm Normal
        ≡ Caveat.Tie (window_at 0 0x2000) (window_at 0x2000 0x2000) ∷ [] }
{}

/// An update of the second partition that leaves the order of the units starts the first one.
pub fn updates_in_table_order()
    ensures other { started_window (decision_unmoved two_parts_flash Arm (Update 0x10003000))
        ≡ Some (window_at 0x2000 0x1000) }
    ensures model { started_window (decision_in two_parts_flash Arm (Update 0x10003000))
        ≡ Some (window_at 0x3000 0x1000) }
    ensures listed { caveats_in two_parts_flash Arm (Update 0x10003000)
        ≡ Caveat.UpdateMovesUnit 1 ∷ [] }
{}

/// A boot that wants IMAGE_TYPE first starts no image whose block begins with its version.
pub fn boots_by_the_order_of_items()
    ensures other { decision_typed version_first_flash Arm Normal ≡ Bootsel Fall.NoImage }
    ensures model { started_window (decision_in version_first_flash Arm Normal)
        ≡ Some (window_at 0 0x3000) }
    ensures listed { caveats_in version_first_flash Arm Normal
        ≡ Caveat.ItemOrder (window_at 0 0x3000) ∷ [] }
{}

/// A boot that wants the first block within 4096 bytes starts no image whose block ends behind
/// them.
pub fn boots_by_the_end_of_a_first_block()
    ensures other { decision_early late_block_flash Arm Normal ≡ Bootsel Fall.NoImage }
    ensures model { started_window (decision_in late_block_flash Arm Normal)
        ≡ Some (window_at 0 0x3000) }
    ensures listed { caveats_in late_block_flash Arm Normal
        ≡ Caveat.FirstBlock (window_at 0 0x3000) ∷ [] }
{}
