//! Worked examples of the caveats of whole flashes, byte for byte, proved by computing: each is the
//! `ensures` of a function that does nothing.

ghost use Rattle.std.specs.Prelude.{◌≡◌, [], ◌∷◌};
ghost use Rattle.pico_board.specs.declared.boot.BootKind.TheVariants.{Normal, Update, Bootsel as AskBootsel};
ghost use Rattle.pico_board.specs.declared.boot.Cpu.TheVariants.{Arm};
ghost use Rattle.image_check.specs.declared.why.Why.{Why};
ghost use Rattle.worked_flashes.specs.Tables.{window_at};
ghost use Rattle.slot_caveats.specs.declared.caveat.Caveat.{Caveat};
ghost use Rattle.boot_caveats.specs.Caveats.{caveats_in};
ghost use Rattle.slot_caveats.specs.Examples.{arm_word, bare, riscv_word, sector_with, three_sectors};
ghost use Rattle.law_caveats.specs.Examples.{late_rows_flash, two_tables_flash, update_flash};

/// Flashes of 12 KiB without a table: an image in the whole flash, one more in slot 1, and a boot
/// that looks at no image.
pub fn caveats_of_flashes()
    ensures none { caveats_in (three_sectors 0 0 (sector_with (arm_word ∷ [])) bare) Arm Normal
        ≡ [] }
    ensures slot_image { caveats_in
        (three_sectors 0 0 (sector_with (arm_word ∷ [])) (sector_with (arm_word ∷ []))) Arm Normal
        ≡ Caveat.SlotImage (window_at 0x1000 0x1000) ∷ [] }
    ensures requested { caveats_in
        (three_sectors 0x10 0 (sector_with (riscv_word ∷ [])) bare) Arm AskBootsel
        ≡ Caveat.RawFlags 0x048 0x10 ∷ [] }
{}

/// Flashes with several caveats, in their order: an image for the other processor beside one in
/// slot 1; an update; an image with rows and a late first block; and two tables.
pub fn caveats_in_order()
    ensures processor { caveats_in
        (three_sectors 0 0 (sector_with (riscv_word ∷ [])) (sector_with (arm_word ∷ []))) Arm Normal
        ≡ Caveat.OtherProcessor (window_at 0 0x3000)
        ∷ Caveat.SlotImage (window_at 0x1000 0x1000) ∷ [] }
    ensures update { caveats_in update_flash Arm (Update 0x10004000)
        ≡ Caveat.TableInImage (window_at 0x4000 0x1000) 0x120
        ∷ Caveat.OtherProcessor (window_at 0x3000 0x1000) ∷ Caveat.UpdateMovesUnit 1
        ∷ Caveat.RollbackRows (window_at 0x4000 0x1000) ∷ [] }
    ensures rows { caveats_in late_rows_flash Arm Normal
        ≡ Caveat.RollbackRows (window_at 0 0x3000) ∷ Caveat.RollbackFull (window_at 0 0x3000)
        ∷ Caveat.RollbackGap 0x0c0 ∷ Caveat.FirstBlock (window_at 0 0x3000)
        ∷ Caveat.ItemOrder (window_at 0 0x3000) ∷ [] }
    ensures tables { caveats_in two_tables_flash Arm Normal
        ≡ Caveat.MayStart (window_at 0x2000 0x1000) Why.Delta ∷ Caveat.OwnedImage 1
        ∷ Caveat.UnreadTargets 0x10000 ∷ Caveat.UnreadSide 1 ∷ Caveat.TableTie
        ∷ Caveat.ImageInSlot 0 ∷ [] }
{}
