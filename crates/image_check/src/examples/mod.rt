//! Worked examples of the rules, proved by computing: each is the `ensures` of a function that does
//! nothing.

pub mod digest;
pub mod digests;
pub mod order;
pub mod same_image;

ghost use Rattle.std.specs.Prelude.{◌≡◌, [], ◌∷◌, true, false, Some, None, Ok, Err};
ghost use Rattle.pico_board.specs.declared.boot.Cpu.TheVariants.{Arm, Riscv};
ghost use Rattle.pico_board.specs.Content.{flash_base};
ghost use Rattle.image_check.specs.declared.why.Why.TheVariants.{NotForProcessor, Trial, RollbackRequired, Below, Map, Entry};
ghost use Rattle.image_check.specs.declared.why.EntryFault.TheVariants.{Table, InBlock, Pc};
ghost use Rattle.image_check.specs.Entry.{judged_source, source_of};
ghost use Rattle.image_check.specs.Rules.{rollback_fault};
ghost use Rattle.load_map.specs.declared.load.MapFault.TheVariants.{Runtime};
ghost use Rattle.image_check.specs.Addressing.{in_flash, in_ram};
ghost use Rattle.image_check.specs.Image.{image_in};
ghost use Rattle.image_check.specs.Examples.{record_at, map_of, right_pc, entry_point_at, tabled, pointed, trial_window_bytes, version_nine, window_at_two};
ghost use Rattle.worked_flashes.specs.Images.{arm_type, window_with, small_block, table_bytes, def_with_rows};
ghost use Rattle.worked_flashes.specs.Flashes.{otp_with};

/// PC with bit 0 set: in a window of 8192 bytes and past it; before, in and behind the 20 bytes of
/// the block at 0x114.
pub fn code_in_the_window()
    ensures first { judged_source flash_base 8192 (small_block 0x114) (tabled 0x10000000 0x10000201)
        ≡ Ok (entry_point_at 0x10000201) }
    ensures last { judged_source flash_base 8192 (small_block 0x114) (tabled 0x10000000 0x10001fff)
        ≡ Ok (entry_point_at 0x10001fff) }
    ensures past { judged_source flash_base 8192 (small_block 0x114) (tabled 0x10000000 0x10002001)
        ≡ Err Pc }
    ensures below { judged_source flash_base 8192 (small_block 0x114) (tabled 0x10000000 0x0fffffff)
        ≡ Err Pc }
    ensures before_block { judged_source flash_base 8192 (small_block 0x114)
        (tabled 0x10000000 0x10000113) ≡ Ok (entry_point_at 0x10000113) }
    ensures at_block { judged_source flash_base 8192 (small_block 0x114)
        (tabled 0x10000000 0x10000115) ≡ Err InBlock }
    ensures in_block { judged_source flash_base 8192 (small_block 0x114)
        (tabled 0x10000000 0x10000127) ≡ Err InBlock }
    ensures behind_block { judged_source flash_base 8192 (small_block 0x114)
        (tabled 0x10000000 0x10000129) ≡ Ok (entry_point_at 0x10000129) }
{}

/// PC in SRAM, which is 0x20000000 up to 0x20082000, and in no memory.
pub fn code_in_sram()
    ensures first { judged_source flash_base 8192 (small_block 0x114) (tabled 0x10000000 0x20000000)
        ≡ Ok (entry_point_at 0x20000000) }
    ensures last { judged_source flash_base 8192 (small_block 0x114) (tabled 0x10000000 0x20081fff)
        ≡ Ok (entry_point_at 0x20081fff) }
    ensures past { judged_source flash_base 8192 (small_block 0x114) (tabled 0x10000000 0x20082001)
        ≡ Err Pc }
    ensures below { judged_source flash_base 8192 (small_block 0x114) (tabled 0x10000000 0x1fffffff)
        ≡ Err Pc }
    ensures nowhere { judged_source flash_base 8192 (small_block 0x114)
        (tabled 0x10000000 0xffffffff) ≡ Err Pc }
{}

/// Vector tables of eight bytes before, over and behind the block; an ENTRY_POINT item has none.
pub fn tables_and_the_block()
    ensures over { judged_source flash_base 8192 (small_block 4) (tabled 0x10000000 0x10000201)
        ≡ Err InBlock }
    ensures before { judged_source flash_base 8192 (small_block 8) (tabled 0x10000000 0x10000201)
        ≡ Ok (entry_point_at 0x10000201) }
    ensures touches_first { judged_source flash_base 8192 (small_block 0x100)
        (tabled 0x100000f9 0x10000201) ≡ Err InBlock }
    ensures at_block { judged_source flash_base 8192 (small_block 0x100)
        (tabled 0x10000100 0x10000201) ≡ Err InBlock }
    ensures touches_last { judged_source flash_base 8192 (small_block 0x100)
        (tabled 0x10000113 0x10000201) ≡ Err InBlock }
    ensures behind { judged_source flash_base 8192 (small_block 0x100)
        (tabled 0x10000114 0x10000201) ≡ Ok (entry_point_at 0x10000201) }
    ensures in_sram { judged_source flash_base 8192 (small_block 0) (tabled 0x20000000 0x10000201)
        ≡ Ok (entry_point_at 0x10000201) }
    ensures item { judged_source flash_base 8192 (small_block 4) (pointed 0x10000201)
        ≡ Ok (entry_point_at 0x10000201) }
{}

/// Where PC and SP come from. For Arm it is the vector table at the window's start, at an address
/// in the window, or in loaded SRAM. For RISC-V it is the window's start. An ENTRY_POINT item goes
/// before both.
#[tactic(auto, unfolding(block_codec::specs::Words::word_of))]
pub fn entries_are_found()
    ensures arm { source_of flash_base table_bytes Arm (def_with_rows None None []) [] None
        ≡ Ok (tabled 0x10000000 0x10000201) }
    ensures item_address { source_of flash_base (0xff ∷ table_bytes) Arm
        (def_with_rows (Some 0x10000001) None []) [] None ≡ Ok (tabled 0x10000001 0x10000201) }
    ensures past_window { source_of flash_base table_bytes Arm
        (def_with_rows (Some 0x10000001) None []) [] None ≡ Err Table }
    ensures loaded { source_of flash_base table_bytes Arm (def_with_rows (Some 0x20000010) None [])
        (record { storage = Some 0; runtime = 0x20000010; size = 8 } ∷ []) None
        ≡ Ok (tabled 0x20000010 0x10000201) }
    ensures loaded_in_part { source_of flash_base table_bytes Arm
        (def_with_rows (Some 0x20000010) None [])
        (record { storage = Some 0; runtime = 0x20000010; size = 7 } ∷ []) None ≡ Err Table }
    ensures two_loads { source_of flash_base table_bytes Arm
        (def_with_rows (Some 0x20000010) None [])
        (record { storage = Some 0; runtime = 0x20000010; size = 4 }
        ∷ record { storage = Some 4; runtime = 0x20000014; size = 4 } ∷ []) None
        ≡ Ok (tabled 0x20000010 0x10000201) }
    ensures gap { source_of flash_base table_bytes Arm (def_with_rows (Some 0x20000010) None [])
        (record { storage = Some 0; runtime = 0x20000010; size = 4 }
        ∷ record { storage = Some 4; runtime = 0x20000015; size = 4 } ∷ []) None ≡ Err Table }
    ensures not_loaded { source_of flash_base table_bytes Arm
        (def_with_rows (Some 0x20000010) None []) [] None ≡ Err Table }
    ensures riscv { source_of flash_base table_bytes Riscv
        (def_with_rows (Some 0x10000001) None []) [] None ≡ Ok (pointed 0x10000000) }
    ensures item { source_of flash_base [] Arm (def_with_rows None None []) []
        (Some (entry_point_at 0x10000201)) ≡ Ok (pointed 0x10000201) }
{}

/// A rollback version of 3 where the triple of row 0x0c0 counts 3 and 4, and images without rows.
pub fn rollback_versions_are_compared()
    ensures equal { rollback_fault (otp_with 0 0x7 0x7 0x7)
        (def_with_rows None (Some 3) (0x0c0 ∷ []))
        ≡ None }
    ensures one_row_alone { rollback_fault (otp_with 0 0xf 0x7 0x3)
        (def_with_rows None (Some 3) (0x0c0 ∷ [])) ≡ None }
    ensures below { rollback_fault (otp_with 0 0xf 0xf 0x7)
        (def_with_rows None (Some 3) (0x0c0 ∷ []))
        ≡ Some (Below 3 4) }
    ensures unlisted { rollback_fault (otp_with 0 0xf 0xf 0xf) (def_with_rows None None []) ≡ None }
    ensures required { rollback_fault (otp_with 1 0 0 0) (def_with_rows None None [])
        ≡ Some RollbackRequired }
    ensures required_and_listed { rollback_fault (otp_with 1 0x7 0x7 0x7)
        (def_with_rows None (Some 3) (0x0c0 ∷ [])) ≡ None }
    ensures flash_off_alone { rollback_fault (otp_with 2 0 0 0) (def_with_rows None None [])
        ≡ None }
{}

/// Whole windows of 64 bytes with a block of version 9.0 at offset 8: PC in SRAM, PC past the
/// window, PC in the block, another processor, a trial that is not allowed and one that is.
pub fn whole_windows()
    ensures starts { image_in in_flash window_at_two Arm false (otp_with 0 0 0 0)
        (trial_window_bytes 0x01 0x00 0x20 0x10) ≡ Ok (version_nine 0x20000001 false) }
    ensures outside { image_in in_flash window_at_two Arm false (otp_with 0 0 0 0)
        (trial_window_bytes 0x01 0x02 0x10 0x10) ≡ Err (Entry Pc) }
    ensures in_block { image_in in_flash window_at_two Arm false (otp_with 0 0 0 0)
        (trial_window_bytes 0x09 0x00 0x10 0x10) ≡ Err (Entry InBlock) }
    ensures riscv { image_in in_flash window_at_two Riscv false (otp_with 0 0 0 0)
        (trial_window_bytes 0x01 0x00 0x20 0x10) ≡ Err NotForProcessor }
    ensures trial { image_in in_flash window_at_two Arm false (otp_with 0 0 0 0)
        (trial_window_bytes 0x01 0x00 0x20 0x90) ≡ Err Trial }
    ensures tried { image_in in_flash window_at_two Arm true (otp_with 0 0 0 0)
        (trial_window_bytes 0x01 0x00 0x20 0x90) ≡ Ok (version_nine 0x20000001 true) }
{}

/// An Arm image in RAM has its vector table at the window's base, and its PC is compared with its
/// block there. A load must be used where it is stored, so it is no clear entry.
pub fn images_in_ram()
    ensures starts { image_in (in_ram 0x20001000) window_at_two Arm false (otp_with 0 0 0 0)
        (window_with right_pc (arm_type ∷ []) 0) ≡ Ok (record_at right_pc false) }
    ensures in_block { image_in (in_ram 0x20001000) window_at_two Arm false (otp_with 0 0 0 0)
        (window_with 0x20001009 (arm_type ∷ []) 0) ≡ Err (Entry InBlock) }
    ensures before { image_in (in_ram 0x20001000) window_at_two Arm false (otp_with 0 0 0 0)
        (window_with 0x20001007 (arm_type ∷ []) 0) ≡ Ok (record_at 0x20001007 false) }
    ensures flash_table { image_in (in_ram 0x20001000) window_at_two Arm false (otp_with 0 0 0 0)
        (window_with right_pc (arm_type ∷ 0x00000203 ∷ 0x10000000 ∷ []) 0) ≡ Err (Entry Table) }
    ensures in_place { image_in (in_ram 0x20001000) window_at_two Arm false (otp_with 0 0 0 0)
        (window_with right_pc (arm_type ∷ map_of 0xfffffff0 0x20001000 8) 0)
        ≡ Ok (record_at right_pc false) }
    ensures elsewhere { image_in (in_ram 0x20001000) window_at_two Arm false (otp_with 0 0 0 0)
        (window_with right_pc (arm_type ∷ map_of 0xfffffff0 0x20002000 8) 0)
        ≡ Err (Map (Runtime 0)) }
    ensures clear { image_in (in_ram 0x20001000) window_at_two Arm false (otp_with 0 0 0 0)
        (window_with right_pc (arm_type ∷ map_of 0 0x20002000 0) 0) ≡ Err (Map (Runtime 0)) }
{}

/// Bit 0 of the boot flags alone requires rollback versions.
pub fn rollback_versions_are_required()
    ensures required { image_in in_flash window_at_two Arm false (otp_with 1 0 0 0)
        (window_with right_pc (arm_type ∷ []) 0) ≡ Err RollbackRequired }
    ensures both_flags { image_in in_flash window_at_two Arm false (otp_with 3 0 0 0)
        (window_with right_pc (arm_type ∷ []) 0) ≡ Err RollbackRequired }
    ensures not_required { image_in in_flash window_at_two Arm false (otp_with 2 0 0 0)
        (window_with right_pc (arm_type ∷ []) 0) ≡ Ok (record_at right_pc false) }
{}
