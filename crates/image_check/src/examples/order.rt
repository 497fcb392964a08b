//! Worked examples of windows that break two rules: the first of them answers. Each is the
//! `ensures` of a function that does nothing.

ghost use Rattle.std.specs.Prelude.{◌≡◌, ◌++◌, [], ◌∷◌, true, false, Ok, Err};
ghost use Rattle.pico_board.specs.declared.boot.Cpu.TheVariants.{Arm, Riscv};
ghost use Rattle.block_loop.specs.declared.fault.LoopFault.TheVariants.{Broken};
ghost use Rattle.image_def.specs.declared.fault.DefFault.TheVariants.{Repeated};
ghost use Rattle.load_map.specs.declared.load.MapFault.TheVariants.{Storage};
ghost use Rattle.image_check.specs.declared.why.Why.TheVariants.{NoBlock, Loop, NoDefinition, NotForProcessor, Items, Trial, RollbackRequired, Below, Map, Entry, Digest, Delta};
ghost use Rattle.image_check.specs.declared.why.EntryFault.TheVariants.{Table, InBlock, Pc};
ghost use Rattle.image_check.specs.Addressing.{in_flash, in_ram};
ghost use Rattle.worked_flashes.specs.Images.{arm_type, trial_type, window_with};
ghost use Rattle.image_check.specs.Examples.{delta_four, record_at, riscv_type, right_pc, stray_pc, three_record, version_three, window_at_two, wrong_hash, wrong_map};
ghost use Rattle.worked_flashes.specs.Flashes.{otp_with};
ghost use Rattle.image_check.specs.Image.{image_in};

/// A loop that does not close comes before a window without a definition. No definition comes
/// before none for the processor. That comes before items that are not read, and those before a
/// trial that is not allowed.
pub fn from_the_loop_to_the_trial()
    ensures no_block { image_in in_flash window_at_two Arm false (otp_with 1 0 0 0) []
        ≡ Err NoBlock }
    ensures loop_ { image_in in_flash window_at_two Arm false (otp_with 1 0 0 0)
        (window_with stray_pc [] 4) ≡ Err (Loop (Broken 8)) }
    ensures definition { image_in in_flash window_at_two Arm false (otp_with 1 0 0 0)
        (window_with stray_pc [] 0) ≡ Err NoDefinition }
    ensures processor { image_in in_flash window_at_two Arm false (otp_with 1 0 0 0)
        (window_with stray_pc (riscv_type ∷ riscv_type ∷ []) 0) ≡ Err NotForProcessor }
    ensures items { image_in in_flash window_at_two Arm false (otp_with 1 0 0 0)
        (window_with stray_pc (trial_type ∷ trial_type ∷ []) 0) ≡ Err (Items (Repeated 0x42)) }
{}

/// A trial comes before missing rows. Missing rows and a version below its rows come before a wrong
/// map, and that before a wrong entry. A vector table that is not given, or that meets the block,
/// comes before a PC that lies nowhere.
pub fn from_the_trial_to_the_entry()
    ensures trial { image_in in_flash window_at_two Arm false (otp_with 1 0 0 0)
        (window_with stray_pc (trial_type ∷ wrong_map) 0) ≡ Err Trial }
    ensures required { image_in in_flash window_at_two Arm true (otp_with 1 0 0 0)
        (window_with stray_pc (trial_type ∷ wrong_map) 0) ≡ Err RollbackRequired }
    ensures below { image_in in_flash window_at_two Arm false (otp_with 1 0xf 0xf 0x7)
        (window_with stray_pc (arm_type ∷ version_three ++ wrong_map) 0) ≡ Err (Below 3 4) }
    ensures map { image_in in_flash window_at_two Arm false (otp_with 1 0x7 0x7 0x7)
        (window_with stray_pc (arm_type ∷ version_three ++ wrong_map) 0) ≡ Err (Map (Storage 0)) }
    ensures table { image_in in_flash window_at_two Arm false (otp_with 0 0 0 0)
        (window_with stray_pc (arm_type ∷ 0x00000203 ∷ 0x10000020 ∷ []) 0) ≡ Err (Entry Table) }
    ensures in_block { image_in in_flash window_at_two Arm false (otp_with 0 0 0 0)
        (window_with stray_pc (arm_type ∷ 0x00000203 ∷ 0x10000004 ∷ []) 0) ≡ Err (Entry InBlock) }
    ensures nowhere { image_in in_flash window_at_two Arm false (otp_with 0 0 0 0)
        (window_with stray_pc (arm_type ∷ wrong_hash) 0) ≡ Err (Entry Pc) }
    ensures delta { image_in in_flash window_at_two Arm false (otp_with 0 0 0 0)
        (window_with right_pc (arm_type ∷ delta_four) 0) ≡ Err Delta }
{}

/// An image with a rollback version and a row. A RISC-V image, in flash and in RAM, which starts at
/// the first byte of its window.
pub fn whole_records()
    ensures rows { image_in in_flash window_at_two Arm false (otp_with 1 0x7 0x7 0x7)
        (window_with right_pc (arm_type ∷ version_three) 0) ≡ Ok three_record }
    ensures flash { image_in in_flash window_at_two Riscv false (otp_with 0 0 0 0)
        (window_with right_pc (riscv_type ∷ []) 0) ≡ Ok (record_at 0x10000000 false) }
    ensures ram { image_in (in_ram 0x20001000) window_at_two Riscv false (otp_with 0 0 0 0)
        (window_with right_pc (riscv_type ∷ []) 0) ≡ Ok (record_at 0x20001000 false) }
{}
