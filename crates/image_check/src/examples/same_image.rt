//! Worked examples of windows that hold the same image and of windows that do not. Each is the
//! `ensures` of a function that does nothing.

ghost use Rattle.std.specs.Prelude.{[], ◌∷◌, ◌++◌, drop, false};
ghost use Rattle.pico_board.specs.declared.boot.Cpu.TheVariants.{Arm};
ghost use Rattle.image_def.specs.declared.started.Started.{Started};
ghost use Rattle.image_check.specs.Examples.{record_at, map_of, right_pc};
ghost use Rattle.worked_flashes.specs.Images.{arm_type, window_with};
ghost use Rattle.image_check.specs.SameImage.{HoldSameImage};

/// Without a load map each byte of the window is compared, the first one and those behind the block
/// too.
pub fn without_a_map()
    ensures same { HoldSameImage Arm (window_with right_pc (arm_type ∷ []) 0)
        (window_with right_pc (arm_type ∷ []) 0) (record_at right_pc false) }
    ensures first_byte { (s : Started)
        → HoldSameImage Arm (window_with right_pc (arm_type ∷ []) 0)
        (1 ∷ drop 1 (window_with right_pc (arm_type ∷ []) 0)) s → ⊥ }
    ensures byte_behind { (s : Started)
        → HoldSameImage Arm (window_with right_pc (arm_type ∷ []) 0 ++ 7 ∷ [])
        (window_with right_pc (arm_type ∷ []) 0 ++ 8 ∷ []) s → ⊥ }
    ensures shorter { (s : Started)
        → HoldSameImage Arm (window_with right_pc (arm_type ∷ []) 0 ++ 7 ∷ [])
        (window_with right_pc (arm_type ∷ []) 0) s → ⊥ }
{}

/// With a load map without entries the blocks alone are compared. The PC before and the byte behind
/// may differ. A word of the block may not.
pub fn with_a_map_of_no_entry()
    ensures same { HoldSameImage Arm
        (window_with right_pc (arm_type ∷ 0x00000106 ∷ []) 0 ++ 7 ∷ [])
        (window_with 0x20000005 (arm_type ∷ 0x00000106 ∷ []) 0 ++ 8 ∷ [])
        (record_at right_pc false) }
    ensures block { (s : Started)
        → HoldSameImage Arm (window_with right_pc (arm_type ∷ 0x00000106 ∷ []) 0)
        (window_with right_pc (arm_type ∷ 0x00000106 ∷ []) 4) s → ⊥ }
{}

/// A clear entry has no bytes to compare; of an entry that is stored each byte is compared.
pub fn with_an_entry()
    ensures clear { HoldSameImage Arm (window_with right_pc (arm_type ∷ map_of 0 0x20000000 16) 0)
        (window_with 0x20000005 (arm_type ∷ map_of 0 0x20000000 16) 0) (record_at right_pc false) }
    ensures stored { HoldSameImage Arm
        (window_with right_pc (arm_type ∷ map_of 0xfffffff0 0x10000000 8) 0 ++ 7 ∷ [])
        (window_with right_pc (arm_type ∷ map_of 0xfffffff0 0x10000000 8) 0 ++ 8 ∷ [])
        (record_at right_pc false) }
    ensures other { (s : Started)
        → HoldSameImage Arm (window_with right_pc (arm_type ∷ map_of 0xfffffff0 0x10000000 8) 0)
        (window_with 0x20000005 (arm_type ∷ map_of 0xfffffff0 0x10000000 8) 0) s → ⊥ }
{}
