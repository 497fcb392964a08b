//! Worked examples of the digest rule and of the delta rule. Each is the `ensures` of a function
//! that does nothing.

ghost use Rattle.std.specs.Prelude.{◌≡◌, ◌++◌, [], ◌∷◌, true, false, Ok, Err};
ghost use Rattle.pico_board.specs.declared.boot.Cpu.TheVariants.{Arm};
ghost use Rattle.image_check.specs.declared.why.Why.TheVariants.{Digest, Delta};
ghost use Rattle.image_check.specs.Addressing.{in_flash};
ghost use Rattle.image_check.specs.Examples.{record_at, both_digest, clear_digest, delta_four, map_of, map_of_both, right_pc, window_at_two};
ghost use Rattle.worked_flashes.specs.Images.{arm_type, hash_of_four, plain_digest, stored_digest, trial_type, window_with};
ghost use Rattle.worked_flashes.specs.Flashes.{otp_with};
ghost use Rattle.image_check.specs.Image.{image_in};

/// A digest of the block's first four words, and a wrong one; the trial bit is read as clear.
pub fn digests_of_the_block()
    ensures right { image_in in_flash window_at_two Arm false (otp_with 0 0 0 0)
        (window_with right_pc (arm_type ∷ hash_of_four plain_digest) 0)
        ≡ Ok (record_at right_pc false) }
    ensures trial { image_in in_flash window_at_two Arm true (otp_with 0 0 0 0)
        (window_with right_pc (trial_type ∷ hash_of_four plain_digest) 0)
        ≡ Ok (record_at right_pc true) }
    ensures wrong { image_in in_flash window_at_two Arm false (otp_with 0 0 0 0)
        (window_with right_pc (arm_type ∷ hash_of_four stored_digest) 0) ≡ Err Digest }
{}

/// A digest covers what a load map stores, and then the block's words. Of a clear entry it covers
/// the size. Of two entries the first comes first.
pub fn digests_of_loads()
    ensures stored { image_in in_flash window_at_two Arm false (otp_with 0 0 0 0)
        (window_with right_pc
        (arm_type ∷ map_of 0xfffffff0 0x10000000 8 ++ hash_of_four stored_digest) 0)
        ≡ Ok (record_at right_pc false) }
    ensures other { image_in in_flash window_at_two Arm false (otp_with 0 0 0 0)
        (window_with 0x20000005
        (arm_type ∷ map_of 0xfffffff0 0x10000000 8 ++ hash_of_four stored_digest) 0) ≡ Err Digest }
    ensures clear { image_in in_flash window_at_two Arm false (otp_with 0 0 0 0)
        (window_with right_pc
        (arm_type ∷ map_of 0 0x20000000 16 ++ hash_of_four clear_digest) 0)
        ≡ Ok (record_at right_pc false) }
    ensures both { image_in in_flash window_at_two Arm false (otp_with 0 0 0 0)
        (window_with right_pc
        (arm_type ∷ map_of_both ++ hash_of_four both_digest) 0) ≡ Ok (record_at right_pc false) }
{}

/// A wrong digest before a window delta, and a right one with such a delta.
pub fn the_digest_before_the_delta()
    ensures digest { image_in in_flash window_at_two Arm false (otp_with 0 0 0 0)
        (window_with right_pc (arm_type ∷ hash_of_four stored_digest ++ delta_four) 0)
        ≡ Err Digest }
    ensures delta { image_in in_flash window_at_two Arm false (otp_with 0 0 0 0)
        (window_with right_pc (arm_type ∷ hash_of_four plain_digest ++ delta_four) 0) ≡ Err Delta }
    ensures zero { image_in in_flash window_at_two Arm false (otp_with 0 0 0 0)
        (window_with right_pc (arm_type ∷ 0x00000205 ∷ 0 ∷ []) 0)
        ≡ Ok (record_at right_pc false) }
{}
