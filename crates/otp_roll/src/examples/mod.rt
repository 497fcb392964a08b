//! Worked examples of rollback rows, of their raises, of the boot flags and of the slot size.

ghost use Rattle.std.specs.Prelude.{◌≡◌, ◌↔◌, ℕ, ◌+◌, ◌*◌, ◌≤◌, Bool, true, false, List, [], ◌∷◌, map, slice_index};
ghost use Rattle.std.specs.List.{range_with_len};
ghost use Rattle.otp_roll.specs.Rows.{AreRollbackRows, HoldsTriple, IsRollbackVersion, majority, count};
ghost use Rattle.otp_roll.specs.Raises.{raises};
ghost use Rattle.otp_roll.specs.Flags.{flash_off, rollback_required, slot_size};
ghost use Rattle.pico_board.specs.declared.Step.TheVariants.{Raise};

/// A triple holds three values where its rows have them in this order, from its first row on.
pub fn rows_of_a_triple()
    ensures held { HoldsTriple (9 ∷ 1 ∷ 2 ∷ 3 ∷ []) 1 1 2 3 }
    ensures row_before { ¬ (HoldsTriple (9 ∷ 1 ∷ 2 ∷ 3 ∷ []) 0 1 2 3) }
    ensures first_differs { ¬ (HoldsTriple (9 ∷ 1 ∷ 2 ∷ 3 ∷ []) 1 9 2 3) }
    ensures second_differs { ¬ (HoldsTriple (9 ∷ 1 ∷ 2 ∷ 3 ∷ []) 1 1 9 3) }
    ensures third_differs { ¬ (HoldsTriple (9 ∷ 1 ∷ 2 ∷ 3 ∷ []) 1 1 2 9) }
{}

/// The three rows from 0x0c0 on hold 0x000003. Then two bits count, and a version of 3 raises bit
/// 2 in each row.
pub fn three_equal_rows()
    ensures majority { (otp : List ℕ) → HoldsTriple otp 0x0c0 3 3 3 → majority otp 0x0c0 ≡ 3 }
    ensures count { (otp : List ℕ) → HoldsTriple otp 0x0c0 3 3 3 → count otp (0x0c0 ∷ []) ≡ 2 }
    ensures raises { (otp : List ℕ) → HoldsTriple otp 0x0c0 3 3 3
        → raises otp (0x0c0 ∷ []) 3 ≡ Raise 0x0c0 4 ∷ Raise 0x0c1 4 ∷ Raise 0x0c2 4 ∷ [] }
{}

/// Three rows of 0x000007 count 3, and a version of 3 raises nothing.
pub fn rows_at_the_version()
    ensures count { (otp : List ℕ) → HoldsTriple otp 0x0c0 7 7 7 → count otp (0x0c0 ∷ []) ≡ 3 }
    ensures raises { (otp : List ℕ) → HoldsTriple otp 0x0c0 7 7 7
        → raises otp (0x0c0 ∷ []) 3 ≡ [] }
{}

/// Two rows of 0x00000f and one of 0x000007 count 4. A version of 3 is below that.
pub fn two_rows_are_a_majority()
    ensures majority { (otp : List ℕ) → HoldsTriple otp 0x0c0 0xf 0xf 7
        → majority otp 0x0c0 ≡ 0xf }
    ensures count { (otp : List ℕ) → HoldsTriple otp 0x0c0 0xf 0xf 7 → count otp (0x0c0 ∷ []) ≡ 4 }
{}

/// Rows of 0x00000f, 0x000007 and 0x000003 count 3, and a version of 3 raises nothing.
pub fn one_row_alone_counts_as_nothing()
    ensures majority { (otp : List ℕ) → HoldsTriple otp 0x0c0 0xf 7 3 → majority otp 0x0c0 ≡ 7 }
    ensures count { (otp : List ℕ) → HoldsTriple otp 0x0c0 0xf 7 3 → count otp (0x0c0 ∷ []) ≡ 3 }
    ensures raises { (otp : List ℕ) → HoldsTriple otp 0x0c0 0xf 7 3
        → raises otp (0x0c0 ∷ []) 3 ≡ [] }
{}

/// Two listed rows: the first in the list has the greater number. The majority of the first lacks
/// bits 1 and 3, and the middle one of its three rows has bit 3. The majority of the second lacks
/// all bits, and its middle row has bit 0. A version that wants one bit more takes bit 1 of the
/// first row alone. Two bits more take both bits of the first row, and a third bit is bit 0 of the
/// second row.
pub fn raises_go_in_the_order_of_the_list()
    ensures one { (otp : List ℕ) → HoldsTriple otp 0x0c3 0xff_fff5 0xff_fffd 0xff_fff5
        → HoldsTriple otp 0x0c0 0 1 0
        → raises otp (0x0c3 ∷ 0x0c0 ∷ []) 23 ≡ Raise 0x0c3 2 ∷ Raise 0x0c4 2 ∷ Raise 0x0c5 2 ∷ [] }
    ensures two { (otp : List ℕ) → HoldsTriple otp 0x0c3 0xff_fff5 0xff_fffd 0xff_fff5
        → HoldsTriple otp 0x0c0 0 1 0
        → raises otp (0x0c3 ∷ 0x0c0 ∷ []) 24
        ≡ Raise 0x0c3 0xa ∷ Raise 0x0c4 2 ∷ Raise 0x0c5 0xa ∷ [] }
    ensures three { (otp : List ℕ) → HoldsTriple otp 0x0c3 0xff_fff5 0xff_fffd 0xff_fff5
        → HoldsTriple otp 0x0c0 0 1 0
        → raises otp (0x0c3 ∷ 0x0c0 ∷ []) 25
        ≡ Raise 0x0c3 0xa ∷ Raise 0x0c4 2 ∷ Raise 0x0c5 0xa ∷ Raise 0x0c0 1 ∷ Raise 0x0c2 1 ∷ [] }
{}

/// A row whose majority has all 24 bits takes none, and the next one takes what is wanted. A
/// version of all the bits of two rows raises the highest bit too.
pub fn full_rows_take_no_bit()
    ensures next { (otp : List ℕ) → HoldsTriple otp 0x0c0 0xff_ffff 0xff_ffff 0
        → HoldsTriple otp 0x0c3 0 0 0
        → raises otp (0x0c0 ∷ 0x0c3 ∷ []) 25 ≡ Raise 0x0c3 1 ∷ Raise 0x0c4 1 ∷ Raise 0x0c5 1 ∷ [] }
    ensures last { (otp : List ℕ) → HoldsTriple otp 0x0c0 0xff_ffff 0xff_ffff 0
        → HoldsTriple otp 0x0c3 0x7f_ffff 0x7f_ffff 0xff_ffff
        → raises otp (0x0c0 ∷ 0x0c3 ∷ []) 48 ≡ Raise 0x0c3 0x80_0000 ∷ Raise 0x0c4 0x80_0000 ∷ [] }
{}

/// Rows from 0x0c0 to 0xefd may be listed, at most 32 of them, in any order. Two of them differ by
/// at least 3.
pub fn rows_that_may_be_listed()
    ensures first { AreRollbackRows (0x0c0 ∷ []) }
    ensures below { ¬ (AreRollbackRows (0x0bf ∷ [])) }
    ensures last { AreRollbackRows (0xefd ∷ []) }
    ensures above { ¬ (AreRollbackRows (0xefe ∷ [])) }
    ensures three { AreRollbackRows (0x0c3 ∷ 0x0c0 ∷ []) }
    ensures two { ¬ (AreRollbackRows (0x0c0 ∷ 0x0c2 ∷ [])) }
    ensures downwards { ¬ (AreRollbackRows (0x0c2 ∷ 0x0c0 ∷ [])) }
    ensures number { (n : ℕ) → AreRollbackRows (map (λ i. 0x0c0 + 3 * i) (range_with_len 0 n))
        ↔ (n ≤ 32) }
{}

/// A version may be 24 for each listed row.
pub fn versions_of_a_row()
    ensures most { IsRollbackVersion 48 (0x0c0 ∷ 0x0c3 ∷ []) }
    ensures above { ¬ (IsRollbackVersion 49 (0x0c0 ∷ 0x0c3 ∷ [])) }
{}

/// Bit 0 of row 0x048 requires rollback versions and bit 1 turns flash boot off, each by itself.
pub fn boot_flags()
    ensures none { (otp : List ℕ) → slice_index otp 0x048 ≡ 0xff_fffc
        → (rollback_required otp ≡ false) × (flash_off otp ≡ false) }
    ensures required { (otp : List ℕ) → slice_index otp 0x048 ≡ 1
        → (rollback_required otp ≡ true) × (flash_off otp ≡ false) }
    ensures flash_off { (otp : List ℕ) → slice_index otp 0x048 ≡ 2
        → (rollback_required otp ≡ false) × (flash_off otp ≡ true) }
    ensures both { (otp : List ℕ) → slice_index otp 0x048 ≡ 3
        → (rollback_required otp ≡ true) × (flash_off otp ≡ true) }
{}

/// In a flash of 262,144 bytes 5 in row 0x055 stands for slots of 131,072 bytes. There 6 stands
/// for slots of 4096 bytes, since two of 262,144 bytes don't fit. Bits 4 and above of the row are
/// not read.
pub fn two_slots_fit_or_not()
    ensures five { (otp : List ℕ) → slice_index otp 0x055 ≡ 5 → slot_size otp 262144 ≡ 131072 }
    ensures six { (otp : List ℕ) → slice_index otp 0x055 ≡ 6 → slot_size otp 262144 ≡ 4096 }
    ensures one_byte_short { (otp : List ℕ) → slice_index otp 0x055 ≡ 5
        → slot_size otp 262143 ≡ 4096 }
    ensures zero { (otp : List ℕ) → slice_index otp 0x055 ≡ 0 → slot_size otp 262144 ≡ 4096 }
    ensures high_bits { (otp : List ℕ) → slice_index otp 0x055 ≡ 0xff_fff5
        → slot_size otp 262144 ≡ 131072 }
{}

/// The greatest number that stands for a slot size is 11, which wants the greatest flash.
pub fn the_greatest_slots()
    ensures eleven { (otp : List ℕ) → slice_index otp 0x055 ≡ 11
        → slot_size otp 16777216 ≡ 8388608 }
    ensures eleven_short { (otp : List ℕ) → slice_index otp 0x055 ≡ 11
        → slot_size otp 16777215 ≡ 4096 }
    ensures twelve { (otp : List ℕ) → slice_index otp 0x055 ≡ 12 → slot_size otp 33554432 ≡ 4096 }
    ensures fifteen { (otp : List ℕ) → slice_index otp 0x055 ≡ 15 → slot_size otp 16777216 ≡ 4096 }
{}
