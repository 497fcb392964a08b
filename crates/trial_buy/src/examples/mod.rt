//! Worked examples, proved by computing: each is the `ensures` of a function that does nothing.

ghost use Rattle.std.specs.Prelude.{◌≡◌, ℕ, List, [], ◌∷◌, length, slice_get, slice_range, false, true, Some, None};
ghost use Rattle.pico_board.specs.declared.Step.TheVariants.{Erase, Program};
ghost use Rattle.slot_choice.specs.declared.unit.Member.{Member};
ghost use Rattle.otp_roll.specs.Raises.{raises};
ghost use Rattle.trial_buy.specs.Starting.{erase_in, erase_of, is_other_better, raises_of};
ghost use Rattle.trial_buy.specs.Buying.{clearing, cleared, page_programs, trial_place};
ghost use Rattle.trial_buy.specs.Examples.{an_image, thirty_sectors_at, choice_in, version};

/// The greater version is better, by major and then minor, and A's where they are the same.
pub fn which_image_is_better()
    ensures greater { is_other_better Member.A (version 1 0) (version 1 1) ≡ true }
    ensures tie_of_b { is_other_better Member.A (version 1 1) (version 1 1) ≡ false }
    ensures lesser { is_other_better Member.A (version 1 1) (version 1 0) ≡ false }
    ensures major { is_other_better Member.A (version 1 9) (version 2 0) ≡ true }
    ensures tie_of_a { is_other_better Member.B (version 1 1) (version 1 1) ≡ true }
    ensures greater_a { is_other_better Member.B (version 1 0) (version 1 1) ≡ true }
    ensures lesser_a { is_other_better Member.B (version 1 1) (version 1 0) ≡ false }
{}

/// A better image is erased where the start was updated, and in no other case.
pub fn which_sector_is_erased()
    ensures better { erase_of (choice_in Member.A true) (Some (thirty_sectors_at 0x20000))
        (Some (an_image 2 0))
        ≡ Erase 32 ∷ [] }
    ensures tie_of_a { erase_of (choice_in Member.B true) (Some (thirty_sectors_at 0x2000))
        (Some (an_image 1 0))
        ≡ Erase 2 ∷ [] }
    ensures tie_of_b { erase_of (choice_in Member.A true) (Some (thirty_sectors_at 0x20000))
        (Some (an_image 1 0)) ≡ [] }
    ensures plain { erase_of (choice_in Member.A false) (Some (thirty_sectors_at 0x20000))
        (Some (an_image 2 0)) ≡ [] }
    ensures none { erase_of (choice_in Member.A true) (Some (thirty_sectors_at 0x20000)) None
        ≡ [] }
    ensures alone { erase_of (choice_in Member.A true) None None ≡ [] }
{}

/// The trial bit is the high bit of the fourth byte of the IMAGE_TYPE item.
pub fn where_the_trial_bit_is()
    ensures place { trial_place (an_image 1 0) ≡ 0x2107 }
    ensures set { cleared (0x42 ∷ 0x01 ∷ 0x21 ∷ 0x90 ∷ []) 3 ≡ 0x42 ∷ 0x01 ∷ 0x21 ∷ 0x10 ∷ [] }
    ensures clear { cleared (0x42 ∷ 0x01 ∷ 0x21 ∷ 0x10 ∷ []) 3 ≡ 0x42 ∷ 0x01 ∷ 0x21 ∷ 0x10 ∷ [] }
{}

/// An image without a rollback version raises no row.
pub fn no_version_raises_nothing()
    ensures { raises_of [] (0xc0 ∷ []) None ≡ [] }
{}

/// A sector that is to be erased is erased once; a version is that of the listed rows.
pub fn what_follows_a_choice()
    ensures sector { erase_in (Some 5) ≡ Erase 5 ∷ [] }
    ensures no_sector { erase_in None ≡ [] }
    ensures version { (otp rows : List ℕ) (v : ℕ)
        → raises_of otp rows (Some v) ≡ raises otp rows v }
    ensures no_version { (otp rows : List ℕ) → raises_of otp rows None ≡ [] }
{}

/// The 16 pages of a sector are programmed in ascending order, each with its own bytes; before them
/// the sector is erased.
pub fn a_sector_is_rewritten()
    ensures first { (bytes : List ℕ)
        → slice_get (page_programs 33 bytes) 0 ≡ Some (Program 528 (slice_range bytes 0 256)) }
    ensures second { (bytes : List ℕ)
        → slice_get (page_programs 33 bytes) 1 ≡ Some (Program 529 (slice_range bytes 256 512)) }
    ensures last { (bytes : List ℕ) → slice_get (page_programs 33 bytes) 15
        ≡ Some (Program 543 (slice_range bytes 3840 4096)) }
    ensures sixteen { (bytes : List ℕ) → length (page_programs 33 bytes) ≡ 16 }
    ensures erased { (flash : List ℕ) → slice_get (clearing flash 0x20107) 0 ≡ Some (Erase 32) }
    ensures end { (flash : List ℕ) → slice_get (clearing flash 0x20fff) 0 ≡ Some (Erase 32) }
    ensures next { (flash : List ℕ) → slice_get (clearing flash 0x21000) 0 ≡ Some (Erase 33) }
    ensures steps { (flash : List ℕ) → length (clearing flash 0x20107) ≡ 17 }
{}
