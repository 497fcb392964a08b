//! What is remembered of digests, and what a change forgets.

ghost use Rattle.std.specs.Prelude.{◌≡◌, [], ◌∷◌, replicate, true, false, Some, None};
ghost use Rattle.pico_board.specs.declared.boot.Cpu.TheVariants.{Arm, Riscv};
ghost use Rattle.image_check.specs.Digests.{entries_apart, MakesAtMost, noted, remembered, with_entry};
ghost use Rattle.image_check.specs.Examples.{right_digest, sector_at, wrong_digest};

/// The window of the bytes 8192 to 12287 is kept where a range ends before it or begins behind it.
/// It is forgotten where a range shares its first or its last byte, lies in it, or lies round it.
pub fn a_changed_range_forgets_its_windows()
    ensures ends_before { entries_apart 4096 4096 (right_digest 8192 Arm ∷ [])
        ≡ right_digest 8192 Arm ∷ [] }
    ensures shares_its_first_byte { entries_apart 4096 4097 (right_digest 8192 Arm ∷ []) ≡ [] }
    ensures shares_its_last_byte { entries_apart 12287 4096 (right_digest 8192 Arm ∷ []) ≡ [] }
    ensures begins_behind { entries_apart 12288 4096 (right_digest 8192 Arm ∷ [])
        ≡ right_digest 8192 Arm ∷ [] }
    ensures inside { entries_apart 8448 256 (right_digest 8192 Arm ∷ []) ≡ [] }
    ensures round { entries_apart 4096 12288 (right_digest 8192 Arm ∷ []) ≡ [] }
    ensures of_several { entries_apart 8192 4096
        (right_digest 4096 Arm ∷ right_digest 8192 Arm ∷ wrong_digest 8192 Riscv
        ∷ wrong_digest 12288 Arm ∷ [])
        ≡ right_digest 4096 Arm ∷ wrong_digest 12288 Arm ∷ [] }
{}

/// What is remembered is taken for its window and its processor alone.
pub fn a_digest_is_of_its_window_and_processor()
    ensures right { remembered (sector_at 8192) Arm
        (wrong_digest 4096 Arm ∷ right_digest 8192 Arm ∷ []) ≡ Some true }
    ensures wrong { remembered (sector_at 4096) Arm
        (wrong_digest 4096 Arm ∷ right_digest 8192 Arm ∷ []) ≡ Some false }
    ensures another_window { remembered (sector_at 12288) Arm
        (wrong_digest 4096 Arm ∷ right_digest 8192 Arm ∷ []) ≡ None }
    ensures another_length { remembered (record { start = 8192; len = 8192 }) Arm
        (right_digest 8192 Arm ∷ []) ≡ None }
    ensures another_processor { remembered (sector_at 8192) Riscv
        (right_digest 8192 Arm ∷ []) ≡ None }
    ensures for_both { remembered (sector_at 8192) Riscv
        (right_digest 8192 Arm ∷ wrong_digest 8192 Riscv ∷ []) ≡ Some false }
{}

/// Sixteen digests are remembered; a further one is remembered alone.
pub fn there_is_room_for_sixteen()
    ensures the_sixteenth { with_entry (right_digest 0 Arm) (replicate 15 (right_digest 0 Arm))
        ≡ replicate 16 (right_digest 0 Arm) }
    ensures one_more { with_entry (right_digest 4096 Arm) (replicate 16 (right_digest 0 Arm))
        ≡ right_digest 4096 Arm ∷ [] }
{}

/// The first digest of a memory counts as one, and a count that is at its end stays there.
pub fn digests_are_counted()
    ensures first { (noted (right_digest 0 Arm)
        (record { entries = record { items = [] }; made = 0 })).made ≡ 1 }
    ensures last { (noted (right_digest 0 Arm)
        (record { entries = record { items = [] }; made = 18446744073709551615 })).made
        ≡ 18446744073709551615 }
    ensures one_more { MakesAtMost 1 (record { entries = record { items = [] }; made = 4 })
        (record { entries = record { items = [] }; made = 5 }) }
    ensures two_are_not_one { MakesAtMost 1 (record { entries = record { items = [] }; made = 4 })
        (record { entries = record { items = [] }; made = 6 }) → ⊥ }
{}
