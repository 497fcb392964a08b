//! Worked examples of what is to be looked up of definitions, proved by computing: each is the
//! `ensures` of a function that does nothing.

ghost use Rattle.std.specs.Prelude.{◌≡◌, [], ◌∷◌, ◌++◌, None, Some, false, true, replicate};
ghost use Rattle.pico_board.specs.declared.boot.Cpu.TheVariants.{Arm, Riscv};
ghost use Rattle.boot_rules.specs.Tables.{slot_window};
ghost use Rattle.slot_caveats.specs.declared.caveat.Caveat.{Caveat};
ghost use Rattle.boot_caveats.specs.MemberCaveats.{absolute_map, bare_hash, is_moving_map, long_definition};
ghost use Rattle.slot_caveats.specs.Sought.{is_long_definition};
ghost use Rattle.slot_caveats.specs.Examples.{arm_word, bare, block_with, map_item, map_words, sector_with, three_sectors, two_long_blocks};

/// A block of more than 384 bytes that would suit a processor otherwise.
pub fn lengths_of_definitions()
    ensures longer { is_long_definition Arm (block_with 0 (arm_word ∷ replicate 92 0x00000101))
        ≡ true }
    ensures most { is_long_definition Arm (block_with 0 (arm_word ∷ replicate 91 0x00000101))
        ≡ false }
    ensures other { is_long_definition Riscv (block_with 0 (arm_word ∷ replicate 92 0x00000101))
        ≡ false }
    ensures data { is_long_definition Arm (block_with 0 (0x10220142 ∷ replicate 92 0x00000101))
        ≡ false }
    ensures told { long_definition
        (three_sectors 0 0 (sector_with (arm_word ∷ replicate 92 0x00000101)) bare) Arm
        (slot_window 0x1000 0) ≡ Some (Caveat.LongDefinition (slot_window 0x1000 0) 0x100) }
    ensures short { long_definition (three_sectors 0 0 (sector_with (arm_word ∷ [])) bare) Arm
        (slot_window 0x1000 0) ≡ None }
    ensures last_of_two { long_definition (three_sectors 0 0 two_long_blocks bare) Arm
        (slot_window 0x1000 0) ≡ Some (Caveat.LongDefinition (slot_window 0x1000 0) 0x300) }
{}

/// An absolute map with an entry whose first word is neither 0 nor its second word.
pub fn maps_that_move()
    ensures moves { is_moving_map (block_with 0 (map_words 0x10000000 0x20000000)) (map_item 0x81)
        ≡ true }
    ensures in_place { is_moving_map (block_with 0 (map_words 0x10000000 0x10000000))
        (map_item 0x81) ≡ false }
    ensures clear { is_moving_map (block_with 0 (map_words 0 0x20000000)) (map_item 0x81) ≡ false }
    ensures relative { is_moving_map (block_with 0 (map_words 0x10000000 0x20000000))
        (map_item 0x01) ≡ false }
    ensures told { absolute_map
        (three_sectors 0 0 (sector_with (arm_word ∷ map_words 0x10000000 0x20000000)) bare) Arm
        (slot_window 0x1000 0) ≡ Some (Caveat.AbsoluteMap (slot_window 0x1000 0)) }
    ensures no_map { absolute_map (three_sectors 0 0 (sector_with (arm_word ∷ [])) bare) Arm
        (slot_window 0x1000 0) ≡ None }
{}

/// A digest without a load map, and one beside it; what is hashed alone is no digest.
pub fn digests_without_a_map()
    ensures bare { bare_hash
        (three_sectors 0 0
        (sector_with (arm_word ∷ 0x01000247 ∷ 2 ∷ 0x0000094b ∷ replicate 8 7)) bare)
        Arm (slot_window 0x1000 0) ≡ Some (Caveat.BareHash (slot_window 0x1000 0)) }
    ensures no_value { bare_hash
        (three_sectors 0 0 (sector_with (arm_word ∷ 0x01000247 ∷ 2 ∷ [])) bare) Arm
        (slot_window 0x1000 0) ≡ None }
    ensures mapped { bare_hash
        (three_sectors 0 0 (sector_with (arm_word ∷ map_words 0x10000000 0x10000000
        ++ (0x01000247 ∷ 2 ∷ 0x0000094b ∷ replicate 8 7))) bare)
        Arm (slot_window 0x1000 0) ≡ None }
{}
