//! Worked examples of the definitions, as laws that compute.
#![tactic(auto, unfolding(
// a definition is read from the words of a block and from its items,
crate::specs::Definition::def_of, block_codec::specs::Blocks::frame,
// an item by its size, and a digest as the bytes of its words
block_codec::specs::Items::size_of, block_codec::specs::Words::word_bytes))]

ghost use Rattle.std.specs.Prelude.{ℕ, ◌≡◌, negsuc, Some, None, Ok, Err, [], ◌∷◌, ◌++◌, true, false};
ghost use Rattle.std.specs.Result.{result_err};
ghost use Rattle.block_codec.specs.Items.{item_at};
ghost use Rattle.block_codec.specs.Blocks.{BlockView, block_size};
ghost use Rattle.image_def.specs.declared.fault.DefFault.TheVariants.{Repeated, BadItem, BadRow, RepeatedRow};
ghost use Rattle.pico_board.specs.declared.boot.Cpu.TheVariants.{Arm, Riscv};
ghost use Rattle.image_def.specs.Definition.{def_of};
ghost use Rattle.image_def.specs.Guarantees.{IsDefinition};
ghost use Rattle.image_def.specs.Flags.{flags_of, image_kind, security_of, processor_of, chip_of, is_trial};
ghost use Rattle.image_def.specs.Rows.{is_near};
ghost use Rattle.image_def.specs.Suits.{has_image_type, image_flags_of, suits_flags, does_suit, last_suiting};
ghost use Rattle.image_def.specs.Trial.{trial_cleared};
ghost use Rattle.image_def.specs.Examples.{block_with, arm_item, riscv_item, arm_block, arm_fault, arm_def, def_with, padded_block, full_block, full_def, digest_words, digest_bytes, many_rows, value_item};

/// The flags are the third and the fourth byte of the header, and each field has its bits.
pub fn bits_of_flags()
    ensures bytes { flags_of (item_at 1 0xabcd0142) ≡ 0xabcd }
    ensures kind { image_kind 0x9321 ≡ 1 }
    ensures security { security_of 0x9321 ≡ 2 }
    ensures processor { processor_of 0x9321 ≡ 3 }
    ensures chip { chip_of 0x9321 ≡ 1 }
    ensures trial { is_trial 0x9321 ≡ true }
    ensures other_kind { image_kind 0x6edc ≡ 12 }
    ensures other_security { security_of 0x6edc ≡ 1 }
    ensures other_processor { processor_of 0x6edc ≡ 6 }
    ensures other_chip { chip_of 0x6edc ≡ 6 }
    ensures no_trial { is_trial 0x6edc ≡ false }
    ensures least { is_trial 0x8000 ≡ true }
    ensures below { is_trial 0x7fff ≡ false }
{}

/// The flags of a block are those of its first IMAGE_TYPE item, of whatever size. The type byte
/// has one spelling.
pub fn first_image_type()
    ensures none { image_flags_of (block_with []) ≡ None }
    ensures first { image_flags_of (block_with (arm_item ∷ riscv_item ∷ [])) ≡ Some 0x1021 }
    ensures later { image_flags_of (block_with (0x00000203 ∷ riscv_item ∷ arm_item ∷ []))
        ≡ Some 0x1021 }
    ensures of_two_words { image_flags_of (block_with (0x10210242 ∷ 0 ∷ riscv_item ∷ []))
        ≡ Some 0x1021 }
    ensures has { has_image_type (arm_block []) ≡ true }
    ensures has_not { has_image_type (block_with (0x000001fe ∷ [])) ≡ false }
    ensures other_spelling { has_image_type (block_with (0x000001c2 ∷ [])) ≡ false }
{}

/// An image suits Arm cores where its kind is 1, its security 2, its processor 0 and its chip 1;
/// the other bits are not read.
pub fn flags_for_arm()
    ensures executable_secure { suits_flags Arm 0x1021 ≡ true }
    ensures no_kind { suits_flags Arm 0x1020 ≡ false }
    ensures data { suits_flags Arm 0x1022 ≡ false }
    ensures kind_3 { suits_flags Arm 0x1023 ≡ false }
    ensures kind_9 { suits_flags Arm 0x1029 ≡ false }
    ensures no_security { suits_flags Arm 0x1001 ≡ false }
    ensures non_secure { suits_flags Arm 0x1011 ≡ false }
    ensures security_3 { suits_flags Arm 0x1031 ≡ false }
    ensures for_riscv { suits_flags Arm 0x1121 ≡ false }
    ensures processor_2 { suits_flags Arm 0x1221 ≡ false }
    ensures processor_4 { suits_flags Arm 0x1421 ≡ false }
    ensures rp2040 { suits_flags Arm 0x0021 ≡ false }
    ensures chip_2 { suits_flags Arm 0x2021 ≡ false }
    ensures chip_3 { suits_flags Arm 0x3021 ≡ false }
    ensures chip_5 { suits_flags Arm 0x5021 ≡ false }
    ensures trial { suits_flags Arm 0x9021 ≡ true }
    ensures bits_6_and_7 { suits_flags Arm 0x10e1 ≡ true }
    ensures bit_11 { suits_flags Arm 0x1821 ≡ true }
{}

/// An image suits RISC-V cores where its kind is 1, its processor 1 and its chip 1; its security
/// and the other bits are not read.
pub fn flags_for_riscv()
    ensures executable { suits_flags Riscv 0x1101 ≡ true }
    ensures non_secure { suits_flags Riscv 0x1111 ≡ true }
    ensures secure { suits_flags Riscv 0x1121 ≡ true }
    ensures security_3 { suits_flags Riscv 0x1131 ≡ true }
    ensures no_kind { suits_flags Riscv 0x1100 ≡ false }
    ensures data { suits_flags Riscv 0x1102 ≡ false }
    ensures kind_9 { suits_flags Riscv 0x1109 ≡ false }
    ensures for_arm { suits_flags Riscv 0x1001 ≡ false }
    ensures processor_2 { suits_flags Riscv 0x1201 ≡ false }
    ensures processor_5 { suits_flags Riscv 0x1501 ≡ false }
    ensures rp2040 { suits_flags Riscv 0x0101 ≡ false }
    ensures chip_2 { suits_flags Riscv 0x2101 ≡ false }
    ensures chip_5 { suits_flags Riscv 0x5101 ≡ false }
    ensures trial { suits_flags Riscv 0x9101 ≡ true }
    ensures bits_6_and_7 { suits_flags Riscv 0x11c1 ≡ true }
    ensures bit_11 { suits_flags Riscv 0x1901 ≡ true }
{}

/// A block suits its own processor alone, by its first IMAGE_TYPE item, and has at most 384 bytes.
pub fn blocks_that_suit()
    ensures arm { does_suit Arm (arm_block []) ≡ true }
    ensures not_riscv { does_suit Riscv (arm_block []) ≡ false }
    ensures riscv { does_suit Riscv (block_with (riscv_item ∷ [])) ≡ true }
    ensures not_arm { does_suit Arm (block_with (riscv_item ∷ [])) ≡ false }
    ensures first { does_suit Arm (block_with (riscv_item ∷ arm_item ∷ [])) ≡ false }
    ensures without { does_suit Arm (block_with (0x000001fe ∷ [])) ≡ false }
    ensures largest { block_size (padded_block 0 arm_item 91) ≡ 384 }
    ensures at_384 { does_suit Arm (padded_block 0 arm_item 91) ≡ true }
    ensures at_388 { does_suit Arm (padded_block 0 arm_item 92) ≡ false }
    ensures riscv_at_384 { does_suit Riscv (padded_block 0 riscv_item 91) ≡ true }
    ensures riscv_at_388 { does_suit Riscv (padded_block 0 riscv_item 92) ≡ false }
{}

/// The definition among the blocks of a loop is the last that suits the processor.
pub fn last_block_that_suits()
    ensures last { last_suiting Arm (padded_block 0 arm_item 0 ∷ padded_block 64 arm_item 0
        ∷ padded_block 128 riscv_item 0 ∷ [])
        ≡ Some (padded_block 64 arm_item 0) }
    ensures riscv { last_suiting Riscv (padded_block 0 riscv_item 0 ∷ padded_block 64 riscv_item 1
        ∷ padded_block 128 arm_item 0 ∷ [])
        ≡ Some (padded_block 64 riscv_item 1) }
    ensures none { last_suiting Arm (padded_block 0 riscv_item 0 ∷ padded_block 64 arm_item 92 ∷ [])
        ≡ None }
{}

/// Each item is a field of the definition, and an item that is not there leaves its default.
pub fn fields_of_definitions()
    ensures least { def_of (arm_block []) ≡ Ok arm_def }
    ensures full { def_of full_block ≡ Ok full_def }
    ensures others { def_of (arm_block (0x00000209 ∷ 7 ∷ 0x0000010a ∷ 0x00000209 ∷ 7 ∷ 0x0000010a
        ∷ 0x0000010c ∷ 0x000001fe ∷ []))
        ≡ Ok arm_def }
    ensures other_spellings { def_of
        (arm_block (0x00000183 ∷ 0x00000185 ∷ 0x000001c2 ∷ 0x000001c4 ∷ 0x000001c7
        ∷ 0x000001c8 ∷ []))
        ≡ Ok arm_def }
{}

/// An ENTRY_POINT item of three words has no limit, and the header bytes that nothing names are
/// not read.
pub fn entry_without_limit()
    ensures { def_of (arm_block (0xabcd0344 ∷ 0x10000301 ∷ 0x20001000 ∷ 0xabcd0203 ∷ 5 ∷ 0xabcd0205
        ∷ 0xffffffff ∷ []))
        ≡ Ok (record arm_def {
          vector = Some 5;
          entry_point = Some (record { pc = 0x10000301; sp = 0x20001000; limit = 0 });
          delta = negsuc 0;
        }) }
{}

/// A VERSION item without rows gives a version alone.
pub fn version_without_rows()
    ensures { def_of (arm_block (0x00ff0248 ∷ 0x00020003 ∷ []))
        ≡ Ok (record arm_def { version = record { major = 2; minor = 3 } }) }
{}

/// With an even number of rows the last half word of a VERSION item is padding.
pub fn version_with_padding()
    ensures { def_of (arm_block (0x02ff0448 ∷ 0x00010000 ∷ 0x00c30003 ∷ 0xffff00c0 ∷ []))
        ≡ Ok (record arm_def {
          version = record { major = 1; minor = 0 };
          rollback = Some 3;
          rows = record { items = 0x0c3 ∷ 0x0c0 ∷ [] };
        }) }
{}

/// A HASH_DEF without a HASH_VALUE leaves the image unhashed. Only the low half of its word is
/// read.
pub fn hash_without_value()
    ensures { def_of (arm_block (0x01ff0247 ∷ 0xffff0003 ∷ []))
        ≡ Ok (record arm_def { hash_words = 3 }) }
{}

/// LOAD_MAP and HASH_VALUE may have a size of two bytes, and the HASH_VALUE may come first. Bit 7
/// of the load map's fourth byte is no part of the number of entries.
pub fn long_spellings()
    ensures { def_of (arm_block (0x000009cb
        ∷ (digest_words ++ (0x81000486 ∷ 1 ∷ 2 ∷ 3 ∷ 0x01000247 ∷ 2 ∷ []))))
        ≡ Ok (record arm_def {
          map_item = Some 2;
          hash_words = 2;
          digest = Some digest_bytes;
        }) }
{}

/// An item of each kind that stands a second time is a fault: in either spelling, and also after
/// other items.
pub fn items_that_stand_twice()
    ensures image_type { arm_fault (riscv_item ∷ []) ≡ Some (Repeated 0x42) }
    ensures vector_table { arm_fault (0x00000203 ∷ 0 ∷ 0x000001fe ∷ 0x00000203 ∷ 0 ∷ [])
        ≡ Some (Repeated 0x03) }
    ensures entry_point { arm_fault (0x00000344 ∷ 0 ∷ 0 ∷ 0x00000444 ∷ 0 ∷ 0 ∷ 0 ∷ [])
        ≡ Some (Repeated 0x44) }
    ensures window_delta { arm_fault (0x00000205 ∷ 0 ∷ 0x00000205 ∷ 0 ∷ []) ≡ Some (Repeated 0x05) }
    ensures load_map { arm_fault (0x00000106 ∷ 0x00000106 ∷ []) ≡ Some (Repeated 0x06) }
    ensures load_map_long { arm_fault (0x00000106 ∷ 0x00000186 ∷ []) ≡ Some (Repeated 0x06) }
    ensures hash_def { arm_fault (0x01000247 ∷ 1 ∷ 0x01000247 ∷ 1 ∷ []) ≡ Some (Repeated 0x47) }
    ensures version { arm_fault (0x00000248 ∷ 0 ∷ 0x00000248 ∷ 0 ∷ []) ≡ Some (Repeated 0x48) }
    ensures hash_value { arm_fault
        (0x01000247 ∷ 1 ∷ (value_item 0x0000094b ++ value_item 0x0000094b))
        ≡ Some (Repeated 0x4b) }
    ensures hash_value_long { arm_fault
        (0x01000247 ∷ 1 ∷ (value_item 0x0000094b ++ value_item 0x000009cb))
        ≡ Some (Repeated 0x4b) }
{}

/// Each kind has its size, and one word more or less is a fault.
pub fn items_of_wrong_size()
    ensures image_type { result_err (def_of (block_with (0x10210242 ∷ 0 ∷ [])))
        ≡ Some (BadItem 0x42) }
    ensures vector_short { arm_fault (0x00000103 ∷ []) ≡ Some (BadItem 0x03) }
    ensures vector_long { arm_fault (0x00000303 ∷ 0 ∷ 0 ∷ []) ≡ Some (BadItem 0x03) }
    ensures entry_short { arm_fault (0x00000244 ∷ 0 ∷ []) ≡ Some (BadItem 0x44) }
    ensures entry_long { arm_fault (0x00000544 ∷ 0 ∷ 0 ∷ 0 ∷ 0 ∷ []) ≡ Some (BadItem 0x44) }
    ensures delta_short { arm_fault (0x00000105 ∷ []) ≡ Some (BadItem 0x05) }
    ensures delta_long { arm_fault (0x00000305 ∷ 0 ∷ 0 ∷ []) ≡ Some (BadItem 0x05) }
    ensures map_short { arm_fault (0x02000606 ∷ 0 ∷ 0 ∷ 0 ∷ 0 ∷ 0 ∷ []) ≡ Some (BadItem 0x06) }
    ensures map_one_entry_short { arm_fault (0x02000406 ∷ 0 ∷ 0 ∷ 0 ∷ []) ≡ Some (BadItem 0x06) }
    ensures map_long { arm_fault (0x02000886 ∷ 0 ∷ 0 ∷ 0 ∷ 0 ∷ 0 ∷ 0 ∷ 0 ∷ [])
        ≡ Some (BadItem 0x06) }
    ensures map_right { arm_fault (0x02000706 ∷ 0 ∷ 0 ∷ 0 ∷ 0 ∷ 0 ∷ 0 ∷ []) ≡ None }
    ensures map_of_none { arm_fault (0x80000106 ∷ []) ≡ None }
    ensures hash_def_short { arm_fault (0x01000147 ∷ []) ≡ Some (BadItem 0x47) }
    ensures hash_def_long { arm_fault (0x01000347 ∷ 0 ∷ 0 ∷ []) ≡ Some (BadItem 0x47) }
    ensures version_short { arm_fault (0x00000148 ∷ []) ≡ Some (BadItem 0x48) }
    ensures version_long { arm_fault (0x00000348 ∷ 0 ∷ 0 ∷ []) ≡ Some (BadItem 0x48) }
    ensures value_short { arm_fault (0x01000247 ∷ 1 ∷ 0x0000084b ∷ 0 ∷ 0 ∷ 0 ∷ 0 ∷ 0 ∷ 0 ∷ 0 ∷ [])
        ≡ Some (BadItem 0x4b) }
    ensures value_long { arm_fault (0x01000247 ∷ 1 ∷ (value_item 0x00000a4b ++ (0 ∷ [])))
        ≡ Some (BadItem 0x4b) }
{}

/// A HASH_DEF names SHA-256 by the number 1. A VERSION item has at most 32 rows, and a rollback
/// version of at most 24 for each row.
pub fn contents_of_items()
    ensures no_hash { arm_fault (0x00000247 ∷ 1 ∷ []) ≡ Some (BadItem 0x47) }
    ensures other_hash { arm_fault (0x02000247 ∷ 1 ∷ []) ≡ Some (BadItem 0x47) }
    ensures most_of_one { arm_fault (0x01000348 ∷ 0 ∷ 0x00c00018 ∷ []) ≡ None }
    ensures above_one { arm_fault (0x01000348 ∷ 0 ∷ 0x00c00019 ∷ []) ≡ Some (BadItem 0x48) }
    ensures most_of_two { arm_fault (0x02000448 ∷ 0 ∷ 0x00c00030 ∷ 0x000000c3 ∷ []) ≡ None }
    ensures above_two { arm_fault (0x02000448 ∷ 0 ∷ 0x00c00031 ∷ 0x000000c3 ∷ [])
        ≡ Some (BadItem 0x48) }
    ensures rows_32 { arm_fault (0x20001348 ∷ 0 ∷ 0x00c00300 ∷ many_rows) ≡ None }
    ensures above_32 { arm_fault (0x20001348 ∷ 0 ∷ 0x00c00301 ∷ many_rows) ≡ Some (BadItem 0x48) }
    ensures rows_33 { arm_fault (0x21001348 ∷ 0 ∷ 0x00c00300 ∷ many_rows) ≡ Some (BadItem 0x48) }
    ensures one_row_short { arm_fault (0x01000248 ∷ 0 ∷ []) ≡ Some (BadItem 0x48) }
    ensures one_row_long { arm_fault (0x01000448 ∷ 0 ∷ 0x00c00000 ∷ 0 ∷ []) ≡ Some (BadItem 0x48) }
    ensures two_rows_short { arm_fault (0x02000348 ∷ 0 ∷ 0x00c00000 ∷ []) ≡ Some (BadItem 0x48) }
    ensures three_rows_long { arm_fault (0x03000548 ∷ 0 ∷ 0x00c00000 ∷ 0x00c600c3 ∷ 0 ∷ [])
        ≡ Some (BadItem 0x48) }
{}

/// A listed row lies from 0x0c0 to 0xefd. Two rows differ by 3 or more, in whatever order, and
/// also with rows between them.
pub fn bounds_of_rows()
    ensures below { arm_fault (0x01000348 ∷ 0 ∷ 0x00bf0000 ∷ []) ≡ Some (BadRow 0x0bf) }
    ensures first { arm_fault (0x01000348 ∷ 0 ∷ 0x00c00000 ∷ []) ≡ None }
    ensures last { arm_fault (0x01000348 ∷ 0 ∷ 0x0efd0000 ∷ []) ≡ None }
    ensures above { arm_fault (0x01000348 ∷ 0 ∷ 0x0efe0000 ∷ []) ≡ Some (BadRow 0xefe) }
    ensures equal { arm_fault (0x02000448 ∷ 0 ∷ 0x01000000 ∷ 0x00000100 ∷ [])
        ≡ Some (RepeatedRow 0x100) }
    ensures by_2 { arm_fault (0x02000448 ∷ 0 ∷ 0x01000000 ∷ 0x00000102 ∷ [])
        ≡ Some (RepeatedRow 0x102) }
    ensures by_3 { arm_fault (0x02000448 ∷ 0 ∷ 0x01000000 ∷ 0x00000103 ∷ []) ≡ None }
    ensures down_by_2 { arm_fault (0x02000448 ∷ 0 ∷ 0x01020000 ∷ 0x00000100 ∷ [])
        ≡ Some (RepeatedRow 0x100) }
    ensures down_by_3 { arm_fault (0x02000448 ∷ 0 ∷ 0x01030000 ∷ 0x00000100 ∷ []) ≡ None }
    ensures between { arm_fault (0x03000448 ∷ 0 ∷ 0x01000000 ∷ 0x01020200 ∷ [])
        ≡ Some (RepeatedRow 0x102) }
    ensures second_bad { arm_fault (0x02000448 ∷ 0 ∷ 0x01000000 ∷ 0x00000f00 ∷ [])
        ≡ Some (BadRow 0xf00) }
{}

/// The hashed words end at or before the HASH_VALUE item; without one, at the end of the block.
pub fn bounds_of_hashed_words()
    ensures at_value { arm_fault (0x01000247 ∷ 4 ∷ value_item 0x0000094b)
        ≡ None }
    ensures past_value { arm_fault (0x01000247 ∷ 5 ∷ value_item 0x0000094b)
        ≡ Some (BadItem 0x47) }
    ensures value_first { arm_fault (value_item 0x000009cb ++ (0x01000247 ∷ 2 ∷ []))
        ≡ None }
    ensures past_first { arm_fault (value_item 0x000009cb ++ (0x01000247 ∷ 3 ∷ []))
        ≡ Some (BadItem 0x47) }
    ensures whole_block { arm_fault (0x01000247 ∷ 7 ∷ []) ≡ None }
    ensures past_block { arm_fault (0x01000247 ∷ 8 ∷ []) ≡ Some (BadItem 0x47) }
    ensures no_count { arm_fault (value_item 0x0000094b)
        ≡ Some (BadItem 0x4b) }
    ensures no_count_long { arm_fault (value_item 0x000009cb)
        ≡ Some (BadItem 0x4b) }
{}

/// Where two faults stand together the first is the answer. The fault of an earlier item comes
/// first. Of one item, standing twice comes before a wrong size or content, and that before its
/// rows. Rows are judged in order, and the range of a row before its nearness. All of these come
/// before what is judged after all items.
pub fn order_of_faults()
    ensures twice_and_wrong { arm_fault (0x00000203 ∷ 0 ∷ 0x00000103 ∷ []) ≡ Some (Repeated 0x03) }
    ensures twice_and_row { arm_fault (0x00000248 ∷ 0 ∷ 0x01000348 ∷ 0 ∷ 0x00bf0000 ∷ [])
        ≡ Some (Repeated 0x48) }
    ensures wrong_and_row { arm_fault (0x01000348 ∷ 0 ∷ 0x00bf0019 ∷ []) ≡ Some (BadItem 0x48) }
    ensures range_and_near { arm_fault (0x02000448 ∷ 0 ∷ 0x00c00000 ∷ 0x000000bf ∷ [])
        ≡ Some (BadRow 0x0bf) }
    ensures near_then_range { arm_fault (0x03000448 ∷ 0 ∷ 0x00c00000 ∷ 0x00bf00c1 ∷ [])
        ≡ Some (RepeatedRow 0x0c1) }
    ensures range_then_near { arm_fault (0x03000448 ∷ 0 ∷ 0x00c00000 ∷ 0x00c100bf ∷ [])
        ≡ Some (BadRow 0x0bf) }
    ensures wrong_then_twice { arm_fault (0x00000103 ∷ arm_item ∷ []) ≡ Some (BadItem 0x03) }
    ensures twice_then_wrong { arm_fault (arm_item ∷ 0x00000103 ∷ []) ≡ Some (Repeated 0x42) }
    ensures row_then_twice { arm_fault (0x01000348 ∷ 0 ∷ 0x00bf0000 ∷ arm_item ∷ [])
        ≡ Some (BadRow 0x0bf) }
    ensures twice_then_row { arm_fault (arm_item ∷ 0x01000348 ∷ 0 ∷ 0x00bf0000 ∷ [])
        ≡ Some (Repeated 0x42) }
    ensures later_wrong_item { arm_fault (value_item 0x0000094b ++ (0x00000105 ∷ []))
        ≡ Some (BadItem 0x05) }
    ensures later_twice { arm_fault (value_item 0x0000094b ++ (arm_item ∷ []))
        ≡ Some (Repeated 0x42) }
    ensures later_row { arm_fault (value_item 0x0000094b ++ (0x01000348 ∷ 0 ∷ 0x00bf0000 ∷ []))
        ≡ Some (BadRow 0x0bf) }
    ensures past_and_wrong { arm_fault (0x01000247 ∷ 99 ∷ 0x00000105 ∷ []) ≡ Some (BadItem 0x05) }
    ensures wrong_count { arm_fault (0x02000247 ∷ 1 ∷ value_item 0x0000094b)
        ≡ Some (BadItem 0x47) }
{}

/// A cleared trial bit is the topmost of the first IMAGE_TYPE header.
pub fn trial_bits()
    ensures set { trial_cleared (block_with (0x90210142 ∷ [])) ≡ arm_block [] }
    ensures clear { trial_cleared (arm_block []) ≡ arm_block [] }
    ensures second { trial_cleared
        (block_with (0x00000203 ∷ 0x80000000 ∷ 0x90210142 ∷ 0x90210142 ∷ []))
        ≡ block_with (0x00000203 ∷ 0x80000000 ∷ 0x10210142 ∷ 0x90210142 ∷ []) }
    ensures other { trial_cleared (block_with (0x900001fe ∷ [])) ≡ block_with (0x900001fe ∷ []) }
{}

/// The flags of a definition are 16 bits. At most all words of its block are hashed: the block of
/// one item word has five.
pub fn bounds_of_definitions()
    ensures flags { (b : BlockView) (hashed : ℕ) → ¬ (IsDefinition b (def_with 0x1_0000 hashed)) }
    ensures hashed { (flags : ℕ) → ¬ (IsDefinition (arm_block []) (def_with flags 6)) }
    ensures all_hashed { def_of (arm_block (0x01000247 ∷ 7 ∷ [])) ≡ Ok (def_with 0x1021 7) }
{}
