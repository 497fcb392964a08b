//! Worked examples of sealed images. Each is the `ensures` of a function that does nothing.

ghost use Rattle.std.specs.Prelude.{◌≡◌, [], ◌∷◌, ◌++◌, true, false, length, None, Some, negsuc, pos, replicate, ◌<◌, ◌≤◌, Ok};
ghost use Rattle.pico_board.specs.declared.boot.Cpu.TheVariants.{Arm, Riscv};
ghost use Rattle.pico_board.specs.declared.window.TheConstants.{MOST_FLASH_BYTES};
ghost use Rattle.pico_board.specs.Content.{flash_base};
ghost use Rattle.block_codec.specs.Erased.{AreErased};
ghost use Rattle.load_map.specs.declared.addresses.TheConstants.{SRAM_START};
ghost use Rattle.worked_flashes.specs.Tables.{arm_block, arm_def, full_block, full_def};
ghost use Rattle.image_check.specs.Addressing.{in_flash};
ghost use Rattle.image_check.specs.Entering.{table_address};
ghost use Rattle.worked_flashes.specs.Images.{def_with_rows, table_bytes};
ghost use Rattle.image_check.specs.Image.{image_in};
ghost use Rattle.image_check.specs.Valid.{IsValidImage};
ghost use Rattle.image_pack.specs.declared.parts.Parts.{Parts};
ghost use Rattle.image_pack.specs.Examples.{block_at_40, eight_bytes, erased_sector, four_bytes, least_image, least_sealed, loaded_image, one_item, parts_at, spec_of, started_at, table_record, window_of_length};
ghost use Rattle.image_pack.specs.Faults.{IsSealed, block_offset, zero_otp};
ghost use Rattle.image_pack.specs.Filling.{whole_sectors, whole_words};
ghost use Rattle.image_pack.specs.ReadBack.{IsHalves, map_place};
ghost use Rattle.image_pack.specs.Starts.{StartsBy, LinkIsOutsideTable, StartsAs, TableIsStoredIn, start_of};
ghost use Rattle.image_pack.specs.Sealing.{block_link, copied_loads, copied_words, covered_part, entry_words, front_items, link_offset_of, offset_of_block, own_loads, parts_taken_over, sealed_text, parts_in};
ghost use Rattle.image_pack.specs.Within.{IsWithin};

/// The minimal image for Arm, sealed with version 1.9: its block links to the new one, and the new
/// one back to it.
pub fn the_least_image_sealed()
    ensures { sealed_text least_image (spec_of Arm false None []) ≡ least_sealed }
{}

/// The items before the load map: of a trial image for RISC-V without rows; with one row, and with
/// two, where 0 fills the last word; and the copied item after them.
pub fn items_before_the_load_map()
    ensures trial { front_items (spec_of Riscv true None []) true []
        ≡ 0x91010142 ∷ 0x00000248 ∷ 0x00010009 ∷ [] }
    ensures one_row { front_items (spec_of Arm false (Some 3) (0x0c0 ∷ [])) false []
        ≡ 0x10210142 ∷ 0x01000348 ∷ 0x00010009 ∷ 0x00c00003 ∷ [] }
    ensures two_rows { front_items (spec_of Arm false (Some 5) (0x0c0 ∷ 0x0c3 ∷ [])) false []
        ≡ 0x10210142 ∷ 0x02000448 ∷ 0x00010009 ∷ 0x00c00005 ∷ 0x000000c3 ∷ [] }
    ensures copied { front_items (spec_of Arm false None []) false (0x00000203 ∷ 0x10000100 ∷ [])
        ≡ 0x10210142 ∷ 0x00000248 ∷ 0x00010009 ∷ 0x00000203 ∷ 0x10000100 ∷ [] }
{}

/// The loads of a new block after 0x128 bytes: the image in place, and then the loads of the
/// binary that go into SRAM, in order. A load whose storage begins at the LOAD_MAP item becomes a
/// clear one.
pub fn the_loads_of_a_new_block()
    ensures kept { own_loads 0x128 0x138 (four_bytes (Some 0x100) 0x20000000
        ∷ four_bytes (Some 0x104) 0x10000104 ∷ four_bytes None 0x20081ffc
        ∷ four_bytes None 0x20081ffd ∷ [])
        ≡ record { storage = Some 0; runtime = 0x10000000; size = 0x128 }
        ∷ four_bytes (Some 0x100) 0x20000000 ∷ four_bytes None 0x20081ffc ∷ [] }
    ensures at_the_item { own_loads 0x128 0x138 (four_bytes (Some 0x138) 0x20000000 ∷ [])
        ≡ record { storage = Some 0; runtime = 0x10000000; size = 0x128 }
        ∷ four_bytes None 0x20000000 ∷ [] }
    ensures beside_the_item { copied_loads 0x138 (four_bytes (Some 0x137) 0x20000000
        ∷ four_bytes (Some 0x139) 0x20000000 ∷ [])
        ≡ four_bytes (Some 0x137) 0x20000000 ∷ four_bytes (Some 0x139) 0x20000000 ∷ [] }
    ensures below_sram { copied_loads 0x138 (four_bytes (Some 0x100) 0x1fffffff ∷ []) ≡ [] }
    ensures words { entry_words 0x138 (four_bytes (Some 0x100) 0x20000000)
        ≡ 0xffffffc8 ∷ 0x20000000 ∷ 4 ∷ [] }
    ensures clear { entry_words 0x138 (four_bytes None 0x20000000)
        ≡ 0 ∷ 0x20000000 ∷ 4 ∷ [] }
{}

/// What the digest covers of a load: its storage bytes, or the size of a clear entry. Storage
/// bytes after the bytes that there are count as 0xff.
#[tactic(auto, unfolding(block_codec::specs::Words::word_bytes))]
pub fn covered_bytes_of_loads()
    ensures inside { covered_part (1 ∷ 2 ∷ 3 ∷ 4 ∷ 5 ∷ []) (four_bytes (Some 1) 0x20000000)
        ≡ 2 ∷ 3 ∷ 4 ∷ 5 ∷ [] }
    ensures past { covered_part (1 ∷ 2 ∷ 3 ∷ 4 ∷ 5 ∷ []) (four_bytes (Some 3) 0x20000000)
        ≡ 4 ∷ 5 ∷ 255 ∷ 255 ∷ [] }
    ensures behind { covered_part (1 ∷ 2 ∷ []) (four_bytes (Some 2) 0x20000000)
        ≡ 255 ∷ 255 ∷ 255 ∷ 255 ∷ [] }
    ensures clear { covered_part (1 ∷ 2 ∷ []) (four_bytes None 0x20000000)
        ≡ 4 ∷ 0 ∷ 0 ∷ 0 ∷ [] }
{}

/// A new block links to the first block of the binary's loop, and to itself where there is none.
pub fn links_of_new_blocks()
    ensures back { block_link 0x128 (Some (parts_at 0x114 0x114 0x120 [])) ≡ negsuc 0x13 }
    ensures itself { block_link 0x128 None ≡ pos 0 }
{}

/// The numbers of a version are half words.
pub fn halves_of_versions()
    ensures greatest { IsHalves (record { major = 0xffff; minor = 0xffff }) }
    ensures major_above { ¬ (IsHalves (record { major = 0x1_0000; minor = 0 })) }
    ensures minor_above { ¬ (IsHalves (record { major = 0; minor = 0x1_0000 })) }
{}

/// The blocks of a binary begin within it or at its end, and its link word ends there at the
/// latest. The binary has at most 16,777,216 bytes, and the storage of each load ends within as
/// many.
pub fn parts_within_a_binary()
    ensures at_the_end { IsWithin (parts_at 8 8 4 []) 8 }
    ensures first_past { ¬ (IsWithin (parts_at 9 8 4 []) 8) }
    ensures last_past { ¬ (IsWithin (parts_at 8 9 4 []) 8) }
    ensures link_past { ¬ (IsWithin (parts_at 8 8 5 []) 8) }
    ensures longest { IsWithin (parts_at 0 0 0 (four_bytes (Some 0xff_fffc) 0 ∷ [])) 0x100_0000 }
    ensures longer { ¬ (IsWithin (parts_at 0 0 0 []) 0x100_0001) }
    ensures stored_past { ¬ (IsWithin (parts_at 0 0 0 (four_bytes (Some 0xff_fffd) 0 ∷ [])) 8) }
{}

/// The offset of a block is where it stands, and its link word is the last but one. Where there is
/// no block, both are 0.
pub fn offsets_of_blocks()
    ensures block { offset_of_block (Some (one_item 0x40)) ≡ 0x40 }
    ensures link { link_offset_of (Some (one_item 0x40)) ≡ 0x4c }
    ensures none { offset_of_block None ≡ 0 }
    ensures no_link { link_offset_of None ≡ 0 }
{}

/// The item that is copied is the ENTRY_POINT, also after a VECTOR_TABLE. Without an ENTRY_POINT
/// it is the VECTOR_TABLE, and without both there is none.
#[tactic(auto, unfolding(block_codec::specs::Items::size_of, block_codec::specs::Blocks::frame))]
pub fn copied_items()
    ensures both { copied_words (block_at_40 (0x10210142 ∷ 0x00000203 ∷ 0x10000100 ∷ 0x00000344
        ∷ 0x10000201 ∷ 0x20082000 ∷ [])) ≡ 0x00000344 ∷ 0x10000201 ∷ 0x20082000 ∷ [] }
    ensures table { copied_words (block_at_40 (0x10210142 ∷ 0x00000203 ∷ 0x10000100 ∷ []))
        ≡ 0x00000203 ∷ 0x10000100 ∷ [] }
    ensures none { copied_words (block_at_40 (0x10210142 ∷ [])) ≡ [] }
{}

/// Of a loop of two the new block links to the first block, and the link word of the last block is
/// changed.
pub fn parts_of_a_loop_of_two()
    ensures first { (parts_taken_over (one_item 0x40 ∷ one_item 0x80 ∷ []) (one_item 0x40) []).first
        ≡ 0x40 }
    ensures last { (parts_taken_over (one_item 0x40 ∷ one_item 0x80 ∷ []) (one_item 0x40) []).last
        ≡ 0x80 }
    ensures link { (parts_taken_over (one_item 0x40 ∷ one_item 0x80 ∷ [])
        (one_item 0x40) []).link_at
        ≡ 0x8c }
{}

/// Bytes are filled with 0xff up to whole words of 4 bytes, and up to whole sectors of 4096.
pub fn bytes_are_filled()
    ensures words { whole_words (1 ∷ 2 ∷ 3 ∷ 4 ∷ 5 ∷ [])
        ≡ 1 ∷ 2 ∷ 3 ∷ 4 ∷ 5 ∷ 255 ∷ 255 ∷ 255 ∷ [] }
    ensures whole { whole_words (1 ∷ 2 ∷ 3 ∷ 4 ∷ []) ≡ 1 ∷ 2 ∷ 3 ∷ 4 ∷ [] }
    ensures sector { whole_sectors (7 ∷ []) ≡ 7 ∷ replicate 4095 255 }
    ensures sectors { length (whole_sectors (replicate 4097 7)) ≡ 8192 }
{}

/// A LOAD_MAP item stands at its first word in the block, and the block at its start in the
/// window. An image without a LOAD_MAP item has its place at 0.
#[tactic(auto, unfolding(block_codec::specs::Items::size_of))]
pub fn places_of_load_maps()
    ensures eleventh_word { map_place (record { block = full_block; def = full_def }) ≡ 44 }
    ensures none { map_place (record { block = arm_block []; def = arm_def }) ≡ 0 }
{}

/// Without an ENTRY_POINT an image for Arm starts by the vector table at the window's start, or by
/// the one that its VECTOR_TABLE names. An image for RISC-V starts at the window's start.
pub fn starts_without_an_entry_point()
    ensures first { StartsBy Arm (def_with_rows None None []) table_bytes []
        (started_at 0x10000201 0x20082000 0) }
    ensures named { StartsBy Arm (def_with_rows (Some 0x10000004) None [])
        (9 ∷ 9 ∷ 9 ∷ 9 ∷ table_bytes) [] (started_at 0x10000201 0x20082000 0) }
    ensures not_named { ¬ (StartsBy Arm (def_with_rows None None [])
        (9 ∷ 9 ∷ 9 ∷ 9 ∷ table_bytes) []
        (started_at 0x10000201 0x20082000 0)) }
    ensures other_pc { ¬ (StartsBy Arm (def_with_rows None None []) table_bytes []
        (started_at 0x10000200 0x20082000 0)) }
    ensures other_sp { ¬ (StartsBy Arm (def_with_rows None None []) table_bytes []
        (started_at 0x10000201 0x20081ffc 0)) }
    ensures riscv { StartsBy Riscv (def_with_rows None None []) table_bytes []
        (started_at 0x10000000 0x20082000 0) }
    ensures not_by_table { ¬ (StartsBy Riscv (def_with_rows None None []) table_bytes []
        (started_at 0x10000201 0x20082000 0)) }
{}

/// The minimal image for Arm starts by the vector table at its start, unsealed as sealed. The
/// premises of the law on that hold together. It is a valid image as it is, with a sector of 0xff
/// after it. It is sealed, and its table lies in flash. The one block of its loop is its
/// definition, so the link is outside the table.
pub fn the_least_image_starts_sealed_as_before()
    ensures unsealed { image_in in_flash (window_of_length 8192) Arm false zero_otp
        (whole_sectors least_image ++ erased_sector) ≡ Ok (table_record 8192 0x114 0 0) }
    ensures sealed { image_in in_flash (window_of_length 4096) Arm false zero_otp
        (whole_sectors least_sealed) ≡ Ok (table_record 4096 0x128 1 9) }
    ensures together { (sealed : IsSealed least_image (spec_of Arm false None []))
        × AreErased erased_sector
        × (valid : IsValidImage in_flash (window_of_length 8192) Arm false zero_otp
        (whole_sectors least_image ++ erased_sector) (table_record 8192 0x114 0 0))
        × (length (whole_sectors least_image ++ erased_sector) ≤ MOST_FLASH_BYTES)
        × (p : Parts) × (parts_in Arm (whole_sectors least_image) ≡ Ok p)
        × (valid.image.def.entry_point ≡ None) × (p.last ≡ valid.image.block.at)
        × (table_address flash_base valid.image.def < SRAM_START)
        × LinkIsOutsideTable valid.sound.loads (table_address flash_base valid.image.def)
        p.link_at
        × StartsAs (start_of (table_record 8192 0x114 0 0)) sealed.started }
{}

/// An image for Arm whose vector table is loaded into SRAM starts by that table, unsealed as
/// sealed. The premises of the law on that hold together too: the image is valid as it is; it is
/// sealed; its table is stored in it; and the link is outside the table.
pub fn a_loaded_table_starts_sealed_as_before()
    ensures unsealed { image_in in_flash (window_of_length 8192) Arm false zero_otp
        (whole_sectors loaded_image ++ erased_sector) ≡ Ok (table_record 8192 8 0 0) }
    ensures together { (sealed : IsSealed loaded_image (spec_of Arm false None []))
        × AreErased erased_sector
        × (valid : IsValidImage in_flash (window_of_length 8192) Arm false zero_otp
        (whole_sectors loaded_image ++ erased_sector) (table_record 8192 8 0 0))
        × (length (whole_sectors loaded_image ++ erased_sector) ≤ MOST_FLASH_BYTES)
        × (p : Parts) × (parts_in Arm (whole_sectors loaded_image) ≡ Ok p)
        × (SRAM_START ≤ table_address flash_base valid.image.def)
        × TableIsStoredIn (block_offset loaded_image) valid.sound.loads
        (table_address flash_base valid.image.def)
        × LinkIsOutsideTable valid.sound.loads (table_address flash_base valid.image.def)
        p.link_at
        × StartsAs (start_of (table_record 8192 8 0 0)) sealed.started }
{}

/// A link word that begins where a vector table ends, or ends where the table begins, is outside
/// the table. A link word that begins or ends a byte further in is not. A loaded table lies where
/// it is stored.
pub fn links_beside_a_vector_table()
    ensures behind { LinkIsOutsideTable [] 0x10000000 8 }
    ensures last_byte { ¬ (LinkIsOutsideTable [] 0x10000000 7) }
    ensures before { LinkIsOutsideTable [] 0x10000008 4 }
    ensures first_byte { ¬ (LinkIsOutsideTable [] 0x10000008 5) }
    ensures loaded_behind { LinkIsOutsideTable (eight_bytes 0x20 ∷ []) 0x20000000 0x28 }
    ensures loaded_last_byte { ¬ (LinkIsOutsideTable (eight_bytes 0x20 ∷ []) 0x20000000 0x27) }
    ensures loaded_before { LinkIsOutsideTable (eight_bytes 0x20 ∷ []) 0x20000000 0x1c }
    ensures loaded_first_byte { ¬ (LinkIsOutsideTable (eight_bytes 0x20 ∷ []) 0x20000000 0x1d) }
{}

/// A loaded vector table is stored in the bytes up to its last one, and in no fewer. A table that
/// lies in flash without a load is stored in any.
pub fn tables_stored_in_a_binary()
    ensures all { TableIsStoredIn 0x28 (eight_bytes 0x20 ∷ []) 0x20000000 }
    ensures one_less { ¬ (TableIsStoredIn 0x27 (eight_bytes 0x20 ∷ []) 0x20000000) }
    ensures not_loaded { TableIsStoredIn 0 [] 0x10000000 }
{}
