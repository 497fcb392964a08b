//! Worked examples of the definitions, proved by computing: each is the `ensures` of a function
//! that does nothing.

ghost use Rattle.std.specs.Prelude.{◌≡◌, ◌++◌, ◌+◌, ◌^◌, ℕ, [], ◌∷◌, length, replicate, true, false, Some, None, Ok, Err};
ghost use Rattle.block_codec.specs.Reading.{block_at};
ghost use Rattle.block_codec.specs.Words.{bytes_of};
ghost use Rattle.pico_board.specs.declared.boot.Cpu.TheVariants.{Arm, Riscv};
ghost use Rattle.pico_board.specs.Content.{Content};
ghost use Rattle.pico_board.specs.Examples.{window_at};
ghost use Rattle.part_table.specs.declared.table.Right.TheVariants.{BootRead, BootWrite};
ghost use Rattle.part_table.specs.declared.table.TableFault.TheVariants.{BadItem, Permissions, Range, Overlap, Link, Hash};
ghost use Rattle.part_table.specs.Examples.{block_with, table_in_64, table_with, sectors, plain_partition, partition_with, eight_words, guarded_table, long_table, unread_table, named_items, named_partition, named_partition_of, named_table, versioned_table, widest_partition, owned_items, owned_table, pair_and, pair_hashed, pair_items, pair_misdigested, pair_misdigested_last, pair_table, pair_version, one_part, two_parts, placed_parts, linked_parts, linked_table};
ghost use Rattle.part_table.specs.Families.{accepts, accepts_absolute, rp2040_family, absolute_family, arm_s_family, data_family, riscv_family, arm_ns_family};
ghost use Rattle.part_table.specs.Fields.{first_sector, last_sector, permissions_of, has_id, link_type, link_value, family_count, is_ignored, has_name, is_staying};
ghost use Rattle.part_table.specs.Links.{owner_of, pair_of};
ghost use Rattle.part_table.specs.Partitions.{part_at, partition_of, partition_words};
ghost use Rattle.part_table.specs.Rights.{allowed, allowed_by};
ghost use Rattle.part_table.specs.TableOf.{has_table, table_of};
ghost use Rattle.part_table.specs.Windows.{IsPlacedIn, partition_window};
ghost use Rattle.part_table.specs.Written.{IsReadablePartition, IsReadableTable, IsWritablePartition, IsWritableTable, hashed_table_items, table_item, written_items, written_size};

/// The block of a pair stands in its bytes and is read as its table. The flash has 64 sectors, and
/// its first two hold the table slots.
pub fn pair_is_read()
    ensures block { block_at
        (bytes_of (0xffffded3 ∷ pair_items ++ 0x000006ff ∷ 0 ∷ 0xab123579 ∷ [])) 0
        ≡ Some (block_with pair_items) }
    ensures has { has_table (block_with pair_items) ≡ true }
    ensures hasnt { has_table (block_with (0x10210142 ∷ [])) ≡ false }
    ensures table { table_in_64 pair_items ≡ Ok pair_table }
    ensures first { partition_window pair_table 0 ≡ record { start = 0x2000; len = 0x1e000 } }
    ensures second { partition_window pair_table 1 ≡ record { start = 0x20000; len = 0x1e000 } }
    ensures pair { pair_of pair_table.parts.items 0 ≡ Some 1 }
    ensures alone { pair_of pair_table.parts.items 1 ≡ None }
    ensures arm { accepts (part_at pair_table.parts.items 0) arm_s_family ≡ true }
    ensures riscv { accepts (part_at pair_table.parts.items 0) riscv_family ≡ false }
    ensures absolute { accepts_absolute pair_table ≡ true }
{}

/// Each field of a location word and of a flag word, with all its bits and with all others. A bit
/// above a word is none of the permissions.
pub fn fields_are_read()
    ensures first { first_sector (plain_partition 0x00001fff 0) ≡ 8191 }
    ensures not_first { first_sector (plain_partition 0xffffe000 0) ≡ 0 }
    ensures last { last_sector (plain_partition 0x03ffe000 0) ≡ 8191 }
    ensures not_last { last_sector (plain_partition 0xfc001fff 0) ≡ 0 }
    ensures permissions { permissions_of 0xfc000000 ≡ 63 }
    ensures no_permissions { permissions_of 0x03ffffff ≡ 0 }
    ensures above_a_word { permissions_of 0x100000000 ≡ 0 }
    ensures id { has_id 0x00000001 ≡ true }
    ensures no_id { has_id 0xfffffffe ≡ false }
    ensures kind { link_type (plain_partition 0 0x00000006) ≡ 3 }
    ensures no_kind { link_type (plain_partition 0 0xfffffff9) ≡ 0 }
    ensures value { link_value (plain_partition 0 0x00000078) ≡ 15 }
    ensures no_value { link_value (plain_partition 0 0xffffff87) ≡ 0 }
    ensures families { family_count 0x00000180 ≡ 3 }
    ensures no_families { family_count 0xfffffe7f ≡ 0 }
    ensures arm { is_ignored Arm (plain_partition 0 0x00000200) ≡ true }
    ensures not_arm { is_ignored Arm (plain_partition 0 0xfffffdff) ≡ false }
    ensures riscv { is_ignored Riscv (plain_partition 0 0x00000400) ≡ true }
    ensures not_riscv { is_ignored Riscv (plain_partition 0 0xfffffbff) ≡ false }
    ensures name { has_name 0x00001000 ≡ true }
    ensures no_name { has_name 0xffffefff ≡ false }
    ensures staying { is_staying (plain_partition 0 0x00002000) ≡ true }
    ensures not_staying { is_staying (plain_partition 0 0xffffdfff) ≡ false }
{}

/// The six families by their bits; no other family has one. The absolute family of a table by bit
/// 15 of its unpartitioned word.
pub fn families_are_read()
    ensures rp2040 { accepts (plain_partition 0 (2 ^ 14)) 0xe48bff56 ≡ true }
    ensures absolute { accepts (plain_partition 0 (2 ^ 15)) 0xe48bff57 ≡ true }
    ensures of_data { accepts (plain_partition 0 (2 ^ 16)) 0xe48bff58 ≡ true }
    ensures arm_s { accepts (plain_partition 0 (2 ^ 17)) 0xe48bff59 ≡ true }
    ensures riscv { accepts (plain_partition 0 (2 ^ 18)) 0xe48bff5a ≡ true }
    ensures arm_ns { accepts (plain_partition 0 (2 ^ 19)) 0xe48bff5b ≡ true }
    ensures below { accepts (plain_partition 0 0xffffffff) 0xe48bff55 ≡ false }
    ensures above { accepts (plain_partition 0 0xffffffff) 0xe48bff5c ≡ false }
    ensures others { accepts (plain_partition 0 0xffffbfff) rp2040_family ≡ false }
    ensures no_absolute { accepts (plain_partition 0 0xffff7fff) absolute_family ≡ false }
    ensures no_data { accepts (plain_partition 0 0xfffeffff) data_family ≡ false }
    ensures no_arm_s { accepts (plain_partition 0 0xfffdffff) arm_s_family ≡ false }
    ensures no_riscv { accepts (plain_partition 0 0xfffbffff) riscv_family ≡ false }
    ensures no_arm_ns { accepts (plain_partition 0 0xfff7ffff) arm_ns_family ≡ false }
    ensures unpartitioned { accepts_absolute named_table ≡ false }
    ensures only { accepts_absolute (record {
      version = record { major = 0; minor = 0 };
      singleton = true;
      unpartitioned = 0xffff7fff;
      parts = record { items = [] };
    }) ≡ false }
    ensures alone { accepts_absolute (record {
      version = record { major = 0; minor = 0 };
      singleton = true;
      unpartitioned = 0x00008000;
      parts = record { items = [] };
    }) ≡ true }
{}

/// The long spelling of the item, its header bits that are not read, and a version of 1.9. A
/// version of 2.1 lists 33 rows and a rollback version above all that these can hold: in a table
/// this is no fault.
pub fn spellings_are_read()
    ensures long { table_in_64
        (0x0200068a ∷ 0xfc008000 ∷ 0xfc03e002 ∷ 0xfc020000 ∷ 0xfc07a020 ∷ 0xfc020002 ∷ [])
        ≡ Ok pair_table }
    ensures unread { table_in_64
        (0x72ff060a ∷ 0xfc008000 ∷ 0xfc03e002 ∷ 0xfc020000 ∷ 0xfc07a020 ∷ 0xfc020002 ∷ [])
        ≡ Ok pair_table }
    ensures none { table_in_64 (0x0000020a ∷ 0xfc008000 ∷ []) ≡ Ok (table_with []) }
    ensures later { table_in_64 (0x10210142 ∷ pair_items) ≡ Ok pair_table }
    ensures version { table_in_64 (pair_and (0x00000248 ∷ 0x00010009 ∷ []))
        ≡ Ok (pair_version 1 9) }
    ensures before { table_in_64 (0x00000248 ∷ 0x00010009 ∷ pair_items) ≡ Ok (pair_version 1 9) }
    ensures rows { table_in_64
        (pair_and (0x21001348 ∷ 0x00020001 ∷ 0x0000ffff ∷ eight_words ++ eight_words))
        ≡ Ok (pair_version 2 1) }
{}

/// A partition with an id, two extra families and a name; and these parts alone.
pub fn parts_of_partition_are_read()
    ensures table { table_in_64 named_items ≡ Ok named_table }
    ensures extra { accepts named_partition riscv_family ≡ true }
    ensures none { accepts named_partition arm_s_family ≡ false }
    ensures other { accepts named_partition 0x11111110 ≡ false }
    ensures id { partition_of 0xfc006002 0xfc000001 (0x44332211 ∷ 0x88776655 ∷ [])
        ≡ partition_with 0xfc000001 (Some 0x8877665544332211) [] None }
    ensures families { partition_of 0xfc006002 0xfc000180 (1 ∷ 2 ∷ 3 ∷ [])
        ≡ partition_with 0xfc000180 None (1 ∷ 2 ∷ 3 ∷ []) None }
    ensures short { partition_of 0xfc006002 0xfc001000 (0x00000000 ∷ [])
        ≡ partition_with 0xfc001000 None [] (Some (record { items = [] })) }
    ensures name { partition_of 0xfc006002 0xfc001000 (0x63626103 ∷ [])
        ≡ partition_with 0xfc001000 None [] (Some (record { items = 0x61 ∷ 0x62 ∷ 0x63 ∷ [] })) }
{}

/// How many words a partition takes: two, two for an id, one for each extra family, and for a name
/// as many as hold its length byte and its bytes. None where these words are not all there.
pub fn partitions_have_sizes()
    ensures plain { partition_words (0 ∷ 0 ∷ []) ≡ Some 2 }
    ensures id { partition_words (0 ∷ 1 ∷ 0 ∷ 0 ∷ []) ≡ Some 4 }
    ensures half_id { partition_words (0 ∷ 1 ∷ 0 ∷ []) ≡ None }
    ensures families { partition_words (0 ∷ 0x180 ∷ 0 ∷ 0 ∷ 0 ∷ []) ≡ Some 5 }
    ensures short { partition_words (0 ∷ 0x180 ∷ 0 ∷ 0 ∷ []) ≡ None }
    ensures no_name { partition_words (0 ∷ 0x1000 ∷ []) ≡ None }
    ensures empty { partition_words (0 ∷ 0x1000 ∷ 0 ∷ 9 ∷ []) ≡ Some 3 }
    ensures three { partition_words (0 ∷ 0x1000 ∷ 3 ∷ 9 ∷ []) ≡ Some 3 }
    ensures four { partition_words (0 ∷ 0x1000 ∷ 4 ∷ 9 ∷ []) ≡ Some 4 }
    ensures four_short { partition_words (0 ∷ 0x1000 ∷ 4 ∷ []) ≡ None }
    ensures flags { partition_words (0 ∷ []) ≡ None }
    ensures nothing { partition_words [] ≡ None }
{}

/// The items that are written for the pair's table before its digest, the size of its block, and
/// the item of the named partition. Bit 7 of the name's length byte is clear.
pub fn tables_are_written()
    ensures items { hashed_table_items pair_table
        ≡ pair_items ++ 0x00000248 ∷ 0 ∷ 0x01000247 ∷ 11 ∷ [] }
    ensures version { hashed_table_items (pair_version 1 9) ≡ pair_items ++ 0x00000248 ∷ 0x00010009
        ∷ 0x01000247 ∷ 11 ∷ [] }
    ensures size { written_size pair_table ≡ 92 }
    ensures named { table_item named_table
        ≡ 0x81000a0a ∷ 0 ∷ 0xfc006002 ∷ 0xfc001101 ∷ 0x44332211 ∷ 0x88776655 ∷ 0x11111111
        ∷ 0xe48bff5a
        ∷ 0x63626104 ∷ 0x00000064 ∷ [] }
{}

/// The greatest words, id, families, bytes and length of a name that can be written for a
/// partition, and the next one after each. Also partitions whose flag word says nothing of an id,
/// families or a name that are there. Also partitions whose flag word says that there are some
/// where there are none.
pub fn partitions_that_can_be_written()
    ensures greatest { IsWritablePartition widest_partition }
    ensures location { ¬ (IsWritablePartition (plain_partition (2 ^ 32) 0)) }
    ensures flags { ¬ (IsWritablePartition (plain_partition 0 (2 ^ 32))) }
    ensures id { ¬ (IsWritablePartition (partition_with 1 (Some (2 ^ 64)) [] None)) }
    ensures families { ¬ (IsWritablePartition (partition_with 0x80 None (2 ^ 32 ∷ []) None)) }
    ensures byte { ¬ (IsReadablePartition (named_partition_of 0x1000 (256 ∷ []))) }
    ensures long { ¬ (IsReadablePartition (named_partition_of 0x1000 (replicate 128 0))) }
    ensures untold_id { ¬ (IsReadablePartition (partition_with 0 (Some 0) [] None)) }
    ensures untold_family { ¬ (IsReadablePartition (partition_with 0 None (0 ∷ []) None)) }
    ensures untold_name { ¬ (IsReadablePartition (named_partition_of 0 [])) }
    ensures no_id { ¬ (IsReadablePartition (plain_partition 0 1)) }
    ensures no_family { ¬ (IsReadablePartition (plain_partition 0 0x80)) }
    ensures no_name { ¬ (IsReadablePartition (plain_partition 0 0x1000)) }
{}

/// The greatest version, unpartitioned word, number of partitions and size of a block that can be
/// written for a table, and the next one after each.
pub fn tables_that_can_be_written()
    ensures greatest { IsWritableTable (versioned_table 65535 65535 0xffffffff) }
    ensures major { ¬ (IsWritableTable (versioned_table 65536 0 0)) }
    ensures minor { ¬ (IsWritableTable (versioned_table 0 65536 0)) }
    ensures unpartitioned { ¬ (IsWritableTable (versioned_table 0 0 (2 ^ 32))) }
    ensures most { IsReadableTable (table_with (replicate 15 (plain_partition 0 0))) }
    ensures more { ¬ (IsReadableTable (table_with (replicate 16 (plain_partition 0 0)))) }
    ensures full { IsReadableTable (long_table 0x1000 []) }
    ensures fuller { ¬ (IsReadableTable (long_table 0x1080 (0 ∷ []))) }
    ensures full_size { written_size (long_table 0x1000 []) ≡ 640 }
{}

/// Items that stand twice, have a wrong size, or are not filled exactly.
pub fn bad_items_are_found()
    ensures twice { table_in_64 (pair_and pair_items) ≡ Err BadItem }
    ensures other_spelling { table_in_64 (pair_and (0x0000028a ∷ 0 ∷ [])) ≡ Err BadItem }
    ensures short { table_in_64
        (0x0200050a ∷ 0xfc008000 ∷ 0xfc03e002 ∷ 0xfc020000 ∷ 0xfc07a020 ∷ []) ≡ Err BadItem }
    ensures more { table_in_64 (0x0100060a ∷ 0xfc008000 ∷ 0xfc03e002 ∷ 0xfc020000 ∷ 0 ∷ 0 ∷ [])
        ≡ Err BadItem }
    ensures fewer { table_in_64
        (0x0300060a ∷ 0xfc008000 ∷ 0xfc03e002 ∷ 0xfc020000 ∷ 0xfc07a020 ∷ 0xfc020002 ∷ [])
        ≡ Err BadItem }
    ensures empty { table_in_64 (0x0000010a ∷ []) ≡ Err BadItem }
    ensures version { table_in_64 (pair_and (0x00000348 ∷ 0 ∷ 0 ∷ [])) ≡ Err BadItem }
    ensures versions { table_in_64 (pair_and (0x00000248 ∷ 0 ∷ 0x00000248 ∷ 0 ∷ [])) ≡ Err BadItem }
    ensures hash_defs { table_in_64 (pair_and (0x01000247 ∷ 1 ∷ 0x01000247 ∷ 1 ∷ []))
        ≡ Err BadItem }
    ensures hash_def { table_in_64 (pair_and (0x01000347 ∷ 1 ∷ 0 ∷ [])) ≡ Err BadItem }
    ensures hash_values { table_in_64
        (pair_and (0x01000247 ∷ 1 ∷ 0x0000094b ∷ eight_words ++ 0x000009cb ∷ eight_words))
        ≡ Err BadItem }
    ensures hash_value { table_in_64 (pair_and (0x01000247 ∷ 1 ∷ 0x00000a4b ∷ 0 ∷ eight_words))
        ≡ Err BadItem }
{}

/// Digests without their number of words, with a number that passes the digest's item or the
/// block, and with another hash.
pub fn bad_digests_are_found()
    ensures alone { table_in_64 (pair_and (0x0000094b ∷ eight_words)) ≡ Err BadItem }
    ensures long { table_in_64 (pair_and (0x000009cb ∷ eight_words)) ≡ Err BadItem }
    ensures passed { table_in_64 (pair_and (0x01000247 ∷ 10 ∷ 0x0000094b ∷ eight_words))
        ≡ Err BadItem }
    ensures outside { table_in_64 (pair_and (0x01000247 ∷ 13 ∷ [])) ≡ Err BadItem }
    ensures whole { table_in_64 (pair_and (0x01000247 ∷ 12 ∷ [])) ≡ Ok pair_table }
    ensures other { table_in_64 (pair_and (0x02000247 ∷ 12 ∷ [])) ≡ Err BadItem }
{}

/// Permission fields that differ in the lowest and in the highest bit, and the first of two such
/// partitions. Also words that differ below these fields.
pub fn permissions_are_compared()
    ensures highest { table_in_64 (two_parts 0xfc03e002 0xfc020000 0xfc07a020 0x7c020002)
        ≡ Err (Permissions 1) }
    ensures lowest { table_in_64 (two_parts 0xfc03e002 0xfc020000 0xf807a020 0xfc020002)
        ≡ Err (Permissions 1) }
    ensures least { table_in_64 (two_parts 0xfc03e002 0xf8020000 0xf807a020 0xfc020002)
        ≡ Err (Permissions 0) }
    ensures below { table_in_64 (one_part 0x0003e002 0x02020000)
        ≡ Ok (table_with (plain_partition 0x0003e002 0x02020000 ∷ [])) }
{}

/// Sectors before the first free one, past the flash, and in the wrong order; and next to each the
/// last ones that are in range. Also the first of two partitions out of range.
pub fn ranges_are_found()
    ensures first { table_of (block_with pair_items) 64 3 ≡ Err (Range 0) }
    ensures last { table_of (block_with pair_items) 61 2 ≡ Err (Range 1) }
    ensures full { table_of (block_with pair_items) 62 2 ≡ Ok pair_table }
    ensures order { table_in_64 (two_parts 0xfc03e002 0xfc020000 (sectors 32 31) 0xfc020002)
        ≡ Err (Range 1) }
    ensures one { table_in_64 (two_parts 0xfc03e002 0xfc020000 (sectors 32 32) 0xfc020002)
        ≡ Ok (table_with
        (plain_partition 0xfc03e002 0xfc020000 ∷ plain_partition (sectors 32 32) 0xfc020002
        ∷ [])) }
    ensures least { table_of (block_with pair_items) 20 2 ≡ Err (Range 0) }
{}

/// Partitions that share one sector, at either end; the lowest such partition, and the lowest one
/// that shares a sector with it; and partitions that touch.
pub fn overlaps_are_found()
    ensures end { table_in_64 (placed_parts (sectors 2 32) (sectors 32 61) (sectors 62 63))
        ≡ Err (Overlap 0 1) }
    ensures start { table_in_64 (placed_parts (sectors 32 61) (sectors 2 32) (sectors 62 63))
        ≡ Err (Overlap 0 1) }
    ensures inside { table_in_64 (placed_parts (sectors 2 61) (sectors 62 63) (sectors 30 31))
        ≡ Err (Overlap 0 2) }
    ensures least { table_in_64 (placed_parts (sectors 2 31) (sectors 31 40) (sectors 4 4))
        ≡ Err (Overlap 0 1) }
    ensures first { table_in_64 (placed_parts (sectors 2 9) (sectors 11 40) (sectors 4 20))
        ≡ Err (Overlap 0 2) }
    ensures later { table_in_64 (placed_parts (sectors 2 9) (sectors 11 40) (sectors 40 41))
        ≡ Err (Overlap 1 2) }
    ensures touching { table_in_64 (linked_parts 0 0 0) ≡ Ok (linked_table 0 0 0) }
{}

/// Links of type 3; links "A is" to no partition, to itself, to a B, and to an A that has a B;
/// owner links to no partition, to itself, and to a partition with a link; and the first of two.
/// Right links too: the link of a B to a later A, and two partitions with one owner.
pub fn links_are_found()
    ensures kind { table_in_64 (linked_parts 0 6 0) ≡ Err (Link 1) }
    ensures past { table_in_64 (linked_parts 0 0x1a 0) ≡ Err (Link 1) }
    ensures last { table_in_64 (linked_parts 0 0x12 0) ≡ Ok (linked_table 0 0x12 0) }
    ensures itself { table_in_64 (linked_parts 0 0x0a 0) ≡ Err (Link 1) }
    ensures second { table_in_64 (linked_parts 0x0a 0x12 0) ≡ Err (Link 0) }
    ensures owned { table_in_64 (linked_parts 0x0a 0x14 0) ≡ Ok (linked_table 0x0a 0x14 0) }
    ensures taken { table_in_64 (linked_parts 0 2 2) ≡ Err (Link 2) }
    ensures kept { table_in_64 (linked_parts 0 4 2) ≡ Ok (linked_table 0 4 2) }
    ensures own { table_in_64 (linked_parts 0 0x0c 0) ≡ Err (Link 1) }
    ensures no_owner { table_in_64 (linked_parts 0 0x1c 0) ≡ Err (Link 1) }
    ensures owner { table_in_64 (linked_parts 0 0x14 4) ≡ Err (Link 1) }
    ensures owner_second { table_in_64 (linked_parts 0 0x14 2) ≡ Err (Link 1) }
    ensures both { table_in_64 (linked_parts 0 4 4) ≡ Ok (linked_table 0 4 4) }
    ensures least { table_in_64 (linked_parts 0 6 6) ≡ Err (Link 1) }
{}

/// Two faults for each two neighbouring kinds, the earlier kind at the later partition.
pub fn faults_are_in_order()
    ensures item { table_in_64
        (two_parts 0xfc03e002 0x7c020000 0xfc07a020 0xfc020002 ++ 0x00000348 ∷ 0 ∷ 0 ∷ [])
        ≡ Err BadItem }
    ensures permissions { table_in_64 (two_parts (sectors 1 31) 0xfc020000 0xfc07a020 0x7c020002)
        ≡ Err (Permissions 1) }
    ensures range { table_in_64 (placed_parts (sectors 2 9) (sectors 9 12) (sectors 13 64))
        ≡ Err (Range 2) }
    ensures overlap { table_in_64 (two_parts (sectors 2 9) 0xfc000006 (sectors 9 12) 0xfc000000)
        ≡ Err (Overlap 0 1) }
    ensures link { table_in_64 (two_parts 0xfc03e002 0xfc020000 0xfc07a020 0xfc020006
        ++ 0x01000247 ∷ 1 ∷ 0x0000094b ∷ eight_words) ≡ Err (Link 1) }
{}

/// A pair of data that the first image partition owns.
pub fn owners_are_read()
    ensures table { table_in_64 owned_items ≡ Ok owned_table }
    ensures owner { owner_of (part_at owned_table.parts.items 2) ≡ Some 0 }
    ensures none { owner_of (part_at owned_table.parts.items 1) ≡ None }
    ensures pair { pair_of owned_table.parts.items 2 ≡ Some 3 }
    ensures of_data { accepts (part_at owned_table.parts.items 2) data_family ≡ true }
{}

/// The rights to the first and the last sector of a partition, and to sectors of none.
pub fn rights_are_read()
    ensures read { allowed guarded_table 2 BootRead ≡ true }
    ensures first { allowed guarded_table 2 BootWrite ≡ false }
    ensures last { allowed guarded_table 31 BootWrite ≡ false }
    ensures other { allowed guarded_table 32 BootWrite ≡ true }
    ensures end { allowed guarded_table 61 BootWrite ≡ true }
    ensures before { allowed guarded_table 1 BootWrite ≡ false }
    ensures behind { allowed guarded_table 62 BootWrite ≡ false }
    ensures unread { allowed unread_table 2 BootRead ≡ false }
    ensures written { allowed unread_table 2 BootWrite ≡ true }
    ensures unpartitioned { allowed unread_table 62 BootRead ≡ false }
    ensures all { allowed_by None 62 BootWrite ≡ true }
    ensures by { allowed_by (Some guarded_table) 62 BootWrite ≡ false }
{}

/// A digest that is that of the words before it; digests with a wrong first and a wrong last byte;
/// and a wrong digest together with a fault of range. Also the items that are written for the
/// pair's table.
pub fn digests_are_compared()
    ensures right { table_in_64 pair_hashed ≡ Ok pair_table }
    ensures wrong { table_in_64 pair_misdigested ≡ Err Hash }
    ensures wrong_last { table_in_64 pair_misdigested_last ≡ Err Hash }
    ensures later { table_of (block_with pair_misdigested) 61 2 ≡ Err (Range 1) }
    ensures written { written_items pair_table ≡ pair_hashed }
{}

/// In the minimal flash stand the windows of its first, of its last and of both sectors. No window
/// stands there that leaves it, that has no sector or that has a part of one. In the greatest
/// flash stands no window of a sector more than the flash has.
pub fn windows_in_a_flash()
    ensures first { (c : Content) → length c.flash ≡ 0x2000 → IsPlacedIn c (window_at 0 0x1000) }
    ensures last { (c : Content) → length c.flash ≡ 0x2000
        → IsPlacedIn c (window_at 0x1000 0x1000) }
    ensures both { (c : Content) → length c.flash ≡ 0x2000 → IsPlacedIn c (window_at 0 0x2000) }
    ensures above { (c : Content) → length c.flash ≡ 0x2000
        → ¬ (IsPlacedIn c (window_at 0x1000 0x2000)) }
    ensures empty { (c : Content) → ¬ (IsPlacedIn c (window_at 0 0)) }
    ensures part { (c : Content) → ¬ (IsPlacedIn c (window_at 0 0x1800)) }
    ensures between { (c : Content) → ¬ (IsPlacedIn c (window_at 0x800 0x1000)) }
    ensures greatest { (c : Content) → length c.flash ≡ 0x100_0000
        → IsPlacedIn c (window_at 0 0x100_0000) }
    ensures above_greatest { (c : Content) → length c.flash ≡ 0x100_0000
        → ¬ (IsPlacedIn c (window_at 0 0x100_1000)) }
{}
