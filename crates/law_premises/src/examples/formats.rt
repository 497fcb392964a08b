//! Premises on bytes, rows, tables and pictures.

ghost use Rattle.std.specs.Prelude.{◌∷◌, [], None, Some, codes};
ghost use Rattle.block_codec.specs.Pages.{IsPartlyWritten};
ghost use Rattle.block_loop.specs.Cycles.{KeepsLinks};
ghost use Rattle.law_plans.specs.Examples.{crowded, firm};
ghost use Rattle.law_plans.specs.Lone.{HasLoneLoop};
ghost use Rattle.law_premises.specs.Examples.{linked_block, one_block_window, two_pages};
ghost use Rattle.worked_flashes.specs.Images.{small_block};
ghost use Rattle.block_codec.specs.HighByte.{ChangesHighByte};
ghost use Rattle.part_table.specs.Examples.{pair_table, plain_partition};
ghost use Rattle.pico_board.specs.Content.{Content};
ghost use Rattle.pico_board.specs.Sessions.{SameButSector};
ghost use Rattle.pico_board.specs.Steps.{SameOutside};
ghost use Rattle.law_targets.specs.Loads.{IsExecutable};
ghost use Rattle.law_targets.specs.Pairs.{HasNoSecond, IsPart};
ghost use Rattle.boot_map.specs.MapRules.{ArePair, IsNumbered};
ghost use Rattle.boot_map.specs.declared.places.MapPlace.TheVariants.{Partition, Slot};
ghost use Rattle.elf_pack.specs.Faults.{HasAddress};
ghost use Rattle.svg_marks.specs.Texts.{HasTexts};
ghost use Rattle.image_pack.specs.Starts.{IsLoadedFrom};
ghost use Rattle.otp_roll.specs.Rows.{Rises};

use law_plans::examples::firm::{a_firm_image, an_image_with_another_block};

/// An IMAGE_TYPE word whose trial bit is set.
pub fn a_word_with_its_trial_bit()
    ensures changes { ChangesHighByte (0x42 ∷ 1 ∷ 0x21 ∷ 0x10 ∷ [])
        (0x42 ∷ 1 ∷ 0x21 ∷ 0x90 ∷ []) 0 }
{}

/// The partitions of a pair; the B has no B of its own.
pub fn partitions_of_a_pair()
    ensures first { IsPart pair_table 0 (plain_partition 0xfc03e002 0xfc020000) }
    ensures second { IsPart pair_table 1 (plain_partition 0xfc07a020 0xfc020002) }
    ensures alone { HasNoSecond pair_table 1 }
{}

/// Families of executables, and the family of data, which is none of these.
pub fn families_of_executables()
    ensures arm { IsExecutable 0xe48bff59 }
    ensures riscv { IsExecutable 0xe48bff5a }
    ensures data { IsExecutable 0xe48bff58 → ⊥ }
{}

/// Pairs in a map: the two partitions of a table, and without one the two slots.
pub fn pairs_of_maps()
    ensures partitions { ArePair (Some pair_table) 0 1 }
    ensures slots { ArePair None 0 1 }
    ensures turned { ArePair (Some pair_table) 1 0 → ⊥ }
    ensures part { IsNumbered (Some pair_table) (Partition 1) 1 }
    ensures slot { IsNumbered None (Slot 0) 0 }
{}

/// An address at the start of a segment, and the one after its end.
pub fn addresses_of_a_segment()
    ensures first { HasAddress 0x10000000
        (record { number = 0; offset = 84; address = 0x10000000; size = 4 }) }
    ensures behind { HasAddress 0x10000004
        (record { number = 0; offset = 84; address = 0x10000000; size = 4 }) → ⊥ }
{}

/// A picture of plain words.
pub fn a_picture_of_words()
    ensures texts { HasTexts (record {
      height = 50;
      title = codes "a title";
      desc = codes "what it shows";
      marks = [];
    }) }
{}

/// Contents that differ in the first byte alone differ in the first sector alone.
pub fn contents_that_differ_in_a_sector()
    ensures { SameButSector 0 (record { flash = 1 ∷ []; otp = [] })
        (record { flash = 2 ∷ []; otp = [] }) }
{}

/// Lists that differ in their second element alone are the same outside a range that has it, and
/// not outside the ranges on its two sides. Lists of two lengths are the same outside no range.
pub fn lists_that_differ_in_a_range()
    ensures within { SameOutside 1 1 (7 ∷ 8 ∷ 9 ∷ []) (7 ∷ 5 ∷ 9 ∷ []) }
    ensures below { SameOutside 2 1 (7 ∷ 8 ∷ 9 ∷ []) (7 ∷ 5 ∷ 9 ∷ []) → ⊥ }
    ensures above { SameOutside 0 1 (7 ∷ 8 ∷ 9 ∷ []) (7 ∷ 5 ∷ 9 ∷ []) → ⊥ }
    ensures longer { SameOutside 1 1 (7 ∷ 8 ∷ 9 ∷ []) (7 ∷ 5 ∷ 9 ∷ 0 ∷ []) → ⊥ }
{}

/// A row whose bits are 0 rises to any.
pub fn rows_that_rise()
    ensures { Rises (0 ∷ []) (5 ∷ []) }
{}

/// Of two loads that hold an address the last one stores its byte.
pub fn a_byte_that_is_loaded()
    ensures { IsLoadedFrom (record { storage = Some 0; runtime = 0x20000000; size = 8 }
        ∷ record { storage = Some 16; runtime = 0x20000004; size = 4 } ∷ []) 0x20000005 17 }
{}

/// A window whose second page is still erased, and one whose second page has other bytes.
pub fn windows_that_are_partly_written()
    ensures erased { IsPartlyWritten (two_pages 8) (two_pages 255) }
    ensures other { IsPartlyWritten (two_pages 8) (two_pages 9) → ⊥ }
{}

/// A window in which the one block has the link of the block of a list, and another link.
pub fn a_window_that_keeps_links()
    ensures kept { KeepsLinks (small_block 8 ∷ []) one_block_window }
    ensures other { KeepsLinks (linked_block ∷ []) one_block_window → ⊥ }
{}

/// An image whose first sector has the blocks of its loop alone, and one with another block there.
pub fn an_image_with_a_lone_loop()
    ensures lone { HasLoneLoop firm }
    ensures crowded { HasLoneLoop crowded → ⊥ }
{
    a_firm_image();
    an_image_with_another_block();
}
