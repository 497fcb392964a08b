//! Worked examples of load maps. The block stands at offset 0x100 of a window of 8192 bytes. Its
//! LOAD_MAP item stands at 0x108, and relative storages count from there.

ghost use Rattle.std.specs.Prelude.{◌≡◌, [], ◌∷◌, Ok, Err, Some, None};
ghost use Rattle.pico_board.specs.Content.{flash_base};
ghost use Rattle.load_map.specs.Covered.{covered};
ghost use Rattle.load_map.specs.Examples.{cleared_load, loads_in_flash, loads_in_ram, loads_with_a_hole, mixed_loads, stored, trial_block, turned_loads, two_loads};
ghost use Rattle.load_map.specs.Given.{byte_at, given_word};

use crate::load::MapFault;

/// A map without an entry loads nothing, in either form. Entries are taken in order, and a first
/// word of 0 is a clear entry in both forms.
#[tactic(auto, unfolding(block_codec::specs::Blocks::frame, block_codec::specs::Items::size_of))]
pub fn entries_in_order()
    ensures none { loads_in_flash 0x0000_0106 [] ≡ Ok [] }
    ensures none_absolute { loads_in_flash 0x8000_0106 [] ≡ Ok [] }
    ensures relative { loads_in_flash 0x0200_0706
        (0 ∷ 0x2000_0000 ∷ 0x10 ∷ 0xf8 ∷ 0x2000_0100 ∷ 0x20 ∷ [])
        ≡ Ok (cleared_load 0x2000_0000 0x10 ∷ stored 0x200 0x2000_0100 0x20 ∷ []) }
    ensures absolute { loads_in_flash 0x8200_0706
        (0x1000_0200 ∷ 0x2000_0100 ∷ 0x1000_0220 ∷ 0 ∷ 0x2000_0000 ∷ 0x10 ∷ [])
        ≡ Ok (stored 0x200 0x2000_0100 0x20 ∷ cleared_load 0x2000_0000 0x10 ∷ []) }
    ensures other_form { loads_in_flash 0x8100_0406 (0xf8 ∷ 0x2000_0000 ∷ 0x20 ∷ [])
        ≡ Err (MapFault.Storage 0) }
{}

/// The second of two entries may reach the end of SRAM, and one byte more is its fault.
#[tactic(auto, unfolding(block_codec::specs::Blocks::frame, block_codec::specs::Items::size_of))]
pub fn a_second_entry_at_the_end_of_sram()
    ensures last { loads_in_flash 0x0200_0706
        (0 ∷ 0x2000_0000 ∷ 0x10 ∷ 0xf8 ∷ 0x2008_1ff0 ∷ 0x10 ∷ [])
        ≡ Ok (cleared_load 0x2000_0000 0x10 ∷ stored 0x200 0x2008_1ff0 0x10 ∷ []) }
    ensures past { loads_in_flash 0x0200_0706
        (0 ∷ 0x2000_0000 ∷ 0x10 ∷ 0xf8 ∷ 0x2008_1ff0 ∷ 0x11 ∷ [])
        ≡ Err (MapFault.Runtime 1) }
{}

/// Of an entry with more than one fault the storage is the answer first, then the runtime address.
/// A fault of an earlier entry comes before one of a later entry.
#[tactic(auto, unfolding(block_codec::specs::Blocks::frame, block_codec::specs::Items::size_of))]
pub fn the_first_fault_is_told()
    ensures storage_runtime { loads_in_flash 0x0100_0406 (0x1ef8 ∷ 0x1fff_ffff ∷ 0x1 ∷ [])
        ≡ Err (MapFault.Storage 0) }
    ensures runtime_covers { loads_in_flash 0x0100_0406 (0x8 ∷ 0x1fff_ffff ∷ 0x10 ∷ [])
        ≡ Err (MapFault.Runtime 0) }
    ensures storage_covers { loads_in_flash 0x0100_0406 (0xffff_fef8 ∷ 0x2000_0000 ∷ 0x2001 ∷ [])
        ≡ Err (MapFault.Storage 0) }
    ensures covers_storage { loads_in_flash 0x0200_0706
        (0x27 ∷ 0x2000_0000 ∷ 0x1 ∷ 0x1ef8 ∷ 0x2000_0000 ∷ 0x1 ∷ [])
        ≡ Err (MapFault.CoversBlock 0) }
    ensures runtime_storage { loads_in_flash 0x0200_0706
        (0xf8 ∷ 0x1fff_ffff ∷ 0x1 ∷ 0x1ef8 ∷ 0x2000_0000 ∷ 0x1 ∷ []) ≡ Err (MapFault.Runtime 0) }
    ensures covers_runtime { loads_in_flash 0x0200_0706 (0x27 ∷ 0x2000_0000 ∷ 0x1 ∷ 0 ∷ 0 ∷ 0 ∷ [])
        ≡ Err (MapFault.CoversBlock 0) }
    ensures second_storage { loads_in_flash 0x0200_0706
        (0 ∷ 0x2000_0000 ∷ 0x1 ∷ 0x1ef8 ∷ 0x2000_0000 ∷ 0x1 ∷ []) ≡ Err (MapFault.Storage 1) }
    ensures second_runtime { loads_in_flash 0x0200_0706
        (0 ∷ 0x2000_0000 ∷ 0x1 ∷ 0 ∷ 0x1fff_ffff ∷ 0x1 ∷ []) ≡ Err (MapFault.Runtime 1) }
    ensures second_covers { loads_in_flash 0x0200_0706
        (0 ∷ 0x2000_0000 ∷ 0x1 ∷ 0x27 ∷ 0x2000_0000 ∷ 0x1 ∷ []) ≡ Err (MapFault.CoversBlock 1) }
{}

/// A relative storage may begin with the window's first byte and end with its last. An empty one
/// may begin at the window's end. The offset is signed, and nothing wraps.
#[tactic(auto, unfolding(block_codec::specs::Blocks::frame, block_codec::specs::Items::size_of))]
pub fn a_relative_storage()
    ensures first { loads_in_flash 0x0100_0406 (0xffff_fef8 ∷ 0x2000_0000 ∷ 0x1 ∷ [])
        ≡ Ok (stored 0x0 0x2000_0000 0x1 ∷ []) }
    ensures before { loads_in_flash 0x0100_0406 (0xffff_fef7 ∷ 0x2000_0000 ∷ 0x1 ∷ [])
        ≡ Err (MapFault.Storage 0) }
    ensures far_before { loads_in_flash 0x0100_0406 (0x8000_0000 ∷ 0x2000_0000 ∷ 1 ∷ [])
        ≡ Err (MapFault.Storage 0) }
    ensures last { loads_in_flash 0x0100_0406 (0x1ee8 ∷ 0x2000_0000 ∷ 0x10 ∷ [])
        ≡ Ok (stored 0x1ff0 0x2000_0000 0x10 ∷ []) }
    ensures past { loads_in_flash 0x0100_0406 (0x1ee8 ∷ 0x2000_0000 ∷ 0x11 ∷ [])
        ≡ Err (MapFault.Storage 0) }
    ensures empty { loads_in_flash 0x0100_0406 (0x1ef8 ∷ 0x2000_0000 ∷ 0 ∷ [])
        ≡ Ok (stored 0x2000 0x2000_0000 0x0 ∷ []) }
    ensures empty_past { loads_in_flash 0x0100_0406 (0x1ef9 ∷ 0x2000_0000 ∷ 0 ∷ [])
        ≡ Err (MapFault.Storage 0) }
    ensures empty_before { loads_in_flash 0x0100_0406 (0xffff_fef7 ∷ 0x2000_0000 ∷ 0 ∷ [])
        ≡ Err (MapFault.Storage 0) }
    ensures long { loads_in_flash 0x0100_0406 (0xf8 ∷ 0x2000_0000 ∷ 0xffff_fe00 ∷ [])
        ≡ Err (MapFault.Storage 0) }
{}

/// An absolute storage is between two addresses of the window, and may be empty.
#[tactic(auto, unfolding(block_codec::specs::Blocks::frame, block_codec::specs::Items::size_of))]
pub fn an_absolute_storage()
    ensures first { loads_in_flash 0x8100_0406 (0x1000_0000 ∷ 0x2000_0000 ∷ 0x1000_0001 ∷ [])
        ≡ Ok (stored 0x0 0x2000_0000 0x1 ∷ []) }
    ensures below { loads_in_flash 0x8100_0406 (0x0fff_ffff ∷ 0x2000_0000 ∷ 0x1000_0001 ∷ [])
        ≡ Err (MapFault.Storage 0) }
    ensures last { loads_in_flash 0x8100_0406 (0x1000_1ff0 ∷ 0x2000_0000 ∷ 0x1000_2000 ∷ [])
        ≡ Ok (stored 0x1ff0 0x2000_0000 0x10 ∷ []) }
    ensures past { loads_in_flash 0x8100_0406 (0x1000_1ff0 ∷ 0x2000_0000 ∷ 0x1000_2001 ∷ [])
        ≡ Err (MapFault.Storage 0) }
    ensures empty { loads_in_flash 0x8100_0406 (0x1000_2000 ∷ 0x2000_0000 ∷ 0x1000_2000 ∷ [])
        ≡ Ok (stored 0x2000 0x2000_0000 0x0 ∷ []) }
    ensures empty_past { loads_in_flash 0x8100_0406 (0x1000_2001 ∷ 0x2000_0000 ∷ 0x1000_2001 ∷ [])
        ≡ Err (MapFault.Storage 0) }
    ensures reversed { loads_in_flash 0x8100_0406 (0x1000_0201 ∷ 0x2000_0000 ∷ 0x1000_0200 ∷ [])
        ≡ Err (MapFault.Storage 0) }
    ensures reversed_in_place { loads_in_flash 0x8100_0406
        (0x1000_0200 ∷ 0x1000_0200 ∷ 0x1000_0100 ∷ []) ≡ Err (MapFault.Storage 0) }
    ensures ram_below { loads_in_ram 0x8100_0406 (0x1fff_ffff ∷ 0x2000_0000 ∷ 0x2000_0001 ∷ [])
        ≡ Err (MapFault.Storage 0) }
{}

/// A load goes into SRAM as a whole; an empty one may stand at either end. A clear entry has to be
/// in SRAM even where it is empty. Nothing wraps.
#[tactic(auto, unfolding(block_codec::specs::Blocks::frame, block_codec::specs::Items::size_of))]
pub fn a_load_into_sram()
    ensures first { loads_in_flash 0x0100_0406 (0xf8 ∷ 0x2000_0000 ∷ 0x10 ∷ [])
        ≡ Ok (stored 0x200 0x2000_0000 0x10 ∷ []) }
    ensures below { loads_in_flash 0x0100_0406 (0xf8 ∷ 0x1fff_ffff ∷ 0x10 ∷ [])
        ≡ Err (MapFault.Runtime 0) }
    ensures last { loads_in_flash 0x0100_0406 (0xf8 ∷ 0x2008_1ff0 ∷ 0x10 ∷ [])
        ≡ Ok (stored 0x200 0x2008_1ff0 0x10 ∷ []) }
    ensures past { loads_in_flash 0x0100_0406 (0xf8 ∷ 0x2008_1ff0 ∷ 0x11 ∷ [])
        ≡ Err (MapFault.Runtime 0) }
    ensures empty { loads_in_flash 0x0100_0406 (0xf8 ∷ 0x2008_2000 ∷ 0 ∷ [])
        ≡ Ok (stored 0x200 0x2008_2000 0x0 ∷ []) }
    ensures empty_past { loads_in_flash 0x0100_0406 (0xf8 ∷ 0x2008_2001 ∷ 0 ∷ [])
        ≡ Err (MapFault.Runtime 0) }
    ensures empty_below { loads_in_flash 0x0100_0406 (0xf8 ∷ 0x1fff_ffff ∷ 0 ∷ [])
        ≡ Err (MapFault.Runtime 0) }
    ensures all_clear { loads_in_flash 0x0100_0406 (0 ∷ 0x2000_0000 ∷ 0x0008_2000 ∷ [])
        ≡ Ok (cleared_load 0x2000_0000 0x82000 ∷ []) }
    ensures more_clear { loads_in_flash 0x0100_0406 (0 ∷ 0x2000_0000 ∷ 0x0008_2001 ∷ [])
        ≡ Err (MapFault.Runtime 0) }
    ensures empty_clear { loads_in_flash 0x0100_0406 (0 ∷ 0x2008_2000 ∷ 0 ∷ [])
        ≡ Ok (cleared_load 0x2008_2000 0x0 ∷ []) }
    ensures empty_clear_past { loads_in_flash 0x0100_0406 (0 ∷ 0x2008_2001 ∷ 0 ∷ [])
        ≡ Err (MapFault.Runtime 0) }
    ensures clear_in_flash { loads_in_flash 0x0100_0406 (0 ∷ 0x1000_0000 ∷ 0 ∷ [])
        ≡ Err (MapFault.Runtime 0) }
    ensures long_clear { loads_in_flash 0x0100_0406 (0 ∷ 0x2000_0001 ∷ 0xffff_ffff ∷ [])
        ≡ Err (MapFault.Runtime 0) }
{}

/// A load that is used where it is stored is right in flash and in a RAM image. A RAM image may
/// have no other loads.
#[tactic(auto, unfolding(block_codec::specs::Blocks::frame, block_codec::specs::Items::size_of))]
pub fn a_load_that_is_used_in_place()
    ensures flash { loads_in_flash 0x0100_0406 (0xf8 ∷ 0x1000_0200 ∷ 0x20 ∷ [])
        ≡ Ok (stored 0x200 0x1000_0200 0x20 ∷ []) }
    ensures flash_last { loads_in_flash 0x8100_0406 (0x1000_1000 ∷ 0x1000_1000 ∷ 0x1000_2000 ∷ [])
        ≡ Ok (stored 0x1000 0x1000_1000 0x1000 ∷ []) }
    ensures beside { loads_in_flash 0x0100_0406 (0xf8 ∷ 0x1000_0201 ∷ 0x20 ∷ [])
        ≡ Err (MapFault.Runtime 0) }
    ensures ram { loads_in_ram 0x0100_0406 (0xf8 ∷ 0x2000_0200 ∷ 0x20 ∷ [])
        ≡ Ok (stored 0x200 0x2000_0200 0x20 ∷ []) }
    ensures ram_absolute { loads_in_ram 0x8100_0406 (0x2000_0000 ∷ 0x2000_0000 ∷ 0x2000_0100 ∷ [])
        ≡ Ok (stored 0x0 0x2000_0000 0x100 ∷ []) }
    ensures ram_elsewhere { loads_in_ram 0x0100_0406 (0xf8 ∷ 0x2000_4000 ∷ 0x20 ∷ [])
        ≡ Err (MapFault.Runtime 0) }
    ensures ram_flash { loads_in_ram 0x0100_0406 (0xf8 ∷ 0x1000_0200 ∷ 0x20 ∷ [])
        ≡ Err (MapFault.Runtime 0) }
    ensures ram_clear { loads_in_ram 0x0100_0406 (0 ∷ 0x2000_4000 ∷ 0 ∷ [])
        ≡ Err (MapFault.Runtime 0) }
{}

/// A storage may end where its block begins, and may begin where its block ends. An empty storage
/// shares no byte with its block.
#[tactic(auto, unfolding(block_codec::specs::Blocks::frame, block_codec::specs::Items::size_of))]
pub fn a_storage_beside_its_block()
    ensures ends { loads_in_flash 0x0100_0406 (0xffff_ffe8 ∷ 0x2000_0000 ∷ 0x10 ∷ [])
        ≡ Ok (stored 0xf0 0x2000_0000 0x10 ∷ []) }
    ensures ends_in { loads_in_flash 0x0100_0406 (0xffff_ffe8 ∷ 0x2000_0000 ∷ 0x11 ∷ [])
        ≡ Err (MapFault.CoversBlock 0) }
    ensures begins { loads_in_flash 0x0100_0406 (0x1c ∷ 0x2000_0000 ∷ 0x10 ∷ [])
        ≡ Ok (stored 0x124 0x2000_0000 0x10 ∷ []) }
    ensures begins_in { loads_in_flash 0x0100_0406 (0x1b ∷ 0x2000_0000 ∷ 0x10 ∷ [])
        ≡ Err (MapFault.CoversBlock 0) }
    ensures within { loads_in_flash 0x0100_0406 (0x8 ∷ 0x2000_0000 ∷ 0x1 ∷ [])
        ≡ Err (MapFault.CoversBlock 0) }
    ensures around { loads_in_flash 0x0100_0406 (0xffff_fef8 ∷ 0x2000_0000 ∷ 0x2000 ∷ [])
        ≡ Err (MapFault.CoversBlock 0) }
    ensures in_place { loads_in_flash 0x0100_0406 (0xffff_fff8 ∷ 0x1000_0100 ∷ 0x10 ∷ [])
        ≡ Err (MapFault.CoversBlock 0) }
    ensures empty_first { loads_in_flash 0x0100_0406 (0xffff_fff8 ∷ 0x2000_0000 ∷ 0 ∷ [])
        ≡ Ok (stored 0x100 0x2000_0000 0x0 ∷ []) }
    ensures empty_within { loads_in_flash 0x0100_0406 (0x8 ∷ 0x2000_0000 ∷ 0 ∷ [])
        ≡ Ok (stored 0x110 0x2000_0000 0x0 ∷ []) }
    ensures empty_behind { loads_in_flash 0x0100_0406 (0x1c ∷ 0x2000_0000 ∷ 0 ∷ [])
        ≡ Ok (stored 0x124 0x2000_0000 0x0 ∷ []) }
{}

/// The byte at an address of the window is the window's. In SRAM the last load that holds an
/// address gives its byte. A clear entry gives 0. No byte is given elsewhere.
#[tactic(auto, unfolding(block_codec::specs::Words::word_of))]
pub fn bytes_at_addresses()
    ensures first { byte_at flash_base (7 ∷ 8 ∷ []) [] 0x1000_0000 ≡ Some 7 }
    ensures last_of_window { byte_at flash_base (7 ∷ 8 ∷ []) [] 0x1000_0001 ≡ Some 8 }
    ensures past_window { byte_at flash_base (7 ∷ 8 ∷ []) [] 0x1000_0002 ≡ None }
    ensures below_window { byte_at flash_base (7 ∷ 8 ∷ []) [] 0x0fff_ffff ≡ None }
    ensures over_window { byte_at flash_base (7 ∷ 8 ∷ [])
        (stored 0 0x1000_0001 1 ∷ []) 0x1000_0001 ≡ Some 8 }
    ensures window_in_ram { byte_at 0x2000_0000 (7 ∷ 8 ∷ [])
        (cleared_load 0x2000_0000 4 ∷ []) 0x2000_0001 ≡ Some 8 }
    ensures behind_window { byte_at 0x2000_0000 (7 ∷ 8 ∷ [])
        (cleared_load 0x2000_0000 4 ∷ []) 0x2000_0002 ≡ Some 0 }
    ensures last_load { byte_at flash_base (7 ∷ 8 ∷ []) two_loads 0x2000_0000 ≡ Some 8 }
    ensures earlier_load { byte_at flash_base (7 ∷ 8 ∷ []) turned_loads 0x2000_0000 ≡ Some 0 }
    ensures clear { byte_at flash_base (7 ∷ 8 ∷ []) two_loads 0x2000_0001 ≡ Some 0 }
    ensures last_of_load { byte_at flash_base (7 ∷ 8 ∷ []) two_loads 0x2000_0003 ≡ Some 0 }
    ensures past_load { byte_at flash_base (7 ∷ 8 ∷ []) two_loads 0x2000_0004 ≡ None }
    ensures below_load { byte_at flash_base (7 ∷ 8 ∷ [])
        (stored 0 0x2000_0001 2 ∷ []) 0x2000_0000 ≡ None }
    ensures second_byte { byte_at flash_base (7 ∷ 8 ∷ [])
        (stored 0 0x2000_0001 2 ∷ []) 0x2000_0002 ≡ Some 8 }
    ensures last_of_sram { byte_at flash_base (7 ∷ 8 ∷ [])
        (stored 0 0x2008_1fff 2 ∷ []) 0x2008_1fff ≡ Some 7 }
    ensures past_sram { byte_at flash_base (7 ∷ 8 ∷ []) (stored 0 0x2008_1fff 2 ∷ []) 0x2008_2000
        ≡ None }
    ensures below_sram { byte_at flash_base (7 ∷ 8 ∷ [])
        (stored 0 0x1fff_ffff 2 ∷ []) 0x1fff_ffff ≡ None }
{}

/// A word has its lowest byte first, at any address, and may come from more than one load. It is
/// not given where one of its bytes is not.
#[tactic(auto, unfolding(block_codec::specs::Words::word_of))]
pub fn words_at_addresses()
    ensures window { given_word flash_base (1 ∷ 2 ∷ 3 ∷ 4 ∷ 5 ∷ []) [] 0x1000_0001
        ≡ Some 0x0504_0302 }
    ensures past { given_word flash_base (1 ∷ 2 ∷ 3 ∷ 4 ∷ 5 ∷ []) [] 0x1000_0002 ≡ None }
    ensures before { given_word flash_base (1 ∷ 2 ∷ 3 ∷ 4 ∷ 5 ∷ []) [] 0x0fff_ffff ≡ None }
    ensures loads { given_word flash_base (1 ∷ 2 ∷ 3 ∷ 4 ∷ 5 ∷ []) mixed_loads 0x2000_0000
        ≡ Some 0x0003_0200 }
    ensures hole { given_word flash_base (1 ∷ 2 ∷ 3 ∷ 4 ∷ 5 ∷ []) loads_with_a_hole 0x2000_0000
        ≡ None }
    ensures ram { given_word 0x2000_0000 (1 ∷ 2 ∷ 3 ∷ 4 ∷ []) [] 0x2000_0000 ≡ Some 0x0403_0201 }
{}

/// The trial bit is read as 0 in the covered words, wherever its word stands, and no other bit is.
/// A clear entry is covered by its size, four bytes with the lowest first. Another entry is
/// covered by its bytes. The loads come first, in order, and the words follow.
#[tactic(auto, unfolding(block_codec::specs::Blocks::frame, block_codec::specs::Words::word_bytes))]
pub fn covered_texts()
    ensures words { covered [] [] trial_block 2 1
        ≡ 0xd3 ∷ 0xde ∷ 0xff ∷ 0xff ∷ 0x42 ∷ 0x01 ∷ 0x21 ∷ 0x10 ∷ [] }
    ensures first_word { covered [] [] trial_block 1 1 ≡ 0xd3 ∷ 0xde ∷ 0xff ∷ 0xff ∷ [] }
    ensures other_place { covered [] [] trial_block 2 0
        ≡ 0xd3 ∷ 0xde ∷ 0xff ∷ 0x7f ∷ 0x42 ∷ 0x01 ∷ 0x21 ∷ 0x90 ∷ [] }
    ensures loads { covered (7 ∷ 8 ∷ []) two_loads trial_block 0 1 ≡ 4 ∷ 0 ∷ 0 ∷ 0 ∷ 8 ∷ [] }
    ensures sizes { covered [] (cleared_load 0x2000_0000 0x0102_0304 ∷ []) trial_block 0 1
        ≡ 4 ∷ 3 ∷ 2 ∷ 1 ∷ [] }
    ensures order { covered (5 ∷ 6 ∷ 7 ∷ 8 ∷ [])
        (stored 2 0 2 ∷ stored 0 0 1 ∷ []) trial_block 1 1
        ≡ 7 ∷ 8 ∷ 5 ∷ 0xd3 ∷ 0xde ∷ 0xff ∷ 0xff ∷ [] }
    ensures empty { covered [] [] trial_block 0 1 ≡ [] }
{}
