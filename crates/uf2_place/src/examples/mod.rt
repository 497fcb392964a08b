//! Worked examples of the definitions: the bytes of a block, both sides of each bound, and the
//! steps of downloads.

ghost use Rattle.std.specs.Prelude.{◌≡◌, ℕ, ◌++◌, Err, None, Ok, Some, List, [], ◌∷◌, drop, false, length, replicate, take, true};
ghost use Rattle.pico_board.specs.declared.Step.TheVariants.{Erase, Program};
ghost use Rattle.part_table.specs.Examples.{guarded_table, pair_table};
ghost use Rattle.uf2_place.specs.declared.answer.Accepted.TheVariants.{Again, Skipped};
ghost use Rattle.uf2_place.specs.declared.answer.PlaceFault.TheVariants.{NoTarget, NotPermitted, Outside};
ghost use Rattle.uf2_place.specs.declared.answer.Ruling.TheVariants.{Answered, Begins, Continues};
ghost use Rattle.uf2_place.specs.declared.block.Uf2Fault.TheVariants.{Alignment, Magic, Number, Payload};
ghost use Rattle.uf2_place.specs.Blocks.{is_number, uf2_of, word_bytes, written_block};
ghost use Rattle.uf2_place.specs.Downloads.{IsTargetIn};
ghost use Rattle.uf2_place.specs.Examples.{absolute_block, arm_uf2_block, arm_download, uf2_bytes, first_slot, flagged_block, slot_target};
ghost use Rattle.uf2_place.specs.Files.{file_block, filled_page, page_count, page_of};
ghost use Rattle.uf2_place.specs.OtherFamilies.{SameButFamily, with_family};
ghost use Rattle.uf2_place.specs.Placement.{HasWholeSectors, is_whole_download, download_steps};
ghost use Rattle.uf2_place.specs.Rulings.{is_of, is_skipped, is_page_within, ruling, wanted};

/// The bytes of a block: three magic words, and the words of its fields between them.
pub fn bytes_of_a_block()
    ensures { (page : List ℕ) → written_block (arm_uf2_block 1 0x10000200 page)
        ≡ 0x55 ∷ 0x46 ∷ 0x32 ∷ 0x0a ∷ 0x57 ∷ 0x51 ∷ 0x5d ∷ 0x9e
        ∷ 0x00 ∷ 0x20 ∷ 0x00 ∷ 0x00 ∷ 0x00 ∷ 0x02 ∷ 0x00 ∷ 0x10
        ∷ 0x00 ∷ 0x01 ∷ 0x00 ∷ 0x00 ∷ 0x01 ∷ 0x00 ∷ 0x00 ∷ 0x00
        ∷ 0x03 ∷ 0x00 ∷ 0x00 ∷ 0x00 ∷ 0x59 ∷ 0xff ∷ 0x8b ∷ 0xe4
        ∷ (page ++ (replicate 220 0 ++ (0x30 ∷ 0x6f ∷ 0xb1 ∷ 0x0a ∷ []))) }
{}

/// A block is read of its bytes under three conditions: its payload has 256 bytes, its address is
/// a multiple of 256, and its number is below its count. The first of these that fails is its
/// fault.
pub fn faults_of_blocks()
    ensures none { uf2_of (uf2_bytes 256 0x10000200 1 3)
        ≡ Ok (arm_uf2_block 1 0x10000200 (replicate 256 0)) }
    ensures magic { uf2_of (0x54 ∷ drop 1 (uf2_bytes 128 0x10000200 1 3)) ≡ Err Magic }
    ensures payload { uf2_of (uf2_bytes 128 0x10000200 1 3) ≡ Err Payload }
    ensures alignment { uf2_of (uf2_bytes 256 0x10000280 1 3) ≡ Err Alignment }
    ensures number { uf2_of (uf2_bytes 256 0x10000200 3 3) ≡ Err Number }
    ensures payload_and_alignment { uf2_of (uf2_bytes 128 0x10000280 1 3) ≡ Err Payload }
    ensures alignment_and_number { uf2_of (uf2_bytes 256 0x10000280 3 3) ≡ Err Alignment }
{}

/// A file has 1 to 65,536 blocks, numbered from 0.
pub fn numbers_of_blocks()
    ensures one { is_number 0 1 ≡ true }
    ensures most { is_number 65535 65536 ≡ true }
    ensures none { is_number 0 0 ≡ false }
    ensures above { is_number 0 65537 ≡ false }
    ensures past { is_number 1 1 ≡ false }
{}

/// An image has a page for each 256 bytes and one for the rest, which is filled up.
pub fn pages_of_an_image()
    ensures one { page_count 1 ≡ 1 }
    ensures full { page_count 256 ≡ 1 }
    ensures two { page_count 257 ≡ 2 }
    ensures most { page_count 16777216 ≡ 65536 }
    ensures rest { filled_page (replicate 253 7) ≡ replicate 253 7 ++ (255 ∷ 255 ∷ 255 ∷ []) }
    ensures second { page_of (replicate 256 7 ++ (replicate 256 8 ++ (9 ∷ []))) 1
        ≡ replicate 256 8 }
    ensures last { page_of (replicate 256 7 ++ (replicate 256 8 ++ (9 ∷ []))) 2
        ≡ 9 ∷ replicate 255 255 }
    ensures address { (image : List ℕ) → (file_block image 0xe48bff59 2).address ≡ 0x10000200 }
    ensures flags { (image : List ℕ) → (file_block image 0xe48bff59 2).flags ≡ 0x2000 }
    ensures number { (image : List ℕ) → (file_block image 0xe48bff59 2).number ≡ 2 }
    ensures family { (image : List ℕ) → (file_block image 0xe48bff5a 2).family ≡ 0xe48bff5a }
{}

/// A block is skipped where it is not for the main flash, names no family, or is absolute and not
/// wholly in the flash.
pub fn blocks_that_are_skipped()
    ensures plain { is_skipped 0x100000 (flagged_block 0x2000) ≡ false }
    ensures others { is_skipped 0x100000 (flagged_block 0xfffffffe) ≡ false }
    ensures not_main { is_skipped 0x100000 (flagged_block 0x2001) ≡ true }
    ensures no_family { is_skipped 0x100000 (flagged_block 0x5ffe) ≡ true }
    ensures extra { is_skipped 0x100000 (absolute_block 0x10ffff00) ≡ true }
    ensures last { is_skipped 0x100000 (absolute_block 0x100fff00) ≡ false }
    ensures past { is_skipped 0x100000 (absolute_block 0x10100000) ≡ true }
    ensures below { is_skipped 0x100000 (absolute_block 0x0fffff00) ≡ true }
    ensures first { is_skipped 0x100000 (absolute_block 0x10000000) ≡ false }
    ensures other { is_skipped 0x100000 (arm_uf2_block 0 0x10ffff00 []) ≡ false }
{}

/// A page lies in a window of 0x1e000 bytes from 0x10000000 up to its last page.
pub fn pages_in_a_window()
    ensures first { is_page_within 0x1e000 (arm_uf2_block 0 0x10000000 []) ≡ true }
    ensures last { is_page_within 0x1e000 (arm_uf2_block 0 0x1001df00 []) ≡ true }
    ensures past { is_page_within 0x1e000 (arm_uf2_block 0 0x1001e000 []) ≡ false }
    ensures below { is_page_within 0x1e000 (arm_uf2_block 0 0x0fffff00 []) ≡ false }
{}

/// A block continues a download of its family and its count, and wants a target otherwise.
pub fn blocks_that_continue()
    ensures same { is_of (arm_download true) (arm_uf2_block 0 0x10000000 []) ≡ true }
    ensures family { is_of (record {
      family = 0xe48bff5a;
      count = 3;
      target = slot_target true;
      left = 2;
      held = None;
    }) (arm_uf2_block 0 0x10000000 []) ≡ false }
    ensures count { is_of (record {
      family = 0xe48bff59;
      count = 4;
      target = slot_target true;
      left = 2;
      held = None;
    }) (arm_uf2_block 0 0x10000000 []) ≡ false }
    ensures wants { wanted 0x40000 None (arm_uf2_block 0 0x10000000 []) ≡ Some 0xe48bff59 }
    ensures current { wanted 0x40000 (Some (arm_download true)) (arm_uf2_block 0 0x10000000 [])
        ≡ None }
    ensures skipped { wanted 0x40000 None (flagged_block 0) ≡ None }
{}

/// Rulings on blocks: each answer, and blocks of two of them.
pub fn rulings_of_blocks()
    ensures begins { ruling 0x40000 (Some pair_table) (Some (slot_target true)) [] None
        (arm_uf2_block 0 0x10000000 []) ≡ Begins (slot_target true) }
    ensures continues { ruling 0x40000 (Some pair_table) None (1 ∷ [])
        (Some (arm_download true)) (arm_uf2_block 1 0x10000000 []) ≡ Continues (slot_target true) }
    ensures again { ruling 0x40000 (Some pair_table) None (1 ∷ []) (Some (arm_download true))
        (arm_uf2_block 0 0x10000000 []) ≡ Answered (Ok Again) }
    ensures no_target { ruling 0x40000 (Some pair_table) None [] None
        (arm_uf2_block 0 0x10000000 [])
        ≡ Answered (Err NoTarget) }
    ensures outside { ruling 0x40000 (Some pair_table) (Some (slot_target true)) [] None
        (arm_uf2_block 0 0x10020000 []) ≡ Answered (Err Outside) }
    ensures skipped_and_no_target { ruling 0x40000 (Some pair_table) None [] None (flagged_block 0)
        ≡ Answered (Ok Skipped) }
    ensures skipped_and_again { ruling 0x40000 (Some pair_table) None (1 ∷ [])
        (Some (arm_download true)) (flagged_block 0x2001) ≡ Answered (Ok Skipped) }
    ensures again_and_outside { ruling 0x40000 (Some pair_table) None (1 ∷ [])
        (Some (arm_download true)) (arm_uf2_block 0 0x10020000 []) ≡ Answered (Ok Again) }
    ensures no_target_and_outside { ruling 0x40000 (Some pair_table) None [] None
        (arm_uf2_block 0 0x10020000 []) ≡ Answered (Err NoTarget) }
{}

/// A sector that the bootloader may not write is refused. A page outside the window is refused
/// before that.
pub fn rulings_by_rights()
    ensures refused { ruling 0x40000 (Some guarded_table) (Some first_slot) [] None
        (arm_uf2_block 0 0x1001df00 []) ≡ Answered (Err NotPermitted) }
    ensures outside { ruling 0x40000 (Some guarded_table) (Some first_slot) [] None
        (arm_uf2_block 0 0x1001e000 []) ≡ Answered (Err Outside) }
    ensures permitted { ruling 0x40000 (Some guarded_table) (Some (slot_target true)) [] None
        (arm_uf2_block 0 0x1001df00 []) ≡ Begins (slot_target true) }
    ensures no_table { ruling 0x40000 None (Some first_slot) [] None
        (arm_uf2_block 0 0x1001df00 []) ≡ Begins first_slot }
{}

/// Into a target that is not gated each page is written as it comes. Its sector is erased before
/// the first page in it.
pub fn pages_as_they_come()
    ensures none { download_steps (slot_target false) [] ≡ [] }
    ensures all { (a b c : List ℕ) → download_steps (slot_target false)
        (arm_uf2_block 2 0x10001100 a
        ∷ arm_uf2_block 0 0x10000000 b ∷ arm_uf2_block 1 0x10001000 c ∷ [])
        ≡ Erase 33 ∷ Program 529 a ∷ Erase 32 ∷ Program 512 b ∷ Program 528 c ∷ [] }
{}

/// Into a gated target the first sector is erased first and programmed last, ascending, each page
/// as its last block has it. The other pages are written as they come.
pub fn the_first_sector_last()
    ensures none { download_steps (slot_target true) [] ≡ [] }
    ensures held { (a : List ℕ) → download_steps (slot_target true)
        (arm_uf2_block 2 0x10000200 a ∷ [])
        ≡ Erase 32 ∷ [] }
    ensures elsewhere { (a : List ℕ) → download_steps (slot_target true)
        (arm_uf2_block 2 0x10001200 a ∷ [])
        ≡ Erase 32 ∷ Erase 33 ∷ Program 530 a ∷ [] }
    ensures two { (a b : List ℕ) → download_steps (slot_target true) (arm_uf2_block 2 0x10001200 a
        ∷ arm_uf2_block 1 0x10000f00 b ∷ [])
        ≡ Erase 32 ∷ Erase 33 ∷ Program 530 a ∷ [] }
    ensures whole { (a b c : List ℕ) → download_steps (slot_target true)
        (arm_uf2_block 2 0x10001200 a
        ∷ arm_uf2_block 1 0x10000f00 b ∷ arm_uf2_block 0 0x10000000 c ∷ [])
        ≡ Erase 32 ∷ Erase 33 ∷ Program 530 a ∷ Program 512 c ∷ Program 527 b ∷ [] }
    ensures replaced { (a b c : List ℕ) → download_steps (slot_target true)
        (arm_uf2_block 2 0x10000100 a
        ∷ arm_uf2_block 1 0x10000200 b ∷ arm_uf2_block 0 0x10000100 c ∷ [])
        ≡ Erase 32 ∷ Program 513 c ∷ Program 514 b ∷ [] }
    ensures no_page { (a b c : List ℕ) → download_steps (slot_target true)
        (arm_uf2_block 0 0x10001000 a
        ∷ arm_uf2_block 1 0x10001100 b ∷ arm_uf2_block 2 0x10002000 c ∷ [])
        ≡ Erase 32 ∷ Erase 33 ∷ Program 528 a ∷ Program 529 b ∷ Erase 34 ∷ Program 544 c ∷ [] }
{}

/// The window of a target has whole sectors, at least one, and begins with one.
pub fn windows_of_whole_sectors()
    ensures least { HasWholeSectors (record { start = 0x2000; len = 0x1000 }) }
    ensures at_zero { HasWholeSectors (record { start = 0; len = 0x2000 }) }
    ensures none { ¬ (HasWholeSectors (record { start = 0x2000; len = 0 })) }
    ensures half_more { ¬ (HasWholeSectors (record { start = 0x2000; len = 0x1800 })) }
    ensures half_behind { ¬ (HasWholeSectors (record { start = 0x2800; len = 0x1000 })) }
{}

/// The window of a target may end with the flash, and no later.
pub fn targets_in_a_flash()
    ensures at_its_end { IsTargetIn 0x3e000 (slot_target true) }
    ensures past { ¬ (IsTargetIn 0x3dfff (slot_target true)) }
{}

/// The word at 28 is the family, whatever it is: a block is read of each, and a fault stays.
pub fn blocks_of_other_families()
    ensures riscv { uf2_of (take 28 (uf2_bytes 256 0x10000200 1 3)
        ++ (word_bytes 0xe48bff5a ++ drop 32 (uf2_bytes 256 0x10000200 1 3)))
        ≡ Ok (with_family (arm_uf2_block 1 0x10000200 (replicate 256 0)) 0xe48bff5a) }
    ensures unnamed { uf2_of (take 28 (uf2_bytes 256 0x10000200 1 3)
        ++ (word_bytes 0 ++ drop 32 (uf2_bytes 256 0x10000200 1 3)))
        ≡ Ok (with_family (arm_uf2_block 1 0x10000200 (replicate 256 0)) 0) }
    ensures fault { uf2_of (take 28 (uf2_bytes 256 0x10000280 1 3)
        ++ (word_bytes 0xe48bff5a ++ drop 32 (uf2_bytes 256 0x10000280 1 3)))
        ≡ Err Alignment }
    ensures written { (page : List ℕ)
        → take 28 (written_block (with_family (arm_uf2_block 1 0x10000200 page) 0xe48bff5a))
        ++ drop 32 (written_block (with_family (arm_uf2_block 1 0x10000200 page) 0xe48bff5a))
        ≡ take 28 (written_block (arm_uf2_block 1 0x10000200 page))
        ++ drop 32 (written_block (arm_uf2_block 1 0x10000200 page)) }
{}

/// Block 0 of a download of rp2350-arm-s is taken. It comes again as a block of another family:
/// that block begins a download where a target is given, and is refused where none is.
pub fn rulings_on_another_family()
    ensures same { ruling 0x40000 (Some pair_table) (Some first_slot) (1 ∷ [])
        (Some (arm_download true)) (arm_uf2_block 0 0x10000000 []) ≡ Answered (Ok Again) }
    ensures other { ruling 0x40000 (Some pair_table) (Some first_slot) (1 ∷ [])
        (Some (arm_download true)) (with_family (arm_uf2_block 0 0x10000000 []) 0xe48bff5a)
        ≡ Begins first_slot }
    ensures no_target { ruling 0x40000 (Some pair_table) None (1 ∷ [])
        (Some (arm_download true)) (with_family (arm_uf2_block 0 0x10000000 []) 0xe48bff5a)
        ≡ Answered (Err NoTarget) }
    ensures next { ruling 0x40000 (Some pair_table) (Some first_slot) (1 ∷ [])
        (Some (arm_download true)) (arm_uf2_block 1 0x10000100 []) ≡ Continues (slot_target true) }
    ensures next_of_another { ruling 0x40000 (Some pair_table) (Some first_slot) (1 ∷ [])
        (Some (arm_download true)) (with_family (arm_uf2_block 1 0x10000100 []) 0xe48bff5a)
        ≡ Begins first_slot }
    ensures outside { ruling 0x40000 (Some pair_table) (Some (slot_target true)) [] None
        (arm_uf2_block 0 0x10040000 []) ≡ Answered (Err Outside) }
    ensures absolute { ruling 0x40000 (Some pair_table) (Some (slot_target true)) [] None
        (with_family (arm_uf2_block 0 0x10040000 []) 0xe48bff57) ≡ Answered (Ok Skipped) }
    ensures absolute_inside { ruling 0x40000 (Some pair_table) (Some first_slot) [] None
        (with_family (arm_uf2_block 0 0x10000000 []) 0xe48bff57) ≡ Begins first_slot }
{}

/// Bytes are the same but for their family where they differ in the word at 28 alone. They may
/// also differ in bytes after the page, which are not read, or after the block. They are not the
/// same where they differ in a byte next to that word, in the page or in the last word.
pub fn bytes_that_differ_in_the_family()
    ensures family { SameButFamily (uf2_bytes 256 0x10000200 1 3)
        (take 28 (uf2_bytes 256 0x10000200 1 3)
        ++ (1 ∷ 2 ∷ 3 ∷ 4 ∷ drop 32 (uf2_bytes 256 0x10000200 1 3))) }
    ensures not_read { SameButFamily (uf2_bytes 256 0x10000200 1 3)
        (take 288 (uf2_bytes 256 0x10000200 1 3)
        ++ (replicate 220 7 ++ drop 508 (uf2_bytes 256 0x10000200 1 3))) }
    ensures longer { SameButFamily (uf2_bytes 256 0x10000200 1 3)
        (uf2_bytes 256 0x10000200 1 3 ++ (7 ∷ [])) }
    ensures before { ¬ (SameButFamily (uf2_bytes 256 0x10000200 1 3)
        (take 27 (uf2_bytes 256 0x10000200 1 3)
        ++ (7 ∷ drop 28 (uf2_bytes 256 0x10000200 1 3)))) }
    ensures behind { ¬ (SameButFamily (uf2_bytes 256 0x10000200 1 3)
        (take 32 (uf2_bytes 256 0x10000200 1 3)
        ++ (7 ∷ drop 33 (uf2_bytes 256 0x10000200 1 3)))) }
    ensures page_end { ¬ (SameButFamily (uf2_bytes 256 0x10000200 1 3)
        (take 287 (uf2_bytes 256 0x10000200 1 3)
        ++ (7 ∷ drop 288 (uf2_bytes 256 0x10000200 1 3)))) }
    ensures last_word { ¬ (SameButFamily (uf2_bytes 256 0x10000200 1 3)
        (take 508 (uf2_bytes 256 0x10000200 1 3)
        ++ (7 ∷ drop 509 (uf2_bytes 256 0x10000200 1 3)))) }
    ensures last_byte { ¬ (SameButFamily (uf2_bytes 256 0x10000200 1 3)
        (take 511 (uf2_bytes 256 0x10000200 1 3) ++ (7 ∷ []))) }
{}
