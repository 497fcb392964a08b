//! Worked examples of ELF files. Each is the `ensures` of a function that does nothing.

ghost use Rattle.std.specs.Prelude.{◌≡◌, ◌+◌, [], ◌∷◌, ◌++◌, None, Some, pos, drop, take, replicate, true, false};
ghost use Rattle.pico_board.specs.declared.boot.Cpu.TheVariants.{Arm, Riscv};
ghost use Rattle.block_codec.specs.Blocks.{frame};
ghost use Rattle.block_codec.specs.Words.{bytes_of};
ghost use Rattle.elf_pack.specs.declared.fault.ElfFault.TheVariants.{NotElf, FileType, Processor, Headers, Segment, Empty, TooMany, Mixed, Overlap};
ghost use Rattle.elf_pack.specs.Binaries.{elf_binary};
ghost use Rattle.elf_pack.specs.Examples.{arm_elf_file, head, header_of, one_at};
ghost use Rattle.elf_pack.specs.Whole.{IsOfLink};
ghost use Rattle.elf_pack.specs.Fields.{entry_address, headers_at};
ghost use Rattle.elf_pack.specs.Judging.{do_overlap, elf_fault, is_misplaced_segment, segments_fault};
ghost use Rattle.elf_pack.specs.Segments.{segments};

/// The first of two faults of a file, with each neighbour in the order that can come with it.
pub fn the_first_of_two_faults()
    ensures not_elf { elf_fault Arm (take 51 (head 3 40 32 0)) ≡ Some NotElf }
    ensures other_class { elf_fault Arm (take 4 (head 3 40 32 0) ++ (2 ∷ replicate 60 1))
        ≡ Some NotElf }
    ensures other_version { elf_fault Arm (take 6 (head 2 40 32 0) ++ (2 ∷ drop 7 (head 2 40 32 0)))
        ≡ Some NotElf }
    ensures file_type { elf_fault Arm (head 3 243 32 0) ≡ Some FileType }
    ensures processor { elf_fault Arm (head 2 243 31 1) ≡ Some Processor }
    ensures processor_riscv { elf_fault Riscv (head 2 40 31 1) ≡ Some Processor }
    ensures headers { elf_fault Arm (head 2 40 32 1 ++ take 31 (header_of 1 0 0 4)) ≡ Some Headers }
    ensures headers_size { elf_fault Arm (head 2 40 31 1 ++ header_of 1 0 0 4) ≡ Some Headers }
    ensures segment { elf_fault Arm (arm_elf_file 3 (header_of 1 0 0x2000_0000 4
        ++ header_of 1 145 0x1000_0000 4 ++ header_of 1 0 0 4) []) ≡ Some (Segment 1) }
    ensures mixed { elf_fault Arm (arm_elf_file 4 (header_of 1 0 0x2000_0000 4
        ++ header_of 1 0 0x1000_0000 4 ++ header_of 1 0 0x2000_0003 4
        ++ header_of 1 0 0x1000_0000 4) []) ≡ Some (Mixed 1) }
    ensures overlap { elf_fault Arm (arm_elf_file 4 (header_of 1 0 0x2000_0004 4
        ++ header_of 1 0 0x2000_0000 4 ++ header_of 1 0 0x2000_0003 4
        ++ header_of 1 0 0x2000_0004 1) []) ≡ Some (Overlap 0 2) }
{}

/// A file without headers has no segment, and the size of its headers is not judged. A file whose
/// headers are of another type, or have no byte in the file, has no segment either. Segments that
/// touch do not overlap. A file for RISC-V is judged by its own machine.
pub fn files_without_a_head_fault()
    ensures unread_size { elf_fault Arm (head 2 40 31 0) ≡ Some Empty }
    ensures no_segment { elf_fault Arm (arm_elf_file 2
        (header_of 4 0 0x2000_0000 4 ++ header_of 1 0 0x2000_0000 0) []) ≡ Some Empty }
    ensures none { elf_fault Arm (arm_elf_file 2
        (header_of 1 0 0x2000_0000 4 ++ header_of 1 112 0x2000_0004 4) []) ≡ None }
    ensures riscv { elf_fault Riscv (head 2 243 32 1 ++ header_of 1 0 0x1000_0000 84) ≡ None }
    ensures other_memory { elf_fault Arm (arm_elf_file 2
        (header_of 1 0 0x1000_0000 4 ++ header_of 1 0 0x2000_0000 4) []) ≡ Some (Mixed 1) }
{}

/// Which segments are misplaced in a file of 100 bytes: at the ends of the file, of flash and of
/// SRAM.
pub fn the_places_of_segments()
    ensures file_end { is_misplaced_segment 100 (one_at 96 0x1000_0000 4) ≡ false }
    ensures past_file { is_misplaced_segment 100 (one_at 97 0x1000_0000 4) ≡ true }
    ensures before_flash { is_misplaced_segment 100 (one_at 0 0x0fff_ffff 4) ≡ true }
    ensures flash_end { is_misplaced_segment 100 (one_at 0 0x10ff_fff8 8) ≡ false }
    ensures past_flash { is_misplaced_segment 100 (one_at 0 0x10ff_fff8 9) ≡ true }
    ensures before_sram { is_misplaced_segment 100 (one_at 0 0x1fff_ffff 4) ≡ true }
    ensures sram_start { is_misplaced_segment 100 (one_at 0 0x2000_0000 100) ≡ false }
    ensures sram_end { is_misplaced_segment 100 (one_at 0 0x2008_1ffe 2) ≡ false }
    ensures past_sram { is_misplaced_segment 100 (one_at 0 0x2008_1ffe 3) ≡ true }
    ensures touch { do_overlap (one_at 0 0x2000_0000 4) (one_at 0 0x2000_0004 4) ≡ false }
    ensures touched { do_overlap (one_at 0 0x2000_0004 4) (one_at 0 0x2000_0000 4) ≡ false }
    ensures first_byte { do_overlap (one_at 0 0x2000_0003 4) (one_at 0 0x2000_0000 4) ≡ true }
    ensures last_byte { do_overlap (one_at 0 0x2000_0000 4) (one_at 0 0x2000_0003 4) ≡ true }
{}

/// 29 segments are not too many, and 30 are. This fault comes before mixed or overlapping
/// segments, and after a misplaced one.
pub fn at_most_29_segments()
    ensures few { segments_fault 100 (replicate 29 (one_at 0 0x2000_0000 4)) ≡ Some (Overlap 7 7) }
    ensures many { segments_fault 100 (replicate 30 (one_at 0 0x2000_0000 4)) ≡ Some (TooMany 30) }
    ensures before_mixed { segments_fault 100 (one_at 0 0x1000_0000 4
        ∷ replicate 29 (one_at 0 0x2000_0000 4)) ≡ Some (TooMany 30) }
    ensures misplaced { segments_fault 100 (replicate 29 (one_at 0 0x2000_0000 4)
        ++ one_at 97 0x2000_0000 4 ∷ []) ≡ Some (Segment 7) }
{}

/// The segments of a file: the headers of type 1 with bytes in the file, by their physical
/// addresses; its entry, and where its headers begin.
pub fn the_segments_of_a_file()
    ensures read { segments (arm_elf_file 4 (header_of 1 0x1_00b4 0x2000_0100 0x1_0005
        ++ header_of 0x7000_0001 0 0 2 ++ header_of 1 0 0x2000_0000 0
        ++ header_of 1 185 0x2000_0008 2) [])
        ≡ record { number = 0; offset = 0x1_00b4; address = 0x2000_0100; size = 0x1_0005 }
        ∷ record { number = 3; offset = 185; address = 0x2000_0008; size = 2 } ∷ [] }
    ensures entry { entry_address (head 2 40 32 0) ≡ 0x2000_0001 }
    ensures headers { headers_at (replicate 28 0 ++ bytes_of (0x0102_0304 ∷ [])) ≡ 0x0102_0304 }
{}

/// Segments in flash stand at their addresses, with erased bytes before and between them. Segments
/// in SRAM stand after a block of 0x280 bytes in the order of their headers, each in whole words.
/// The block's load map has their sizes, and its places count from the LOAD_MAP item.
pub fn binaries()
    ensures flash { elf_binary Arm (arm_elf_file 2
        (header_of 1 119 0x1000_0009 2 ++ header_of 1 116 0x1000_0004 3) (1 ∷ 2 ∷ 3 ∷ 4 ∷ 5 ∷ []))
        ≡ 255 ∷ 255 ∷ 255 ∷ 255 ∷ 1 ∷ 2 ∷ 3 ∷ 255 ∷ 255 ∷ 4 ∷ 5 ∷ [] }
    ensures sram { elf_binary Arm (arm_elf_file 2
        (header_of 1 119 0x2000_0009 2 ++ header_of 1 116 0x2000_0004 3) (1 ∷ 2 ∷ 3 ∷ 4 ∷ 5 ∷ []))
        ≡ bytes_of (frame (0x1021_0142 ∷ 0x0000_0344 ∷ 0x2000_0001 ∷ 0x2008_2000 ∷ 0x0200_0706
        ∷ 0x26c ∷ 0x2000_0009 ∷ 2 ∷ 0x270 ∷ 0x2000_0004 ∷ 3 ∷ []) (pos 0))
        ++ (replicate 580 255 ++ 4 ∷ 5 ∷ 255 ∷ 255 ∷ 1 ∷ 2 ∷ 3 ∷ 255 ∷ []) }
    ensures riscv { take 16 (elf_binary Riscv (head 2 243 32 1
        ++ header_of 1 0 0x2000_0000 84))
        ≡ bytes_of (0xffff_ded3 ∷ 0x1101_0142 ∷ 0x0000_0344 ∷ 0x2000_0001 ∷ []) }
{}

/// A link at an offset of an image has four bytes in flash.
pub fn bytes_of_a_link()
    ensures before { ¬ (IsOfLink 8 0x10000007) }
    ensures first { IsOfLink 8 0x10000008 }
    ensures last { IsOfLink 8 0x1000000b }
    ensures behind { ¬ (IsOfLink 8 0x1000000c) }
{}
