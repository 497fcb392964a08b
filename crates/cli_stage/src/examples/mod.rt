//! Worked examples of the definitions, proved by computing: each is the `ensures` of a function
//! that does nothing.

ghost use Rattle.std.specs.Prelude.{◌≡◌, [], ◌∷◌, codes, Err, None, Ok, Some, false, pos, true};
ghost use Rattle.pico_board.specs.Examples.{window_at};
ghost use Rattle.block_loop.specs.declared.fault.LoopFault.TheVariants.{NoBlock};
ghost use Rattle.cli_stage.specs.Images.{file_fault, first_page, is_listed};
ghost use Rattle.cli_stage.specs.StageWorks.{stage_line};

/// The lines of both orders.
pub fn lines_of_stages()
    ensures staged { stage_line (window_at 0x4000 0x2000) 512 true
        ≡ codes "stage window=0x00004000+0x00002000 bytes=512 order=staged\n" }
    ensures gated { stage_line (window_at 0x4000 0x2000) 512 false
        ≡ codes "stage window=0x00004000+0x00002000 bytes=512 order=gated\n" }
{}

/// A file that begins as a UF2 file or as an ELF file is told by its first four bytes, and by all
/// of them.
pub fn files_of_other_forms()
    ensures uf2 { file_fault (0x55 ∷ 0x46 ∷ 0x32 ∷ 0x0a ∷ 7 ∷ []) ≡ Some (codes "uf2-file") }
    ensures no_uf2 { file_fault (0x55 ∷ 0x46 ∷ 0x32 ∷ 0x0b ∷ 7 ∷ []) ≡ None }
    ensures short_uf2 { file_fault (0x55 ∷ 0x46 ∷ 0x32 ∷ []) ≡ None }
    ensures elf { file_fault (0x7f ∷ 0x45 ∷ 0x4c ∷ 0x46 ∷ []) ≡ Some (codes "elf-file") }
    ensures no_elf { file_fault (0x7f ∷ 0x45 ∷ 0x4c ∷ 0x45 ∷ 1 ∷ []) ≡ None }
    ensures neither { file_fault [] ≡ None }
{}

/// The page of the first block of a loop, both sides of a bound.
pub fn pages_of_first_blocks()
    ensures first { first_page (Ok (255 ∷ 0x1000 ∷ [])) ≡ 0 }
    ensures second { first_page (Ok (256 ∷ [])) ≡ 1 }
    ensures last { first_page (Ok (4092 ∷ [])) ≡ 15 }
    ensures none { first_page (Err NoBlock) ≡ 0 }
{}

/// A block is one of the loop's by its offset.
pub fn blocks_of_a_loop()
    ensures none { is_listed (4 ∷ []) None ≡ true }
    ensures listed { is_listed (4 ∷ 8 ∷ []) (Some (record { at = 8; items = []; link = pos 0 }))
        ≡ true }
    ensures other { is_listed (4 ∷ 8 ∷ []) (Some (record { at = 12; items = []; link = pos 0 }))
        ≡ false }
{}
