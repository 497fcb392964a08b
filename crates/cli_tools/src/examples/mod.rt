//! Worked examples of the definitions, proved by computing: each is the `ensures` of a function
//! that does nothing.

ghost use Rattle.std.specs.Prelude.{ℕ, ◌≡◌, List, [], ◌∷◌, ◌++◌, codes, Err, None, Some, false, replicate, true};
ghost use Rattle.pico_board.specs.declared.boot.Cpu.TheVariants.{Arm, Riscv};
ghost use Rattle.image_check.specs.declared.why.Why.TheVariants.{NoBlock, Entry};
ghost use Rattle.image_check.specs.declared.why.EntryFault.TheVariants.{Pc};
ghost use Rattle.image_pack.specs.Flashes.{generated};
ghost use Rattle.slot_choice.specs.Examples.{window_at};
ghost use Rattle.worked_flashes.specs.Flashes.{arm_member, arm_slot, bare, bare_slot, pair_content, tables_content};
ghost use Rattle.worked_flashes.specs.Choices.{to};
ghost use Rattle.cli_course.specs.Outcomes.{Answers, refused, worked};
ghost use Rattle.text_lines.specs.Examples.{small_window};
ghost use Rattle.image_pack.specs.declared.spec.SealError.TheVariants.{BadSpec, Unsealable, TooLarge as SealedTooLarge, BlockTooLong, NotBootable, Displaced};
ghost use Rattle.image_pack.specs.declared.spec.SpecField.TheVariants.{Rollback, Rows};
ghost use Rattle.elf_pack.specs.declared.fault.ElfFault.TheVariants.{NotElf, FileType, Processor, Headers, Segment, Empty, TooMany, Mixed, Overlap, Seal};
ghost use Rattle.table_json.specs.declared.fault.JsonFault.TheVariants.{NotJson};
ghost use Rattle.script_plan.specs.declared.writing.WriteOrder.TheVariants.{Ascending, FirstLast};
ghost use Rattle.cli_tools.specs.Elfs.{elf_blamed, elf_text, elf_work};
ghost use Rattle.cli_tools.specs.Seals.{blamed, seal_text, sealed_line};
ghost use Rattle.cli_tools.specs.Tools.{seal_work, table_line, table_work};
ghost use Rattle.cli_tools.specs.ToolWorks.{executable_family, gen_line, made_content, plan_target, script_line, target_work, uf2_line, uf2_work, window_work};

/// The texts of the errors of a sealing, and the inputs that are refused for them.
pub fn seal_texts()
    ensures rows { seal_text (BadSpec Rows) ≡ codes "bad-spec rows" }
    ensures rollback { seal_text (BadSpec Rollback) ≡ codes "bad-spec rollback" }
    ensures unsealable { seal_text (Unsealable NoBlock) ≡ codes "unsealable no-block" }
    ensures too_large { seal_text SealedTooLarge ≡ codes "sealed-too-large" }
    ensures block_too_long { seal_text (BlockTooLong 388) ≡ codes "block-too-long 388" }
    ensures not_bootable { seal_text (NotBootable (Entry Pc)) ≡ codes "not-bootable entry pc" }
    ensures displaced { seal_text Displaced ≡ codes "displaced" }
    ensures of_spec { blamed (codes "b") (codes "s") (BadSpec Rows) ≡ codes "s" }
    ensures of_binary { blamed (codes "b") (codes "s") Displaced ≡ codes "b" }
{}

/// The lines of a sealed image and of a table.
pub fn lines_of_sealings()
    ensures sealed { sealed_line 384 0x128 ≡ codes "sealed bytes=384 block=0x00000128\n" }
    ensures table { table_line 2 ≡ codes "table bytes=4096 partitions=2\n" }
{}

/// The lines of the commands. The line of a flash has the digest of its bytes: here that of `abc`.
pub fn lines_of_tools()
    ensures uf2 { uf2_line 2 ≡ codes "uf2 blocks=2\n" }
    ensures plan { script_line FirstLast small_window 384
        ≡ codes "plan window=0x00000000+0x00002000 bytes=384\n" }
    ensures load { script_line Ascending small_window 384
        ≡ codes "load window=0x00000000+0x00002000 bytes=384\n" }
    ensures made { gen_line 7 (codes "abc")
        ≡ codes "gen n=7 sha256=ba7816bf8f01cfea414140de5dae2223"
        ++ codes "b00361a396177a9cb410ff61f20015ad\n" }
{}

/// An image is refused by the first fault, under its own name.
pub fn refusals_of_images()
    ensures no_target { worked (target_work Ascending None (codes "i") (codes "a") [])
        ≡ refused (codes "i") (codes "no-target") }
    ensures empty { worked
        (window_work FirstLast (record { start = 0; len = 0 }) (codes "i") (codes "a") [])
        ≡ refused (codes "i") (codes "empty") }
    ensures past { worked
        (window_work Ascending (record { start = 0; len = 2 }) (codes "i") (codes "a")
        (1 ∷ 2 ∷ 3 ∷ []))
        ≡ refused (codes "i") (codes "past-window") }
    ensures no_byte { worked (uf2_work (codes "i") 0xe48bff58 (codes "a") [])
        ≡ refused (codes "i") (codes "empty") }
{}

/// The shortest image has one byte, and the longest of a plan is as long as the window.
pub fn least_and_greatest_images()
    ensures whole_window { (worked
        (window_work FirstLast (record { start = 0; len = 2 }) (codes "i") (codes "a")
        (1 ∷ 2 ∷ []))).text
        ≡ codes "plan window=0x00000000+0x00000002 bytes=2\n" }
    ensures one_byte { (worked
        (window_work FirstLast (record { start = 0x2000; len = 256 }) (codes "i") (codes "a")
        (1 ∷ []))).text
        ≡ codes "plan window=0x00002000+0x00000100 bytes=1\n" }
    ensures one_block { (worked (uf2_work (codes "i") 0xe48bff58 (codes "a") (1 ∷ []))).text
        ≡ codes "uf2 blocks=1\n" }
{}

/// The family of a processor's executables.
pub fn executables()
    ensures arm { executable_family Arm ≡ 0xe48bff59 }
    ensures riscv { executable_family Riscv ≡ 0xe48bff5a }
{}

/// Why an ELF file has no sealed image, and the inputs that are refused for it.
pub fn elf_texts()
    ensures not_elf { elf_text NotElf ≡ codes "elf not-elf" }
    ensures file_type { elf_text FileType ≡ codes "elf type" }
    ensures processor { elf_text Processor ≡ codes "elf processor" }
    ensures headers { elf_text Headers ≡ codes "elf headers" }
    ensures segment { elf_text (Segment 3) ≡ codes "elf segment 3" }
    ensures empty { elf_text Empty ≡ codes "elf empty" }
    ensures too_many { elf_text (TooMany 30) ≡ codes "elf too-many 30" }
    ensures mixed { elf_text (Mixed 2) ≡ codes "elf mixed 2" }
    ensures overlap { elf_text (Overlap 0 1) ≡ codes "elf overlap 0 1" }
    ensures sealing { elf_text (Seal Displaced) ≡ codes "displaced" }
    ensures of_spec { elf_blamed (codes "e") (codes "s") (Seal (BadSpec Rows)) ≡ codes "s" }
    ensures of_sealing { elf_blamed (codes "e") (codes "s") (Seal Displaced) ≡ codes "e" }
    ensures of_file { elf_blamed (codes "e") (codes "s") NotElf ≡ codes "e" }
{}

/// On a text that gives no table or spec a work has no result: no fall, no text and no file.
pub fn works_on_other_texts()
    ensures table { (out : List ℕ) → table_work out (Err NotJson) ≡ Answers false [] [] }
    ensures seal { (binary spec out b : List ℕ)
        → seal_work binary spec out b (Err NotJson) ≡ Answers false [] [] }
    ensures elf { (elf spec out e : List ℕ)
        → elf_work elf spec out e (Err NotJson) ≡ Answers false [] [] }
{}

/// A plan goes where a download of the processor's own executables goes: into the member of the
/// pair that does not start. Where the table takes none of them, it goes nowhere.
pub fn targets_of_plans()
    ensures second { plan_target (pair_content 0 (arm_member 0x10009) bare) Arm
        ≡ Some (to (window_at 0x20000 0x1e000) true false) }
    ensures first { plan_target (pair_content 0 bare (arm_member 0x10009)) Arm
        ≡ Some (to (window_at 0x2000 0x1e000) true false) }
    ensures none { plan_target (pair_content 0 (arm_member 0x10009) bare) Riscv ≡ None }
    ensures tableless { plan_target (tables_content 1 (arm_slot 0x10009) bare_slot) Arm
        ≡ Some (to (window_at 0x2000 0x2000) true false) }
{}

/// A made flash has an OTP of zeros next to it.
pub fn contents_that_are_made()
    ensures flash { (n : ℕ) → (made_content n).flash ≡ generated n }
    ensures otp { (n : ℕ) → (made_content n).otp ≡ replicate 4096 0 }
{}
