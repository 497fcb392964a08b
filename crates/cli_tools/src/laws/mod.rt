//! Laws of sealings and tables, proved: each is the `ensures` of a function that does nothing.

ghost use Rattle.std.specs.Prelude.{◌≡◌, ◌↔◌, ◌≤◌, ℕ, List, length, Some, None, ⊤};
ghost use Rattle.part_table.specs.declared.table.Table.{Table};
ghost use Rattle.part_table.specs.Written.{written_size};
ghost use Rattle.image_pack.specs.declared.spec.SealError.{SealError};
ghost use Rattle.image_pack.specs.declared.spec.SealSpec.{SealSpec};
ghost use Rattle.image_pack.specs.Faults.{IsSealFault, IsSealed};
ghost use Rattle.cli_course.specs.Outcomes.{AreBytes};
ghost use Rattle.cli_tools.specs.Elfs.{elf_work, IsElfOf, IsElfRefused};
ghost use Rattle.cli_tools.specs.Seals.{seal_error, IsUnsealed};
ghost use Rattle.cli_tools.specs.Tools.{table_file, seal_work, table_work};
ghost use Rattle.pico_board.specs.declared.boot.Cpu.{Cpu};
ghost use Rattle.pico_board.specs.Content.{Content};
ghost use Rattle.script_plan.specs.declared.writing.WriteOrder.{WriteOrder};
ghost use Rattle.cli_inputs.specs.declared.forms.Form.TheVariants.{Json, Spec};
ghost use Rattle.cli_inputs.specs.Forms.{HasForm};
ghost use Rattle.cli_inputs.specs.Jsons.{spec_read, table_read};
ghost use Rattle.cli_inputs.specs.Rules.{IsByRules};
ghost use Rattle.cli_tools.specs.SealRules.{IsSealedOf, IsTableOf};
ghost use Rattle.cli_tools.specs.ToolWorks.{uf2_work, script_work, gen_work};
ghost use Rattle.cli_tools.specs.ToolRules.{IsUf2Refused, IsUf2Of, IsTargetRefused, IsScriptOf, IsGenOf};

/// The file of a table whose block is not too long has 4096 bytes.
pub fn table_files_are_one_sector()
    ensures { (t : Table) → written_size t ≤ 640 → length (table_file t) ≡ 4096 }
{}

/// The first error of a binary and a spec is the one that the rules name. There is none exactly
/// where the binary is sealed.
pub fn sealings_are_judged()
    ensures error { (binary : List ℕ) (spec : SealSpec) (error : SealError)
        → (seal_error binary spec ≡ Some error) ↔ IsSealFault binary spec error }
    ensures none { (binary : List ℕ) (spec : SealSpec)
        → (seal_error binary spec ≡ None) ↔ IsSealed binary spec }
{}

/// The work of each command is right by its rules: of `seal` and `elf` with a spec that has its
/// form, of `table` with a text that has its form, and of `elf` on a file of bytes. It refuses an
/// input exactly where the rules do. Otherwise its outcome is the one that is right.
pub fn works_are_right()
    ensures seal { (binary spec out b s : List ℕ) → HasForm Spec s
        → IsByRules ⊤ (seal_work binary spec out b (spec_read s))
        (IsUnsealed binary spec b s) (IsSealedOf out b s) }
    ensures elf { (elf spec out e s : List ℕ) → HasForm Spec s
        → IsByRules (AreBytes e) (elf_work elf spec out e (spec_read s))
        (IsElfRefused elf spec e s) (IsElfOf out e s) }
    ensures table { (out j : List ℕ) → HasForm Json j
        → IsByRules ⊤ (table_work out (table_read j)) (λ name fault. ⊥) (IsTableOf out j) }
    ensures uf2 { (image out i : List ℕ) (family : ℕ)
        → IsByRules ⊤ (uf2_work image family out i) (IsUf2Refused image i) (IsUf2Of i family out) }
    ensures script { (order : WriteOrder) (image out i : List ℕ) (c : Content) (cpu : Cpu)
        → IsByRules ⊤ (script_work order c cpu image out i)
        (IsTargetRefused c cpu image i) (IsScriptOf order c cpu i out) }
    ensures made { (n : ℕ) → IsByRules ⊤ (gen_work n) (λ name fault. ⊥) (IsGenOf n) }
{}
