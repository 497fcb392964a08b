//! Laws of the OTP files that are made, proved: each is the `ensures` of a function that does
//! nothing.

ghost use Rattle.std.specs.Prelude.{◌≡◌, ◌≢◌, ◌⊎◌, ⊤, ℕ, ◌*◌, ◌^◌, ◌<◌, ◌≤◌, true, false, List, [], ◌∷◌, ◌++◌, All, length, slice_index, count_by, codes, Result, Ok, decimal};
ghost use Rattle.pico_board.specs.declared.boot.Cpu.{Cpu};
ghost use Rattle.pico_board.specs.declared.boot.BootKind.{BootKind};
ghost use Rattle.pico_board.specs.Content.{Content};
ghost use Rattle.otp_roll.specs.Flags.{flash_off, rollback_required, slot_size};
ghost use Rattle.slot_caveats.specs.declared.caveat.Caveat.{Caveat};
ghost use Rattle.slot_caveats.specs.OtpCaveats.{has_lowest_bit, secure_rows};
ghost use Rattle.slot_caveats.specs.OtpRules.{AreCriticalCaveats, AreOtpCaveats, IsSecureBoot};
ghost use Rattle.boot_caveats.specs.Rules.{AreCaveats};
ghost use Rattle.boot_reasons.specs.declared.reasons.Reasons.{Reasons};
ghost use Rattle.boot_reasons.specs.Rules.{IsExplained};
ghost use Rattle.text_lines.specs.Texts.{decision_line};
ghost use Rattle.table_json.specs.declared.otps.OtpRow.{OtpRow};
ghost use Rattle.table_json.specs.Otps.{OtpView};
ghost use Rattle.table_json.specs.OtpRules.{IsOtpText, IsSound};
ghost use Rattle.table_json.specs.declared.fault.JsonFault.{JsonFault};
ghost use Rattle.cli_course.specs.Outcomes.{line};
ghost use Rattle.cli_explain.specs.Texts.{explain_text};
ghost use Rattle.cli_inputs.specs.declared.forms.Form.{Form};
ghost use Rattle.cli_inputs.specs.declared.forms.Form.TheVariants.{Otp};
ghost use Rattle.cli_inputs.specs.Rules.{IsByRules};
ghost use Rattle.cli_otp.specs.OtpOutcomes.{IsOtpOf};
ghost use Rattle.cli_inputs.specs.Forms.{HasForm, otp_of};
ghost use Rattle.cli_otp.specs.OtpWords.{otp_bytes, otp_line, otp_words, otp_work, set_count, told_text};

/// The file has 16,384 bytes and the form of an OTP file, and gives the 4096 rows.
pub fn files_have_their_form()
    ensures length { (spec : OtpView) → length (otp_bytes spec) ≡ 16384 }
    ensures form { (spec : OtpView) → IsSound spec → HasForm Otp (otp_bytes spec) }
    ensures rows { (spec : OtpView) → IsSound spec → otp_of (otp_bytes spec) ≡ otp_words spec }
{}

/// The rows. Of a row that is listed the last value counts. A row that is not listed is 0, but for
/// the boot flags, the slot size, and bit 0 of the rows 0x040 to 0x047 where secure boot is on.
pub fn rows_are_those_that_are_listed()
    ensures last { (spec : OtpView) (before after : List OtpRow) (pair : OtpRow) → IsSound spec
        → spec.rows ≡ before ++ pair ∷ after → All (λ other. other.row ≢ pair.row) after
        → slice_index (otp_words spec) pair.row ≡ pair.value }
    ensures secure { (spec : OtpView) (row : ℕ) → spec.secure_boot ≡ true → 0x040 ≤ row
        → row ≤ 0x047 → All (λ pair. pair.row ≢ row) spec.rows
        → slice_index (otp_words spec) row ≡ 1 }
    ensures none { (spec : OtpView) (row : ℕ) → row ≢ 0x048 → row ≢ 0x055
        → (spec.secure_boot ≡ true → 0x040 ≤ row → row ≤ 0x047 → ⊥)
        → All (λ pair. pair.row ≢ row) spec.rows → slice_index (otp_words spec) row ≡ 0 }
    ensures flags { (spec : OtpView)
        → (rollback_required (otp_words spec) ≡ spec.rollback_required)
        × (flash_off (otp_words spec) ≡ spec.flash_off) }
    ensures size { (spec : OtpView) → IsSound spec
        → slice_index (otp_words spec) 0x055 ≡ spec.slot_exponent }
{}

/// What a text says of an OTP is read back. Suppose that a content has the OTP's rows, and a flash
/// for two slots. Then the flags and the slot size are those of the text. So the second line of
/// `explain` is what the line of `otp` begins with.
pub fn otps_are_read_back()
    ensures size { (spec : OtpView) (n : ℕ) → IsSound spec
        → 2 * (4096 * 2 ^ spec.slot_exponent) ≤ n
        → slot_size (otp_words spec) n ≡ 4096 * 2 ^ spec.slot_exponent }
    ensures explained { (c : Content) (cpu : Cpu) (kind : BootKind) (spec : OtpView)
        (reasons : Reasons) → IsSound spec → c.otp ≡ otp_words spec
        → 2 * (4096 * 2 ^ spec.slot_exponent) ≤ length c.flash
        → IsExplained c cpu kind reasons
        → (rest : List ℕ) × (explain_text reasons
        ≡ decision_line reasons.decision ++ (line (told_text spec) ++ rest)) }
    ensures told { (spec : OtpView) → otp_line spec
        ≡ told_text spec ++ (codes " rows=" ++ line (decimal (set_count spec.rows))) }
{}

/// Where secure boot is on and no row of 0x040 to 0x047 is listed, all eight rows that the caveat
/// on secure boot counts have bit 0. So the caveats of each answer begin with this one, whatever
/// the flash, the processor and the boot type.
pub fn secure_boots_are_told()
    ensures all { (spec : OtpView) → spec.secure_boot ≡ true
        → All (λ pair. (pair.row < 0x040) ⊎ (0x047 < pair.row)) spec.rows
        → count_by (has_lowest_bit (otp_words spec)) secure_rows ≡ 8 }
    ensures caveat { (spec : OtpView) (list : List Caveat) → spec.secure_boot ≡ true
        → All (λ pair. (pair.row < 0x040) ⊎ (0x047 < pair.row)) spec.rows
        → IsSecureBoot (otp_words spec) list → list ≡ Caveat.SecureBoot ∷ [] }
    ensures first { (c : Content) (cpu : Cpu) (kind : BootKind) (spec : OtpView)
        (list : List Caveat) → c.otp ≡ otp_words spec → spec.secure_boot ≡ true
        → All (λ pair. (pair.row < 0x040) ⊎ (0x047 < pair.row)) spec.rows
        → AreCaveats c cpu kind list
        → (rest : List Caveat) × (list ≡ Caveat.SecureBoot ∷ rest) }
{}

/// Where secure boot is off and no row below 0x0c0 is listed, no row that the caveat on secure boot
/// counts has bit 0, and the rows of an OTP give no caveat at all: none on secure boot, none on raw
/// flags, none on a raw slot size, none on critical flags. Each row below 0x0c0 but those of the
/// flags and of the slot size is 0.
pub fn other_otps_give_no_caveat()
    ensures none { (spec : OtpView) → spec.secure_boot ≡ false
        → All (λ pair. 0x0c0 ≤ pair.row) spec.rows
        → count_by (has_lowest_bit (otp_words spec)) secure_rows ≡ 0 }
    ensures caveats { (spec : OtpView) (list : List Caveat) → IsSound spec
        → spec.secure_boot ≡ false → All (λ pair. 0x0c0 ≤ pair.row) spec.rows
        → AreOtpCaveats (otp_words spec) list → list ≡ [] }
    ensures critical { (spec : OtpView) (list : List Caveat) → spec.secure_boot ≡ false
        → All (λ pair. 0x0c0 ≤ pair.row) spec.rows → AreCriticalCaveats (otp_words spec) list
        → list ≡ [] }
    ensures rows { (spec : OtpView) (row : ℕ) → spec.secure_boot ≡ false
        → All (λ pair. 0x0c0 ≤ pair.row) spec.rows → row < 0x0c0 → row ≢ 0x048 → row ≢ 0x055
        → slice_index (otp_words spec) row ≡ 0 }
{}

/// Suppose that the texts of a form of input are those of an OTP, and that a reading gives what
/// such a text says. Then the work is right by its rules: it refuses nothing, and its outcome is
/// the one that is right.
pub fn works_are_right()
    ensures { (form : Form) (reads : List ℕ → Result OtpView JsonFault)
        → ((j : List ℕ) → HasForm form j → (spec : OtpView) × IsOtpText j spec)
        → ((j : List ℕ) (spec : OtpView) → IsOtpText j spec → reads j ≡ Ok spec)
        → (out j : List ℕ) → HasForm form j
        → IsByRules ⊤ (otp_work out (reads j)) (λ name fault. ⊥) (IsOtpOf out j) }
{}
