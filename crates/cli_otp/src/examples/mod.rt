//! Worked examples, proved by computing: each is the `ensures` of a function that does nothing.

ghost use Rattle.std.specs.Prelude.{◌≡◌, [], ◌∷◌, codes, false, true};
ghost use Rattle.cli_otp.specs.OtpWords.{flag_word, listed, row_word, told_text};
ghost use Rattle.table_json.specs.Otps.{otp_with};

/// The boot flags of each board.
pub fn words_of_flags()
    ensures none { flag_word false false ≡ 0 }
    ensures required { flag_word true false ≡ 1 }
    ensures off { flag_word false true ≡ 2 }
    ensures both { flag_word true true ≡ 3 }
{}

/// Of a row that is listed twice the later value counts.
pub fn values_of_rows()
    ensures none { listed [] 0x100 ≡ 0 }
    ensures other { listed (record { row = 0x101; value = 5 } ∷ []) 0x100 ≡ 0 }
    ensures later { listed
        (record { row = 0x100; value = 5 } ∷ record { row = 0x100; value = 0 } ∷ []) 0x100 ≡ 0 }
    ensures again { listed
        (record { row = 0x100; value = 0 } ∷ record { row = 0x100; value = 7 } ∷ []) 0x100 ≡ 7 }
{}

/// The flags stand in row 0x048, and the exponent of the slot size in row 0x055.
pub fn places_of_settings()
    ensures flags { row_word (otp_with true false 3 [] true) 0x048 ≡ 1 }
    ensures size { row_word (otp_with true false 3 [] true) 0x055 ≡ 3 }
    ensures other { row_word (otp_with true true 3 [] true) 0x049 ≡ 0 }
    ensures listed { row_word (otp_with true true 3 (record { row = 0xc0; value = 9 } ∷ []) true)
        0xc0 ≡ 9 }
{}

/// Secure boot sets bit 0 of the rows 0x040 to 0x047. Of a listed one the listed value counts, also
/// where it is 0.
pub fn rows_of_secure_boot()
    ensures first { row_word (otp_with false false 0 [] true) 0x040 ≡ 1 }
    ensures last { row_word (otp_with false false 0 [] true) 0x047 ≡ 1 }
    ensures before { row_word (otp_with false false 0 [] true) 0x03f ≡ 0 }
    ensures behind { row_word (otp_with false false 0 [] true) 0x048 ≡ 0 }
    ensures off { row_word (otp_with true true 0 [] false) 0x040 ≡ 0 }
    ensures clear { row_word
        (otp_with false false 0 (record { row = 0x040; value = 0 } ∷ []) true) 0x040 ≡ 0 }
    ensures listed { row_word
        (otp_with false false 0 (record { row = 0x047; value = 8 } ∷ []) true) 0x047 ≡ 8 }
    ensures neighbour { row_word
        (otp_with false false 0 (record { row = 0x041; value = 8 } ∷ []) true) 0x040 ≡ 1 }
{}

/// The text on an OTP.
pub fn texts_of_otps()
    ensures least { told_text (otp_with false false 0 [] false)
        ≡ codes "otp rollback-required=no flash-off=no slot-size=0x00001000" }
    ensures greatest { told_text (otp_with true true 11 [] true)
        ≡ codes "otp rollback-required=yes flash-off=yes slot-size=0x00800000" }
{}
