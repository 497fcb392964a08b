//! Worked examples of the table of records, proved by computing: how many words a record has, which
//! rows are commands in words, and which have bytes in hexadecimal digits.

ghost use Rattle.std.specs.Prelude.{◌≡◌, [], ◌∷◌, false, filter, true};
ghost use Rattle.script_words.specs.declared.rows.Row.TheVariants as rows;
ghost use Rattle.script_words.specs.declared.rows.TheConstants.{ROWS};
ghost use Rattle.script_words.specs.Rows.{has_words, is_command, is_hex};

/// A write of OTP rows has 1 to 4096 of them behind the first row's number. Each other record has
/// as many words as forms.
pub fn numbers_of_words()
    ensures no_row { has_words rows.OtpWrite 1 ≡ false }
    ensures one_row { has_words rows.OtpWrite 2 ≡ true }
    ensures most_rows { has_words rows.OtpWrite 4097 ≡ true }
    ensures too_many_rows { has_words rows.OtpWrite 4098 ≡ false }
    ensures none { has_words rows.Power 0 ≡ true }
    ensures fewer { has_words rows.OtpRead 1 ≡ false }
    ensures as_many { has_words rows.OtpRead 2 ≡ true }
    ensures more { has_words rows.OtpRead 3 ≡ false }
{}

/// The rows of commands in words, from `exclusive` to `info`; and those that have a word of bytes.
pub fn kinds_of_rows()
    ensures commands { filter is_command ROWS ≡ rows.Exclusive ∷ rows.Erase ∷ rows.Read ∷ rows.Write
        ∷ rows.WriteRange ∷ rows.WriteRest ∷ rows.ExitXip ∷ rows.EnterXip ∷ rows.RebootNormal
        ∷ rows.RebootBootsel ∷ rows.RebootUpdate ∷ rows.RebootRam ∷ rows.OtpRead ∷ rows.OtpWrite
        ∷ rows.InfoTable ∷ rows.InfoTarget ∷ rows.InfoDevice ∷ rows.InfoPartition ∷ [] }
    ensures hexadecimal { filter is_hex ROWS ≡ rows.CutWithin ∷ rows.Write ∷ rows.Block
        ∷ rows.RawCommand ∷ rows.RawPayload ∷ rows.RawBlock ∷ [] }
{}
