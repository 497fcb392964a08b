//! Worked examples of what the laws speak of, proved by computing: which rows a text of `list` has,
//! the numbers of words that are not of their form, and commands that differ in their token.

ghost use Rattle.std.specs.Prelude.{◌≡◌, [], ◌∷◌, codes, filter};
ghost use Rattle.boot_script.specs.Events.{PowerOn};
ghost use Rattle.script_words.specs.declared.fault.LineFault.TheVariants.{Value};
ghost use Rattle.script_words.specs.declared.rows.Row.TheVariants as rows;
ghost use Rattle.script_words.specs.declared.rows.TheConstants.{ROWS};
ghost use Rattle.law_scripts.specs.Examples.{exit_xip};
ghost use Rattle.law_scripts.specs.Faults.{IsWordsFault};
ghost use Rattle.law_scripts.specs.Listed.{is_in_words, is_listed};
ghost use Rattle.law_scripts.specs.Tokens.{DifferInToken, IsNoCommand};

/// The rows of lines in words, and those of all lines that `list` writes.
pub fn rows_of_listed_texts()
    ensures in_words { filter is_in_words ROWS ≡ rows.Power ∷ rows.ResetNormal ∷ rows.ResetBootsel
        ∷ rows.ResetUpdate ∷ rows.CutBefore ∷ rows.CutWithin ∷ rows.Buy ∷ rows.Exclusive
        ∷ rows.Erase ∷ rows.Read ∷ rows.Write ∷ rows.ExitXip ∷ rows.EnterXip ∷ rows.RebootNormal
        ∷ rows.RebootBootsel ∷ rows.RebootUpdate ∷ rows.RebootRam ∷ rows.OtpRead ∷ rows.OtpWrite
        ∷ rows.InfoTable ∷ rows.InfoTarget ∷ rows.InfoDevice ∷ rows.InfoPartition ∷ rows.Block
        ∷ rows.End ∷ [] }
    ensures listed { filter is_listed ROWS ≡ rows.Power ∷ rows.ResetNormal ∷ rows.ResetBootsel
        ∷ rows.ResetUpdate ∷ rows.CutBefore ∷ rows.CutWithin ∷ rows.Buy ∷ rows.Exclusive
        ∷ rows.Erase ∷ rows.Read ∷ rows.Write ∷ rows.ExitXip ∷ rows.EnterXip ∷ rows.RebootNormal
        ∷ rows.RebootBootsel ∷ rows.RebootUpdate ∷ rows.RebootRam ∷ rows.OtpRead ∷ rows.OtpWrite
        ∷ rows.InfoTable ∷ rows.InfoTarget ∷ rows.InfoDevice ∷ rows.InfoPartition ∷ rows.Block
        ∷ rows.RawCommand ∷ rows.RawPayload ∷ rows.RawBlock ∷ rows.End ∷ [] }
{}

/// The second word of `exclusive 256 token=0x1` is the first that is not of its form, and the
/// token behind it is none of the words that count. In `exclusive 255 token=5` it is the token,
/// the third.
pub fn numbers_of_wrong_words()
    ensures word { IsWordsFault (codes "exclusive") (codes "256" ∷ codes "token=0x1" ∷ [])
        (Value 2) }
    ensures token { IsWordsFault (codes "exclusive") (codes "255" ∷ codes "token=5" ∷ [])
        (Value 3) }
{}

/// The command `exit-xip` with the tokens 1 and 2, and an event that is no command.
pub fn events_behind_tokens()
    ensures differ { DifferInToken 1 2 (exit_xip 1) (exit_xip 2) }
    ensures first_token { DifferInToken 1 2 (exit_xip 2) (exit_xip 2) → ⊥ }
    ensures second_token { DifferInToken 1 2 (exit_xip 1) (exit_xip 1) → ⊥ }
    ensures no_command { IsNoCommand PowerOn }
    ensures command { IsNoCommand (exit_xip 1) → ⊥ }
{}
