//! Worked examples of what the words of a line may say.

ghost use Rattle.std.specs.Prelude.{◌∷◌, [], None, Some, true};
ghost use Rattle.pico_board.specs.declared.BootKind.TheVariants.{Update};
ghost use Rattle.boot_script.specs.Events.{Command, Cut, Reset, Uf2};
ghost use Rattle.script_words.specs.declared.forms.Form.TheVariants as forms;
ghost use Rattle.script_words.specs.declared.forms.Keyword.TheVariants as keys;
ghost use Rattle.script_words.specs.declared.rows.Row.TheVariants as rows;
ghost use Rattle.script_words.specs.Saying.{HasEventBytes, HasToken, IsEvent, IsLine, MaySay, MaySayAll};
ghost use Rattle.script_words.specs.Values.{Bytes, Number, Plain, Span, said};

/// Both sides of each bound of a number that a word may say.
pub fn what_words_may_say()
    ensures number { MaySay (forms.Number 255) (Number 255) }
    ensures past_number { MaySay (forms.Number 255) (Number 256) → ⊥ }
    ensures great_number { MaySay (forms.Number 4294967296) (Number 4294967296) → ⊥ }
    ensures behind { MaySay (forms.NumberBehind keys.Partition) (Number 4294967295) }
    ensures past_behind { MaySay (forms.NumberBehind keys.Partition) (Number 4294967296) → ⊥ }
    ensures hex { MaySay forms.Hex (Number 4294967295) }
    ensures past_hex { MaySay forms.Hex (Number 4294967296) → ⊥ }
    ensures hex_behind { MaySay (forms.HexBehind keys.Target) (Number 4294967295) }
    ensures past_hex_behind { MaySay (forms.HexBehind keys.Target) (Number 4294967296) → ⊥ }
    ensures row { MaySay forms.OtpRow (Number 4095) }
    ensures past_row { MaySay forms.OtpRow (Number 4096) → ⊥ }
    ensures family { MaySay forms.Family (Number 4294967295) }
    ensures past_family { MaySay forms.Family (Number 4294967296) → ⊥ }
    ensures keyword { MaySay (forms.Is keys.Of) Plain }
    ensures no_keyword { MaySay (forms.Is keys.Of) (Number 0) → ⊥ }
{}

/// Both sides of each bound of a range and of bytes; ranges of an image are left out.
pub fn what_ranges_and_bytes_may_say()
    ensures range { MaySay forms.Span (Span 4294967295 4294967295) }
    ensures past_start { MaySay forms.Span (Span 4294967296 0) → ⊥ }
    ensures past_size { MaySay forms.Span (Span 0 4294967296) → ⊥ }
    ensures behind { MaySay (forms.SpanBehind keys.Ram) (Span 4294967295 4294967295) }
    ensures past_start_behind { MaySay (forms.SpanBehind keys.Ram) (Span 4294967296 0) → ⊥ }
    ensures past_size_behind { MaySay (forms.SpanBehind keys.Ram) (Span 0 4294967296) → ⊥ }
    ensures of_image { MaySay forms.SomeSpan (Span 0 1) → ⊥ }
    ensures rest_of_image { MaySay forms.Rest (Number 0) → ⊥ }
    ensures one_byte { MaySay (forms.Bytes 1 2) (Bytes (255 ∷ [])) }
    ensures two_bytes { MaySay (forms.Bytes 1 2) (Bytes (0 ∷ 255 ∷ [])) }
    ensures no_byte { MaySay (forms.Bytes 1 2) (Bytes []) → ⊥ }
    ensures three_bytes { MaySay (forms.Bytes 1 2) (Bytes (0 ∷ 0 ∷ 0 ∷ [])) → ⊥ }
    ensures past_byte { MaySay (forms.Bytes 1 2) (Bytes (256 ∷ [])) → ⊥ }
{}

/// A line with as many values as its row has words, each of its form, and a token of a command.
pub fn what_lines_may_say()
    ensures values { MaySayAll rows.OtpRead 0 (Number 4095 ∷ Number 65535 ∷ []) }
    ensures first_value { MaySayAll rows.OtpRead 0 (Number 4096 ∷ Number 65535 ∷ []) → ⊥ }
    ensures second_value { MaySayAll rows.OtpRead 0 (Number 4095 ∷ Number 65536 ∷ []) → ⊥ }
    ensures from_second { MaySayAll rows.OtpRead 1 (Number 65535 ∷ []) }
    ensures token { HasToken rows.ExitXip (Some 4294967295) }
    ensures past_token { HasToken rows.ExitXip (Some 4294967296) → ⊥ }
    ensures no_command { HasToken rows.Power (Some 1) → ⊥ }
    ensures no_token { HasToken rows.Power None }
    ensures line { IsLine (said rows.OtpRead (Number 4095 ∷ Number 65535 ∷ []) (Some 4294967295)) }
    ensures line_of_one_value { IsLine (said rows.OtpRead (Number 4095 ∷ []) None) → ⊥ }
    ensures line_of_great_value { IsLine (said rows.OtpRead (Number 4096 ∷ Number 65535 ∷ []) None) → ⊥ }
    ensures line_with_token { IsLine (said rows.Power [] (Some 1)) → ⊥ }
{}

/// Events whose parts are bytes, and an event that a script may have.
pub fn events_of_scripts()
    ensures bytes { HasEventBytes (Command (255 ∷ []) (255 ∷ [])) }
    ensures command_byte { HasEventBytes (Command (256 ∷ []) []) → ⊥ }
    ensures payload_byte { HasEventBytes (Command [] (256 ∷ [])) → ⊥ }
    ensures block_byte { HasEventBytes (Uf2 (256 ∷ [])) → ⊥ }
    ensures pattern_byte { HasEventBytes (Cut 0 true (256 ∷ [])) → ⊥ }
    ensures event { IsEvent (Reset (Update 4294967295)) }
    ensures past_base { IsEvent (Reset (Update 4294967296)) → ⊥ }
    ensures event_byte { IsEvent (Cut 0 true (256 ∷ [])) → ⊥ }
{}
