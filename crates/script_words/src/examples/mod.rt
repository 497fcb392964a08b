//! Worked examples of the words of a line, proved by computing: both sides of each bound of what is
//! read, lines with two faults, and the line of each record.

pub mod blocks;
pub mod saying;
pub mod table;

ghost use Rattle.std.specs.Prelude.{◌≡◌, [], ◌∷◌, ◌++◌, Err, None, Ok, Some, codes, false, replicate, true};
ghost use Rattle.pico_board.specs.declared.BootKind.TheVariants.{Bootsel, Normal, Update};
ghost use Rattle.boot_script.specs.Events.{Buy, Command, Cut, End, PowerOn, Reset};
ghost use Rattle.script_words.specs.declared.fault.LineFault.TheVariants as faults;
ghost use Rattle.script_words.specs.declared.forms.Form.TheVariants as forms;
ghost use Rattle.script_words.specs.declared.forms.Keyword.TheVariants as keys;
ghost use Rattle.script_words.specs.declared.rows.Row.TheVariants as rows;
ghost use Rattle.script_words.specs.Splitting.{words_in};
ghost use Rattle.script_words.specs.Values.{Bytes, Number, Plain, Span, said, value_in};
ghost use Rattle.script_words.specs.Made.{made};
ghost use Rattle.script_words.specs.Examples.{listed, read, sent};

/// Words stand between blanks, tabs and carriage returns, before a comment.
pub fn words_of_lines()
    ensures none { words_in [] ≡ [] }
    ensures blanks { words_in (codes " \t\r ") ≡ [] }
    ensures comment { words_in (codes "  # power") ≡ [] }
    ensures one { words_in (codes "\tpower\r") ≡ codes "power" ∷ [] }
    ensures two { words_in (codes "reset \t bootsel") ≡ codes "reset" ∷ codes "bootsel" ∷ [] }
    ensures behind { words_in (codes "buy#at once") ≡ codes "buy" ∷ [] }
    ensures other { words_in (codes "buy\u{c}buy") ≡ codes "buy\u{c}buy" ∷ [] }
{}

/// Both sides of each bound of a number.
pub fn numbers()
    ensures most { value_in (forms.Number 4294967295) (codes "4294967295")
        ≡ Some (Number 4294967295) }
    ensures more { value_in (forms.Number 4294967295) (codes "4294967296") ≡ None }
    ensures zeros { value_in (forms.Number 4294967295) (codes "0000000001") ≡ Some (Number 1) }
    ensures eleven { value_in (forms.Number 4294967295) (codes "00000000001") ≡ None }
    ensures byte { value_in (forms.Number 255) (codes "255") ≡ Some (Number 255) }
    ensures past_byte { value_in (forms.Number 255) (codes "256") ≡ None }
    ensures sign { value_in (forms.Number 255) (codes "+1") ≡ None }
    ensures named { value_in (forms.NumberBehind keys.Partition) (codes "partition=2")
        ≡ Some (Number 2) }
    ensures unnamed { value_in (forms.NumberBehind keys.Partition) (codes "2") ≡ None }
{}

/// Both sides of each bound of a hexadecimal number, of a row and of a range.
pub fn hexadecimal_numbers()
    ensures one { value_in forms.Hex (codes "0x1") ≡ Some (Number 1) }
    ensures either_case { value_in forms.Hex (codes "0x1002aBcD") ≡ Some (Number 0x1002abcd) }
    ensures none { value_in forms.Hex (codes "0x") ≡ None }
    ensures nine { value_in forms.Hex (codes "0x010020000") ≡ None }
    ensures no_prefix { value_in forms.Hex (codes "10020000") ≡ None }
    ensures other_prefix { value_in forms.Hex (codes "0X10020000") ≡ None }
    ensures row { value_in forms.OtpRow (codes "0xFFF") ≡ Some (Number 4095) }
    ensures row_of_four { value_in forms.OtpRow (codes "0x0c00") ≡ None }
    ensures range { value_in forms.Span (codes "0x1+0x02") ≡ Some (Span 1 2) }
    ensures no_size { value_in forms.Span (codes "0x1+") ≡ None }
    ensures three { value_in forms.Span (codes "0x1+0x2+0x3") ≡ None }
    ensures some { value_in forms.SomeSpan (codes "0x1+0x1") ≡ Some (Span 1 1) }
    ensures empty { value_in forms.SomeSpan (codes "0x1+0x0") ≡ None }
    ensures rest { value_in forms.Rest (codes "0x1+") ≡ Some (Number 1) }
    ensures two_signs { value_in forms.Rest (codes "0x1++") ≡ None }
    ensures family { value_in forms.Family (codes "family=0x1") ≡ Some (Number 1) }
    ensures family_name { value_in forms.Family (codes "family=data") ≡ Some (Number 0xe48bff58) }
    ensures no_family { value_in forms.Family (codes "family=") ≡ None }
{}

/// Both sides of each bound of bytes.
pub fn bytes_of_words()
    ensures either_case { value_in (forms.Bytes 1 2) (codes "aBc0")
        ≡ Some (Bytes (0xab ∷ 0xc0 ∷ [])) }
    ensures odd { value_in (forms.Bytes 1 2) (codes "abc") ≡ None }
    ensures more { value_in (forms.Bytes 1 2) (codes "abcdef") ≡ None }
    ensures fewer { value_in (forms.Bytes 2 2) (codes "ab") ≡ None }
    ensures dash { value_in (forms.Bytes 1 2) (codes "-") ≡ None }
{}

/// Lines of records, and tokens.
pub fn lines_that_are_read()
    ensures power { read (codes "power") ≡ Ok (said rows.Power [] None) }
    ensures erase { read (codes "erase 0x1+0x2") ≡ Ok (said rows.Erase (Span 1 2 ∷ []) None) }
    ensures token { read (codes "exit-xip token=0x5") ≡ Ok (said rows.ExitXip [] (Some 5)) }
    ensures rest { read (codes "write 0x1 image 0x2+")
        ≡ Ok (said rows.WriteRest (Number 1 ∷ Plain ∷ Number 2 ∷ []) None) }
    ensures range { read (codes "write 0x1 image 0x2+0x3")
        ≡ Ok (said rows.WriteRange (Number 1 ∷ Plain ∷ Span 2 3 ∷ []) None) }
    ensures rows { read (codes "otp-write 0xc0 0x1 0x2")
        ≡ Ok (said rows.OtpWrite (Number 0xc0 ∷ Number 1 ∷ Number 2 ∷ []) None) }
    ensures info { read (codes "info partition=2 9")
        ≡ Ok (said rows.InfoPartition (Number 2 ∷ Number 9 ∷ []) None) }
{}

/// The first fault of a line, also where it has two.
pub fn lines_with_faults()
    ensures word { read (codes "Power") ≡ Err faults.Word }
    ensures words { read (codes "power on") ≡ Err faults.Words }
    ensures value { read (codes "exclusive 256") ≡ Err (faults.Value 2) }
    ensures word_before_words { read (codes "poweron on") ≡ Err faults.Word }
    ensures words_before_value { read (codes "erase zz zz") ≡ Err faults.Words }
    ensures first_value { read (codes "uf2 1 of x at 1 family=0x1 00") ≡ Err (faults.Value 4) }
    ensures value_before_token { read (codes "exclusive 256 token=5") ≡ Err (faults.Value 2) }
    ensures token { read (codes "exclusive 255 token=5") ≡ Err (faults.Value 3) }
    ensures empty_token { read (codes "exit-xip token=") ≡ Err (faults.Value 2) }
    ensures two_tokens { read (codes "exit-xip token=0x1 token=0x1") ≡ Err faults.Words }
    ensures token_in_place { read (codes "otp-write 0x0c0 token=0x1") ≡ Err faults.Words }
    ensures token_of_reset { read (codes "reset normal token=0x1") ≡ Err faults.Words }
    ensures kind { read (codes "reset Normal") ≡ Err (faults.Value 2) }
    ensures rest { read (codes "write 0x1 image 0x2+0x") ≡ Err (faults.Value 4) }
    ensures image { read (codes "write 0x1 0x2 0x3") ≡ Err (faults.Value 3) }
{}

/// Both sides of the end of an image.
pub fn bytes_of_images()
    ensures range { made rows.WriteRange (Number 0 ∷ Plain ∷ Span 1 2 ∷ []) 1 (7 ∷ 8 ∷ 9 ∷ [])
        ≡ Some (sent 5 8 2 0 2 0 0 (8 ∷ 9 ∷ [])) }
    ensures past { made rows.WriteRange (Number 0 ∷ Plain ∷ Span 1 3 ∷ []) 1 (7 ∷ 8 ∷ 9 ∷ [])
        ≡ None }
    ensures rest { made rows.WriteRest (Number 0 ∷ Plain ∷ Number 2 ∷ []) 1 (7 ∷ 8 ∷ 9 ∷ [])
        ≡ Some (sent 5 8 1 0 1 0 0 (9 ∷ [])) }
    ensures rest_at_end { made rows.WriteRest (Number 0 ∷ Plain ∷ Number 3 ∷ []) 1
        (7 ∷ 8 ∷ 9 ∷ []) ≡ None }
    ensures no_image { made rows.WriteRest (Number 0 ∷ Plain ∷ Number 0 ∷ []) 1 [] ≡ None }
{}

/// The line of each record.
pub fn lines_of_records()
    ensures power { listed PowerOn ≡ codes "power" }
    ensures normal { listed (Reset Normal) ≡ codes "reset normal" }
    ensures bootsel { listed (Reset Bootsel) ≡ codes "reset bootsel" }
    ensures update { listed (Reset (Update 0x1002abcd)) ≡ codes "reset update=0x1002abcd" }
    ensures before { listed (Cut 0 false []) ≡ codes "cut 0 before" }
    ensures within { listed (Cut 4294967295 true (0xa5 ∷ 0x0f ∷ []))
        ≡ codes "cut 4294967295 within a50f" }
    ensures buy { listed Buy ≡ codes "buy" }
    ensures end { listed End ≡ codes "end" }
    ensures exclusive { listed (sent 1 1 0 2 0 0 0 []) ≡ codes "exclusive 2" }
    ensures erase { listed (sent 3 8 0 0x10020000 0x1000 0 0 [])
        ≡ codes "erase 0x10020000+0x00001000" }
    ensures read { listed (sent 0x84 8 0x1c 0x20000000 0x1c 0 0 [])
        ≡ codes "read 0x20000000+0x0000001c" }
    ensures write { listed (sent 5 8 2 0x10004000 2 0 0 (1 ∷ 0xab ∷ []))
        ≡ codes "write 0x10004000 01ab" }
    ensures exit_xip { listed (sent 6 0 0 0 0 0 0 []) ≡ codes "exit-xip" }
    ensures enter_xip { listed (sent 7 0 0 0 0 0 0 []) ≡ codes "enter-xip" }
    ensures reboot { listed (sent 0x0a 16 0 0 0 0 0 []) ≡ codes "reboot normal" }
    ensures reboot_bootsel { listed (sent 0x0a 16 0 2 0 0 0 []) ≡ codes "reboot bootsel" }
    ensures reboot_update { listed (sent 0x0a 16 0 4 0 0x10004000 0 [])
        ≡ codes "reboot update=0x10004000" }
    ensures reboot_ram { listed (sent 0x0a 16 0 3 0 0x20000000 0x1c [])
        ≡ codes "reboot ram=0x20000000+0x0000001c" }
    ensures otp_read { listed (sent 0x8c 5 12 0x000300c0 0 0 0 []) ≡ codes "otp-read 0x0c0 3" }
    ensures otp_write { listed (sent 0x0d 5 4 0x00010048 0 0 0 (2 ∷ 0 ∷ 0 ∷ 0 ∷ []))
        ≡ codes "otp-write 0x048 0x00000002" }
    ensures info_table { listed (sent 0x8b 16 256 1 0 0 0 []) ≡ codes "info table 256" }
    ensures info_target { listed (sent 0x8b 16 16 2 0xe48bff59 0 0 [])
        ≡ codes "info target=0xe48bff59 16" }
    ensures info_device { listed (sent 0x8b 16 16 3 0 0 0 []) ≡ codes "info device 16" }
    ensures info_partition { listed (sent 0x8b 16 0 4 4294967295 0 0 [])
        ≡ codes "info partition=4294967295 0" }
{}

/// Commands that no line in words gives: a later reboot, another transfer length, and a byte that is
/// not read.
pub fn lines_by_bytes()
    ensures later { listed (sent 0x0a 16 0 0x104 0 0x10004000 0 [])
        ≡ codes "command 0bd11f43010000000a1000000000000004010000000000000040001000000000" }
    ensures transfer { listed (sent 5 8 3 0x10004000 2 0 0 (1 ∷ 0xab ∷ []))
        ≡ codes "command 0bd11f4301000000050800000300000000400010020000000000000000000000 01ab" }
    ensures unread { listed (sent 6 0 0 0 0 0 1 [])
        ≡ codes "command 0bd11f4301000000060000000000000000000000000000000000000001000000" }
{}
