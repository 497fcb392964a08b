//! Worked examples of the text form, proved by computing: what the comment of each record says; and
//! texts with two faults.

ghost use Rattle.std.specs.Prelude.{◌≡◌, [], ◌∷◌, ◌++◌, Err, Ok, codes, false, replicate, true};
ghost use Rattle.pico_board.specs.declared.BootKind.TheVariants.{Bootsel, Update};
ghost use Rattle.picoboot_cmd.specs.Examples.{padded_range_args, row_args};
ghost use Rattle.uf2_place.specs.declared.block.TheConstants.{START};
ghost use Rattle.boot_script.specs.Events.{Buy, Command, PowerOn, Reset};
ghost use Rattle.script_words.specs.declared.fault.LineFault.TheVariants as faults;
ghost use Rattle.script_text.specs.declared.script.TheConstants.{MOST_RECORDS, TEXT_LIMIT};
ghost use Rattle.script_text.specs.declared.script.TextError.TheVariants.{Line};
ghost use Rattle.script_text.specs.declared.script.TextFault.TheVariants.{BehindEnd, Image, TooLong, TooMany, Words};
ghost use Rattle.script_text.specs.Comments.{command_text};
ghost use Rattle.script_text.specs.Listing.{listed};
ghost use Rattle.script_text.specs.Meaning.{IsWithinLimits};
ghost use Rattle.script_text.specs.Reading.{Adds_event, Ends, Passed, lines_of, script_of, text_events, token_behind};
ghost use Rattle.script_text.specs.Examples.{before, block_note, info_note, note, reboot_note, step};

/// What the comment of each command says. A command with another argument size than its own is
/// just a command. So is one with an id that is none of theirs.
pub fn comments_of_commands()
    ensures exclusive { note 0x01 1 (2 ∷ replicate 15 0) ≡ codes "exclusive 2 token=0x00000001" }
    ensures erase { note 0x03 8 (padded_range_args 0x10020000 0x1000)
        ≡ codes "erase 0x10020000+0x00001000 token=0x00000001" }
    ensures read { note 0x84 8 (padded_range_args 0x20000000 0x1c)
        ≡ codes "read 0x20000000+0x0000001c token=0x00000001" }
    ensures write { note 0x05 8 (padded_range_args 0x10004000 3)
        ≡ codes "write 0x10004000+0x00000003 token=0x00000001" }
    ensures exit_xip { note 0x06 0 (replicate 16 0) ≡ codes "exit-xip token=0x00000001" }
    ensures enter_xip { note 0x07 0 (replicate 16 0) ≡ codes "enter-xip token=0x00000001" }
    ensures otp_read { note 0x8c 5 (row_args 0x0c0 3 0)
        ≡ codes "otp-read row=0x0c0 count=3 ecc=0 token=0x00000001" }
    ensures otp_write { note 0x0d 5 (row_args 0xffff 0 1)
        ≡ codes "otp-write row=0xffff count=0 ecc=1 token=0x00000001" }
    ensures another { note 0x55 0 (replicate 16 0) ≡ codes "command 0x55 token=0x00000001" }
    ensures another_size { note 0x03 7 (padded_range_args 0x10020000 0x1000)
        ≡ codes "command 0x03 token=0x00000001" }
    ensures info_size { note 0x8b 8 (replicate 16 0) ≡ codes "command 0x8b token=0x00000001" }
    ensures bad_magic { command_text (replicate 32 0) ≡ codes "command bad-magic" }
{}

/// Reboots by their flags; bit 8 makes no difference.
pub fn comments_of_reboots()
    ensures normal { reboot_note 0 ≡ codes "reboot normal token=0x00000001" }
    ensures normal_later { reboot_note 0x100 ≡ codes "reboot normal token=0x00000001" }
    ensures bootsel { reboot_note 2 ≡ codes "reboot bootsel token=0x00000001" }
    ensures bootsel_later { reboot_note 0x102 ≡ codes "reboot bootsel token=0x00000001" }
    ensures update { reboot_note 4 ≡ codes "reboot update=0x20000000 token=0x00000001" }
    ensures update_later { reboot_note 0x104 ≡ codes "reboot update=0x20000000 token=0x00000001" }
    ensures ram { reboot_note 3 ≡ codes "reboot ram=0x20000000+0x0000001c token=0x00000001" }
    ensures ram_later { reboot_note 0x103
        ≡ codes "reboot ram=0x20000000+0x0000001c token=0x00000001" }
    ensures others { reboot_note 0x204 ≡ codes "reboot flags=0x00000204 token=0x00000001" }
    ensures one { reboot_note 1 ≡ codes "reboot flags=0x00000001 token=0x00000001" }
{}

/// Info commands by their kind.
pub fn comments_of_infos()
    ensures table { info_note 1 0 ≡ codes "info table token=0x00000001" }
    ensures target { info_note 2 0xe48bff59 ≡ codes "info target=0xe48bff59 token=0x00000001" }
    ensures device { info_note 3 0 ≡ codes "info device token=0x00000001" }
    ensures partition { info_note 4 4294967295
        ≡ codes "info partition=4294967295 token=0x00000001" }
    ensures zero { info_note 0 7 ≡ codes "info kind=0 token=0x00000001" }
    ensures five { info_note 5 7 ≡ codes "info kind=5 token=0x00000001" }
{}

/// UF2 blocks, and the first fault of one that has two.
pub fn comments_of_blocks()
    ensures block { block_note START 256 0x10000100 1 2
        ≡ codes "uf2 number=1 count=2 address=0x10000100 family=0xe48bff59" }
    ensures magic { block_note 0 128 0x10000100 1 2 ≡ codes "uf2 bad magic" }
    ensures payload { block_note START 128 0x10000001 1 2 ≡ codes "uf2 bad payload" }
    ensures alignment { block_note START 256 0x10000001 2 2 ≡ codes "uf2 bad alignment" }
    ensures number { block_note START 256 0x10000100 2 2 ≡ codes "uf2 bad number" }
{}

/// Events are numbered from 0, behind a line without hexadecimal bytes and above each other one.
pub fn listed_scripts()
    ensures none { listed [] ≡ codes "end\n" }
    ensures two { listed (PowerOn ∷ Reset Bootsel ∷ [])
        ≡ codes "power # 0\nreset bootsel # 1\nend\n" }
    ensures second { listed (PowerOn ∷ Command (replicate 32 0) [] ∷ Buy ∷ [])
        ≡ codes "power # 0\n# 1 command bad-magic\ncommand 00000000000000000000000000000000"
        ++ codes "00000000000000000000000000000000\nbuy # 2\nend\n" }
{}

/// Lines are the pieces between line feeds.
pub fn lines_of_texts()
    ensures none { lines_of [] ≡ [] ∷ [] }
    ensures one { lines_of (codes "buy") ≡ codes "buy" ∷ [] }
    ensures fed { lines_of (codes "buy\n") ≡ codes "buy" ∷ [] ∷ [] }
    ensures two { lines_of (codes "a\n\nb") ≡ codes "a" ∷ [] ∷ codes "b" ∷ [] }
{}

/// The token behind a command is one more than its own, whatever its magic word.
pub fn tokens()
    ensures other { token_behind 7 PowerOn ≡ 7 }
    ensures command { token_behind 7
        (Command (0 ∷ 0 ∷ 0 ∷ 0 ∷ 0x41 ∷ 0 ∷ 0 ∷ 0 ∷ replicate 24 0) []) ≡ 0x42 }
    ensures last { token_behind 7
        (Command (0 ∷ 0 ∷ 0 ∷ 0 ∷ 255 ∷ 255 ∷ 255 ∷ 255 ∷ replicate 24 0) []) ≡ 0 }
{}

/// Lines without words are passed over, and a text needs no end.
pub fn texts()
    ensures none { text_events [] [] ≡ Ok [] }
    ensures comments { text_events [] (codes "#\r\n\n # power\n#end") ≡ Ok [] }
    ensures no_end { text_events [] (codes "\n# power\n\npower") ≡ Ok (PowerOn ∷ []) }
    ensures behind_the_end { text_events [] (codes "buy\nend # 1\n \n# no more\n") ≡ Ok (Buy ∷ []) }
    ensures spaced { text_events [] (codes " reset\tupdate=0x1\r\n") ≡ Ok (Reset (Update 1) ∷ []) }
    ensures first_of_two { text_events [] (codes "power\nno\nneither\n")
        ≡ Err (Line 2 (Words faults.Word)) }
    ensures of_image { text_events [] (codes "buy\nwrite 0x0 image 0x0+\n")
        ≡ Err (Line 2 Image) }
    ensures second_end { text_events [] (codes "end\nend\n") ≡ Err (Line 2 BehindEnd) }
{}

/// Both sides of each limit, and lines with two faults of each neighbouring pair.
pub fn faults_of_lines()
    ensures passed { step (before 524287 67108863 true) (codes " # end") ≡ Ok Passed }
    ensures end { step (before 524287 67108863 false) (codes "end") ≡ Ok Ends }
    ensures last_record { step (before 524286 0 false) (codes "buy") ≡ Ok (Adds_event Buy) }
    ensures too_many { step (before 524287 0 false) (codes "buy") ≡ Err TooMany }
    ensures last_byte { step (before 0 67108862 false) (codes "buy") ≡ Ok (Adds_event Buy) }
    ensures too_long { step (before 0 67108863 false) (codes "buy") ≡ Err TooLong }
    ensures behind_before_word { step (before 0 0 true) (codes "Buy") ≡ Err BehindEnd }
    ensures word_before_words { step (before 0 0 false) (codes "Buy now")
        ≡ Err (Words faults.Word) }
    ensures words_before_value { step (before 0 0 false) (codes "exclusive 256 256")
        ≡ Err (Words faults.Words) }
    ensures value_before_image { step (before 0 0 false) (codes "write 0 image 0x0+")
        ≡ Err (Words (faults.Value 2)) }
    ensures image_before_many { step (before 524287 0 false) (codes "write 0x0 image 0x0+")
        ≡ Err Image }
    ensures many_before_long { step (before 524287 67108863 false) (codes "buy") ≡ Err TooMany }
{}

/// The greatest text, and the most records before an end.
pub fn limits_of_texts()
    ensures text { TEXT_LIMIT ≡ 209715200 }
    ensures records { MOST_RECORDS ≡ 524287 }
    ensures end_alone { script_of [] ≡ 0 ∷ [] }
{}

/// A script has at most 524,287 records before its end, and at most 67,108,864 bytes: a command's
/// record has 37 bytes and its payload, and the end one.
pub fn limits_of_scripts()
    ensures most_records { IsWithinLimits (replicate 524287 PowerOn) }
    ensures one_record_more { IsWithinLimits (replicate 524288 PowerOn) → ⊥ }
    ensures most_bytes { IsWithinLimits
        (Command (replicate 32 0) (replicate 67108826 0) ∷ []) }
    ensures one_byte_more { IsWithinLimits
        (Command (replicate 32 0) (replicate 67108827 0) ∷ []) → ⊥ }
{}
