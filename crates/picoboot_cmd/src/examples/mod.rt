//! Worked examples of commands: each check, both sides of each bound, and commands that fail two
//! checks.

ghost use Rattle.std.specs.Prelude.{◌≡◌, ◌*◌, ◌-◌, Err, None, Ok, Some, [], ◌∷◌, ◌++◌, false, replicate, true};
ghost use Rattle.pico_board.specs.declared.BootKind.TheVariants.{Bootsel, Normal, Update};
ghost use Rattle.pico_board.specs.declared.Step.TheVariants.{Erase, Program, Raise};
ghost use Rattle.part_table.specs.Examples.{guarded_table};
ghost use Rattle.picoboot_cmd.specs.declared.cmd.CmdFault.TheVariants.{Magic};
ghost use Rattle.picoboot_cmd.specs.Arguments.{address, ecc, first_row, reboot_flags, reboot_p0, reboot_p1, row_count, size};
ghost use Rattle.picoboot_cmd.specs.Commands.{command_in, written_command};
ghost use Rattle.picoboot_cmd.specs.Examples.{answer, busy_answer, command, erase_command, guarded_answer, otp_read_command, otp_write_command, plain_command, padded_range_args, read_command, reboot_command, row_args, unread_answer, word, write_command};
ghost use Rattle.part_table.specs.Sound.{IsSoundFor};
ghost use Rattle.picoboot_cmd.specs.WellFormed.{IsErase, IsReboot, IsWrite};
ghost use Rattle.picoboot_cmd.specs.Served.{boot_of, reply_of, command_steps};

/// The bytes of an erase of one sector.
pub fn bytes_of_an_erase()
    ensures written { written_command (erase_command 0x10020000 4096)
        ≡ 0x0b ∷ 0xd1 ∷ 0x1f ∷ 0x43 ∷ 1 ∷ 0 ∷ 0 ∷ 0 ∷ 3 ∷ 8 ∷ 0 ∷ 0 ∷ 0 ∷ 0 ∷ 0 ∷ 0
        ∷ 0 ∷ 0 ∷ 2 ∷ 0x10 ∷ 0 ∷ 0x10 ∷ 0 ∷ 0 ∷ replicate 8 0xaa }
    ensures read { command_in (0x0b ∷ 0xd1 ∷ 0x1f ∷ 0x43 ∷ 1 ∷ 0 ∷ 0 ∷ 0 ∷ 3 ∷ 8 ∷ 0x55 ∷ 0x66
        ∷ 0 ∷ 0 ∷ 0 ∷ 0 ∷ padded_range_args 0x10020000 4096) ≡ Ok (erase_command 0x10020000 4096) }
    ensures transfer { command_in (0x0b ∷ 0xd1 ∷ 0x1f ∷ 0x43 ∷ 1 ∷ 0 ∷ 0 ∷ 0 ∷ 0x84 ∷ 8 ∷ 0x55
        ∷ 0x66 ∷ 2 ∷ 1 ∷ 0 ∷ 0 ∷ padded_range_args 0x10020000 258)
        ≡ Ok (read_command 0x10020000 258) }
    ensures other { command_in (0x0c ∷ 0xd1 ∷ 0x1f ∷ 0x43 ∷ replicate 28 0) ≡ Err Magic }
{}

/// The ids that there are, and ids next to them.
pub fn ids()
    ensures exclusive { answer (plain_command 1 1 0) [] ≡ 0 }
    ensures exit_xip { answer (plain_command 6 0 0) [] ≡ 0 }
    ensures enter_xip { answer (plain_command 7 0 0) [] ≡ 0 }
    ensures zero { answer (plain_command 0 0 0) [] ≡ 1 }
    ensures two { answer (plain_command 2 0 0) [] ≡ 1 }
    ensures eight { answer (plain_command 8 0 0) [] ≡ 1 }
    ensures hex_55 { answer (plain_command 0x55 0 0) [] ≡ 1 }
    ensures info { answer (plain_command 0x8b 16 0) [] ≡ 1 }
{}

/// The argument size of each command, and sizes next to it.
pub fn argument_sizes()
    ensures exclusive_none { answer (plain_command 1 0 0) [] ≡ 2 }
    ensures exclusive_two { answer (plain_command 1 2 0) [] ≡ 2 }
    ensures erase_seven { answer (command 3 7 0 (padded_range_args 0x10000000 4096)) [] ≡ 2 }
    ensures erase_nine { answer (command 3 9 0 (padded_range_args 0x10000000 4096)) [] ≡ 2 }
    ensures read_seven { answer (command 0x84 7 0 (padded_range_args 0x10000000 0)) [] ≡ 2 }
    ensures write_nine { answer (command 5 9 0 (padded_range_args 0x10000000 0)) [] ≡ 2 }
    ensures exit_one { answer (plain_command 6 1 0) [] ≡ 2 }
    ensures enter_one { answer (plain_command 7 1 0) [] ≡ 2 }
    ensures reboot_fifteen { answer (plain_command 10 15 0) [] ≡ 2 }
    ensures otp_read_four { answer (plain_command 0x8c 4 0) [] ≡ 2 }
    ensures otp_write_six { answer (plain_command 13 6 0) [] ≡ 2 }
{}

/// The transfer length and the payload of each command, and lengths next to these.
#[tactic(auto, unfolding(block_codec::specs::Words::word_of))]
pub fn transfer_lengths()
    ensures write { answer (write_command 0x10000000 3) (1 ∷ 2 ∷ 3 ∷ []) ≡ 0 }
    ensures write_shorter { answer (write_command 0x10000000 3) (1 ∷ 2 ∷ []) ≡ 3 }
    ensures write_longer { answer (write_command 0x10000000 3) (1 ∷ 2 ∷ 3 ∷ 4 ∷ []) ≡ 3 }
    ensures write_size { answer (command 5 8 2 (padded_range_args 0x10000000 3)) (1 ∷ 2 ∷ []) ≡ 3 }
    ensures read { answer (read_command 0x10000001 3) [] ≡ 0 }
    ensures read_size { answer (command 0x84 8 2 (padded_range_args 0x10000000 3)) [] ≡ 3 }
    ensures read_payload { answer (read_command 0x10000000 1) (1 ∷ []) ≡ 3 }
    ensures erase { answer (command 3 8 1 (padded_range_args 0x10000000 4096)) [] ≡ 3 }
    ensures erase_payload { answer (erase_command 0x10000000 4096) (0 ∷ []) ≡ 3 }
    ensures exclusive { answer (plain_command 1 1 1) [] ≡ 3 }
    ensures exit { answer (plain_command 6 0 1) [] ≡ 3 }
    ensures enter { answer (plain_command 7 0 0) (0 ∷ []) ≡ 3 }
    ensures reboot { answer (plain_command 10 16 1) [] ≡ 3 }
    ensures otp_read { answer (otp_read_command 0x0c0 1 0) [] ≡ 0 }
    ensures otp_read_size { answer (command 0x8c 5 3 (row_args 0x0c0 1 0)) [] ≡ 3 }
    ensures otp_read_payload { answer (otp_read_command 0x0c0 1 0) (word 7) ≡ 3 }
    ensures otp_write { answer (otp_write_command 0x0c0 1 0) (word 7) ≡ 0 }
    ensures otp_write_payload { answer (otp_write_command 0x0c0 1 0) [] ≡ 3 }
    ensures otp_write_size { answer (command 13 5 8 (row_args 0x0c0 1 0)) (word 7 ++ word 7) ≡ 3 }
{}

/// The words of a range and of a reboot, in their places. The row and the number of rows, in two
/// bytes each.
pub fn places_of_arguments()
    ensures at { address (erase_command 0x12345678 0x9abcdef0) ≡ 0x12345678 }
    ensures long { size (erase_command 0x12345678 0x9abcdef0) ≡ 0x9abcdef0 }
    ensures flags { reboot_flags (reboot_command 0x01020304 0x05060708) ≡ 0x01020304 }
    ensures p0 { reboot_p0 (reboot_command 0x01020304 0x05060708) ≡ 0x05060708 }
    ensures p1 { reboot_p1 (reboot_command 0x01020304 0x05060708) ≡ 0x9abcdef0 }
    ensures row { first_row (otp_read_command 0x0102 0x0304 5) ≡ 0x0102 }
    ensures rows { row_count (otp_read_command 0x0102 0x0304 5) ≡ 0x0304 }
    ensures corrected { ecc (otp_read_command 0x0102 0x0304 5) ≡ 5 }
{}

/// Whole sectors of an erase, and the page that a write begins with; a read may begin anywhere.
pub fn alignment()
    ensures erase { answer (erase_command 0x10001000 0x2000) [] ≡ 0 }
    ensures erase_address { answer (erase_command 0x10001100 0x1000) [] ≡ 5 }
    ensures erase_size { answer (erase_command 0x10001000 0x1100) [] ≡ 5 }
    ensures half_sector { answer (erase_command 0x10001800 0x1000) [] ≡ 5 }
    ensures half_size { answer (erase_command 0x10001000 0x1800) [] ≡ 5 }
    ensures write { answer (write_command 0x10000100 1) (0 ∷ []) ≡ 0 }
    ensures write_address { answer (write_command 0x10000180 1) (0 ∷ []) ≡ 5 }
{}

/// The ends of the flash, with a size and with the size 0, and the ends of the OTP.
#[tactic(auto, unfolding(block_codec::specs::Words::word_of))]
pub fn ends()
    ensures read_last { answer (read_command 0x1003ffff 1) [] ≡ 0 }
    ensures read_past { answer (read_command 0x1003ffff 2) [] ≡ 4 }
    ensures read_before { answer (read_command 0x0fffffff 1) [] ≡ 4 }
    ensures read_none_at_end { answer (read_command 0x10040000 0) [] ≡ 0 }
    ensures read_none_past { answer (read_command 0x10040001 0) [] ≡ 4 }
    ensures read_none_at_start { answer (read_command 0x10000000 0) [] ≡ 0 }
    ensures read_none_before { answer (read_command 0x0fffffff 0) [] ≡ 4 }
    ensures read_wrapping { answer (read_command 0xfffffff0 0x20) [] ≡ 4 }
    ensures erase_last { answer (erase_command 0x1003f000 0x1000) [] ≡ 0 }
    ensures erase_past { answer (erase_command 0x1003f000 0x2000) [] ≡ 4 }
    ensures write_last { answer (write_command 0x1003ff00 2) (0 ∷ 0 ∷ []) ≡ 0 }
    ensures write_past { answer (write_command 0x10040000 2) (0 ∷ 0 ∷ []) ≡ 4 }
    ensures otp_read_last { answer (otp_read_command 4095 1 0) [] ≡ 0 }
    ensures otp_read_past { answer (otp_read_command 4095 2 0) [] ≡ 4 }
    ensures otp_read_none { answer (otp_read_command 4096 0 0) [] ≡ 0 }
    ensures otp_read_none_past { answer (otp_read_command 4097 0 0) [] ≡ 4 }
    ensures otp_write_last { answer (otp_write_command 4095 1 0) (word 7) ≡ 0 }
    ensures otp_write_past { answer (otp_write_command 4096 1 0) (word 7) ≡ 4 }
{}

/// The arguments that commands take, and values next to them.
#[tactic(auto, unfolding(block_codec::specs::Words::word_of))]
pub fn arguments()
    ensures exclusive { answer (command 1 1 0 (2 ∷ replicate 15 0xaa)) [] ≡ 0 }
    ensures exclusive_three { answer (command 1 1 0 (3 ∷ replicate 15 0xaa)) [] ≡ 11 }
    ensures normal { answer (reboot_command 0 0) [] ≡ 0 }
    ensures bootsel { answer (reboot_command 2 0) [] ≡ 0 }
    ensures update { answer (reboot_command 4 0x10020000) [] ≡ 0 }
    ensures later { answer (reboot_command 0x104 0x10020000) [] ≡ 0 }
    ensures ram { answer (reboot_command 3 0x20000000) [] ≡ 11 }
    ensures ram_later { answer (reboot_command 0x103 0x20000000) [] ≡ 11 }
    ensures one { answer (reboot_command 1 0) [] ≡ 11 }
    ensures five { answer (reboot_command 5 0) [] ≡ 11 }
    ensures eight { answer (reboot_command 8 0) [] ≡ 11 }
    ensures bit_four { answer (reboot_command 0x10 0) [] ≡ 11 }
    ensures bit_seven { answer (reboot_command 0x80 0) [] ≡ 11 }
    ensures bit_nine { answer (reboot_command 0x200 0) [] ≡ 11 }
    ensures two_bits { answer (reboot_command 0x300 0) [] ≡ 11 }
    ensures highest_bit { answer (reboot_command 0x80000000 0) [] ≡ 11 }
    ensures otp_read_ecc { answer (otp_read_command 0x0c0 1 1) [] ≡ 11 }
    ensures otp_write_ecc { answer (otp_write_command 0x0c0 1 1) (word 7) ≡ 11 }
    ensures otp_write_widest { answer (otp_write_command 0x0c0 1 0) (word 0xffffff) ≡ 0 }
    ensures otp_write_wide { answer (otp_write_command 0x0c0 1 0) (word 0x1000003) ≡ 11 }
    ensures otp_write_later { answer (otp_write_command 0x0c0 2 0) (word 3 ++ word 0x1000000)
        ≡ 11 }
{}

/// Sectors that may not be written, and that may not be read: the first and the last that a range
/// touches, and those next to the range.
pub fn rights()
    ensures write { guarded_answer (write_command 0x10002000 1) (0 ∷ []) ≡ 10 }
    ensures write_allowed { guarded_answer (write_command 0x10020000 1) (0 ∷ []) ≡ 0 }
    ensures write_none { guarded_answer (write_command 0x10002000 0) [] ≡ 0 }
    ensures read { guarded_answer (read_command 0x10002000 1) [] ≡ 0 }
    ensures erase { guarded_answer (erase_command 0x1001f000 0x1000) [] ≡ 10 }
    ensures erase_first { guarded_answer (erase_command 0x1001f000 0x2000) [] ≡ 10 }
    ensures erase_allowed { guarded_answer (erase_command 0x10020000 0x1e000) [] ≡ 0 }
    ensures erase_last { guarded_answer (erase_command 0x10020000 0x1f000) [] ≡ 10 }
    ensures unread { unread_answer (read_command 0x1001ffff 1) [] ≡ 10 }
    ensures unread_two { unread_answer (read_command 0x1001ffff 2) [] ≡ 10 }
    ensures unread_beside { unread_answer (read_command 0x10020000 0x1e000) [] ≡ 0 }
    ensures unread_end { unread_answer (read_command 0x10020000 0x1e001) [] ≡ 10 }
    ensures unread_none { unread_answer (read_command 0x1001ffff 0) [] ≡ 0 }
    ensures unread_write { unread_answer (write_command 0x10002000 1) (0 ∷ []) ≡ 0 }
{}

/// Words that lack a bit that is raised in their row.
#[tactic(auto, unfolding(block_codec::specs::Words::word_of))]
pub fn raised_bits()
    ensures lacks { answer (otp_write_command 0x0c0 1 0) (word 1) ≡ 17 }
    ensures same { answer (otp_write_command 0x0c0 1 0) (word 3) ≡ 0 }
    ensures more { answer (otp_write_command 0x0c0 1 0) (word 7) ≡ 0 }
    ensures other { answer (otp_write_command 0x0bf 1 0) (word 0) ≡ 0 }
    ensures second { answer (otp_write_command 0x0bf 2 0) (word 0 ++ word 4) ≡ 17 }
{}

/// While a download is busy the three commands that do steps are refused, and no other is.
pub fn busy()
    ensures erase { busy_answer (erase_command 0x10000000 4096) [] ≡ 9 }
    ensures write { busy_answer (write_command 0x10000000 1) (0 ∷ []) ≡ 9 }
    ensures otp_write { busy_answer (otp_write_command 0x0c0 1 0) (word 7) ≡ 9 }
    ensures exclusive { busy_answer (plain_command 1 1 0) [] ≡ 0 }
    ensures read { busy_answer (read_command 0x10000000 1) [] ≡ 0 }
    ensures exit { busy_answer (plain_command 6 0 0) [] ≡ 0 }
    ensures reboot { busy_answer (reboot_command 0 0) [] ≡ 0 }
    ensures otp_read { busy_answer (otp_read_command 0x0c0 1 0) [] ≡ 0 }
    ensures unknown { busy_answer (plain_command 0x55 0 0) [] ≡ 1 }
{}

/// Commands that fail two checks, for each two neighbouring checks that one command can fail.
#[tactic(auto, unfolding(block_codec::specs::Words::word_of))]
pub fn the_first_of_two()
    ensures busy_and_length { busy_answer (plain_command 3 7 0) [] ≡ 9 }
    ensures busy_and_right { busy_answer (write_command 0x10002001 1) [] ≡ 9 }
    ensures id_and_length { answer (plain_command 0x55 1 0) [] ≡ 1 }
    ensures id_and_transfer { answer (plain_command 0x55 0 1) [] ≡ 1 }
    ensures length_and_transfer { answer (plain_command 1 2 1) [] ≡ 2 }
    ensures transfer_and_alignment { answer (command 5 8 2 (padded_range_args 0x10000001 1))
        (0 ∷ 0 ∷ [])
        ≡ 3 }
    ensures transfer_and_address { answer (command 0x84 8 2 (padded_range_args 0 1)) [] ≡ 3 }
    ensures transfer_and_argument { answer (command 1 1 1 (3 ∷ replicate 15 0)) [] ≡ 3 }
    ensures alignment_and_address { answer (write_command 0x10040001 1) (0 ∷ []) ≡ 5 }
    ensures alignment_and_right { guarded_answer (write_command 0x10002001 1) (0 ∷ []) ≡ 5 }
    ensures address_and_right { guarded_answer (erase_command 0x1003f000 0x2000) [] ≡ 4 }
    ensures address_and_argument { answer (otp_read_command 4096 1 1) [] ≡ 4 }
    ensures address_and_bits { answer (otp_write_command 0x0c0 0xfff 0) [] ≡ 3 }
    ensures argument_and_bits { answer (otp_write_command 0x0c0 1 1) (word 1) ≡ 11 }
    ensures wide_and_bits { answer (otp_write_command 0x0c0 1 0) (word 0x1000001) ≡ 11 }
{}

/// The steps of an erase, of a write whose last page is filled with 0, and of a write of rows. A
/// size of 0 has no steps.
#[tactic(auto, unfolding(block_codec::specs::Words::word_of, crate::specs::Pages::padded_page))]
pub fn steps()
    ensures erase { command_steps (erase_command 0x10020000 0x2000) [] ≡ Erase 32 ∷ Erase 33 ∷ [] }
    ensures erase_none { command_steps (erase_command 0x10020000 0) [] ≡ [] }
    ensures write { command_steps (write_command 0x10020100 258)
        (replicate 256 0xa5 ++ (1 ∷ 2 ∷ []))
        ≡ Program 0x201 (replicate 256 0xa5) ∷ Program 0x202 (1 ∷ 2 ∷ replicate 254 0) ∷ [] }
    ensures write_page { command_steps (write_command 0x10020100 256) (replicate 256 0xa5)
        ≡ Program 0x201 (replicate 256 0xa5) ∷ [] }
    ensures write_none { command_steps (write_command 0x10020100 0) [] ≡ [] }
    ensures rows { command_steps (otp_write_command 0x0c0 2 0) (word 7 ++ word 0x10203)
        ≡ Raise 0x0c0 7 ∷ Raise 0x0c1 0x10203 ∷ [] }
    ensures read { command_steps (read_command 0x10020000 1) [] ≡ [] }
    ensures reboot { command_steps (reboot_command 0 0) [] ≡ [] }
{}

/// The replies of reads, and the boots that reboots ask for.
#[tactic(auto, unfolding(block_codec::specs::Words::word_bytes))]
pub fn replies_and_boots()
    ensures read { reply_of (record { flash = 0xa ∷ 0xb ∷ 0xc ∷ 0xd ∷ []; otp = [] })
        (read_command 0x10000001 2) ≡ 0xb ∷ 0xc ∷ [] }
    ensures rows { reply_of (record { flash = []; otp = 0 ∷ 0x10203 ∷ 7 ∷ [] })
        (otp_read_command 1 2 0) ≡ 3 ∷ 2 ∷ 1 ∷ 0 ∷ 7 ∷ 0 ∷ 0 ∷ 0 ∷ [] }
    ensures erase { reply_of (record { flash = 1 ∷ []; otp = [] }) (erase_command 0x10000000 0)
        ≡ [] }
    ensures normal { boot_of (reboot_command 0x100 7) ≡ Some Normal }
    ensures bootsel { boot_of (reboot_command 2 7) ≡ Some Bootsel }
    ensures update { boot_of (reboot_command 4 0x10020000) ≡ Some (Update 0x10020000) }
    ensures later_bootsel { boot_of (reboot_command 0x102 7) ≡ Some Bootsel }
    ensures later_update { boot_of (reboot_command 0x104 0x10020000) ≡ Some (Update 0x10020000) }
    ensures xip { boot_of (plain_command 7 0 0) ≡ None }
{}

/// A table is sound for a flash that holds its last sector, and for no shorter one.
pub fn a_table_that_fits()
    ensures whole { IsSoundFor (Some guarded_table) (62 * 4096) }
    ensures shorter { ¬ (IsSoundFor (Some guarded_table) (62 * 4096 - 1)) }
    ensures none { IsSoundFor None 0 }
{}

/// Well-formed commands: on the last bytes of a flash of 262,144 bytes, on no byte, and on the
/// first and the last sector and page that may be written.
pub fn well_formed_commands()
    ensures erase { IsErase 262144 None 32 32 (erase_command 0x10020000 0x20000) }
    ensures erase_none { IsErase 262144 None 64 0 (erase_command 0x10040000 0) }
    ensures erase_first { IsErase 262144 (Some guarded_table) 32 1
        (erase_command 0x10020000 0x1000) }
    ensures erase_last { IsErase 262144 (Some guarded_table) 61 1
        (erase_command 0x1003d000 0x1000) }
    ensures write { IsWrite 262144 None 1023 (1 ∷ 2 ∷ []) (write_command 0x1003ff00 2) }
    ensures write_first { IsWrite 262144 (Some guarded_table) 512 (replicate 256 0)
        (write_command 0x10020000 256) }
    ensures write_right { IsWrite 262144 (Some guarded_table) 991 (replicate 256 0)
        (write_command 0x1003df00 256) }
    ensures reboot { IsReboot (reboot_command 4 0x10020000) }
{}

/// No well-formed commands: those on the sector before and on the sector after those that may be
/// written, and those that pass the end of the flash.
pub fn commands_that_are_not_well_formed()
    ensures erase_before { ¬ (IsErase 262144 (Some guarded_table) 31 1
        (erase_command 0x1001f000 0x1000)) }
    ensures erase_behind { ¬ (IsErase 262144 (Some guarded_table) 61 2
        (erase_command 0x1003d000 0x2000)) }
    ensures erase_past { ¬ (IsErase 262144 None 63 2 (erase_command 0x1003f000 0x2000)) }
    ensures write_before { ¬ (IsWrite 262144 (Some guarded_table) 511 (replicate 256 0)
        (write_command 0x1001ff00 256)) }
    ensures write_behind { ¬ (IsWrite 262144 (Some guarded_table) 991 (replicate 257 0)
        (write_command 0x1003df00 257)) }
    ensures write_past { ¬ (IsWrite 262144 None 1023 (replicate 257 0)
        (write_command 0x1003ff00 257)) }
{}
