//! Laws of commands: their bytes; the first check that fails; what is left of the checks for each
//! command; and what well-formed commands do.

ghost use Rattle.std.specs.Prelude.{◌≡◌, ◌≢◌, ◌⊎◌, ◌↔◌, ℕ, ◌+◌, ◌-◌, ◌/◌, ◌<◌, ◌≤◌, All, Bool, Err, List, None, Ok, Option, Some, [], ◌∷◌, ◌++◌, false, is_some, length, replicate, slice_index, take, true};
ghost use Rattle.byteorder.specs.Endian.{little_number};
ghost use Rattle.pico_board.specs.declared.Step.TheVariants.{Program};
ghost use Rattle.pico_board.specs.Content.{Content, IsContent};
ghost use Rattle.pico_board.specs.Steps.{HasBitsOf, IsStepIn};
ghost use Rattle.part_table.specs.declared.table.Right.{Right};
ghost use Rattle.part_table.specs.declared.table.Table.{Table};
ghost use Rattle.part_table.specs.Rights.{allowed_by};
ghost use Rattle.picoboot_cmd.specs.declared.cmd.Cmd.{Cmd};
ghost use Rattle.picoboot_cmd.specs.declared.cmd.CmdFault.TheVariants.{Magic};
ghost use Rattle.picoboot_cmd.specs.declared.kinds.TheConstants.{ENTER_XIP, ERASE, EXCLUSIVE, EXIT_XIP, MAGIC, OTP_READ, OTP_WRITE, READ, REBOOT, UNKNOWN_COMMAND, WRITE};
ghost use Rattle.picoboot_cmd.specs.Arguments.{reboot_flags, reboot_p0, with_args};
ghost use Rattle.picoboot_cmd.specs.ByCommand.{erase_checks, exclusive_checks, otp_read_checks, otp_write_checks, read_checks, reboot_checks, write_checks, xip_checks};
ghost use Rattle.picoboot_cmd.specs.Checks.{IsCheckedStatus, are_reboot_flags, checks, first_failing, is_known, status_of};
ghost use Rattle.picoboot_cmd.specs.Commands.{IsCommand, command_in, written_command};
ghost use Rattle.picoboot_cmd.specs.Pages.{programs};
ghost use Rattle.picoboot_cmd.specs.Rows.{keeps_raised};
ghost use Rattle.picoboot_cmd.specs.Sectors.{erases, range_allowed};
ghost use Rattle.picoboot_cmd.specs.Served.{boot_by, served_on};
ghost use Rattle.picoboot_cmd.specs.WellFormed.{IsErase, IsReboot, IsWrite};

/// What is written for a command is 32 bytes and is read as the same command. What is read as a
/// command has its fields in their ranges. `Magic` comes exactly for another first word.
pub fn commands_are_read_back()
    ensures written { (cmd : Cmd) → IsCommand cmd → command_in (written_command cmd) ≡ Ok cmd }
    ensures long { (cmd : Cmd) → IsCommand cmd → length (written_command cmd) ≡ 32 }
    ensures bytes { (cmd : Cmd) → IsCommand cmd → All (λ b. b < 256) (written_command cmd) }
    ensures read { (bytes : List ℕ) (cmd : Cmd) → length bytes ≡ 32 → All (λ b. b < 256) bytes
        → command_in bytes ≡ Ok cmd → IsCommand cmd }
    ensures fault { (bytes : List ℕ)
        → (command_in bytes ≡ Err Magic) ↔ (little_number 4 bytes ≢ MAGIC) }
{}

/// The status is that of the first check that fails, in the order of the checks, and 0 where none
/// does.
pub fn the_status_is_of_the_first_failing_check()
    ensures { (n : ℕ) (otp : List ℕ) (t : Option Table) (busy : Bool) (cmd : Cmd)
        (payload : List ℕ) (status : ℕ) → (status_of n otp t busy cmd payload ≡ status)
        ↔ IsCheckedStatus (checks n otp t busy cmd payload) status }
{}

/// What is left of the checks for each command; another id is refused as unknown.
pub fn the_checks_of_each_command()
    ensures exclusive { (n : ℕ) (otp : List ℕ) (t : Option Table) (busy : Bool) (cmd : Cmd)
        (payload : List ℕ) → cmd.id ≡ EXCLUSIVE → status_of n otp t busy cmd payload
        ≡ first_failing (exclusive_checks cmd payload) }
    ensures erase { (n : ℕ) (otp : List ℕ) (t : Option Table) (busy : Bool) (cmd : Cmd)
        (payload : List ℕ) → cmd.id ≡ ERASE → status_of n otp t busy cmd payload
        ≡ first_failing (erase_checks n t busy cmd payload) }
    ensures read { (n : ℕ) (otp : List ℕ) (t : Option Table) (busy : Bool) (cmd : Cmd)
        (payload : List ℕ) → cmd.id ≡ READ → status_of n otp t busy cmd payload
        ≡ first_failing (read_checks n t cmd payload) }
    ensures write { (n : ℕ) (otp : List ℕ) (t : Option Table) (busy : Bool) (cmd : Cmd)
        (payload : List ℕ) → cmd.id ≡ WRITE → status_of n otp t busy cmd payload
        ≡ first_failing (write_checks n t busy cmd payload) }
    ensures exit_xip { (n : ℕ) (otp : List ℕ) (t : Option Table) (busy : Bool) (cmd : Cmd)
        (payload : List ℕ) → cmd.id ≡ EXIT_XIP → status_of n otp t busy cmd payload
        ≡ first_failing (xip_checks cmd payload) }
    ensures enter_xip { (n : ℕ) (otp : List ℕ) (t : Option Table) (busy : Bool) (cmd : Cmd)
        (payload : List ℕ) → cmd.id ≡ ENTER_XIP → status_of n otp t busy cmd payload
        ≡ first_failing (xip_checks cmd payload) }
    ensures reboot { (n : ℕ) (otp : List ℕ) (t : Option Table) (busy : Bool) (cmd : Cmd)
        (payload : List ℕ) → cmd.id ≡ REBOOT → status_of n otp t busy cmd payload
        ≡ first_failing (reboot_checks cmd payload) }
    ensures otp_read { (n : ℕ) (otp : List ℕ) (t : Option Table) (busy : Bool) (cmd : Cmd)
        (payload : List ℕ) → cmd.id ≡ OTP_READ → status_of n otp t busy cmd payload
        ≡ first_failing (otp_read_checks cmd payload) }
    ensures otp_write { (n : ℕ) (otp : List ℕ) (t : Option Table) (busy : Bool) (cmd : Cmd)
        (payload : List ℕ) → cmd.id ≡ OTP_WRITE → status_of n otp t busy cmd payload
        ≡ first_failing (otp_write_checks otp busy cmd payload) }
    ensures unknown { (n : ℕ) (otp : List ℕ) (t : Option Table) (busy : Bool) (cmd : Cmd)
        (payload : List ℕ) → is_known cmd ≡ false
        → status_of n otp t busy cmd payload ≡ UNKNOWN_COMMAND }
{}

/// Argument bytes past the argument size are not read.
pub fn arguments_are_read_by_their_size()
    ensures { (c : Content) (t : Option Table) (busy : Bool) (cmd : Cmd) (args payload : List ℕ)
        → take cmd.arg_size args ≡ take cmd.arg_size cmd.args
        → served_on c t busy (with_args cmd args) payload ≡ served_on c t busy cmd payload }
{}

/// A range has a right where the sector of each of its bytes has it.
pub fn a_range_is_allowed_byte_by_byte()
    ensures { (t : Option Table) (right : Right) (at size : ℕ)
        → (range_allowed t right at size ≡ true)
        ↔ ((i : ℕ) → i < size → allowed_by t ((at + i) / 4096) right ≡ true) }
{}

/// Words keep the raised bits of their rows where each has every bit that its row has.
pub fn words_keep_bits_row_by_row()
    ensures { (otp : List ℕ) (row : ℕ) (words : List ℕ) → (keeps_raised otp row words ≡ true)
        ↔ ((i : ℕ) → i < length words
        → HasBitsOf (slice_index words i) (slice_index otp (row + i))) }
{}

/// The flags of a reboot are one of these six.
pub fn the_flags_of_a_reboot()
    ensures { (flags : ℕ) → (are_reboot_flags flags ≡ true)
        ↔ ((flags ≡ 0) ⊎ ((flags ≡ 2) ⊎ ((flags ≡ 4)
        ⊎ ((flags ≡ 0x100) ⊎ ((flags ≡ 0x102) ⊎ (flags ≡ 0x104)))))) }
{}

/// Bytes are programmed a page at a time, and the last page is filled with 0.
pub fn bytes_are_programmed_page_by_page()
    ensures none { (page : ℕ) → programs page [] ≡ [] }
    ensures more { (page : ℕ) (first rest : List ℕ) → length first ≡ 256
        → programs page (first ++ rest) ≡ Program page first ∷ programs (page + 1) rest }
    ensures last { (page : ℕ) (bytes : List ℕ) → 0 < length bytes → length bytes ≤ 256
        → programs page bytes
        ≡ Program page (bytes ++ replicate (256 - length bytes) 0) ∷ [] }
{}

/// A command with another status than 0 does nothing.
pub fn a_refused_command_does_nothing()
    ensures { (c : Content) (t : Option Table) (busy : Bool) (cmd : Cmd) (payload : List ℕ)
        → (served_on c t busy cmd payload).status ≢ 0
        → ((served_on c t busy cmd payload).steps ≡ [])
        × ((served_on c t busy cmd payload).reply ≡ [])
        × ((served_on c t busy cmd payload).boot ≡ None) }
{}

/// A boot is asked for exactly by a reboot with status 0.
pub fn a_boot_is_asked_for_by_a_reboot()
    ensures { (c : Content) (t : Option Table) (busy : Bool) (cmd : Cmd) (payload : List ℕ)
        → (is_some (served_on c t busy cmd payload).boot ≡ true)
        ↔ ((cmd.id ≡ REBOOT) × ((served_on c t busy cmd payload).status ≡ 0)) }
{}

/// The steps of a command lie in the content.
pub fn steps_lie_in_the_content()
    ensures { (c : Content) (t : Option Table) (busy : Bool) (cmd : Cmd) (payload : List ℕ)
        → IsContent c
        → All (IsStepIn (length c.flash)) (served_on c t busy cmd payload).steps }
{}

/// A well-formed erase of sectors that may all be written erases them.
pub fn a_permitted_erase_is_done()
    ensures { (c : Content) (t : Option Table) (cmd : Cmd) (s k : ℕ)
        → IsErase (length c.flash) t s k cmd
        → served_on c t false cmd []
        ≡ record { status = 0; steps = erases s k; reply = []; boot = None } }
{}

/// A well-formed write to sectors that may all be written programs its payload.
pub fn a_permitted_write_is_done()
    ensures { (c : Content) (t : Option Table) (cmd : Cmd) (p : ℕ) (payload : List ℕ)
        → IsWrite (length c.flash) t p payload cmd
        → served_on c t false cmd payload
        ≡ record { status = 0; steps = programs p payload; reply = []; boot = None } }
{}

/// A well-formed reboot asks for its boot, also while a download is busy.
pub fn a_reboot_asks_for_its_boot()
    ensures { (c : Content) (t : Option Table) (busy : Bool) (cmd : Cmd) → IsReboot cmd
        → served_on c t busy cmd []
        ≡ record {
          status = 0;
          steps = [];
          reply = [];
          boot = Some (boot_by (reboot_flags cmd) (reboot_p0 cmd));
        } }
{}
