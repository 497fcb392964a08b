//! Laws of RAM commands and images in RAM, each the contract of a function that does nothing.

ghost use Rattle.std.specs.Prelude.{◌≡◌, ◌↔◌, ◌+◌, ◌≤◌, ℕ, Bool, true, false, List, [], length, is_some, slice_range, None};
ghost use Rattle.pico_board.specs.declared.boot.Cpu.{Cpu};
ghost use Rattle.pico_board.specs.Content.{Content};
ghost use Rattle.image_def.specs.declared.started.Started.{Started};
ghost use Rattle.image_check.specs.NotBelow.{NotBelow};
ghost use Rattle.picoboot_cmd.specs.declared.cmd.Cmd.{Cmd};
ghost use Rattle.picoboot_cmd.specs.declared.kinds.TheConstants.{REBOOT};
ghost use Rattle.picoboot_cmd.specs.Checks.{IsCheckedStatus};
ghost use Rattle.ram_start.specs.Images.{ram_window, ValidRam};
ghost use Rattle.ram_start.specs.Serving.{ram_checks, ram_command, ram_status};
ghost use Rattle.ram_start.specs.Sram.{with_bytes_at};

/// The status of a RAM command is that of the first of its checks that fails, and 0 where none
/// does.
pub fn the_status_of_a_ram_command()
    ensures { (c : Content) (ram : List ℕ) (cpu : Cpu) (busy : Bool) (cmd : Cmd) (payload : List ℕ)
        → IsCheckedStatus (ram_checks c ram cpu busy cmd payload)
        (ram_status c ram cpu busy cmd payload) }
{}

/// A command with another status than 0 leaves the SRAM, replies nothing and starts nothing.
pub fn a_refused_ram_command_does_nothing()
    ensures ram { (c : Content) (ram : List ℕ) (cpu : Cpu) (busy : Bool) (cmd : Cmd)
        (payload : List ℕ) (n : ℕ)
        → ram_status c ram cpu busy cmd payload ≡ 1 + n
        → (ram_command c ram cpu busy cmd payload).ram ≡ ram }
    ensures reply { (c : Content) (ram : List ℕ) (cpu : Cpu) (busy : Bool) (cmd : Cmd)
        (payload : List ℕ) (n : ℕ)
        → ram_status c ram cpu busy cmd payload ≡ 1 + n
        → (ram_command c ram cpu busy cmd payload).reply ≡ [] }
    ensures start { (c : Content) (ram : List ℕ) (cpu : Cpu) (busy : Bool) (cmd : Cmd)
        (payload : List ℕ) (n : ℕ)
        → ram_status c ram cpu busy cmd payload ≡ 1 + n
        → (ram_command c ram cpu busy cmd payload).start ≡ None }
{}

/// An image starts exactly at a reboot with status 0.
pub fn an_image_starts_at_a_reboot()
    ensures { (c : Content) (ram : List ℕ) (cpu : Cpu) (busy : Bool) (cmd : Cmd) (payload : List ℕ)
        → (is_some (ram_command c ram cpu busy cmd payload).start ≡ true)
        ↔ ((cmd.id ≡ REBOOT) × (ram_status c ram cpu busy cmd payload ≡ 0)) }
{}

/// What is stored in a list is read again, and the list keeps its length.
pub fn what_is_stored_is_read_again()
    ensures read { (ram : List ℕ) (at : ℕ) (bytes : List ℕ) → at + length bytes ≤ length ram
        → slice_range (with_bytes_at ram at bytes) at (at + length bytes) ≡ bytes }
    ensures long { (ram : List ℕ) (at : ℕ) (bytes : List ℕ) → at + length bytes ≤ length ram
        → length (with_bytes_at ram at bytes) ≡ length ram }
{}

/// A valid image in RAM is not below its rollback rows, and its record names the range.
pub fn a_ram_image_is_not_below_its_rows()
    ensures rows { (c : Content) (bytes : List ℕ) (base : ℕ) (cpu : Cpu) (s : Started)
        → ValidRam c bytes base cpu s → NotBelow c.otp s }
    ensures window { (c : Content) (bytes : List ℕ) (base : ℕ) (cpu : Cpu) (s : Started)
        → ValidRam c bytes base cpu s → s.window ≡ ram_window base bytes }
{}

/// A valid image in RAM is no trial image.
pub fn a_ram_image_is_no_trial()
    ensures { (c : Content) (bytes : List ℕ) (base : ℕ) (cpu : Cpu) (s : Started)
        → ValidRam c bytes base cpu s → s.trial ≡ false }
{}
