//! Laws of plans and loads, each the contract of a function that does nothing.

ghost use Rattle.std.specs.Prelude.{◌≡◌, ℕ, ◌+◌, ◌*◌, ◌<◌, ◌≤◌, ◌^◌, List, [], ◌∷◌, ◌++◌, length, take, drop, flat_map, slice_index, Ok, Option};
ghost use Rattle.std.specs.List.{range_with_len};
ghost use Rattle.pico_board.specs.declared.window.Window.{Window};
ghost use Rattle.pico_board.specs.declared.window.TheConstants.{MOST_FLASH_BYTES};
ghost use Rattle.pico_board.specs.declared.boot.BootKind.TheVariants.{Bootsel, Update};
ghost use Rattle.pico_board.specs.Content.{flash_base};
ghost use Rattle.part_table.specs.declared.table.Table.{Table};
ghost use Rattle.picoboot_cmd.specs.declared.cmd.Cmd.{Cmd};
ghost use Rattle.picoboot_cmd.specs.Arguments.{reboot_flags, reboot_p0};
ghost use Rattle.picoboot_cmd.specs.Commands.{command_in, written_command};
ghost use Rattle.picoboot_cmd.specs.Served.{boot_by};
ghost use Rattle.picoboot_cmd.specs.WellFormed.{IsErase, IsReboot, IsWrite, MayWrite};
ghost use Rattle.boot_script.specs.Events.{Command, PowerOn, Reset};
ghost use Rattle.boot_script.specs.Scripts.{events};
ghost use Rattle.script_plan.specs.Plans.{IsPlanned, in_sectors, plan_text};
ghost use Rattle.script_plan.specs.Commands.{erase_cmd, exclusive_cmd, exit_cmd, sent, update_cmd, write_cmd};
ghost use Rattle.script_plan.specs.Loads.{load_text, sector_count, sector_of};

/// The events of a plan: the power comes on, the board is reset to BOOTSEL, and the window's first
/// sector is erased. An image of at most a sector is then written. Of a longer image the other
/// sectors are erased and written before the first sector is written. At last the board reboots
/// into an update of the window.
pub fn the_events_of_a_plan()
    ensures short { (w : Window) (image : List ℕ) → IsPlanned w → length image ≤ w.len
        → length image ≤ 4096
        → events (plan_text w.start image)
        ≡ Ok (PowerOn ∷ Reset Bootsel ∷ sent (erase_cmd 1 w.start 4096) []
        ∷ sent (write_cmd 2 w.start (length image)) image ∷ sent (update_cmd 3 w.start) [] ∷ []) }
    ensures long { (w : Window) (image : List ℕ) → IsPlanned w → length image ≤ w.len
        → 4096 < length image
        → events (plan_text w.start image)
        ≡ Ok (PowerOn ∷ Reset Bootsel ∷ sent (erase_cmd 1 w.start 4096) []
        ∷ sent (erase_cmd 2 (w.start + 4096) (in_sectors (length (drop 4096 image)))) []
        ∷ sent (write_cmd 3 (w.start + 4096) (length (drop 4096 image))) (drop 4096 image)
        ∷ sent (write_cmd 4 w.start 4096) (take 4096 image) ∷ sent (update_cmd 5 w.start) []
        ∷ []) }
    ensures sent { (cmd : Cmd) (payload : List ℕ)
        → sent cmd payload ≡ Command (written_command cmd) payload }
{}

/// The commands of a plan are read back. Where their sectors may be written, they are the erases,
/// the writes and the reboot that they say.
pub fn the_commands_of_a_plan()
    ensures read { (token at size : ℕ) → token < 2 ^ 32 → size < 2 ^ 32
        → (command_in (written_command (erase_cmd token at size)) ≡ Ok (erase_cmd token at size))
        × (command_in (written_command (write_cmd token at size)) ≡ Ok (write_cmd token at size))
        × (command_in (written_command (update_cmd token at)) ≡ Ok (update_cmd token at)) }
    ensures erase { (n token s k : ℕ) (t : Option Table) → n ≤ MOST_FLASH_BYTES → 4096 * (s + k) ≤ n
        → MayWrite t (4096 * s) (4096 * k)
        → IsErase n t s k (erase_cmd token (4096 * s) (4096 * k)) }
    ensures write { (n token p : ℕ) (t : Option Table) (payload : List ℕ) → n ≤ MOST_FLASH_BYTES
        → 256 * p + length payload ≤ n → MayWrite t (256 * p) (length payload)
        → IsWrite n t p payload (write_cmd token (256 * p) (length payload)) }
    ensures reboot { (token at : ℕ) → IsReboot (update_cmd token at) }
    ensures update { (token at : ℕ) → at < MOST_FLASH_BYTES
        → boot_by (reboot_flags (update_cmd token at)) (reboot_p0 (update_cmd token at))
        ≡ Update (flash_base + at) }
{}

/// The events of a load: the power comes on, the board is reset to BOOTSEL, and the host asks for
/// exclusive access. Then come the sectors of the image in ascending order, each by an exit from
/// XIP, an erase and a write. At last the board reboots into an update of the window. Each sector
/// that is written has the image's bytes, and 0 after the image's end.
pub fn the_events_of_a_load()
    ensures events { (w : Window) (image : List ℕ) → IsPlanned w → length image ≤ w.len
        → events (load_text w.start image)
        ≡ Ok (PowerOn ∷ Reset Bootsel ∷ sent (exclusive_cmd 1) []
        ∷ (flat_map (λ k. sent (exit_cmd (3 * k + 2)) []
        ∷ sent (erase_cmd (3 * k + 3) (w.start + 4096 * k) 4096) []
        ∷ sent (write_cmd (3 * k + 4) (w.start + 4096 * k) 4096) (sector_of image k) ∷ [])
        (range_with_len 0 (sector_count (length image)))
        ++ sent (update_cmd (3 * sector_count (length image) + 2) w.start) [] ∷ [])) }
    ensures sectors { (n : ℕ)
        → (n ≤ 4096 * sector_count n) × (4096 * sector_count n < n + 4096) }
    ensures bytes { (image : List ℕ) (k i : ℕ) → i < 4096
        → slice_index (sector_of image k) i ≡ slice_index image (4096 * k + i) }
    ensures past { (image : List ℕ) (i : ℕ) → length image ≤ i → slice_index image i ≡ 0 }
    ensures long { (image : List ℕ) (k : ℕ) → length (sector_of image k) ≡ 4096 }
{}

/// The commands that only a load has are read back.
pub fn the_commands_of_a_load()
    ensures exclusive { (token : ℕ) → token < 2 ^ 32
        → command_in (written_command (exclusive_cmd token)) ≡ Ok (exclusive_cmd token) }
    ensures exit { (token : ℕ) → token < 2 ^ 32
        → command_in (written_command (exit_cmd token)) ≡ Ok (exit_cmd token) }
{}
