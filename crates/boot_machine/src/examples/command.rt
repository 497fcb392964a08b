//! Worked examples of the commands of a host in BOOTSEL, proved by computing: each is the `ensures`
//! of a function that does nothing.

ghost use Rattle.std.specs.Prelude.{◌≡◌, ◌++◌, List, None, Some, [], ◌∷◌, codes, false, replicate, ℕ};
ghost use Rattle.text_lines.specs.Examples.{ram_image};
ghost use Rattle.text_lines.specs.declared.outcome.EventOutcome.TheVariants as event_outcomes;
ghost use Rattle.text_lines.specs.declared.outcome.CommandAnswer.TheVariants as answers;
ghost use Rattle.boot_rules.specs.declared.decision.Decision.TheVariants.{Bootsel as Falls};
ghost use Rattle.boot_rules.specs.declared.decision.Fall.TheVariants.{Requested};
ghost use Rattle.boot_machine.specs.Machines.{FromRam, Host, InBootsel, Off, Program, Running};
ghost use Rattle.boot_machine.specs.Moves.{effect};
ghost use Rattle.boot_machine.specs.Examples.{told_command, told_done, told_refused, begun_download, busy, erased_flash, guarded, guarded_busy, idle, machine_at, no_command, uf2_block, with_image};
ghost use Rattle.worked_flashes.specs.Flashes.{table_and_bare};
ghost use Rattle.boot_machine.specs.Runs.{host_writes, place_writes};
ghost use Rattle.boot_machine.specs.Serving.{info_status, info_words, served_event, serves, only_told, with_ram};
ghost use Rattle.worked_flashes.specs.Flashes.{bare, pair_content, tables_content};
ghost use Rattle.boot_rules.specs.Examples.{found_in_slot};
ghost use Rattle.info_reply.specs.declared.ask.Ask.TheVariants as asks;
ghost use Rattle.worked_flashes.specs.Tables.{guarded_table};
ghost use Rattle.boot_rules.specs.Tables.{table_in};
ghost use Rattle.boot_script.specs.Events.{EventView};
ghost use Rattle.info_reply.specs.Examples.{info, sized_info};
ghost use Rattle.pico_board.specs.Content.{Content};
ghost use Rattle.pico_board.specs.declared.Step.TheVariants.{Erase};
ghost use Rattle.pico_board.specs.declared.boot.BootKind.TheVariants.{Bootsel, Normal, Update};
ghost use Rattle.pico_board.specs.declared.boot.Cpu.{Cpu};
ghost use Rattle.pico_board.specs.declared.boot.Cpu.TheVariants.{Arm, Riscv};
ghost use Rattle.picoboot_cmd.specs.Commands.{written_command};
ghost use Rattle.picoboot_cmd.specs.Examples.{command, erase_command, padded_range_args, read_command, reboot_command, write_command};
ghost use Rattle.ram_start.specs.Examples.{reboot_into};
ghost use Rattle.ram_start.specs.Serving.{ram_status};
ghost use Rattle.ram_start.specs.Sram.{RamWrite, zero_ram};
ghost use Rattle.uf2_place.specs.Blocks.{written_block as block_bytes};

/// 32 bytes without the magic word are no command, whatever else they say.
pub fn commands_of_a_form()
    ensures magic { (c : Content) (cpu : Cpu) (host : Host) (payload : List ℕ)
        → served_event c cpu host (EventView.Command no_command payload)
        ≡ only_told host event_outcomes.BadMagic }
    ensures unknown { serves erased_flash Arm idle (command 0x00 0 0 (padded_range_args 0 0)) []
        ≡ only_told idle (told_refused 0x00 1) }
{}

/// An info command is none for RAM, whatever its arguments are, and a busy download does not
/// matter to it.
pub fn info_commands()
    ensures ram { serves erased_flash Arm busy
        (command 0x8b 8 4 (padded_range_args 0x20000000 4)) []
        ≡ only_told busy (told_refused 0x8b 2) }
    ensures busy { info_status erased_flash Arm None (info 16 3 0) [] ≡ 0 }
    ensures short { serves erased_flash Arm busy (info 12 3 0) []
        ≡ only_told busy (told_refused 0x8b 12) }
    ensures kind { serves erased_flash Arm idle (info 16 5 0) []
        ≡ only_told idle (told_refused 0x8b 11) }
    ensures partition { serves erased_flash Arm idle (info 16 4 0) []
        ≡ only_told idle (told_refused 0x8b 16) }
    ensures kept { serves erased_flash Arm guarded (info 4 4 2) []
        ≡ only_told guarded (told_refused 0x8b 16) }
{}

/// The table that was found at entry serves, also where the content has none.
pub fn the_kept_table_serves()
    ensures content { table_in erased_flash ≡ None }
    ensures guarded { serves erased_flash Arm guarded (erase_command 0x10000000 0x1000) []
        ≡ only_told guarded (told_refused 0x03 10) }
    ensures bare { serves erased_flash Arm idle (erase_command 0x10000000 0x1000) [] ≡ record {
      steps = Erase 0 ∷ [];
      place = InBootsel idle;
      outcome = told_done 0x03;
      boot = None;
    } }
    ensures busy { serves erased_flash Arm busy (erase_command 0x10000000 0x1000) []
        ≡ only_told busy (told_refused 0x03 9) }
{}

/// A RAM command stores its bytes and keeps the download; a write while one is busy is refused
/// first.
pub fn commands_of_ram()
    ensures write { serves erased_flash Arm idle (write_command 0x20000002 2) (9 ∷ 10 ∷ [])
        ≡ record {
          steps = [];
          place = InBootsel (with_ram idle (1 ∷ 2 ∷ 9 ∷ 10 ∷ 5 ∷ 6 ∷ 7 ∷ 8 ∷ []));
          outcome = told_done 0x05;
          boot = None;
        } }
    ensures busy { serves erased_flash Arm busy (write_command 0x20000002 2) (9 ∷ [])
        ≡ only_told busy (told_refused 0x05 9) }
    ensures transfer { serves erased_flash Arm idle (write_command 0x20082000 2) (9 ∷ [])
        ≡ only_told idle (told_refused 0x05 3) }
    ensures outside { serves erased_flash Arm idle (write_command 0x20081fff 2) (9 ∷ 10 ∷ [])
        ≡ only_told idle (told_refused 0x05 4) }
    ensures read_outside { serves erased_flash Arm busy (read_command 0x20081fff 2) []
        ≡ only_told busy (told_refused 0x84 4) }
    ensures range { serves erased_flash Arm busy (reboot_into 3 0x20000002 28) []
        ≡ only_told busy (told_refused 0x0a 11) }
    ensures no_image { serves erased_flash Arm busy (reboot_into 3 0x20000000 8) []
        ≡ only_told busy (told_refused 0x0a 13) }
{}

/// A RAM command leaves the table and the download as they are.
pub fn what_ram_commands_keep()
    ensures read { (serves erased_flash Arm guarded_busy (read_command 0x20000002 2) []).place
        ≡ InBootsel guarded_busy }
    ensures write { (serves erased_flash Arm guarded (write_command 0x20000006 2)
        (9 ∷ 10 ∷ [])).place
        ≡ InBootsel (with_ram guarded (1 ∷ 2 ∷ 3 ∷ 4 ∷ 5 ∷ 6 ∷ 9 ∷ 10 ∷ [])) }
    ensures host { with_ram guarded_busy [] ≡ record {
      found = Some (found_in_slot 1 guarded_table);
      placing = Some begun_download;
      ram = [];
    } }
{}

/// The words of an info reply: of the table that was found at entry with its slot, and of the
/// board.
pub fn words_of_info_replies()
    ensures table { info_words erased_flash Arm (Some (found_in_slot 1 guarded_table))
        (Some asks.Table)
        ≡ 0x80000002 ∷ 0 ∷ 1 ∷ 0x7c000000 ∷ 0x7c03e002 ∷ 0x7c020000 ∷ 0xfc07a020 ∷ 0xfc020002 ∷ [] }
    ensures tableless { info_words table_and_bare Arm None (Some asks.Table) ≡ 0 ∷ [] }
    ensures arm { info_words (pair_content 2 bare bare) Arm None (Some asks.Device)
        ≡ 0x40000 ∷ 0 ∷ 2 ∷ 0x1000 ∷ [] }
    ensures riscv { info_words erased_flash Riscv None (Some asks.Device)
        ≡ 0x2000 ∷ 1 ∷ 0 ∷ 0x1000 ∷ [] }
    ensures larger_slot { info_words (tables_content 1 [] []) Arm None (Some asks.Device)
        ≡ 0x6000 ∷ 0 ∷ 0 ∷ 0x2000 ∷ [] }
    ensures partition { info_words erased_flash Arm (Some (found_in_slot 1 guarded_table))
        (Some (asks.Partition 1)) ≡ 0xfc07a020 ∷ 0xfc020002 ∷ [] }
    ensures none { info_words erased_flash Arm None None ≡ [] }
{}

/// A reboot into RAM starts the image of its range and drops the download.
pub fn starts_in_ram()
    ensures start { serves erased_flash Arm (with_image idle) (reboot_into 3 0x20000000 28) []
        ≡ record {
          steps = [];
          place = Running (FromRam ram_image);
          outcome = told_command 0x0a (answers.RamStarted ram_image);
          boot = None;
        } }
    ensures busy { (serves erased_flash Arm (with_image busy)
        (reboot_into 0x103 0x20000000 28) []).place
        ≡ Running (FromRam ram_image) }
    ensures short { serves erased_flash Arm (with_image idle) (reboot_into 3 0x20000000 27) []
        ≡ only_told (with_image idle) (told_refused 0x0a 13) }
{}

/// A reboot of another kind asks for that boot, which the event's outcome tells; BOOTSEL is
/// entered anew.
pub fn reboots()
    ensures normal { (serves erased_flash Arm busy (reboot_command 0x100 0) []).boot ≡ Some Normal }
    ensures update { (serves erased_flash Arm busy (reboot_command 4 0x10002000) []).boot
        ≡ Some (Update 0x10002000) }
    ensures bootsel { (serves erased_flash Arm busy (reboot_command 2 0) []).boot ≡ Some Bootsel }
    ensures event { effect (machine_at erased_flash (InBootsel busy))
        (EventView.Command (written_command (reboot_command 2 0)) []) ≡ record {
          steps = [];
          place = InBootsel (record { found = None; placing = None; ram = zero_ram });
          outcome = told_command 0x0a (answers.Booted (Falls Requested));
        } }
{}

/// The writes to the SRAM since BOOTSEL was entered: those that are served, in order, up to the
/// next boot.
pub fn writes_to_the_sram()
    ensures first { host_writes erased_flash Arm idle []
        (EventView.Command (written_command (write_command 0x20000002 2)) (9 ∷ 10 ∷ []))
        ≡ record { address = 0x20000002; bytes = 9 ∷ 10 ∷ [] } ∷ [] }
    ensures next { (w : RamWrite) → host_writes erased_flash Arm idle (w ∷ [])
        (EventView.Command (written_command (write_command 0x20000002 2)) (9 ∷ 10 ∷ []))
        ≡ w ∷ record { address = 0x20000002; bytes = 9 ∷ 10 ∷ [] } ∷ [] }
    ensures refused { (w : RamWrite) → host_writes erased_flash Arm busy (w ∷ [])
        (EventView.Command (written_command (write_command 0x20000002 2)) (9 ∷ 10 ∷ [])) ≡ w ∷ [] }
    ensures read { (w : RamWrite) → host_writes erased_flash Arm idle (w ∷ [])
        (EventView.Command (written_command (read_command 0x20000002 2)) []) ≡ w ∷ [] }
    ensures flash { (w : RamWrite) → host_writes erased_flash Arm idle (w ∷ [])
        (EventView.Command (written_command (write_command 0x10000000 2)) (9 ∷ 10 ∷ [])) ≡ w ∷ [] }
    ensures reboot { (w : RamWrite) → host_writes erased_flash Arm idle (w ∷ [])
        (EventView.Command (written_command (reboot_command 2 0)) []) ≡ [] }
    ensures reset { (w : RamWrite) → host_writes erased_flash Arm idle (w ∷ [])
        (EventView.Reset Normal)
        ≡ [] }
    ensures other { (w : RamWrite) → host_writes erased_flash Arm idle (w ∷ []) EventView.PowerOn
        ≡ w ∷ [] }
    ensures block { (w : RamWrite) → host_writes erased_flash Arm idle (w ∷ [])
        (EventView.Uf2 (replicate 512 0)) ≡ w ∷ [] }
    ensures download { (w : RamWrite) → host_writes erased_flash Arm idle (w ∷ [])
        (EventView.Uf2 (block_bytes (uf2_block 0x2000 0x10000000 0 1 0xe48bff58))) ≡ [] }
    ensures off { (w : RamWrite) (event : EventView)
        → place_writes erased_flash Arm Off (w ∷ []) event
        ≡ [] }
    ensures running { (w : RamWrite) (program : Program) (event : EventView)
        → place_writes erased_flash Arm (Running program) (w ∷ []) event ≡ [] }
{}
