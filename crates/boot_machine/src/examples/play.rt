//! Worked runs, proved by computing: each is the `ensures` of a function that does nothing.

ghost use Rattle.std.specs.Prelude.{◌≡◌, ◌++◌, List, None, Some, [], ◌∷◌, codes, false, replicate, true, ℕ};
ghost use Rattle.text_lines.specs.Examples.{ram_image};
ghost use Rattle.text_lines.specs.declared.outcome.EventOutcome.TheVariants as event_outcomes;
ghost use Rattle.text_lines.specs.declared.outcome.CommandAnswer.TheVariants as answers;
ghost use Rattle.text_lines.specs.declared.outcome.BlockOutcome.TheVariants.{Downloaded};
ghost use Rattle.text_lines.specs.Outcomes.{command_outcome};
ghost use Rattle.block_codec.specs.Words.{bytes_of};
ghost use Rattle.boot_rules.specs.declared.decision.Decision.TheVariants.{Bootsel, Start};
ghost use Rattle.boot_rules.specs.declared.decision.Fall.TheVariants.{NoImage};
ghost use Rattle.boot_machine.specs.Boots.{decided_place, decided_steps, entered};
ghost use Rattle.boot_machine.specs.Examples.{told_command, told_done, bought_trial, arm_uf2_of_two, armed_with, asks_target, busy, erase_both, erased_flash, fresh_host, idle, image_bytes, image_in_a, loaded_host, lost_with, machine_at, pair_host, uf2_block};
ghost use Rattle.worked_flashes.specs.Flashes.{plain_sector, table_and_bare, whole_flash_of};
ghost use Rattle.worked_flashes.specs.Choices.{running_trial, small_slot, to};
ghost use Rattle.boot_machine.specs.Machines.{FromFlash, FromRam, InBootsel, MachineView, Off, Program as AnyProgram, Running};
ghost use Rattle.boot_machine.specs.Moves.{Moves, Plays, effect};
ghost use Rattle.boot_machine.specs.Ranges.{AreInRange, HasHostBytes};
ghost use Rattle.boot_machine.specs.Runs.{AnswersTarget, BeginsDownload, IsFresh, PlaysWriting, StartsRam};
ghost use Rattle.boot_machine.specs.Serving.{ServedEvent, followed_by, ruling_on, serves, table_of_found, with_ram};
ghost use Rattle.boot_rules.specs.Choosing.{decision_in};
ghost use Rattle.worked_flashes.specs.Flashes.{empty_table, tables_content};
ghost use Rattle.boot_rules.specs.Examples.{found_in_slot};
ghost use Rattle.boot_rules.specs.Targets.{target_of};
ghost use Rattle.boot_script.specs.Events.{EventView};
ghost use Rattle.info_reply.specs.Examples.{info};
ghost use Rattle.pico_board.specs.Content.{Content};
ghost use Rattle.pico_board.specs.Cuts.{cut_with};
ghost use Rattle.pico_board.specs.Steps.{after, after_all};
ghost use Rattle.pico_board.specs.declared.Step.TheVariants.{Erase, Program};
ghost use Rattle.pico_board.specs.declared.boot.BootKind.{BootKind};
ghost use Rattle.pico_board.specs.declared.boot.Cpu.{Cpu};
ghost use Rattle.pico_board.specs.declared.boot.Cpu.TheVariants.{Arm};
ghost use Rattle.picoboot_cmd.specs.Commands.{written_command};
ghost use Rattle.picoboot_cmd.specs.Examples.{otp_write_command, write_command};
ghost use Rattle.ram_start.specs.Examples.{reboot_into};
ghost use Rattle.ram_start.specs.Sram.{zero_ram};
ghost use Rattle.uf2_place.specs.Blocks.{written_block as block_bytes};
ghost use Rattle.uf2_place.specs.declared.answer.Ruling.TheVariants.{Begins};

/// On a flash with an image in A of its pair, BOOTSEL answers B as the target of rp2350-arm-s, and
/// no target for rp2040. The next block of rp2350-arm-s begins a download into B.
pub fn an_answered_target()
    ensures entered { entered image_in_a ≡ InBootsel pair_host }
    ensures b { AnswersTarget image_in_a Arm pair_host (asks_target 0xe48bff59) [] 0xe48bff59
        (Some (to small_slot true false)) }
    ensures none { AnswersTarget image_in_a Arm pair_host (asks_target 0xe48bff56) [] 0xe48bff56
        None }
    ensures taken { ruling_on 0x6000 (table_of_found pair_host.found)
        (target_of image_in_a (table_of_found pair_host.found) Arm 0xe48bff59) None
        (arm_uf2_of_two 0x10000000 0) ≡ Begins (to small_slot true false) }
{}

/// A host writes an image of 28 bytes into the SRAM and starts it: the run, and its writes.
pub fn a_run_into_ram()
    ensures plays { Plays (machine_at erased_flash (InBootsel fresh_host))
        (EventView.Command (written_command (write_command 0x20000000 28)) image_bytes
        ∷ EventView.Command (written_command (reboot_into 3 0x20000000 28)) [] ∷ [])
        (machine_at erased_flash (Running (FromRam ram_image)))
        (told_done 0x05 ∷ told_command 0x0a (answers.RamStarted ram_image) ∷ []) }
    ensures writes { PlaysWriting (machine_at erased_flash (InBootsel fresh_host)) []
        (EventView.Command (written_command (write_command 0x20000000 28)) image_bytes ∷ [])
        (machine_at erased_flash (InBootsel loaded_host))
        (told_done 0x05 ∷ [])
        (record { address = 0x20000000; bytes = image_bytes } ∷ []) }
    ensures starts { StartsRam (machine_at erased_flash (InBootsel loaded_host))
        (EventView.Command (written_command (reboot_into 3 0x20000000 28)) [])
        (machine_at erased_flash (Running (FromRam ram_image)))
        (told_command 0x0a (answers.RamStarted ram_image)) ram_image }
{}

/// A host raises the row of the slot size, and the next info command answers the new size. The
/// table is kept from the entry of BOOTSEL, and the slot size is not.
pub fn a_slot_size_that_is_raised()
    ensures before { (serves (tables_content 0 [] []) Arm idle (info 16 3 0) []).outcome
        ≡ command_outcome (info 16 3 0) 0 (bytes_of (0x6000 ∷ 0 ∷ 0 ∷ 0x1000 ∷ [])) }
    ensures plays { Plays (machine_at (tables_content 0 [] []) (InBootsel idle))
        (EventView.Command (written_command (otp_write_command 0x055 1 0)) (1 ∷ 0 ∷ 0 ∷ 0 ∷ [])
        ∷ EventView.Command (written_command (info 16 3 0)) [] ∷ [])
        (machine_at (tables_content 1 [] []) (InBootsel idle))
        (told_done 0x0d
        ∷ command_outcome (info 16 3 0) 0 (bytes_of (0x6000 ∷ 0 ∷ 0 ∷ 0x2000 ∷ [])) ∷ []) }
{}

/// Where a run begins: without power, or in BOOTSEL as it is entered, with neither a download nor
/// bytes in the SRAM.
pub fn where_runs_begin()
    ensures off { IsFresh Off }
    ensures entered { (c : Content) → IsFresh (entered c) }
    ensures download { (ram : List ℕ) → IsFresh (InBootsel (with_ram busy ram)) → ⊥ }
    ensures written { IsFresh (InBootsel idle) → ⊥ }
    ensures running { (program : AnyProgram) → IsFresh (Running program) → ⊥ }
{}

/// Which blocks begin a download of a family: those of another family or count than the current
/// one, where there is one. One that is skipped begins none, nor does one of another family.
pub fn blocks_that_begin_a_download()
    ensures first { BeginsDownload 262144 idle 0xe48bff59
        (block_bytes (arm_uf2_of_two 0x10000000 0))
        (arm_uf2_of_two 0x10000000 0) }
    ensures another_count { BeginsDownload 262144 busy 0xe48bff59
        (block_bytes (uf2_block 0x2000 0x10000000 0 3 0xe48bff59))
        (uf2_block 0x2000 0x10000000 0 3 0xe48bff59) }
    ensures next { (bytes : List ℕ)
        → BeginsDownload 262144 busy 0xe48bff59 bytes (arm_uf2_of_two 0x10000100 1) → ⊥ }
    ensures skipped { (bytes : List ℕ)
        → BeginsDownload 262144 idle 0xe48bff59 bytes (uf2_block 0x2001 0x10000000 0 2 0xe48bff59)
        → ⊥ }
    ensures another_family { (bytes : List ℕ)
        → BeginsDownload 262144 idle 0xe48bff5a bytes (arm_uf2_of_two 0x10000000 0) → ⊥ }
{}

/// A machine and an event whose numbers are in range, and machines and events of which one number
/// is not.
pub fn numbers_in_range()
    ensures erase { AreInRange (machine_at erased_flash (InBootsel fresh_host)) erase_both }
    ensures off { AreInRange (machine_at erased_flash Off) EventView.PowerOn }
    ensures sram { (event : EventView) → AreInRange (machine_at erased_flash (InBootsel idle)) event
        → ⊥ }
    ensures short { (m : MachineView) (payload : List ℕ)
        → AreInRange m (EventView.Command [] payload) → ⊥ }
    ensures number { (m : MachineView) → AreInRange m (EventView.Uf2 (256 ∷ [])) → ⊥ }
    ensures command_number { (m : MachineView) (payload : List ℕ)
        → AreInRange m (EventView.Command (256 ∷ replicate 31 0) payload) → ⊥ }
    ensures block_bytes { HasHostBytes (EventView.Uf2 (255 ∷ 0 ∷ [])) }
    ensures command_bytes { HasHostBytes (EventView.Command (replicate 32 255) []) }
{}

/// A cut that is told: it falls before a step of the command, or has steps left behind it.
pub fn cuts_that_are_told()
    ensures before { Moves (armed_with (Some (cut_with 0 false []))) erase_both
        (lost_with erased_flash)
        event_outcomes.PowerLost }
    ensures second { Moves (armed_with (Some (cut_with 1 false []))) erase_both
        (lost_with (after erased_flash (Erase 0))) event_outcomes.PowerLost }
    ensures behind { Moves (armed_with (Some (cut_with 3 false []))) erase_both
        (record {
          content = after (after erased_flash (Erase 0)) (Erase 1);
          armed = Some (Some (cut_with 1 false []));
          cpu = Arm;
          place = InBootsel idle;
        }) (told_done 0x03) }
{}

/// Power that comes back: BOOTSEL is entered with the content's table, or an image is started.
pub fn power_that_comes_back()
    ensures table { effect (machine_at table_and_bare Off) EventView.PowerOn ≡ record {
      steps = [];
      place = InBootsel (record {
        found = Some (found_in_slot 0 (empty_table false 0 0));
        placing = None;
        ram = zero_ram;
      });
      outcome = event_outcomes.Booted (Bootsel NoImage);
    } }
    ensures image { effect (machine_at (whole_flash_of (plain_sector 0)) Off) EventView.PowerOn
        ≡ record {
          steps = [];
          place = Running (FromFlash (bought_trial));
          outcome = event_outcomes.Booted (Start bought_trial);
        } }
{}

/// A download that is done boots on what it has left: here it has erased the image.
pub fn a_boot_after_a_download()
    ensures event { effect (machine_at (whole_flash_of (plain_sector 0)) (InBootsel idle))
        (EventView.Uf2 (block_bytes (uf2_block 0x2000 0x10000000 0 1 0xe48bff58))) ≡ record {
          steps = Erase 0 ∷ Program 0 (replicate 256 0x55) ∷ [];
          place = InBootsel fresh_host;
          outcome = event_outcomes.Block (Downloaded 0 (Bootsel NoImage));
        } }
    ensures steps { (c : Content) (cpu : Cpu) (s : ServedEvent) (kind : BootKind)
        → (followed_by c cpu s (Some kind)).steps
        ≡ s.steps ++ decided_steps (after_all c s.steps) cpu
        (decision_in (after_all c s.steps) cpu kind) }
    ensures place { (c : Content) (cpu : Cpu) (s : ServedEvent) (kind : BootKind)
        → (followed_by c cpu s (Some kind)).place
        ≡ decided_place (after_all c s.steps) (decision_in (after_all c s.steps) cpu kind) }
    ensures none { (c : Content) (cpu : Cpu) (s : ServedEvent)
        → followed_by c cpu s None
        ≡ record { steps = s.steps; place = s.place; outcome = s.outcome } }
{}
