//! Worked notes of events, and who does their moves.

ghost use Rattle.std.specs.Prelude.{◌≡◌, ◌∷◌, [], ℕ, Bool, List, None, Some, false, true};
ghost use Rattle.pico_board.specs.declared.Step.{Step};
ghost use Rattle.pico_board.specs.declared.boot.BootKind.{BootKind};
ghost use Rattle.pico_board.specs.declared.boot.BootKind.TheVariants.{Bootsel, Normal};
ghost use Rattle.pico_board.specs.Content.{Content};
ghost use Rattle.image_def.specs.declared.started.Started.{Started};
ghost use Rattle.slot_choice.specs.declared.choice.Choice.{Choice};
ghost use Rattle.pico_board.specs.declared.boot.Cpu.TheVariants.{Arm};
ghost use Rattle.pico_board.specs.Cuts.{cut_with};
ghost use Rattle.picoboot_cmd.specs.Commands.{written_command};
ghost use Rattle.picoboot_cmd.specs.Examples.{erase_command, reboot_command};
ghost use Rattle.text_lines.specs.declared.outcome.EventOutcome.TheVariants as event_outcomes;
ghost use Rattle.boot_script.specs.Events.{EventView};
ghost use Rattle.boot_machine.specs.Examples.{erased_flash, idle, machine_at, told_done, told_refused};
ghost use Rattle.boot_machine.specs.Machines.{FromFlash, FromRam, InBootsel, MachineView, Off, Program, Running};
ghost use Rattle.boot_machine.specs.Moves.{effect};
ghost use Rattle.worked_flashes.specs.Choices.{running_trial};
ghost use Rattle.boot_tape.specs.declared.notes.Doer.TheVariants.{Boot, Buy, Host};
ghost use Rattle.boot_tape.specs.declared.notes.Behind.TheVariants.{Boot as BootBehind, Buy as BuyBehind, Nothing};
ghost use Rattle.boot_tape.specs.Doers.{doers, is_own_whole, note_doers};
ghost use Rattle.boot_tape.specs.Examples.{erase_two, noting};
ghost use Rattle.boot_tape.specs.Traces.{behind, note_of, noted};

/// A command to erase two sectors does both itself. A cut that is due in the second one leaves it
/// undone; one that is due behind it does not.
pub fn commands_that_write()
    ensures whole { note_of (machine_at erased_flash (InBootsel idle)) erase_two
        ≡ noting (told_done 0x03) 2 Nothing 2 true }
    ensures cut { note_of (record {
      content = erased_flash;
      armed = Some (Some (cut_with 1 false []));
      cpu = Arm;
      place = InBootsel idle;
    }) erase_two ≡ noting (told_done 0x03) 2 Nothing 2 false }
    ensures first { note_of (record {
      content = erased_flash;
      armed = Some (Some (cut_with 0 true (7 ∷ [])));
      cpu = Arm;
      place = InBootsel idle;
    }) erase_two ≡ noting (told_done 0x03) 1 Nothing 1 false }
    ensures later { note_of (record {
      content = erased_flash;
      armed = Some (Some (cut_with 2 false []));
      cpu = Arm;
      place = InBootsel idle;
    }) erase_two ≡ noting (told_done 0x03) 2 Nothing 2 true }
{}

/// What comes of a reboot is told before the boot that it asks for. A command that is refused, and
/// one that comes without power or while an image runs, do nothing.
pub fn commands_that_write_nothing()
    ensures reboot { note_of (machine_at erased_flash (InBootsel idle))
        (EventView.Command (written_command (reboot_command 2 0)) [])
        ≡ noting (told_done 0x0a) 0 (BootBehind Bootsel) 0 true }
    ensures refused { note_of (machine_at erased_flash (InBootsel idle))
        (EventView.Command (written_command (erase_command 0x10000001 0x1000)) [])
        ≡ noting (told_refused 0x03 5) 0 Nothing 0 true }
    ensures off { note_of (machine_at erased_flash Off) erase_two
        ≡ noting event_outcomes.Off 0 Nothing 0 true }
    ensures running { note_of (machine_at erased_flash (Running (FromFlash running_trial)))
        erase_two ≡ noting event_outcomes.Ignored 0 Nothing 0 true }
{}

/// A cut that is due in the first step of a boot leaves it undone, and none of its moves is a
/// host's. A Cut event does nothing itself.
pub fn events_of_no_host()
    ensures boot { (m : MachineView) (step : Step) (steps : List Step) (within : Bool)
        (pattern : List ℕ) → m.armed ≡ Some (Some (cut_with 0 within pattern))
        → (effect m EventView.PowerOn).steps ≡ step ∷ steps
        → note_of m EventView.PowerOn ≡ noting (effect m EventView.PowerOn).outcome 0
        (BootBehind Normal) 1 false }
    ensures cut { (m : MachineView) (left : ℕ) (within : Bool) (pattern : List ℕ)
        → note_of m (EventView.Cut left within pattern)
        ≡ noting event_outcomes.CutArmed 0 Nothing 0 true }
{}

/// A host's own steps are whole where all are, or where the one that is cut comes behind them.
pub fn own_steps_that_are_whole()
    ensures all { is_own_whole (noting event_outcomes.Ignored 2 Nothing 2 true) ≡ true }
    ensures behind { is_own_whole (noting event_outcomes.Ignored 2 (BootBehind Normal) 3 false)
        ≡ true }
    ensures last { is_own_whole (noting event_outcomes.Ignored 2 Nothing 2 false) ≡ false }
    ensures none { is_own_whole (noting event_outcomes.Ignored 0 (BootBehind Normal) 1 false)
        ≡ true }
{}

/// First a host's event does its own moves, and then the boot does the others. A buy does its own.
pub fn doers_of_moves()
    ensures host { note_doers (noting event_outcomes.Ignored 2 (BootBehind Normal) 3 true)
        ≡ Host ∷ Host ∷ Boot ∷ [] }
    ensures alone { note_doers (noting event_outcomes.Ignored 2 Nothing 2 true)
        ≡ Host ∷ Host ∷ [] }
    ensures buy { (image : Started) → note_doers (noting event_outcomes.Bought 0
        (BuyBehind image) 2 true) ≡ Buy ∷ Buy ∷ [] }
    ensures in_order { (image : Started) → doers
        (noting event_outcomes.Ignored 1 (BootBehind Normal) 1 true
        ∷ noting event_outcomes.Bought 0 (BuyBehind image) 1 true
        ∷ noting event_outcomes.Off 0 Nothing 0 true ∷ []) ≡ Host ∷ Buy ∷ [] }
    ensures events { (m : MachineView) → noted m [] ≡ [] }
{}

/// Power that comes back boots, a reset boots where there is power, and what runs buys itself.
pub fn behind_events()
    ensures power { (c : Content) → behind (machine_at c Off) EventView.PowerOn
        ≡ BootBehind Normal }
    ensures on { (c : Content) → behind (machine_at c (InBootsel idle)) EventView.PowerOn
        ≡ Nothing }
    ensures reset { (c : Content) (kind : BootKind)
        → behind (machine_at c (InBootsel idle)) (EventView.Reset kind) ≡ BootBehind kind }
    ensures again { (c : Content) (program : Program) (kind : BootKind)
        → behind (machine_at c (Running program)) (EventView.Reset kind) ≡ BootBehind kind }
    ensures off { (c : Content) (kind : BootKind)
        → behind (machine_at c Off) (EventView.Reset kind) ≡ Nothing }
    ensures bought { (c : Content) (choice : Choice)
        → behind (machine_at c (Running (FromFlash choice))) EventView.Buy
        ≡ BuyBehind choice.image }
    ensures ram { (c : Content) (image : Started)
        → behind (machine_at c (Running (FromRam image))) EventView.Buy ≡ BuyBehind image }
    ensures unbought { (c : Content) → behind (machine_at c (InBootsel idle)) EventView.Buy
        ≡ Nothing }
    ensures command { (c : Content) → behind (machine_at c Off) erase_two ≡ Nothing }
    ensures ended { (c : Content) (program : Program)
        → behind (machine_at c (Running program)) EventView.End ≡ Nothing }
{}
