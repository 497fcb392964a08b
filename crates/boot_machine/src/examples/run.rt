//! Worked examples of what events do in each state, proved by computing: each is the `ensures` of a
//! function that does nothing.

ghost use Rattle.std.specs.Prelude.{◌≡◌, ◌++◌, ℕ, Bool, List, None, Option, Some, [], ◌∷◌, codes, false, map, true};
ghost use Rattle.text_lines.specs.Outcomes.{with_boot};
ghost use Rattle.text_lines.specs.declared.outcome.EventOutcome.{EventOutcome};
ghost use Rattle.text_lines.specs.declared.outcome.EventOutcome.TheVariants as event_outcomes;
ghost use Rattle.boot_machine.specs.Boots.{booted, decided_place, decided_steps, entered};
ghost use Rattle.boot_machine.specs.Machines.{FromFlash, FromRam, Host, InBootsel, MachineView, Off, Program, Running};
ghost use Rattle.boot_machine.specs.Moves.{armed_for, effect, effect_in, stays_with};
ghost use Rattle.boot_machine.specs.Examples.{running};
ghost use Rattle.boot_machine.specs.Serving.{is_hosted, table_slot_of};
ghost use Rattle.boot_machine.specs.Standing.{is_bootsel, is_on, is_running};
ghost use Rattle.boot_machine.specs.declared.state.State.TheVariants.{Bootsel as Serves, Off as Unpowered, Running as Runs};
ghost use Rattle.boot_rules.specs.Choosing.{decision_in};
ghost use Rattle.boot_rules.specs.Examples.{found_in_slot};
ghost use Rattle.boot_rules.specs.Tables.{table_in};
ghost use Rattle.boot_rules.specs.declared.decision.Decision.TheVariants.{Bootsel, Start};
ghost use Rattle.boot_rules.specs.declared.decision.Fall.{Fall};
ghost use Rattle.boot_script.specs.Events.{EventView};
ghost use Rattle.image_def.specs.declared.started.Started.{Started};
ghost use Rattle.worked_flashes.specs.Tables.{guarded_table};
ghost use Rattle.pico_board.specs.Content.{Content};
ghost use Rattle.pico_board.specs.Cuts.{Cut, cut_with};
ghost use Rattle.pico_board.specs.declared.boot.BootKind.{BootKind};
ghost use Rattle.pico_board.specs.declared.boot.BootKind.TheVariants.{Normal};
ghost use Rattle.pico_board.specs.declared.boot.Cpu.{Cpu};
ghost use Rattle.ram_start.specs.Sram.{zero_ram};
ghost use Rattle.slot_choice.specs.declared.choice.Choice.{Choice};
ghost use Rattle.trial_buy.specs.Buying.{buy_steps};
ghost use Rattle.trial_buy.specs.Starting.{start_steps};

/// Without power: power that comes back makes a normal boot, and nothing else does anything.
pub fn rows_without_power()
    ensures power { (c : Content) (cpu : Cpu)
        → effect_in c cpu Off EventView.PowerOn ≡ booted c cpu Normal None }
    ensures reset { (c : Content) (cpu : Cpu) (kind : BootKind)
        → effect_in c cpu Off (EventView.Reset kind) ≡ stays_with Off event_outcomes.Off }
    ensures command { (c : Content) (cpu : Cpu) (command payload : List ℕ)
        → effect_in c cpu Off (EventView.Command command payload)
        ≡ stays_with Off event_outcomes.Off }
    ensures block { (c : Content) (cpu : Cpu) (block : List ℕ)
        → effect_in c cpu Off (EventView.Uf2 block) ≡ stays_with Off event_outcomes.Off }
    ensures buy { (c : Content) (cpu : Cpu)
        → effect_in c cpu Off EventView.Buy ≡ stays_with Off event_outcomes.Off }
{}

/// In BOOTSEL power that comes back and a buy are ignored, and a reset boots.
pub fn rows_in_bootsel()
    ensures power { (c : Content) (cpu : Cpu) (host : Host)
        → effect_in c cpu (InBootsel host) EventView.PowerOn
        ≡ stays_with (InBootsel host) event_outcomes.Ignored }
    ensures buy { (c : Content) (cpu : Cpu) (host : Host)
        → effect_in c cpu (InBootsel host) EventView.Buy
        ≡ stays_with (InBootsel host) event_outcomes.Ignored }
    ensures reset { (c : Content) (cpu : Cpu) (host : Host) (kind : BootKind)
        → effect_in c cpu (InBootsel host) (EventView.Reset kind)
        ≡ booted c cpu kind None }
{}

/// While an image runs, power that comes back and a host are ignored, and a reset boots. A trial
/// image from flash buys itself; another one, and one in RAM, has nothing to buy.
pub fn rows_of_a_running_image()
    ensures power { (c : Content) (cpu : Cpu) (program : Program)
        → effect_in c cpu (Running program) EventView.PowerOn
        ≡ stays_with (Running program) event_outcomes.Ignored }
    ensures command { (c : Content) (cpu : Cpu) (program : Program) (command payload : List ℕ)
        → effect_in c cpu (Running program) (EventView.Command command payload)
        ≡ stays_with (Running program) event_outcomes.Ignored }
    ensures block { (c : Content) (cpu : Cpu) (program : Program) (block : List ℕ)
        → effect_in c cpu (Running program) (EventView.Uf2 block)
        ≡ stays_with (Running program) event_outcomes.Ignored }
    ensures reset { (c : Content) (cpu : Cpu) (program : Program) (kind : BootKind)
        → effect_in c cpu (Running program) (EventView.Reset kind)
        ≡ booted c cpu kind None }
    ensures trial { (c : Content) (cpu : Cpu)
        → effect_in c cpu (Running (FromFlash (running true))) EventView.Buy
        ≡ record {
          steps = buy_steps c cpu (running true);
          place = Running (FromFlash (running false));
          outcome = event_outcomes.Bought;
        } }
    ensures bought { (c : Content) (cpu : Cpu)
        → effect_in c cpu (Running (FromFlash (running false))) EventView.Buy
        ≡ stays_with (Running (FromFlash (running false))) event_outcomes.NothingToBuy }
    ensures ram { (c : Content) (cpu : Cpu) (image : Started)
        → effect_in c cpu (Running (FromRam image)) EventView.Buy
        ≡ stays_with (Running (FromRam image)) event_outcomes.NothingToBuy }
{}

/// In each state a cut is armed, in place of a former one where the board tells it. The end of the
/// script does nothing.
pub fn rows_of_any_state()
    ensures cut { (m : MachineView) (left : ℕ) (within : Bool) (pattern : List ℕ)
        → effect m (EventView.Cut left within pattern)
        ≡ stays_with m.place event_outcomes.CutArmed }
    ensures end { (m : MachineView) → effect m EventView.End
        ≡ stays_with m.place event_outcomes.Ended }
    ensures armed { (former : Option Cut) (left : ℕ) (within : Bool) (pattern : List ℕ)
        → armed_for (Some former) (EventView.Cut left within pattern)
        ≡ Some (Some (cut_with left within pattern)) }
    ensures untold { (left : ℕ) (within : Bool) (pattern : List ℕ)
        → armed_for None (EventView.Cut left within pattern) ≡ None }
    ensures other { (armed : Option (Option Cut)) → armed_for armed EventView.End ≡ armed }
    ensures served { (armed : Option (Option Cut)) (command payload : List ℕ)
        → armed_for armed (EventView.Command command payload) ≡ armed }
{}

/// A boot does what its decision says. It starts an image, with the steps of a start, or enters
/// BOOTSEL, with the table of the content, without a download and with an SRAM of zeros.
pub fn what_a_boot_does()
    ensures starts { (c : Content) (cpu : Cpu) (choice : Choice)
        → decided_steps c cpu (Start choice) ≡ start_steps c cpu choice }
    ensures runs { (c : Content) (choice : Choice)
        → decided_place c (Start choice) ≡ Running (FromFlash choice) }
    ensures falls { (c : Content) (cpu : Cpu) (fall : Fall)
        → decided_steps c cpu (Bootsel fall) ≡ [] }
    ensures serves { (c : Content) (fall : Fall) → decided_place c (Bootsel fall)
        ≡ InBootsel (record { found = table_in c; placing = None; ram = zero_ram }) }
    ensures told { (c : Content) (cpu : Cpu) (kind : BootKind)
        → (booted c cpu kind None).outcome ≡ event_outcomes.Booted (decision_in c cpu kind) }
    ensures behind { (c : Content) (cpu : Cpu) (kind : BootKind) (outcome : EventOutcome)
        → (booted c cpu kind (Some outcome)).outcome
        ≡ with_boot outcome (decision_in c cpu kind) }
{}

/// Of the states of the code all but one have power, one is BOOTSEL, and in one an image runs.
pub fn states_of_the_code()
    ensures power { (image : Started)
        → map is_on (Unpowered ∷ Serves ∷ Runs image ∷ []) ≡ false ∷ true ∷ true ∷ [] }
    ensures bootsel { (image : Started)
        → map is_bootsel (Unpowered ∷ Serves ∷ Runs image ∷ []) ≡ false ∷ true ∷ false ∷ [] }
    ensures running { (image : Started)
        → map is_running (Unpowered ∷ Serves ∷ Runs image ∷ []) ≡ false ∷ false ∷ true ∷ [] }
{}

/// A host's events are commands and UF2 blocks.
pub fn events_of_a_host()
    ensures hosted { (command payload block : List ℕ)
        → map is_hosted (EventView.Command command payload ∷ EventView.Uf2 block ∷ [])
        ≡ true ∷ true ∷ [] }
    ensures others { (left : ℕ) (within : Bool) (pattern : List ℕ) (kind : BootKind)
        → map is_hosted (EventView.End ∷ EventView.Cut left within pattern ∷ EventView.PowerOn
        ∷ EventView.Reset kind ∷ EventView.Buy ∷ [])
        ≡ false ∷ false ∷ false ∷ false ∷ false ∷ [] }
{}

/// The slot of the table that was found is told, and 0 where there is none.
pub fn slots_of_tables()
    ensures found { table_slot_of (Some (found_in_slot 1 guarded_table)) ≡ 1 }
    ensures none { table_slot_of None ≡ 0 }
{}
