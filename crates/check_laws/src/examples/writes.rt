//! Worked laws of boots and of buys.

ghost use Rattle.std.specs.Prelude.{◌≡◌, ◌≢◌, [], ◌∷◌, List, None, Some, false, true};
ghost use Rattle.pico_board.specs.declared.Step.{Step};
ghost use Rattle.pico_board.specs.declared.Step.TheVariants.{Erase, Raise};
ghost use Rattle.pico_board.specs.declared.boot.BootKind.{BootKind};
ghost use Rattle.pico_board.specs.declared.boot.BootKind.TheVariants.{Normal};
ghost use Rattle.pico_board.specs.declared.boot.Cpu.{Cpu};
ghost use Rattle.pico_board.specs.Content.{Content};
ghost use Rattle.pico_board.specs.Cuts.{cut_by, cut_with};
ghost use Rattle.pico_board.specs.Steps.{after};
ghost use Rattle.image_def.specs.declared.started.Started.{Started};
ghost use Rattle.slot_choice.specs.declared.choice.Choice.{Choice};
ghost use Rattle.boot_script.specs.Events.{Buy, PowerOn, Reset};
ghost use Rattle.boot_machine.specs.Boots.{booted};
ghost use Rattle.boot_machine.specs.Plays.{powerless};
ghost use Rattle.trial_buy.specs.Buying.{buy_steps};
ghost use Rattle.boot_machine.specs.Machines.{FromFlash, FromRam, Off, Running};
ghost use Rattle.text_lines.specs.declared.outcome.EventOutcome.TheVariants as event_outcomes;
ghost use Rattle.boot_tape.specs.declared.notes.Behind.TheVariants.{Boot as BootBehind, Buy as BuyBehind, Nothing};
ghost use Rattle.boot_tape.specs.Examples.{noting};
ghost use Rattle.boot_tape.specs.Moving.{Done, Torn};
ghost use Rattle.check_require.specs.declared.report.LawOfWrites.TheVariants.{Kept, Open, Silent};
ghost use Rattle.check_laws.specs.Made.{law_with, laws_with, made_by, no_writes};
ghost use Rattle.check_laws.specs.OwnLaws.{BootMade, IsBootKept, IsBootLaw, IsBuyLaw, IsLawOf, boot_by, boots_in, buy_by, buys_in};

/// A boot or a buy that is kept makes a law of none; one that is not leaves none for ever.
pub fn laws_with_one_more()
    ensures first_kept { law_with Silent true ≡ Kept }
    ensures first_open { law_with Silent false ≡ Open }
    ensures kept { law_with Kept true ≡ Kept }
    ensures opened { law_with Kept false ≡ Open }
    ensures open { law_with Open true ≡ Open }
    ensures idle { (cpu : Cpu) (c : Content) (kind : BootKind) → laws_with cpu no_writes
        (record { before = c; by = BootBehind kind; done = [] }) ≡ no_writes }
{}

/// Of the boots of a script those that do a step count. Each of them has to be kept.
pub fn laws_of_boots()
    ensures none { (cpu : Cpu) → IsLawOf (λ (b : BootMade). b.done) (IsBootKept cpu) [] Silent }
    ensures idle { (cpu : Cpu) (b : BootMade) → b.done ≡ []
        → IsLawOf (λ (b : BootMade). b.done) (IsBootKept cpu) (b ∷ []) Silent }
    ensures kept { (cpu : Cpu) (idle b : BootMade) → idle.done ≡ [] → b.done ≢ []
        → IsBootKept cpu b
        → IsLawOf (λ (b : BootMade). b.done) (IsBootKept cpu) (idle ∷ b ∷ []) Kept }
    ensures open { (cpu : Cpu) (first b : BootMade) → IsBootKept cpu first → b.done ≢ []
        → (IsBootKept cpu b → ⊥)
        → IsLawOf (λ (b : BootMade). b.done) (IsBootKept cpu) (first ∷ b ∷ []) Open }
{}

/// A boot is made where a note says so. A buy is that of an image that was started from flash.
pub fn boots_and_buys_of_events()
    ensures boot { (c : Content) (kind : BootKind) (done : List Step)
        → boot_by (BootBehind kind) c done
        ≡ record { before = c; kind = kind; done = done } ∷ [] }
    ensures no_boot { (c : Content) (done : List Step) → boot_by Nothing c done ≡ [] }
    ensures buy_no_boot { (c : Content) (image : Started) (done : List Step)
        → boot_by (BuyBehind image) c done ≡ [] }
    ensures buy { (c : Content) (choice : Choice) (done : List Step)
        → buy_by (Running (FromFlash choice)) Buy c done
        ≡ record { before = c; choice = choice; done = done } ∷ [] }
    ensures ram { (c : Content) (image : Started) (done : List Step)
        → buy_by (Running (FromRam image)) Buy c done ≡ [] }
    ensures off { (c : Content) (done : List Step) → buy_by Off Buy c done ≡ [] }
    ensures reset { (c : Content) (choice : Choice) (kind : BootKind) (done : List Step)
        → buy_by (Running (FromFlash choice)) (Reset kind) c done ≡ [] }
{}

/// An event's own moves come before what is behind them, of which the steps that complete count.
pub fn what_notes_and_moves_tell()
    ensures behind { (c : Content) → made_by c
        (noting event_outcomes.Ignored 1 (BootBehind Normal) 3 false
        ∷ noting event_outcomes.Off 0 Nothing 0 true ∷ [])
        (Done (Erase 0) ∷ Done (Raise 5 1) ∷ Torn (Raise 6 1) false [] ∷ [])
        ≡ record { before = after c (Erase 0); by = BootBehind Normal; done = Raise 5 1 ∷ [] }
        ∷ record {
          before = cut_by (cut_with 0 false []) (after (after c (Erase 0)) (Raise 5 1)) (Raise 6 1);
          by = Nothing;
          done = [];
        } ∷ [] }
{}

/// A boot does its steps from the content before it on. Where the script cuts the second one, it
/// does the first alone. So does a trial image that buys itself.
pub fn boots_and_buys_of_a_script()
    ensures boot { (c : Content) (cpu : Cpu) (one two : Step)
        → (booted c cpu Normal None).steps ≡ (one ∷ two ∷ [])
        → boots_in (powerless c cpu) (PowerOn ∷ [])
        ≡ record { before = c; kind = Normal; done = one ∷ two ∷ [] } ∷ [] }
    ensures cut { (c : Content) (cpu : Cpu) (one two : Step)
        → (booted c cpu Normal None).steps ≡ (one ∷ two ∷ [])
        → boots_in (record {
          content = c;
          armed = Some (Some (cut_with 1 false []));
          cpu = cpu;
          place = Off;
        }) (PowerOn ∷ []) ≡ record { before = c; kind = Normal; done = one ∷ [] } ∷ [] }
    ensures buy { (c : Content) (cpu : Cpu) (choice : Choice) (one two : Step)
        → choice.image.trial ≡ true → buy_steps c cpu choice ≡ (one ∷ two ∷ [])
        → buys_in (record {
          content = c;
          armed = Some (Some (cut_with 1 false []));
          cpu = cpu;
          place = Running (FromFlash choice);
        }) (Buy ∷ []) ≡ record { before = c; choice = choice; done = one ∷ [] } ∷ [] }
    ensures boot_no_buy { (c : Content) (cpu : Cpu) → buys_in (powerless c cpu) (PowerOn ∷ [])
        ≡ [] }
    ensures buy_no_boot { (c : Content) (cpu : Cpu) (choice : Choice) → boots_in (record {
      content = c;
      armed = Some None;
      cpu = cpu;
      place = Running (FromFlash choice);
    }) (Buy ∷ []) ≡ [] }
    ensures boots { (c : Content) (cpu : Cpu) → IsBootLaw c cpu [] Silent }
    ensures buys { (c : Content) (cpu : Cpu) → IsBuyLaw c cpu [] Silent }
{}
