//! Worked examples of the definitions, proved by computing: each is the `ensures` of a function
//! that does nothing.

ghost use Rattle.std.specs.Prelude.{◌≡◌, [], ◌∷◌, codes, Some, None, true, false};
ghost use Rattle.pico_board.specs.declared.boot.Cpu.TheVariants.{Arm};
ghost use Rattle.pico_board.specs.declared.boot.BootKind.TheVariants.{Normal};
ghost use Rattle.boot_script.specs.Events.{Buy, Reset, Cut};
ghost use Rattle.text_lines.specs.declared.outcome.EventOutcome.TheVariants as event_outcomes;
ghost use Rattle.boot_machine.specs.Machines.{Off, InBootsel, Running, FromRam};
ghost use Rattle.cli_course.specs.declared.status.Status.TheVariants.{Done};
ghost use Rattle.cli_course.specs.Outcomes.{worked};
ghost use Rattle.boot_machine.specs.Plays.{played, powerless};
ghost use Rattle.cli_scripts.specs.ReplayWorks.{content_files, event_lines, end_line, replay_work};
ghost use Rattle.text_lines.specs.Examples.{example_image};
ghost use Rattle.cli_scripts.specs.ReplayExamples.{example_content};

/// The lines of events and the line after them.
pub fn event_texts()
    ensures none { event_lines 0 [] ≡ [] }
    ensures two { event_lines 0 (event_outcomes.Off ∷ event_outcomes.CutArmed ∷ [])
        ≡ codes "0 off\n1 cut armed\n" }
    ensures tenth { event_lines 9 (event_outcomes.Off ∷ event_outcomes.Ignored ∷ [])
        ≡ codes "9 off\n10 ignored\n" }
    ensures off { end_line Off ≡ codes "end state=off\n" }
    ensures bootsel { end_line (InBootsel (record { found = None; placing = None; ram = [] }))
        ≡ codes "end state=bootsel\n" }
    ensures running { end_line (Running (FromRam (example_image 0 0 None false)))
        ≡ codes "end state=running\n" }
{}

/// The files of a content: the flash, and then each row in four bytes, the lowest first.
pub fn files_of_contents()
    ensures { content_files (codes "a") (codes "b")
        (record { flash = 1 ∷ 255 ∷ []; otp = 0x030201 ∷ 0 ∷ [] })
        ≡ record { name = codes "a"; bytes = 1 ∷ 255 ∷ [] }
        ∷ record { name = codes "b"; bytes = 1 ∷ 2 ∷ 3 ∷ 0 ∷ 0 ∷ 0 ∷ 0 ∷ 0 ∷ [] } ∷ [] }
{}

/// Without power an event does nothing; but a cut is armed, in place of a former one.
pub fn events_without_power()
    ensures nothing { played (powerless example_content Arm) (Buy ∷ Reset Normal ∷ [])
        ≡ record {
          last = powerless example_content Arm;
          outcomes = event_outcomes.Off ∷ event_outcomes.Off ∷ [];
        } }
    ensures cuts { played (powerless example_content Arm)
        (Cut 2 true (255 ∷ []) ∷ Cut 1 false [] ∷ [])
        ≡ record {
          last = record {
            content = example_content;
            armed = Some (Some (record { left = 1; within = false; pattern = [] }));
            cpu = Arm;
            place = Off;
          };
          outcomes = event_outcomes.CutArmed ∷ event_outcomes.CutArmed ∷ [];
        } }
{}

/// The replay of a script. What follows its end is not read.
pub fn replays_of_scripts()
    ensures { worked (replay_work example_content Arm (6 ∷ 6 ∷ 0 ∷ 9 ∷ []) (codes "a") (codes "b"))
        ≡ record {
          status = Done;
          text = codes "0 off\n1 off\nend state=off\n";
          files = record { name = codes "a"; bytes = 1 ∷ 255 ∷ [] }
              ∷ record { name = codes "b"; bytes = 0 ∷ 0 ∷ 0 ∷ 0 ∷ [] } ∷ [];
        } }
{}
