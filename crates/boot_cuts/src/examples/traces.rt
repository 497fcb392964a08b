//! Worked traces and what cuts leave of them.

ghost use Rattle.std.specs.Prelude.{◌≡◌, ◌∷◌, [], ℕ, Bool, List, None, Some, false, true};
ghost use Rattle.pico_board.specs.declared.Step.TheVariants.{Erase, Program, Raise};
ghost use Rattle.pico_board.specs.declared.boot.BootKind.TheVariants.{Normal};
ghost use Rattle.pico_board.specs.declared.boot.Cpu.{Cpu};
ghost use Rattle.pico_board.specs.Content.{Content};
ghost use Rattle.pico_board.specs.Cuts.{cut_with};
ghost use Rattle.trial_buy.specs.Buying.{buy_steps};
ghost use Rattle.boot_machine.specs.Boots.{booted};
ghost use Rattle.boot_machine.specs.Machines.{FromFlash, Off, Running};
ghost use Rattle.boot_script.specs.Events.{EventView};
ghost use Rattle.worked_flashes.specs.Choices.{running_trial};
ghost use Rattle.boot_cuts.specs.Contents.{cut_content, cut_contents};
ghost use Rattle.boot_cuts.specs.Examples.{raises, rows};
ghost use Rattle.boot_cuts.specs.Found.{trace_limit};
ghost use Rattle.boot_cuts.specs.Replaying.{replay_of};
ghost use Rattle.boot_tape.specs.Traces.{completed, event_steps, trace_steps, traced, traced_from};

/// Each step has the content before it.
pub fn steps_with_the_content_before_them()
    ensures two { traced_from (rows 1 0) raises
        ≡ record { before = rows 1 0; step = Raise 0 6 }
        ∷ record { before = rows 7 0; step = Raise 1 8 } ∷ [] }
    ensures steps { trace_steps (traced_from (rows 1 0) raises) ≡ raises }
{}

/// The cuts of step k are the numbers 2k and 2k + 1. The first leaves the content before the step,
/// and the second what the pattern makes of it. Of an erase it leaves the pattern. Of a raise it
/// leaves the bits that the pattern lacks, and of a program those that it or the bytes have.
pub fn contents_that_cuts_leave()
    ensures raises { cut_contents (4 ∷ []) (traced_from (rows 1 0) raises)
        ≡ rows 1 0 ∷ rows 3 0 ∷ rows 7 0 ∷ rows 7 8 ∷ [] }
    ensures erase { cut_content (0xaa ∷ 0x55 ∷ []) (record {
      before = record { flash = 1 ∷ 2 ∷ 3 ∷ []; otp = [] };
      step = Erase 0;
    }) true ≡ record { flash = 0xaa ∷ 0x55 ∷ 0xaa ∷ []; otp = [] } }
    ensures program { cut_content (0x0f ∷ []) (record {
      before = record { flash = 0xff ∷ 0x33 ∷ []; otp = [] };
      step = Program 0 (0x10 ∷ 0x20 ∷ []);
    }) true ≡ record { flash = 0x1f ∷ 0x23 ∷ []; otp = [] } }
    ensures before { (pattern : List ℕ) → cut_content pattern (record {
      before = rows 1 0;
      step = Raise 0 6;
    }) false ≡ rows 1 0 }
{}

/// All steps complete where no cut is armed, and otherwise those before the one that is cut.
pub fn steps_that_complete()
    ensures all { completed None raises ≡ raises }
    ensures first { completed (Some (cut_with 1 true (0 ∷ []))) raises ≡ Raise 0 6 ∷ [] }
    ensures none { completed (Some (cut_with 0 false [])) raises ≡ [] }
    ensures later { completed (Some (cut_with 2 false [])) raises ≡ raises }
{}

/// A boot's own steps are in the trace, and so are those of a buy. A step that the script's own cut
/// cuts is not: a cut of no step before it leaves none.
pub fn steps_of_events()
    ensures boot { (c : Content) (cpu : Cpu) → event_steps
        (record { content = c; armed = Some None; cpu = cpu; place = Off }) EventView.PowerOn
        ≡ (booted c cpu Normal None).steps }
    ensures buy { (c : Content) (cpu : Cpu) → event_steps (record {
      content = c;
      armed = Some None;
      cpu = cpu;
      place = Running (FromFlash running_trial);
    }) EventView.Buy ≡ buy_steps c cpu running_trial }
    ensures cut { (c : Content) (cpu : Cpu) (within : Bool) (pattern : List ℕ) → event_steps
        (record {
          content = c;
          armed = Some (Some (cut_with 0 within pattern));
          cpu = cpu;
          place = Off;
        }) EventView.PowerOn ≡ [] }
    ensures none { (c : Content) (cpu : Cpu) → traced
        (record { content = c; armed = Some None; cpu = cpu; place = Off }) [] ≡ [] }
{}

/// The most steps of a trace whose cuts are judged.
pub fn the_longest_trace()
    ensures { trace_limit ≡ 262144 }
{}

/// The script that replays a cut: before a buy, and within it.
pub fn scripts_of_replays()
    ensures within { replay_of (EventView.PowerOn ∷ []) EventView.Buy 3 true (7 ∷ [])
        ≡ EventView.PowerOn ∷ EventView.Cut 3 true (7 ∷ []) ∷ EventView.Buy
        ∷ EventView.PowerOn ∷ [] }
    ensures before { replay_of [] EventView.PowerOn 0 false []
        ≡ EventView.Cut 0 false [] ∷ EventView.PowerOn ∷ EventView.PowerOn ∷ [] }
{}
