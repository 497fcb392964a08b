//! What a loss of power leaves in the writes of a script's boots and of its buys.

ghost use Rattle.std.specs.Prelude.{◌≢◌, ◌⊎◌, ℕ, Contains, List, []};
ghost use Rattle.std.specs.List.{AllByRecursion};
ghost use Rattle.pico_board.specs.declared.Step.{Step};
ghost use Rattle.pico_board.specs.declared.boot.BootKind.TheVariants.{Normal};
ghost use Rattle.pico_board.specs.declared.boot.Cpu.{Cpu};
ghost use Rattle.pico_board.specs.Content.{Content, IsContent};
ghost use Rattle.pico_board.specs.Steps.{IsCutAt, after_all};
ghost use Rattle.slot_choice.specs.declared.choice.Choice.{Choice};
ghost use Rattle.boot_rules.specs.Chosen.{Chosen};
ghost use Rattle.boot_rules.specs.declared.decision.Decision.{Decision};
ghost use Rattle.boot_rules.specs.declared.decision.Decision.TheVariants.{Start};
ghost use Rattle.boot_script.specs.Events.{EventView};
ghost use Rattle.boot_machine.specs.Machines.{MachineView};
ghost use Rattle.boot_machine.specs.Plays.{IsOfBytes, powerless};
ghost use Rattle.boot_session.specs.CutSessions.{StartsFinished};
ghost use Rattle.boot_tape.specs.declared.trace.Trace.{Trace};
ghost use Rattle.boot_tape.specs.Playing.{IsTraceOf};
ghost use Rattle.check_require.specs.declared.report.LawOfWrites.TheVariants.{Kept};
ghost use Rattle.check_laws.specs.OwnLaws.{BootMade, BuyMade, IsBootKept, IsBootLaw, IsBuyKept, IsBuyLaw, boots_in, buys_in};
ghost use Rattle.law_boot_cuts.specs.Crashes.{LeavesNoAccidentalImage};
ghost use Rattle.law_boot_cuts.specs.Running.{RunsTrial};
ghost use Rattle.law_updates.specs.Made.{BeginsBoot, BeginsBuy};
ghost use Rattle.law_updates.specs.Played.{IsOnBoard};

use boot_machine::laws::run::a_running_trial_is_chosen;

/// Let a boot of a script start an image, and be kept: it starts the image that a normal boot would
/// start and raises rows alone; or there is a table, and no image of another boot unit lists a row
/// whose triple shares a row with one that the boot raises. It does all steps of the start, or the
/// first ones, where power is lost in the next. Then what a loss of power in the steps that it does
/// leaves boots as before them, or starts whole what starts after them. But where an erase or a
/// program is cut, this may leave an accidental image in the window that the step writes.
pub fn boots_that_are_kept()
    ensures { (cpu : Cpu) (b : BootMade) (choice : Choice) (k : ℕ) (step : Step) (d : Content)
        (former : Decision)
        → IsContent b.before → BeginsBoot cpu b choice → IsBootKept cpu b
        → IsCutAt b.before b.done k step d
        → LeavesNoAccidentalImage b.before (after_all b.before b.done) d cpu choice step
        → Chosen b.before cpu Normal former
        → Chosen d cpu Normal former ⊎ StartsFinished (after_all b.before b.done) d cpu }
{}

/// What `law buy=kept` says, of the buy of a trial image that runs. It does all steps of the buy,
/// or the first ones, where power is lost in the next. Let the content before it have a table, and
/// let no image of another boot unit list a row whose triple shares a row with one that the buy
/// raises. Then what a loss of power in the steps that it does leaves boots as before them, or
/// starts whole what starts after them. But where an erase or a program is cut, this may leave an
/// accidental image in the window that the step writes. So it may start half-written, where it has
/// no digest.
pub fn buys_that_are_kept()
    ensures { (m n : MachineView) (b : BuyMade) (k : ℕ) (step : Step) (d : Content)
        (former : Decision)
        → RunsTrial m n b.choice → IsContent b.before → BeginsBuy n b → IsBuyKept n.cpu b
        → IsCutAt b.before b.done k step d
        → LeavesNoAccidentalImage b.before (after_all b.before b.done) d n.cpu b.choice step
        → Chosen b.before n.cpu Normal former
        → Chosen d n.cpu Normal former ⊎ StartsFinished (after_all b.before b.done) d n.cpu }
{
    a_running_trial_is_chosen();
}

/// The trace of a script, which is found wherever no more than 262,144 steps complete, tells that
/// each of its steps lies in the board. So the laws below hold of each script that has a trace.
pub fn a_traced_script_is_on_a_board()
    ensures { (c : Content) (cpu : Cpu) (events : List EventView) (found : Trace)
        → IsContent c → AllByRecursion IsOfBytes events → IsTraceOf c cpu events found
        → IsOnBoard c cpu events }
{}

/// What the boots of a script do. Each boot is made on the content of a board. One that does a step
/// starts an image, and the steps that it completes are the first ones of the start: all, or those
/// before the one in which a cut of the script falls due.
pub fn boots_of_a_script()
    ensures content { (c : Content) (cpu : Cpu) (events : List EventView) (b : BootMade)
        → IsOnBoard c cpu events → Contains (boots_in (powerless c cpu) events) b
        → IsContent b.before }
    ensures starts { (c : Content) (cpu : Cpu) (events : List EventView) (b : BootMade)
        → IsOnBoard c cpu events → Contains (boots_in (powerless c cpu) events) b
        → b.done ≢ [] → (choice : Choice) × BeginsBoot cpu b choice }
{}

/// What the buys of a script do. Each buy is made on the content of a board. One that does a step
/// is that of a trial image that runs, and the steps that it completes are the first ones of the
/// buy.
pub fn buys_of_a_script()
    ensures content { (c : Content) (cpu : Cpu) (events : List EventView) (b : BuyMade)
        → IsOnBoard c cpu events → Contains (buys_in (powerless c cpu) events) b
        → IsContent b.before }
    ensures runs { (c : Content) (cpu : Cpu) (events : List EventView) (b : BuyMade)
        → IsOnBoard c cpu events → Contains (buys_in (powerless c cpu) events) b
        → b.done ≢ []
        → (n : MachineView) × RunsTrial (powerless c cpu) n b.choice × BeginsBuy n b }
{}

/// The line `law boot=kept` of a script, brought to its boots. Let power be lost in one of the
/// steps that a boot of the script completes, whatever bytes that tears. Then what is left boots as
/// before the boot, or starts whole what starts after the steps that it completes: those of a whole
/// start, or the first ones, where a cut of the script's own falls due in it. But a cut erase or
/// program may leave an accidental image in the window that it writes.
pub fn the_law_of_boots_holds()
    ensures { (c : Content) (cpu : Cpu) (events : List EventView) (b : BootMade) (choice : Choice)
        (k : ℕ) (step : Step) (d : Content) (former : Decision)
        → IsOnBoard c cpu events → IsBootLaw c cpu events Kept
        → Contains (boots_in (powerless c cpu) events) b
        → Chosen b.before cpu b.kind (Start choice) → Chosen b.before cpu Normal former
        → IsCutAt b.before b.done k step d
        → LeavesNoAccidentalImage b.before (after_all b.before b.done) d cpu choice step
        → Chosen d cpu Normal former ⊎ StartsFinished (after_all b.before b.done) d cpu }
{}

/// The line `law buy=kept` of a script, brought to its buys. Let power be lost in one of the steps
/// that a buy of the script completes, whatever bytes that tears. Then what is left boots as before
/// the buy, or starts whole what starts after the steps that it completes. But a cut erase or
/// program may leave an accidental image in the window that it writes.
pub fn the_law_of_buys_holds()
    ensures { (c : Content) (cpu : Cpu) (events : List EventView) (b : BuyMade) (k : ℕ)
        (step : Step) (d : Content) (former : Decision)
        → IsOnBoard c cpu events → IsBuyLaw c cpu events Kept
        → Contains (buys_in (powerless c cpu) events) b → Chosen b.before cpu Normal former
        → IsCutAt b.before b.done k step d
        → LeavesNoAccidentalImage b.before (after_all b.before b.done) d cpu b.choice step
        → Chosen d cpu Normal former ⊎ StartsFinished (after_all b.before b.done) d cpu }
{
    a_running_trial_is_chosen();
}
