//! Laws of the lines `law session`, each the contract of a function that does nothing. What a line
//! tells of the files at hand is what the laws of `boot_session` say of every torn content.

ghost use Rattle.std.specs.Prelude.{◌≡◌, ◌≢◌, ◌⊎◌, List, None};
ghost use Rattle.pico_board.specs.declared.boot.BootKind.TheVariants.{Normal};
ghost use Rattle.pico_board.specs.declared.boot.Cpu.{Cpu};
ghost use Rattle.pico_board.specs.declared.window.Window.{Window};
ghost use Rattle.pico_board.specs.Content.{Content, IsContent};
ghost use Rattle.pico_board.specs.Sessions.{Gated as AreGated, Unfinished};
ghost use Rattle.pico_board.specs.declared.Step.{Step};
ghost use Rattle.pico_board.specs.Steps.{CutOf, after_all};
ghost use Rattle.boot_rules.specs.AccidentalImages.{HasNoAccidentalImage};
ghost use Rattle.boot_rules.specs.Choosing.{decision_in};
ghost use Rattle.boot_rules.specs.Chosen.{Chosen};
ghost use Rattle.boot_rules.specs.Tables.{table_in};
ghost use Rattle.boot_script.specs.Events.{EventView};
ghost use Rattle.boot_sweep.specs.Refusals.{KeepsToSlot, StartsIn};
ghost use Rattle.boot_session.specs.CutSessions.{StartsFinished, StartsThere};
ghost use Rattle.check_require.specs.declared.report.LawOfWrites.{LawOfWrites};
ghost use Rattle.check_laws.specs.OwnLaws.{IsBootLaw, IsBuyLaw};
ghost use Rattle.check_laws.specs.declared.found.SessionFound.{SessionFound};
ghost use Rattle.check_laws.specs.declared.found.SessionFound.TheVariants.{Confined, Gated, Open, Staged};
ghost use Rattle.check_laws.specs.declared.found.Reason.TheVariants.{Order, Running, Script, Table, Windows};
ghost use Rattle.check_laws.specs.Hosts.{HostWrites, IsHosts, first_content};
ghost use Rattle.check_laws.specs.SessionLaws.{Holds, IsSessionLaw, IsStepsLaw, host_steps};
ghost use Rattle.check_laws.specs.Staged.{Staged as AreStaged};

/// A script has one law of its session at most.
pub fn one_law_of_a_session()
    ensures { (c : Content) (cpu : Cpu) (events : List EventView) (a b : SessionFound)
        → IsContent c → IsSessionLaw c cpu events a → IsSessionLaw c cpu events b → a ≡ b }
{}

/// The boots of a script have one law at most, and so have its buys.
pub fn one_law_of_writes()
    ensures boots { (c : Content) (cpu : Cpu) (events : List EventView) (a b : LawOfWrites)
        → IsBootLaw c cpu events a → IsBootLaw c cpu events b → a ≡ b }
    ensures buys { (c : Content) (cpu : Cpu) (events : List EventView) (a b : LawOfWrites)
        → IsBuyLaw c cpu events a → IsBuyLaw c cpu events b → a ≡ b }
{}

/// Let `confined` be told of a window, and power be lost in the host's steps, whatever bytes that
/// tears. Then the next normal boot decides as before them, or starts an image that is valid in the
/// window. So a board that started never falls to BOOTSEL.
pub fn a_confined_law_holds()
    ensures { (c : Content) (cpu : Cpu) (events : List EventView) (w : Window) (d : Content)
        → IsContent c → IsSessionLaw c cpu events (Confined w)
        → CutOf (first_content c cpu) (host_steps c cpu events) d
        → Chosen d cpu Normal (decision_in (first_content c cpu) cpu Normal)
        ⊎ StartsThere d w cpu }
{}

/// Let `gated` be told of a window, and power be lost in the host's steps, whatever bytes that
/// tears. Then the next normal boot decides as before them, or makes the start that it makes after
/// them, of an image with the same bytes. That an unfinished content has the former table, and no
/// accidental image in the window, is the premise that no file can show.
pub fn a_gated_law_holds()
    ensures { (c : Content) (cpu : Cpu) (events : List EventView) (w : Window) (d : Content)
        → IsContent c → IsSessionLaw c cpu events (Gated w)
        → CutOf (first_content c cpu) (host_steps c cpu events) d
        → (Unfinished (first_content c cpu) (host_steps c cpu events) w d
        → HasNoAccidentalImage (first_content c cpu)
        (after_all (first_content c cpu) (host_steps c cpu events)) d w cpu)
        → Chosen d cpu Normal (decision_in (first_content c cpu) cpu Normal)
        ⊎ StartsFinished (after_all (first_content c cpu) (host_steps c cpu events)) d cpu }
{}

/// The same where `staged` is told of a window. That a cut before a step needs no premise is the
/// law on staged sessions.
pub fn a_staged_law_holds()
    ensures { (c : Content) (cpu : Cpu) (events : List EventView) (w : Window) (d : Content)
        → IsContent c → IsSessionLaw c cpu events (Staged w)
        → CutOf (first_content c cpu) (host_steps c cpu events) d
        → (Unfinished (first_content c cpu) (host_steps c cpu events) w d
        → HasNoAccidentalImage (first_content c cpu)
        (after_all (first_content c cpu) (host_steps c cpu events)) d w cpu)
        → Chosen d cpu Normal (decision_in (first_content c cpu) cpu Normal)
        ⊎ StartsFinished (after_all (first_content c cpu) (host_steps c cpu events)) d cpu }
{}

/// Of the reasons and laws of a host's steps the first that holds is told, whatever those behind it
/// are.
pub fn the_first_that_holds_is_told()
    ensures script { (c : Content) (cpu : Cpu) (events : List EventView) (law : SessionFound)
        → IsContent c → HostWrites c cpu events → (IsHosts c cpu events → ⊥)
        → IsSessionLaw c cpu events law → law ≡ Open Script }
    ensures windows { (c : Content) (cpu : Cpu) (steps : List Step) (law : SessionFound)
        → IsContent c → ((w : Window) → KeepsToSlot c cpu steps w → ⊥)
        → IsStepsLaw c cpu steps law → law ≡ Open Windows }
    ensures running { (c : Content) (cpu : Cpu) (steps : List Step) (law : SessionFound)
        (w : Window) → IsContent c → KeepsToSlot c cpu steps w → StartsIn c cpu w
        → IsStepsLaw c cpu steps law → law ≡ Open Running }
    ensures table { (c : Content) (cpu : Cpu) (steps : List Step) (law : SessionFound)
        (w : Window) → IsContent c → KeepsToSlot c cpu steps w → (StartsIn c cpu w → ⊥)
        → table_in (after_all c steps) ≢ table_in c
        → IsStepsLaw c cpu steps law → law ≡ Open Table }
    ensures order { (c : Content) (cpu : Cpu) (steps : List Step) (law : SessionFound)
        (w : Window) → IsContent c → Holds c cpu steps w → table_in c ≡ None
        → (AreGated steps w → ⊥) → (AreStaged c steps w cpu → ⊥)
        → IsStepsLaw c cpu steps law → law ≡ Open Order }
    ensures staged { (c : Content) (cpu : Cpu) (steps : List Step) (law : SessionFound)
        (w : Window) → IsContent c → Holds c cpu steps w → AreStaged c steps w cpu
        → IsStepsLaw c cpu steps law → law ≡ Staged w }
    ensures gated { (c : Content) (cpu : Cpu) (steps : List Step) (law : SessionFound)
        (w : Window) → IsContent c → Holds c cpu steps w → AreGated steps w
        → (AreStaged c steps w cpu → ⊥)
        → IsStepsLaw c cpu steps law → law ≡ Gated w }
    ensures confined { (c : Content) (cpu : Cpu) (steps : List Step) (law : SessionFound)
        (w : Window) → IsContent c → Holds c cpu steps w → table_in c ≢ None
        → (AreGated steps w → ⊥) → (AreStaged c steps w cpu → ⊥)
        → IsStepsLaw c cpu steps law → law ≡ Confined w }
{}
