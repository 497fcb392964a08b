//! Laws of what events do to a machine whose board tells its armed cut, each the contract of a
//! function that does nothing.

ghost use Rattle.std.specs.Prelude.{◌≡◌, List, Option, Some};
ghost use Rattle.std.specs.List.{AllByRecursion};
ghost use Rattle.pico_board.specs.Cuts.{Cut};
ghost use Rattle.boot_script.specs.Events.{EventView};
ghost use Rattle.text_lines.specs.declared.outcome.EventOutcome.{EventOutcome};
ghost use Rattle.boot_machine.specs.Machines.{MachineView};
ghost use Rattle.boot_machine.specs.Moves.{Moves, Plays};
ghost use Rattle.boot_machine.specs.Plays.{IsOfBytes, IsTelling, moved_machine, played};

/// By the table of the machine, an event takes a machine whose board tells its armed cut to one
/// machine, with one outcome. They are those of the function.
pub fn told_moves_are_determined()
    ensures only { (m : MachineView) (cut : Option Cut) (event : EventView) (n : MachineView)
        (outcome : EventOutcome) → m.armed ≡ Some cut → Moves m event n outcome
        → (n ≡ (moved_machine m event).next) × (outcome ≡ (moved_machine m event).outcome) }
    ensures moves { (m : MachineView) (event : EventView) → IsTelling m → IsOfBytes event
        → Moves m event (moved_machine m event).next (moved_machine m event).outcome
        × IsTelling (moved_machine m event).next }
{}

/// Events take a machine whose board tells its armed cut to one machine, with one list of outcomes:
/// those of the function.
pub fn told_plays_are_determined()
    ensures only { (m : MachineView) (cut : Option Cut) (events : List EventView) (n : MachineView)
        (outcomes : List EventOutcome) → m.armed ≡ Some cut → Plays m events n outcomes
        → (n ≡ (played m events).last) × (outcomes ≡ (played m events).outcomes) }
    ensures plays { (m : MachineView) (events : List EventView) → IsTelling m
        → AllByRecursion IsOfBytes events
        → Plays m events (played m events).last (played m events).outcomes }
{}
