//! Laws of plays, each the contract of a function that does nothing.

ghost use Rattle.std.specs.Prelude.{◌≡◌, ◌++◌, List, None, length, take};
ghost use Rattle.pico_board.specs.declared.boot.BootKind.{BootKind};
ghost use Rattle.pico_board.specs.Steps.{after_all};
ghost use Rattle.image_def.specs.declared.started.Started.{Started};
ghost use Rattle.boot_script.specs.Events.{EventView};
ghost use Rattle.boot_machine.specs.Boots.{booted};
ghost use Rattle.boot_machine.specs.Machines.{MachineView};
ghost use Rattle.boot_machine.specs.Moves.{armed_for, effect};
ghost use Rattle.boot_machine.specs.Plays.{told_cut};
ghost use Rattle.boot_tape.specs.declared.notes.Behind.TheVariants.{Boot, Buy, Nothing};
ghost use Rattle.boot_tape.specs.CutMoves.{cut_moves};
ghost use Rattle.boot_tape.specs.Doers.{doers, is_own_whole};
ghost use Rattle.boot_tape.specs.Traces.{IsBuy, behind, event_moves, moves_in, note_of, noted, own_moves, own_steps};

/// What is noted of the moves that are not a host's own. Where nothing is behind them, there are
/// none. A boot of the noted kind starts from what the own steps leave, and a buy is that of the
/// image that runs.
pub fn what_is_behind_own_steps()
    ensures nothing { (m : MachineView) (event : EventView) → behind m event ≡ Nothing
        → (effect m event).steps ≡ own_steps m event }
    ensures boot { (m : MachineView) (event : EventView) (kind : BootKind)
        → behind m event ≡ Boot kind → (effect m event).steps ≡ own_steps m event
        ++ (booted (after_all m.content (own_steps m event)) m.cpu kind None).steps }
    ensures buy { (m : MachineView) (event : EventView) (image : Started)
        → behind m event ≡ Buy image → IsBuy m event image }
{}

/// The first moves of an event are a host's own, as many as are noted. It is noted whether they are
/// whole. Each move of a script has its doer.
pub fn own_moves_come_first()
    ensures first { (m : MachineView) (event : EventView)
        → take (note_of m event).own (event_moves m event) ≡ own_moves m event }
    ensures whole { (m : MachineView) (event : EventView) → is_own_whole (note_of m event)
        ≡ (cut_moves (told_cut (armed_for m.armed event)) (own_steps m event)).whole }
    ensures aligned { (m : MachineView) (events : List EventView)
        → length (doers (noted m events)) ≡ length (moves_in m events) }
{}
