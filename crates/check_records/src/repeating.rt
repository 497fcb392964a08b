//! Whether a script comes to the same end where it is played again.

ghost use Rattle.std.specs.Prelude.{◌≡◌, List, ℕ};
ghost use Rattle.std.specs.List.{list_any};
ghost use Rattle.pico_board.specs.declared.boot.Cpu.{Cpu};
ghost use Rattle.pico_board.specs.Content.{Content};
ghost use Rattle.boot_script.specs.Events.{EventView};
ghost use Rattle.boot_tape.specs.Traces.{trace, trace_steps};
ghost use Rattle.boot_machine.specs.Plays.{powerless};
ghost use Rattle.check_records.specs.Again.{AreCutFacts, IsAgain, again_by};
ghost use Rattle.check_records.specs.Shares.{shares};
ghost use Rattle.check_records.specs.Unerased.{first_unerased};
ghost use Rattle.check_records.specs.Unfinished.{is_beginning};

use crate::found::Again;

/// The first of three that stands against it.
fn again_by(unerased: Option<usize>, other_table: bool, begins: bool, other_class: bool) -> Again
    ensures { result ≡ again_by unerased other_table begins other_class }
{
    if let Some(step) = unerased {
        return Again::NoStep(step);
    }
    if other_table {
        Again::NoTable
    } else if begins && other_class {
        Again::NoTarget
    } else {
        Again::Yes
    }
}

/// What stands against it that a script is played again: the first of three.
///
/// `unerased` is the first step of its trace that programs a page whose sector no step before it
/// erases. `other_table` says that a loss of power leaves another partition table, and
/// `other_class` that one has another class than `former` and `bootsel`. `begins` says that an
/// event begins a download.
pub fn again_of(
    unerased: Option<usize>,
    other_table: bool,
    begins: bool,
    other_class: bool,
) -> Again
    ensures function { result ≡ again_by unerased other_table begins other_class }
    ensures again { (c : Content) (cpu : Cpu) (events : List EventView) (pattern : List ℕ)
        → unerased ≡ first_unerased (trace_steps (trace c cpu events).done)
        → begins ≡ list_any is_beginning (shares (powerless c cpu) events)
        → AreCutFacts c cpu events pattern other_table other_class
        → IsAgain c cpu events pattern result }
{
    again_by(unerased, other_table, begins, other_class)
}
