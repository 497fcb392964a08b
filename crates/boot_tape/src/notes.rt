//! What is noted of the events of a script, and who does each of its moves.

ghost use Rattle.std.specs.Prelude.{◌≡◌, ◌++◌, IfOk, OnOk, replicate};
ghost use Rattle.boot_tape.specs.Doers.{doers, doers_behind, is_boot, note_doers};

use boot_rules::Started;
use pico_board::BootKind;
use std::alloc::{AllocError, Global};
use text_lines::EventOutcome;

/// Who does a step.
#[derive(Clone, Copy, PartialEq, Eq, Debug)]
pub enum Doer {
    /// A host, by a command or a UF2 block.
    Host,
    /// A boot.
    Boot,
    /// An image that buys itself.
    Buy,
}

/// What makes the moves of an event that are not a host's own.
#[derive(Drop)]
pub enum Behind {
    /// Nothing: a host does all of them itself, or there are none.
    Nothing,
    /// A boot of this kind.
    Boot(BootKind),
    /// This image, which runs, buys itself.
    Buy(Started),
}

/// Whether a boot makes the moves.
pub fn is_boot(behind: &Behind) -> bool
    ensures { result ≡ is_boot behind.now }
{
    match behind {
        Behind::Boot(_) => true,
        Behind::Nothing | Behind::Buy(_) => false,
    }
}

/// What is noted of an event of a script.
#[derive(Drop)]
pub struct Note {
    /// What comes of it where no power is lost, before a boot that a host's event asks for.
    pub outcome: EventOutcome,
    /// How many of its moves a host's event does itself. They are the first ones.
    pub own: usize,
    /// What makes its other moves.
    pub behind: Behind,
    /// How many moves it does: the steps that complete, and one that the script's own cut cuts.
    pub moves: usize,
    /// Whether all its steps complete.
    pub whole: bool,
}

/// What came of an event whose steps all complete, and how many steps of a host's event itself were
/// traced.
#[derive(Drop)]
pub(crate) struct Came {
    /// What came of it, before a boot that a host's event asks for.
    pub outcome: EventOutcome,
    /// The steps of its own that were traced.
    pub own: usize,
    /// What makes its other moves.
    pub behind: Behind,
}

/// Adds so many moves of this doer.
fn add_moves(doers: &mut Vec<Doer>, doer: Doer, count: usize) -> Result<(), AllocError>
    ensures { OnOk result (doers.new.items ≡ doers.old.items ++ replicate count doer) }
{
    for _ in 0..count {
        doers.push(doer)?;
    }
    Ok(())
}

/// Adds the doer of so many moves that are not a host's own.
fn add_behind(doers: &mut Vec<Doer>, behind: &Behind, count: usize) -> Result<(), AllocError>
    ensures { OnOk result (doers.new.items
        ≡ doers.old.items ++ doers_behind behind.now count) }
{
    match behind {
        Behind::Nothing => Ok(()),
        Behind::Boot(_) => add_moves(doers, Doer::Boot, count),
        Behind::Buy(_) => add_moves(doers, Doer::Buy, count),
    }
}

/// Adds the doer of each move of an event.
fn add_note(doers: &mut Vec<Doer>, note: &Note) -> Result<(), AllocError>
    ensures { OnOk result (doers.new.items ≡ doers.old.items ++ note_doers note.now) }
{
    add_moves(doers, Doer::Host, note.own)?;
    add_behind(doers, &note.behind, note.moves.saturating_sub(note.own))?;
    Ok(())
}

/// Who does each move of a script, by what was noted of its events. It fails only where memory is
/// out.
pub fn doers_of(alloc: Global, notes: &[Note]) -> Result<Vec<Doer>, AllocError>
    ensures { IfOk result (λ found. found.items ≡ doers notes.now) }
{
    let mut found = Vec::new(alloc);
    for note in notes {
        add_note(&mut found, note)?;
    }
    Ok(found)
}
