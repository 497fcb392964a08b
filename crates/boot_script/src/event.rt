//! What happens to a board in a script, and why a script is not read.

ghost use Rattle.std.specs.Prelude.{◌≡◌, length};

use pico_board::BootKind;
use thiserror::Error;

/// An event of a script.
#[derive(Clone, Copy, Debug, PartialEq, Eq)]
pub enum Event<'a> {
    /// The script ends.
    End,
    /// The host sends the 32 bytes of a command, and a payload.
    Command(&'a [u8; 32], &'a [u8]),
    /// The host writes a UF2 block.
    Uf2(&'a [u8; 512]),
    /// A cut is armed: the steps that complete before it, whether it falls within the next step,
    /// and the pattern that it leaves then.
    Cut(u32, bool, &'a [u8]),
    /// Power comes back.
    PowerOn,
    /// The board is reset, to a boot of this kind.
    Reset(BootKind),
    /// The running image buys itself.
    Buy,
}

impl<'a> Event<'a> {
    ghost use Rattle.std.specs.Prelude.{◌≡◌, length};
    ghost use Rattle.boot_script.specs.Events.{event_from};
    ghost use Rattle.boot_script.specs.Scripts.{is_end};
    ghost use Rattle.boot_script.specs.Written.{written_event};

    /// The number of its bytes in a script.
    pub fn size(&self) -> usize
        ensures { result ≡ length (written_event (event_from self.now)) }
    {
        match self {
            Event::End | Event::PowerOn | Event::Buy => 1,
            Event::Command(command, payload) => 5 + whole(command).len() + payload.len(),
            Event::Uf2(block) => 1 + whole(block).len(),
            Event::Cut(_, _, pattern) => 8 + pattern.len(),
            Event::Reset(_) => 6,
        }
    }

    /// Whether a script ends with the event.
    pub fn is_end(&self) -> bool
        ensures { result ≡ is_end (event_from self.now) }
    {
        match self {
            Event::End => true,
            Event::Command(..)
            | Event::Uf2(_)
            | Event::Cut(..)
            | Event::PowerOn
            | Event::Reset(_)
            | Event::Buy => false,
        }
    }
}

/// All the bytes of an array.
fn whole<const N: usize>(array: &[u8; N]) -> &[u8]
    ensures value { result.now ≡ array.now }
    ensures size { length array.now ≡ N }
{
    array
}

/// Why no event is read. Each names the offset of the event.
#[derive(Clone, Copy, Debug, PartialEq, Eq, Error)]
pub enum ScriptFault {
    /// The first byte is above 6. Or a reset's kind byte is not 0, 2 or 4, or its base is not 0
    /// where the reset is no update.
    #[error("the event at {0:#x} is of no kind")]
    Kind(u32),
    /// No byte is left, or the event runs past the end.
    #[error("the event at {0:#x} runs past the end")]
    Short(u32),
    /// A cut's part byte is above 1, or its pattern's size does not go with the part. Part 0 has
    /// no byte, and part 1 has 1 to 4096 bytes.
    #[error("the cut at {0:#x} has no pattern that fits")]
    Pattern(u32),
}

/// Why bytes are no script within the limits.
#[derive(Clone, Copy, Debug, PartialEq, Eq, Error)]
pub enum ScriptError {
    /// There are more than 67,108,864 bytes.
    #[error("the script is too large")]
    TooLarge,
    /// A record before the end has a fault.
    #[error("{0}")]
    Record(ScriptFault),
    /// None of the first 524,288 records is an end.
    #[error("the script has too many records")]
    TooMany,
}
