//! How a run ends.

ghost use Rattle.std.specs.Prelude.{◌≡◌};

/// How a run ends. The program's exit status is the number of the variant, counted from 0.
#[derive(Clone, Copy, PartialEq, Eq, Debug)]
pub enum Status {
    /// The command's text and files are written.
    Done,
    /// The arguments are no command.
    Words,
    /// An input breaks its form, or the work refuses it.
    Input,
    /// The boot falls to BOOTSEL.
    Bootsel,
    /// A file could not be read.
    ReadFault,
    /// A file could not be written.
    WriteFault,
    /// The text could not be put.
    OutputFault,
    /// There was no memory.
    Memory,
    /// Some loss of power, or the whole script, leaves nothing to start.
    Unbootable,
    /// Some loss of power, or the whole script, starts an image that stood whole neither before
    /// nor at the end.
    Mixed,
    /// An update does not do what it is for.
    NoEffect,
    /// A record of an update did nothing.
    Refused,
    /// Something else that is asked of an update is not met.
    Unmet,
}

impl Status {
    ghost use Rattle.cli_course.specs.Statuses.{exit_status};

    /// The number of the variant, with which the program ends.
    pub fn number(self) -> u8
        ensures { result ≡ exit_status self }
    {
        self as u8
    }
}
