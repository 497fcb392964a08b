//! The table of commands: for each row its name, its arguments in order, and what it does; and the
//! command that the arguments of a run are, which is a row with the values of its arguments.

ghost use Rattle.std.specs.Prelude.{◌≡◌, option_map, map, string_bytes};
ghost use Rattle.cli_words.specs.Rows.{command_from, command_of, first_command, row_command, row_from, row_of};

use crate::arguments::Word::{
    self, Binary, Command, Cpu, Elf, Family, Flash, Image, Json, Kind, Number, Otp, OtpJson, Out,
    OutFlash, OutOtp, Pattern, Require, Script, SourceImage, Spec, Text, Uf2,
};
use crate::values::{Values, row_values};

/// A row of the table, which is one way to ask for a command.
#[derive(Clone, Copy, PartialEq, Eq, Debug)]
pub enum Verb {
    /// Which image a boot starts.
    Boot,
    /// The partition table, and the image in each window.
    Info,
    /// Which image a boot starts, and the data that it owns.
    OwnedData,
    /// Why a boot decides as it does.
    Explain,
    /// Where the chip may decide otherwise than the model on a boot.
    Caveats,
    /// A picture of a flash.
    Map,
    /// What a script does to a machine.
    Replay,
    /// What a normal boot makes of each loss of power in a script's session.
    Sweep,
    /// A picture of a sweep.
    Chart,
    /// What a normal boot makes of each loss of power in a script.
    Cuts,
    /// Whether an update does what it is for, also where it loses power.
    Check,
    /// Whether an update meets what is asked of it.
    CheckAsked,
    /// The sealed image of a binary.
    Seal,
    /// The sealed image of an ELF file.
    Elf,
    /// Whether an image is firm.
    Firm,
    /// The partition table of a text.
    Table,
    /// The OTP file of a board that a text describes.
    OtpFile,
    /// The UF2 file of an image.
    Uf2,
    /// The script that writes an image to where a download goes.
    Plan,
    /// The script that writes an image in ascending order.
    Load,
    /// The script that writes an image with the page of its first block last.
    Stage,
    /// The script of a host that copies a UF2 file to the board's drive.
    Copy,
    /// A script as text.
    ListScript,
    /// The script of a text.
    WriteScript,
    /// The script of a text that takes bytes of an image.
    WriteImageScript,
    /// The flash of a number.
    Gen,
    /// How the program is used.
    Usage,
    /// How the program is used, by a dash and a letter.
    ShortUsage,
    /// How the program is used, by a word without a dash.
    WordUsage,
    /// How one command is used.
    Help,
    /// The version of the program.
    Release,
}

/// The name and the arguments of a row, and what it does.
#[derive(Clone, Copy)]
pub struct Row {
    /// The name of the command.
    pub name: &'static str,
    /// The arguments after the name, in order.
    pub words: &'static [Word],
    /// What the command does, in a line.
    pub does: &'static str,
}

impl Verb {
    /// The row.
    pub fn row(self) -> Row
        ensures { row_from result ≡ row_of self }
    {
        match self {
            Verb::Boot => Row {
                name: "boot",
                words: &[Flash, Otp, Cpu, Kind],
                does: "which image a boot starts, or why it falls to BOOTSEL",
            },
            Verb::Info => Row {
                name: "info",
                words: &[Flash, Otp, Cpu],
                does: "the partition table, and the image in each window or why there is none",
            },
            Verb::OwnedData => Row {
                name: "data",
                words: &[Flash, Otp, Cpu, Kind],
                does: "the same as boot, and the windows of the data that the image owns",
            },
            Verb::Explain => Row {
                name: "explain",
                words: &[Flash, Otp, Cpu, Kind],
                does: "why a boot decides so: each table, partition, unit and image",
            },
            Verb::Caveats => Row {
                name: "caveats",
                words: &[Flash, Otp, Cpu, Kind],
                does: "the same as boot, and where the chip may decide otherwise",
            },
            Verb::Map => Row {
                name: "map",
                words: &[Flash, Otp, Cpu, Out],
                does: "a picture of the flash, in SVG: what is where, and what a boot starts",
            },
            Verb::Replay => Row {
                name: "replay",
                words: &[Flash, Otp, Cpu, Script, OutFlash, OutOtp],
                does: "what each event of a script does, and what it leaves",
            },
            Verb::Sweep => Row {
                name: "sweep",
                words: &[Flash, Otp, Cpu, Script, Pattern],
                does: "what a boot makes of each loss of power in a script's session",
            },
            Verb::Chart => Row {
                name: "chart",
                words: &[Flash, Otp, Cpu, Script, Pattern, Out],
                does: "the same as a picture: a file in SVG",
            },
            Verb::Cuts => Row {
                name: "cuts",
                words: &[Flash, Otp, Cpu, Script, Pattern],
                does: "what a boot makes of each loss of power in any script",
            },
            Verb::Check => Row {
                name: "check",
                words: &[Flash, Otp, Cpu, Script, Pattern],
                does: "whether a script does what an update is for",
            },
            Verb::CheckAsked => Row {
                name: "check",
                words: &[Flash, Otp, Cpu, Script, Pattern, Require],
                does: "the same, by what a team asks of an update",
            },
            Verb::Seal => Row {
                name: "seal",
                words: &[Binary, Spec, Out],
                does: "the sealed image of a binary: with a version, a load map and a digest",
            },
            Verb::Elf => Row {
                name: "elf",
                words: &[Elf, Spec, Out],
                does: "the sealed image of an ELF file, as a linker writes it",
            },
            Verb::Firm => Row {
                name: "firm",
                words: &[Image, Cpu],
                does: "whether an image is firm: its definition and digest follow its first sector",
            },
            Verb::Table => Row {
                name: "table",
                words: &[Json, Out],
                does: "the partition table of a text, as the first sector of a flash",
            },
            Verb::OtpFile => Row {
                name: "otp",
                words: &[OtpJson, Out],
                does: "the OTP file of a board that is told in words",
            },
            Verb::Uf2 => Row {
                name: "uf2",
                words: &[Image, Family, Out],
                does: "the UF2 file of an image",
            },
            Verb::Plan => Row {
                name: "plan",
                words: &[Flash, Otp, Cpu, Image, Out],
                does: "a script that writes an image to where a download of it goes",
            },
            Verb::Load => Row {
                name: "load",
                words: &[Flash, Otp, Cpu, Image, Out],
                does: "a script that writes an image there in ascending order, as a host does",
            },
            Verb::Stage => Row {
                name: "stage",
                words: &[Flash, Otp, Cpu, Image, Out],
                does: "a script that writes an image there with the page of its first block last",
            },
            Verb::Copy => Row {
                name: "copy",
                words: &[Uf2, Out],
                does: "a script of a host that copies a UF2 file to the board's drive",
            },
            Verb::ListScript => Row {
                name: "list",
                words: &[Script],
                does: "a script as text, with comments that say what its records are",
            },
            Verb::WriteScript => Row {
                name: "script",
                words: &[Text, Out],
                does: "the script of such a text",
            },
            Verb::WriteImageScript => Row {
                name: "script",
                words: &[Text, SourceImage, Out],
                does: "the same, with bytes of an image where the text says so",
            },
            Verb::Gen => Row {
                name: "gen",
                words: &[Number],
                does: "the digest of a flash that is made of a number, and what boots on it",
            },
            Verb::Usage => Row {
                name: "--help",
                words: &[],
                does: "this text",
            },
            Verb::ShortUsage => Row {
                name: "-h",
                words: &[],
                does: "the same",
            },
            Verb::WordUsage => Row {
                name: "help",
                words: &[],
                does: "the same",
            },
            Verb::Help => Row {
                name: "help",
                words: &[Command],
                does: "how one command is used",
            },
            Verb::Release => Row {
                name: "--version",
                words: &[],
                does: "the version of the program",
            },
        }
    }
}

/// The rows, in the order of the usage.
pub const VERBS: [Verb; 31] = [
    Verb::Boot,
    Verb::Info,
    Verb::OwnedData,
    Verb::Explain,
    Verb::Caveats,
    Verb::Map,
    Verb::Replay,
    Verb::Sweep,
    Verb::Chart,
    Verb::Cuts,
    Verb::Check,
    Verb::CheckAsked,
    Verb::Seal,
    Verb::Elf,
    Verb::Firm,
    Verb::Table,
    Verb::OtpFile,
    Verb::Uf2,
    Verb::Plan,
    Verb::Load,
    Verb::Stage,
    Verb::Copy,
    Verb::ListScript,
    Verb::WriteScript,
    Verb::WriteImageScript,
    Verb::Gen,
    Verb::Usage,
    Verb::ShortUsage,
    Verb::WordUsage,
    Verb::Help,
    Verb::Release,
];

/// A command: a row of the table, and the values of its arguments.
#[derive(Clone, Copy, Drop)]
pub struct CommandLine<'a> {
    /// The row.
    pub verb: Verb,
    /// The values of its arguments.
    pub values: Values<'a>,
}

/// The command of the arguments after a name, where they are this row.
fn row_command<'a>(verb: Verb, name: &str, words: &'a [String]) -> Option<CommandLine<'a>>
    ensures { option_map command_from result
        ≡ row_command verb name.now (map string_bytes words.entry.now) }
{
    let row = verb.row();
    if row.name == name {
        let values = row_values(row.words, words)?;
        Some(CommandLine { verb, values })
    } else {
        None
    }
}

/// The command of the first of these rows that the arguments after a name are.
fn first_command<'a>(verbs: &[Verb], name: &str, words: &'a [String]) -> Option<CommandLine<'a>>
    ensures { option_map command_from result
        ≡ first_command verbs.now name.now (map string_bytes words.entry.now) }
{
    for verb in verbs {
        if let Some(command) = row_command(*verb, name, words) {
            return Some(command);
        }
    }
    None
}

/// The command that the arguments are. None exactly where they are no command.
pub fn find_command(words: &[String]) -> Option<CommandLine<'_>>
    ensures { option_map command_from result ≡ command_of (map string_bytes words.entry.now) }
{
    match words {
        [name, words @ ..] => first_command(&VERBS, name, words),
        [] => None,
    }
}
