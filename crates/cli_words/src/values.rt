//! The values of a command's arguments.

ghost use Rattle.std.specs.Prelude.{◌≡◌, map, option_map, string_bytes};
ghost use Rattle.text_words.specs.Reading.{number_of};
ghost use Rattle.cli_words.specs.Rows.{is_row_name, with_word, with_words, row_values};
ghost use Rattle.cli_words.specs.Values.{boot_kind_of, no_values, update_base, values_from};

use crate::arguments::Word;
use crate::rows::VERBS;
use part_table::family_of;
use pico_board::{BootKind, Cpu};
use text_words::{decimal_number, hex_number};

/// The values of a command's arguments. A command has at most one argument of each kind, and at
/// most one file that it works on. A value that it does not have is an empty text, 0, or the first
/// of its type.
#[derive(Clone, Copy, Drop)]
pub struct Values<'a> {
    /// The processor.
    pub cpu: Cpu,
    /// The boot type.
    pub kind: BootKind,
    /// The name of the flash file.
    pub flash: &'a str,
    /// The name of the OTP file.
    pub otp: &'a str,
    /// The name of the file that the command works on: a script, an image, a text and the like.
    pub file: &'a str,
    /// The name of the file whose bytes a cut within a step leaves.
    pub pattern: &'a str,
    /// The name of the text that says what is asked of an update.
    pub require: &'a str,
    /// The name of the text that says what an image is asked to be.
    pub spec: &'a str,
    /// The name of the image of which a script takes bytes.
    pub image: &'a str,
    /// The name of the flash that is left.
    pub out_flash: &'a str,
    /// The name of the OTP that is left.
    pub out_otp: &'a str,
    /// The name of the file to write.
    pub out: &'a str,
    /// The UF2 family.
    pub family: u32,
    /// The number.
    pub number: u32,
    /// The name of a command.
    pub command: &'a str,
}

impl<'a> Values<'a> {
    /// The values where there is no argument.
    fn none() -> Values<'a>
        ensures { values_from result ≡ no_values }
    {
        Values {
            cpu: Cpu::Arm,
            kind: BootKind::Normal,
            flash: "",
            otp: "",
            file: "",
            pattern: "",
            require: "",
            spec: "",
            image: "",
            out_flash: "",
            out_otp: "",
            out: "",
            family: 0,
            number: 0,
            command: "",
        }
    }
}

/// The base of an update: `update=0x` and eight hexadecimal digits.
fn update_base(word: &[u8]) -> Option<u32>
    ensures { result ≡ update_base word.now }
{
    if word.len() == 17 && &word[..9] == b"update=0x".as_slice() {
        hex_number(&word[9..])
    } else {
        None
    }
}

/// The boot type that an argument names.
fn kind_word(word: &str) -> Option<BootKind>
    ensures { result ≡ boot_kind_of word.now }
{
    if word == "normal" {
        Some(BootKind::Normal)
    } else if word == "bootsel" {
        Some(BootKind::Bootsel)
    } else {
        Some(BootKind::Update(update_base(word.as_bytes())?))
    }
}

/// The number below 2^32 that an argument of 1 to 10 decimal digits is.
fn number_word(word: &str) -> Option<u32>
    ensures { result ≡ number_of word.now }
{
    decimal_number(word.as_bytes())
}

/// Whether an argument is the name of a row.
fn is_row_name(word: &str) -> bool
    ensures { result ≡ is_row_name word.now }
{
    VERBS.iter().any(|verb| verb.row().name == word)
}

/// The values with that of one argument more, where the argument is of this kind.
fn with_word<'a>(kind: Word, word: &'a str, values: Values<'a>) -> Option<Values<'a>>
    ensures { option_map values_from result ≡ with_word kind word.now (values_from values.entry) }
{
    let mut values = values;
    match kind {
        Word::Cpu => values.cpu = Cpu::named(word)?,
        Word::Kind => values.kind = kind_word(word)?,
        Word::Flash => values.flash = word,
        Word::Otp => values.otp = word,
        Word::Pattern => values.pattern = word,
        Word::Require => values.require = word,
        Word::Spec => values.spec = word,
        Word::SourceImage => values.image = word,
        Word::OutFlash => values.out_flash = word,
        Word::OutOtp => values.out_otp = word,
        Word::Out => values.out = word,
        Word::Family => values.family = family_of(word)?,
        Word::Number => values.number = number_word(word)?,
        Word::Command if is_row_name(word) => values.command = word,
        Word::Command => return None,
        Word::Script | Word::Binary | Word::Elf | Word::Json | Word::OtpJson => values.file = word,
        Word::Image | Word::Uf2 | Word::Text => values.file = word,
    }
    Some(values)
}

/// The values with those of arguments that are of these kinds, one after another.
fn with_words<'a>(kinds: &[Word], words: &'a [String], values: Values<'a>) -> Option<Values<'a>>
    ensures { option_map values_from result
        ≡ with_words kinds.now (map string_bytes words.entry.now) (values_from values.entry) }
{
    let [kind, kinds @ ..] = kinds else {
        return Some(values);
    };
    let [word, words @ ..] = words else {
        return Some(values);
    };
    let values = with_word(*kind, word, values)?;
    with_words(kinds, words, values)
}

/// The values of so many arguments as there are kinds.
pub fn row_values<'a>(kinds: &[Word], words: &'a [String]) -> Option<Values<'a>>
    ensures { option_map values_from result
        ≡ row_values kinds.now (map string_bytes words.entry.now) }
{
    if kinds.len() == words.len() {
        with_words(kinds, words, Values::none())
    } else {
        None
    }
}
