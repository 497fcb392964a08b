//! The forms of input files.

ghost use Rattle.std.specs.Prelude.{◌≡◌};
ghost use Rattle.cli_inputs.specs.Forms.{limit_of};

use crate::limits::{
    BINARY_LIMIT, ELF_LIMIT, FLASH_LIMIT, IMAGE_LIMIT, JSON_LIMIT, OTP_LIMIT, PATTERN_LIMIT,
    TEXT_LIMIT, UF2_LIMIT,
};
use boot_script::SCRIPT_LIMIT;

/// The form of an input file.
#[derive(Clone, Copy, PartialEq, Eq, Debug)]
pub enum Form {
    /// The bytes of a flash.
    Flash,
    /// The rows of an OTP, of four bytes each.
    Otp,
    /// The records of a script, up to its end.
    Script,
    /// The bytes that a cut within a step leaves.
    Pattern,
    /// The JSON text of what is asked of an update.
    Require,
    /// Any bytes; an image is made of them.
    Binary,
    /// The JSON text of the spec of a sealed image.
    Spec,
    /// The JSON text of a partition table.
    Json,
    /// The JSON text of an OTP.
    OtpText,
    /// The bytes of an image.
    Image,
    /// The bytes of an image of which a script takes some.
    SourceImage,
    /// An ELF file; an image is made of it.
    Elf,
    /// The blocks of a UF2 file.
    Uf2,
    /// The text of a script.
    Text,
}

impl Form {
    /// The greatest length of a file, in bytes.
    pub fn limit(self) -> u32
        ensures { result ≡ limit_of self }
    {
        match self {
            Form::Flash => FLASH_LIMIT,
            Form::Otp => OTP_LIMIT,
            Form::Script => SCRIPT_LIMIT,
            Form::Pattern => PATTERN_LIMIT,
            Form::Binary => BINARY_LIMIT,
            Form::Spec | Form::Json | Form::OtpText | Form::Require => JSON_LIMIT,
            Form::Image | Form::SourceImage => IMAGE_LIMIT,
            Form::Elf => ELF_LIMIT,
            Form::Uf2 => UF2_LIMIT,
            Form::Text => TEXT_LIMIT,
        }
    }
}
