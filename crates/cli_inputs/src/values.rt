//! What the files of inputs give that have their forms. Each type carries what was found of its
//! file.

ghost use Rattle.std.specs.Prelude.{◌≡◌, ◌≤◌, ◌<◌, ◌^◌, ◌%◌, All, length};
ghost use Rattle.pico_board.specs.Content.{IsFlashLength};
ghost use Rattle.part_table.specs.Written.{AgreesWithFlags, written_size};
ghost use Rattle.table_json.specs.Otps.{otp_spec_from};
ghost use Rattle.table_json.specs.OtpRules.{IsSound};
ghost use Rattle.cli_inputs.specs.declared.limits.TheConstants.{PATTERN_LIMIT, BINARY_LIMIT, IMAGE_LIMIT, ELF_LIMIT, UF2_LIMIT, TEXT_LIMIT};

use part_table::Table;
use table_json::OtpSpec;

/// A whole flash: a file's bytes, filled with 0xff to whole sectors, and at least two.
#[derive(Drop)]
pub struct WholeFlash {
    /// The bytes.
    pub bytes: Vec<u8>,
    pub ghost whole: { IsFlashLength (length bytes.items) },
}

/// The 4096 rows of an OTP, of 24 bits each.
#[derive(Drop)]
pub struct OtpRows {
    /// The rows.
    pub rows: Vec<u32>,
    pub ghost count: { length rows.items ≡ 4096 },
    pub ghost narrow: { All (λ row. row < 2 ^ 24) rows.items },
}

/// The bytes that a cut within a step leaves: 1 to 4096 of them.
#[derive(Clone, Copy)]
pub struct Pattern<'a> {
    /// The bytes.
    pub bytes: &'a [u8],
    pub ghost some: { 1 ≤ length bytes.now },
    pub ghost short: { length bytes.now ≤ PATTERN_LIMIT },
}

/// A binary that is not too long; an image is made of it.
#[derive(Clone, Copy)]
pub struct Binary<'a> {
    /// The bytes.
    pub bytes: &'a [u8],
    pub ghost short: { length bytes.now ≤ BINARY_LIMIT },
}

/// An ELF file that is not too long; an image is made of it.
#[derive(Clone, Copy)]
pub struct Elf<'a> {
    /// The bytes.
    pub bytes: &'a [u8],
    pub ghost short: { length bytes.now ≤ ELF_LIMIT },
}

/// An image that is not too long. It owns its bytes, since a board may be made of them.
#[derive(Drop)]
pub struct Image {
    /// The bytes.
    pub bytes: Vec<u8>,
    pub ghost short: { length bytes.items ≤ IMAGE_LIMIT },
}

/// An image of which a script takes bytes: at least one byte, and not too long.
#[derive(Clone, Copy)]
pub struct SourceImage<'a> {
    /// The bytes.
    pub bytes: &'a [u8],
    pub ghost some: { 1 ≤ length bytes.now },
    pub ghost short: { length bytes.now ≤ IMAGE_LIMIT },
}

/// A UF2 file of whole blocks of 512 bytes, and at least one.
#[derive(Clone, Copy)]
pub struct Uf2<'a> {
    /// The bytes.
    pub bytes: &'a [u8],
    pub ghost some: { 1 ≤ length bytes.now },
    pub ghost short: { length bytes.now ≤ UF2_LIMIT },
    pub ghost whole: { length bytes.now % 512 ≡ 0 },
}

/// The text of a script that is not too long.
#[derive(Clone, Copy)]
pub struct Text<'a> {
    /// The bytes.
    pub bytes: &'a [u8],
    pub ghost short: { length bytes.now ≤ TEXT_LIMIT },
}

/// The partition table of a JSON text, whose block has at most 640 bytes.
#[derive(Drop)]
pub struct JsonTable {
    /// The table.
    pub table: Table,
    pub ghost agrees: { All AgreesWithFlags table.parts.items },
    pub ghost fits: { written_size table ≤ 640 },
}

/// What a JSON text says of an OTP.
#[derive(Drop)]
pub struct JsonOtp {
    /// What it says.
    pub spec: OtpSpec,
    pub ghost sound: { IsSound (otp_spec_from spec) },
}
