//! The kinds of arguments: what the usage calls each, and its lines on it.

ghost use Rattle.std.specs.Prelude.{◌≡◌};
ghost use Rattle.cli_words.specs.Arguments.{word_name, word_note};

/// An argument of a command.
#[derive(Clone, Copy, PartialEq, Eq, Debug)]
pub enum Word {
    /// The processor of a boot.
    Cpu,
    /// The boot type.
    Kind,
    /// A flash file.
    Flash,
    /// An OTP file.
    Otp,
    /// A script.
    Script,
    /// The bytes that a cut within a step leaves.
    Pattern,
    /// The JSON text of what is asked of an update.
    Require,
    /// The flash that is left.
    OutFlash,
    /// The OTP that is left.
    OutOtp,
    /// The binary of an image.
    Binary,
    /// An ELF file.
    Elf,
    /// What an image is asked to be.
    Spec,
    /// The JSON text of a partition table.
    Json,
    /// The JSON text of an OTP.
    OtpJson,
    /// An image.
    Image,
    /// An image of which a script takes bytes.
    SourceImage,
    /// A UF2 file.
    Uf2,
    /// A script as text.
    Text,
    /// A UF2 family.
    Family,
    /// A number.
    Number,
    /// A file to write.
    Out,
    /// The name of a command.
    Command,
}

impl Word {
    /// What the usage calls the argument.
    pub fn name(self) -> &'static str
        ensures { result.now ≡ word_name self }
    {
        match self {
            Word::Cpu => "CPU",
            Word::Kind => "KIND",
            Word::Flash => "FLASH",
            Word::Otp => "OTP",
            Word::Script => "SCRIPT",
            Word::Pattern => "PATTERN",
            Word::Require => "REQUIRE",
            Word::OutFlash => "OUTFLASH",
            Word::OutOtp => "OUTOTP",
            Word::Binary => "BIN",
            Word::Elf => "ELF",
            Word::Spec => "SPEC",
            Word::Json | Word::OtpJson => "JSON",
            Word::Image | Word::SourceImage => "IMAGE",
            Word::Uf2 => "UF2",
            Word::Text => "TEXT",
            Word::Family => "FAMILY",
            Word::Number => "N",
            Word::Out => "OUT",
            Word::Command => "COMMAND",
        }
    }

    /// The lines of the usage on the argument.
    pub fn note(self) -> &'static str
        ensures { result.now ≡ word_note self }
    {
        match self {
            Word::Cpu => "CPU     arm or riscv\n",
            Word::Kind =>
                "KIND    normal, bootsel, or update=0x and eight hexadecimal digits: the flash address of the update\n",
            Word::Flash =>
                "FLASH   a file of 1 to 16777216 bytes, filled with 0xff to whole sectors of 4096 bytes, at least two\n",
            Word::Otp =>
                "OTP     a file of at most 16384 bytes, 4 for each row, the lowest byte first; missing rows are 0\n",
            Word::Script =>
                "SCRIPT  a file of at most 67108864 bytes, with an end among its first 524288 records\n",
            Word::Pattern =>
                "PATTERN  a file of 1 to 4096 bytes, which a loss of power within a step leaves, repeated\n",
            Word::Require =>
                "REQUIRE  a JSON text of at most 65536 bytes, of what is asked of an update: effect, records, written,
        keep, data, cuts, version, fallback, again, covered, hash, no_rows, session, boot, buy, caveats\n",
            Word::OutFlash => "OUTFLASH  a file to write: the whole flash\n",
            Word::OutOtp => "OUTOTP  a file to write: all 4096 rows, 4 bytes each\n",
            Word::Binary =>
                "BIN     a file of at most 16777216 bytes: an image, with or without a version and a digest\n",
            Word::Elf =>
                "ELF     a file of at most 67108864 bytes: a 32-bit executable of segments in flash, or in SRAM\n",
            Word::Spec =>
                "SPEC    a JSON text of at most 65536 bytes: processor, version, rollback, rows and trial
        of the image; those of the binary, and its window delta, are lost, also if left out\n",
            Word::Json | Word::OtpJson =>
                "JSON    a JSON text of at most 65536 bytes: for table version, singleton, unpartitioned and
        partitions; for otp rollback_required, flash_off, slot_size, rows and secure_boot\n",
            Word::Image | Word::SourceImage =>
                "IMAGE   a file of 1 to 16777216 bytes; for plan, load and stage no more than there is room for\n",
            Word::Uf2 =>
                "UF2     a file of 512 to 33554944 bytes, in blocks of 512; the board judges them, not this command\n",
            Word::Text =>
                "TEXT    a file of at most 209715200 bytes: one record a line, in words, as list writes them\n",
            Word::Family =>
                "FAMILY  rp2040, absolute, data, rp2350-arm-s, rp2350-riscv or rp2350-arm-ns\n",
            Word::Number => "N       a number below 4294967296, of 1 to 10 decimal digits\n",
            Word::Out =>
                "OUT     a file to write: the sealed image; the first sector of a flash with the table; the OTP file;
        the UF2 file, in blocks of 512 bytes; the script; or the picture\n",
            Word::Command => "COMMAND  the first word of a line above\n",
        }
    }
}

/// The arguments on which the usage has lines, in its order. That of an OTP's text stands with the
/// one of a table.
pub const WORDS: [Word; 20] = [
    Word::Cpu,
    Word::Kind,
    Word::Flash,
    Word::Otp,
    Word::Script,
    Word::Pattern,
    Word::Require,
    Word::OutFlash,
    Word::OutOtp,
    Word::Binary,
    Word::Elf,
    Word::Spec,
    Word::Json,
    Word::Image,
    Word::Uf2,
    Word::Text,
    Word::Family,
    Word::Number,
    Word::Out,
    Word::Command,
];
