//! The table of records: for each row its first word, and the forms of its further words.

ghost use Rattle.std.specs.Prelude.{◌≡◌};
ghost use Rattle.script_words.specs.Rows.{first_word, form_at, forms_of, has_words, is_command, is_hex};

use crate::forms::Form::{
    self, Bytes, Family, Hex, HexBehind, Is, Number, NumberBehind, OtpRow, Rest, SomeSpan, Span,
    SpanBehind,
};
use crate::forms::Keyword;

/// The most rows that a write of OTP rows has, all that there are.
const MOST_ROWS: usize = 4096;

/// A row of the table: one way to write a record.
#[derive(Clone, Copy, PartialEq, Eq, Debug)]
pub enum Row {
    /// Power comes back.
    Power,
    /// A reset to a normal boot.
    ResetNormal,
    /// A reset to BOOTSEL.
    ResetBootsel,
    /// A reset to an update boot.
    ResetUpdate,
    /// A cut before a step.
    CutBefore,
    /// A cut within a step.
    CutWithin,
    /// The running image buys itself.
    Buy,
    /// Exclusive access.
    Exclusive,
    /// An erase of flash sectors.
    Erase,
    /// A read.
    Read,
    /// A write of bytes.
    Write,
    /// A write of a range of the image.
    WriteRange,
    /// A write of the image from an offset on.
    WriteRest,
    /// The exit from XIP.
    ExitXip,
    /// The entry to XIP.
    EnterXip,
    /// A reboot to a normal boot.
    RebootNormal,
    /// A reboot to BOOTSEL.
    RebootBootsel,
    /// A reboot to an update boot.
    RebootUpdate,
    /// A reboot to an image in RAM.
    RebootRam,
    /// A read of OTP rows.
    OtpRead,
    /// A write of OTP rows.
    OtpWrite,
    /// What the partition table is.
    InfoTable,
    /// Where a download of a family goes.
    InfoTarget,
    /// What the board is.
    InfoDevice,
    /// What a partition is.
    InfoPartition,
    /// A UF2 block with a page of bytes.
    Block,
    /// A UF2 block with a page of the image.
    ImageBlock,
    /// The bytes of a command without a payload.
    RawCommand,
    /// The bytes of a command, and its payload.
    RawPayload,
    /// The bytes of a UF2 block.
    RawBlock,
    /// The script ends.
    End,
}

/// All rows.
pub const ROWS: [Row; 31] = [
    Row::Power,
    Row::ResetNormal,
    Row::ResetBootsel,
    Row::ResetUpdate,
    Row::CutBefore,
    Row::CutWithin,
    Row::Buy,
    Row::Exclusive,
    Row::Erase,
    Row::Read,
    Row::Write,
    Row::WriteRange,
    Row::WriteRest,
    Row::ExitXip,
    Row::EnterXip,
    Row::RebootNormal,
    Row::RebootBootsel,
    Row::RebootUpdate,
    Row::RebootRam,
    Row::OtpRead,
    Row::OtpWrite,
    Row::InfoTable,
    Row::InfoTarget,
    Row::InfoDevice,
    Row::InfoPartition,
    Row::Block,
    Row::ImageBlock,
    Row::RawCommand,
    Row::RawPayload,
    Row::RawBlock,
    Row::End,
];

impl Row {
    /// The first word.
    pub fn first(self) -> &'static str
        ensures { result.now ≡ first_word self }
    {
        match self {
            Row::Power => "power",
            Row::ResetNormal | Row::ResetBootsel | Row::ResetUpdate => "reset",
            Row::CutBefore | Row::CutWithin => "cut",
            Row::Buy => "buy",
            Row::Exclusive => "exclusive",
            Row::Erase => "erase",
            Row::Read => "read",
            Row::Write | Row::WriteRange | Row::WriteRest => "write",
            Row::ExitXip => "exit-xip",
            Row::EnterXip => "enter-xip",
            Row::RebootNormal | Row::RebootBootsel | Row::RebootUpdate | Row::RebootRam => "reboot",
            Row::OtpRead => "otp-read",
            Row::OtpWrite => "otp-write",
            Row::InfoTable | Row::InfoTarget | Row::InfoDevice | Row::InfoPartition => "info",
            Row::Block | Row::ImageBlock | Row::RawBlock => "uf2",
            Row::RawCommand | Row::RawPayload => "command",
            Row::End => "end",
        }
    }

    /// The forms of the words behind the first. A write of OTP rows has words of its last form
    /// more.
    pub fn forms(self) -> &'static [Form]
        ensures { result.now ≡ forms_of self }
    {
        match self {
            Row::Power | Row::Buy | Row::ExitXip | Row::EnterXip | Row::End => &[],
            Row::ResetNormal | Row::RebootNormal => &[Is(Keyword::Normal)],
            Row::ResetBootsel | Row::RebootBootsel => &[Is(Keyword::Bootsel)],
            Row::ResetUpdate | Row::RebootUpdate => &[HexBehind(Keyword::Update)],
            Row::RebootRam => &[SpanBehind(Keyword::Ram)],
            Row::CutBefore => &[Number(0xffff_ffff), Is(Keyword::Before)],
            Row::CutWithin => &[Number(0xffff_ffff), Is(Keyword::Within), Bytes(1, 4096)],
            Row::Exclusive => &[Number(255)],
            Row::Erase | Row::Read => &[Span],
            Row::Write => &[Hex, Bytes(1, 0xffff_ffff)],
            Row::WriteRange => &[Hex, Is(Keyword::Image), SomeSpan],
            Row::WriteRest => &[Hex, Is(Keyword::Image), Rest],
            Row::OtpRead => &[OtpRow, Number(65535)],
            Row::OtpWrite => &[OtpRow, Hex],
            Row::InfoTable => &[Is(Keyword::Table), Number(0xffff_ffff)],
            Row::InfoTarget => &[HexBehind(Keyword::Target), Number(0xffff_ffff)],
            Row::InfoDevice => &[Is(Keyword::Device), Number(0xffff_ffff)],
            Row::InfoPartition => &[NumberBehind(Keyword::Partition), Number(0xffff_ffff)],
            Row::Block => &[
                Number(0xffff_ffff),
                Is(Keyword::Of),
                Number(0xffff_ffff),
                Is(Keyword::At),
                Hex,
                Family,
                Bytes(256, 256),
            ],
            Row::ImageBlock => &[
                Number(0xffff_ffff),
                Is(Keyword::Of),
                Number(0xffff_ffff),
                Is(Keyword::At),
                Hex,
                Family,
                Is(Keyword::Image),
                Hex,
            ],
            Row::RawCommand => &[Bytes(32, 32)],
            Row::RawPayload => &[Bytes(32, 32), Bytes(1, 0xffff_ffff)],
            Row::RawBlock => &[Bytes(512, 512)],
        }
    }

    /// The form of the word at this place behind the first, counted from 0.
    pub fn form_at(self, place: usize) -> Form
        ensures { result ≡ form_at self place }
    {
        match self.forms().get(place) {
            Some(form) => *form,
            None => Form::Hex,
        }
    }

    /// Whether a record of the row may have so many words behind the first.
    pub fn has_words(self, count: usize) -> bool
        ensures { result ≡ has_words self count }
    {
        match self {
            Row::OtpWrite => 2 <= count && count <= 1 + MOST_ROWS,
            _ => count == self.forms().len(),
        }
    }

    /// Whether the record is a command in words, which may have a token.
    pub fn is_command(self) -> bool
        ensures { result ≡ is_command self }
    {
        match self {
            Row::Exclusive
            | Row::Erase
            | Row::Read
            | Row::Write
            | Row::WriteRange
            | Row::WriteRest
            | Row::ExitXip
            | Row::EnterXip
            | Row::RebootNormal
            | Row::RebootBootsel
            | Row::RebootUpdate
            | Row::RebootRam
            | Row::OtpRead
            | Row::OtpWrite
            | Row::InfoTable
            | Row::InfoTarget
            | Row::InfoDevice
            | Row::InfoPartition => true,
            Row::Power
            | Row::ResetNormal
            | Row::ResetBootsel
            | Row::ResetUpdate
            | Row::CutBefore
            | Row::CutWithin
            | Row::Buy
            | Row::Block
            | Row::ImageBlock
            | Row::RawCommand
            | Row::RawPayload
            | Row::RawBlock
            | Row::End => false,
        }
    }

    /// Whether a word of the row is bytes in hexadecimal digits.
    pub fn is_hex(self) -> bool
        ensures { result ≡ is_hex self }
    {
        match self {
            Row::CutWithin | Row::Write | Row::Block => true,
            Row::RawCommand | Row::RawPayload | Row::RawBlock => true,
            _ => false,
        }
    }
}
