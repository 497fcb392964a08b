//! The names of caveats: the first word of each line.

ghost use Rattle.std.specs.Prelude.{◌≡◌};
ghost use Rattle.check_require.specs.Names.{caveat_name, caveat_named, is_of_files};

/// The name of a caveat.
#[derive(Clone, Copy, PartialEq, Eq, Debug)]
pub enum CaveatName {
    /// `secure-boot`.
    SecureBoot,
    /// `raw-flags`.
    RawFlags,
    /// `raw-slot-size`.
    RawSlotSize,
    /// `short-flash`.
    ShortFlash,
    /// `table-in-image`.
    TableInImage,
    /// `other-processor`.
    OtherProcessor,
    /// `slot-1-image`.
    Slot1Image,
    /// `tie`.
    Tie,
    /// `update-of-slot`.
    UpdateOfSlot,
    /// `update-moves-unit`.
    UpdateMovesUnit,
    /// `rollback-rows`.
    RollbackRows,
    /// `rollback-full`.
    RollbackFull,
    /// `rollback-gap`.
    RollbackGap,
    /// `first-block`.
    FirstBlock,
    /// `item-order`.
    ItemOrder,
    /// `may-start`.
    MayStart,
    /// `owned-image`.
    OwnedImage,
    /// `unread-bits`.
    UnreadBits,
    /// `table-tie`.
    TableTie,
    /// `image-in-slot`.
    ImageInSlot,
    /// `slot-end`.
    SlotEnd,
    /// `table-fault`.
    TableFault,
    /// `table-order`.
    TableOrder,
    /// `raw-critical`.
    RawCritical,
    /// `long-definition`.
    LongDefinition,
    /// `absolute-map`.
    AbsoluteMap,
    /// `bare-hash`.
    BareHash,
    /// `ignore-flags`.
    IgnoreFlags,
    /// `no-read`.
    NoRead,
    /// `update-of-nothing`.
    UpdateOfNothing,
    /// `held-sector`.
    HeldSector,
    /// `skipped-block`.
    SkippedBlock,
}

/// All names, in the order of the caveats' lines.
pub const CAVEAT_NAMES: [CaveatName; 32] = [
    CaveatName::SecureBoot,
    CaveatName::RawFlags,
    CaveatName::RawSlotSize,
    CaveatName::ShortFlash,
    CaveatName::TableInImage,
    CaveatName::OtherProcessor,
    CaveatName::Slot1Image,
    CaveatName::Tie,
    CaveatName::UpdateOfSlot,
    CaveatName::UpdateMovesUnit,
    CaveatName::RollbackRows,
    CaveatName::RollbackFull,
    CaveatName::RollbackGap,
    CaveatName::FirstBlock,
    CaveatName::ItemOrder,
    CaveatName::MayStart,
    CaveatName::OwnedImage,
    CaveatName::UnreadBits,
    CaveatName::TableTie,
    CaveatName::ImageInSlot,
    CaveatName::SlotEnd,
    CaveatName::TableFault,
    CaveatName::TableOrder,
    CaveatName::RawCritical,
    CaveatName::LongDefinition,
    CaveatName::AbsoluteMap,
    CaveatName::BareHash,
    CaveatName::IgnoreFlags,
    CaveatName::NoRead,
    CaveatName::UpdateOfNothing,
    CaveatName::HeldSector,
    CaveatName::SkippedBlock,
];

impl CaveatName {
    /// The word.
    pub fn name(self) -> &'static str
        ensures { result.now ≡ caveat_name self }
    {
        match self {
            CaveatName::SecureBoot => "secure-boot",
            CaveatName::RawFlags => "raw-flags",
            CaveatName::RawSlotSize => "raw-slot-size",
            CaveatName::ShortFlash => "short-flash",
            CaveatName::TableInImage => "table-in-image",
            CaveatName::OtherProcessor => "other-processor",
            CaveatName::Slot1Image => "slot-1-image",
            CaveatName::Tie => "tie",
            CaveatName::UpdateOfSlot => "update-of-slot",
            CaveatName::UpdateMovesUnit => "update-moves-unit",
            CaveatName::RollbackRows => "rollback-rows",
            CaveatName::RollbackFull => "rollback-full",
            CaveatName::RollbackGap => "rollback-gap",
            CaveatName::FirstBlock => "first-block",
            CaveatName::ItemOrder => "item-order",
            CaveatName::MayStart => "may-start",
            CaveatName::OwnedImage => "owned-image",
            CaveatName::UnreadBits => "unread-bits",
            CaveatName::TableTie => "table-tie",
            CaveatName::ImageInSlot => "image-in-slot",
            CaveatName::SlotEnd => "slot-end",
            CaveatName::TableFault => "table-fault",
            CaveatName::TableOrder => "table-order",
            CaveatName::RawCritical => "raw-critical",
            CaveatName::LongDefinition => "long-definition",
            CaveatName::AbsoluteMap => "absolute-map",
            CaveatName::BareHash => "bare-hash",
            CaveatName::IgnoreFlags => "ignore-flags",
            CaveatName::NoRead => "no-read",
            CaveatName::UpdateOfNothing => "update-of-nothing",
            CaveatName::HeldSector => "held-sector",
            CaveatName::SkippedBlock => "skipped-block",
        }
    }

    /// The caveat that a word names.
    pub fn named(word: &[u8]) -> Option<CaveatName>
        ensures { result ≡ caveat_named word.now }
    {
        CAVEAT_NAMES
            .iter()
            .copied()
            .find(|caveat| word == caveat.name().as_bytes())
    }

    /// Whether the caveat says of a file that it is not the board that is judged.
    pub(crate) fn is_of_files(self) -> bool
        ensures { result ≡ is_of_files self }
    {
        matches!(
            self,
            CaveatName::SecureBoot
                | CaveatName::RawFlags
                | CaveatName::RawSlotSize
                | CaveatName::RawCritical
                | CaveatName::ShortFlash
        )
    }
}
