//! The names of caveats and the words of laws, as the text of a team has them.

ghost use Rattle.std.specs.Prelude.{◌≡◌};
ghost use Rattle.cli_check.specs.Reporting.{law_name, name_of};

use boot_caveats::Caveat;
use check_laws::SessionFound;
use check_require::{CaveatName, SessionLaw};

/// The name of a caveat: the first word of its line.
pub(crate) fn name_of(caveat: Caveat) -> CaveatName
    ensures { result ≡ name_of caveat }
{
    match caveat {
        Caveat::SecureBoot => CaveatName::SecureBoot,
        Caveat::RawFlags(_, _) => CaveatName::RawFlags,
        Caveat::RawSlotSize(_) => CaveatName::RawSlotSize,
        Caveat::ShortFlash(_, _) | Caveat::ShortSlots(_) => CaveatName::ShortFlash,
        Caveat::TableInImage(_, _) => CaveatName::TableInImage,
        Caveat::OtherProcessor(_) => CaveatName::OtherProcessor,
        Caveat::SlotImage(_) => CaveatName::Slot1Image,
        Caveat::Tie(_, _) => CaveatName::Tie,
        Caveat::UpdateOfSlot(_) => CaveatName::UpdateOfSlot,
        Caveat::UpdateMovesUnit(_) => CaveatName::UpdateMovesUnit,
        Caveat::RollbackRows(_) => CaveatName::RollbackRows,
        Caveat::RollbackFull(_) => CaveatName::RollbackFull,
        Caveat::RollbackGap(_) => CaveatName::RollbackGap,
        Caveat::FirstBlock(_) => CaveatName::FirstBlock,
        Caveat::ItemOrder(_) => CaveatName::ItemOrder,
        Caveat::MayStart(_, _) => CaveatName::MayStart,
        Caveat::OwnedImage(_) => CaveatName::OwnedImage,
        Caveat::UnreadTargets(_) | Caveat::UnreadSide(_) => CaveatName::UnreadBits,
        Caveat::TableTie => CaveatName::TableTie,
        Caveat::ImageInSlot(_) => CaveatName::ImageInSlot,
        Caveat::SlotEnd(_, _) => CaveatName::SlotEnd,
        Caveat::FaultyTable(_, _) => CaveatName::TableFault,
        Caveat::TableOrder(_) => CaveatName::TableOrder,
        Caveat::RawCritical(_, _) => CaveatName::RawCritical,
        Caveat::LongDefinition(_, _) => CaveatName::LongDefinition,
        Caveat::AbsoluteMap(_) => CaveatName::AbsoluteMap,
        Caveat::BareHash(_) => CaveatName::BareHash,
        Caveat::IgnoreFlags(_) => CaveatName::IgnoreFlags,
        Caveat::NoRead(_) => CaveatName::NoRead,
        Caveat::UpdateOfNothing(_) => CaveatName::UpdateOfNothing,
    }
}

/// The law of the session.
pub(crate) fn law_name(law: SessionFound) -> SessionLaw
    ensures { result ≡ law_name law }
{
    match law {
        SessionFound::Silent => SessionLaw::Silent,
        SessionFound::Staged(_) => SessionLaw::Staged,
        SessionFound::Gated(_) => SessionLaw::Gated,
        SessionFound::Confined(_) => SessionLaw::Confined,
        SessionFound::Open(_) => SessionLaw::Open,
    }
}
