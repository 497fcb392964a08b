//! The caveats of an answer.

ghost use Rattle.std.specs.Prelude.{◌≡◌, ◌++◌, OnOk, option_to_list};

use image_check::Why;
use part_table::TableFault;
use pico_board::Window;
use std::alloc::{AllocError, Global};

/// A point of a boot's answer at which the chip may decide otherwise. The variants stand in the
/// order in which they are printed.
#[derive(Clone, Copy, Debug, PartialEq, Eq)]
pub enum Caveat {
    /// The OTP asks for secure boot.
    SecureBoot,
    /// This row of the boot flags has these bits, which are not read.
    RawFlags(u16, u32),
    /// The row of the slot size has these bits, which are not read.
    RawSlotSize(u32),
    /// The table of this slot is faulty, since this partition leaves the flash. The flash is
    /// shorter than 16 MiB.
    ShortFlash(u32, u32),
    /// The OTP asks for this slot size, of which two do not fit into the flash.
    ShortSlots(u32),
    /// The loop of the image that starts in this window has a PARTITION_TABLE item, in the block
    /// at this offset.
    TableInImage(Window, u32),
    /// A member that is looked at has no image that counts in this window, and one for the other
    /// processor; or no image starts, and for the other processor one in this window would.
    OtherProcessor(Window),
    /// This slot of a flash without a table may have an image.
    SlotImage(Window),
    /// Of two images of one version the one in the first window is taken. The other is in the
    /// second window.
    Tie(Window, Window),
    /// The update boot's address is that of a table slot.
    UpdateOfSlot(u32),
    /// The update boot moves the unit of this partition to the front.
    UpdateMovesUnit(u32),
    /// The image that starts in this window lists rollback rows.
    RollbackRows(Window),
    /// The rollback version of the image that starts in this window is the greatest of its rows.
    RollbackFull(Window),
    /// In the majority of this row and the two after it a raised bit stands above a clear one.
    RollbackGap(u16),
    /// The first block of this window ends after the window's first 4096 bytes.
    FirstBlock(Window),
    /// The definition of this window does not begin with its IMAGE_TYPE item.
    ItemOrder(Window),
    /// The image of this window fails this rule, which the chip may not judge.
    MayStart(Window, Why),
    /// This partition has an owner, and its window has an image.
    OwnedImage(u32),
    /// The table's unpartitioned word has these family bits, which are not read.
    UnreadTargets(u32),
    /// Flag bit 11 of this partition is set. This bit is not read.
    UnreadSide(u32),
    /// The two slots have different tables of one version.
    TableTie,
    /// There is a table, and this slot has an image.
    ImageInSlot(u32),
    /// The loop of this slot is broken at the block at this offset, whose link leads to a block
    /// behind the slot.
    SlotEnd(Window, u32),
    /// The table of this slot has this fault, by which the chip may not judge.
    FaultyTable(u32, TableFault),
    /// The block of this slot's table does not begin with its PARTITION_TABLE item.
    TableOrder(u32),
    /// At least three of the eight copies of this row have these bits, which are not read.
    RawCritical(u16, u32),
    /// The block at this offset of this window is longer than a definition may be, and would be one
    /// otherwise.
    LongDefinition(Window, u32),
    /// The definition of this window has an absolute LOAD_MAP with an entry that moves what it
    /// stores.
    AbsoluteMap(Window),
    /// The definition of this window has a HASH_VALUE and no LOAD_MAP.
    BareHash(Window),
    /// This partition is the B of a pair, and its ignore flags differ from those of its A.
    IgnoreFlags(u32),
    /// The decision is a start in this partition, which lacks the right of secure read.
    NoRead(u32),
    /// The update boot's address is that of no member, nor of a table slot with a table beside it.
    UpdateOfNothing(u32),
}

/// Adds a caveat to a list, where there is one.
pub fn add(list: &mut Vec<Caveat>, caveat: Option<Caveat>) -> Result<(), AllocError>
    ensures { OnOk result (list.new.items ≡ list.old.items ++ option_to_list caveat) }
{
    if let Some(caveat) = caveat {
        list.push(caveat)?;
    }
    Ok(())
}
