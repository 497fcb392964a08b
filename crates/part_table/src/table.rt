use crate::Partition;
use crate::faults::parts_fault;
use crate::partition::has_bit;
use arrayvec::ArrayVec;
use block_codec::Version;
use pico_board::Window;
use thiserror::Error;

/// A partition table, as its block says it.
#[derive(Clone, PartialEq, Eq, Debug, Drop)]
pub struct Table {
    /// The version of the VERSION item in the table's block, 0.0 where there is none.
    pub version: Version,
    /// Whether the table says that it is the only one.
    pub singleton: bool,
    /// The word for the sectors that no partition has. Bits 26 to 31 are the permissions, as in a
    /// location word. Bits 14 to 19 are the families accepted; bit 15 alone, the absolute family,
    /// is read.
    pub unpartitioned: u32,
    /// The partitions, in the table's order.
    pub parts: ArrayVec<Partition, 15>,
}

/// Why a block with a PARTITION_TABLE item is no table: the first that applies, in this order.
#[derive(Clone, Copy, PartialEq, Eq, Debug, Error)]
pub enum TableFault {
    /// An item of the kinds PARTITION_TABLE, VERSION, HASH_DEF, HASH_VALUE stands twice or is
    /// wrong.
    #[error("a table item stands twice or is wrong")]
    BadItem,
    /// The lowest partition whose two permission fields differ.
    #[error("the two permission fields of partition {0} differ")]
    Permissions(u32),
    /// The lowest partition whose sectors are none, stand below the first free sector, or leave
    /// the flash.
    #[error("the sectors of partition {0} are out of range")]
    Range(u32),
    /// The lowest partition that shares a sector with a later one, and the lowest such later one.
    #[error("partitions {0} and {1} share a sector")]
    Overlap(u32, u32),
    /// The lowest partition whose link names what it may not name.
    #[error("the link of partition {0} is wrong")]
    Link(u32),
    /// The HASH_VALUE is not the SHA-256 of the hashed words.
    #[error("the digest is not that of the hashed words")]
    Hash,
}

/// A right to a sector of the flash. The bootloader permissions of the sector's partition, or of
/// the unpartitioned word, give it.
#[derive(Clone, Copy, PartialEq, Eq, Debug)]
pub enum Right {
    /// Bootloader read, bit 30.
    BootRead,
    /// Bootloader write, bit 31.
    BootWrite,
}

/// Why no block was made of a table.
#[derive(Clone, Copy, PartialEq, Eq, Debug, Error)]
pub enum TableWriteFault {
    /// The block would have this many bytes, more than 640.
    #[error("the table's block has {0} bytes, more than 640")]
    TooLong(u64),
    /// There was no memory for the block.
    #[error("out of memory")]
    Memory,
}

impl Table {
    ghost use Rattle.std.specs.Prelude.{◌≡◌, ◌+◌, ◌<◌, ◌≤◌, ◌^◌, length, None};
    ghost use Rattle.part_table.specs.Families.{accepts, accepts_absolute};
    ghost use Rattle.part_table.specs.Faults.{permissions_fault, overlap_fault, table_fault};
    ghost use Rattle.part_table.specs.Fields.{first_sector, last_sector};
    ghost use Rattle.part_table.specs.Partitions.{part_at};
    ghost use Rattle.part_table.specs.Rights.{allowed, right_word, right_bit};
    ghost use Rattle.part_table.specs.Windows.{has_sector, partition_window};

    /// The window of partition i: its first to its last sector.
    pub fn window(&self, i: u32) -> Window
        requires part { i < length self.now.parts.items }
        requires some { first_sector (part_at self.now.parts.items i) ≤ last_sector
            (part_at self.now.parts.items i) }
        ensures value { result ≡ partition_window self.now i }
        ensures near { result.start + result.len ≤ 2 ^ 25 }
    {
        self.parts.as_slice()[i as usize].window()
    }

    /// Whether partition i accepts the family, by the family's bit or among its extra families.
    pub fn accepts(&self, i: u32, family: u32) -> bool
        requires { i < length self.now.parts.items }
        ensures { result ≡ accepts (part_at self.now.parts.items i) family }
    {
        self.parts.as_slice()[i as usize].accepts(family)
    }

    /// Whether the table accepts the absolute family: bit 15 of its unpartitioned word.
    pub fn accepts_absolute(&self) -> bool
        ensures { result ≡ accepts_absolute self.now }
    {
        has_bit(self.unpartitioned, 15)
    }

    /// The word with the permissions of a sector: its partition's location word, or the
    /// unpartitioned word for a sector in no partition.
    fn right_word(&self, sector: u32) -> u32
        ensures { result ≡ right_word self.now sector }
    {
        for part in self.parts.as_slice() {
            if part.has_sector(sector) {
                return part.location;
            }
        }
        self.unpartitioned
    }

    /// The first fault of the table's partitions: of permissions, then range, then overlap, then a
    /// link. The flash has so many sectors, and `first` of them stand before the first free one.
    pub fn fault(&self, sectors: u32, first: u32) -> Option<TableFault>
        ensures { result ≡ table_fault self.now sectors first }
    {
        parts_fault(self.parts.as_slice(), sectors, first)
    }

    /// Whether a sector has a right.
    pub fn allowed(&self, sector: u32, right: Right) -> bool
        requires permissions { permissions_fault self.now.parts.items ≡ None }
        requires overlap { overlap_fault self.now.parts.items ≡ None }
        ensures { result ≡ allowed self.now sector right }
    {
        has_bit(self.right_word(sector), right.bit())
    }
}

impl Right {
    ghost use Rattle.std.specs.Prelude.{◌≡◌, ◌<◌};
    ghost use Rattle.part_table.specs.Rights.{right_bit};

    /// The bit of a word with permissions that gives the right.
    fn bit(&self) -> u32
        ensures value { result ≡ right_bit self.now }
        ensures small { result < 32 }
    {
        match self {
            Right::BootRead => 30,
            Right::BootWrite => 31,
        }
    }
}
