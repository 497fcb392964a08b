//! Partitions, and the fields of their words.

ghost use Rattle.std.specs.Prelude.{◌≡◌, ◌+◌, ◌*◌, ◌^◌, ◌<◌, ◌≤◌};
ghost use Rattle.part_table.specs.Fields.{first_sector, last_sector, permissions_of, has_bit, has_id, link_type, link_value, family_count, has_name, is_ignored, is_staying};
ghost use Rattle.part_table.specs.Families.{accepts, has_family_bit};
ghost use Rattle.part_table.specs.Links.{is_second, is_owned, is_second_of};
ghost use Rattle.part_table.specs.Windows.{has_sector, shares_sector, part_window};

use crate::families::{ARM_NS_FAMILY, RP2040_FAMILY};
use arrayvec::ArrayVec;
use pico_board::{Cpu, Window};

/// A partition of a table: its words as they stand in the table, and the parts that follow them.
#[derive(Clone, Default, PartialEq, Eq, Debug, Drop)]
pub struct Partition {
    /// The location word. Its bits from 26 on are the permissions:
    /// - bits 0 to 12: the first sector
    /// - bits 13 to 25: the last sector
    /// - bit 26: secure read
    /// - bit 27: secure write
    /// - bit 28: non-secure read
    /// - bit 29: non-secure write
    /// - bit 30: bootloader read
    /// - bit 31: bootloader write
    pub location: u32,
    /// The flag word. Bits that are not listed are kept and not read:
    /// - bit 0: there is an id
    /// - bits 1 to 2: the link type (0 none, 1 "A is", 2 owner)
    /// - bits 3 to 6: the partition that the link names
    /// - bits 7 to 8: the number of extra families
    /// - bit 9: ignored in an Arm boot
    /// - bit 10: ignored in a RISC-V boot
    /// - bit 12: there is a name
    /// - bit 13: no reboot after a UF2 download
    /// - bits 14 to 19: the families accepted, from 0xe48bff56 on
    /// - bits 26 to 31: the permissions again
    pub flags: u32,
    /// The id, where flag bit 0 is set.
    pub id: Option<u64>,
    /// The UF2 families that the partition accepts besides those of the flag word, in the table's
    /// order.
    pub families: ArrayVec<u32, 3>,
    /// The bytes of the name, where flag bit 12 is set.
    pub name: Option<ArrayVec<u8, 127>>,
}

/// The flag bit of the first family, rp2040; those of the other five follow it.
const FIRST_FAMILY_BIT: u32 = 14;

/// Whether a word has this bit, counted from the lowest as 0.
pub(crate) fn has_bit(word: u32, bit: u32) -> bool
    requires { bit < 32 }
    ensures { result ≡ has_bit word bit }
{
    (word >> bit) % 2 == 1
}

/// The permissions in a location word, a flag word or an unpartitioned word.
pub(crate) fn permissions_of(word: u32) -> u32
    ensures { result ≡ permissions_of word }
{
    word / 0x0400_0000 % 0x40
}

/// Whether a flag word says that there is an id.
pub(crate) fn has_id(flags: u32) -> bool
    ensures { result ≡ has_id flags }
{
    has_bit(flags, 0)
}

/// How many extra families a flag word says that there are.
pub(crate) fn family_count(flags: u32) -> u32
    ensures value { result ≡ family_count flags }
    ensures few { result ≤ 3 }
{
    flags / 0x80 % 4
}

/// Whether a flag word says that there is a name.
pub(crate) fn has_name(flags: u32) -> bool
    ensures { result ≡ has_name flags }
{
    has_bit(flags, 12)
}

/// Whether a flag word has the bit of this family; only six families have one.
fn has_family_bit(flags: u32, family: u32) -> bool
    ensures { result ≡ has_family_bit flags family }
{
    family >= RP2040_FAMILY
        && family <= ARM_NS_FAMILY
        && has_bit(flags, FIRST_FAMILY_BIT + (family - RP2040_FAMILY))
}

impl Partition {
    /// The partition's first sector.
    pub fn first_sector(&self) -> u32
        ensures value { result ≡ first_sector self.now }
        ensures small { result < 2 ^ 13 }
    {
        self.location % 0x2000
    }

    /// The partition's last sector.
    pub fn last_sector(&self) -> u32
        ensures value { result ≡ last_sector self.now }
        ensures small { result < 2 ^ 13 }
    {
        self.location / 0x2000 % 0x2000
    }

    /// The type of the link: 0 none, 1 "A is", 2 owner.
    pub fn link_type(&self) -> u32
        ensures value { result ≡ link_type self.now }
        ensures small { result < 4 }
    {
        self.flags / 2 % 4
    }

    /// The partition that the link names.
    pub fn link_value(&self) -> u32
        ensures value { result ≡ link_value self.now }
        ensures small { result < 16 }
    {
        self.flags / 8 % 16
    }

    /// Whether the partition is the B of a pair.
    pub fn is_second(&self) -> bool
        ensures { result ≡ is_second self.now }
    {
        self.link_type() == 1
    }

    /// Whether the partition has an owner.
    pub fn is_owned(&self) -> bool
        ensures { result ≡ is_owned self.now }
    {
        self.link_type() == 2
    }

    /// Whether the partition is the B of this partition.
    pub fn is_second_of(&self, first: u32) -> bool
        ensures { result ≡ is_second_of first self.now }
    {
        self.is_second() && self.link_value() == first
    }

    /// Whether the partition is ignored in the boot of this processor.
    pub fn is_ignored(&self, cpu: Cpu) -> bool
        ensures { result ≡ is_ignored cpu self.now }
    {
        match cpu {
            Cpu::Arm => has_bit(self.flags, 9),
            Cpu::Riscv => has_bit(self.flags, 10),
        }
    }

    /// Whether no boot follows a download into the partition.
    pub fn is_staying(&self) -> bool
        ensures { result ≡ is_staying self.now }
    {
        has_bit(self.flags, 13)
    }

    /// Whether the partition accepts the family, by the family's bit or among its extra families.
    pub fn accepts(&self, family: u32) -> bool
        ensures { result ≡ accepts self.now family }
    {
        has_family_bit(self.flags, family) || self.families.as_slice().contains(&family)
    }

    /// Whether the partition holds the sector.
    pub fn has_sector(&self, sector: u32) -> bool
        ensures { result ≡ has_sector sector self.now }
    {
        self.first_sector() <= sector && sector <= self.last_sector()
    }

    /// Whether the two partitions share a sector. Their first and last sectors judge this, so it
    /// is meant for partitions whose first sector is not above their last.
    pub fn shares_sector(&self, other: &Partition) -> bool
        ensures { result ≡ shares_sector self.now other.now }
    {
        self.first_sector() <= other.last_sector() && other.first_sector() <= self.last_sector()
    }

    /// The window of the flash from the partition's first sector to its last.
    pub fn window(&self) -> Window
        requires { first_sector self.now ≤ last_sector self.now }
        ensures value { result ≡ part_window self.now }
        ensures near { result.start + result.len ≤ 2 ^ 25 }
    {
        Window {
            start: 4096 * self.first_sector(),
            len: 4096 * (self.last_sector() + 1 - self.first_sector()),
        }
    }
}
