//! Numbers in an ELF file, with the lowest byte first.

ghost use Rattle.std.specs.Prelude.{◌≡◌, ◌+◌, ◌≤◌, length};
ghost use Rattle.elf_pack.specs.Fields.{half_at, word_at};

use byteorder::{ByteOrder, LittleEndian};

/// The number in the two bytes from this offset on.
#[tactic(auto, unfolding(crate::specs::Fields::half_at))]
pub(crate) fn half_at(elf: &[u8], at: usize) -> u16
    requires { at + 2 ≤ length elf.now }
    ensures { result ≡ half_at elf.now at }
{
    LittleEndian::read_u16(&elf[at..at + 2])
}

/// The number in the four bytes from this offset on.
#[tactic(auto, unfolding(crate::specs::Fields::word_at))]
pub(crate) fn word_at(elf: &[u8], at: usize) -> u32
    requires { at + 4 ≤ length elf.now }
    ensures { result ≡ word_at elf.now at }
{
    LittleEndian::read_u32(&elf[at..at + 4])
}
