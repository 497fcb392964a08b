//! Which blocks define an image.

ghost use Rattle.std.specs.Prelude.{◌≡◌, ◌↔◌, ◌<◌, ◌^◌, false, IsNone, IfSome};
ghost use Rattle.image_def.specs.Flags.{flags_of};
ghost use Rattle.image_def.specs.Suits.{has_image_type, image_flags_of, suits_flags, does_suit};

use block_codec::kinds::{IMAGE_TYPE, find_item};
use block_codec::{Block, Item};
use pico_board::Cpu;

/// The kind of an image that is run.
const EXECUTABLE: u16 = 1;
/// The security of an image that Arm cores start.
const SECURE: u16 = 2;
/// The processor number of Arm cores.
const ARM: u16 = 0;
/// The processor number of RISC-V cores.
const RISCV: u16 = 1;
/// The chip number of the RP2350.
const RP2350: u16 = 1;
/// The greatest size in bytes of a block that is a definition.
pub const MOST_BLOCK_BYTES: u32 = 384;

/// The flags of an IMAGE_TYPE item, low byte first.
pub(crate) fn flags(item: &Item) -> u16
    ensures { result ≡ flags_of item.now }
{
    u16::from(item.low) + 256 * u16::from(item.high)
}

/// The flags of the first IMAGE_TYPE item, of whatever size; None exactly where there is no such
/// item.
pub fn image_flags(block: &Block) -> Option<u16>
    ensures value { result ≡ image_flags_of block.now }
    ensures none { IsNone result ↔ (has_image_type block.now ≡ false) }
{
    let item = find_item(block, IMAGE_TYPE)?;
    Some(flags(&item))
}

/// Whether the flags are those of an executable for the RP2350 and this processor; for Arm a
/// secure one.
pub fn are_for(cpu: Cpu, flags: u16) -> bool
    ensures { result ≡ suits_flags cpu flags }
{
    let runs = flags % 16 == EXECUTABLE && flags / 4096 % 8 == RP2350;
    let processor = flags / 256 % 8;
    match cpu {
        Cpu::Arm => runs && processor == ARM && flags / 16 % 4 == SECURE,
        Cpu::Riscv => runs && processor == RISCV,
    }
}

/// Whether the block is a definition for the processor. Such a block has at most 384 bytes. Its
/// first IMAGE_TYPE item says an executable for the RP2350 and this processor, and for Arm a
/// secure one.
pub fn suits(block: &Block, cpu: Cpu) -> bool
    ensures { result ≡ does_suit cpu block.now }
{
    if block.size() > MOST_BLOCK_BYTES {
        return false;
    }
    match image_flags(block) {
        Some(flags) => are_for(cpu, flags),
        None => false,
    }
}
