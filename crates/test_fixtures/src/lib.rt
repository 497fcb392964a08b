//! Flashes and words of the worked examples, for tests.
#![tactic(auto)]

ghost use Rattle.std.specs.Prelude.{◌≡◌, IfOk, IsTrue, length};
ghost use Rattle.pico_board.specs.MemBoard.{state_of};

use pico_board::{BoardError, MemBoard};
use std::alloc::{AllocError, Global};

/// The first two words of a vector table: SP 0x20082000 and PC 0x10000201.
pub const VECTORS: [u32; 2] = [0x2008_2000, 0x1000_0201];

/// The least block of an executable for the Arm cores.
const ARM: [u32; 5] = [0xffff_ded3, 0x1021_0142, 0x0000_01ff, 0, 0xab12_3579];

/// The block of one of version 1.0.
pub const ARM_1_0: [u32; 7] = [
    0xffff_ded3,
    0x1021_0142,
    0x0000_0248,
    0x0001_0000,
    0x0000_03ff,
    0,
    0xab12_3579,
];

/// A table whose A has the sectors 2 to 31 and whose B has the sectors 32 to 61.
pub const PAIR: [u32; 10] = [
    0xffff_ded3,
    0x0200_060a,
    0xfc00_8000,
    0xfc03_e002,
    0xfc02_0000,
    0xfc07_a020,
    0xfc02_0002,
    0x0000_06ff,
    0,
    0xab12_3579,
];

/// The least block of an executable for the Arm cores, linked to the block behind it. That block
/// makes a sealed image of version 1.9.
pub const SEALED: [u32; 27] = [
    0xffff_ded3,
    0x1021_0142,
    0x0000_01ff,
    0x0000_0014,
    0xab12_3579,
    0xffff_ded3,
    0x1021_0142,
    0x0000_0248,
    0x0001_0009,
    0x0100_0406,
    0xffff_fec8,
    0x1000_0000,
    0x0000_0128,
    0x0100_0247,
    0x0000_000a,
    0x0000_094b,
    0xeda6_2c5f,
    0x61a0_8060,
    0xa844_74d8,
    0x44da_a3aa,
    0x129c_6b06,
    0xaf45_aed2,
    0x3a33_ea57,
    0x8e4c_4aff,
    0x0000_12ff,
    0xffff_ffec,
    0xab12_3579,
];

/// The header of an executable ELF file for the Arm cores, with one program header behind it. Its
/// segment has 0x128 bytes at 84 of the file, for the physical address 0x10000000.
const ELF_HEAD: [u32; 21] = [
    0x464c_457f,
    0x0001_0101,
    0,
    0,
    0x0028_0002, // executable, Arm
    1,
    0x1000_0201, // the entry
    52, // the program headers
    0,
    0,
    0x0020_0034, // the sizes of the header and of a program header
    1, // one of them
    0,
    1, // a segment that is loaded
    84,
    0x1000_0000,
    0x1000_0000,
    0x128,
    0x128,
    5,
    4,
];

/// A flash file with these words at these offsets, in ascending order, of so many bytes, of which
/// the others are 0xff. It fails only where memory is out.
pub fn flash(alloc: Global, parts: &[(usize, &[u32])], size: usize) -> Result<Vec<u8>, AllocError>
    ensures { IfOk result (λ bytes. length bytes.items ≡ size) }
{
    let mut bytes = Vec::new(alloc);
    for (at, words) in parts {
        bytes.resize(*at, 0xff)?;
        for word in words.iter() {
            bytes.extend_from_slice(&word.to_le_bytes())?;
        }
    }
    bytes.resize(size, 0xff)?;
    Ok(bytes)
}

/// A powered board of this flash, whose OTP rows are 0. It fails where the flash has no length of
/// one, or memory is out.
pub fn board_of(alloc: Global, flash: Vec<u8>) -> Result<MemBoard, BoardError>
    ensures power { IfOk result (λ board. IsTrue (state_of board).powered) }
    ensures flash { IfOk result (λ board. (state_of board).content.flash ≡ flash.items) }
{
    match vec![in alloc; 0_u32; 4096] {
        Ok(rows) => Ok(MemBoard::new(alloc, flash, rows)?),
        Err(_) => Err(BoardError::Memory),
    }
}

/// The words as the program gets them. It fails only where memory is out.
pub fn words(alloc: Global, texts: &[&str]) -> Result<Vec<String>, AllocError>
    ensures { IfOk result (λ words. length words.items ≡ length texts.now) }
{
    let mut words = Vec::new(alloc);
    for text in texts {
        words.push(String::from_str(alloc, text)?)?;
    }
    Ok(words)
}

/// An ELF file for the Arm cores of one segment, the least image, at 0x10000000: 380 bytes. It
/// fails only where memory is out.
pub fn elf_file(alloc: Global) -> Result<Vec<u8>, AllocError>
    ensures { IfOk result (λ bytes. length bytes.items ≡ 380) }
{
    flash(
        alloc,
        &[(0, &ELF_HEAD), (84, &VECTORS), (84 + 0x114, &ARM)],
        84 + 0x128,
    )
}
