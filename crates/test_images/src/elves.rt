//! The calls with ample memory. The digests are those of files that were made outside this program.

use crate::fixtures::sha256;
use elf_pack::{ElfFault, elf_binary};
use pico_board::Cpu;
use std::alloc::{AllocError, Global};
use std::process::Abort;
use std::test::Fail;

/// The binary for RISC-V of three segments in SRAM, of 5, 1 and 8 bytes.
const THREE_IN_SRAM: [u8; 32] = [
    0xe8, 0x01, 0x70, 0x6c, 0xb6, 0x0c, 0x11, 0xae, 0x87, 0xcb, 0x65, 0xa9, 0x87, 0x2f, 0x68, 0xf0,
    0x48, 0x71, 0x05, 0x9a, 0x0b, 0x23, 0x5f, 0x54, 0xac, 0xcb, 0x24, 0xe8, 0x0e, 0x64, 0x91, 0xa9,
];

/// The machine of RISC-V.
const RISCV: u16 = 243;

/// The head of a file, before its program headers.
fn put_head(
    file: &mut Vec<u8>,
    machine: u16,
    entry: u32,
    size: u16,
    count: u16,
) -> Result<(), AllocError> {
    file.extend_from_slice(&[0x7f, b'E', b'L', b'F', 1, 1, 1, 0])?;
    file.resize(16, 0)?;
    file.extend_from_slice(&2u16.to_le_bytes())?;
    file.extend_from_slice(&machine.to_le_bytes())?;
    file.extend_from_slice(&1u32.to_le_bytes())?;
    file.extend_from_slice(&entry.to_le_bytes())?;
    file.extend_from_slice(&52u32.to_le_bytes())?;
    file.resize(42, 0)?;
    file.extend_from_slice(&size.to_le_bytes())?;
    file.extend_from_slice(&count.to_le_bytes())?;
    file.extend_from_slice(&40u16.to_le_bytes())?;
    file.resize(52, 0)
}

/// A file for this machine with this entry, these program headers, and these bytes behind them.
/// Each header has a type, an offset, a physical address and a size.
fn file(
    alloc: Global,
    machine: u16,
    entry: u32,
    headers: &[[u32; 4]],
    bytes: &[u8],
) -> Result<Vec<u8>, AllocError> {
    let mut file = Vec::new(alloc);
    put_head(&mut file, machine, entry, 32, headers.len().min(99) as u16)?;
    for [kind, offset, address, size] in headers {
        for word in [*kind, *offset, 0, *address, *size, 0, 0, 0] {
            file.extend_from_slice(&word.to_le_bytes())?;
        }
    }
    file.extend_from_slice(bytes)?;
    Ok(file)
}

/// The most bytes that a file may have.
const MOST_BYTES: usize = 67_108_864;

/// What `elf_binary` answers of a file, which has no more bytes than it may have.
fn binary_of(alloc: Global, elf: &[u8], cpu: Cpu, out: &mut Vec<u8>) -> Result<(), ElfFault> {
    if elf.len() > MOST_BYTES {
        return Err(ElfFault::Memory);
    }
    elf_binary(alloc, elf, cpu, out)
}

#[test]
fn sram_segments_are_stored_in_header_order_in_whole_words(rt: HostRuntime) -> Result<(), Fail> {
    let alloc = rt.alloc();
    let headers = [
        [1, 212, 0x2000_0100, 5],
        [4, 0, 0, 2],
        [1, 219, 0x2007_ffff, 1],
        [1, 0, 0x2000_0000, 0],
        [1, 220, 0x2000_0008, 8],
    ];
    let bytes = [0, 1, 2, 3, 4, 99, 99, 7, 8, 9, 10, 11, 12, 13, 14, 15];
    let elf = file(alloc, RISCV, 0x2000_0008, &headers, &bytes)?;
    let mut binary = Vec::new(alloc);
    assert_eq!(rt; binary_of(alloc, &elf, Cpu::Riscv, &mut binary), Ok(()));
    assert_eq!(rt; binary.len(), 660);
    assert_eq!(rt; sha256(&binary), THREE_IN_SRAM);
    Ok(())
}
