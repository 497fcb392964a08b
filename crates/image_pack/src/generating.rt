//! Flashes that are made of a number, to be compared.

ghost use Rattle.std.specs.Prelude.{◌≡◌, ◌+◌, ◌<◌, ◌≤◌, ◌^◌, ◌++◌, ◌∷◌, [], IfOk, OnOk, OnErr, length, All, pos, take};
ghost use Rattle.block_codec.specs.Blocks.{frame};
ghost use Rattle.block_codec.specs.Words.{bytes_of};
ghost use Rattle.pico_board.specs.declared.window.TheConstants.{MOST_FLASH_BYTES};
ghost use Rattle.part_table.specs.Written.{AgreesWithFlags, written_table, written_size};
ghost use Rattle.image_pack.specs.Filling.{padded};
ghost use Rattle.image_pack.specs.Flashes.{generated, made_image, made_spec, made_table, plain_part};
ghost use Rattle.image_pack.specs.Streams.{binary_of, least_text, next_of, stream};

use crate::{SealSpec, sealed_text};
use arrayvec::ArrayVec;
use block_codec::{BlockError, Version, write_block};
use part_table::{Partition, Table, TableWriteFault, write_table};
use pico_board::Cpu;
use std::alloc::{AllocError, Global};

/// The number of stream bytes of a binary.
const STREAM: usize = 199_972;

/// The offset of the first image.
const FIRST_AT: usize = 0x2000;

/// The number of bytes from the first image to the second one.
const FIRST_ROOM: usize = 0x40000;

/// The number of bytes from the second image to the end of the flash.
const SECOND_ROOM: usize = 0xbe000;

/// The number that follows x in its stream.
fn next_of(x: u32) -> u32
    ensures { result ≡ next_of x }
{
    ((1_664_525 * u64::from(x) + 1_013_904_223) % 0x1_0000_0000) as u32
}

/// Appends so many bytes of the stream of a seed.
fn put_stream(out: &mut Vec<u8>, seed: u32, count: usize) -> Result<(), AllocError>
    ensures items { OnOk result (out.new.items ≡ out.old.items ++ stream count seed) }
    ensures len { OnOk result (length out.new.items ≡ length out.old.items + count) }
{
    let mut x = seed;
    for _i in 0..count {
        x = next_of(x);
        out.push((x / 0x100_0000) as u8)?;
    }
    Ok(())
}

/// Appends the block of the minimal image for Arm, of one IMAGE_TYPE item, with link 0.
fn put_block(alloc: Global, out: &mut Vec<u8>) -> Result<(), AllocError>
    ensures items { OnOk result
        (out.new.items ≡ out.old.items ++ bytes_of (frame (0x10210142 ∷ []) (pos 0))) }
    ensures len { OnOk result (length out.new.items ≡ length out.old.items + 20) }
{
    match write_block(alloc, &[0x1021_0142], 0, out) {
        Ok(()) => Ok(()),
        Err(BlockError::Memory) => Err(AllocError),
        Err(BlockError::TooLong(_)) => unreachable!(),
        Err(BlockError::ItemSize(_)) => unreachable!(),
    }
}

/// Appends the minimal image for Arm: its vector bytes and its block.
#[tactic(auto, unfolding(crate::specs::Streams::least_text, block_codec::specs::Words::word_bytes))]
fn put_least(alloc: Global, out: &mut Vec<u8>) -> Result<(), AllocError>
    ensures items { OnOk result (out.new.items ≡ out.old.items ++ least_text) }
    ensures len { OnOk result (length out.new.items ≡ length out.old.items + 28) }
{
    out.extend_from_slice(&0x2008_2000u32.to_le_bytes())?;
    out.extend_from_slice(&0x1000_0201u32.to_le_bytes())?;
    put_block(alloc, out)
}

/// The binary of a seed.
#[tactic(auto, unfolding(crate::specs::Streams::binary_of))]
fn binary_of(alloc: Global, seed: u32) -> Result<Vec<u8>, AllocError>
    ensures value { IfOk result (λ binary. binary.items ≡ binary_of seed) }
    ensures len { IfOk result (λ binary. length binary.items ≡ 200000) }
{
    let mut binary = Vec::new(alloc);
    put_least(alloc, &mut binary)?;
    put_stream(&mut binary, seed, STREAM)?;
    Ok(binary)
}

/// A spec for Arm of version 1.minor, without rows and no trial.
fn made_spec(minor: u16) -> SealSpec
    ensures { result ≡ made_spec minor }
{
    SealSpec {
        cpu: Cpu::Arm,
        version: Version { major: 1, minor },
        rollback: None,
        rows: ArrayVec::new(),
        trial: false,
    }
}

/// The sealed image of version 1.minor on the binary of a seed.
#[tactic(auto, unfolding(crate::specs::Flashes::made_image))]
fn made_image(alloc: Global, seed: u32, minor: u16) -> Result<Vec<u8>, AllocError>
    ensures value { IfOk result (λ image. image.items ≡ made_image seed minor) }
    ensures few { IfOk result (λ image. length image.items ≤ 0x40000) }
{
    let binary = binary_of(alloc, seed)?;
    sealed_text(alloc, &binary, &made_spec(minor))
}

/// A partition of these words alone.
fn plain_part(location: u32, flags: u32) -> Partition
    ensures { result ≡ plain_part location flags }
{
    Partition {
        location,
        flags,
        id: None,
        families: ArrayVec::new(),
        name: None,
    }
}

/// The table of a made flash.
#[tactic(auto, unfolding(crate::specs::Flashes::made_table))]
fn made_table() -> Table
    ensures { result ≡ made_table }
{
    let mut parts = ArrayVec::new();
    parts.push(plain_part(0xfc08_2002, 0xfc02_0000));
    parts.push(plain_part(0xfc10_2042, 0xfc02_0002));
    Table {
        version: Version { major: 1, minor: 0 },
        singleton: false,
        unpartitioned: 0xfc00_8000,
        parts,
    }
}

/// The bytes of the table of a made flash.
fn table_text(alloc: Global) -> Result<Vec<u8>, AllocError>
    ensures value { IfOk result (λ text. text.items ≡ written_table made_table) }
    ensures few { IfOk result (λ text. length text.items ≤ 0x2000) }
{
    let mut text = Vec::new(alloc);
    match write_table(alloc, &made_table(), &mut text) {
        Ok(()) => Ok(text),
        Err(TableWriteFault::Memory) => Err(AllocError),
        Err(TableWriteFault::TooLong(_)) => unreachable!(),
    }
}

/// Appends the bytes, with 0xff after them up to so many bytes.
fn put_padded(out: &mut Vec<u8>, bytes: &[u8], count: usize) -> Result<(), AllocError>
    requires small { count ≤ MOST_FLASH_BYTES }
    requires few { length bytes.now ≤ count }
    ensures items { OnOk result (out.new.items ≡ out.old.items ++ padded count bytes.now) }
    ensures len { OnOk result (length out.new.items ≡ length out.old.items + count) }
{
    out.extend_from_slice(bytes)?;
    let fill = count - bytes.len();
    out.resize(out.len() + fill, 0xff)
}

/// The flash of number n.
fn flash_of(alloc: Global, n: u32) -> Result<Vec<u8>, AllocError>
    ensures value { IfOk result (λ flash. flash.items ≡ generated n) }
    ensures len { IfOk result (λ flash. length flash.items ≡ 0x100000) }
{
    let table = table_text(alloc)?;
    let first = made_image(alloc, n, (n % 10) as u16)?;
    let second = made_image(alloc, n.wrapping_add(1), (n / 10 % 10) as u16)?;
    let mut flash = Vec::new(alloc);
    put_padded(&mut flash, &table, FIRST_AT)?;
    put_padded(&mut flash, &first, FIRST_ROOM)?;
    put_padded(&mut flash, &second, SECOND_ROOM)?;
    Ok(flash)
}

/// Appends the flash of number n, of 1,048,576 bytes: the table at 0; the sealed image of seed n
/// and version 1.(n mod 10) at 0x2000; and that of seed n + 1 and version 1.((n / 10) mod 10) at
/// 0x42000. Where there is no memory for it, the former bytes stay, and a part of the flash may
/// stand after them.
pub fn generate(alloc: Global, n: u32, out: &mut Vec<u8>) -> Result<(), AllocError>
    ensures ok { OnOk result (out.new.items ≡ out.old.items ++ generated n) }
    ensures len { OnOk result (length out.new.items ≡ length out.old.items + 0x100000) }
    ensures err { OnErr result (take (length out.old.items) out.new.items ≡ out.old.items) }
{
    let flash = flash_of(alloc, n)?;
    out.extend_from_slice(&flash)
}
