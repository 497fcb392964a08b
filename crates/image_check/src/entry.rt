//! Where an image starts.

ghost use Rattle.std.specs.Prelude.{◌≡◌, ◌+◌, ◌≤◌, ◌^◌, false, None, Some, length, unwrap_or};
ghost use Rattle.std.specs.Option.{option_map_or};
ghost use Rattle.block_codec.specs.Blocks.{block_size, IsWholeBlock};
ghost use Rattle.load_map.specs.Stored.{AreStoredIn};
ghost use Rattle.image_check.specs.Entry.{code_address, entry_of, from_table, is_in_block, is_runnable, is_shared, is_within, judged_source, source_of};

use crate::why::EntryFault;
use block_codec::{Block, Def, EntryPoint};
use load_map::{Loads, SRAM_END, SRAM_START, loaded_word_at};
use pico_board::{Cpu, View};

/// The size in bytes of a vector table's first two words, SP and PC.
const TABLE_SIZE: u32 = 8;

/// An entry, and where it comes from.
#[derive(Clone, Copy, Debug, PartialEq, Eq)]
pub struct Source {
    /// PC, SP and the limit.
    pub entry: EntryPoint,
    /// The address of the vector table that PC and SP come from, where they do.
    pub table: Option<u32>,
}

/// PC and SP from the vector table at this address.
fn from_table<V: View>(view: &V, base: u32, loads: &Loads, table: u32) -> Result<Source, EntryFault>
    requires stored { AreStoredIn (length (V.bytes view.now)) loads.now.items }
    requires room { base + length (V.bytes view.now) ≤ 2 ^ 32 }
    ensures { result ≡ from_table base (V.bytes view.now) loads.now.items table }
{
    let second = table.checked_add(4).ok_or(EntryFault::Table)?;
    let sp = loaded_word_at(view, loads, base, table).ok_or(EntryFault::Table)?;
    let pc = loaded_word_at(view, loads, base, second).ok_or(EntryFault::Table)?;
    Ok(Source {
        entry: EntryPoint { pc, sp, limit: 0 },
        table: Some(table),
    })
}

/// An ENTRY_POINT item; or else for Arm the vector table, and for RISC-V the window's start.
fn source_of<V: View>(
    view: &V,
    base: u32,
    cpu: Cpu,
    def: &Def,
    loads: &Loads,
) -> Result<Source, EntryFault>
    requires stored { AreStoredIn (length (V.bytes view.now)) loads.now.items }
    requires room { base + length (V.bytes view.now) ≤ 2 ^ 32 }
    ensures { result ≡ source_of base (V.bytes view.now) cpu def.now loads.now.items
        def.now.entry_point }
{
    if let Some(entry) = def.entry_point {
        return Ok(Source { entry, table: None });
    }
    match cpu {
        Cpu::Arm => from_table(view, base, loads, def.vector.unwrap_or(base)),
        Cpu::Riscv => Ok(Source {
            entry: EntryPoint {
                pc: base,
                sp: SRAM_END,
                limit: 0,
            },
            table: None,
        }),
    }
}

/// Whether an address lies in a range.
fn is_within(address: u32, at: u64, size: u32) -> bool
    requires { at ≤ 2 ^ 33 }
    ensures { result ≡ is_within address at size }
{
    let address = u64::from(address);
    at <= address && address < at + u64::from(size)
}

/// Whether two ranges share an address.
fn is_shared(at: u32, size: u32, other: u64, other_size: u32) -> bool
    requires { other ≤ 2 ^ 33 }
    ensures { result ≡ is_shared at size other other_size }
{
    let at = u64::from(at);
    at < other + u64::from(other_size) && other < at + u64::from(size)
}

/// The address that PC names, whose bit 0 only tells the instruction set.
fn code_address(pc: u32) -> u32
    ensures { result ≡ code_address pc }
{
    2 * (pc / 2)
}

/// Whether the vector table shares a byte with the block that stands at this address.
fn shares_table(table: Option<u32>, at: u64, size: u32) -> bool
    requires { at ≤ 2 ^ 33 }
    ensures { result ≡ option_map_or (λ t. is_shared t 8 at size) table false }
{
    match table {
        Some(table) => is_shared(table, TABLE_SIZE, at, size),
        None => false,
    }
}

/// Whether the vector table shares a byte with the block, or the first code address lies in it.
fn is_in_block(base: u32, block: &Block, source: &Source) -> bool
    ensures { result ≡ is_in_block base block.now source.now }
{
    let at = u64::from(base) + u64::from(block.at());
    shares_table(source.table, at, block.size())
        || is_within(code_address(source.entry.pc), at, block.size())
}

/// Whether the first code address lies in the window or in SRAM.
fn is_runnable(base: u32, size: u32, source: &Source) -> bool
    ensures { result ≡ is_runnable base size source.now }
{
    let code = code_address(source.entry.pc);
    is_within(code, u64::from(base), size)
        || is_within(code, u64::from(SRAM_START), SRAM_END - SRAM_START)
}

/// The entry of the image that the block defines, or its first fault. The loads are those of its
/// load map, and `base` is the address of the window's first byte.
pub(crate) fn entry_of<V: View>(
    view: &V,
    base: u32,
    cpu: Cpu,
    block: &Block,
    def: &Def,
    loads: &Loads,
) -> Result<EntryPoint, EntryFault>
    requires stored { AreStoredIn (length (V.bytes view.now)) loads.now.items }
    requires room { base + length (V.bytes view.now) ≤ 2 ^ 32 }
    ensures { result ≡ entry_of base (V.bytes view.now) cpu block.now def.now loads.now.items }
{
    let source = source_of(view, base, cpu, def, loads)?;
    if is_in_block(base, block, &source) {
        Err(EntryFault::InBlock)
    } else if !is_runnable(base, view.len(), &source) {
        Err(EntryFault::Pc)
    } else {
        Ok(source.entry)
    }
}
