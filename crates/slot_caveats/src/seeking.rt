//! What is sought among the blocks of a window's loop.

ghost use Rattle.std.specs.Prelude.{◌≡◌, List, Ok, find, reverse};
ghost use Rattle.block_codec.specs.Blocks.{BlockView};
ghost use Rattle.block_loop.specs.Loop.{loop_of};
ghost use Rattle.block_loop.specs.Offsets.{AreLoop};
ghost use Rattle.slot_caveats.specs.SlotCaveats.{is_executable, last_where};
ghost use Rattle.slot_caveats.specs.Sought.{is_long_definition, is_sought};

use block_codec::Block;
use block_loop::{BlockLoop, block_of, walk};
use image_def::{MOST_BLOCK_BYTES, are_for, image_flags, suits};
use part_table::has_table;
use pico_board::{Cpu, View};

/// What is sought among the blocks of a loop.
#[derive(Clone, Copy)]
pub enum Sought {
    /// A definition for a processor.
    Definition(Cpu),
    /// A block that would be a definition for a processor if it were shorter.
    LongDefinition(Cpu),
    /// A block with a PARTITION_TABLE item.
    Table,
    /// A block whose first IMAGE_TYPE item is that of an executable.
    Executable,
}

/// Whether a block's first IMAGE_TYPE item is that of an executable, whatever else it says.
fn is_executable(block: &Block) -> bool
    ensures { result ≡ is_executable block.now }
{
    match image_flags(block) {
        Some(flags) => flags % 16 == 1,
        None => false,
    }
}

/// Whether a block is longer than a definition may be, and would suit the processor otherwise.
fn is_long_definition(block: &Block, cpu: Cpu) -> bool
    ensures { result ≡ is_long_definition cpu block.now }
{
    if block.size() <= MOST_BLOCK_BYTES {
        return false;
    }
    match image_flags(block) {
        Some(flags) => are_for(cpu, flags),
        None => false,
    }
}

/// Whether a block is what is sought.
fn is_sought(block: &Block, what: Sought) -> bool
    ensures { result ≡ is_sought what block.now }
{
    match what {
        Sought::Definition(cpu) => suits(block, cpu),
        Sought::LongDefinition(cpu) => is_long_definition(block, cpu),
        Sought::Table => has_table(block),
        Sought::Executable => is_executable(block),
    }
}

/// The last block of a loop that is what is sought.
fn last_of<V: View>(view: &V, found: &BlockLoop, what: Sought) -> Option<Block>
    requires loop_ { AreLoop (V.bytes view.now) found.now }
    ensures { (loop : List BlockView) → loop_of (V.bytes view.now) ≡ Ok loop
        → result ≡ find (is_sought what) (reverse loop) }
{
    let mut last = None;
    for i in 0..found.count() {
        let block = block_of(view, found, i);
        if is_sought(&block, what) {
            last = Some(block);
        }
    }
    last
}

/// The last block of a view's loop that is what is sought, where the loop closes.
pub fn last_where<V: View>(view: &V, what: Sought) -> Option<Block>
    ensures { result ≡ last_where (is_sought what) (V.bytes view.now) }
{
    match walk(view) {
        Ok(found) => last_of(view, &found, what),
        Err(_) => None,
    }
}
