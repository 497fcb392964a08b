//! What is read of a window: its first block, its loop's first block with a table, its definition.

ghost use Rattle.std.specs.Prelude.{◌≡◌, List, IfSome, Ok, find};
ghost use Rattle.block_codec.specs.Blocks.{BlockView, IsWholeBlock};
ghost use Rattle.block_loop.specs.Loop.{first_block, loop_of};
ghost use Rattle.block_loop.specs.Offsets.{AreLoop};
ghost use Rattle.part_table.specs.TableOf.{has_table};
ghost use Rattle.boot_caveats.specs.ImageCaveats.{definition_in};
ghost use Rattle.boot_caveats.specs.StartCaveats.{table_place};

use block_codec::Block;
use block_loop::{BlockLoop, block_at, block_of, walk};
use part_table::has_table;
use pico_board::{Cpu, View};
use slot_caveats::{Sought, last_where};

/// The first block of a view: the one at the lowest multiple of 4 below 4096.
pub(crate) fn first_block<V: View>(view: &V) -> Option<Block>
    ensures exact { result ≡ first_block (V.bytes view.now) }
    ensures whole { IfSome result (λ b. IsWholeBlock b) }
{
    for place in 0..1024u32 {
        if let Some(block) = block_at(view, 4 * place) {
            return Some(block);
        }
    }
    None
}

/// The first block with a PARTITION_TABLE item of a loop.
fn first_table<V: View>(view: &V, found: &BlockLoop) -> Option<Block>
    requires loop_ { AreLoop (V.bytes view.now) found.now }
    ensures { (loop : List BlockView) → loop_of (V.bytes view.now) ≡ Ok loop
        → result ≡ find has_table loop }
{
    for i in 0..found.count() {
        let block = block_of(view, found, i);
        if has_table(&block) {
            return Some(block);
        }
    }
    None
}

/// The offset of the first block with a PARTITION_TABLE item of a view's loop.
pub(crate) fn table_place<V: View>(view: &V) -> Option<u32>
    ensures { result ≡ table_place (V.bytes view.now) }
{
    let found = match walk(view) {
        Ok(found) => found,
        Err(_) => return None,
    };
    match first_table(view, &found) {
        Some(block) => Some(block.at()),
        None => None,
    }
}

/// The definition of a view: the last block of its loop that suits the processor.
pub(crate) fn definition_in<V: View>(view: &V, cpu: Cpu) -> Option<Block>
    ensures { result ≡ definition_in cpu (V.bytes view.now) }
{
    last_where(view, Sought::Definition(cpu))
}
