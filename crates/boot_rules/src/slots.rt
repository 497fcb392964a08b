//! What a table slot lacks.

use block_loop::LoopFault;
use part_table::TableFault;
use thiserror::Error;

/// Why a table slot has no table: the first that applies, in this order.
#[derive(Clone, Copy, Debug, PartialEq, Eq, Error)]
pub enum SlotFault {
    /// The slot's loop has this fault, which is `NoBlock` where there is no first block.
    #[error("the slot has no loop: {0}")]
    Loop(LoopFault),
    /// No block of the loop has a PARTITION_TABLE item.
    #[error("no block of the slot's loop has a table")]
    NoTable,
    /// The last block that has one is read to this fault.
    #[error("the slot's table is wrong: {0}")]
    Table(TableFault),
}
