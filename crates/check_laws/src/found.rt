//! Which law speaks of each loss of power in a session.

use pico_board::Window;

/// Why no law speaks of a session: the first of these that holds.
#[derive(Clone, Copy, Debug, PartialEq, Eq)]
pub enum Reason {
    /// The script is no host's.
    Script,
    /// The steps do not lie in one member of a pair.
    Windows,
    /// A normal boot before the steps starts an image of that member.
    Running,
    /// The steps change the partition table.
    Table,
    /// There is no table, and the steps do not write the first sector last.
    Order,
}

/// Which law speaks of each loss of power in the steps that a host does, whatever bytes it tears.
#[derive(Clone, Copy, Debug, PartialEq, Eq)]
pub enum SessionFound {
    /// The host does no step.
    Silent,
    /// The steps write this window alone, and the page of the image's first block last.
    Staged(Window),
    /// They write this window alone, and its first sector last.
    Gated(Window),
    /// They write this window alone.
    Confined(Window),
    /// No law, for this reason.
    Open(Reason),
}
