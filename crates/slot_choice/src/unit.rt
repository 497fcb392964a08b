use pico_board::Window;

/// One of the two members of a pair of slots. A unit that is no pair has its one slot as A.
#[derive(Clone, Copy, PartialEq, Eq, Debug)]
pub enum Member {
    /// The first member.
    A,
    /// The second member.
    B,
}

/// A window of the flash, or a pair of windows, that a boot starts from or a download goes to.
#[derive(Clone, Copy, Default, PartialEq, Eq, Debug)]
pub struct SlotUnit {
    /// The window of A in the flash.
    pub a: Window,
    /// The window of B in the flash, where the unit is a pair.
    pub b: Option<Window>,
    /// The number of A's partition, counted from 0, where A is a partition.
    pub a_part: Option<u32>,
    /// The number of B's partition, counted from 0, where the unit is a pair of partitions.
    pub b_part: Option<u32>,
}
