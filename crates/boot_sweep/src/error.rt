//! Why a session is not swept.

use thiserror::Error;

/// Why a session is not swept: the first that applies, in the order in which `sweep` names them.
#[derive(Clone, Copy, Debug, PartialEq, Eq, Error)]
pub enum SweepError {
    /// The least step whose range does not lie in the slot; 0 where there is no slot.
    #[error("step {0} leaves the slot")]
    NotConfined(u32),
    /// The least step up to which the steps begin no gated list.
    #[error("step {0} does not write the slot's first sector last")]
    NotGated(u32),
    /// There are more than 262,144 steps.
    #[error("the session has more than 262144 steps")]
    TooManySteps,
    /// A normal boot before the session starts an image of the slot.
    #[error("the image that starts before the session is in the slot")]
    FormerInSlot,
    /// There was no memory.
    #[error("out of memory")]
    Memory,
    /// The session leaves another partition table than there was.
    #[error("the session changes the partition table")]
    TableChanged,
}
