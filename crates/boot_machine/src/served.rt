//! What is answered of an event of a host.

use pico_board::BootKind;
use text_lines::EventOutcome;

/// What came of an event of a host before the boot that it asks for, and that boot.
#[derive(PartialEq, Eq, Debug, Drop)]
pub struct Served {
    /// What came of the event.
    pub outcome: EventOutcome,
    /// The boot that it asks for, if it does.
    pub boot: Option<BootKind>,
}
