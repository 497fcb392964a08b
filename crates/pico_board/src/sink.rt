//! The sink of a program's text.

ghost use Rattle.std.specs.Prelude.{List};
ghost use Rattle.pico_board.specs.Puts.{SinkState, Put, Takes};

use thiserror::Error;

/// Why a put failed.
#[derive(Clone, Copy, Debug, PartialEq, Eq, Error)]
pub enum SinkFail {
    /// The sink was at fault.
    #[error("the sink was at fault")]
    Fault,
    /// There was no memory.
    #[error("out of memory")]
    Memory,
}

/// Takes bytes in order. A sink may tell the bytes that were put so far. Such a sink may also be
/// steady: no put of a steady sink is ever at fault.
pub trait Sink {
    ghost state: { Self → SinkState };

    // The sink has answered these puts, in this order, where it has a record.
    ghost history: { Self → List Put → Type 0 };

    /// Appends the bytes, or a prefix of them after an error.
    fn put(&mut self, bytes: &[u8]) -> Result<(), SinkFail>
        ensures { Takes state history self.old
            (record { bytes = bytes.now; answer = result }) self.new };
}
