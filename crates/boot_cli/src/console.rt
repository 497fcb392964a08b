//! Standard output as a sink. It tells nothing of what it took.

ghost use Rattle.std.specs.Prelude.{◌≡◌};

use crate::pieces::write_whole;
use pico_board::{Sink, SinkFail};
use std::io::{self, Print};

/// Standard output. Each error of the system, and each write that takes no byte, counts as a
/// fault.
#[derive(Drop)]
pub struct Console<'a, R: Print> {
    output: &'a R,
    faults: u64,
}

impl<'a, R: Print> Console<'a, R> {
    /// The output of the runtime, with no fault counted.
    pub fn new(output: &'a R) -> Console<'a, R>
        ensures { result.faults ≡ 0 }
    {
        Console { output, faults: 0 }
    }
}

impl<R: Print> Sink for Console<'_, R> {
    ghost use Rattle.std.specs.Prelude.{None, false};

    ghost state = { λ console. record { bytes = None; faults = console.faults; steady = false } };

    // The console keeps no record of its puts.
    ghost history = { λ console puts. Unit {0} };

    fn put(&mut self, bytes: &[u8]) -> Result<(), SinkFail> {
        if write_whole(&mut io::writer(self.output), bytes) {
            Ok(())
        } else {
            self.faults = self.faults.saturating_add(1);
            Err(SinkFail::Fault)
        }
    }
}
