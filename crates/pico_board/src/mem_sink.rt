//! A sink in memory.

ghost use Rattle.std.specs.Prelude.{◌≡◌, ◌↔◌, ◌+◌, ◌-◌, ◌^◌, [], ◌∷◌, min, IsErrOf, IsTrue, OnErr, OnOk};
ghost use Rattle.pico_board.specs.Puts.{Takes};

use crate::sink::{Sink, SinkFail};
use std::alloc::Global;

/// The bytes that were put, and a list of the puts that are to fail.
#[derive(Drop)]
pub struct MemSink {
    bytes: Vec<u8>,
    bad_puts: Vec<u64>,
    puts: u64,
    faults: u64,
}

impl MemSink {
    ghost use Rattle.pico_board.specs.MemFiles.{sink_state, put_bytes, puts_of, bad_puts_of, HasTakenPuts};

    /// An empty sink. Puts are numbered from 0; a put whose number is listed is at fault and
    /// appends nothing.
    pub fn make(alloc: Global, bad_puts: Vec<u64>) -> MemSink
        ensures bytes { put_bytes result ≡ [] }
        ensures faults { (sink_state result).faults ≡ 0 }
        ensures puts { puts_of result ≡ 0 }
        ensures listed { bad_puts_of result ≡ bad_puts.items }
        ensures steady { IsTrue (sink_state result).steady ↔ (bad_puts.items ≡ []) }
        ensures unused { HasTakenPuts result [] }
    {
        MemSink {
            bytes: Vec::new(alloc),
            bad_puts,
            puts: 0,
            faults: 0,
        }
    }

    /// The bytes that were put.
    pub fn bytes(&self) -> &[u8]
        ensures { result.now ≡ put_bytes self.now }
    {
        self.bytes.as_slice()
    }
}

impl Sink for MemSink {
    ghost use Rattle.pico_board.specs.MemFiles.{sink_state, put_bytes, puts_of, bad_puts_of, is_listed, HasTakenPuts};

    ghost state = { sink_state };

    ghost history = { HasTakenPuts };

    fn put(&mut self, bytes: &[u8]) -> Result<(), SinkFail>
        ensures taken { Takes sink_state HasTakenPuts self.old
            (record { bytes = bytes.now; answer = result }) self.new }
        // A fault comes exactly at the listed puts, and no failed put appends anything.
        ensures listed { IsErrOf result SinkFail.Fault ↔ IsTrue
            (is_listed (bad_puts_of self.old) (puts_of self.old)) }
        ensures nothing { OnErr result (put_bytes self.new ≡ put_bytes self.old) }
        ensures number { puts_of self.new ≡ min (puts_of self.old + 1) (2 ^ 64 - 1) }
        ensures same_list { bad_puts_of self.new ≡ bad_puts_of self.old }
    {
        let is_bad = self.bad_puts.contains(&self.puts);
        self.puts = self.puts.saturating_add(1);
        if is_bad {
            self.faults = self.faults.saturating_add(1);
            return Err(SinkFail::Fault);
        }
        match self.bytes.extend_from_slice(bytes) {
            Ok(()) => Ok(()),
            Err(_) => Err(SinkFail::Memory),
        }
    }
}
