//! Real files as a store. It tells nothing of what the files hold.

ghost use Rattle.std.specs.Prelude.{◌≡◌};

use crate::pieces::read_to_limit;
use crate::replacing::replace;
use pico_board::{Store, StoreFail};
use std::fs::{self, Files};
use std::io::ErrorKind;

/// The files of the machine, by path. Each error of the system counts as a fault, but an
/// interrupted call does not. Each write that takes no byte counts as a fault too. After a write
/// that failed a regular file has its old bytes.
#[derive(Drop)]
pub struct Disk<'a, R: Files + AllocGlobal> {
    files: &'a R,
    read_faults: u64,
    write_faults: u64,
}

impl<'a, R: Files + AllocGlobal> Disk<'a, R> {
    /// The files as the runtime has them, with no fault counted.
    pub fn new(files: &'a R) -> Disk<'a, R>
        ensures { (result.read_faults ≡ 0) × (result.write_faults ≡ 0) }
    {
        Disk {
            files,
            read_faults: 0,
            write_faults: 0,
        }
    }
}

impl<R: Files + AllocGlobal> Store for Disk<'_, R> {
    ghost use Rattle.std.specs.Prelude.{None, false};

    ghost state = { λ disk. record {
      files = None;
      read_faults = disk.read_faults;
      write_faults = disk.write_faults;
      steady = false;
    } };

    // The disk keeps no record of its calls.
    ghost history = { λ disk calls. Unit {0} };

    fn read(&mut self, name: &str, limit: u32, into: &mut Vec<u8>) -> Result<(), StoreFail> {
        let answer = match fs::open(self.files, name) {
            Ok(mut file) => read_to_limit(&mut file, limit, into),
            Err(_) => Err(StoreFail::Fault),
        };
        if answer == Err(StoreFail::Fault) {
            self.read_faults = self.read_faults.saturating_add(1);
        }
        answer
    }

    fn write(&mut self, name: &str, bytes: &[u8]) -> Result<(), StoreFail> {
        match replace(self.files, name, bytes) {
            Ok(()) => Ok(()),
            Err(error) if error.kind() == ErrorKind::OutOfMemory => Err(StoreFail::Memory),
            Err(_) => {
                self.write_faults = self.write_faults.saturating_add(1);
                Err(StoreFail::Fault)
            }
        }
    }
}
