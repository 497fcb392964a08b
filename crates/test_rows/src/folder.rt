//! The files of a row as a store that keeps the names which are written.

ghost use Rattle.std.specs.Prelude.{◌≡◌};

use crate::row::NamedFile;
use pico_board::{MemStore, Store, StoreFail};
use std::alloc::{AllocError, Global};

/// Files in memory, and the names that were written, in their order.
#[derive(Drop)]
pub struct Folder {
    alloc: Global,
    files: MemStore,
    written: Vec<String>,
}

impl Folder {
    /// These files; nothing was written.
    pub fn new(alloc: Global, files: Vec<NamedFile>) -> Folder {
        Folder {
            alloc,
            files: MemStore::make(alloc, files, Vec::new(alloc), Vec::new(alloc)),
            written: Vec::new(alloc),
        }
    }

    /// The bytes of a name, and None where there is no such file.
    pub fn file(&self, name: &str) -> Option<&[u8]> {
        self.files.file(name)
    }

    /// The names that were written.
    pub fn written(&self) -> &[String] {
        self.written.as_slice()
    }

    /// Keeps a name.
    fn note(&mut self, name: &str) -> Result<(), AllocError>
        ensures { self.new.files ≡ self.old.files }
    {
        let name = String::from_str(self.alloc, name)?;
        self.written.push(name)?;
        Ok(())
    }
}

impl Store for Folder {
    ghost use Rattle.std.specs.Prelude.{None, false};
    ghost use Rattle.pico_board.specs.MemFiles.{store_state};

    ghost state = { λ folder. record {
      files = None;
      read_faults = (store_state folder.files).read_faults;
      write_faults = (store_state folder.files).write_faults;
      steady = false;
    } };

    // The folder keeps no record of its calls.
    ghost history = { λ folder calls. Unit {0} };

    fn read(&mut self, name: &str, limit: u32, into: &mut Vec<u8>) -> Result<(), StoreFail> {
        self.files.read(name, limit, into)
    }

    fn write(&mut self, name: &str, bytes: &[u8]) -> Result<(), StoreFail> {
        if self.note(name).is_err() {
            return Err(StoreFail::Memory);
        }
        self.files.write(name, bytes)
    }
}
