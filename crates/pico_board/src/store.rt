//! The store of a program's files.

ghost use Rattle.std.specs.Prelude.{◌≡◌, ◌+◌, ◌≤◌, List, [], length, OnOk};
ghost use Rattle.pico_board.specs.Files.{StoreState, Access, Reads, Writes, read_answer, Serves};

use thiserror::Error;

/// Why a read or a write of a store failed.
#[derive(Clone, Copy, Debug, PartialEq, Eq, Error)]
pub enum StoreFail {
    /// The store was at fault, or it lacks the name of a read.
    #[error("the store was at fault")]
    Fault,
    /// There was no memory.
    #[error("out of memory")]
    Memory,
}

/// Files by name. A store may tell its files. Such a store may also be steady: a steady store
/// faults only on a read of a missing name.
pub trait Store {
    ghost state: { Self → StoreState };

    // The store has answered these calls, in this order, where it has a record.
    ghost history: { Self → List Access → Type 0 };

    /// Reads the first `limit + 1` bytes of a file into an empty vector, or all where the file has
    /// fewer. Nothing is said of `into` after an error.
    fn read(&mut self, name: &str, limit: u32, into: &mut Vec<u8>) -> Result<(), StoreFail>
        requires { into.old.items ≡ [] }
        ensures served { Serves state history self.old
            (Reads name.now limit (read_answer result into.new.items)) self.new }
        ensures length { OnOk result (length into.new.items ≤ limit + 1) };

    /// Makes the bytes those of the name. After an error nothing is known of that name.
    fn write(&mut self, name: &str, bytes: &[u8]) -> Result<(), StoreFail>
        ensures served { Serves state history self.old
            (Writes name.now bytes.now result) self.new };
}
