//! A store in memory.

ghost use Rattle.std.specs.Prelude.{◌≡◌, ◌⊎◌, ◌↔◌, ◌+◌, ◌-◌, ◌^◌, ◌≤◌, [], ◌∷◌, min, IsErrOf, IsTrue, MatchOption, None, OnErr, OnOk, Some, length, take};
ghost use Rattle.pico_board.specs.Files.{Reads, Writes, Serves, read_answer, HasWritten, file_of};
ghost use Rattle.pico_board.specs.MemFiles.{IsFirstOf, files_from};

use crate::store::{Store, StoreFail};
use std::alloc::Global;

/// Files in memory, and lists of the reads and of the writes that are to fail.
#[derive(Drop)]
pub struct MemStore {
    alloc: Global,
    files: Vec<(String, Vec<u8>)>,
    bad_reads: Vec<u64>,
    bad_writes: Vec<u64>,
    reads: u64,
    writes: u64,
    read_faults: u64,
    write_faults: u64,
}

impl MemStore {
    ghost use Rattle.pico_board.specs.MemFiles.{store_state, files_of, reads_of, writes_of, bad_reads_of, bad_writes_of, HasAnswered};

    /// A store with these files; of two files of one name the first counts. Reads and writes are
    /// numbered from 0, each by themselves; a call whose number is listed is at fault and changes
    /// no file.
    pub fn make(
        alloc: Global,
        files: Vec<(String, Vec<u8>)>,
        bad_reads: Vec<u64>,
        bad_writes: Vec<u64>,
    ) -> MemStore
        ensures files { files_of result ≡ files_from files.items }
        ensures read_faults { (store_state result).read_faults ≡ 0 }
        ensures write_faults { (store_state result).write_faults ≡ 0 }
        ensures reads { reads_of result ≡ 0 }
        ensures writes { writes_of result ≡ 0 }
        ensures bad_reads { bad_reads_of result ≡ bad_reads.items }
        ensures bad_writes { bad_writes_of result ≡ bad_writes.items }
        ensures steady { IsTrue (store_state result).steady ↔
            ((bad_reads.items ≡ []) × (bad_writes.items ≡ [])) }
        ensures unused { HasAnswered result [] }
    {
        MemStore {
            alloc,
            files,
            bad_reads,
            bad_writes,
            reads: 0,
            writes: 0,
            read_faults: 0,
            write_faults: 0,
        }
    }

    /// The bytes of a name, and None where there is no such file.
    pub fn file(&self, name: &str) -> Option<&[u8]>
        ensures { MatchOption result (file_of (files_of self.now) name.now ≡ None)
            (λ bytes. file_of (files_of self.now) name.now ≡ Some bytes.now) }
    {
        match find_file(&self.files, name) {
            Some(place) => Some(self.files[place].1.as_slice()),
            None => None,
        }
    }
}

impl Store for MemStore {
    ghost use Rattle.pico_board.specs.MemFiles.{store_state, files_of, reads_of, writes_of, bad_reads_of, bad_writes_of, is_listed, HasAnswered};

    ghost state = { store_state };

    ghost history = { HasAnswered };

    fn read(&mut self, name: &str, limit: u32, into: &mut Vec<u8>) -> Result<(), StoreFail>
        requires { into.old.items ≡ [] }
        ensures served { Serves store_state HasAnswered self.old
            (Reads name.now limit (read_answer result into.new.items)) self.new }
        ensures length { OnOk result (length into.new.items ≤ limit + 1) }
        // A fault comes exactly at the listed reads, and for a missing name.
        ensures exact { IsErrOf result StoreFail.Fault
            ↔ (IsTrue (is_listed (bad_reads_of self.old) (reads_of self.old))
            ⊎ (file_of (files_of self.old) name.now ≡ None)) }
        ensures number { reads_of self.new ≡ min (reads_of self.old + 1) (2 ^ 64 - 1) }
        ensures same_number { writes_of self.new ≡ writes_of self.old }
        ensures same_reads { bad_reads_of self.new ≡ bad_reads_of self.old }
        ensures same_writes { bad_writes_of self.new ≡ bad_writes_of self.old }
    {
        let is_bad = self.bad_reads.contains(&self.reads);
        self.reads = self.reads.saturating_add(1);
        if is_bad {
            self.read_faults = self.read_faults.saturating_add(1);
            return Err(StoreFail::Fault);
        }
        let Some(bytes) = self.file(name) else {
            self.read_faults = self.read_faults.saturating_add(1);
            return Err(StoreFail::Fault);
        };
        copy_front(bytes, limit, into)
    }

    fn write(&mut self, name: &str, bytes: &[u8]) -> Result<(), StoreFail>
        ensures served { Serves store_state HasAnswered self.old
            (Writes name.now bytes.now result) self.new }
        // A fault comes exactly at the listed writes, and no failed write changes a file.
        ensures exact { IsErrOf result StoreFail.Fault ↔ IsTrue
            (is_listed (bad_writes_of self.old) (writes_of self.old)) }
        ensures nothing { OnErr result (files_of self.new ≡ files_of self.old) }
        ensures number { writes_of self.new ≡ min (writes_of self.old + 1) (2 ^ 64 - 1) }
        ensures same_number { reads_of self.new ≡ reads_of self.old }
        ensures same_reads { bad_reads_of self.new ≡ bad_reads_of self.old }
        ensures same_writes { bad_writes_of self.new ≡ bad_writes_of self.old }
    {
        let is_bad = self.bad_writes.contains(&self.writes);
        self.writes = self.writes.saturating_add(1);
        if is_bad {
            self.write_faults = self.write_faults.saturating_add(1);
            return Err(StoreFail::Fault);
        }
        put_file(self.alloc, &mut self.files, name, bytes)
    }
}

/// The place of the first file of the name.
fn find_file(files: &[(String, Vec<u8>)], name: &str) -> Option<usize>
    ensures { MatchOption result (file_of (files_from files.now) name.now ≡ None)
        (IsFirstOf files.now name.now) }
{
    for (i, file) in files.iter().enumerate() {
        if file.0.as_str() == name {
            return Some(i);
        }
    }
    None
}

/// Copies the first `limit + 1` bytes into an empty vector, or all where there are fewer.
fn copy_front(bytes: &[u8], limit: u32, into: &mut Vec<u8>) -> Result<(), StoreFail>
    requires { into.old.items ≡ [] }
    ensures front { OnOk result (into.new.items ≡ take (limit + 1) bytes.now) }
    ensures length { OnOk result (length into.new.items ≤ limit + 1) }
    ensures memory { ¬ (IsErrOf result StoreFail.Fault) }
{
    let most = bytes.len().min(limit as usize + 1);
    match into.extend_from_slice(&bytes[..most]) {
        Ok(()) => Ok(()),
        Err(_) => Err(StoreFail::Memory),
    }
}

/// Makes the bytes those of the name.
fn put_file(
    alloc: Global,
    files: &mut Vec<(String, Vec<u8>)>,
    name: &str,
    bytes: &[u8],
) -> Result<(), StoreFail>
    ensures ok { OnOk result (HasWritten (files_from files.old.items) name.now bytes.now
        (files_from files.new.items)) }
    ensures err { OnErr result (files_from files.new.items ≡ files_from files.old.items) }
    ensures memory { ¬ (IsErrOf result StoreFail.Fault) }
{
    let Ok(copy) = Vec::from_slice(alloc, bytes) else {
        return Err(StoreFail::Memory);
    };
    if let Some(place) = find_file(files, name) {
        files[place].1 = copy;
        return Ok(());
    }
    let Ok(name) = String::from_str(alloc, name) else {
        return Err(StoreFail::Memory);
    };
    let Ok(()) = files.push((name, copy)) else {
        return Err(StoreFail::Memory);
    };
    Ok(())
}
