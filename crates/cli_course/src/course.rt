//! The course of a run: it reads the inputs, and then writes the files and puts the text of an
//! answer.

ghost use Rattle.std.specs.Prelude.{◌≡◌, IfOk, [], length, map};
ghost use Rattle.pico_board.specs.Files.{Reads, Writes, Serves};
ghost use Rattle.cli_course.specs.Outcomes.{AreBytes};
ghost use Rattle.cli_course.specs.Courses.{unread_status, unwritten_status, ReadsIn, WritesOut, PutsOnce, Finishes};
ghost use Rattle.cli_course.specs.Views.{limited_input_from, out_file_from, answer_from, read_of, reading_of};

use crate::answers::{Answer, OutFile};
use crate::status::Status;
use pico_board::{Sink, SinkFail, Store, StoreFail};
use std::alloc::Global;

/// An input file of a command: the argument that names it, and how much of it is read.
#[derive(Drop)]
pub struct LimitedInput<'a> {
    /// The name.
    pub name: &'a str,
    /// The greatest length of a file that is read whole, in bytes. Of a longer file one byte more
    /// than that is read.
    pub limit: u32,
}

/// The status of a run whose read failed.
fn unread_status(fail: StoreFail) -> Status
    ensures { result ≡ unread_status fail }
{
    match fail {
        StoreFail::Fault => Status::ReadFault,
        StoreFail::Memory => Status::Memory,
    }
}

/// The status of a run whose write failed.
fn unwritten_status(fail: StoreFail) -> Status
    ensures { result ≡ unwritten_status fail }
{
    match fail {
        StoreFail::Fault => Status::WriteFault,
        StoreFail::Memory => Status::Memory,
    }
}

/// A file is of bytes.
fn has_bytes(file: &[u8])
    ensures { AreBytes file.now }
{
    // The prover takes from this call that each element of the slice is a byte.
    let _length = file.len();
}

/// Reads an input, up to one byte past its limit, in one call.
fn read_file<S: Store>(
    alloc: Global,
    input: &LimitedInput<'_>,
    store: &mut S,
) -> Result<Vec<u8>, StoreFail>
    ensures served { Serves S.state S.history store.old
        (Reads input.now.name.now input.now.limit (read_of result)) store.new }
    ensures bytes { IfOk result (λ file. AreBytes file.items) }
{
    let mut bytes = Vec::new(alloc);
    store.read(input.name, input.limit, &mut bytes)?;
    has_bytes(&bytes);
    Ok(bytes)
}

/// Reads the inputs in their order. The first read that fails gives the status of the run.
pub fn read_all<S: Store>(
    alloc: Global,
    inputs: &[LimitedInput<'_>],
    store: &mut S,
) -> Result<Vec<Vec<u8>>, Status>
    ensures course { ReadsIn S.state S.history (map limited_input_from inputs.now) [] store.old
        (reading_of result) store.new }
    ensures count { IfOk result (λ files. length files.items ≡ length inputs.now) }
{
    let mut files = Vec::new(alloc);
    for input in inputs {
        let file = match read_file(alloc, input, store) {
            Ok(file) => file,
            Err(fail) => return Err(unread_status(fail)),
        };
        match files.push(file) {
            Ok(()) => {}
            Err(_) => return Err(Status::Memory),
        }
    }
    Ok(files)
}

/// Writes a file in one call.
fn write_file<S: Store>(file: &OutFile<'_>, store: &mut S) -> Result<(), StoreFail>
    ensures { Serves S.state S.history store.old
        (Writes file.now.name.now file.now.bytes.items result) store.new }
{
    store.write(file.name, &file.bytes)
}

/// Writes the files in their order. The first write that fails gives the status of the run.
fn write_all<S: Store>(files: &[OutFile<'_>], store: &mut S) -> Option<Status>
    ensures { WritesOut S.state S.history (map out_file_from files.now) store.old result store.new }
{
    for file in files {
        match write_file(file, store) {
            Ok(()) => {}
            Err(fail) => return Some(unwritten_status(fail)),
        }
    }
    None
}

/// Puts the whole text in one call, and answers the status, or how the put failed.
pub fn put_text<K: Sink>(out: &mut K, text: &[u8], status: Status) -> Status
    ensures { PutsOnce K.state K.history out.old text.now status result out.new }
{
    match out.put(text) {
        Ok(()) => status,
        Err(SinkFail::Fault) => Status::OutputFault,
        Err(SinkFail::Memory) => Status::Memory,
    }
}

/// Writes the files of an answer and then puts its text. The answer is the status of the run.
pub fn finish<S: Store, K: Sink>(answer: &Answer<'_>, store: &mut S, out: &mut K) -> Status
    ensures { Finishes S.state S.history K.state K.history
        (answer_from answer.now) store.old out.old result store.new out.new }
{
    match write_all(&answer.files, store) {
        None => put_text(out, &answer.text, answer.status),
        Some(status) => status,
    }
}
