//! What a run makes of a row, beside what the row wants.

use crate::folder::Folder;
use crate::row::{NamedFile, Row};
use boot_run::run;
use pico_board::MemSink;
use std::alloc::{AllocError, Global};
use std::io;

/// A sink of which each put fails, or none.
fn sink(alloc: Global, put_fails: bool) -> Result<MemSink, AllocError> {
    let mut bad_puts = Vec::new(alloc);
    if put_fails {
        bad_puts.push(0)?;
    }
    Ok(MemSink::make(alloc, bad_puts))
}

/// The place of the first byte in which two contents differ: the shorter one's end where it is the
/// front of the other.
fn first_difference(got: &[u8], wanted: &[u8]) -> usize {
    for (place, (one, other)) in got.iter().zip(wanted).enumerate() {
        if one != other {
            return place;
        }
    }
    got.len().min(wanted.len())
}

/// Whether a content is the one that is wanted. Tells where it is not.
fn is_right<R: Print + Alloc>(
    rt: &R,
    row: &str,
    what: &str,
    got: &[u8],
    wanted: &[u8],
) -> io::Result<bool> {
    if got == wanted {
        return Ok(true);
    }
    let place = first_difference(got, wanted);
    let (size, right) = (got.len(), wanted.len());
    println!(rt; "{row}: {what}: byte {place}, of {size} bytes, of which {right} are wanted")?;
    Ok(false)
}

/// Whether a status is the one that is wanted. Tells it where it is not.
fn has_status<R: Print + Alloc>(rt: &R, row: &str, got: u8, wanted: u8) -> io::Result<bool> {
    if got == wanted {
        return Ok(true);
    }
    println!(rt; "{row}: status {got}, wanted {wanted}")?;
    Ok(false)
}

/// Whether each file that is wanted is there, with its bytes.
fn has_files<R: Print + Alloc>(
    rt: &R,
    row: &str,
    folder: &Folder,
    wanted: &[NamedFile],
) -> io::Result<bool> {
    let mut right = true;
    for (name, bytes) in wanted {
        match folder.file(name) {
            Some(got) => right &= is_right(rt, row, name, got, bytes)?,
            None => {
                println!(rt; "{row}: {name} is not there")?;
                right = false;
            }
        }
    }
    Ok(right)
}

/// Whether a name is one of these files'.
fn is_named(files: &[NamedFile], name: &str) -> bool {
    files.iter().any(|file| file.0.as_str() == name)
}

/// Whether each file that was written is wanted. So each other file has its former bytes.
fn has_no_others<R: Print + Alloc>(
    rt: &R,
    row: &str,
    folder: &Folder,
    wanted: &[NamedFile],
) -> io::Result<bool> {
    let mut right = true;
    for name in folder.written() {
        if !is_named(wanted, name.as_str()) {
            println!(rt; "{row}: {name} is written")?;
            right = false;
        }
    }
    Ok(right)
}

/// Whether a run on a row ends as the row wants. Prints a line for each thing that differs.
pub fn passes<R: Print + AllocGlobal>(rt: &R, row: Row<'_>) -> io::Result<bool> {
    let alloc = rt.alloc();
    let mut out = sink(alloc, row.put_fails)?;
    let mut folder = Folder::new(alloc, row.inputs);
    let status = run(alloc, &row.words, &mut folder, &mut out);
    let ends = has_status(rt, row.name, status.number(), row.status)?;
    let tells = is_right(rt, row.name, "stdout", out.bytes(), &row.text)?;
    let writes = has_files(rt, row.name, &folder, &row.wanted)?;
    let keeps = has_no_others(rt, row.name, &folder, &row.wanted)?;
    Ok(ends && tells && writes && keeps)
}
