//! Files that are replaced whole. The bytes go into a new file in the same folder. This file takes
//! the name when all of them are there. Until then what has the name stays as it was.

#[cfg(test)]
mod tests;

use crate::pieces::write_whole;
use std::fs::{self, Files, Metadata, OpenFile, OpenOptions, Permissions};
use std::io::{self, ErrorKind};

/// How many names are tried for the new file, where other files have the first ones.
const TRIES: u32 = 100;

/// How a name is written.
#[derive(Drop)]
enum Way {
    /// A file is there: the one at this path, with these permissions, is replaced.
    Replace(String, Permissions),
    /// Nothing is there, so the new file takes the name.
    Create,
    /// A device, a pipe, or a link to one of these is there: the bytes go into it.
    Into,
}

/// Whether a name is one of the process's own open files, as standard output. The bytes go into
/// it, whatever it is.
fn is_open_file(name: &str) -> bool {
    name.starts_with("/proc/")
        || name.starts_with("/dev/fd/")
        || name == "/dev/stdout"
        || name == "/dev/stderr"
}

/// The path of a file that is there: of a link, that of the file to which it leads.
fn path_of<R: Files + AllocGlobal>(rt: &R, name: &str) -> io::Result<String> {
    if fs::symlink_metadata(rt, name)?.is_symlink() {
        Ok(fs::canonicalize(rt, name)?.into_string())
    } else {
        Ok(String::from_str(rt.alloc(), name)?)
    }
}

/// How a name that leads to something is written. A file that may not be written is not replaced.
fn way_of_file<R: Files + AllocGlobal>(rt: &R, name: &str, there: &Metadata) -> io::Result<Way> {
    if !there.is_file() {
        return Ok(Way::Into);
    }
    let _writable = OpenOptions::new().write(true).open(rt, name)?;
    Ok(Way::Replace(path_of(rt, name)?, there.permissions()))
}

/// How a name that leads to nothing is written. A link that leads nowhere is written through,
/// which makes its file.
fn way_of_nothing<R: Files + AllocGlobal>(rt: &R, name: &str) -> io::Result<Way> {
    match fs::symlink_metadata(rt, name) {
        Ok(_) => Ok(Way::Into),
        Err(error) if error.kind() == ErrorKind::NotFound => Ok(Way::Create),
        Err(error) => Err(error),
    }
}

/// How a name is written.
fn way_of<R: Files + AllocGlobal>(rt: &R, name: &str) -> io::Result<Way> {
    if is_open_file(name) {
        return Ok(Way::Into);
    }
    match fs::metadata(rt, name) {
        Ok(there) => way_of_file(rt, name, &there),
        Err(error) if error.kind() == ErrorKind::NotFound => way_of_nothing(rt, name),
        Err(error) => Err(error),
    }
}

/// The folder of a path, with its slash. A path without one is in the folder in which the program
/// runs.
fn folder_of(path: &str) -> &str {
    match path.rsplit_once('/') {
        Some((folder, _)) => &path[..=folder.len()],
        None => "",
    }
}

/// A new file in a folder, under a name that no file there has, and this name.
fn new_file<R: Files + AllocGlobal>(rt: &R, folder: &str) -> io::Result<(R::File, String)> {
    for number in 0..TRIES {
        let path = format!(in rt.alloc(); "{folder}.dugnatsew-{number}")?;
        match OpenOptions::new()
            .write(true)
            .create_new(true)
            .open(rt, &path)
        {
            Ok(file) => return Ok((file, path)),
            Err(error) if error.kind() == ErrorKind::AlreadyExists => {}
            Err(error) => return Err(error),
        }
    }
    Err(io::Error::from(ErrorKind::AlreadyExists))
}

/// Writes the bytes into a file. An error of the system, and a write that takes no byte, is one.
fn fill<F: io::Write>(file: &mut F, bytes: &[u8]) -> io::Result<()> {
    if write_whole(file, bytes) {
        Ok(())
    } else {
        Err(io::Error::from(ErrorKind::WriteZero))
    }
}

/// Writes the bytes into a new file, gives it the permissions of a former one, and waits until the
/// disk has it.
fn finish_file<F: io::Write + OpenFile>(
    file: &mut F,
    bytes: &[u8],
    permissions: Option<Permissions>,
) -> io::Result<()> {
    fill(file, bytes)?;
    if let Some(permissions) = permissions {
        file.set_permissions(permissions)?;
    }
    file.sync_all()
}

/// Writes a new file next to a path; the file then takes this path. Where a call fails the new
/// file goes, and what has the path is as it was.
fn write_beside<R: Files + AllocGlobal>(
    rt: &R,
    path: &str,
    bytes: &[u8],
    permissions: Option<Permissions>,
) -> io::Result<()> {
    let (mut file, beside) = new_file(rt, folder_of(path))?;
    let mut answer = finish_file(&mut file, bytes, permissions);
    if answer.is_ok() {
        answer = fs::rename(rt, &beside, path);
    }
    if answer.is_err() {
        let _gone = fs::remove_file(rt, &beside);
    }
    answer
}

/// Makes the bytes those of the name. A regular file, and a name that no file has, is written
/// whole or left as it was. A device, a pipe, or a link to one of these is written into, from its
/// start.
pub fn replace<R: Files + AllocGlobal>(rt: &R, name: &str, bytes: &[u8]) -> io::Result<()> {
    match way_of(rt, name)? {
        Way::Replace(path, permissions) => write_beside(rt, &path, bytes, Some(permissions)),
        Way::Create => write_beside(rt, name, bytes, None),
        Way::Into => fill(&mut fs::create(rt, name)?, bytes),
    }
}
