//! What no clause can say: what is left of real files where a call of the system fails, and which
//! names are written into.

use super::{folder_of, is_open_file, replace};
use std::alloc::{Allocator, Global};
use std::fs::{self, File, FileTimes, Files, Metadata, OpenFile, OpenOptions, Permissions};
use std::io::{self, ErrorKind, Read, Seek, SeekFrom, Write};
use std::os::unix::fs::PermissionsExt;
use std::test::Fail;
use std::{env, process};

/// The call that fails.
#[derive(Clone, Copy, PartialEq, Eq)]
enum Failing {
    Write,
    Permissions,
    Sync,
    Rename,
    Nothing,
}

/// An error that no call of these tests answers by itself.
fn failure() -> io::Error {
    io::Error::from(ErrorKind::Other)
}

/// A real file; one call of it fails.
#[derive(Drop)]
struct FailingFile {
    file: File,
    failing: Failing,
}

impl Read for FailingFile {
    fn read(&mut self, buffer: &mut [u8]) -> io::Result<usize> {
        self.file.read(buffer)
    }
}

impl Write for FailingFile {
    fn write(&mut self, buffer: &[u8]) -> io::Result<usize> {
        if self.failing == Failing::Write && buffer.len() < 3 {
            return Err(failure());
        }
        self.file.write(&buffer[..buffer.len().min(2)])
    }

    fn flush(&mut self) -> io::Result<()> {
        self.file.flush()
    }
}

impl Seek for FailingFile {
    fn seek(&mut self, to: SeekFrom) -> io::Result<u64> {
        self.file.seek(to)
    }
}

impl OpenFile for FailingFile {
    fn metadata(&self) -> io::Result<Metadata> {
        self.file.metadata()
    }

    fn set_len(&self, size: u64) -> io::Result<()> {
        self.file.set_len(size)
    }

    fn sync_all(&self) -> io::Result<()> {
        if self.failing == Failing::Sync {
            return Err(failure());
        }
        self.file.sync_all()
    }

    fn sync_data(&self) -> io::Result<()> {
        self.file.sync_data()
    }

    fn set_permissions(&self, perm: Permissions) -> io::Result<()> {
        if self.failing == Failing::Permissions {
            return Err(failure());
        }
        self.file.set_permissions(perm)
    }
}

/// The system's files; one call of them fails.
#[derive(Drop)]
struct FailingFiles<'a> {
    rt: &'a HostRuntime,
    failing: Failing,
}

impl Alloc for FailingFiles<'_> {
    type A = Global;

    fn alloc(&self) -> Global {
        self.rt.alloc()
    }
}

impl Files for FailingFiles<'_> {
    type File = FailingFile;

    type Dir = io::Empty;

    fn open_file(&self, how: &OpenOptions, path: &str) -> io::Result<FailingFile> {
        Ok(FailingFile {
            file: how.open(self.rt, path)?,
            failing: self.failing,
        })
    }

    fn open_dir(&self, _path: &str) -> io::Result<io::Empty> {
        Err(failure())
    }

    fn metadata(&self, path: &str) -> io::Result<Metadata> {
        fs::metadata(self.rt, path)
    }

    fn symlink_metadata(&self, path: &str) -> io::Result<Metadata> {
        fs::symlink_metadata(self.rt, path)
    }

    fn copy(&self, _from: &str, _to: &str) -> io::Result<u64> {
        Err(failure())
    }

    fn rename(&self, from: &str, to: &str) -> io::Result<()> {
        if self.failing == Failing::Rename {
            return Err(failure());
        }
        fs::rename(self.rt, from, to)
    }

    fn remove_file(&self, path: &str) -> io::Result<()> {
        fs::remove_file(self.rt, path)
    }

    fn create_dir(&self, _path: &str) -> io::Result<()> {
        Err(failure())
    }

    fn remove_dir(&self, _path: &str) -> io::Result<()> {
        Err(failure())
    }

    fn remove_dir_all<B: Allocator>(&self, _alloc: B, _path: &str) -> io::Result<()> {
        Err(failure())
    }
}

/// The path of a new folder for a test.
fn new_folder(rt: &HostRuntime, test: &str) -> io::Result<String> {
    let number = process::id(rt.process());
    let folder = env::temp_dir(rt)?.into_string();
    let path = format!(in rt.alloc(); "{folder}/{test}-{number}")?;
    fs::create_dir(rt, &path)?;
    Ok(path)
}

/// How many files a folder has.
fn count_files(rt: &HostRuntime, folder: &str) -> io::Result<usize> {
    let mut count = 0_usize;
    for entry in fs::read_dir(rt, folder)? {
        entry?;
        count = count.saturating_add(1);
    }
    Ok(count)
}

#[test]
fn a_write_that_fails_leaves_the_old_bytes_and_no_new_file(rt: HostRuntime) -> Result<(), Fail> {
    let folder = new_folder(&rt, "replacing-fails")?;
    let path = format!(in rt.alloc(); "{folder}/flash")?;
    fs::write(&rt, &path, b"old bytes".as_slice())?;
    for failing in [
        Failing::Write,
        Failing::Permissions,
        Failing::Sync,
        Failing::Rename,
    ] {
        let files = FailingFiles { rt: &rt, failing };
        assert!(rt; replace(&files, &path, b"new").is_err());
        assert_eq!(rt; fs::read(&rt, &path)?.as_slice(), b"old bytes".as_slice());
        assert_eq!(rt; count_files(&rt, &folder)?, 1);
    }
    let files = FailingFiles {
        rt: &rt,
        failing: Failing::Nothing,
    };
    assert!(rt; replace(&files, &path, b"new").is_ok());
    assert_eq!(rt; fs::read(&rt, &path)?.as_slice(), b"new".as_slice());
    assert_eq!(rt; count_files(&rt, &folder)?, 1);
    fs::remove_dir_all(&rt, &folder)?;
    Ok(())
}

#[test]
fn modes_and_links_are_kept(rt: HostRuntime) -> Result<(), Fail> {
    let folder = new_folder(&rt, "replacing-keeps")?;
    let path = format!(in rt.alloc(); "{folder}/flash")?;
    let link = format!(in rt.alloc(); "{folder}/link")?;
    fs::write(&rt, &path, b"old".as_slice())?;
    fs::set_permissions(&rt, &path, Permissions::from_mode(0o640))?;
    std::os::unix::fs::symlink(&rt, "flash", &link)?;
    replace(&rt, &link, b"new")?;
    assert!(rt; fs::symlink_metadata(&rt, &link)?.is_symlink());
    assert_eq!(rt; fs::read(&rt, &path)?.as_slice(), b"new".as_slice());
    assert_eq!(rt;
        fs::metadata(&rt, &path)?.permissions().mode() & 0o777,
        0o640
    );
    fs::remove_dir_all(&rt, &folder)?;
    Ok(())
}

#[test]
fn other_files_and_devices_are_kept(rt: HostRuntime) -> Result<(), Fail> {
    let folder = new_folder(&rt, "replacing-others")?;
    let path = format!(in rt.alloc(); "{folder}/flash")?;
    let taken = format!(in rt.alloc(); "{folder}/.dugnatsew-0")?;
    fs::write(&rt, &taken, b"another file".as_slice())?;
    replace(&rt, &path, b"new")?;
    assert_eq!(rt;
        fs::read(&rt, &taken)?.as_slice(),
        b"another file".as_slice()
    );
    replace(&rt, "/dev/null", b"gone")?;
    assert!(rt; !fs::metadata(&rt, "/dev/null")?.is_file());
    assert!(rt; replace(&rt, "/dev/full", b"no room").is_err());
    assert!(rt; replace(&rt, &folder, b"a folder").is_err());
    assert_eq!(rt; count_files(&rt, &folder)?, 2);
    fs::remove_dir_all(&rt, &folder)?;
    Ok(())
}

#[test]
fn names_are_taken_apart(rt: HostRuntime) {
    assert_eq!(rt; folder_of("a/b/flash"), "a/b/");
    assert_eq!(rt; folder_of("/flash"), "/");
    assert_eq!(rt; folder_of("flash"), "");
    assert!(rt; is_open_file("/dev/stdout") && is_open_file("/proc/self/fd/1"));
    assert!(rt; !is_open_file("/dev/null") && !is_open_file("dev/stdout"));
}
