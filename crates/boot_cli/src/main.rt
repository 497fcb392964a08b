//! The program: the arguments, real files and standard output go to `run`, and its status ends the
//! program.
#![tactic(auto)]

mod console;
mod disk;
mod pieces;
mod replacing;

use boot_run::{Status, run};
use console::Console;
use disk::Disk;
use std::alloc::AllocError;
use std::env::{self, Env};
use std::fs::Files;
use std::io::{ErrorKind, Print};
use std::process::ExitCode;

/// The arguments: the words after the program's name. Arguments that are not all UTF-8 are no
/// command, and are given as none.
fn words<R: Env + AllocGlobal>(rt: &R) -> Result<Vec<String>, AllocError> {
    let mut words = Vec::new(rt.alloc());
    match env::args(rt) {
        Ok(given) => {
            for word in given.skip(1) {
                words.push(word)?;
            }
        }
        Err(error) if error.kind() == ErrorKind::OutOfMemory => return Err(AllocError),
        Err(_) => {}
    }
    Ok(words)
}

/// Runs on real files and standard output.
fn run_program<R: Env + Files + Print + AllocGlobal>(rt: &R) -> Status {
    let Ok(words) = words(rt) else {
        return Status::Memory;
    };
    let mut store = Disk::new(rt);
    let mut out = Console::new(rt);
    run(rt.alloc(), &words, &mut store, &mut out)
}

fn main(rt: HostRuntime) -> ExitCode {
    ExitCode::from(run_program(&rt).number())
}
