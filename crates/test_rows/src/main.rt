//! Runs the program's top call on the rows of a text. A row has words, input files, and what comes
//! of them. Prints what differs, and how many rows passed.
#![tactic(auto)]

mod comparing;
mod content;
mod folder;
mod row;
mod rows;

use anyhow::{Context, Result};
use comparing::passes;
use row::Row;
use rows::Rows;
use std::fs;
use std::process::ExitCode;

/// How many rows passed, and how many failed.
#[derive(Clone, Copy)]
struct Counts {
    passed: u32,
    failed: u32,
}

impl Counts {
    /// Counts a row more.
    fn add(&mut self, passed: bool) {
        if passed {
            self.passed = self.passed.saturating_add(1);
        } else {
            self.failed = self.failed.saturating_add(1);
        }
    }
}

/// Runs a row, if there is one, and counts it.
fn count<R: Print + AllocGlobal>(rt: &R, row: Option<Row<'_>>, counts: &mut Counts) -> Result<()> {
    if let Some(row) = row {
        counts.add(passes(rt, row)?);
    }
    Ok(())
}

/// Runs the rows of a text.
fn run_rows<R: Print + AllocGlobal>(rt: &R, text: &str) -> Result<Counts> {
    let mut counts = Counts {
        passed: 0,
        failed: 0,
    };
    let mut rows = Rows::new(rt.alloc());
    for (before, line) in text.lines().enumerate() {
        let ended = rows
            .take(line)
            .context(format_args!("{before} lines, and then this one: {line}"))?;
        count(rt, ended, &mut counts)?;
    }
    count(rt, rows.end()?, &mut counts)?;
    Ok(counts)
}

/// Runs the rows of `rows.txt`. The status is 0 where each of them passes, and 1 otherwise.
fn main(rt: HostRuntime) -> Result<ExitCode> {
    let text = fs::read_to_string(&rt, "rows.txt")?;
    let counts = run_rows(&rt, text.as_str())?;
    println!(rt; "{} rows passed, {} failed", counts.passed, counts.failed)?;
    Ok(ExitCode::from(u8::from(counts.failed > 0)))
}
