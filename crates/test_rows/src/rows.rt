//! Rows as lines tell them. `row NAME` begins a row; `arg WORD` is a word of its run, `status N`
//! its status, and `put-fails` says that its sink takes no byte. `file NAME` is an input, `want
//! NAME` a file that has to be written, and `stdout` the text. Behind each of these three stands a
//! content.

use crate::content::{blank, number_in, put_line};
use crate::row::{Row, named};
use anyhow::{Context, Result, bail, ensure};
use std::alloc::Global;

/// What a content is for.
#[derive(Clone, Copy)]
enum Place<'a> {
    Input(&'a str),
    Wanted(&'a str),
    Text,
}

/// A content that further lines may write. It has no bytes until its size is told.
#[derive(Drop)]
struct Open<'a> {
    place: Place<'a>,
    bytes: Option<Vec<u8>>,
}

/// The row that the lines so far have begun.
#[derive(Drop)]
pub struct Rows<'a> {
    alloc: Global,
    row: Option<Row<'a>>,
    open: Option<Open<'a>>,
}

impl<'a> Rows<'a> {
    /// Before the first line.
    pub fn new(alloc: Global) -> Rows<'a> {
        Rows {
            alloc,
            row: None,
            open: None,
        }
    }

    /// The row that the lines describe.
    fn row(&mut self) -> Result<&mut Row<'a>> {
        self.row.as_mut().context("no row is begun")
    }

    /// Puts the content whose lines have ended to its place.
    fn close(&mut self) -> Result<()> {
        let Some(Open { place, bytes }) = self.open.take() else {
            return Ok(());
        };
        let bytes = bytes.context("a content has no size")?;
        let alloc = self.alloc;
        let row = self.row()?;
        match place {
            Place::Input(name) => row.inputs.push(named(alloc, name, bytes)?)?,
            Place::Wanted(name) => row.wanted.push(named(alloc, name, bytes)?)?,
            Place::Text => row.text = bytes,
        }
        Ok(())
    }

    /// Begins a content.
    fn open(&mut self, place: Place<'a>) -> Result<()> {
        self.close()?;
        self.open = Some(Open { place, bytes: None });
        Ok(())
    }

    /// Makes the content that is open one of so many bytes.
    fn set_size(&mut self, size: &str) -> Result<()> {
        let alloc = self.alloc;
        let open = self.open.as_mut().context("no content is begun")?;
        ensure!(open.bytes.is_none(), "a content has two sizes");
        open.bytes = Some(blank(alloc, size)?);
        Ok(())
    }

    /// Writes a line of the content that is open.
    fn put_line(&mut self, line: &str) -> Result<()> {
        let open = self.open.as_mut().context("no content is begun")?;
        let bytes = open.bytes.as_mut().context("a content has no size")?;
        put_line(self.alloc, bytes, line)
    }

    /// Adds a word to the run.
    fn add_word(&mut self, word: &str) -> Result<()> {
        let word = String::from_str(self.alloc, word)?;
        self.row()?.words.push(word)?;
        Ok(())
    }

    /// Takes what a line with a key says of the row.
    fn take_value(&mut self, key: &str, value: &'a str) -> Result<()> {
        match key {
            "arg" => self.add_word(value),
            "status" => {
                self.row()?.status = u8::try_from(number_in(value)?)?;
                Ok(())
            }
            "file" => self.open(Place::Input(value)),
            "want" => self.open(Place::Wanted(value)),
            "size" => self.set_size(value),
            _ => bail!("no such line"),
        }
    }

    /// The row that the lines have described, where there is one.
    pub fn end(&mut self) -> Result<Option<Row<'a>>> {
        self.close()?;
        Ok(self.row.take())
    }

    /// Takes a line. Where it begins a row, the former row is given.
    pub fn take(&mut self, line: &'a str) -> Result<Option<Row<'a>>> {
        if let Some(name) = line.strip_prefix("row ") {
            let ended = self.end()?;
            self.row = Some(Row::new(self.alloc, name));
            return Ok(ended);
        }
        if line.starts_with(|c: char| c.is_ascii_digit()) {
            self.put_line(line)?;
        } else if line == "stdout" {
            self.open(Place::Text)?;
        } else if line == "put-fails" {
            self.row()?.put_fails = true;
        } else if let Some((key, value)) = line.split_once(' ') {
            self.take_value(key, value)?;
        } else {
            bail!("no such line");
        }
        Ok(None)
    }
}
