//! A row: the words of a run, its files, and what comes of it.

use std::alloc::{AllocError, Global};

/// A file's name and its bytes.
pub type NamedFile = (String, Vec<u8>);

/// The words and the input files of a run, and the status, the text and the files that it has to
/// end with.
#[derive(Drop)]
pub struct Row<'a> {
    pub name: &'a str,
    pub words: Vec<String>,
    pub inputs: Vec<NamedFile>,
    /// The sink takes no byte.
    pub put_fails: bool,
    pub status: u8,
    pub text: Vec<u8>,
    pub wanted: Vec<NamedFile>,
}

impl<'a> Row<'a> {
    /// A row of no word and no file, with status 0 and no text.
    pub fn new(alloc: Global, name: &'a str) -> Row<'a> {
        Row {
            name,
            words: Vec::new(alloc),
            inputs: Vec::new(alloc),
            put_fails: false,
            status: 0,
            text: Vec::new(alloc),
            wanted: Vec::new(alloc),
        }
    }
}

/// The file of this name and these bytes.
pub fn named(alloc: Global, name: &str, bytes: Vec<u8>) -> Result<NamedFile, AllocError> {
    Ok((String::from_str(alloc, name)?, bytes))
}
