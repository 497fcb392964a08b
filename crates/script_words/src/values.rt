//! What the words of a line say.

use crate::rows::Row;

/// What a word says.
#[derive(Drop)]
pub enum Value {
    /// Nothing but itself.
    Plain,
    /// A number.
    Number(u32),
    /// A start and a size.
    Span(u32, u32),
    /// Bytes.
    Bytes(Vec<u8>),
}

/// What a line says: a row, what its words behind the first say, and its token, where it has one.
#[derive(Drop)]
pub struct Line {
    /// The row.
    pub row: Row,
    /// What the words behind the first say.
    pub values: Vec<Value>,
    /// The token, where the line has one.
    pub token: Option<u32>,
}
