//! Why the words of a line are no record.

use thiserror::Error;

/// Why the words of a line are no record: the first that applies, in this order.
#[derive(Clone, Copy, Debug, PartialEq, Eq, Error)]
pub enum LineFault {
    /// The first word begins no record.
    #[error("the first word begins no record")]
    Word,
    /// No record that begins so has as many words.
    #[error("no record that begins so has as many words")]
    Words,
    /// The word of this number, from 1, is the first that is not of its form.
    #[error("word {0} is not of its form")]
    Value(u32),
}
