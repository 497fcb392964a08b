//! What is done to a board, step by step.

use pico_board::Step;

/// What is done to a board.
#[derive(Clone, Copy)]
pub enum Move<'a> {
    /// A step completes.
    Done(Step),
    /// A step is cut, within it or before it, which leaves what the pattern says.
    Torn(Step, bool, &'a [u8]),
}
