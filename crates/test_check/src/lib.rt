//! Tests of the calls that check an update. They stand apart from the crate that they test.
#![tactic(auto)]

#[cfg(test)]
mod updates;
