//! Tests of the call that reads what is asked of an update. They stand apart from the crate that
//! they test.
#![tactic(auto)]

#[cfg(test)]
mod texts;
