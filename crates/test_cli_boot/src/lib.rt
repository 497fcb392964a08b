//! Tests of the program's top call: how each command ends where a call fails. They show what no
//! clause says: that each status comes with ample memory.
#![tactic(auto)]

#[cfg(test)]
mod failures;
