//! Worked examples of premises: for each a law whose `ensures` is the premise on concrete values.
//! A law with a premise that nothing meets would say nothing. Examples stand here where they need
//! several crates, or where a crate below would be proved anew for them.
#![tactic(auto)]

pub mod examples;
