//! Tests of the public calls that read and write what a host sends. Memory is ample, and the bytes
//! were worked out by hand or by another program. They stand apart from the crates that they test.
#![tactic(auto)]

#[cfg(test)]
mod commands;
#[cfg(test)]
mod downloads;
#[cfg(test)]
mod scripts;
#[cfg(test)]
mod texts;
