//! Tests of the bytes that a machine's events read: which boots, starts and asked targets make a
//! digest again, and which look the table up again.
#![tactic(auto)]

#[cfg(test)]
mod counted;
#[cfg(test)]
mod digests;
