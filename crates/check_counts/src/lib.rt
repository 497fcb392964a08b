//! What is counted over all cuts of a script: how many are of each class, at how many a normal boot
//! falls, starts too early or runs on other data, and which caveats hold where.
//!
//! A script leads from one content to another one. `specs/Facts` says what is told of the content
//! that a cut leaves, and `specs/Counted` what is counted. `specs/CaveatsSeen` has the caveats as a
//! function, and `specs/Rules` has them as rules. `specs/Tallies` takes one cut after another.
#![tactic(auto)]

mod caveats;
mod counting;
mod counts;
pub mod examples;
mod facts;
mod judging;
pub mod laws;
mod seen;

pub use counting::{Counted, counts_of};
pub use counts::Counts;
pub use seen::CaveatSeen;
