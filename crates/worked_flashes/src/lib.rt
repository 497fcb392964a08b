//! Worked images, flashes and sessions. The examples of several crates take them. They are
//! definitions alone; where they are used, the answer of a boot to them is worked out by hand.
#![tactic(auto)]

pub mod examples;
