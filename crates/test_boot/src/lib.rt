//! Tests of boards, stores and sinks in memory, of the sector pool and of the machine. With ample
//! memory the calls answer what was worked out by hand.
#![tactic(auto)]

#[cfg(test)]
mod boards;
#[cfg(test)]
mod machines;
#[cfg(test)]
mod stores;
