//! The sweep of a script's session: what the next normal boot makes of each loss of power in it.
//!
//! The session is that of `boot_session`. `specs/Refusals` says why it is not swept,
//! `specs/Results` what a normal boot makes of a cut, and `specs/Sweeps` has the lines.
//! `specs/EachCut` says how each cut of a list of steps is judged, whoever judges it.
//! `specs/Firms` says which images are firm. The loss of power is that of `pico_board`, the
//! decision is that of `boot_rules`.
#![tactic(auto)]

mod act;
mod comparing;
mod cutting;
mod error;
mod firmness;
mod gating;
mod judge;
pub mod laws;
mod lines;
mod moves;
mod results;
mod script;
mod slots;
mod steps;
mod sweeping;

pub use act::Act;
pub use boot_session::Recorder;
pub use comparing::{is_same_decision, is_same_started};
pub use cutting::each_cut;
pub use error::SweepError;
pub use firmness::{firm, has_no_other_block};
pub use gating::ungated;
pub use judge::Judge;
pub use moves::Move;
pub use results::{CutResult, Ends, StepResults, SweepResults, Verdict};
pub use script::{is_start_in, sweep, swept};
pub use slots::{Last, Slot, are_confined, slot_of, verdict_beside};
pub use steps::{complete, cut};
