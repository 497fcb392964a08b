//! Every cut of any script: what the next normal boot makes of a loss of power before and within
//! each step that a script completes.
//!
//! `boot_tape` says which steps those are, and who does each. `specs/Contents` says what a cut
//! leaves, `specs/Classes` what class it has, `specs/Tears` which windows the script leaves torn,
//! and `specs/Runs` how cuts are told together. What the events of a script do stands in
//! `boot_machine`, what the loss of power leaves in `pico_board`, and the decision in `boot_rules`.
#![tactic(auto)]

mod answers;
mod beside;
pub mod examples;
mod found;
mod images;
mod judging;
pub mod laws;
mod runs;
mod standing;
mod tails;
mod tears;
mod walking;

pub use answers::Answer;
pub use cut_class::{Class, is_same_class};
pub use found::{Cuts, cuts_of, cuts_on, pool_of, slot_beside, steps_of};
pub use images::images_of;
pub use judging::{Ends, class_on};
pub use runs::Run;
pub use standing::Standing;
pub use tails::same_range;
pub use tears::{is_left_torn, left_torn};
