//! The work of the commands on lost power: what a normal boot makes of each cut of a session; the
//! picture of that; and whether an image is firm.
#![tactic(auto)]

mod drawing;
pub mod examples;
mod firming;
pub mod laws;
mod results;
mod sweeping;

pub use drawing::chart_script;
pub use firming::firm_image;
pub use sweeping::sweep_script;
