//! The work of `map`: the picture of a flash, with the texts of its windows, and that it is right
//! by the rules of the map of a flash.
//!
//! `specs/Texts` has the texts as functions of the map. `specs/Rules` says what is right for the
//! command.
#![tactic(auto)]

mod drawing;
pub mod examples;
pub mod laws;
mod texts;

pub use drawing::map_flash;
