//! What a team asks of an update: a JSON text, and which of its members an update does not meet.
//! The texts and the conditions are this project's own.
#![tactic(auto)]

mod caveats;
pub mod examples;
mod forms;
pub mod laws;
mod meeting;
mod members;
mod reading;
mod report;
mod requirement;

pub use caveats::{CAVEAT_NAMES, CaveatName};
pub use cut_class::Class;
pub use meeting::{Verdict, is_met, unmet, verdict_on};
pub use members::{MEMBERS, Member};
pub use reading::{default_require, require_of};
pub use report::{
    CaveatFound, ClassCounts, DataFound, DataOwner, DataWritten, ImageEffect, LawOfWrites, Report,
    SessionLaw, StartFound, Writer, WrittenFound,
};
pub use requirement::{
    Allowance, AllowedCaveat, Require, RequireFault, SessionAsk, VersionAsk, WantedEffect,
};
