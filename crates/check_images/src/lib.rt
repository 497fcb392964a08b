//! What an update does to the images of a board: which one starts at the end, which windows it
//! writes, what is left to fall back on, and what is lost.
//!
//! A script leads from one content to another one, and a normal boot on that leads to a third one.
//! `specs/Images` says what is told of an image, and `specs/Effects` what becomes of the image that
//! starts. `specs/Members`, `specs/Touching` and `specs/Written` say which members of boot units
//! are written, and by whom. `specs/Boots` has the content behind the boot, and `specs/Raising` how
//! many rows it raises. `specs/Starting` has what starts and the image beside it, and `specs/Lost`
//! the images that are lost.
#![tactic(auto)]

mod booting;
mod comparing;
mod effects;
pub mod examples;
mod found;
mod judging;
pub mod laws;
mod lines;
mod losing;
mod members;
mod raising;
mod starting;
mod touching;
mod written;

pub use booting::after_boot;
pub use comparing::{has_other_flash, has_other_rows, has_other_table, is_same_found};
pub use effects::effect_of;
pub use found::{Hashed, ImageFacts, JudgedWindow, Loss, LostWindow, WrittenWindow};
pub use judging::image_in;
pub use losing::lost_windows;
pub use members::members_in;
pub use raising::boot_raises;
pub use starting::{fallback_of, start_of};
pub use touching::touches;
pub use written::written_windows;
