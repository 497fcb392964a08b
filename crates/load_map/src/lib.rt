//! Load maps: what an image's LOAD_MAP item loads into SRAM, which bytes it gives there, and which
//! bytes the image's digest covers.
#![tactic(auto)]

mod addresses;
mod digest;
mod entry;
pub mod examples;
mod given;
pub mod laws;
mod load;
mod reading;
mod setting;

pub use addresses::{SRAM_END, SRAM_START};
pub use digest::covered_digest;
pub use given::{loaded_word, loaded_word_at};
pub use load::{Load, Loads, MapFault};
pub use reading::{read_map, read_map_at};
