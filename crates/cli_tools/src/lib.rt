//! The work of the commands that make images, tables, UF2 files, plans, loads and
//! flashes.
#![tactic(auto)]

mod elfs;
pub mod examples;
mod generating;
pub mod laws;
mod planning;
mod tools;
mod uf2_files;

pub use elfs::pack_elf;
pub use generating::made_flash;
pub use planning::{load, plan_image, plan_target};
pub use tools::{seal_binary, table};
pub use uf2_files::uf2;
