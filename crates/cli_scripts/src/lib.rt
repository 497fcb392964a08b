//! The work of the commands on scripts: what each event of a script does to a machine, and what
//! the script leaves. Also scripts as texts, the scripts of texts, and the scripts that copy UF2
//! files.
#![tactic(auto)]

mod copying;
mod event_lines;
pub mod examples;
pub mod laws;
mod replaying;
mod texts;

pub use copying::copy_uf2;
pub use replaying::replay;
pub use texts::{list_script, write_script};
