//! The records of a script in words: which record a line's words are, or the first fault; and the
//! words of a record. The form is this project's own.
#![tactic(auto)]

pub mod examples;
mod fault;
mod finding;
mod forms;
pub mod laws;
mod making;
mod naming;
mod reading;
mod record;
mod rows;
mod spelling;
mod splitting;
mod values;

pub use fault::LineFault;
pub use finding::read_line;
pub use forms::{Form, Keyword};
pub use making::make_record;
pub use naming::name_event;
pub use record::Record;
pub use rows::Row;
pub use spelling::put_line;
pub use splitting::{Word, cut_at, split_line};
pub use values::{Line, Value};
