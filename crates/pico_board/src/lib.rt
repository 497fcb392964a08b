//! The board of the RP2350 as its boot decision sees it: flash and OTP, and the three writes that
//! a loss of power can tear. Also here are views of flash windows, and the store and the sink of a
//! program's files and text.
#![tactic(auto)]

mod board;
mod boot;
pub mod examples;
pub mod laws;
mod mem_board;
mod mem_sink;
mod mem_store;
mod range;
mod sink;
mod step;
mod store;
mod supply;
mod view;
mod window;

pub use board::{Bench, Board, PowerLost};
pub use boot::{BootKind, Cpu};
pub use mem_board::{BoardError, MemBoard};
pub use mem_sink::MemSink;
pub use mem_store::MemStore;
pub use sink::{Sink, SinkFail};
pub use step::{Step, do_step};
pub use store::{Store, StoreFail};
pub use view::{FlashView, SliceView, View};
pub use window::{ERASED, FLASH_BASE, MOST_FLASH_BYTES, PAGE, ROWS, SECTOR, SMALLEST_SLOT, Window};
