//! The forms of input files, and what a file gives that has its form, or its first fault: a board
//! in memory, a script, a pattern, the spec of a sealed image, a partition table, and others. Also
//! here are the pool for the calls of a boot, and when the work of a command is right by rules of
//! its own.
#![tactic(auto)]

mod asks;
mod boards;
pub mod examples;
mod fail;
mod files;
mod forms;
mod inputs;
mod json;
pub mod laws;
mod limits;
mod pool;
mod values;

pub use asks::read_require;
pub use boards::{lone_board, read_board};
pub use boot_script::{RECORD_LIMIT, SCRIPT_LIMIT};
pub use fail::InputFail;
pub use files::{
    read_binary, read_elf, read_image, read_pattern, read_script, read_source, read_text, read_uf2,
};
pub use forms::Form;
pub use inputs::{FormInput, five, four, one, readings, three, two};
pub use json::{read_otp, read_spec, read_table, table_fault_text};
pub use limits::{
    BINARY_LIMIT, ELF_LIMIT, FLASH_LIMIT, IMAGE_LIMIT, JSON_LIMIT, OTP_LIMIT, PATTERN_LIMIT,
    TEXT_LIMIT, UF2_LIMIT,
};
pub use pool::new_pool;
pub use values::{
    Binary, Elf, Image, JsonOtp, JsonTable, OtpRows, Pattern, SourceImage, Text, Uf2, WholeFlash,
};
