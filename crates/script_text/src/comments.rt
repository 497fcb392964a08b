//! What the comment above a record says of it.

ghost use Rattle.std.specs.Prelude.{◌≡◌, IfOk, string_bytes};
ghost use Rattle.boot_script.specs.Events.{event_from};
ghost use Rattle.text_words.specs.Writing.{hex_word};
ghost use Rattle.script_words.specs.Spelling.{range_text};
ghost use Rattle.script_text.specs.Comments.{action_text, command_range_text, command_text, info_text, note_of, reboot_text, rows_text, uf2_counts, uf2_target, uf2_text};

use boot_script::Event;
use byteorder::{ByteOrder, LittleEndian};
use info_reply::kinds::{DEVICE, INFO, INFO_SIZE, PARTITION, TABLE, TARGET};
use picoboot_cmd::kinds::{
    ENTER_XIP, ERASE, EXCLUSIVE, EXIT_XIP, OTP_READ, OTP_WRITE, READ, REBOOT, WRITE,
};
use picoboot_cmd::{Cmd, read_cmd};
use std::alloc::{AllocError, Global};
use text_words::hex_text;
use uf2_place::{Uf2Fault, read_uf2};

/// A number as 0x and eight digits.
fn word_text(alloc: Global, n: u32) -> Result<String, AllocError>
    ensures { IfOk result (λ t. string_bytes t ≡ hex_word n) }
{
    hex_text(alloc, u64::from(n))
}

/// A start and a size.
fn range_text(alloc: Global, start: u32, size: u32) -> Result<String, AllocError>
    ensures { IfOk result (λ t. string_bytes t ≡ range_text start size) }
{
    let start = word_text(alloc, start)?;
    let size = word_text(alloc, size)?;
    format!(in alloc; "{start}+{size}")
}

/// The name of an action and the range of an erase, a read or a write.
fn command_range_text(alloc: Global, cmd: &Cmd) -> Result<String, AllocError>
    ensures { IfOk result (λ t. string_bytes t ≡ command_range_text cmd.now) }
{
    range_text(alloc, cmd.address(), cmd.size())
}

/// The rows of an OTP read or write, and the byte by which error correction is asked for.
fn rows_text(alloc: Global, cmd: &Cmd) -> Result<String, AllocError>
    ensures { IfOk result (λ t. string_bytes t ≡ rows_text cmd.now) }
{
    let row = LittleEndian::read_u16(&cmd.args);
    let count = LittleEndian::read_u16(&cmd.args[2..]);
    let ecc = cmd.args[4];
    format!(in alloc; "row=0x{row:03x} count={count} ecc={ecc}")
}

/// To what a reboot is.
fn reboot_text(alloc: Global, cmd: &Cmd) -> Result<String, AllocError>
    ensures { IfOk result (λ t. string_bytes t ≡ reboot_text cmd.now) }
{
    match cmd.reboot_flags() {
        0 | 0x100 => format!(in alloc; "normal"),
        2 | 0x102 => format!(in alloc; "bootsel"),
        4 | 0x104 => {
            let base = word_text(alloc, cmd.reboot_p0())?;
            format!(in alloc; "update={base}")
        }
        3 | 0x103 => {
            let range = range_text(alloc, cmd.reboot_p0(), cmd.reboot_p1())?;
            format!(in alloc; "ram={range}")
        }
        flags => {
            let flags = word_text(alloc, flags)?;
            format!(in alloc; "flags={flags}")
        }
    }
}

/// What an info command asks for, by its kind and its argument.
fn info_text(alloc: Global, kind: u8, argument: u32) -> Result<String, AllocError>
    ensures { IfOk result (λ t. string_bytes t ≡ info_text kind argument) }
{
    match kind {
        TABLE => format!(in alloc; "table"),
        TARGET => {
            let family = word_text(alloc, argument)?;
            format!(in alloc; "target={family}")
        }
        DEVICE => format!(in alloc; "device"),
        PARTITION => format!(in alloc; "partition={argument}"),
        _ => format!(in alloc; "kind={kind}"),
    }
}

/// What a command is, by its id and its argument size.
fn action_text(alloc: Global, cmd: &Cmd) -> Result<String, AllocError>
    ensures { IfOk result (λ t. string_bytes t ≡ action_text cmd.now) }
{
    match (cmd.id, cmd.arg_size) {
        (EXCLUSIVE, 1) => {
            let exclusive = cmd.args[0];
            format!(in alloc; "exclusive {exclusive}")
        }
        (ERASE, 8) => {
            let range = command_range_text(alloc, cmd)?;
            format!(in alloc; "erase {range}")
        }
        (READ, 8) => {
            let range = command_range_text(alloc, cmd)?;
            format!(in alloc; "read {range}")
        }
        (WRITE, 8) => {
            let range = command_range_text(alloc, cmd)?;
            format!(in alloc; "write {range}")
        }
        (EXIT_XIP, 0) => format!(in alloc; "exit-xip"),
        (ENTER_XIP, 0) => format!(in alloc; "enter-xip"),
        (REBOOT, 16) => {
            let boot = reboot_text(alloc, cmd)?;
            format!(in alloc; "reboot {boot}")
        }
        (OTP_READ, 5) => {
            let rows = rows_text(alloc, cmd)?;
            format!(in alloc; "otp-read {rows}")
        }
        (OTP_WRITE, 5) => {
            let rows = rows_text(alloc, cmd)?;
            format!(in alloc; "otp-write {rows}")
        }
        (INFO, INFO_SIZE) => {
            let asked = info_text(alloc, cmd.args[0], LittleEndian::read_u32(&cmd.args[4..]))?;
            format!(in alloc; "info {asked}")
        }
        (id, _) => format!(in alloc; "command 0x{id:02x}"),
    }
}

/// What the 32 bytes of a command are.
#[tactic(auto, unfolding(crate::specs::Comments::command_text))]
fn command_text(alloc: Global, command: &[u8; 32]) -> Result<String, AllocError>
    ensures { IfOk result (λ t. string_bytes t ≡ command_text command.now) }
{
    match read_cmd(command) {
        Ok(cmd) => {
            let action = action_text(alloc, &cmd)?;
            let token = word_text(alloc, cmd.token)?;
            format!(in alloc; "{action} token={token}")
        }
        Err(_) => format!(in alloc; "command bad-magic"),
    }
}

/// The numbers of a UF2 block: which one it is, of how many.
#[tactic(auto, unfolding(crate::specs::Comments::uf2_counts))]
fn uf2_counts(alloc: Global, number: u32, count: u32) -> Result<String, AllocError>
    ensures { IfOk result (λ t. string_bytes t ≡ uf2_counts number count) }
{
    format!(in alloc; "uf2 number={number} count={count}")
}

/// Where a UF2 block goes: its address and its family.
#[tactic(auto, unfolding(crate::specs::Comments::uf2_target))]
fn uf2_target(alloc: Global, address: u32, family: u32) -> Result<String, AllocError>
    ensures { IfOk result (λ t. string_bytes t ≡ uf2_target address family) }
{
    let address = word_text(alloc, address)?;
    let family = word_text(alloc, family)?;
    format!(in alloc; " address={address} family={family}")
}

/// What the 512 bytes of a UF2 block are.
#[tactic(auto, unfolding(crate::specs::Comments::uf2_text))]
fn uf2_text(alloc: Global, block: &[u8; 512]) -> Result<String, AllocError>
    ensures { IfOk result (λ t. string_bytes t ≡ uf2_text block.now) }
{
    match read_uf2(block) {
        Ok(block) => {
            let numbers = uf2_counts(alloc, block.number, block.count)?;
            let place = uf2_target(alloc, block.address, block.family)?;
            format!(in alloc; "{numbers}{place}")
        }
        Err(Uf2Fault::Magic) => format!(in alloc; "uf2 bad magic"),
        Err(Uf2Fault::Payload) => format!(in alloc; "uf2 bad payload"),
        Err(Uf2Fault::Alignment) => format!(in alloc; "uf2 bad alignment"),
        Err(Uf2Fault::Number) => format!(in alloc; "uf2 bad number"),
    }
}

/// What the comment above an event's line says of it.
pub fn note_of(alloc: Global, event: &Event<'_>) -> Result<String, AllocError>
    ensures { IfOk result (λ t. string_bytes t ≡ note_of (event_from event.now)) }
{
    match event {
        Event::Command(command, _) => command_text(alloc, command),
        Event::Uf2(block) => uf2_text(alloc, block),
        Event::Cut(..) => format!(in alloc; "cut"),
        _ => Ok(String::new(alloc)),
    }
}
