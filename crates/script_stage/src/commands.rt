//! The commands by which a host writes an image and starts it.

ghost use Rattle.std.specs.Prelude.{◌≡◌, ◌<◌, ◌^◌, ◌++◌, length, OnOk};
ghost use Rattle.pico_board.specs.declared.window.TheConstants.{MOST_FLASH_BYTES};
ghost use Rattle.boot_script.specs.Written.{written_event};
ghost use Rattle.script_plan.specs.Commands.{erase_cmd, sent, update_cmd, words_args, write_cmd};

use boot_script::{Event, write_event};
use byteorder::{ByteOrder, LittleEndian};
use pico_board::FLASH_BASE;
use picoboot_cmd::kinds::{ERASE, REBOOT, WRITE};
use picoboot_cmd::{Cmd, write_cmd};
use std::alloc::{AllocError, Global};

/// The flags of a reboot into an update.
const UPDATE: u32 = 4;

/// Three words and a word 0 as argument bytes.
fn args_of(first: u32, second: u32, third: u32) -> [u8; 16]
    ensures { result ≡ words_args first second third }
{
    let mut args = [0; 16];
    LittleEndian::write_u32(&mut args, first);
    LittleEndian::write_u32(&mut args[4..], second);
    LittleEndian::write_u32(&mut args[8..], third);
    args
}

/// The command that erases bytes at a flash offset.
pub(crate) fn erase(token: u32, at: u32, size: u32) -> Cmd
    requires { at < MOST_FLASH_BYTES }
    ensures { result ≡ erase_cmd token at size }
{
    Cmd {
        token,
        id: ERASE,
        arg_size: 8,
        transfer: 0,
        args: args_of(FLASH_BASE + at, size, 0),
    }
}

/// The command that writes bytes at a flash offset.
pub(crate) fn write(token: u32, at: u32, size: u32) -> Cmd
    requires { at < MOST_FLASH_BYTES }
    ensures { result ≡ write_cmd token at size }
{
    Cmd {
        token,
        id: WRITE,
        arg_size: 8,
        transfer: size,
        args: args_of(FLASH_BASE + at, size, 0),
    }
}

/// The command that reboots into an update of the region at a flash offset.
pub(crate) fn update(token: u32, at: u32) -> Cmd
    requires { at < MOST_FLASH_BYTES }
    ensures { result ≡ update_cmd token at }
{
    Cmd {
        token,
        id: REBOOT,
        arg_size: 16,
        transfer: 0,
        args: args_of(UPDATE, 0, FLASH_BASE + at),
    }
}

/// Appends a command and its payload.
#[tactic(auto, unfolding(script_plan::specs::Commands::sent))]
pub(crate) fn send(
    alloc: Global,
    cmd: &Cmd,
    payload: &[u8],
    out: &mut Vec<u8>,
) -> Result<(), AllocError>
    requires { length payload.now < 2 ^ 26 }
    ensures { OnOk result (out.new.items ≡ out.old.items
        ++ written_event (sent cmd.now payload.now)) }
{
    write_event(alloc, &Event::Command(&write_cmd(cmd), payload), out)
}
