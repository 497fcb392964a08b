//! The 32 bytes of a command.

ghost use Rattle.std.specs.Prelude.{◌≡◌, ◌^◌, ◌<◌, Ok, drop};
ghost use Rattle.picoboot_cmd.specs.Commands.{command_in, written_command};

use crate::kinds::MAGIC;
use byteorder::{ByteOrder, LittleEndian};
use thiserror::Error;

/// A PICOBOOT command, as its 32 bytes say it (RP2350 Datasheet, chapter 5, Bootrom, the PICOBOOT
/// interface).
#[derive(Clone, Copy, Debug, PartialEq, Eq)]
pub struct Cmd {
    /// A number of the host's own. The host tells its commands apart by it.
    pub token: u32,
    /// The command's id.
    pub id: u8,
    /// How many of the argument bytes the command has.
    pub arg_size: u8,
    /// The number of bytes that follow the command, or that answer it.
    pub transfer: u32,
    /// The argument bytes. Those past the argument size are not read.
    pub args: [u8; 16],
}

/// Why bytes are no command.
#[derive(Clone, Copy, Debug, PartialEq, Eq, Error)]
pub enum CmdFault {
    /// The first word is not 0x431fd10b.
    #[error("the first word is no command's")]
    Magic,
}

/// The 16 argument bytes at the end of a command.
fn args_in(bytes: &[u8; 32]) -> [u8; 16]
    ensures { result ≡ drop 16 bytes.now }
{
    let mut args = [0; 16];
    args.copy_from_slice(&bytes[16..]);
    args
}

/// The command of these bytes: magic, token, one byte id, one byte argument size, two bytes that
/// are not read, transfer length, 16 argument bytes. Words have their lowest byte first. `Magic`
/// comes exactly where the first word is not 0x431fd10b.
pub fn read_cmd(bytes: &[u8; 32]) -> Result<Cmd, CmdFault>
    ensures { result ≡ command_in bytes.now }
{
    if LittleEndian::read_u32(bytes) != MAGIC {
        return Err(CmdFault::Magic);
    }
    Ok(Cmd {
        token: LittleEndian::read_u32(&bytes[4..]),
        id: bytes[8],
        arg_size: bytes[9],
        transfer: LittleEndian::read_u32(&bytes[12..]),
        args: args_in(bytes),
    })
}

/// The bytes of a command.
fn spelled(cmd: &Cmd) -> [u8; 32]
    ensures bytes { result ≡ written_command cmd.now }
    ensures token { cmd.now.token < 2 ^ 32 }
    ensures transfer { cmd.now.transfer < 2 ^ 32 }
{
    let (token, transfer) = (cmd.token, cmd.transfer);
    let mut bytes = [0; 32];
    LittleEndian::write_u32(&mut bytes, MAGIC);
    LittleEndian::write_u32(&mut bytes[4..], token);
    bytes[8] = cmd.id;
    bytes[9] = cmd.arg_size;
    LittleEndian::write_u32(&mut bytes[12..], transfer);
    bytes[16..].copy_from_slice(&cmd.args);
    bytes
}

/// The bytes of a command, which are read as it again. The two that are not read are 0.
pub fn write_cmd(cmd: &Cmd) -> [u8; 32]
    ensures bytes { result ≡ written_command cmd.now }
    ensures again { command_in result ≡ Ok cmd.now }
{
    spelled(cmd)
}
