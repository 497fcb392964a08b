//! What an info command asks for.

ghost use Rattle.std.specs.Prelude.{◌≡◌};
ghost use Rattle.info_reply.specs.Asks.{ask_of, asked_info};

use crate::kinds::{DEVICE, INFO, INFO_SIZE, PARTITION, TABLE, TARGET};
use byteorder::{ByteOrder, LittleEndian};
use pico_board::Cpu;
use picoboot_cmd::Cmd;
use picoboot_cmd::kinds::{COMMAND_LENGTH, INVALID_ARGUMENT, TRANSFER_LENGTH};

/// What an info command asks for.
#[derive(Clone, Copy, Debug, PartialEq, Eq)]
pub enum Ask {
    /// The partition table.
    Table,
    /// Where a download of this UF2 family goes.
    Target(u32),
    /// The board.
    Device,
    /// The partition of this number.
    Partition(u32),
}

/// What a reply says of the board.
#[derive(Clone, Copy, Debug, PartialEq, Eq)]
pub struct Device {
    /// The number of bytes of the flash.
    pub flash_len: u32,
    /// The processor that boots.
    pub cpu: Cpu,
    /// The OTP row of the boot flags, 0x048.
    pub flags: u32,
    /// The number of bytes of a slot of a flash without a partition table.
    pub slot: u32,
}

/// What a kind and an argument ask for; None where the kind is none of the four.
fn ask_of(kind: u8, argument: u32) -> Option<Ask>
    ensures { result ≡ ask_of kind argument }
{
    match kind {
        TABLE => Some(Ask::Table),
        TARGET => Some(Ask::Target(argument)),
        DEVICE => Some(Ask::Device),
        PARTITION => Some(Ask::Partition(argument)),
        _ => None,
    }
}

/// What an info command asks for. Its argument size is 16: byte 0 is the kind, the word at byte 4
/// the argument, and the rest is not read. `Err` has the first status that applies: 2, another
/// argument size; 3, a transfer length that is no multiple of 4, or a payload; or 11, a kind
/// outside 1 to 4.
pub fn info_ask(cmd: &Cmd, payload: &[u8]) -> Result<Ask, u32>
    requires { cmd.now.id ≡ INFO }
    ensures { result ≡ asked_info cmd.now payload.now }
{
    if cmd.arg_size != INFO_SIZE {
        return Err(COMMAND_LENGTH);
    }
    if cmd.transfer % 4 != 0 || !payload.is_empty() {
        return Err(TRANSFER_LENGTH);
    }
    match ask_of(cmd.args[0], LittleEndian::read_u32(&cmd.args[4..])) {
        Some(ask) => Ok(ask),
        None => Err(INVALID_ARGUMENT),
    }
}
