//! Events to bytes.

ghost use Rattle.std.specs.Prelude.{◌≡◌, ℕ, ◌^◌, ◌<◌, List, ◌++◌, Ok, OnErr, OnOk, length};
ghost use Rattle.pico_board.specs.Cuts.{IsPattern};
ghost use Rattle.boot_script.specs.Events.{Command, Cut, IsWellFormed, IsWritableEvent, Reset, Uf2, base_of, event_from};
ghost use Rattle.boot_script.specs.Written.{IsKept, reset_byte, written_event};
ghost use Rattle.boot_script.specs.Reading.{event_at};

use crate::event::Event;
use crate::kinds::{
    BUY, COMMAND, CUT, END, POWER_ON, RESET, RESET_BOOTSEL, RESET_NORMAL, RESET_UPDATE, UF2,
};
use pico_board::BootKind;
use std::alloc::{AllocError, Global};

/// Appends the bytes of an event. They are read again, whatever stands before and after them.
/// Where there is no memory for them, the former bytes stay, and a part of the event may stand
/// after these.
pub fn write_event(alloc: Global, event: &Event<'_>, out: &mut Vec<u8>) -> Result<(), AllocError>
    requires { IsWritableEvent (event_from event.now) }
    ensures ok { OnOk result (out.new.items
        ≡ out.old.items ++ written_event (event_from event.now)) }
    ensures again { (rest : List ℕ)
        → OnOk result (event_at (out.new.items ++ rest) (length out.old.items)
        ≡ Ok (event_from event.now, length out.new.items)) }
    ensures err { OnErr result (IsKept out.old.items out.new.items) }
{
    match append(event, out) {
        Ok(()) => Ok(()),
        Err(error) => Err(error),
    }
}

/// Appends the bytes of an event.
fn append(event: &Event<'_>, out: &mut Vec<u8>) -> Result<(), AllocError>
    requires { IsWritableEvent (event_from event.now) }
    ensures ok { OnOk result (out.new.items
        ≡ out.old.items ++ written_event (event_from event.now)) }
    ensures err { OnErr result (IsKept out.old.items out.new.items) }
    ensures well { IsWellFormed (event_from event.now) }
{
    match event {
        Event::End => out.extend_from_slice(&[END]),
        Event::Command(command, payload) => write_command(command, payload, out),
        Event::Uf2(block) => write_uf2(block, out),
        Event::Cut(left, within, pattern) => write_cut(*left, *within, pattern, out),
        Event::PowerOn => out.extend_from_slice(&[POWER_ON]),
        Event::Reset(kind) => write_reset(*kind, out),
        Event::Buy => out.extend_from_slice(&[BUY]),
    }
}

/// Appends the bytes of a UF2 block.
fn write_uf2(block: &[u8; 512], out: &mut Vec<u8>) -> Result<(), AllocError>
    ensures ok { OnOk result (out.new.items ≡ out.old.items ++ written_event (Uf2 block.now)) }
    ensures err { OnErr result (IsKept out.old.items out.new.items) }
    ensures size { length block.now ≡ 512 }
{
    out.extend_from_slice(&[UF2])?;
    out.extend_from_slice(block)
}

/// Appends the bytes of a command.
fn write_command(command: &[u8; 32], payload: &[u8], out: &mut Vec<u8>) -> Result<(), AllocError>
    requires { IsWritableEvent (Command command.now payload.now) }
    ensures ok { OnOk result (out.new.items
        ≡ out.old.items ++ written_event (Command command.now payload.now)) }
    ensures err { OnErr result (IsKept out.old.items out.new.items) }
    ensures size { length command.now ≡ 32 }
{
    out.extend_from_slice(&[COMMAND])?;
    out.extend_from_slice(command)?;
    out.extend_from_slice(&(payload.len() as u32).to_le_bytes())?;
    out.extend_from_slice(payload)
}

/// Appends the bytes of a cut.
fn write_cut(left: u32, within: bool, pattern: &[u8], out: &mut Vec<u8>) -> Result<(), AllocError>
    requires { IsPattern within pattern.now }
    ensures ok { OnOk result (out.new.items
        ≡ out.old.items ++ written_event (Cut left within pattern.now)) }
    ensures err { OnErr result (IsKept out.old.items out.new.items) }
{
    out.extend_from_slice(&[CUT])?;
    out.extend_from_slice(&left.to_le_bytes())?;
    out.extend_from_slice(&[u8::from(within)])?;
    out.extend_from_slice(&(pattern.len() as u16).to_le_bytes())?;
    out.extend_from_slice(pattern)
}

/// Appends the bytes of a reset.
fn write_reset(kind: BootKind, out: &mut Vec<u8>) -> Result<(), AllocError>
    ensures ok { OnOk result (out.new.items ≡ out.old.items ++ written_event (Reset kind)) }
    ensures err { OnErr result (IsKept out.old.items out.new.items) }
    ensures size { base_of kind < 2 ^ 32 }
{
    let (byte, base) = reset_bytes(kind);
    out.extend_from_slice(&[RESET, byte])?;
    out.extend_from_slice(&base.to_le_bytes())
}

/// The kind byte and the base of a reset.
fn reset_bytes(kind: BootKind) -> (u8, u32)
    ensures byte { result.0 ≡ reset_byte kind }
    ensures base { result.1 ≡ base_of kind }
{
    match kind {
        BootKind::Normal => (RESET_NORMAL, 0),
        BootKind::Bootsel => (RESET_BOOTSEL, 0),
        BootKind::Update(base) => (RESET_UPDATE, base),
    }
}
