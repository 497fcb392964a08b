//! Events from bytes.

ghost use Rattle.std.specs.Prelude.{◌≡◌, ◌+◌, ◌^◌, ◌<◌, ◌≤◌, IfOk, drop, length};
ghost use Rattle.byteorder.specs.Endian.{little_number};
ghost use Rattle.boot_script.specs.Events.{IsWritableEvent, event_from};
ghost use Rattle.boot_script.specs.Reading.{command_event_in, cut_event_in, event_at, event_in, read_from, read_next_from, is_cut, payload_in, reset_in, reset_of, uf2_in};

use crate::event::{Event, ScriptFault};
use crate::kinds::{
    BUY, COMMAND, CUT, END, POWER_ON, RESET, RESET_BOOTSEL, RESET_NORMAL, RESET_UPDATE, UF2,
};
use byteorder::{ByteOrder, LittleEndian};
use pico_board::BootKind;

/// The event at the offset `at` and the offset after it, or the first fault.
pub fn next_event<'a>(bytes: &'a [u8], at: u32) -> Result<(Event<'a>, u32), ScriptFault>
    requires few { length bytes.now < 2 ^ 32 }
    requires inside { at ≤ length bytes.now }
    ensures exact { read_next_from result ≡ event_at bytes.now at }
    ensures forward { IfOk result (λ r. at < r.1) }
    ensures inside { IfOk result (λ r. r.1 ≤ length bytes.now) }
    ensures writable { length bytes.now ≤ 2 ^ 26
        → IfOk result (λ r. IsWritableEvent (event_from r.0)) }
{
    let event = read_event(&bytes[at as usize..], at)?;
    Ok((event, at + event.size() as u32))
}

/// The event that the bytes from the offset `at` on begin with.
fn read_event<'a>(bytes: &'a [u8], at: u32) -> Result<Event<'a>, ScriptFault>
    ensures exact { read_from result ≡ event_in at bytes.now }
{
    let Some((kind, rest)) = bytes.split_first() else {
        return Err(ScriptFault::Short(at));
    };
    match *kind {
        END => Ok(Event::End),
        COMMAND => read_command(rest, at),
        UF2 => read_uf2(rest, at),
        CUT => read_cut(rest, at),
        POWER_ON => Ok(Event::PowerOn),
        RESET => read_reset(rest, at),
        BUY => Ok(Event::Buy),
        _ => Err(ScriptFault::Kind(at)),
    }
}

/// The command after its first byte.
fn read_command<'a>(bytes: &'a [u8], at: u32) -> Result<Event<'a>, ScriptFault>
    ensures { read_from result ≡ command_event_in at bytes.now }
{
    match bytes.split_first_chunk::<32>() {
        Some((command, rest)) => read_payload(command, rest, at),
        None => Err(ScriptFault::Short(at)),
    }
}

/// The command of these 32 bytes with the payload after them.
fn read_payload<'a>(
    command: &'a [u8; 32],
    bytes: &'a [u8],
    at: u32,
) -> Result<Event<'a>, ScriptFault>
    ensures { read_from result ≡ payload_in at command.now bytes.now }
{
    let Some((size, rest)) = bytes.split_first_chunk::<4>() else {
        return Err(ScriptFault::Short(at));
    };
    let size = LittleEndian::read_u32(size) as usize;
    if rest.len() < size {
        return Err(ScriptFault::Short(at));
    }
    Ok(Event::Command(command, &rest[..size]))
}

/// The UF2 block after its first byte.
fn read_uf2<'a>(bytes: &'a [u8], at: u32) -> Result<Event<'a>, ScriptFault>
    ensures { read_from result ≡ uf2_in at bytes.now }
{
    match bytes.split_first_chunk::<512>() {
        Some((block, _)) => Ok(Event::Uf2(block)),
        None => Err(ScriptFault::Short(at)),
    }
}

/// The cut after its first byte.
fn read_cut<'a>(bytes: &'a [u8], at: u32) -> Result<Event<'a>, ScriptFault>
    ensures { read_from result ≡ cut_event_in at bytes.now }
{
    let Some((fixed, rest)) = bytes.split_first_chunk::<7>() else {
        return Err(ScriptFault::Short(at));
    };
    let left = LittleEndian::read_u32(fixed);
    let part = fixed[4];
    let size = LittleEndian::read_u16(&fixed[5..]) as usize;
    if !is_cut(part, size) {
        return Err(ScriptFault::Pattern(at));
    }
    if rest.len() < size {
        return Err(ScriptFault::Short(at));
    }
    Ok(Event::Cut(left, part == 1, &rest[..size]))
}

/// Whether a cut may have this part byte and a pattern of this size.
fn is_cut(part: u8, size: usize) -> bool
    ensures { result ≡ is_cut part size }
{
    match part {
        0 => size == 0,
        1 => size >= 1 && size <= 4096,
        _ => false,
    }
}

/// The reset after its first byte.
fn read_reset<'a>(bytes: &'a [u8], at: u32) -> Result<Event<'a>, ScriptFault>
    ensures { read_from result ≡ reset_in at bytes.now }
{
    let Some((fixed, _)) = bytes.split_first_chunk::<5>() else {
        return Err(ScriptFault::Short(at));
    };
    match reset_of(fixed[0], LittleEndian::read_u32(&fixed[1..])) {
        Some(kind) => Ok(Event::Reset(kind)),
        None => Err(ScriptFault::Kind(at)),
    }
}

/// The boot that a reset of this kind byte and this base is to.
fn reset_of(kind: u8, base: u32) -> Option<BootKind>
    ensures { result ≡ reset_of kind base }
{
    match (kind, base) {
        (RESET_NORMAL, 0) => Some(BootKind::Normal),
        (RESET_BOOTSEL, 0) => Some(BootKind::Bootsel),
        (RESET_UPDATE, base) => Some(BootKind::Update(base)),
        _ => None,
    }
}
