//! The events by which an image is written in ascending order.

ghost use Rattle.std.specs.Prelude.{◌≡◌, ◌+◌, ◌-◌, ◌*◌, ◌<◌, ◌≤◌, ◌++◌, IfOk, OnOk, length, replicate};
ghost use Rattle.std.specs.List.{flat_map};
ghost use Rattle.pico_board.specs.declared.window.TheConstants.{MOST_FLASH_BYTES};
ghost use Rattle.boot_script.specs.Written.{written_event};
ghost use Rattle.script_plan.specs.Loads.{boot_events, filled_sector, load_text, sector_count, sector_commands, sector_of, sectors_events, writes_events};

use crate::commands::{erase, exclusive, exit_xip, send, update, write};
use boot_script::{Event, write_event};
use pico_board::{BootKind, SECTOR};
use std::alloc::{AllocError, Global};

/// Fills bytes with 0 to so many.
fn fill(bytes: &mut Vec<u8>, size: usize) -> Result<(), AllocError>
    requires { length bytes.old.items ≤ size }
    ensures bytes { OnOk result
        (bytes.new.items ≡ bytes.old.items ++ replicate (size - length bytes.old.items) 0) }
    ensures long { OnOk result (length bytes.new.items ≡ size) }
{
    bytes.resize(size, 0)
}

/// A part of a sector, with 0 after its end. It fails only where memory is out.
fn filled_sector(alloc: Global, part: &[u8]) -> Result<Vec<u8>, AllocError>
    requires { length part.now ≤ 4096 }
    ensures bytes { IfOk result (λ sector. sector.items ≡ filled_sector part.now) }
    ensures long { IfOk result (λ sector. length sector.items ≡ 4096) }
{
    let mut sector = Vec::from_slice(alloc, part)?;
    fill(&mut sector, SECTOR as usize)?;
    Ok(sector)
}

/// Sector number `k` of an image. It fails only where memory is out.
fn sector_of(alloc: Global, image: &[u8], k: u32) -> Result<Vec<u8>, AllocError>
    requires { 4096 * k < length image.now }
    ensures bytes { IfOk result (λ sector. sector.items ≡ sector_of image.now k) }
    ensures long { IfOk result (λ sector. length sector.items ≡ 4096) }
{
    let start = SECTOR as usize * k as usize;
    let end = image.len().min(start + SECTOR as usize);
    filled_sector(alloc, &image[start..end])
}

/// Appends the commands that write sector number `k` of an image, which has these bytes.
fn send_sector(
    alloc: Global,
    at: u32,
    k: u32,
    sector: &[u8],
    out: &mut Vec<u8>,
) -> Result<(), AllocError>
    requires near { at + 4096 * k < MOST_FLASH_BYTES }
    requires long { length sector.now ≡ 4096 }
    ensures { OnOk result (out.new.items ≡ out.old.items
        ++ flat_map written_event (sector_commands at k sector.now)) }
{
    let place = at + SECTOR * k;
    send(alloc, &exit_xip(3 * k + 2), &[], out)?;
    send(alloc, &erase(3 * k + 3, place, SECTOR), &[], out)?;
    send(alloc, &write(3 * k + 4, place, SECTOR), sector, out)
}

/// Appends the commands that write the sectors of an image, in ascending order.
fn send_sectors(
    alloc: Global,
    at: u32,
    image: &[u8],
    count: u32,
    out: &mut Vec<u8>,
) -> Result<(), AllocError>
    requires inside { at + length image.now ≤ MOST_FLASH_BYTES }
    requires count { count ≡ sector_count (length image.now) }
    ensures { OnOk result (out.new.items
        ≡ out.old.items ++ flat_map written_event (sectors_events at image.now)) }
{
    for k in 0..count {
        let sector = sector_of(alloc, image, k)?;
        send_sector(alloc, at, k, &sector, out)?;
    }
    Ok(())
}

/// Appends the reboot into the update.
fn send_boot(alloc: Global, token: u32, at: u32, out: &mut Vec<u8>) -> Result<(), AllocError>
    requires { at < MOST_FLASH_BYTES }
    ensures { OnOk result (out.new.items
        ≡ out.old.items ++ flat_map written_event (boot_events token at)) }
{
    send(alloc, &update(token, at), &[], out)
}

/// Appends the commands that write the sectors, and the reboot.
fn send_writes(alloc: Global, at: u32, image: &[u8], out: &mut Vec<u8>) -> Result<(), AllocError>
    requires near { at < MOST_FLASH_BYTES }
    requires inside { at + length image.now ≤ MOST_FLASH_BYTES }
    ensures { OnOk result (out.new.items
        ≡ out.old.items ++ flat_map written_event (writes_events at image.now)) }
{
    let count = image.len().div_ceil(SECTOR as usize) as u32;
    send_sectors(alloc, at, image, count, out)?;
    send_boot(alloc, 3 * count + 2, at, out)
}

/// Appends the events that write the image, and the end.
fn send_load(alloc: Global, at: u32, image: &[u8], out: &mut Vec<u8>) -> Result<(), AllocError>
    requires near { at < MOST_FLASH_BYTES }
    requires inside { at + length image.now ≤ MOST_FLASH_BYTES }
    ensures { OnOk result (out.new.items ≡ out.old.items ++ load_text at image.now) }
{
    write_event(alloc, &Event::PowerOn, out)?;
    write_event(alloc, &Event::Reset(BootKind::Bootsel), out)?;
    send(alloc, &exclusive(1), &[], out)?;
    send_writes(alloc, at, image, out)?;
    write_event(alloc, &Event::End, out)
}

/// The script, as a text of its own. It fails only where memory is out.
pub(crate) fn load_in(alloc: Global, at: u32, image: &[u8]) -> Result<Vec<u8>, AllocError>
    requires near { at < MOST_FLASH_BYTES }
    requires inside { at + length image.now ≤ MOST_FLASH_BYTES }
    ensures { IfOk result (λ text. text.items ≡ load_text at image.now) }
{
    let mut text = Vec::new(alloc);
    send_load(alloc, at, image, &mut text)?;
    Ok(text)
}
