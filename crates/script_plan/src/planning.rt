//! The events by which an image is written with the first sector last.

ghost use Rattle.std.specs.Prelude.{◌≡◌, ◌+◌, ◌<◌, ◌≤◌, ◌++◌, length, OnOk, IfOk};
ghost use Rattle.std.specs.List.{flat_map};
ghost use Rattle.pico_board.specs.declared.window.TheConstants.{MOST_FLASH_BYTES};
ghost use Rattle.boot_script.specs.Written.{written_event};
ghost use Rattle.script_plan.specs.Plans.{last_events, plan_text, rest_events, write_events};

use crate::commands::{erase, send, update, write};
use boot_script::{Event, write_event};
use pico_board::{BootKind, SECTOR};
use std::alloc::{AllocError, Global};

/// Appends the erase and the write of what follows the first sector.
fn send_rest(alloc: Global, at: u32, rest: &[u8], out: &mut Vec<u8>) -> Result<(), AllocError>
    requires near { at < MOST_FLASH_BYTES }
    requires small { length rest.now ≤ MOST_FLASH_BYTES }
    ensures { OnOk result (out.new.items
        ≡ out.old.items ++ flat_map written_event (rest_events at rest.now)) }
{
    let size = rest.len() as u32;
    send(
        alloc,
        &erase(2, at, SECTOR * ((size + (SECTOR - 1)) / SECTOR)),
        &[],
        out,
    )?;
    send(alloc, &write(3, at, size), rest, out)
}

/// Appends the write of the first sector, and the reboot.
fn send_last(
    alloc: Global,
    token: u32,
    at: u32,
    first: &[u8],
    out: &mut Vec<u8>,
) -> Result<(), AllocError>
    requires token { token < 100 }
    requires near { at < MOST_FLASH_BYTES }
    requires small { length first.now ≤ 4096 }
    ensures { OnOk result (out.new.items
        ≡ out.old.items ++ flat_map written_event (last_events token at first.now)) }
{
    send(alloc, &write(token, at, first.len() as u32), first, out)?;
    send(alloc, &update(token + 1, at), &[], out)
}

/// Appends what follows the erase of the first sector.
fn send_image(alloc: Global, at: u32, image: &[u8], out: &mut Vec<u8>) -> Result<(), AllocError>
    requires near { at < MOST_FLASH_BYTES }
    requires inside { at + length image.now ≤ MOST_FLASH_BYTES }
    ensures { OnOk result (out.new.items
        ≡ out.old.items ++ flat_map written_event (write_events at image.now)) }
{
    if image.len() > SECTOR as usize {
        send_rest(alloc, at + SECTOR, &image[SECTOR as usize..], out)?;
        send_last(alloc, 4, at, &image[..SECTOR as usize], out)
    } else {
        send_last(alloc, 2, at, image, out)
    }
}

/// Appends the events that write the image, and the end.
fn send_plan(alloc: Global, at: u32, image: &[u8], out: &mut Vec<u8>) -> Result<(), AllocError>
    requires near { at < MOST_FLASH_BYTES }
    requires inside { at + length image.now ≤ MOST_FLASH_BYTES }
    ensures { OnOk result (out.new.items ≡ out.old.items ++ plan_text at image.now) }
{
    write_event(alloc, &Event::PowerOn, out)?;
    write_event(alloc, &Event::Reset(BootKind::Bootsel), out)?;
    send(alloc, &erase(1, at, SECTOR), &[], out)?;
    send_image(alloc, at, image, out)?;
    write_event(alloc, &Event::End, out)
}

/// The script, as a text of its own. It fails only where memory is out.
pub(crate) fn plan_in(alloc: Global, at: u32, image: &[u8]) -> Result<Vec<u8>, AllocError>
    requires near { at < MOST_FLASH_BYTES }
    requires inside { at + length image.now ≤ MOST_FLASH_BYTES }
    ensures { IfOk result (λ text. text.items ≡ plan_text at image.now) }
{
    let mut text = Vec::new(alloc);
    send_plan(alloc, at, image, &mut text)?;
    Ok(text)
}
