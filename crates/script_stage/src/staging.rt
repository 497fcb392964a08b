//! The events by which an image is written with one page of its first sector last.

ghost use Rattle.std.specs.Prelude.{◌≡◌, ◌+◌, ◌*◌, ◌<◌, ◌≤◌, ◌++◌, length, slice_range, OnOk, IfOk};
ghost use Rattle.std.specs.List.{flat_map};
ghost use Rattle.pico_board.specs.declared.window.TheConstants.{MOST_FLASH_BYTES};
ghost use Rattle.boot_script.specs.Written.{written_event};
ghost use Rattle.script_stage.specs.Stages.{Sends, buy_events, last_calls, part_calls, rest_calls, stage_calls, stage_text, with_tokens};

use crate::commands::{erase, send, update, write};
use boot_script::{Event, write_event};
use pico_board::{BootKind, PAGE, SECTOR};
use std::alloc::{AllocError, Global};

/// The bytes of an image from one offset up to another, or to its end.
fn part_of(image: &[u8], start: usize, end: usize) -> &[u8]
    ensures { result.now ≡ slice_range image.now start end }
{
    let end = image.len().min(end);
    if start < end { &image[start..end] } else { &[] }
}

/// Appends the erase and the write of what follows the first sector, if anything does. The next
/// token is answered.
fn send_rest(
    alloc: Global,
    token: u32,
    at: u32,
    bytes: &[u8],
    out: &mut Vec<u8>,
) -> Result<u32, AllocError>
    requires token { token < 100 }
    requires small { length bytes.now ≤ MOST_FLASH_BYTES }
    requires inside { at + length bytes.now ≤ MOST_FLASH_BYTES }
    ensures sent { IfOk result (λ next. Sends (rest_calls at bytes.now) token out.old.items next
        out.new.items) }
    ensures few { IfOk result (λ next. next ≤ token + 2) }
{
    if bytes.is_empty() {
        return Ok(token);
    }
    let size = bytes.len() as u32;
    send(
        alloc,
        &erase(token, at, SECTOR * ((size + (SECTOR - 1)) / SECTOR)),
        &[],
        out,
    )?;
    send(alloc, &write(token + 1, at, size), bytes, out)?;
    Ok(token + 2)
}

/// Appends the write of bytes, if there are any. The next token is answered.
fn send_part(
    alloc: Global,
    token: u32,
    at: u32,
    bytes: &[u8],
    out: &mut Vec<u8>,
) -> Result<u32, AllocError>
    requires token { token < 100 }
    requires small { length bytes.now ≤ 4096 }
    requires inside { at + length bytes.now ≤ MOST_FLASH_BYTES }
    ensures sent { IfOk result (λ next. Sends (part_calls at bytes.now) token out.old.items next
        out.new.items) }
    ensures few { IfOk result (λ next. next ≤ token + 1) }
{
    if bytes.is_empty() {
        return Ok(token);
    }
    send(alloc, &write(token, at, bytes.len() as u32), bytes, out)?;
    Ok(token + 1)
}

/// Appends the last write, and the reboot.
fn send_last(
    alloc: Global,
    token: u32,
    at: u32,
    place: u32,
    bytes: &[u8],
    out: &mut Vec<u8>,
) -> Result<(), AllocError>
    requires token { token < 100 }
    requires near { at < MOST_FLASH_BYTES }
    requires place { place < MOST_FLASH_BYTES }
    requires small { length bytes.now ≤ 4096 }
    ensures { OnOk result (out.new.items ≡ out.old.items
        ++ flat_map written_event (with_tokens token (last_calls at place bytes.now))) }
{
    send(alloc, &write(token, place, bytes.len() as u32), bytes, out)?;
    send(alloc, &update(token + 1, at), &[], out)
}

/// Appends the commands that write the image, with this page of its first sector last.
fn send_image(
    alloc: Global,
    at: u32,
    page: u32,
    image: &[u8],
    out: &mut Vec<u8>,
) -> Result<(), AllocError>
    requires page { page < 16 }
    requires room { at + 4096 ≤ MOST_FLASH_BYTES }
    requires inside { at + length image.now ≤ MOST_FLASH_BYTES }
    ensures { OnOk result (out.new.items ≡ out.old.items
        ++ flat_map written_event (with_tokens 1 (stage_calls at page image.now))) }
{
    let sector = SECTOR as usize;
    let start = PAGE as usize * page as usize;
    let end = PAGE as usize * (page as usize + 1);
    send(alloc, &erase(1, at, SECTOR), &[], out)?;
    let rest = part_of(image, sector, image.len());
    let token = send_rest(alloc, 2, at + SECTOR, rest, out)?;
    let token = send_part(alloc, token, at, part_of(image, 0, start), out)?;
    let behind = part_of(image, end, sector);
    let token = send_part(alloc, token, at + PAGE * (page + 1), behind, out)?;
    let last = part_of(image, start, end);
    send_last(alloc, token, at, at + PAGE * page, last, out)
}

/// Appends the events that buy the image, if it is to be bought.
fn send_buy(alloc: Global, is_bought: bool, out: &mut Vec<u8>) -> Result<(), AllocError>
    ensures { OnOk result (out.new.items
        ≡ out.old.items ++ flat_map written_event (buy_events is_bought)) }
{
    if is_bought {
        write_event(alloc, &Event::Buy, out)?;
        write_event(alloc, &Event::Reset(BootKind::Normal), out)?;
    }
    Ok(())
}

/// Appends the events that write the image, and the end.
fn send_stage(
    alloc: Global,
    at: u32,
    page: u32,
    is_bought: bool,
    image: &[u8],
    out: &mut Vec<u8>,
) -> Result<(), AllocError>
    requires page { page < 16 }
    requires room { at + 4096 ≤ MOST_FLASH_BYTES }
    requires inside { at + length image.now ≤ MOST_FLASH_BYTES }
    ensures { OnOk result (out.new.items
        ≡ out.old.items ++ stage_text at page is_bought image.now) }
{
    write_event(alloc, &Event::PowerOn, out)?;
    write_event(alloc, &Event::Reset(BootKind::Bootsel), out)?;
    send_image(alloc, at, page, image, out)?;
    send_buy(alloc, is_bought, out)?;
    write_event(alloc, &Event::End, out)
}

/// The script, as a text of its own. It fails only where memory is out.
pub(crate) fn stage_in(
    alloc: Global,
    at: u32,
    page: u32,
    is_bought: bool,
    image: &[u8],
) -> Result<Vec<u8>, AllocError>
    requires page { page < 16 }
    requires room { at + 4096 ≤ MOST_FLASH_BYTES }
    requires inside { at + length image.now ≤ MOST_FLASH_BYTES }
    ensures { IfOk result (λ text. text.items ≡ stage_text at page is_bought image.now) }
{
    let mut text = Vec::new(alloc);
    send_stage(alloc, at, page, is_bought, image, &mut text)?;
    Ok(text)
}
