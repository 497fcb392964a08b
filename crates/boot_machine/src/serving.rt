//! The events of a host, on the parts of a machine in BOOTSEL.

ghost use Rattle.std.specs.Prelude.{◌≡◌, None, true, IsTrue};
ghost use Rattle.uf2_place.specs.Downloads.{lease_of};
ghost use Rattle.uf2_place.specs.Blocks.{IsUf2, uf2_of};
ghost use Rattle.picoboot_cmd.specs.Commands.{command_in};
ghost use Rattle.info_reply.specs.declared.kinds.TheConstants.{INFO as INFO_ID};
ghost use Rattle.ram_start.specs.Serving.{is_ram_command};
ghost use Rattle.boot_script.specs.Events.{event_from};
ghost use Rattle.text_lines.specs.declared.outcome.EventOutcome.TheVariants.{PowerLost as LOST};
ghost use Rattle.boot_machine.specs.Serving.{command_served, is_hosted, places, served_event, serves, serves_host, serves_info, serves_ram, uf2_served};
ghost use Rattle.boot_machine.specs.Standing.{HasRoom, IsLeft, IsRamStart, IsSteady, Serves};
ghost use Rattle.boot_machine.specs.declared.state.State.TheVariants.{Bootsel as SERVING};

use crate::commands::{ServedRam, serve_host, serve_ram};
use crate::entering::{drop_download, lose};
use crate::infos::serve_info;
use crate::parts::Parts;
use crate::placing::place_block;
use crate::served::Served;
use crate::state::State;
use boot_rules::Started;
use boot_script::Event;
use info_reply::kinds::INFO;
use pico_board::{Board, PowerLost};
use picoboot_cmd::{Cmd, read_cmd};
use ram_start::ram_asks;
use text_lines::{BlockOutcome, EventOutcome};
use uf2_place::{Uf2, read_uf2};

/// Serves an info command.
fn info<B: Board>(parts: &mut Parts<B>, cmd: &Cmd, payload: &[u8]) -> Served
    requires steady { IsSteady B.state parts.old }
    requires bootsel { parts.old.state ≡ SERVING }
    requires info { cmd.now.id ≡ INFO_ID }
    ensures serves { Serves B.state B.history parts.old
        (λ c cpu host. serves_info c cpu host cmd.now payload.now) result.boot parts.new
        result.outcome }
    ensures steady { IsSteady B.state parts.new }
{
    let outcome = serve_info(
        &mut parts.board,
        &mut parts.pool,
        parts.cpu,
        &parts.found,
        cmd,
        payload,
    );
    Served {
        outcome,
        boot: None,
    }
}

/// Runs an image in RAM: the download is dropped.
fn run_ram<B: Board>(parts: &mut Parts<B>, image: Started)
    requires room { HasRoom parts.old.pool (lease_of parts.old.download.current) }
    ensures { IsRamStart parts.old image parts.new }
{
    drop_download(parts);
    parts.membership = None;
    parts.state = State::Running(image);
}

/// Serves a RAM command.
fn ram<B: Board>(parts: &mut Parts<B>, cmd: &Cmd, payload: &[u8]) -> Served
    requires steady { IsSteady B.state parts.old }
    requires bootsel { parts.old.state ≡ SERVING }
    requires asks { is_ram_command cmd.now ≡ true }
    ensures serves { Serves B.state B.history parts.old
        (λ c cpu host. serves_ram c cpu host cmd.now payload.now) result.boot parts.new
        result.outcome }
    ensures steady { IsSteady B.state parts.new }
{
    let busy = parts.download.busy();
    let ServedRam { outcome, start } = serve_ram(
        &parts.board,
        &mut parts.pool,
        &mut parts.ram,
        parts.cpu,
        busy,
        cmd,
        payload,
    );
    match start {
        Some(image) => {
            run_ram(parts, image);
            Served {
                outcome,
                boot: None,
            }
        }
        None => Served {
            outcome,
            boot: None,
        },
    }
}

/// Power was lost while the host was served: no boot is asked for.
fn lost<B: Board>(parts: &mut Parts<B>) -> Served
    requires room { HasRoom parts.old.pool (lease_of parts.old.download.current) }
    ensures none { result.boot ≡ None }
    ensures parts { IsLeft parts.old parts.new }
    ensures lost { result.outcome ≡ LOST }
{
    Served {
        outcome: lose(parts),
        boot: None,
    }
}

/// Serves another command of the host.
fn host<B: Board>(parts: &mut Parts<B>, cmd: &Cmd, payload: &[u8]) -> Served
    requires steady { IsSteady B.state parts.old }
    requires bootsel { parts.old.state ≡ SERVING }
    ensures serves { Serves B.state B.history parts.old
        (λ c cpu host. serves_host c host cmd.now payload.now) result.boot parts.new
        result.outcome }
    ensures steady { IsSteady B.state parts.new }
{
    let busy = parts.download.busy();
    match serve_host(&mut parts.board, &parts.found, busy, cmd, payload) {
        Ok(served) => served,
        Err(PowerLost) => lost(parts),
    }
}

/// Serves a command.
fn command<B: Board>(parts: &mut Parts<B>, cmd: &Cmd, payload: &[u8]) -> Served
    requires steady { IsSteady B.state parts.old }
    requires bootsel { parts.old.state ≡ SERVING }
    ensures serves { Serves B.state B.history parts.old
        (λ c cpu host. serves c cpu host cmd.now payload.now) result.boot parts.new
        result.outcome }
    ensures steady { IsSteady B.state parts.new }
{
    if cmd.id == INFO {
        info(parts, cmd, payload)
    } else if ram_asks(cmd) {
        ram(parts, cmd, payload)
    } else {
        host(parts, cmd, payload)
    }
}

/// Serves the 32 bytes of a command.
fn command_bytes<B: Board>(parts: &mut Parts<B>, bytes: &[u8; 32], payload: &[u8]) -> Served
    requires steady { IsSteady B.state parts.old }
    requires bootsel { parts.old.state ≡ SERVING }
    ensures serves { Serves B.state B.history parts.old
        (λ c cpu host. command_served c cpu host (command_in bytes.now) payload.now) result.boot
        parts.new result.outcome }
    ensures steady { IsSteady B.state parts.new }
{
    match read_cmd(bytes) {
        Ok(cmd) => command(parts, &cmd, payload),
        Err(_) => Served {
            outcome: EventOutcome::BadMagic,
            boot: None,
        },
    }
}

/// Serves a UF2 block.
fn block<B: Board>(parts: &mut Parts<B>, block: &Uf2) -> Served
    requires steady { IsSteady B.state parts.old }
    requires bootsel { parts.old.state ≡ SERVING }
    requires block { IsUf2 block.now }
    ensures serves { Serves B.state B.history parts.old
        (λ c cpu host. places c cpu host block.now) result.boot parts.new
        result.outcome }
    ensures steady { IsSteady B.state parts.new }
{
    match place_block(
        &mut parts.board,
        &mut parts.pool,
        &mut parts.download,
        &parts.found,
        parts.cpu,
        block,
    ) {
        Ok(served) => served,
        Err(PowerLost) => lost(parts),
    }
}

/// Serves the 512 bytes of a UF2 block.
fn block_bytes<B: Board>(parts: &mut Parts<B>, bytes: &[u8; 512]) -> Served
    requires steady { IsSteady B.state parts.old }
    requires bootsel { parts.old.state ≡ SERVING }
    ensures serves { Serves B.state B.history parts.old
        (λ c cpu host. uf2_served c cpu host (uf2_of bytes.now)) result.boot parts.new
        result.outcome }
    ensures steady { IsSteady B.state parts.new }
{
    match read_uf2(bytes) {
        Ok(uf2) => block(parts, &uf2),
        Err(fault) => Served {
            outcome: EventOutcome::Block(BlockOutcome::BadForm(fault)),
            boot: None,
        },
    }
}

/// Serves an event of a host, before the boot that it may ask for.
pub fn serve<B: Board>(parts: &mut Parts<B>, event: &Event<'_>) -> Served
    requires steady { IsSteady B.state parts.old }
    requires bootsel { parts.old.state ≡ SERVING }
    requires hosted { is_hosted (event_from event.now) ≡ true }
    ensures serves { Serves B.state B.history parts.old
        (λ c cpu host. served_event c cpu host
        (event_from event.now)) result.boot parts.new
        result.outcome }
    ensures steady { IsSteady B.state parts.new }
{
    match event {
        Event::Command(bytes, payload) => command_bytes(parts, bytes, payload),
        Event::Uf2(bytes) => block_bytes(parts, bytes),
        _ => Served {
            outcome: EventOutcome::Ignored,
            boot: None,
        },
    }
}
