//! What an info command is answered.

ghost use Rattle.std.specs.Prelude.{◌≡◌, ◌==◌, if◌then◌else◌, ◌*◌, ◌/◌, ◌<◌, ◌^◌, [], Ok, IsTrue, None, Option, Some, length};
ghost use Rattle.std.specs.Option.{ForSome, option_map};
ghost use Rattle.sector_pool.specs.Keeping.{KeepsOut};
ghost use Rattle.sector_pool.specs.Pool.{HasFree};
ghost use Rattle.part_table.specs.Sound.{IsSoundTable};
ghost use Rattle.slot_choice.specs.Units.{IsSoundFor};
ghost use Rattle.picoboot_cmd.specs.Replies.{HasTakenBytes};
ghost use Rattle.info_reply.specs.declared.kinds.TheConstants.{INFO as INFO_ID};
ghost use Rattle.picoboot_cmd.specs.Checks.{first_failing};
ghost use Rattle.block_codec.specs.Words.{bytes_of};
ghost use Rattle.info_reply.specs.Asks.{reply_checks};
ghost use Rattle.boot_machine.specs.Serving.{info_words, asked_target, device_of, info_outcome, info_reply, info_status, table_slot_of, table_of_found};

use crate::found::{table_of_found, table_slot_of};
use crate::watched::Watched;
use boot_rules::{Found, Target};
use info_reply::{Ask, Device, info_ask, info_put};
use otp_roll::{BOOT_FLAGS, slot_size};
use part_table::Table;
use pico_board::{Board, Cpu};
use picoboot_cmd::{Cmd, HashReply};
use sector_pool::SectorPool;
use text_lines::{EventOutcome, command_outcome};

/// What is told of the board.
fn device_of<B: Board>(board: &B, cpu: Cpu) -> Device
    requires power { IsTrue (B.state board.now).powered }
    ensures { result ≡ device_of (B.state board.now).content cpu }
{
    Device {
        flash_len: board.flash_len(),
        cpu,
        flags: board.otp_read(BOOT_FLAGS),
        slot: slot_size(board),
    }
}

/// The target that an info command asks for, where it asks for one.
fn asked_target<B: Board>(
    board: &mut Watched<B>,
    pool: &mut SectorPool,
    table: Option<&Table>,
    cpu: Cpu,
    ask: Ask,
) -> Option<Target>
    requires power { IsTrue (B.state board.old).powered }
    requires lease { HasFree pool.old }
    requires sound { IsSoundFor (option_map (λ t. t.now) table)
        (length (B.state board.old).content.flash) }
    ensures exact { result ≡ asked_target (B.state board.old).content
        (option_map (λ t. t.now) table.entry) cpu (Some ask) }
    ensures same { board.new ≡ board.old }
    ensures kept { KeepsOut pool.old pool.new }
{
    match ask {
        Ask::Target(family) => board.target(pool, table, cpu, family),
        _ => None,
    }
}

/// Puts the reply to what an info command asks for. The answer is its status.
fn put_info<B: Board>(
    board: &mut Watched<B>,
    pool: &mut SectorPool,
    cpu: Cpu,
    found: &Option<Found>,
    cmd: &Cmd,
    ask: Ask,
    reply: &mut HashReply,
) -> u32
    requires power { IsTrue (B.state board.old).powered }
    requires lease { HasFree pool.old }
    requires sound { ForSome found.now (λ f. IsSoundTable f.table
        (length (B.state board.old).content.flash / 4096)) }
    ensures status { result ≡ first_failing (reply_checks (table_of_found found.now) ask
        (info_words (B.state board.old).content cpu found.now (Some ask)) cmd.now) }
    ensures reply { HasTakenBytes reply.old [] → HasTakenBytes reply.new (if result == 0
        then bytes_of (info_words (B.state board.old).content cpu found.now (Some ask)) else []) }
    ensures few { result ≡ 0 → 4 * length
        (info_words (B.state board.old).content cpu found.now (Some ask)) < 2 ^ 32 }
    ensures same { board.new ≡ board.old }
    ensures kept { KeepsOut pool.old pool.new }
{
    // The prover takes the range of this field from its reading here: a reply is no longer than
    // the transfer length, which has 32 bits.
    let _most = cmd.transfer;
    let table = table_of_found(found);
    let target = asked_target(board, pool, table, cpu, ask);
    let device = device_of(board, cpu);
    info_put(
        cmd,
        &ask,
        &device,
        table_slot_of(found),
        table,
        target.as_ref(),
        reply,
    )
}

/// Judges an info command, and puts its reply. The answer is its status.
fn info_reply<B: Board>(
    board: &mut Watched<B>,
    pool: &mut SectorPool,
    cpu: Cpu,
    found: &Option<Found>,
    cmd: &Cmd,
    payload: &[u8],
    reply: &mut HashReply,
) -> u32
    requires power { IsTrue (B.state board.old).powered }
    requires lease { HasFree pool.old }
    requires sound { ForSome found.now (λ f. IsSoundTable f.table
        (length (B.state board.old).content.flash / 4096)) }
    requires info { cmd.now.id ≡ INFO_ID }
    ensures status { result
        ≡ info_status (B.state board.old).content cpu found.now cmd.now payload.now }
    ensures reply { HasTakenBytes reply.old [] → HasTakenBytes reply.new
        (info_reply result (B.state board.old).content cpu found.now cmd.now) }
    ensures few { length (info_reply result (B.state board.old).content cpu found.now cmd.now)
        < 2 ^ 32 }
    ensures same { board.new ≡ board.old }
    ensures kept { KeepsOut pool.old pool.new }
{
    match info_ask(cmd, payload) {
        Ok(ask) => put_info(board, pool, cpu, found, cmd, ask, reply),
        Err(status) => status,
    }
}

/// Serves an info command.
pub fn serve_info<B: Board>(
    board: &mut Watched<B>,
    pool: &mut SectorPool,
    cpu: Cpu,
    found: &Option<Found>,
    cmd: &Cmd,
    payload: &[u8],
) -> EventOutcome
    requires power { IsTrue (B.state board.old).powered }
    requires lease { HasFree pool.old }
    requires sound { ForSome found.now (λ f. IsSoundTable f.table
        (length (B.state board.old).content.flash / 4096)) }
    requires info { cmd.now.id ≡ INFO_ID }
    ensures outcome { result ≡ info_outcome
        (info_status (B.state board.old).content cpu found.now cmd.now payload.now)
        (B.state board.old).content cpu found.now cmd.now }
    ensures same { board.new ≡ board.old }
    ensures kept { KeepsOut pool.old pool.new }
{
    let mut reply = HashReply::new();
    let status = info_reply(board, pool, cpu, found, cmd, payload, &mut reply);
    command_outcome(cmd, status, reply)
}
