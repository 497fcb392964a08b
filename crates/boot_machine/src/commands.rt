//! What the commands of a host for its board and its SRAM do, before the boot that one may ask for.

ghost use Rattle.std.specs.Prelude.{◌≡◌, ℕ, List, ◌^◌, ◌/◌, ◌<◌, ◌≤◌, Ok, IfOk, IsTrue, OnOk, Option, Some, is_ok, length, true};
ghost use Rattle.std.specs.Option.{ForSome};
ghost use Rattle.pico_board.specs.Board.{DoesAll};
ghost use Rattle.sector_pool.specs.Keeping.{KeepsOut};
ghost use Rattle.sector_pool.specs.Pool.{HasFree};
ghost use Rattle.part_table.specs.Sound.{IsSoundTable};
ghost use Rattle.picoboot_cmd.specs.Served.{served_on};
ghost use Rattle.picoboot_cmd.specs.Replies.{HasTakenBytes};
ghost use Rattle.ram_start.specs.Serving.{is_ram_command, ram_command};
ghost use Rattle.boot_machine.specs.Serving.{ram_outcome, table_of_found};
ghost use Rattle.text_lines.specs.Outcomes.{command_outcome};

use crate::copying::copy_of_image;
use crate::found::table_of_found;
use crate::served::Served;
use boot_rules::{Found, Started};
use pico_board::{Board, Cpu, PowerLost};
use picoboot_cmd::{Cmd, HashReply, apply};
use ram_start::{Ram, ram_apply};
use sector_pool::SectorPool;
use text_lines::{EventOutcome, command_outcome, ram_start_outcome};

/// What came of a RAM command, and the image that it starts.
#[derive(Drop)]
pub struct ServedRam {
    /// What came of the command.
    pub outcome: EventOutcome,
    /// The image that it starts, if it does.
    pub start: Option<Started>,
}

/// What came of a RAM command that starts this image, or none.
fn ram_outcome(cmd: &Cmd, status: u32, reply: HashReply, start: &Option<Started>) -> EventOutcome
    ensures { (bytes : List ℕ) → HasTakenBytes reply bytes → length bytes < 2 ^ 32
        → result ≡ ram_outcome cmd.now status bytes start.now }
{
    match start {
        Some(image) => ram_start_outcome(cmd, copy_of_image(image)),
        None => command_outcome(cmd, status, reply),
    }
}

/// Serves a RAM command.
pub fn serve_ram<B: Board>(
    board: &B,
    pool: &mut SectorPool,
    ram: &mut Ram,
    cpu: Cpu,
    busy: bool,
    cmd: &Cmd,
    payload: &[u8],
) -> ServedRam
    requires power { IsTrue (B.state board.now).powered }
    requires lease { HasFree pool.old }
    requires asks { is_ram_command cmd.now ≡ true }
    ensures start { result.start ≡ (ram_command
        (B.state board.now).content ram.old cpu busy cmd.now payload.now).start }
    ensures ram { ram.new ≡ (ram_command
        (B.state board.now).content ram.old cpu busy cmd.now payload.now).ram }
    ensures outcome { result.outcome ≡ ram_outcome cmd.now
        (ram_command (B.state board.now).content ram.old cpu busy cmd.now payload.now).status
        (ram_command (B.state board.now).content ram.old cpu busy cmd.now payload.now).reply
        (ram_command (B.state board.now).content ram.old cpu busy cmd.now payload.now).start }
    ensures kept { KeepsOut pool.old pool.new }
{
    // The prover takes the range of this number from its reading here. A reply has at most the
    // bytes that the command names, and their number has 32 bits.
    let _most = cmd.size();
    let mut reply = HashReply::new();
    let done = ram_apply(board, pool, ram, cpu, busy, cmd, payload, &mut reply);
    ServedRam {
        outcome: ram_outcome(cmd, done.status, reply, &done.start),
        start: done.start,
    }
}

/// Serves another command of the host: what came of it, and the boot that it asks for.
pub fn serve_host<B: Board>(
    board: &mut B,
    found: &Option<Found>,
    busy: bool,
    cmd: &Cmd,
    payload: &[u8],
) -> Result<Served, PowerLost>
    requires power { IsTrue (B.state board.old).powered }
    requires sound { ForSome found.now (λ f. IsSoundTable f.table
        (length (B.state board.old).content.flash / 4096)) }
    ensures steps { DoesAll B.state B.history board.old (served_on (B.state board.old).content
        (table_of_found found.now) busy cmd.now payload.now).steps (is_ok result) board.new }
    ensures boot { IfOk result (λ served. served.boot ≡ (served_on (B.state board.old).content
        (table_of_found found.now) busy cmd.now payload.now).boot) }
    ensures outcome { IfOk result (λ served. served.outcome ≡ command_outcome cmd.now
        (served_on (B.state board.old).content (table_of_found found.now) busy cmd.now
        payload.now).status
        (served_on (B.state board.old).content (table_of_found found.now) busy cmd.now
        payload.now).reply) }
{
    let mut reply = HashReply::new();
    let done = apply(board, table_of_found(found), busy, cmd, payload, &mut reply)?;
    Ok(Served {
        outcome: command_outcome(cmd, done.status, reply),
        boot: done.boot,
    })
}
