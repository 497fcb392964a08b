//! A command on a board: its checks, and then its work.

ghost use Rattle.std.specs.Prelude.{◌≡◌, ◌≢◌, ◌++◌, ℕ, List, IfOk, IsTrue, is_ok, length};
ghost use Rattle.std.specs.Option.{option_map};
ghost use Rattle.pico_board.specs.Board.{DoesAll};
ghost use Rattle.part_table.specs.Sound.{IsSoundFor};
ghost use Rattle.picoboot_cmd.specs.Served.{served_on, done_of};

use crate::cmd::Cmd;
use crate::judging::status_of;
use crate::kinds::OK;
use crate::reply::Reply;
use crate::working::{boot_of, do_command};
use part_table::Table;
use pico_board::{Board, BootKind, PowerLost};

/// The answer to a command.
#[derive(Clone, Copy, Debug, PartialEq, Eq)]
pub struct Done {
    /// The number of the first check that fails, and 0 where none does.
    pub status: u32,
    /// The boot that the command asks for: there is one exactly for a reboot with status 0.
    pub boot: Option<BootKind>,
}

/// Serves a command on a board with this partition table, or none, while a download is busy or
/// not.
///
/// Its status is the number of the first check that fails, and 0 where none does. With another
/// status than 0 it does nothing. Otherwise it does its steps, stops where power is lost, and puts
/// its reply.
pub fn apply<B: Board, R: Reply>(
    board: &mut B,
    table: Option<&Table>,
    busy: bool,
    cmd: &Cmd,
    payload: &[u8],
    reply: &mut R,
) -> Result<Done, PowerLost>
    requires power { IsTrue (B.state board.old).powered }
    requires sound { IsSoundFor (option_map (λ t. t.now) table)
        (length (B.state board.old).content.flash) }
    ensures steps { DoesAll B.state B.history board.old (served_on (B.state board.old).content
        (option_map (λ t. t.now) table.entry) busy cmd.now payload.now).steps
        (is_ok result) board.new }
    ensures answer { IfOk result (λ done. done ≡ done_of (served_on (B.state board.old).content
        (option_map (λ t. t.now) table.entry) busy cmd.now payload.now)) }
    ensures reply { (before : List ℕ) → R.stands_for reply.old before → R.stands_for reply.new
        (before ++ (served_on (B.state board.old).content
        (option_map (λ t. t.now) table.entry) busy cmd.now payload.now).reply) }
    ensures refused { (served_on (B.state board.old).content
        (option_map (λ t. t.now) table.entry) busy cmd.now payload.now).status ≢ 0
        → (board.new ≡ board.old) × (reply.new ≡ reply.old) }
{
    let status = status_of(board, table, busy, cmd, payload);
    if status != OK {
        return Ok(Done { status, boot: None });
    }
    do_command(board, cmd, payload, reply)?;
    Ok(Done {
        status,
        boot: boot_of(cmd),
    })
}
