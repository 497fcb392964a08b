//! What comes of an event of a script, as a value.

ghost use Rattle.std.specs.Prelude.{◌≡◌, ℕ, ◌^◌, ◌<◌, List, length};
ghost use Rattle.picoboot_cmd.specs.Replies.{HasTakenBytes};
ghost use Rattle.text_lines.specs.Outcomes.{accepted_outcome, answer_of, boot_outcome, command_outcome, has_reply, ram_start_outcome, refused_outcome, reply_sum, with_boot};

use boot_rules::Decision;
use image_def::Started;
use info_reply::kinds::INFO;
use picoboot_cmd::kinds::{OK, OTP_READ, READ};
use picoboot_cmd::{Cmd, HashReply};
use uf2_place::{Accepted, PlaceFault, Uf2Fault};

/// The reply of a command, by the number of its bytes and their SHA-256.
#[derive(Clone, Copy, PartialEq, Eq, Debug)]
pub struct ReplySum {
    /// The number of the bytes.
    pub count: u32,
    /// The SHA-256 of the bytes.
    pub digest: [u8; 32],
}

/// How a command is answered.
#[derive(PartialEq, Eq, Debug, Drop)]
pub enum CommandAnswer {
    /// It is refused, with this status.
    Refused(u32),
    /// It is done, and has no reply.
    Done,
    /// It is done, with this reply.
    Replied(ReplySum),
    /// It is done, and a boot from flash decides so.
    Booted(Decision),
    /// It is done, and this image in RAM starts.
    RamStarted(Started),
}

/// A command with its answer.
#[derive(PartialEq, Eq, Debug, Drop)]
pub struct CommandOutcome {
    /// The command's number.
    pub id: u8,
    /// The host's number of the command.
    pub token: u32,
    /// The answer.
    pub answer: CommandAnswer,
}

/// Why a UF2 block is not placed.
#[derive(Clone, Copy, PartialEq, Eq, Debug)]
pub enum Refusal {
    /// Its family has no target.
    NoTarget,
    /// Its page is not in the target's window.
    Outside,
    /// The bootloader may not write its sector.
    NotPermitted,
}

/// What comes of 512 bytes that may be a UF2 block.
#[derive(PartialEq, Eq, Debug, Drop)]
pub enum BlockOutcome {
    /// They break the form of a block.
    BadForm(Uf2Fault),
    /// The block is not placed.
    Refused(Refusal),
    /// The block of this number is accepted.
    Accepted(u32, Accepted),
    /// With the block of this number a download is done, and a boot decides so.
    Downloaded(u32, Decision),
}

/// What comes of an event of a script.
#[derive(PartialEq, Eq, Debug, Drop)]
pub enum EventOutcome {
    /// Nothing: the machine has no power.
    Off,
    /// Nothing: the event is not for what the machine is doing.
    Ignored,
    /// Nothing: the script ends.
    Ended,
    /// A cut is armed.
    CutArmed,
    /// Power was lost in a step of the event.
    PowerLost,
    /// Power came back, or a reset: a boot decides so.
    Booted(Decision),
    /// The running trial image bought itself.
    Bought,
    /// The running image has nothing to buy.
    NothingToBuy,
    /// The bytes of a command do not begin with the magic word.
    BadMagic,
    /// A command and its answer.
    Command(CommandOutcome),
    /// What comes of a UF2 block.
    Block(BlockOutcome),
}

/// Whether a command with this id is answered with bytes.
fn has_reply(id: u8) -> bool
    ensures { result ≡ has_reply id }
{
    id == READ || id == INFO || id == OTP_READ
}

/// The number of a reply's bytes, and their SHA-256.
fn reply_sum(reply: HashReply) -> ReplySum
    ensures { (bytes : List ℕ) → HasTakenBytes reply bytes → length bytes < 2 ^ 32
        → result ≡ reply_sum bytes }
{
    let count = reply.count();
    ReplySum {
        count,
        digest: reply.digest(),
    }
}

/// The answer of a command with this id and status. A read, an info command and an OTP read with
/// status 0 have a reply, and no other.
fn answer_of(id: u8, status: u32, reply: HashReply) -> CommandAnswer
    ensures { (bytes : List ℕ) → HasTakenBytes reply bytes → length bytes < 2 ^ 32
        → result ≡ answer_of id status bytes }
{
    if status != OK {
        return CommandAnswer::Refused(status);
    }
    if has_reply(id) {
        CommandAnswer::Replied(reply_sum(reply))
    } else {
        CommandAnswer::Done
    }
}

/// A command that is answered with this status and this reply.
pub fn command_outcome(cmd: &Cmd, status: u32, reply: HashReply) -> EventOutcome
    ensures { (bytes : List ℕ) → HasTakenBytes reply bytes → length bytes < 2 ^ 32
        → result ≡ command_outcome cmd.now status bytes }
{
    EventOutcome::Command(CommandOutcome {
        id: cmd.id,
        token: cmd.token,
        answer: answer_of(cmd.id, status, reply),
    })
}

/// A command that starts an image in RAM.
pub fn ram_start_outcome(cmd: &Cmd, image: Started) -> EventOutcome
    ensures { result ≡ ram_start_outcome cmd.now image }
{
    EventOutcome::Command(CommandOutcome {
        id: cmd.id,
        token: cmd.token,
        answer: CommandAnswer::RamStarted(image),
    })
}

/// A UF2 block that is accepted, by its number.
pub fn accepted_outcome(number: u32, accepted: Accepted) -> EventOutcome
    ensures { result ≡ accepted_outcome number accepted }
{
    EventOutcome::Block(BlockOutcome::Accepted(number, accepted))
}

/// A UF2 block that is not placed, or power that was lost while it was.
pub fn refused_outcome(fault: PlaceFault) -> EventOutcome
    ensures { result ≡ refused_outcome fault }
{
    match fault {
        PlaceFault::NoTarget => EventOutcome::Block(BlockOutcome::Refused(Refusal::NoTarget)),
        PlaceFault::Outside => EventOutcome::Block(BlockOutcome::Refused(Refusal::Outside)),
        PlaceFault::NotPermitted => {
            EventOutcome::Block(BlockOutcome::Refused(Refusal::NotPermitted))
        }
        PlaceFault::PowerLost => EventOutcome::PowerLost,
    }
}

impl EventOutcome {
    /// The outcome of a command or of a block that asks for a boot, with the decision of that boot.
    /// No other outcome asks for one.
    pub fn with_boot(self, decision: Decision) -> EventOutcome
        ensures { result ≡ with_boot self decision }
    {
        match self {
            EventOutcome::Command(command) => EventOutcome::Command(CommandOutcome {
                id: command.id,
                token: command.token,
                answer: CommandAnswer::Booted(decision),
            }),
            EventOutcome::Block(BlockOutcome::Accepted(number, _)) => {
                EventOutcome::Block(BlockOutcome::Downloaded(number, decision))
            }
            other => other,
        }
    }
}

/// A boot with this decision, by itself or behind what a host's event came to.
pub fn boot_outcome(before: Option<EventOutcome>, decision: Decision) -> EventOutcome
    ensures { result ≡ boot_outcome before decision }
{
    match before {
        Some(outcome) => outcome.with_boot(decision),
        None => EventOutcome::Booted(decision),
    }
}
