//! A command and its answer in a line.

ghost use Rattle.std.specs.Prelude.{◌≡◌, ◌+◌, ◌≤◌, ◌++◌, length};
ghost use Rattle.std.specs.List.{flat_map};
ghost use Rattle.text_words.specs.Writing.{hex_digits};
ghost use Rattle.text_lines.specs.Events.{answer_text, booted_text, command_text, reply_text, status_in, status_text};

use crate::decisions::{put_decision, put_ram_start};
use crate::outcome::{CommandAnswer, CommandOutcome, ReplySum};
use arrayvec::ArrayString;
use boot_rules::Decision;
use picoboot_cmd::kinds::OK;
use text_words::{put_byte, put_number, put_pair, put_text, put_word, set_text};

/// Appends the bytes of a digest, each as two hexadecimal digits.
fn put_digest(line: &mut ArrayString<320>, digest: &[u8; 32])
    requires room { length line.old.bytes + 64 ≤ 320 }
    ensures bytes { line.new.bytes ≡ line.old.bytes ++ flat_map (hex_digits 2) digest.now }
    ensures len { length line.new.bytes ≡ length line.old.bytes + 64 }
{
    for byte in digest {
        put_pair(line, *byte);
    }
}

/// Appends the number of reply bytes and their digest.
fn put_reply(line: &mut ArrayString<320>, reply: &ReplySum)
    requires room { length line.old.bytes + 89 ≤ 320 }
    ensures bytes { line.new.bytes ≡ line.old.bytes ++ reply_text reply.now }
{
    put_text(line, " reply=");
    put_number(line, reply.count);
    put_text(line, " sha256=");
    put_digest(line, &reply.digest);
}

/// Appends the boot that a host's event asked for.
pub(crate) fn put_boot(line: &mut ArrayString<320>, decision: &Decision)
    requires room { length line.old.bytes + 147 ≤ 320 }
    ensures bytes { line.new.bytes ≡ line.old.bytes ++ booted_text decision.now }
{
    put_text(line, " boot ");
    put_decision(line, decision);
}

/// Replaces the line by a command's id, token and status.
fn set_status(line: &mut ArrayString<320>, id: u8, token: u32, status: u32)
    ensures text { line.new.bytes ≡ status_text id token status }
    ensures most { length line.new.bytes ≤ 43 }
{
    set_text(line, "cmd ");
    put_byte(line, id);
    put_text(line, " token=");
    put_word(line, token);
    put_text(line, " status=");
    put_number(line, status);
}

/// The status of an answer.
fn status_in(answer: &CommandAnswer) -> u32
    ensures { result ≡ status_in answer.now }
{
    match answer {
        CommandAnswer::Refused(status) => *status,
        CommandAnswer::Done
        | CommandAnswer::Replied(_)
        | CommandAnswer::Booted(_)
        | CommandAnswer::RamStarted(_) => OK,
    }
}

/// Appends what an answer has behind its status.
fn put_answer(line: &mut ArrayString<320>, answer: &CommandAnswer)
    requires room { length line.old.bytes + 147 ≤ 320 }
    ensures bytes { line.new.bytes ≡ line.old.bytes ++ answer_text answer.now }
{
    match answer {
        CommandAnswer::Refused(_) | CommandAnswer::Done => {}
        CommandAnswer::Replied(reply) => put_reply(line, reply),
        CommandAnswer::Booted(decision) => put_boot(line, decision),
        CommandAnswer::RamStarted(image) => put_ram_start(line, image),
    }
}

/// Replaces the line by a command and its answer.
pub(crate) fn set_command(line: &mut ArrayString<320>, command: &CommandOutcome)
    ensures { line.new.bytes ≡ command_text command.now }
{
    set_status(line, command.id, command.token, status_in(&command.answer));
    put_answer(line, &command.answer);
}
