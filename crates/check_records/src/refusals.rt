//! The records of a script that did nothing, as its events are told one after another.

ghost use Rattle.std.specs.Prelude.{◌≡◌, ◌+◌, ◌^◌, ◌<◌, ◌∷◌, if◌then◌else◌, [], None, Some, false};
ghost use Rattle.text_lines.specs.Outcomes.{has_reply};
ghost use Rattle.text_lines.specs.declared.outcome.EventOutcome.TheVariants as events;
ghost use Rattle.check_records.specs.Idle.{is_idle, is_idle_block, is_idle_command, is_lost};
ghost use Rattle.check_records.specs.Noting.{HasNotedOutcome, count_in, refused_with};
ghost use Rattle.check_records.specs.Seeing.{came_in};

use crate::found::Refused;
use boot_tape::Note;
use info_reply::kinds::INFO;
use picoboot_cmd::kinds::{OTP_READ, READ};
use text_lines::{BlockOutcome, CommandAnswer, CommandOutcome, EventOutcome};

/// What is known of the records that did nothing.
#[derive(Drop)]
pub(crate) struct Refusals {
    /// Whether power was lost.
    pub lost: bool,
    /// Those that did nothing.
    pub found: Option<Refused>,
}

/// Whether a command with this id is answered with bytes: a read, an info command, an OTP read.
fn has_reply(id: u8) -> bool
    ensures { result ≡ has_reply id }
{
    id == READ || id == INFO || id == OTP_READ
}

/// What came of a command, if it is no read and has a status other than 0.
fn idle_command(command: &CommandOutcome) -> Option<EventOutcome>
    ensures { result ≡ (if is_idle_command command.now then Some (events.Command command.now)
        else None) }
{
    let CommandAnswer::Refused(status) = &command.answer else {
        return None;
    };
    if has_reply(command.id) {
        return None;
    }
    Some(EventOutcome::Command(CommandOutcome {
        id: command.id,
        token: command.token,
        answer: CommandAnswer::Refused(*status),
    }))
}

/// What came of bytes that may be a block, if they break its form or it is refused.
fn idle_block(block: &BlockOutcome) -> Option<EventOutcome>
    ensures { result ≡ (if is_idle_block block.now then Some (events.Block block.now)
        else None) }
{
    match block {
        BlockOutcome::BadForm(fault) => Some(EventOutcome::Block(BlockOutcome::BadForm(*fault))),
        BlockOutcome::Refused(refusal) => {
            Some(EventOutcome::Block(BlockOutcome::Refused(*refusal)))
        }
        BlockOutcome::Accepted(_, _) | BlockOutcome::Downloaded(_, _) => None,
    }
}

/// What came of an event, if it did nothing. Power was lost before it or was not.
#[tactic(auto, unfolding(crate::specs::Idle::is_idle))]
fn idle_of(lost: bool, outcome: &EventOutcome) -> Option<EventOutcome>
    ensures { result ≡ (if is_idle lost outcome.now then Some outcome.now else None) }
{
    match outcome {
        EventOutcome::Off if !lost => Some(EventOutcome::Off),
        EventOutcome::Ignored => Some(EventOutcome::Ignored),
        EventOutcome::NothingToBuy => Some(EventOutcome::NothingToBuy),
        EventOutcome::BadMagic => Some(EventOutcome::BadMagic),
        EventOutcome::Command(command) => idle_command(command),
        EventOutcome::Block(block) => idle_block(block),
        EventOutcome::Off
        | EventOutcome::Ended
        | EventOutcome::CutArmed
        | EventOutcome::PowerLost
        | EventOutcome::Booted(_)
        | EventOutcome::Bought => None,
    }
}

/// Whether power was lost in a step of the event.
fn is_lost(outcome: &EventOutcome) -> bool
    ensures { result ≡ is_lost outcome.now }
{
    matches!(outcome, EventOutcome::PowerLost)
}

impl Refusals {
    /// Nothing is known yet.
    pub(crate) fn begin() -> Refusals
        ensures lost { result.lost ≡ false }
        ensures found { result.found ≡ None }
    {
        Refusals {
            lost: false,
            found: None,
        }
    }

    /// Notes one more event that did nothing.
    fn add(&mut self, outcome: EventOutcome, number: u32)
        requires few { count_in self.old.found + 1 < 2 ^ 32 }
        ensures found { self.new.found ≡ refused_with self.old.found
            (record { number = number; outcome = outcome } ∷ []) }
        ensures lost { self.new.lost ≡ self.old.lost }
    {
        match &mut self.found {
            Some(refused) => refused.count += 1,
            None => {
                self.found = Some(Refused {
                    count: 1,
                    first: number,
                    outcome,
                });
            }
        }
    }

    /// Notes what came of an event, where all its steps completed.
    fn note_whole(&mut self, outcome: &EventOutcome, number: u32)
        requires few { count_in self.old.found + 1 < 2 ^ 32 }
        ensures { HasNotedOutcome self.old outcome.now number self.new }
    {
        if let Some(idle) = idle_of(self.lost, outcome) {
            self.add(idle, number);
        }
        self.lost = self.lost || is_lost(outcome);
    }

    /// Notes what came of the event of this number.
    pub(crate) fn note(&mut self, note: &Note, number: u32)
        requires few { count_in self.old.found + 1 < 2 ^ 32 }
        ensures { HasNotedOutcome self.old (came_in note.now) number self.new }
    {
        if note.whole {
            self.note_whole(&note.outcome, number);
        } else {
            self.lost = true;
        }
    }
}
