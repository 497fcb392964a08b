//! A script from a text.

ghost use Rattle.std.specs.Prelude.{◌≡◌, ◌≢◌, ◌-◌, ◌<◌, ◌≤◌, ◌^◌, [], ◌∷◌, Err, IfErr, IfOk, Ok, OnOk, Some, drop, false, length, map};
ghost use Rattle.byteorder.specs.Endian.{little_number};
ghost use Rattle.boot_script.specs.Events.{End, IsWellFormed, IsWritableEvent, base_of, event_from};
ghost use Rattle.boot_script.specs.Judging.{IsScript};
ghost use Rattle.boot_script.specs.Scripts.{IsBeforeEnd, is_end};
ghost use Rattle.script_words.specs.Made.{HasPattern, record_from};
ghost use Rattle.script_words.specs.Splitting.{first_words, word_bytes};
ghost use Rattle.script_text.specs.declared.script.TheConstants.{TEXT_LIMIT};
ghost use Rattle.script_text.specs.declared.script.TextError.{TextError};
ghost use Rattle.script_text.specs.Meaning.{IsScriptTextFault, IsScriptOf};
ghost use Rattle.script_text.specs.Reading.{Adds, Adds_event, HasRoom, IsRead, Reads, behind, line_step, lines_of, read_lines, record_step, room_step, state_from, token_behind, told, words_step};

use crate::script::{MOST_RECORDS, TextError, TextFault, TextScript};
use boot_script::{Event, SCRIPT_LIMIT, write_event};
use byteorder::{ByteOrder, LittleEndian};
use pico_board::BootKind;
use script_words::{Record, Word, cut_at, make_record, read_line, split_line};
use std::alloc::{AllocError, Global};

/// What was read of a text so far.
#[derive(Drop)]
pub struct Begun {
    /// The records, without an end.
    pub script: TextScript,
    /// The token of the next command in words without one.
    pub next: u32,
    /// Whether an `end` line came.
    pub ended: bool,
}

/// The token of a command.
fn token_of(command: &[u8; 32]) -> u32
    ensures { result ≡ little_number 4 (drop 4 command.now) }
{
    LittleEndian::read_u32(&command[4..])
}

/// The token of the next command in words without one, behind an event.
pub fn token_behind(next: u32, event: &Event<'_>) -> u32
    ensures { result ≡ token_behind next (event_from event.now) }
{
    match event {
        Event::Command(command, _) => token_of(command).wrapping_add(1),
        _ => next,
    }
}

/// The record of a line's words, or its first fault but those of the limits.
fn read_words(
    alloc: Global,
    image: &[u8],
    next: u32,
    words: &[Word<'_>],
) -> Result<Result<Record, TextFault>, AllocError>
    requires { length words.now ≤ 4100 }
    ensures { IfOk result (λ read. record_step read
        ≡ words_step image.now next (map word_bytes words.now)) }
{
    let line = match read_line(alloc, words)? {
        Ok(line) => line,
        Err(fault) => return Ok(Err(TextFault::Words(fault))),
    };
    let token = line.token.unwrap_or(next);
    match make_record(alloc, line.row, &line.values, token, image)? {
        Some(record) => Ok(Ok(record)),
        None => Ok(Err(TextFault::Image)),
    }
}

/// All the bytes of an array.
fn whole<const N: usize>(array: &[u8; N]) -> &[u8]
    ensures value { result.now ≡ array.now }
    ensures size { length array.now ≡ N }
{
    array
}

/// The base of a reset, and 0 where it has none.
fn reset_base(kind: BootKind) -> u32
    ensures { result ≡ base_of kind }
{
    match kind {
        BootKind::Normal | BootKind::Bootsel => 0,
        BootKind::Update(base) => base,
    }
}

/// A number whose range the type of the event's parts fixes, so that the event has its form.
fn fixed_number(event: &Event<'_>) -> usize
    requires { IsWritableEvent (event_from event.now) }
    ensures { IsWellFormed (event_from event.now) }
{
    match event {
        Event::Command(command, _) => whole(command).len(),
        Event::Uf2(block) => whole(block).len(),
        Event::Cut(left, _, _) => *left as usize,
        Event::Reset(kind) => reset_base(*kind) as usize,
        Event::End | Event::PowerOn | Event::Buy => 0,
    }
}

/// Appends an event that is no end, which stands on the line of this number.
fn add_event(
    alloc: Global,
    number: u32,
    event: &Event<'_>,
    begun: &mut Begun,
) -> Result<(), TextError>
    requires room { HasRoom begun.old }
    requires pattern { HasPattern (event_from event.now) }
    requires more { is_end (event_from event.now) ≡ false }
    ensures room { OnOk result (HasRoom begun.new) }
    ensures fits { OnOk result (room_step (state_from begun.old) (event_from event.now)
        ≡ Ok (Adds_event (event_from event.now))) }
    ensures adds { OnOk result
        (Adds begun.old.script begun.new.script (event_from event.now ∷ [])) }
    ensures inside { OnOk result (IsBeforeEnd (event_from event.now)) }
    ensures state { OnOk result
        (state_from begun.new ≡ behind (state_from begun.old) (event_from event.now)) }
    ensures err { IfErr result (λ error. error ≢ TextError.Memory
        → told number (room_step (state_from begun.old) (event_from event.now)) ≡ Some error) }
{
    if begun.script.records >= MOST_RECORDS {
        return Err(TextError::Line(number, TextFault::TooMany));
    }
    if event.size() >= SCRIPT_LIMIT as usize - begun.script.bytes.len() {
        return Err(TextError::Line(number, TextFault::TooLong));
    }
    let _number = fixed_number(event);
    begun.script.records += 1;
    begun.next = token_behind(begun.next, event);
    match write_event(alloc, event, &mut begun.script.bytes) {
        Ok(()) => Ok(()),
        Err(_) => Err(TextError::Memory),
    }
}

/// Appends the record of a line, where the line has one.
fn add_line(
    alloc: Global,
    image: &[u8],
    number: u32,
    line: &[u8],
    begun: &mut Begun,
) -> Result<(), TextError>
    requires room { HasRoom begun.old }
    ensures room { OnOk result (HasRoom begun.new) }
    ensures ok { OnOk result (Reads image.now number begun.old line.now begun.new) }
    ensures err { IfErr result (λ error. error ≢ TextError.Memory
        → told number (line_step image.now (state_from begun.old) (first_words line.now))
        ≡ Some error) }
{
    let words = match split_line(alloc, line) {
        Ok(words) => words,
        Err(_) => return Err(TextError::Memory),
    };
    if words.is_empty() {
        return Ok(());
    }
    if begun.ended {
        return Err(TextError::Line(number, TextFault::BehindEnd));
    }
    let record = match read_words(alloc, image, begun.next, &words) {
        Ok(Ok(record)) => record,
        Ok(Err(fault)) => return Err(TextError::Line(number, fault)),
        Err(_) => return Err(TextError::Memory),
    };
    let event = record.event();
    if event.is_end() {
        begun.ended = true;
        return Ok(());
    }
    add_event(alloc, number, &event, begun)
}

/// Appends the records of a text.
fn add_lines(alloc: Global, text: &[u8], image: &[u8], begun: &mut Begun) -> Result<(), TextError>
    requires room { HasRoom begun.old }
    requires few { length text.now ≤ TEXT_LIMIT }
    ensures room { OnOk result (HasRoom begun.new) }
    ensures ok { OnOk result (IsRead image.now begun.old text.now begun.new) }
    ensures err { IfErr result (λ error. error ≢ TextError.Memory
        → read_lines image.now 1 (state_from begun.old) (lines_of text.now) ≡ Err error) }
{
    let mut rest = text;
    let mut number = 0;
    'lines: loop {
        let (line, behind) = cut_at(b'\n', rest);
        number += 1;
        match add_line(alloc, image, number, line, begun) {
            Ok(()) => {}
            Err(fault) => return Err(fault),
        }
        match behind {
            Some(more) => rest = more,
            None => return Ok(()),
        }
    }
}

/// Appends the end.
fn add_end(alloc: Global, script: &mut TextScript) -> Result<(), AllocError>
    requires { script.old.records < 2 ^ 32 - 1 }
    ensures { OnOk result (Adds script.old script.new (End ∷ [])) }
{
    script.records += 1;
    write_event(alloc, &Event::End, &mut script.bytes)
}

/// The script of a text whose lines may take bytes of an image, which has no byte where there is
/// none; or the first fault. `Memory` comes where there is no memory.
pub fn read_text(alloc: Global, text: &[u8], image: &[u8]) -> Result<TextScript, TextError>
    requires { length text.now ≤ TEXT_LIMIT }
    ensures ok { IfOk result (IsScriptOf image.now text.now) }
    ensures script { IfOk result (λ script. IsScript script.bytes.items) }
    ensures err { IfErr result (λ fault. fault ≢ TextError.Memory
        → IsScriptTextFault image.now text.now fault) }
{
    let mut begun = Begun {
        script: TextScript {
            bytes: Vec::new(alloc),
            records: 0,
        },
        next: 1,
        ended: false,
    };
    match add_lines(alloc, text, image, &mut begun) {
        Ok(()) => {}
        Err(fault) => return Err(fault),
    }
    let mut script = begun.script;
    match add_end(alloc, &mut script) {
        Ok(()) => Ok(script),
        Err(_) => Err(TextError::Memory),
    }
}
