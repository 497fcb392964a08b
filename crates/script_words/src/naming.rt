//! What the line of an event says.

ghost use Rattle.std.specs.Prelude.{◌≡◌, ◌≤◌, ◌&&◌, ◌++◌, bytes_eq, IfOk, OnOk, map, option_map};
ghost use Rattle.boot_script.specs.Events.{event_from};
ghost use Rattle.picoboot_cmd.specs.Commands.{written_command};
ghost use Rattle.uf2_place.specs.Blocks.{word_at};
ghost use Rattle.script_words.specs.Naming.{are_fit, block_fields, block_line, block_values, command_line, command_values, cut_line, fits, info_row, is_said, line_of, named_command, page_in, raw_command, reboot_row, row_of_command, row_values, short_line, told_token};
ghost use Rattle.script_words.specs.Values.{line_from, value_from};

use crate::forms::Form;
use crate::making::{block_bytes, command_of, copied, own_payload, size_of};
use crate::rows::Row;
use crate::values::{Line, Value};
use boot_script::Event;
use byteorder::{ByteOrder, LittleEndian};
use info_reply::kinds::{DEVICE, INFO, PARTITION, TABLE, TARGET};
use pico_board::BootKind;
use picoboot_cmd::kinds::{
    ENTER_XIP, ERASE, EXCLUSIVE, EXIT_XIP, OTP_READ, OTP_WRITE, READ, REBOOT, WRITE,
};
use picoboot_cmd::{Cmd, read_cmd, write_cmd};
use std::alloc::{AllocError, Global};
use uf2_place::Uf2;

/// The row of a reboot with these flags.
fn reboot_row(flags: u32) -> Option<Row>
    ensures { result ≡ reboot_row flags }
{
    match flags {
        0 => Some(Row::RebootNormal),
        2 => Some(Row::RebootBootsel),
        3 => Some(Row::RebootRam),
        4 => Some(Row::RebootUpdate),
        _ => None,
    }
}

/// The row of an info command of this kind.
fn info_row(kind: u32) -> Option<Row>
    ensures { result ≡ info_row kind }
{
    if kind == u32::from(TABLE) {
        Some(Row::InfoTable)
    } else if kind == u32::from(TARGET) {
        Some(Row::InfoTarget)
    } else if kind == u32::from(DEVICE) {
        Some(Row::InfoDevice)
    } else if kind == u32::from(PARTITION) {
        Some(Row::InfoPartition)
    } else {
        None
    }
}

/// The row that a command may be of, by its id and its first argument word.
fn row_of_command(cmd: &Cmd) -> Option<Row>
    ensures { result ≡ row_of_command cmd.now }
{
    match cmd.id {
        EXCLUSIVE => Some(Row::Exclusive),
        ERASE => Some(Row::Erase),
        READ => Some(Row::Read),
        WRITE => Some(Row::Write),
        EXIT_XIP => Some(Row::ExitXip),
        ENTER_XIP => Some(Row::EnterXip),
        REBOOT => reboot_row(cmd.reboot_flags()),
        OTP_READ => Some(Row::OtpRead),
        OTP_WRITE => Some(Row::OtpWrite),
        INFO => info_row(cmd.address()),
        _ => None,
    }
}

/// The words of a payload: what the words of a line of OTP rows say behind the first.
fn push_words(payload: &[u8], values: &mut Vec<Value>) -> Result<(), AllocError>
    ensures { OnOk result (map value_from values.new.items
        ≡ map value_from values.old.items ++ row_values payload.now) }
{
    for place in 0..payload.len() / 4 {
        values.push(Value::Number(LittleEndian::read_u32(&payload[4 * place..])))?;
    }
    Ok(())
}

/// What the words behind the first say in a line of this row for a command and its payload. It
/// fails only where memory is out.
fn command_values(
    alloc: Global,
    row: Row,
    cmd: &Cmd,
    payload: &[u8],
) -> Result<Vec<Value>, AllocError>
    ensures { IfOk result
        (λ values. map value_from values.items ≡ command_values row cmd.now payload.now) }
{
    let mut values = Vec::new(alloc);
    match row {
        Row::Exclusive => values.push(Value::Number(cmd.address()))?,
        Row::Erase | Row::Read => values.push(Value::Span(cmd.address(), cmd.size()))?,
        Row::Write => {
            values.push(Value::Number(cmd.address()))?;
            values.push(Value::Bytes(copied(alloc, payload)?))?;
        }
        Row::RebootNormal | Row::RebootBootsel => values.push(Value::Plain)?,
        Row::RebootUpdate => values.push(Value::Number(cmd.reboot_p0()))?,
        Row::RebootRam => values.push(Value::Span(cmd.reboot_p0(), cmd.reboot_p1()))?,
        Row::OtpRead => {
            values.push(Value::Number(cmd.address() % 0x1_0000))?;
            values.push(Value::Number(cmd.address() / 0x1_0000))?;
        }
        Row::OtpWrite => {
            values.push(Value::Number(cmd.address() % 0x1_0000))?;
            push_words(payload, &mut values)?;
        }
        Row::InfoTable | Row::InfoDevice => {
            values.push(Value::Plain)?;
            values.push(Value::Number(cmd.transfer))?;
        }
        Row::InfoTarget | Row::InfoPartition => {
            values.push(Value::Number(cmd.size()))?;
            values.push(Value::Number(cmd.transfer))?;
        }
        _ => {}
    }
    Ok(values)
}

/// Whether a word of the form may say this.
fn fits(form: Form, value: &Value) -> bool
    ensures { result ≡ fits form (value_from value.now) }
{
    match (form, value) {
        (Form::Number(most), Value::Number(number)) => *number <= most,
        (Form::OtpRow, Value::Number(number)) => *number < 0x1000,
        (Form::Bytes(least, most), Value::Bytes(bytes)) => {
            least as usize <= bytes.len() && bytes.len() <= most as usize
        }
        _ => true,
    }
}

/// Whether the words of a line of the row may say this.
fn are_fit(row: Row, values: &[Value]) -> bool
    ensures { result ≡ are_fit row (map value_from values.now) }
{
    if !row.has_words(values.len()) {
        return false;
    }
    let mut place = 0;
    for value in values {
        if !fits(row.form_at(place), value) {
            return false;
        }
        place += 1;
    }
    true
}

/// Whether these are the bytes and the payload of a command.
fn is_sent(cmd: &Cmd, own: &[u8], command: &[u8; 32], payload: &[u8]) -> bool
    ensures { result ≡ (bytes_eq own.now payload.now
        && bytes_eq (written_command cmd.now) command.now) }
{
    own == payload && write_cmd(cmd) == *command
}

/// Whether a command with this payload is what the line says. It fails only where memory is out.
fn is_said(
    alloc: Global,
    line: &Line,
    token: u32,
    command: &[u8; 32],
    payload: &[u8],
) -> Result<bool, AllocError>
    ensures { IfOk result (λ said. said
        ≡ is_said (line_from line.now) token command.now payload.now) }
{
    if !are_fit(line.row, &line.values) {
        return Ok(false);
    }
    let own = own_payload(alloc, line.row, &line.values)?;
    let cmd = command_of(line.row, &line.values, token, size_of(&own));
    Ok(is_sent(&cmd, &own, command, payload))
}

/// The line of a command by its bytes. It fails only where memory is out.
fn raw_command(alloc: Global, command: &[u8; 32], payload: &[u8]) -> Result<Line, AllocError>
    ensures { IfOk result (λ line. line_from line ≡ raw_command command.now payload.now) }
{
    let mut values = Vec::new(alloc);
    values.push(Value::Bytes(copied(alloc, command)?))?;
    if payload.is_empty() {
        return Ok(Line {
            row: Row::RawCommand,
            values,
            token: None,
        });
    }
    values.push(Value::Bytes(copied(alloc, payload)?))?;
    Ok(Line {
        row: Row::RawPayload,
        values,
        token: None,
    })
}

/// A token, where it is not the one that comes next.
fn told_token(next: u32, token: u32) -> Option<u32>
    ensures { result ≡ told_token next token }
{
    if token == next { None } else { Some(token) }
}

/// The line in words of a command, where its bytes are what such a line says. It fails only where
/// memory is out.
fn named_command(
    alloc: Global,
    command: &[u8; 32],
    payload: &[u8],
    next: u32,
) -> Result<Option<Line>, AllocError>
    ensures { IfOk result (λ line. option_map line_from line
        ≡ named_command next command.now payload.now) }
{
    let Ok(cmd) = read_cmd(command) else {
        return Ok(None);
    };
    let Some(row) = row_of_command(&cmd) else {
        return Ok(None);
    };
    let values = command_values(alloc, row, &cmd, payload)?;
    let token = told_token(next, cmd.token);
    let line = Line { row, values, token };
    if is_said(alloc, &line, cmd.token, command, payload)? {
        Ok(Some(line))
    } else {
        Ok(None)
    }
}

/// The line of a command. It fails only where memory is out.
fn command_line(
    alloc: Global,
    command: &[u8; 32],
    payload: &[u8],
    next: u32,
) -> Result<Line, AllocError>
    ensures { IfOk result (λ line. line_from line ≡ command_line next command.now payload.now) }
{
    match named_command(alloc, command, payload, next)? {
        Some(line) => Ok(line),
        None => raw_command(alloc, command, payload),
    }
}

/// The page of a block.
fn page_in(bytes: &[u8; 512]) -> [u8; 256]
    ensures { result ≡ page_in bytes.now }
{
    let mut page = [0; 256];
    page.copy_from_slice(&bytes[32..288]);
    page
}

/// The word at an offset of a block.
fn word_at(bytes: &[u8; 512], at: usize) -> u32
    requires { at ≤ 508 }
    ensures { result ≡ word_at bytes.now at }
{
    LittleEndian::read_u32(&bytes[at..])
}

/// The fields of a block, with the one flag that its line in words has.
fn block_fields(bytes: &[u8; 512]) -> Uf2
    ensures { result ≡ block_fields bytes.now }
{
    Uf2 {
        flags: 0x2000,
        address: word_at(bytes, 12),
        number: word_at(bytes, 20),
        count: word_at(bytes, 24),
        family: word_at(bytes, 28),
        page: page_in(bytes),
    }
}

/// What the words behind the first say in the line of a block. It fails only where memory is out.
fn block_values(alloc: Global, block: &Uf2) -> Result<Vec<Value>, AllocError>
    ensures { IfOk result (λ values. map value_from values.items ≡ block_values block.now) }
{
    let mut values = Vec::new(alloc);
    values.push(Value::Number(block.number))?;
    values.push(Value::Plain)?;
    values.push(Value::Number(block.count))?;
    values.push(Value::Plain)?;
    values.push(Value::Number(block.address))?;
    values.push(Value::Number(block.family))?;
    values.push(Value::Bytes(copied(alloc, &block.page)?))?;
    Ok(values)
}

/// The line of a UF2 block. It fails only where memory is out.
fn block_line(alloc: Global, bytes: &[u8; 512]) -> Result<Line, AllocError>
    ensures { IfOk result (λ line. line_from line ≡ block_line bytes.now) }
{
    let block = block_fields(bytes);
    if block_bytes(alloc, &block)? == *bytes {
        let values = block_values(alloc, &block)?;
        return Ok(Line {
            row: Row::Block,
            values,
            token: None,
        });
    }
    let mut values = Vec::new(alloc);
    values.push(Value::Bytes(copied(alloc, bytes)?))?;
    Ok(Line {
        row: Row::RawBlock,
        values,
        token: None,
    })
}

/// A line with one word more at most. It fails only where memory is out.
fn short_line(alloc: Global, row: Row, value: Option<Value>) -> Result<Line, AllocError>
    ensures { IfOk result (λ line. line_from line
        ≡ short_line row (option_map value_from value)) }
{
    let mut values = Vec::new(alloc);
    if let Some(value) = value {
        values.push(value)?;
    }
    Ok(Line {
        row,
        values,
        token: None,
    })
}

/// The line of a cut. It fails only where memory is out.
fn cut_line(alloc: Global, left: u32, within: bool, pattern: &[u8]) -> Result<Line, AllocError>
    ensures { IfOk result (λ line. line_from line ≡ cut_line left within pattern.now) }
{
    let mut values = Vec::new(alloc);
    values.push(Value::Number(left))?;
    values.push(Value::Plain)?;
    if !within {
        return Ok(Line {
            row: Row::CutBefore,
            values,
            token: None,
        });
    }
    values.push(Value::Bytes(copied(alloc, pattern)?))?;
    Ok(Line {
        row: Row::CutWithin,
        values,
        token: None,
    })
}

/// The line of an event, where a command in words without a token would have the token `next`: in
/// words where some line in words gives the event, and otherwise by its bytes. It fails only where
/// memory is out.
pub fn name_event(alloc: Global, event: &Event<'_>, next: u32) -> Result<Line, AllocError>
    ensures { IfOk result (λ line. line_from line ≡ line_of next (event_from event.now)) }
{
    match event {
        Event::End => short_line(alloc, Row::End, None),
        Event::Command(command, payload) => command_line(alloc, command, payload, next),
        Event::Uf2(block) => block_line(alloc, block),
        Event::Cut(left, within, pattern) => cut_line(alloc, *left, *within, pattern),
        Event::PowerOn => short_line(alloc, Row::Power, None),
        Event::Reset(kind) => match kind {
            BootKind::Normal => short_line(alloc, Row::ResetNormal, Some(Value::Plain)),
            BootKind::Bootsel => short_line(alloc, Row::ResetBootsel, Some(Value::Plain)),
            BootKind::Update(base) => {
                short_line(alloc, Row::ResetUpdate, Some(Value::Number(*base)))
            }
        },
        Event::Buy => short_line(alloc, Row::Buy, None),
    }
}
