//! The record of what a line says.

ghost use Rattle.std.specs.Prelude.{◌≡◌, ◌≤◌, ◌++◌, IfOk, OnOk, drop, length, map, option_map};
ghost use Rattle.block_codec.specs.Words.{word_bytes as row_bytes};
ghost use Rattle.picoboot_cmd.specs.Commands.{written_command};
ghost use Rattle.uf2_place.specs.Blocks.{number_bytes, place_bytes, word_bytes, written_block};
ghost use Rattle.script_words.specs.Made.{arg_size_of, arg_words, array_at, block_of, bytes_at, command_id, command_of, halves, image_bytes, image_range, image_rest, made, made_command, made_of_image, made_own, made_plain, number_at, number_of, own_payload, page_of, record_from, rows_bytes, size_of, span_at, transfer_of, words_bytes};
ghost use Rattle.script_words.specs.Values.{value_from};

use crate::record::Record;
use crate::rows::Row;
use crate::values::Value;
use byteorder::{ByteOrder, LittleEndian};
use info_reply::kinds::{DEVICE, INFO, PARTITION, TABLE, TARGET};
use pico_board::BootKind;
use picoboot_cmd::kinds::{
    ENTER_XIP, ERASE, EXCLUSIVE, EXIT_XIP, OTP_READ, OTP_WRITE, READ, REBOOT, WRITE,
};
use picoboot_cmd::{Cmd, write_cmd};
use std::alloc::{AllocError, Global};
use uf2_place::Uf2;

/// The first word of a UF2 block, the bytes `UF2\n` (UF2 specification, section File format).
const START: u32 = 0x0a32_4655;
/// The second word of a UF2 block.
const SECOND: u32 = 0x9e5d_5157;
/// The last word of a UF2 block.
const END: u32 = 0x0ab1_6f30;
/// The bytes of a payload, a page of the flash.
const PAYLOAD: u32 = 256;
/// The flag of a UF2 block that names its family.
const HAS_FAMILY: u32 = 0x2000;

/// The number that a word says, and 0 where it says none.
fn number_at(values: &[Value], place: usize) -> u32
    ensures { result ≡ number_at (map value_from values.now) place }
{
    match values.get(place) {
        Some(Value::Number(number)) => *number,
        _ => 0,
    }
}

/// The start and the size that a word says, and 0 where it says none.
fn span_at(values: &[Value], place: usize) -> (u32, u32)
    ensures { result ≡ span_at (map value_from values.now) place }
{
    match values.get(place) {
        Some(Value::Span(start, size)) => (*start, *size),
        _ => (0, 0),
    }
}

/// The bytes that a word says, and none where it says none.
fn bytes_at(values: &[Value], place: usize) -> &[u8]
    ensures { result.now ≡ bytes_at (map value_from values.now) place }
{
    match values.get(place) {
        Some(Value::Bytes(bytes)) => bytes.as_slice(),
        _ => &[],
    }
}

/// The size of a payload; 0 where it does not fit into 32 bits.
pub fn size_of(payload: &[u8]) -> u32
    ensures { result ≡ size_of payload.now }
{
    if payload.len() < 0x1_0000_0000 {
        payload.len() as u32
    } else {
        0
    }
}

/// The id of a row's command.
fn command_id(row: Row) -> u8
    ensures { result ≡ command_id row }
{
    match row {
        Row::Exclusive => EXCLUSIVE,
        Row::Erase => ERASE,
        Row::Read => READ,
        Row::Write | Row::WriteRange | Row::WriteRest => WRITE,
        Row::ExitXip => EXIT_XIP,
        Row::EnterXip => ENTER_XIP,
        Row::RebootNormal | Row::RebootBootsel | Row::RebootUpdate | Row::RebootRam => REBOOT,
        Row::OtpRead => OTP_READ,
        Row::OtpWrite => OTP_WRITE,
        _ => INFO,
    }
}

/// The argument size of a row's command.
fn arg_size_of(row: Row) -> u8
    ensures { result ≡ arg_size_of row }
{
    match row {
        Row::Exclusive => 1,
        Row::Erase | Row::Read | Row::Write | Row::WriteRange | Row::WriteRest => 8,
        Row::ExitXip | Row::EnterXip => 0,
        Row::OtpRead | Row::OtpWrite => 5,
        _ => 16,
    }
}

/// The argument bytes of a row's command as words.
fn arg_words(row: Row, values: &[Value], size: u32) -> [u32; 4]
    ensures { result ≡ arg_words row (map value_from values.now) size }
{
    match row {
        Row::Exclusive => [number_at(values, 0), 0, 0, 0],
        Row::Erase | Row::Read => {
            let (start, size) = span_at(values, 0);
            [start, size, 0, 0]
        }
        Row::Write | Row::WriteRange | Row::WriteRest => [number_at(values, 0), size, 0, 0],
        Row::RebootBootsel => [2, 0, 0, 0],
        Row::RebootUpdate => [4, 0, number_at(values, 0), 0],
        Row::RebootRam => {
            let (start, size) = span_at(values, 0);
            [3, 0, start, size]
        }
        Row::OtpRead => [halves(number_at(values, 0), number_at(values, 1)), 0, 0, 0],
        Row::OtpWrite => [halves(number_at(values, 0), size / 4), 0, 0, 0],
        Row::InfoTable => [u32::from(TABLE), 0, 0, 0],
        Row::InfoTarget => [u32::from(TARGET), number_at(values, 0), 0, 0],
        Row::InfoDevice => [u32::from(DEVICE), 0, 0, 0],
        Row::InfoPartition => [u32::from(PARTITION), number_at(values, 0), 0, 0],
        _ => [0; 4],
    }
}

/// A word of two halves, the low one first.
fn halves(low: u32, high: u32) -> u32
    ensures { result ≡ halves low high }
{
    low % 0x1_0000 + 0x1_0000 * (high % 0x1_0000)
}

/// The argument bytes of these words.
#[tactic(auto, unfolding(block_codec::specs::Words::word_bytes))]
fn arg_bytes(words: [u32; 4]) -> [u8; 16]
    ensures { result ≡ words_bytes words }
{
    let mut bytes = [0; 16];
    LittleEndian::write_u32_into(&words, &mut bytes);
    bytes
}

/// The transfer length of a row's command.
fn transfer_of(row: Row, values: &[Value], size: u32) -> u32
    ensures { result ≡ transfer_of row (map value_from values.now) size }
{
    match row {
        Row::Read => span_at(values, 0).1,
        Row::Write | Row::WriteRange | Row::WriteRest | Row::OtpWrite => size,
        Row::OtpRead => 4 * (number_at(values, 1) % 0x1_0000),
        Row::InfoTable | Row::InfoTarget | Row::InfoDevice | Row::InfoPartition => {
            number_at(values, 1)
        }
        _ => 0,
    }
}

/// The command of a row with a payload of this size.
pub fn command_of(row: Row, values: &[Value], token: u32, size: u32) -> Cmd
    ensures { result ≡ command_of row (map value_from values.now) token size }
{
    Cmd {
        token,
        id: command_id(row),
        arg_size: arg_size_of(row),
        transfer: transfer_of(row, values, size),
        args: arg_bytes(arg_words(row, values, size)),
    }
}

/// The number that a value is, and 0 where it is none.
fn number_of(value: &Value) -> u32
    ensures { result ≡ number_of (value_from value.now) }
{
    match value {
        Value::Number(number) => *number,
        _ => 0,
    }
}

/// Appends the four bytes of a number, the lowest first.
#[tactic(auto, unfolding(block_codec::specs::Words::word_bytes))]
fn push_row(value: &Value, payload: &mut Vec<u8>) -> Result<(), AllocError>
    ensures { OnOk result (payload.new.items
        ≡ payload.old.items ++ row_bytes (number_of (value_from value.now))) }
{
    payload.extend_from_slice(&number_of(value).to_le_bytes())
}

/// Appends the four bytes of each number.
fn push_rows(values: &[Value], payload: &mut Vec<u8>) -> Result<(), AllocError>
    ensures { OnOk result (payload.new.items
        ≡ payload.old.items ++ rows_bytes (map value_from values.now)) }
{
    for value in values {
        push_row(value, payload)?;
    }
    Ok(())
}

/// The payload of a row of OTP rows, which stand behind the first. It fails only where memory is
/// out.
fn rows_payload(alloc: Global, values: &[Value]) -> Result<Vec<u8>, AllocError>
    ensures { IfOk result (λ p. p.items ≡ rows_bytes (drop 1 (map value_from values.now))) }
{
    let mut payload = Vec::new(alloc);
    if let [_, rows @ ..] = values {
        push_rows(rows, &mut payload)?;
    }
    Ok(payload)
}

/// A copy of bytes. It fails only where memory is out.
pub fn copied(alloc: Global, bytes: &[u8]) -> Result<Vec<u8>, AllocError>
    ensures { IfOk result (λ copy. copy.items ≡ bytes.now) }
{
    let mut copy = Vec::new(alloc);
    copy.extend_from_slice(bytes)?;
    Ok(copy)
}

/// The payload of a row's command that has none from an image. It fails only where memory is out.
pub fn own_payload(alloc: Global, row: Row, values: &[Value]) -> Result<Vec<u8>, AllocError>
    ensures { IfOk result (λ p. p.items ≡ own_payload row (map value_from values.now)) }
{
    match row {
        Row::Write => copied(alloc, bytes_at(values, 1)),
        Row::OtpWrite => rows_payload(alloc, values),
        _ => Ok(Vec::new(alloc)),
    }
}

/// The bytes of an image in a range, where it lies in the image.
fn image_range(image: &[u8], start: u32, size: u32) -> Option<&[u8]>
    ensures { option_map (λ bytes. bytes.now) result ≡ image_range image.now start size }
{
    let end = start as usize + size as usize;
    if end <= image.len() {
        Some(&image[start as usize..end])
    } else {
        None
    }
}

/// The bytes of an image from an offset on, where it has some there.
fn image_rest(image: &[u8], start: u32) -> Option<&[u8]>
    ensures { option_map (λ bytes. bytes.now) result ≡ image_rest image.now start }
{
    if (start as usize) < image.len() {
        Some(&image[start as usize..])
    } else {
        None
    }
}

/// The bytes of an image that a row takes, where the image has them.
fn image_bytes<'a>(row: Row, values: &[Value], image: &'a [u8]) -> Option<&'a [u8]>
    ensures { option_map (λ bytes. bytes.now) result
        ≡ image_bytes row (map value_from values.now) image.now }
{
    match row {
        Row::WriteRange => {
            let (start, size) = span_at(values, 2);
            image_range(image, start, size)
        }
        Row::WriteRest => image_rest(image, number_at(values, 2)),
        _ => image_rest(image, number_at(values, 7)),
    }
}

/// The command of a row, and its payload.
fn make_command(row: Row, values: &[Value], token: u32, payload: Vec<u8>) -> Record
    ensures { record_from result
        ≡ made_command row (map value_from values.now) token payload.items }
{
    let size = size_of(&payload);
    Record::Command(write_cmd(&command_of(row, values, token, size)), payload)
}

/// The page that begins with these bytes: the first 256 of them, filled with 0xff.
fn page_of(bytes: &[u8]) -> [u8; 256]
    ensures { result ≡ page_of bytes.now }
{
    let mut page = [0xff; 256];
    let count = bytes.len().min(256);
    copy_to_front(&bytes[..count], &mut page);
    page
}

/// Copies bytes to the front of a buffer, whose other bytes stay.
fn copy_to_front(bytes: &[u8], buffer: &mut [u8])
    requires { length bytes.now ≤ length buffer.old }
    ensures { buffer.new ≡ bytes.now ++ drop (length bytes.now) buffer.old }
{
    buffer[..bytes.len()].copy_from_slice(bytes);
}

/// The UF2 block of a row with this page.
fn block_of(values: &[Value], page: [u8; 256]) -> Uf2
    ensures { result ≡ block_of (map value_from values.now) page }
{
    Uf2 {
        flags: HAS_FAMILY,
        address: number_at(values, 4),
        number: number_at(values, 0),
        count: number_at(values, 2),
        family: number_at(values, 5),
        page,
    }
}

/// The first 512 bytes.
fn whole_block(bytes: &[u8]) -> [u8; 512]
    ensures { length bytes.now ≡ 512 → result ≡ bytes.now }
{
    let mut block = [0; 512];
    if bytes.len() == 512 {
        block.copy_from_slice(bytes);
    }
    block
}

/// Appends the four bytes of a word, the lowest first.
#[tactic(auto, unfolding(uf2_place::specs::Blocks::word_bytes))]
fn push_word(word: u32, bytes: &mut Vec<u8>) -> Result<(), AllocError>
    ensures { OnOk result (bytes.new.items ≡ bytes.old.items ++ word_bytes word) }
{
    bytes.extend_from_slice(&word.to_le_bytes())
}

/// Appends the first half of a block's header: two magic words, the flags and the address.
fn push_place(block: &Uf2, bytes: &mut Vec<u8>) -> Result<(), AllocError>
    ensures { OnOk result (bytes.new.items ≡ bytes.old.items ++ place_bytes block.now) }
{
    push_word(START, bytes)?;
    push_word(SECOND, bytes)?;
    push_word(block.flags, bytes)?;
    push_word(block.address, bytes)
}

/// Appends the second half of a block's header: payload size, number, count and family.
fn push_number(block: &Uf2, bytes: &mut Vec<u8>) -> Result<(), AllocError>
    ensures { OnOk result (bytes.new.items ≡ bytes.old.items ++ number_bytes block.now) }
{
    push_word(PAYLOAD, bytes)?;
    push_word(block.number, bytes)?;
    push_word(block.count, bytes)?;
    push_word(block.family, bytes)
}

/// Appends the bytes of a block, with 220 bytes 0 between its page and its last word.
#[tactic(auto, unfolding(uf2_place::specs::Blocks::written_block))]
fn push_block(block: &Uf2, bytes: &mut Vec<u8>) -> Result<(), AllocError>
    ensures { OnOk result (bytes.new.items ≡ bytes.old.items ++ written_block block.now) }
{
    push_place(block, bytes)?;
    push_number(block, bytes)?;
    bytes.extend_from_slice(&block.page)?;
    bytes.extend_from_slice(&[0; 220])?;
    push_word(END, bytes)
}

/// All the bytes of a page.
fn whole_page(page: &[u8; 256]) -> &[u8]
    ensures value { result.now ≡ page.now }
    ensures size { length page.now ≡ 256 }
{
    page
}

/// The bytes of a block. It fails only where memory is out.
pub fn block_bytes(alloc: Global, block: &Uf2) -> Result<[u8; 512], AllocError>
    ensures { IfOk result (λ bytes. bytes ≡ written_block block.now) }
{
    let _page = whole_page(&block.page);
    let mut bytes = Vec::new(alloc);
    push_block(block, &mut bytes)?;
    Ok(whole_block(&bytes))
}

/// The 32 bytes that a word says, and bytes 0 where it says no 32 bytes.
fn raw_command(values: &[Value]) -> [u8; 32]
    ensures { result ≡ array_at 32 (map value_from values.now) }
{
    let mut array = [0; 32];
    let bytes = bytes_at(values, 0);
    if bytes.len() == 32 {
        array.copy_from_slice(bytes);
    }
    array
}

/// The 512 bytes that a word says, and bytes 0 where it says no 512 bytes.
fn raw_block(values: &[Value]) -> [u8; 512]
    ensures { result ≡ array_at 512 (map value_from values.now) }
{
    let mut array = [0; 512];
    let bytes = bytes_at(values, 0);
    if bytes.len() == 512 {
        array.copy_from_slice(bytes);
    }
    array
}

/// The record of a row that takes no bytes of an image and is no command in words. It fails only
/// where memory is out.
fn make_plain(alloc: Global, row: Row, values: &[Value]) -> Result<Record, AllocError>
    ensures { IfOk result (λ it. record_from it ≡ made_plain row (map value_from values.now)) }
{
    match row {
        Row::Power => Ok(Record::PowerOn),
        Row::ResetNormal => Ok(Record::Reset(BootKind::Normal)),
        Row::ResetBootsel => Ok(Record::Reset(BootKind::Bootsel)),
        Row::ResetUpdate => Ok(Record::Reset(BootKind::Update(number_at(values, 0)))),
        Row::CutBefore => Ok(Record::Cut(number_at(values, 0), false, Vec::new(alloc))),
        Row::CutWithin => {
            let pattern = copied(alloc, bytes_at(values, 2))?;
            Ok(Record::Cut(number_at(values, 0), true, pattern))
        }
        Row::Buy => Ok(Record::Buy),
        Row::Block => {
            let block = block_of(values, page_of(bytes_at(values, 6)));
            Ok(Record::Uf2(block_bytes(alloc, &block)?))
        }
        Row::RawCommand => Ok(Record::Command(raw_command(values), Vec::new(alloc))),
        Row::RawPayload => {
            let payload = copied(alloc, bytes_at(values, 1))?;
            Ok(Record::Command(raw_command(values), payload))
        }
        Row::RawBlock => Ok(Record::Uf2(raw_block(values))),
        _ => Ok(Record::End),
    }
}

/// The record of a row that takes bytes of an image. It fails only where memory is out.
fn make_of_image(
    alloc: Global,
    row: Row,
    values: &[Value],
    token: u32,
    bytes: &[u8],
) -> Result<Record, AllocError>
    ensures { IfOk result (λ it. record_from it
        ≡ made_of_image row (map value_from values.now) token bytes.now) }
{
    match row {
        Row::ImageBlock => {
            let block = block_of(values, page_of(bytes));
            Ok(Record::Uf2(block_bytes(alloc, &block)?))
        }
        _ => {
            let payload = copied(alloc, bytes)?;
            Ok(make_command(row, values, token, payload))
        }
    }
}

/// The record of a row that takes no bytes of an image. It fails only where memory is out.
fn make_own(alloc: Global, row: Row, values: &[Value], token: u32) -> Result<Record, AllocError>
    ensures { IfOk result (λ it. record_from it
        ≡ made_own row (map value_from values.now) token) }
{
    if row.is_command() {
        let payload = own_payload(alloc, row, values)?;
        Ok(make_command(row, values, token, payload))
    } else {
        make_plain(alloc, row, values)
    }
}

/// The record of what a line says, with this token where it is a command in words; None where the
/// image has not the bytes that it takes. It fails only where memory is out.
pub fn make_record(
    alloc: Global,
    row: Row,
    values: &[Value],
    token: u32,
    image: &[u8],
) -> Result<Option<Record>, AllocError>
    ensures { IfOk result (λ it. option_map record_from it
        ≡ made row (map value_from values.now) token image.now) }
{
    match row {
        Row::WriteRange | Row::WriteRest | Row::ImageBlock => {
            match image_bytes(row, values, image) {
                Some(bytes) => {
                    let record = make_of_image(alloc, row, values, token, bytes)?;
                    Ok(Some(record))
                }
                None => Ok(None),
            }
        }
        _ => {
            let record = make_own(alloc, row, values, token)?;
            Ok(Some(record))
        }
    }
}
