//! The reply of an info command.

ghost use Rattle.std.specs.Prelude.{◌≡◌, ◌≢◌, ◌+◌, ◌*◌, ◌≤◌, ◌++◌, ℕ, List, IfSome, Some, flat_map, is_some, length};
ghost use Rattle.std.specs.Option.{option_map};
ghost use Rattle.block_codec.specs.Words.{bytes_of};
ghost use Rattle.part_table.specs.Partitions.{part_at};
ghost use Rattle.part_table.specs.Written.{written_partition};
ghost use Rattle.picoboot_cmd.specs.Checks.{first_failing};
ghost use Rattle.info_reply.specs.Asks.{has_part, is_there, reply_checks};
ghost use Rattle.info_reply.specs.Infos.{bit, cpu_number, device_words, info_of, part_words, table_words, target_words, location_and_flags};

use crate::ask::{Ask, Device};
use crate::bytes::{part_bytes, put_words};
use crate::kinds::{BUFFER_TOO_SMALL, NOT_FOUND};
use arrayvec::ArrayVec;
use block_codec::Version;
use part_table::{Partition, Table, Target};
use pico_board::Cpu;
use picoboot_cmd::kinds::OK;
use picoboot_cmd::{Cmd, Reply};

/// The bit of a first word that says that there is a table.
const HAS_TABLE: u32 = 0x8000_0000;

/// The bit of a first word that says that the table is the only one.
const SINGLETON: u32 = 0x100;

/// Appends the location word and the flag word of each partition.
fn put_parts(bytes: &mut ArrayVec<u8, 156>, parts: &[Partition])
    requires { length bytes.old.items + 8 * length parts.now ≤ 156 }
    ensures { bytes.new.items ≡ bytes.old.items
        ++ bytes_of (flat_map location_and_flags parts.now) }
{
    for part in parts {
        put_words(bytes, &[part.location, part.flags]);
    }
}

/// The version of a table as a word.
fn version_word(version: Version) -> u32
    ensures { result ≡ 65536 * version.major + version.minor }
{
    65536 * u32::from(version.major) + u32::from(version.minor)
}

/// The reply's bytes of a table that stands in this slot.
fn table_bytes(slot: u32, table: &Table) -> ArrayVec<u8, 156>
    ensures { result.items ≡ bytes_of (table_words slot (Some table.now)) }
{
    let singleton = if table.singleton { SINGLETON } else { 0 };
    let mut bytes = ArrayVec::new();
    put_words(
        &mut bytes,
        &[
            HAS_TABLE + singleton + table.parts.len() as u32,
            version_word(table.version),
            slot,
            table.unpartitioned,
        ],
    );
    put_parts(&mut bytes, table.parts.as_slice());
    bytes
}

/// The bytes of these words.
fn bytes_of(words: &[u32]) -> ArrayVec<u8, 156>
    requires { length words.now ≤ 4 }
    ensures { result.items ≡ bytes_of words.now }
{
    let mut bytes = ArrayVec::new();
    put_words(&mut bytes, words);
    bytes
}

/// The reply's bytes of a target.
fn target_bytes(target: &Target) -> ArrayVec<u8, 156>
    ensures { result.items ≡ bytes_of (target_words (Some target.now)) }
{
    let gated = u32::from(target.gated);
    let stay = u32::from(target.stay);
    bytes_of(&[1, target.window.start, target.window.len, gated + 2 * stay])
}

/// The number of a processor.
fn cpu_number(cpu: Cpu) -> u32
    ensures { result ≡ cpu_number cpu }
{
    match cpu {
        Cpu::Arm => 0,
        Cpu::Riscv => 1,
    }
}

/// The reply's bytes of the board.
fn device_bytes(device: &Device) -> ArrayVec<u8, 156>
    ensures { result.items ≡ bytes_of (device_words device.now) }
{
    bytes_of(&[
        device.flash_len,
        cpu_number(device.cpu),
        device.flags,
        device.slot,
    ])
}

/// The bytes of the partition of a number; None where the table has no such partition.
fn indexed_bytes(table: &Table, i: u32) -> Option<ArrayVec<u8, 156>>
    ensures value { IfSome result
        (λ bytes. bytes.items ≡ bytes_of (part_words (Some table.now) i)) }
    ensures some { is_some result ≡ has_part (Some table.now) i }
{
    let parts = table.parts.as_slice();
    if i as usize >= parts.len() {
        return None;
    }
    Some(part_bytes(&parts[i as usize]))
}

/// The bytes of the reply; None where the partition that is asked for is not there.
fn reply_bytes(
    ask: &Ask,
    device: &Device,
    table_slot: u32,
    table: Option<&Table>,
    target: Option<&Target>,
) -> Option<ArrayVec<u8, 156>>
    ensures value { IfSome result (λ bytes. bytes.items ≡ bytes_of (info_of device.now table_slot
        (option_map (λ t. t.now) table.entry) (option_map (λ t. t.now) target.entry) ask.now)) }
    ensures some { is_some result ≡ is_there (option_map (λ t. t.now) table.entry) ask.now }
{
    match ask {
        Ask::Table => match table {
            Some(table) => Some(table_bytes(table_slot, table)),
            None => Some(bytes_of(&[0])),
        },
        Ask::Target(_) => match target {
            Some(target) => Some(target_bytes(target)),
            None => Some(bytes_of(&[0])),
        },
        Ask::Device => Some(device_bytes(device)),
        Ask::Partition(i) => match table {
            Some(table) => indexed_bytes(table, *i),
            None => None,
        },
    }
}

/// Puts the reply of an info command, which is no longer than the transfer length, and answers 0.
/// Or it puts nothing, and answers the first status that applies: 16, the partition that is asked
/// for is not there; or 12, the reply is longer than the transfer length. The table stands in the
/// slot `table_slot`, and `target` is that of the family that is asked for.
pub fn info_put<R: Reply>(
    cmd: &Cmd,
    ask: &Ask,
    device: &Device,
    table_slot: u32,
    table: Option<&Table>,
    target: Option<&Target>,
    reply: &mut R,
) -> u32
    ensures status { result ≡ first_failing (reply_checks
        (option_map (λ t. t.now) table.entry) ask.now (info_of device.now table_slot
        (option_map (λ t. t.now) table.entry) (option_map (λ t. t.now) target.entry) ask.now)
        cmd.now) }
    ensures reply { result ≡ 0 → (before : List ℕ) → R.stands_for reply.old before
        → R.stands_for reply.new (before ++ bytes_of (info_of device.now table_slot
        (option_map (λ t. t.now) table.entry) (option_map (λ t. t.now) target.entry) ask.now)) }
    ensures refused { result ≢ 0 → reply.new ≡ reply.old }
{
    let Some(bytes) = reply_bytes(ask, device, table_slot, table, target) else {
        return NOT_FOUND;
    };
    if bytes.len() as u64 > u64::from(cmd.transfer) {
        return BUFFER_TOO_SMALL;
    }
    reply.put(bytes.as_slice());
    OK
}
