//! Tables to bytes.

ghost use Rattle.std.specs.Prelude.{◌≡◌, ◌+◌, ◌-◌, ◌*◌, ◌/◌, ◌%◌, ◌<◌, ◌≤◌, ◌^◌, ◌↔◌, ◌∷◌, ◌++◌, [], ℕ, All, length, replicate, None, IfSome, IsErrOf, OnOk, OnErr, slice_index};
ghost use Rattle.block_codec.specs.Blocks.{start_word};
ghost use Rattle.block_codec.specs.Words.{bytes_of, words_of};
ghost use Rattle.sha2.specs.Sha256.{sha256};
ghost use Rattle.part_table.specs.Faults.{table_fault};
ghost use Rattle.part_table.specs.Judged.{IsJudgedAs};
ghost use Rattle.part_table.specs.Written.{AgreesWithFlags, IsReadablePartition, written_id, written_name, padded_name, written_partition, header, table_item, hashed_table_items, written_items, written_table, written_size, IsReadAs};

use crate::{Partition, Table, TableWriteFault};
use arrayvec::ArrayVec;
use block_codec::kinds::{HASH_DEF, HASH_VALUE, PARTITION_TABLE, VERSION};
use block_codec::{BlockError, START, write_block};
use byteorder::{ByteOrder, LittleEndian};
use sha2::{Digest, Sha256};
use std::alloc::Global;

/// At most so many bytes are in a block.
const MOST_BYTES: u64 = 640;

/// How many words a name of these bytes is written as.
fn padded_words(name: &[u8]) -> usize
    requires { length name.now < 128 }
    ensures value { result ≡ length (words_of (padded_name name.now)) }
    ensures few { result ≤ 32 }
    ensures bytes { (i : ℕ) → slice_index name.now i < 256 }
{
    name.len() / 4 + 1
}

/// How many words the name is written as.
fn name_size(name: &Option<ArrayVec<u8, 127>>) -> usize
    ensures value { result ≡ length (written_name name.now) }
    ensures few { result ≤ 32 }
    ensures short { IfSome name.now (λ n. length n.items < 128) }
    ensures bytes { IfSome name.now (λ n. (i : ℕ) → slice_index n.items i < 256) }
{
    match name {
        Some(name) => padded_words(name.as_slice()),
        None => 0,
    }
}

/// How many words the partition is written as.
fn partition_size(part: &Partition) -> usize
    requires { AgreesWithFlags part.now }
    ensures value { result ≡ length (written_partition part.now) }
    ensures few { result ≤ 39 }
    ensures readable { IsReadablePartition part.now }
{
    let id = if part.id.is_some() { 2 } else { 0 };
    2 + id + part.families.len() + name_size(&part.name)
}

/// How many words the PARTITION_TABLE item is written as.
fn item_size(table: &Table) -> usize
    requires { All AgreesWithFlags table.now.parts.items }
    ensures value { result ≡ length (table_item table.now) }
    ensures few { result ≤ 587 }
    ensures readable { All IsReadablePartition table.now.parts.items }
    ensures parts { length table.now.parts.items ≤ 15 }
{
    let mut size = 2;
    for part in table.parts.as_slice() {
        size += partition_size(part);
    }
    size
}

/// Appends the words of these bytes.
fn put_bytes(words: &mut ArrayVec<u32, 156>, bytes: &[u8])
    requires { length words.old.items + length bytes.now / 4 ≤ 156 }
    ensures { words.new.items ≡ words.old.items ++ words_of bytes.now }
{
    for k in 0..bytes.len() / 4 {
        words.push(LittleEndian::read_u32(&bytes[4 * k..]));
    }
}

/// A name's length, its bytes, and bytes 0 up to a whole word.
fn padded_name(name: &[u8]) -> ArrayVec<u8, 128>
    requires { length name.now < 128 }
    ensures { result.items ≡ padded_name name.now }
{
    let mut bytes = ArrayVec::new();
    bytes.push(name.len() as u8);
    bytes.try_extend_from_slice(name).unwrap();
    for _i in 0..3 - name.len() % 4 {
        bytes.push(0);
    }
    bytes
}

/// Appends the words of an id.
fn put_id(words: &mut ArrayVec<u32, 156>, id: Option<u64>)
    requires { length words.old.items + length (written_id id) ≤ 156 }
    ensures { words.new.items ≡ words.old.items ++ written_id id }
{
    if let Some(id) = id {
        words.push((id % 0x1_0000_0000) as u32);
        words.push((id / 0x1_0000_0000) as u32);
    }
}

/// Appends the words of a name.
fn put_name(words: &mut ArrayVec<u32, 156>, name: &Option<ArrayVec<u8, 127>>)
    requires { length words.old.items + length (written_name name.now) ≤ 156 }
    ensures { words.new.items ≡ words.old.items ++ written_name name.now }
{
    if let Some(name) = name {
        put_bytes(words, padded_name(name.as_slice()).as_slice());
    }
}

/// Appends the words of a partition.
fn put_partition(words: &mut ArrayVec<u32, 156>, part: &Partition)
    requires { length words.old.items + length (written_partition part.now) ≤ 156 }
    ensures { words.new.items ≡ words.old.items ++ written_partition part.now }
{
    words.push(part.location);
    words.push(part.flags);
    put_id(words, part.id);
    words
        .try_extend_from_slice(part.families.as_slice())
        .unwrap();
    put_name(words, &part.name);
}

/// The header of an item with a size of one byte.
fn header(kind: u8, size: u32, high: u32) -> u32
    requires size { size < 256 }
    requires high { high < 256 }
    ensures { result ≡ header kind size high }
{
    u32::from(kind) + 256 * size + 16777216 * high
}

/// The PARTITION_TABLE item, of this many words.
fn table_item(table: &Table, size: usize) -> ArrayVec<u32, 156>
    requires size { size ≡ length (table_item table.now) }
    requires few { size ≤ 143 }
    ensures { result.items ≡ table_item table.now }
{
    let singleton = if table.singleton { 128 } else { 0 };
    let mut words = ArrayVec::new();
    words.push(header(
        PARTITION_TABLE,
        size as u32,
        singleton + table.parts.len() as u32,
    ));
    words.push(table.unpartitioned);
    for part in table.parts.as_slice() {
        put_partition(&mut words, part);
    }
    words
}

/// The words before the HASH_VALUE item, where the table's item has this many.
fn hashed_table_items(table: &Table, size: usize) -> ArrayVec<u32, 156>
    requires size { size ≡ length (table_item table.now) }
    requires few { size ≤ 143 }
    ensures value { result.items ≡ hashed_table_items table.now }
    ensures len { length result.items ≡ size + 4 }
    ensures major { table.now.version.major < 2 ^ 16 }
    ensures minor { table.now.version.minor < 2 ^ 16 }
{
    let mut words = table_item(table, size);
    words.push(header(VERSION, 2, 0));
    words.push(u32::from(table.version.minor) + 65536 * u32::from(table.version.major));
    words.push(header(HASH_DEF, 2, 1));
    words.push(size as u32 + 5);
    words
}

/// The digest of the start word and these words.
#[tactic(auto, unfolding(block_codec::specs::Words::word_bytes))]
fn digest_of(words: &[u32]) -> [u8; 32]
    ensures { result ≡ sha256 (bytes_of (start_word ∷ words.now)) }
{
    let mut hasher = Sha256::new();
    hasher.update(START.to_le_bytes().as_slice());
    for word in words {
        hasher.update(word.to_le_bytes().as_slice());
    }
    hasher.finalize()
}

/// The item words of the table's block, where the table's item has this many.
fn written_items(table: &Table, size: usize) -> ArrayVec<u32, 156>
    requires size { size ≡ length (table_item table.now) }
    requires few { size ≤ 143 }
    ensures value { result.items ≡ written_items table.now }
    ensures major { table.now.version.major < 2 ^ 16 }
    ensures minor { table.now.version.minor < 2 ^ 16 }
{
    let mut words = hashed_table_items(table, size);
    let digest = digest_of(words.as_slice());
    words.push(header(HASH_VALUE, 9, 0));
    put_bytes(&mut words, digest.as_slice());
    words
}

/// Appends the table's block, with its hash. After a refusal `out` is unchanged; where there is no
/// memory for the bytes, the refusal is `Memory`.
pub fn write_table(alloc: Global, table: &Table, out: &mut Vec<u8>) -> Result<(), TableWriteFault>
    requires { All AgreesWithFlags table.now.parts.items }
    ensures ok { OnOk result (out.new.items ≡ out.old.items ++ written_table table.now) }
    ensures again { (n m : ℕ) → table_fault table.now n m ≡ None
        → OnOk result (IsReadAs (written_table table.now) table.now n m) }
    ensures judged { (n m : ℕ) → OnOk result (IsJudgedAs (written_table table.now) table.now n m) }
    ensures too_long { (n : ℕ)
        → IsErrOf result (TableWriteFault.TooLong n) ↔
        ((640 < written_size table.now) × (n ≡ written_size table.now)) }
    ensures err { OnErr result (out.new.items ≡ out.old.items) }
{
    let size = item_size(table);
    let bytes = 4 * (size as u64 + 17);
    if bytes > MOST_BYTES {
        return Err(TableWriteFault::TooLong(bytes));
    }
    let words = written_items(table, size);
    match write_block(alloc, words.as_slice(), 0, out) {
        Ok(()) => Ok(()),
        Err(BlockError::Memory) => Err(TableWriteFault::Memory),
        Err(BlockError::TooLong(_)) => unreachable!(),
        Err(BlockError::ItemSize(_)) => unreachable!(),
    }
}
