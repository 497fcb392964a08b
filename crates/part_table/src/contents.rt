//! What the words of a PARTITION_TABLE item say.

ghost use Rattle.std.specs.Prelude.{◌≡◌, ◌+◌, ◌*◌, ◌<◌, ◌≤◌, length, take, drop, slice_get, is_some, true, IfSome, Some, None};
ghost use Rattle.std.specs.Option.{option_map};
ghost use Rattle.block_codec.specs.Words.{bytes_of};
ghost use Rattle.part_table.specs.Contents.{table_from};
ghost use Rattle.part_table.specs.Partitions.{id_words, name_at, name_length, name_words, tail_words, id_of, families_of, name_of, partition_of, partition_words, partition_from, partitions_in};

use crate::partition::{family_count, has_bit, has_id, has_name};
use crate::{Partition, Table};
use arrayvec::ArrayVec;
use block_codec::Version;

/// How many words the id takes.
fn id_words(flags: u32) -> usize
    ensures value { result ≡ id_words flags }
    ensures few { result ≤ 2 }
{
    if has_id(flags) { 2 } else { 0 }
}

/// How many words come before the name.
fn name_at(flags: u32) -> usize
    ensures value { result ≡ name_at flags }
    ensures few { result ≤ 5 }
{
    id_words(flags) + family_count(flags) as usize
}

/// How many bytes the name has, by its first byte, among the words after the flag word.
fn name_length(flags: u32, words: &[u32]) -> usize
    ensures value { result ≡ name_length flags words.now }
    ensures short { result < 128 }
{
    let at = name_at(flags);
    if at < words.len() {
        (words[at] % 128) as usize
    } else {
        0
    }
}

/// How many words the name takes.
fn name_words(flags: u32, words: &[u32]) -> usize
    ensures value { result ≡ name_words flags words.now }
    ensures few { result ≤ 32 }
{
    if has_name(flags) {
        (name_length(flags, words) + 4) / 4
    } else {
        0
    }
}

/// How many words of the partition come after its flag word.
fn tail_words(flags: u32, words: &[u32]) -> usize
    ensures value { result ≡ tail_words flags words.now }
    ensures few { result ≤ 37 }
{
    name_at(flags) + name_words(flags, words)
}

/// The id, its low word first.
fn id_of(flags: u32, words: &[u32]) -> Option<u64>
    requires { id_words flags ≤ length words.now }
    ensures { result ≡ id_of flags words.now }
{
    if has_id(flags) {
        Some(u64::from(words[0]) + 0x1_0000_0000 * u64::from(words[1]))
    } else {
        None
    }
}

/// The extra families, after the id.
fn families_of(flags: u32, words: &[u32]) -> ArrayVec<u32, 3>
    requires { name_at flags ≤ length words.now }
    ensures { result.items ≡ families_of flags words.now }
{
    let mut families = ArrayVec::new();
    families
        .try_extend_from_slice(&words[id_words(flags)..name_at(flags)])
        .unwrap();
    families
}

/// The bytes of the words of a name.
#[tactic(auto, unfolding(block_codec::specs::Words::word_bytes))]
fn bytes_of(words: &[u32]) -> ArrayVec<u8, 128>
    requires { length words.now ≤ 32 }
    ensures value { result.items ≡ bytes_of words.now }
    ensures len { length result.items ≡ 4 * length words.now }
{
    let mut bytes = ArrayVec::new();
    for word in words {
        bytes.try_extend_from_slice(&word.to_le_bytes()).unwrap();
    }
    bytes
}

/// The bytes of a name of this length, which stand after its length byte.
fn name_in(words: &[u32], count: usize) -> ArrayVec<u8, 127>
    requires few { length words.now ≤ 32 }
    requires room { count + 1 ≤ 4 * length words.now }
    requires short { count ≤ 127 }
    ensures { result.items ≡ take count (drop 1 (bytes_of words.now)) }
{
    let bytes = bytes_of(words);
    let mut name = ArrayVec::new();
    name.try_extend_from_slice(&bytes.as_slice()[1..count + 1])
        .unwrap();
    name
}

/// The name, after the id and the extra families.
fn name_of(flags: u32, words: &[u32]) -> Option<ArrayVec<u8, 127>>
    requires { tail_words flags words.now ≤ length words.now }
    ensures { result ≡ name_of flags words.now }
{
    if has_name(flags) {
        let at = name_at(flags);
        let end = at + name_words(flags, words);
        Some(name_in(&words[at..end], name_length(flags, words)))
    } else {
        None
    }
}

/// The partition of these two words and what the words after them say.
fn partition_of(location: u32, flags: u32, words: &[u32]) -> Partition
    requires { tail_words flags words.now ≤ length words.now }
    ensures { result ≡ partition_of location flags words.now }
{
    Partition {
        location,
        flags,
        id: id_of(flags, words),
        families: families_of(flags, words),
        name: name_of(flags, words),
    }
}

/// How many words the partition at the front of the words takes; None where it is not whole.
fn partition_words(words: &[u32]) -> Option<usize>
    ensures value { result ≡ partition_words words.now }
    ensures inside { IfSome result (λ size. size ≤ length words.now) }
{
    if words.len() < 2 {
        return None;
    }
    let size = 2 + tail_words(words[1], &words[2..]);
    if size <= words.len() {
        Some(size)
    } else {
        None
    }
}

/// The whole partition at the front of the words.
fn partition_from(words: &[u32]) -> Partition
    requires { is_some (partition_words words.now) ≡ true }
    ensures { result ≡ partition_from words.now }
{
    partition_of(words[0], words[1], &words[2..])
}

/// The words as so many partitions, one after the other; None where these do not fill the words
/// exactly.
fn partitions_in(count: u8, words: &[u32]) -> Option<ArrayVec<Partition, 15>>
    requires { count ≤ 15 }
    ensures { result ≡ option_map (λ ps. record { items = ps }) (partitions_in count words.now) }
{
    let mut parts = ArrayVec::new();
    let mut at = 0;
    for _i in 0..count {
        let rest = &words[at..];
        let size = partition_words(rest)?;
        parts.push(partition_from(rest));
        at += size;
    }
    if at == words.len() { Some(parts) } else { None }
}

/// The table of this version, this fourth header byte and these words after the header; None where
/// its fields do not fill the words exactly.
pub(crate) fn table_from(version: Version, high: u8, words: &[u32]) -> Option<Table>
    ensures { result ≡ table_from version high words.now }
{
    if words.is_empty() {
        return None;
    }
    let parts = partitions_in(high % 16, &words[1..])?;
    Some(Table {
        version,
        singleton: has_bit(u32::from(high), 7),
        unpartitioned: words[0],
        parts,
    })
}
