//! The bytes of a reply, word by word.

ghost use Rattle.std.specs.Prelude.{◌≡◌, ◌+◌, ◌*◌, ◌≤◌, ◌<◌, ◌++◌, length};
ghost use Rattle.block_codec.specs.Words.{bytes_of, word_bytes, words_of};
ghost use Rattle.part_table.specs.Written.{written_id, written_name, padded_name, written_partition};

use arrayvec::ArrayVec;
use part_table::Partition;

/// Appends a word, its lowest byte first.
#[tactic(auto, unfolding(block_codec::specs::Words::word_bytes))]
fn put_word(bytes: &mut ArrayVec<u8, 156>, word: u32)
    requires { length bytes.old.items + 4 ≤ 156 }
    ensures value { bytes.new.items ≡ bytes.old.items ++ word_bytes word }
    ensures long { length bytes.new.items ≡ length bytes.old.items + 4 }
{
    bytes.try_extend_from_slice(&word.to_le_bytes()).unwrap();
}

/// Appends words.
pub(crate) fn put_words(bytes: &mut ArrayVec<u8, 156>, words: &[u32])
    requires { length bytes.old.items + 4 * length words.now ≤ 156 }
    ensures value { bytes.new.items ≡ bytes.old.items ++ bytes_of words.now }
    ensures long { length bytes.new.items ≡ length bytes.old.items + 4 * length words.now }
{
    for word in words {
        put_word(bytes, *word);
    }
}

/// Appends the words of an id.
fn put_id(bytes: &mut ArrayVec<u8, 156>, id: Option<u64>)
    requires { length bytes.old.items + 8 ≤ 156 }
    ensures value { bytes.new.items ≡ bytes.old.items ++ bytes_of (written_id id) }
    ensures long { length bytes.new.items ≤ length bytes.old.items + 8 }
{
    if let Some(id) = id {
        put_words(
            bytes,
            &[(id % 0x1_0000_0000) as u32, (id / 0x1_0000_0000) as u32],
        );
    }
}

/// Appends a name's length, its bytes, and bytes 0 up to a whole word.
fn put_padded(bytes: &mut ArrayVec<u8, 156>, name: &[u8])
    requires short { length name.now < 128 }
    requires room { length bytes.old.items + 128 ≤ 156 }
    ensures { bytes.new.items ≡ bytes.old.items ++ padded_name name.now }
{
    bytes.push(name.len() as u8);
    bytes.try_extend_from_slice(name).unwrap();
    for _i in 0..3 - name.len() % 4 {
        bytes.push(0);
    }
}

/// Appends the words of a name.
fn put_name(bytes: &mut ArrayVec<u8, 156>, name: &[u8])
    requires short { length name.now < 128 }
    requires room { length bytes.old.items + 128 ≤ 156 }
    ensures { bytes.new.items ≡ bytes.old.items ++ bytes_of (words_of (padded_name name.now)) }
{
    put_padded(bytes, name);
}

/// Appends the words of the name, where there is one.
fn put_any_name(bytes: &mut ArrayVec<u8, 156>, name: &Option<ArrayVec<u8, 127>>)
    requires { length bytes.old.items + 128 ≤ 156 }
    ensures { bytes.new.items ≡ bytes.old.items ++ bytes_of (written_name name.now) }
{
    if let Some(name) = name {
        put_name(bytes, name.as_slice());
    }
}

/// The bytes of a partition.
pub(crate) fn part_bytes(part: &Partition) -> ArrayVec<u8, 156>
    ensures { result.items ≡ bytes_of (written_partition part.now) }
{
    let mut bytes = ArrayVec::new();
    put_words(&mut bytes, &[part.location, part.flags]);
    put_id(&mut bytes, part.id);
    put_words(&mut bytes, part.families.as_slice());
    put_any_name(&mut bytes, &part.name);
    bytes
}
