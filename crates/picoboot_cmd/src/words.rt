//! Words of a payload.

ghost use Rattle.std.specs.Prelude.{◌≡◌, ◌+◌, ◌*◌, ◌≤◌, length, slice_index};
ghost use Rattle.block_codec.specs.Words.{words_of};

use byteorder::{ByteOrder, LittleEndian};

/// The word at place k of these bytes, its lowest byte first.
pub(crate) fn word_at(bytes: &[u8], k: usize) -> u32
    requires { 4 * k + 4 ≤ length bytes.now }
    ensures { result ≡ slice_index (words_of bytes.now) k }
{
    LittleEndian::read_u32(&bytes[4 * k..])
}
