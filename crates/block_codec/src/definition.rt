//! The record of an image definition. It stands here since several readers of blocks share it.

ghost use Rattle.std.specs.Prelude.{◌≡◌};

use crate::versions::Version;
use arrayvec::ArrayVec;

/// What an ENTRY_POINT item says (RP2350 Datasheet, chapter 5, Bootrom).
#[derive(Debug, Clone, Copy, PartialEq, Eq)]
pub struct EntryPoint {
    /// The address at which the image starts.
    pub pc: u32,
    /// The first value of the stack pointer.
    pub sp: u32,
    /// The limit of the stack pointer; 0 where the item has none.
    pub limit: u32,
}

/// An image definition: what the items of a block with an IMAGE_TYPE item say.
#[derive(Debug, Drop, PartialEq, Eq)]
pub struct Def {
    /// The flags of the IMAGE_TYPE item.
    pub flags: u16,
    /// The word index of the IMAGE_TYPE item in its block.
    pub image_word: u32,
    /// The address of the vector table, where there is a VECTOR_TABLE item.
    pub vector: Option<u32>,
    /// What the ENTRY_POINT item says, where there is one.
    pub entry_point: Option<EntryPoint>,
    /// The delta of the ROLLING_WINDOW_DELTA item, or 0.
    pub delta: i32,
    /// The index of the LOAD_MAP item among the block's items, where there is one.
    pub map_item: Option<u32>,
    /// How many words of the block are hashed; 0 without a HASH_DEF item.
    pub hash_words: u32,
    /// The digest of the HASH_VALUE item, where there is one.
    pub digest: Option<[u8; 32]>,
    /// The version, 0.0 without a VERSION item.
    pub version: Version,
    /// The rollback version, where the VERSION item has rows.
    pub rollback: Option<u16>,
    /// The rollback rows that the VERSION item lists, at most 32.
    pub rows: ArrayVec<u16, 32>,
}

/// A copy of rollback rows.
pub fn copy_rows(rows: &ArrayVec<u16, 32>) -> ArrayVec<u16, 32>
    ensures { result ≡ rows.now }
{
    let mut copy = ArrayVec::new();
    copy.try_extend_from_slice(rows.as_slice()).unwrap();
    copy
}

impl Def {
    /// A copy of the definition.
    pub fn copy(&self) -> Def
        ensures { result ≡ self.now }
    {
        Def {
            flags: self.flags,
            image_word: self.image_word,
            vector: self.vector,
            entry_point: self.entry_point,
            delta: self.delta,
            map_item: self.map_item,
            hash_words: self.hash_words,
            digest: self.digest,
            version: self.version,
            rollback: self.rollback,
            rows: copy_rows(&self.rows),
        }
    }
}
