//! What an event has to do with downloads, as plain data.

ghost use Rattle.std.specs.Prelude.{◌≡◌};
ghost use Rattle.check_records.specs.Shares.{counts, is_like, kind_of};

use part_table::ABSOLUTE_FAMILY;
use uf2_place::Uf2;

/// The kind of a download.
#[derive(Clone, Copy, PartialEq, Eq, Debug)]
pub struct Kind {
    /// The family of its blocks.
    pub family: u32,
    /// How many they are.
    pub count: u32,
}

/// The block that begins a download.
#[derive(Clone, Copy, PartialEq, Eq, Debug)]
pub struct Beginning {
    /// The kind of the download.
    pub kind: Kind,
    /// The number of the block.
    pub number: u32,
}

/// How far a block comes that goes into a download.
#[derive(Clone, Copy, PartialEq, Eq, Debug)]
pub enum Stage {
    /// It is taken, and more blocks are to come.
    Taken,
    /// It is taken, and with it the download is done.
    Done,
    /// Power is lost in its steps.
    Lost,
}

/// What an event has to do with downloads.
#[derive(Clone, Copy, PartialEq, Eq, Debug)]
pub enum Share {
    /// Its block begins one, and comes so far.
    Begins(Beginning, Stage),
    /// Its block continues the current one, and comes so far.
    Continues(Stage),
    /// The current one stays as it is.
    Keeps,
    /// None is current behind it, and none is done with it.
    Drops,
}

/// The kind of the download that a block is of.
pub(crate) fn kind_of(block: &Uf2) -> Kind
    ensures { result ≡ kind_of block.now }
{
    Kind {
        family: block.family,
        count: block.count,
    }
}

/// Whether two downloads are of one family and have the same number of blocks.
pub(crate) fn is_like(one: Kind, two: Kind) -> bool
    ensures { result ≡ is_like one two }
{
    one.family == two.family && one.count == two.count
}

/// Whether a download that begins so is one: block 0 of 2 of the absolute family stands before a
/// file, and no second block follows it.
pub(crate) fn counts(first: Beginning) -> bool
    ensures { result ≡ counts first }
{
    !(first.number == 0 && first.kind.count == 2 && first.kind.family == ABSOLUTE_FAMILY)
}
