//! The class of a cut.

ghost use Rattle.std.specs.Prelude.{◌≡◌};
ghost use Rattle.cut_class.specs.Classes.{is_same_class};

/// What a normal boot makes of a loss of power, beside the script that it falls in: the first of
/// these that holds. The end of a script has a class too.
#[derive(Clone, Copy, Debug, PartialEq, Eq)]
pub enum Class {
    /// It decides as before the script, and where it starts an image, with the bytes of before.
    Former,
    /// It starts the image that it starts after the whole script, with the same bytes.
    Finished,
    /// It starts an image that stands whole before the script or after it.
    Whole,
    /// It starts an image of after the script that lacks only what stands behind its last block.
    Tail,
    /// It starts an image that stands whole neither before the script nor after it.
    Mixed,
    /// It falls to BOOTSEL.
    Bootsel,
}

/// Whether the classes are the same.
pub fn is_same_class(one: Class, two: Class) -> bool
    ensures { result ≡ is_same_class one two }
{
    one == two
}
