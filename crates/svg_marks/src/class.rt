//! The classes of the marks that are counted.

ghost use Rattle.std.specs.Prelude.{◌≡◌};
ghost use Rattle.svg_marks.specs.Marks.{class_word};
ghost use Rattle.svg_marks.specs.Reading.{is_class};

/// The class of a mark that is counted.
#[derive(Clone, Copy, Debug, PartialEq, Eq)]
pub enum Class {
    /// A boot that decides as before the session.
    Former,
    /// A boot that starts the finished image.
    Finished,
    /// A boot that does neither.
    Chance,
    /// The steps of a run that is named next to its rectangle.
    Span,
    /// Erases of sectors.
    Erase,
    /// Programs of pages.
    Program,
    /// Raises of OTP rows.
    Raise,
    /// A count of the legend.
    Legend,
    /// A window of a flash.
    Window,
    /// What is said of a window.
    Row,
    /// What joins a window and its row.
    Join,
    /// The word of a window that is started.
    Starts,
}

/// The word of a class.
pub fn class_word(class: Class) -> &'static str
    ensures { result.now ≡ class_word class }
{
    match class {
        Class::Former => "former",
        Class::Finished => "finished",
        Class::Chance => "chance",
        Class::Span => "span",
        Class::Erase => "erase",
        Class::Program => "program",
        Class::Raise => "raise",
        Class::Legend => "legend",
        Class::Window => "window",
        Class::Row => "row",
        Class::Join => "join",
        Class::Starts => "starts",
    }
}

/// Whether two classes are the same.
pub fn is_class(class: Class, other: Class) -> bool
    ensures { result ≡ is_class class other }
{
    class == other
}
