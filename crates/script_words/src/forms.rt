//! The forms of the words of a record behind its first one.

ghost use Rattle.std.specs.Prelude.{◌≡◌};
ghost use Rattle.script_words.specs.Forms.{keyword_text};

/// A word that stands as it is, or what stands in front of a value.
#[derive(Clone, Copy, PartialEq, Eq, Debug)]
pub enum Keyword {
    /// `normal`
    Normal,
    /// `bootsel`
    Bootsel,
    /// `update=`
    Update,
    /// `ram=`
    Ram,
    /// `before`
    Before,
    /// `within`
    Within,
    /// `table`
    Table,
    /// `target=`
    Target,
    /// `device`
    Device,
    /// `partition=`
    Partition,
    /// `of`
    Of,
    /// `at`
    At,
    /// `image`
    Image,
    /// `family=`
    Family,
    /// `token=`
    Token,
}

impl Keyword {
    /// Its text.
    pub fn text(self) -> &'static str
        ensures { result.now ≡ keyword_text self }
    {
        match self {
            Keyword::Normal => "normal",
            Keyword::Bootsel => "bootsel",
            Keyword::Update => "update=",
            Keyword::Ram => "ram=",
            Keyword::Before => "before",
            Keyword::Within => "within",
            Keyword::Table => "table",
            Keyword::Target => "target=",
            Keyword::Device => "device",
            Keyword::Partition => "partition=",
            Keyword::Of => "of",
            Keyword::At => "at",
            Keyword::Image => "image",
            Keyword::Family => "family=",
            Keyword::Token => "token=",
        }
    }
}

/// The form of a word.
#[derive(Clone, Copy, PartialEq, Eq, Debug)]
pub enum Form {
    /// This very word.
    Is(Keyword),
    /// A decimal number of 1 to 10 digits, at most this one.
    Number(u32),
    /// A decimal number below 2^32 of 1 to 10 digits, behind this.
    NumberBehind(Keyword),
    /// 0x and 1 to 8 hexadecimal digits.
    Hex,
    /// 0x and 1 to 8 hexadecimal digits, behind this.
    HexBehind(Keyword),
    /// The number of an OTP row: 0x and 1 to 3 hexadecimal digits.
    OtpRow,
    /// A start and a size, each as 0x and 1 to 8 hexadecimal digits, with `+` between them.
    Span,
    /// A start and a size, behind this.
    SpanBehind(Keyword),
    /// A start and a size of at least one byte.
    SomeSpan,
    /// A start as 0x and 1 to 8 hexadecimal digits, and `+`.
    Rest,
    /// So many bytes at least, and so many at most, of two hexadecimal digits each.
    Bytes(u32, u32),
    /// A UF2 family behind `family=`: 0x and 1 to 8 hexadecimal digits, or its name.
    Family,
}
