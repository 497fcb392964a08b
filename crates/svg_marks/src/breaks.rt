//! Where words are broken into lines.

ghost use Rattle.std.specs.Prelude.{◌≡◌, ◌≤◌, ◌^◌, ◌+◌, drop, length};
ghost use Rattle.svg_marks.specs.Breaks.{is_broken, line_count, broken_lines_from, needed, next_column, word_length};
ghost use Rattle.svg_marks.specs.Reading.{one_more};

/// How many bytes of words stand in a line. A blank may stand after them, and so may the word
/// `starts`.
const LINE_LENGTH: usize = 80;

/// How many bytes the word has that begins here.
fn word_length(bytes: &[u8]) -> usize
    ensures exact { result ≡ word_length bytes.now }
    ensures most { result ≤ length bytes.now }
{
    for (count, byte) in bytes.iter().enumerate() {
        if *byte == b' ' {
            return count;
        }
    }
    bytes.len()
}

/// How many bytes must find room in a line together, from the next byte on. The byte before it is
/// a blank or not.
fn needed(blank: bool, bytes: &[u8]) -> usize
    ensures exact { result ≡ needed blank bytes.now }
    ensures most { result ≤ length bytes.now }
{
    if blank {
        return word_length(bytes);
    }
    match bytes {
        [] => 0,
        [byte, ..] => { if *byte == b' ' { 0 } else { 1 } }
    }
}

/// Whether a further line begins with the byte of this number. So many bytes stand in the line
/// before it, and the last of these is a blank or not.
#[tactic(auto, unfolding(crate::specs::Breaks::is_broken))]
pub(crate) fn is_broken(bytes: &[u8], number: usize, column: usize, blank: bool) -> bool
    requires number { number ≤ length bytes.now }
    requires column { column ≤ 81 }
    ensures { result ≡ is_broken column blank (drop number bytes.now) }
{
    LINE_LENGTH < column + needed(blank, &bytes[number..])
}

/// How many bytes stand in a line with one byte more. This byte begins a line, or stands after so
/// many.
pub(crate) fn next_column(broken: bool, column: usize) -> usize
    requires { column ≤ 81 }
    ensures { result ≡ next_column broken column }
{
    if broken { 1 } else { column + 1 }
}

/// The number of lines, with one more where a line begins.
fn one_more(broken: bool, count: usize) -> usize
    requires { count ≤ 2 ^ 63 }
    ensures { result ≡ one_more broken count }
{
    if broken { count + 1 } else { count }
}

/// How many lines words have.
pub fn line_count(words: &str) -> usize
    ensures exact { result ≡ line_count words.now }
    ensures most { result ≤ length words.now + 1 }
{
    let bytes = words.as_bytes();
    let mut count = 1;
    let mut column = 0;
    let mut blank = false;
    for (number, byte) in bytes.iter().enumerate() {
        let broken = is_broken(bytes, number, column, blank);
        count = one_more(broken, count);
        column = next_column(broken, column);
        blank = *byte == b' ';
    }
    count
}
