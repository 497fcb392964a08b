//! Worked examples of the definitions, proved by computing: each is the `ensures` of a function
//! that does nothing.

ghost use Rattle.std.specs.Prelude.{◌≡◌, [], ◌∷◌, ◌++◌, codes, true, false};
ghost use Rattle.svg_marks.specs.declared.class.Class.TheVariants.{Chance, Former, Join, Row, Span, Starts};
ghost use Rattle.svg_marks.specs.declared.mark.Colour.TheVariants.{Grey, Slate};
ghost use Rattle.svg_marks.specs.Breaks.{broken_lines};
ghost use Rattle.svg_marks.specs.Marks.{Caption, Column, Label, Line, Lines, Rect, Strip, class_text, escaped, lines_text, mark_text};
ghost use Rattle.svg_marks.specs.Reading.{is_class, marks_in, times};
ghost use Rattle.svg_marks.specs.Texts.{is_printed, is_written, texts_of, unescaped};
ghost use Rattle.svg_marks.specs.Examples.{forty, thirty_nine};

/// Texts as they stand in a file.
pub fn texts_in_a_file()
    ensures names { escaped (codes "a<b & \"c\" > d")
        ≡ codes "a&lt;b &amp; &quot;c&quot; &gt; d" }
    ensures again { escaped (codes "&lt;") ≡ codes "&amp;lt;" }
{}

/// Marks as they stand in a file.
pub fn marks_in_a_file()
    ensures run { mark_text (Rect Former (record { x = 3; y = 0; width = 12; height = 1 }) Grey
        (codes "before 3 to 14 former"))
        ≡ codes "<rect class=\"former\" x=\"3\" y=\"0\" width=\"12\" height=\"1\" fill=\"#d0d0d0\">"
        ++ codes "<title>before 3 to 14 former</title></rect>\n" }
    ensures span { mark_text (Caption Span 120 44 (codes "3 to 14"))
        ≡ codes "<text class=\"span\" x=\"120\" y=\"44\">3 to 14</text>\n" }
    ensures label { mark_text (Label 24 41 (codes "a<b"))
        ≡ codes "<text x=\"24\" y=\"41\">a&lt;b</text>\n" }
    ensures strip { mark_text (Strip (record { x = 120; y = 24; width = 800; height = 24 }) 272)
        ≡ codes "<svg x=\"120\" y=\"24\" width=\"800\" height=\"24\""
        ++ codes " viewBox=\"0 0 272 1\" preserveAspectRatio=\"none\">\n" }
    ensures column { mark_text (Column (record { x = 24; y = 24; width = 48; height = 400 }) 8192)
        ≡ codes "<svg x=\"24\" y=\"24\" width=\"48\" height=\"400\""
        ++ codes " viewBox=\"0 0 1 8192\" preserveAspectRatio=\"none\">\n" }
    ensures line { mark_text (Line Join (record { x1 = 73; y1 = 224; x2 = 138; y2 = 34 }) Slate
        (codes "a to b"))
        ≡ codes "<line class=\"join\" x1=\"73\" y1=\"224\" x2=\"138\" y2=\"34\""
        ++ codes " stroke=\"#505050\"><title>a to b</title></line>\n" }
{}

/// Words in lines, as they stand in a file: each line but the first in an element of its own.
pub fn words_in_lines()
    ensures short { mark_text (Lines Row 160 39 (codes "a<b  c") false)
        ≡ codes "<text class=\"row\" x=\"160\" y=\"39\" xml:space=\"preserve\">a&lt;b  c</text>\n" }
    ensures starts { mark_text (Lines Row 160 39 (codes "a") true)
        ≡ codes "<text class=\"row\" x=\"160\" y=\"39\" xml:space=\"preserve\">a"
        ++ codes " <tspan class=\"starts\" font-weight=\"bold\">starts</tspan></text>\n" }
    ensures one { lines_text 160 ((forty ++ forty) ∷ []) ≡ forty ++ forty }
    ensures third { lines_text 160 (codes "a " ∷ codes "<b " ∷ codes "c" ∷ [])
        ≡ codes "a <tspan x=\"160\" dy=\"20\">&lt;b </tspan>"
        ++ codes "<tspan x=\"160\" dy=\"20\">c</tspan>" }
{}

/// Where words are broken: a word that ends with byte 80, and one that would end with byte 81;
/// blanks at both; and words of 81 and 80 bytes, each alone and after another.
pub fn broken_words()
    ensures whole { broken_lines (forty ++ (codes " " ++ thirty_nine))
        ≡ (forty ++ (codes " " ++ thirty_nine)) ∷ [] }
    ensures past { broken_lines (forty ++ (codes " " ++ forty))
        ≡ (forty ++ codes " ") ∷ forty ∷ [] }
    ensures last_blank { broken_lines (forty ++ (thirty_nine ++ codes " b"))
        ≡ (forty ++ (thirty_nine ++ codes " ")) ∷ codes "b" ∷ [] }
    ensures hanging { broken_lines (forty ++ (forty ++ codes " b"))
        ≡ (forty ++ (forty ++ codes " ")) ∷ codes "b" ∷ [] }
    ensures two_blanks { broken_lines (forty ++ (forty ++ codes "  b"))
        ≡ (forty ++ (forty ++ codes " ")) ∷ codes " b" ∷ [] }
    ensures longer { broken_lines (forty ++ (forty ++ codes "b"))
        ≡ (forty ++ forty) ∷ codes "b" ∷ [] }
    ensures alone { broken_lines (forty ++ forty) ≡ (forty ++ forty) ∷ [] }
    ensures behind { broken_lines (codes "a " ++ (forty ++ forty))
        ≡ codes "a " ∷ (forty ++ forty) ∷ [] }
    ensures torn { broken_lines (codes "a " ++ (forty ++ (forty ++ codes "b c")))
        ≡ codes "a " ∷ (forty ++ forty) ∷ codes "b c" ∷ [] }
    ensures none { broken_lines [] ≡ [] ∷ [] }
{}

/// What a reader of the bytes finds.
pub fn marks_that_are_read()
    ensures title { marks_in Former
        (codes "<rect class=\"former\" x=\"3\"><title>a b</title></rect>")
        ≡ codes "a b" ∷ [] }
    ensures text { marks_in Span
        (codes "<text class=\"span\">3 to 4</text><text class=\"span\"></text>")
        ≡ codes "3 to 4" ∷ [] ∷ [] }
    ensures lines { marks_in Row (codes "<text class=\"row\" x=\"1\">a <tspan>b</tspan>"
        ++ codes "<tspan>c</tspan> <tspan class=\"starts\">starts</tspan></text> d")
        ≡ codes "a bc starts" ∷ [] }
    ensures inner { marks_in Starts
        (codes "<text class=\"row\">a <tspan class=\"starts\">starts</tspan></text>")
        ≡ codes "starts" ∷ [] }
    ensures nested { marks_in Row (codes "<text class=\"row\">a<b>b<c>c</c>d</b>e</text>f")
        ≡ codes "abcde" ∷ [] }
    ensures other { marks_in Chance (codes "<text class=\"span\">chance</text>") ≡ [] }
    ensures twice { times (class_text Span) (codes "class=\"span\"class=\"span\"") ≡ 2 }
    ensures same { is_class Span Span ≡ true }
    ensures different { is_class Span Chance ≡ false }
    ensures unnamed { unescaped (codes "a&lt;b &amp;lt; &quot;&gt;") ≡ codes "a<b &lt; \">" }
    ensures alone { unescaped (codes "&") ≡ codes "&" }
{}

/// Which bytes a text has, and which a file.
pub fn bytes_of_texts()
    ensures below { is_printed 31 ≡ false }
    ensures blank { is_printed 32 ≡ true }
    ensures tilde { is_printed 126 ≡ true }
    ensures above { is_printed 127 ≡ false }
    ensures feed { is_written 10 ≡ true }
    ensures tab { is_written 9 ≡ false }
    ensures high { is_written 128 ≡ false }
    ensures label { texts_of (Label 1 2 (codes "a")) ≡ codes "a" }
{}
