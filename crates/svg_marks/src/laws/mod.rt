//! Laws of pictures, each the contract of a function that does nothing.

ghost use Rattle.std.specs.Prelude.{◌≡◌, ◌<◌, ℕ, List, length, map, true};
ghost use Rattle.std.specs.List.{flat_map, list_all};
ghost use Rattle.svg_marks.specs.declared.class.Class.{Class};
ghost use Rattle.svg_marks.specs.Breaks.{AreLines, joined, line_count, broken_lines};
ghost use Rattle.svg_marks.specs.Marks.{Picture, class_text, escaped, picture_text};
ghost use Rattle.svg_marks.specs.Reading.{is_free_of, marks_in, times, words_of_mark};
ghost use Rattle.svg_marks.specs.Texts.{HasTexts, is_written, unescaped};

/// The marks of a class that stand in the bytes of a picture are those of its data, in their
/// order, each with its words. The class, written as in `class="span"`, stands in the bytes as
/// often as there are such marks, and nowhere else. This holds whatever the words of the picture
/// are.
pub fn marks_are_those_of_the_data()
    ensures words { (class : Class) (p : Picture)
        → marks_in class (picture_text p) ≡ map escaped (flat_map (words_of_mark class) p.marks) }
    ensures count { (class : Class) (p : Picture)
        → times (class_text class) (picture_text p)
        ≡ length (flat_map (words_of_mark class) p.marks) }
{}

/// A text as it stands in a file has neither `<` nor `>` nor a quote.
pub fn texts_have_no_tag()
    ensures less { (text : List ℕ) → is_free_of 60 (escaped text) ≡ true }
    ensures more { (text : List ℕ) → is_free_of 62 (escaped text) ≡ true }
    ensures quote { (text : List ℕ) → is_free_of 34 (escaped text) ≡ true }
{}

/// A text that stands in a file is read back, so no two texts stand there as the same bytes. The
/// words of the marks of a class are read back too.
pub fn texts_are_read_back()
    ensures text { (text : List ℕ) → unescaped (escaped text) ≡ text }
    ensures same { (a b : List ℕ) → escaped a ≡ escaped b → a ≡ b }
    ensures marks { (class : Class) (p : Picture)
        → map unescaped (marks_in class (picture_text p))
        ≡ flat_map (words_of_mark class) p.marks }
{}

/// Where the words of a picture have bytes from the blank to the tilde alone, the picture has only
/// such bytes and line feeds.
pub fn pictures_of_texts_are_ascii()
    ensures { (p : Picture) → HasTexts p → list_all is_written (picture_text p) ≡ true }
{}

/// The lines of words, one after the other, are the words. Each line has at most 80 bytes, or 80
/// bytes and then a blank. Each line but the last ends after a blank, where the next word would
/// pass 80 bytes, or within a word that alone fills the line and goes on. There is at least one
/// line.
pub fn lines_are_those_of_the_words()
    ensures words { (words : List ℕ) → joined (broken_lines words) ≡ words }
    ensures lines { (words : List ℕ) → AreLines (broken_lines words) }
    ensures some { (words : List ℕ) → 0 < line_count words }
{}
