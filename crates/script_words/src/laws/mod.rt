//! Laws of the words of a line.

ghost use Rattle.std.specs.Prelude.{◌≡◌, ◌↔◌, [], ℕ, List};
ghost use Rattle.script_words.specs.Finding.{line_in};
ghost use Rattle.script_words.specs.Splitting.{first_words, words_in};

/// The words of a line that are looked at say what all of its words say, or have the same fault;
/// and there is one exactly where the line has a word.
pub fn first_words_are_enough()
    ensures says { (line : List ℕ) → line_in (first_words line) ≡ line_in (words_in line) }
    ensures none { (line : List ℕ) → (first_words line ≡ []) ↔ (words_in line ≡ []) }
{}
