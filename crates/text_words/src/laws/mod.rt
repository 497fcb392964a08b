//! Laws of numbers, each the contract of a function that does nothing.

ghost use Rattle.std.specs.Prelude.{◌≡◌, ◌<◌, ◌^◌, ℕ, List, Some, decimal};
ghost use Rattle.text_words.specs.Writing.{hex_word};
ghost use Rattle.text_words.specs.Reading.{number_in, number_of, word_in};

/// What is written is read back.
pub fn numbers_are_read_back()
    ensures decimal { (n : ℕ) → n < 2 ^ 32 → number_of (decimal n) ≡ Some n }
    ensures short { (n : ℕ) → n < 2 ^ 32 → number_in (decimal n) ≡ Some n }
    ensures word { (n : ℕ) → n < 2 ^ 32 → word_in (hex_word n) ≡ Some n }
{}

/// A number of the strict readers has one spelling, that in which it is written.
pub fn numbers_have_one_spelling()
    ensures short { (text : List ℕ) (n : ℕ) → number_in text ≡ Some n → text ≡ decimal n }
    ensures word { (text : List ℕ) (n : ℕ) → word_in text ≡ Some n → text ≡ hex_word n }
{}
