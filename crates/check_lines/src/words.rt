//! The words of an effect, of a digest and of a writer.

ghost use Rattle.std.specs.Prelude.{◌≡◌};
ghost use Rattle.check_lines.specs.Texts.{effect_word, hash_word, writer_word};

use check_images::Hashed;
use check_require::{ImageEffect, Writer};

/// What becomes of the image that starts, in a word.
pub(crate) fn effect_word(effect: ImageEffect) -> &'static str
    ensures { result.now ≡ effect_word effect }
{
    match effect {
        ImageEffect::Unchanged => "none",
        ImageEffect::New => "new",
        ImageEffect::Up => "up",
        ImageEffect::Same => "same",
        ImageEffect::Down => "down",
    }
}

/// Whether an image has a digest, in a word.
pub(crate) fn hash_word(hash: Hashed) -> &'static str
    ensures { result.now ≡ hash_word hash }
{
    match hash {
        Hashed::Yes => "yes",
        Hashed::Bare => "bare",
        Hashed::No => "no",
    }
}

/// Who wrote a window, in a word.
pub(crate) fn writer_word(by: Writer) -> &'static str
    ensures { result.now ≡ writer_word by }
{
    match by {
        Writer::Script => "script",
        Writer::Boot => "boot",
        Writer::Buy => "buy",
    }
}
