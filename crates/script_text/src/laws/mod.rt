//! Laws of the text form: a text is read by its rules, and its fault is the first.

ghost use Rattle.std.specs.Prelude.{◌≡◌, ◌↔◌, ℕ, Err, List, Ok};
ghost use Rattle.boot_script.specs.Events.{EventView};
ghost use Rattle.script_text.specs.declared.script.TextError.{TextError};
ghost use Rattle.script_text.specs.Reading.{text_events};
ghost use Rattle.script_text.specs.Meaning.{IsScriptTextFault, IsScriptText};

/// The events that are read of a text, whose lines may take bytes of an image, are those of its
/// lines up to its `end` line, each within the limits.
pub fn texts_are_read()
    ensures { (image text : List ℕ) (es : List EventView)
        → (text_events image text ≡ Ok es) ↔ IsScriptText image text es }
{}

/// The fault that comes is that of the first line that has one, and of this line the first.
pub fn faults_are_the_first()
    ensures { (image text : List ℕ) (error : TextError)
        → (text_events image text ≡ Err error) ↔ IsScriptTextFault image text error }
{}
