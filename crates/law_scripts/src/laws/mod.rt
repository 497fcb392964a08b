//! Laws of the text form of a script.

ghost use Rattle.std.specs.Prelude.{◌≡◌, ◌≢◌, ◌↔◌, ◌⊎◌, ◌+◌, ◌^◌, ◌++◌, ◌<◌, ◌≤◌, [], ◌∷◌, ℕ, All, Err, List, None, Ok, Some, codes, drop, false, get_or, length, slice_range, true, unwrap_or};
ghost use Rattle.std.specs.List.{AllByRecursion};
ghost use Rattle.boot_script.specs.Events.{Command, EventView};
ghost use Rattle.boot_script.specs.Judging.{IsScript};
ghost use Rattle.boot_script.specs.Scripts.{IsBeforeEnd, events};
ghost use Rattle.script_words.specs.declared.fault.LineFault.{LineFault};
ghost use Rattle.script_words.specs.declared.rows.Row.TheVariants as rows;
ghost use Rattle.script_words.specs.Finding.{line_in};
ghost use Rattle.script_words.specs.Made.{made, page_of};
ghost use Rattle.script_words.specs.Naming.{line_of};
ghost use Rattle.script_words.specs.Rows.{is_command};
ghost use Rattle.script_words.specs.Saying.{HasEventBytes, IsEvent, IsLine};
ghost use Rattle.script_words.specs.Spelling.{line_text};
ghost use Rattle.script_words.specs.Splitting.{words_in};
ghost use Rattle.script_words.specs.Values.{LineView};
ghost use Rattle.script_text.specs.declared.script.TheConstants.{TEXT_LIMIT};
ghost use Rattle.script_text.specs.Listing.{listed};
ghost use Rattle.script_text.specs.Meaning.{IsWithinLimits};
ghost use Rattle.script_text.specs.Reading.{text_events, token_behind};
ghost use Rattle.law_scripts.specs.Faults.{DifferInOneWord, IsWordsFault};
ghost use Rattle.law_scripts.specs.Images.{block_line, page_line, range_line, rest_line, write_line};
ghost use Rattle.law_scripts.specs.Listed.{is_in_words, is_listed};
ghost use Rattle.law_scripts.specs.Tokens.{DifferInToken, HasParts, IsNoCommand};

/// The fault of a line's words is the first in the order in which faults are told: the first word,
/// how many words there are, and then the first word that is not of its form, of which the token is
/// the last. Records that begin so and have as many words differ in one word alone.
pub fn word_faults_are_the_first()
    ensures fault { (first : List ℕ) (words : List (List ℕ)) (fault : LineFault)
        → (line_in (first ∷ words) ≡ Err fault) ↔ IsWordsFault first words fault }
    ensures rows { (first : List ℕ) (count : ℕ) → DifferInOneWord first count }
{}

/// What a line says that takes no bytes of an image is read of its spelling again, also where a
/// comment stands behind it. A line that is a comment alone has no words.
pub fn lines_are_read_back()
    ensures line { (line : LineView) → is_listed line.row ≡ true → IsLine line
        → line_in (words_in (line_text line)) ≡ Ok line }
    ensures noted { (line : LineView) (note : List ℕ) → is_listed line.row ≡ true → IsLine line
        → line_in (words_in (line_text line ++ (codes " # " ++ note))) ≡ Ok line }
    ensures comment { (note : List ℕ) → words_in (codes "# " ++ note) ≡ [] }
{}

/// The line of an event may be said, takes no bytes of an image, and gives this event; so different
/// events have different lines.
pub fn events_are_read_back()
    ensures says { (next : ℕ) (e : EventView) → IsEvent e → IsLine (line_of next e) }
    ensures listed { (next : ℕ) (e : EventView) → IsEvent e
        → is_listed (line_of next e).row ≡ true }
    ensures gives { (next : ℕ) (e : EventView) (image : List ℕ) → IsEvent e
        → made (line_of next e).row (line_of next e).values
        (unwrap_or (line_of next e).token next) image ≡ Some e }
    ensures one { (next : ℕ) (e f : EventView) → IsEvent e → IsEvent f
        → line_text (line_of next e) ≡ line_text (line_of next f) → e ≡ f }
{}

/// What a line says that is read, and takes no bytes of an image, is what a line may say.
pub fn lines_that_are_read_may_be_said()
    ensures { (words : List (List ℕ)) (line : LineView) → line_in words ≡ Ok line
        → is_listed line.row ≡ true → IsLine line }
{}

/// A record that some line in words gives, whose token is not the one that it would have without,
/// is written as this line; so is the record of each such line that is read. So a record is
/// written by its bytes only where no line in words gives it. No listed line has the token that it
/// would have without.
pub fn records_are_written_in_words()
    ensures token { (next : ℕ) (e : EventView) → (line_of next e).token ≢ Some next }
    ensures said { (next : ℕ) (line : LineView) (e : EventView) (image : List ℕ) → next < 2 ^ 32
        → is_in_words line.row ≡ true → IsLine line → line.token ≢ Some next
        → made line.row line.values (unwrap_or line.token next) image ≡ Some e
        → line_of next e ≡ line }
    ensures read { (next : ℕ) (words : List (List ℕ)) (line : LineView) (e : EventView)
        (image : List ℕ) → next < 2 ^ 32 → line_in words ≡ Ok line
        → is_in_words line.row ≡ true → line.token ≢ Some next
        → made line.row line.values (unwrap_or line.token next) image ≡ Some e
        → line_of next e ≡ line }
{}

/// Behind the same token two lines differ exactly where their events do. Events with one line, each
/// behind a token of its own, are the same, or commands that differ in that token alone.
pub fn lines_differ_as_their_events()
    ensures same { (next : ℕ) (e f : EventView) → IsEvent e → IsEvent f
        → (line_text (line_of next e) ≡ line_text (line_of next f)) ↔ (e ≡ f) }
    ensures other { (next other : ℕ) (e f : EventView) → IsEvent e → IsEvent f
        → line_text (line_of next e) ≡ line_text (line_of other f)
        → (e ≡ f) ⊎ DifferInToken next other e f }
{}

/// The token that comes next counts up to the next command alone. A line with a token, or of no
/// command in words, gives its record whatever the token; behind a command the next token is that
/// of this command alone; and of what is listed, only the line of the first command depends on it.
pub fn a_token_counts_up_to_the_next_command()
    ensures gives { (next other : ℕ) (line : LineView) (image : List ℕ)
        → (line.token ≢ None) ⊎ (is_command line.row ≡ false)
        → made line.row line.values (unwrap_or line.token next) image
        ≡ made line.row line.values (unwrap_or line.token other) image }
    ensures behind { (next other : ℕ) (command payload : List ℕ)
        → token_behind next (Command command payload)
        ≡ token_behind other (Command command payload) }
    ensures listed { (n : ℕ) (es fs : List EventView) (command payload : List ℕ)
        → AllByRecursion IsNoCommand es → HasParts n es fs command payload }
{}

/// The events of a script are within its limits.
pub fn scripts_are_within_the_limits()
    ensures { (script : List ℕ) (es : List EventView) → All (λ b. b < 256) script
        → IsScript script → events script ≡ Ok es → IsWithinLimits es }
{}

/// The text form is read back. Of the text of events within a script's limits these events are
/// read, whatever the image. Of the text of a script its events up to its end are read.
pub fn the_text_form_is_read_back()
    ensures events { (image : List ℕ) (es : List EventView) → AllByRecursion IsBeforeEnd es
        → AllByRecursion HasEventBytes es → IsWithinLimits es
        → text_events image (listed es) ≡ Ok es }
    ensures script { (image script : List ℕ) (es : List EventView)
        → All (λ b. b < 256) script → IsScript script → events script ≡ Ok es
        → text_events image (listed es) ≡ Ok es }
{}

/// Each script has one text. What is listed of what is read of a listed text is this text, and two
/// lists of events with one text are the same.
pub fn each_script_has_one_text()
    ensures again { (image : List ℕ) (es fs : List EventView) → AllByRecursion IsBeforeEnd es
        → AllByRecursion HasEventBytes es → IsWithinLimits es
        → text_events image (listed es) ≡ Ok fs → listed fs ≡ listed es }
    ensures one { (es fs : List EventView) → AllByRecursion IsBeforeEnd es
        → AllByRecursion HasEventBytes es → IsWithinLimits es
        → AllByRecursion IsBeforeEnd fs → AllByRecursion HasEventBytes fs → IsWithinLimits fs
        → listed es ≡ listed fs → es ≡ fs }
{}

/// The text of events within a script's limits is no longer than a text may be; nor is that of a
/// script.
pub fn listed_texts_are_short()
    ensures events { (es : List EventView) → AllByRecursion IsBeforeEnd es
        → AllByRecursion HasEventBytes es
        → IsWithinLimits es → length (listed es) ≤ TEXT_LIMIT }
    ensures script { (script : List ℕ) (es : List EventView) → All (λ b. b < 256) script
        → IsScript script → events script ≡ Ok es → length (listed es) ≤ TEXT_LIMIT }
{}

/// A line that takes bytes of an image gives what the line with these bytes gives: those of a range
/// in the image, those from an offset on, or a page of them with 0xff past the image's end. It
/// gives nothing where the range leaves the image, or where the offset is at its end or past it.
pub fn image_words_take_bytes_of_the_image()
    ensures range { (address start size token : ℕ) (image : List ℕ)
        → start + size ≤ length image
        → made rows.WriteRange (range_line address start size) token image
        ≡ made rows.Write (write_line address (slice_range image start (start + size))) token [] }
    ensures past_range { (address start size token : ℕ) (image : List ℕ)
        → length image < start + size
        → made rows.WriteRange (range_line address start size) token image ≡ None }
    ensures rest { (address start token : ℕ) (image : List ℕ) → start < length image
        → made rows.WriteRest (rest_line address start) token image
        ≡ made rows.Write (write_line address (drop start image)) token [] }
    ensures past_rest { (address start token : ℕ) (image : List ℕ) → length image ≤ start
        → made rows.WriteRest (rest_line address start) token image ≡ None }
    ensures page { (number count address family start token : ℕ) (image : List ℕ)
        → start < length image
        → made rows.ImageBlock (page_line number count address family start) token image
        ≡ made rows.Block (block_line number count address family (page_of (drop start image)))
        token [] }
    ensures past_page { (number count address family start token : ℕ) (image : List ℕ)
        → length image ≤ start
        → made rows.ImageBlock (page_line number count address family start) token image ≡ None }
    ensures size { (bytes : List ℕ) → length (page_of bytes) ≡ 256 }
    ensures bytes { (bytes : List ℕ) (i : ℕ) → i < 256
        → get_or (page_of bytes) i 0 ≡ get_or bytes i 255 }
{}
