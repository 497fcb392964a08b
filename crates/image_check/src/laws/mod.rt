//! Laws of valid images, each the contract of a function that does nothing.

ghost use Rattle.std.specs.Prelude.{◌≡◌, ◌⊎◌, ◌↔◌, ℕ, ◌+◌, ◌*◌, ◌%◌, ◌^◌, ◌≤◌, ◌++◌, Bool, true, false, List, [], length, slice_get, slice_index, slice_set, Some, None, Ok, Err};
ghost use Rattle.pico_board.specs.declared.boot.Cpu.{Cpu};
ghost use Rattle.pico_board.specs.declared.window.Window.{Window};
ghost use Rattle.pico_board.specs.Content.{Content, flash_base, window_bytes};
ghost use Rattle.block_loop.specs.declared.fault.LoopFault.TheVariants.{NoBlock as NoFirst};
ghost use Rattle.image_def.specs.declared.started.Started.{Started};
ghost use Rattle.image_def.specs.Flags.{is_trial};
ghost use Rattle.image_def.specs.Trial.{trial_cleared, untried};
ghost use Rattle.load_map.specs.Covered.{covered_digest};
ghost use Rattle.image_check.specs.declared.addressing.Addressing.{Addressing};
ghost use Rattle.image_check.specs.declared.why.Why.{Why};
ghost use Rattle.image_check.specs.declared.why.Why.TheVariants.{Loop, NoBlock};
ghost use Rattle.image_check.specs.Entering.{IsEntry};
ghost use Rattle.image_check.specs.Image.{defined_in, image_at, image_in};
ghost use Rattle.image_check.specs.Valid.{IsDefined, IsRecordOfImage, IsSound, IsValidImage, Valid};
ghost use Rattle.image_check.specs.Changes.{ClearsTrialBit, bought, moved_to, place_of, untried_image};
ghost use Rattle.otp_roll.specs.Flags.{rollback_required};
ghost use Rattle.otp_roll.specs.Rows.{Rises, count};
ghost use Rattle.block_codec.specs.Erased.{AreErased, IsErasedFrom};
ghost use Rattle.block_codec.specs.declared.definition.EntryPoint.{EntryPoint};
ghost use Rattle.load_map.specs.declared.addresses.TheConstants.{SRAM_START};
ghost use Rattle.image_check.specs.Addressing.{in_flash};
ghost use Rattle.image_check.specs.Answers.{and_then};
ghost use Rattle.image_check.specs.Examined.{confirmed_in, examined_in};
ghost use Rattle.image_check.specs.Rules.{map_answer, map_loads};
ghost use Rattle.image_check.specs.declared.examining.Defined.{Defined};
ghost use Rattle.block_codec.specs.Blocks.{BlockView, block_size};
ghost use Rattle.block_codec.specs.Items.{items_of};
ghost use Rattle.block_codec.specs.declared.definition.Def.{Def};
ghost use Rattle.block_codec.specs.declared.items.Item.{Item};
ghost use Rattle.block_loop.specs.Loop.{loop_of};
ghost use Rattle.load_map.specs.Reading.{loads_of};
ghost use Rattle.load_map.specs.declared.load.Load.{Load};
ghost use Rattle.image_check.specs.WhyNot.{IsWhyNot, WhyNot};
ghost use Rattle.image_check.specs.NotBelow.{NotBelow};
ghost use Rattle.image_check.specs.SameImage.{AgreeFrom, AgreeOnStorage, HoldsImage, HoldSameImage, SameImage};

/// The function that judges rule by rule answers an image exactly where all rules hold of it. It
/// answers a reason exactly where that is the answer of the first rule that fails.
pub fn judged_exactly()
    ensures valid { (a : Addressing) (w : Window) (cpu : Cpu) (trial : Bool) (otp bytes : List ℕ)
        (s : Started)
        → IsValidImage a w cpu trial otp bytes s ↔ (image_in a w cpu trial otp bytes ≡ Ok s) }
    ensures why_not { (a : Addressing) (w : Window) (cpu : Cpu) (trial : Bool) (otp bytes : List ℕ)
        (y : Why)
        → IsWhyNot a cpu trial otp bytes y ↔ (image_in a w cpu trial otp bytes ≡ Err y) }
    ensures valid_in_flash { (c : Content) (w : Window) (cpu : Cpu) (trial : Bool) (s : Started)
        → Valid c w cpu trial s ↔ (image_at c w cpu trial ≡ Ok s) }
    ensures why_not_in_flash { (c : Content) (w : Window) (cpu : Cpu) (trial : Bool) (y : Why)
        → WhyNot c w cpu trial y ↔ (image_at c w cpu trial ≡ Err y) }
{}

/// A window holds a valid image or there is an answer why not, and never both; and either is the
/// only one.
pub fn one_answer()
    ensures some { (a : Addressing) (w : Window) (cpu : Cpu) (trial : Bool) (otp bytes : List ℕ)
        → ((s : Started) × IsValidImage a w cpu trial otp bytes s)
        ⊎ ((y : Why) × IsWhyNot a cpu trial otp bytes y) }
    ensures not_both { (a : Addressing) (w : Window) (cpu : Cpu) (trial : Bool) (otp bytes : List ℕ)
        (s : Started) (y : Why)
        → IsValidImage a w cpu trial otp bytes s → IsWhyNot a cpu trial otp bytes y → ⊥ }
    ensures one_image { (a : Addressing) (w : Window) (cpu : Cpu) (trial : Bool)
        (otp bytes : List ℕ) (s t : Started)
        → IsValidImage a w cpu trial otp bytes s → IsValidImage a w cpu trial otp bytes t → s ≡ t }
    ensures one_reason { (a : Addressing) (cpu : Cpu) (trial : Bool) (otp bytes : List ℕ)
        (y z : Why)
        → IsWhyNot a cpu trial otp bytes y → IsWhyNot a cpu trial otp bytes z → y ≡ z }
{}

/// That a loop does not close is never answered for a window without a first block.
pub fn an_open_loop_has_a_first_block()
    ensures { (a : Addressing) (cpu : Cpu) (trial : Bool) (otp bytes : List ℕ)
        → IsWhyNot a cpu trial otp bytes (Loop NoFirst) → ⊥ }
{}

/// An image that is valid where no trial image is allowed is no trial, and is valid where one is.
/// An image that is no trial and is valid where one is allowed is valid where none is.
pub fn trial_allows_more()
    ensures more { (a : Addressing) (w : Window) (cpu : Cpu) (otp bytes : List ℕ) (s : Started)
        → IsValidImage a w cpu false otp bytes s → IsValidImage a w cpu true otp bytes s }
    ensures no_trial { (a : Addressing) (w : Window) (cpu : Cpu) (otp bytes : List ℕ) (s : Started)
        → IsValidImage a w cpu false otp bytes s → s.trial ≡ false }
    ensures plain { (a : Addressing) (w : Window) (cpu : Cpu) (otp bytes : List ℕ) (s : Started)
        → s.trial ≡ false → IsValidImage a w cpu true otp bytes s
        → IsValidImage a w cpu false otp bytes s }
{}

/// Validity in three parts. The window holds the image, by its bytes alone. The image is no trial,
/// or one is allowed. It is not below its rollback rows, and this part alone reads the OTP.
pub fn validity_in_three_parts()
    ensures { (w : Window) (cpu : Cpu) (trial : Bool) (otp bytes : List ℕ) (s : Started)
        → IsValidImage in_flash w cpu trial otp bytes s
        ↔ ((s.window ≡ w) × HoldsImage cpu bytes s × (s.trial ≡ true → trial ≡ true)
        × NotBelow otp s) }
{}

/// A window whose first 4096 bytes are erased has no first block.
pub fn an_erased_sector_holds_no_image()
    ensures { (a : Addressing) (w : Window) (cpu : Cpu) (trial : Bool) (otp bytes : List ℕ)
        → IsErasedFrom bytes 0 4096 → image_in a w cpu trial otp bytes ≡ Err NoBlock }
{}

/// A valid image is not below its rollback rows.
pub fn valid_is_not_below()
    ensures { (a : Addressing) (w : Window) (cpu : Cpu) (trial : Bool) (otp bytes : List ℕ)
        (s : Started)
        → IsValidImage a w cpu trial otp bytes s → NotBelow otp s }
{}

/// The image of a window, at any base, depends on the window's bytes and the OTP alone. Of the OTP
/// it depends on whether rollback versions are required, and on the counts of rows.
pub fn local()
    ensures flash { (c d : Content) (w : Window) (cpu : Cpu) (trial : Bool)
        → window_bytes c w ≡ window_bytes d w → c.otp ≡ d.otp
        → image_at c w cpu trial ≡ image_at d w cpu trial }
    ensures any_base { (base : ℕ) (in_place : Bool) (w : Window) (cpu : Cpu) (trial : Bool)
        (otp other bytes those : List ℕ) → bytes ≡ those → otp ≡ other
        → image_in (record { base = base; in_place = in_place }) w cpu trial otp bytes
        ≡ image_in (record { base = base; in_place = in_place }) w cpu trial other those }
    ensures rows { (a : Addressing) (w : Window) (cpu : Cpu) (trial : Bool)
        (otp other bytes : List ℕ)
        → rollback_required other ≡ rollback_required otp
        → ((rows : List ℕ) → count other rows ≡ count otp rows)
        → image_in a w cpu trial other bytes ≡ image_in a w cpu trial otp bytes }
{}

/// The rollback rule only gets harder as OTP rows rise: an image that is valid on raised rows was
/// valid on the rows before. One that is valid on some rows is valid on all others that it is not
/// below.
pub fn raised_rows_allow_less()
    ensures raised { (a : Addressing) (w : Window) (cpu : Cpu) (trial : Bool)
        (old new bytes : List ℕ)
        (s : Started) → Rises old new → IsValidImage a w cpu trial new bytes s
        → IsValidImage a w cpu trial old bytes s }
    ensures not_below { (old new : List ℕ) (s : Started) → Rises old new → NotBelow new s
        → NotBelow old s }
    ensures others { (a : Addressing) (w : Window) (cpu : Cpu) (trial : Bool)
        (otp other bytes : List ℕ) (s : Started) → IsValidImage a w cpu trial otp bytes s
        → NotBelow other s → IsValidImage a w cpu trial other bytes s }
{}

/// An image that is sound in a window is sound, with the same entry, in every longer one that has
/// erased bytes behind it. The longer one has to end below SRAM, as each window of a flash does.
/// One that is valid there is valid in the longer one, wherever that stands, and its record is the
/// same but for the window.
pub fn erased_bytes_behind_keep_the_image()
    ensures sound { (a : Addressing) (cpu : Cpu) (w f : List ℕ) (image : Defined)
        (entry : EntryPoint) → AreErased f → a.base + length (w ++ f) ≤ SRAM_START
        → IsSound a cpu w image entry → IsSound a cpu (w ++ f) image entry }
    ensures valid { (a : Addressing) (cpu : Cpu) (trial : Bool) (one two : Window)
        (otp w f : List ℕ) (s : Started) → AreErased f → a.base + length (w ++ f) ≤ SRAM_START
        → IsValidImage a one cpu trial otp w s
        → IsValidImage a two cpu trial otp (w ++ f) (moved_to two s) }
    ensures flash { (c : Content) (cpu : Cpu) (trial : Bool) (one two : Window) (p f : List ℕ)
        (s : Started) → AreErased f → flash_base + length (p ++ f) ≤ SRAM_START
        → window_bytes c two ≡ p ++ f → IsValidImage in_flash one cpu trial c.otp p s
        → Valid c two cpu trial (moved_to two s) }
{}

/// An image that is valid with a trial image allowed is held. Where another content has the same
/// bytes in its window, that content holds the same image.
pub fn same_bytes_same_image()
    ensures held { (c : Content) (w : Window) (cpu : Cpu) (s : Started)
        → Valid c w cpu true s → HoldsImage cpu (window_bytes c w) s }
    ensures same { (c d : Content) (s : Started) (cpu : Cpu)
        → HoldsImage cpu (window_bytes c s.window) s
        → window_bytes c s.window ≡ window_bytes d s.window → SameImage c d s cpu }
{}

/// An image that is sound stays sound where its trial bit is cleared, as a buy does it. Its entry
/// and its digest stay. An image that is valid with its trial bit is valid without it, also where
/// no trial is allowed. Its record is the same but for that bit.
pub fn a_cleared_trial_bit_keeps_the_image()
    ensures sound { (a : Addressing) (cpu : Cpu) (w v : List ℕ) (image : Defined)
        (entry : EntryPoint) → IsSound a cpu w image entry → ClearsTrialBit w v (place_of image)
        → IsSound a cpu v (untried_image image) entry }
    ensures valid { (a : Addressing) (window : Window) (cpu : Cpu) (trial allowed : Bool)
        (otp w v : List ℕ) (s : Started) → IsValidImage a window cpu trial otp w s
        → ClearsTrialBit w v s.image_at → IsValidImage a window cpu allowed otp v (bought s) }
    ensures digest { (a : Addressing) (cpu : Cpu) (w v : List ℕ) (image : Defined)
        (entry : EntryPoint) (s : IsSound a cpu w image entry)
        → ClearsTrialBit w v (place_of image)
        → covered_digest v (trial_cleared image.block) (untried image.def) s.loads
        ≡ covered_digest w image.block image.def s.loads }
    ensures made { (w : List ℕ) (at : ℕ)
        → ClearsTrialBit w (slice_set w (at + 3) (slice_index w (at + 3) % 2 ^ 7)) at }
{}

/// The record of a valid image says what its definition and its entry say.
pub fn a_record_says_what_the_image_says()
    ensures { (a : Addressing) (w : Window) (cpu : Cpu) (trial : Bool) (otp bytes : List ℕ)
        (s : Started)
        → IsValidImage a w cpu trial otp bytes s → IsRecordOfImage a w cpu bytes s }
{}

/// A record says where its image stands and starts, its versions and rows, and whether it is a
/// trial. Each is as the definition or the entry has it.
pub fn what_a_record_says()
    ensures image { (a : Addressing) (w : Window) (cpu : Cpu) (bytes : List ℕ) (s : Started)
        (r : IsRecordOfImage a w cpu bytes s) → IsDefined cpu bytes r.loop r.image
        × IsEntry a.base bytes cpu r.image.block r.image.def r.loads r.entry }
    ensures place { (a : Addressing) (w : Window) (cpu : Cpu) (bytes : List ℕ) (s : Started)
        (r : IsRecordOfImage a w cpu bytes s) → (s.window ≡ w) × (s.block ≡ r.image.block.at)
        × (s.image_at ≡ r.image.block.at + 4 * r.image.def.image_word) }
    ensures start { (a : Addressing) (w : Window) (cpu : Cpu) (bytes : List ℕ) (s : Started)
        (r : IsRecordOfImage a w cpu bytes s) → (s.pc ≡ r.entry.pc) × (s.sp ≡ r.entry.sp)
        × (s.limit ≡ r.entry.limit) }
    ensures versions { (a : Addressing) (w : Window) (cpu : Cpu) (bytes : List ℕ) (s : Started)
        (r : IsRecordOfImage a w cpu bytes s) → (s.version ≡ r.image.def.version)
        × (s.rollback ≡ r.image.def.rollback) × (s.rows ≡ r.image.def.rows) }
    ensures trial { (a : Addressing) (w : Window) (cpu : Cpu) (bytes : List ℕ) (s : Started)
        (r : IsRecordOfImage a w cpu bytes s) → s.trial ≡ is_trial r.image.def.flags }
{}

/// An image loads what its LOAD_MAP item says, and nothing where it has none.
pub fn what_an_image_loads()
    ensures none { (a : Addressing) (n : ℕ) (b : BlockView) (def : Def)
        → def.map_item ≡ None → map_loads a n b def ≡ Ok [] }
    ensures some { (a : Addressing) (n : ℕ) (b : BlockView) (def : Def) (i : ℕ) (item : Item)
        → def.map_item ≡ Some i → slice_get (items_of b.items) i ≡ Some item
        → map_loads a n b def ≡ loads_of a.base a.in_place n b item }
{}

/// Where two windows hold the same image, they have the same bytes in each block of the first one's
/// loop. They also have the same bytes in the storage of the loads of its map, or everywhere where
/// the image has no map.
pub fn the_same_image_has_the_same_bytes()
    ensures blocks { (cpu : Cpu) (one two : List ℕ) (s : Started) → HoldSameImage cpu one two s
        → (loop : List BlockView) → loop_of one ≡ Ok loop
        → (k : ℕ) (b : BlockView) → slice_get loop k ≡ Some b
        → AgreeFrom one two b.at (b.at + block_size b) }
    ensures storage { (cpu : Cpu) (one two : List ℕ) (s : Started) → HoldSameImage cpu one two s
        → (image : Defined) → defined_in cpu one ≡ Ok image
        → (loads : List Load) → map_answer in_flash (length one) image.block image.def ≡ Ok loads
        → AgreeOnStorage one two image.def.map_item loads }
{}

/// The image of a window is what the rules before the digest rule let pass, judged by the last two.
pub fn the_two_halves_of_a_check()
    ensures { (a : Addressing) (w : Window) (cpu : Cpu) (trial : Bool) (otp bytes : List ℕ)
        → and_then (examined_in a cpu trial otp bytes) (confirmed_in w bytes)
        ≡ image_in a w cpu trial otp bytes }
{}
