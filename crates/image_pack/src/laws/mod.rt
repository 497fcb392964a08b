//! Laws of sealed images, each the contract of a function that does nothing.

ghost use Rattle.std.specs.Prelude.{◌≡◌, ◌⊎◌, ◌↔◌, ℕ, ◌+◌, ◌-◌, ◌*◌, ◌<◌, ◌≤◌, ◌^◌, Bool, List, [], ◌∷◌, ◌++◌, true, length, take, drop, slice_index, Ok, Option, Some, None};
ghost use Rattle.pico_board.specs.declared.window.TheConstants.{MOST_FLASH_BYTES};
ghost use Rattle.pico_board.specs.declared.window.Window.{Window};
ghost use Rattle.pico_board.specs.Content.{Content, flash_base, window_bytes};
ghost use Rattle.block_codec.specs.Blocks.{BlockView};
ghost use Rattle.block_codec.specs.Erased.{AreErased};
ghost use Rattle.load_map.specs.declared.addresses.TheConstants.{SRAM_START};
ghost use Rattle.image_check.specs.Changes.{moved_to};
ghost use Rattle.image_check.specs.NotBelow.{NotBelow};
ghost use Rattle.image_check.specs.declared.examining.Defined.{Defined};
ghost use Rattle.image_check.specs.Addressing.{in_flash};
ghost use Rattle.image_check.specs.Rules.{map_loads};
ghost use Rattle.image_check.specs.Entering.{table_address};
ghost use Rattle.image_check.specs.Valid.{IsDefined, IsValidImage, Valid};
ghost use Rattle.image_def.specs.declared.started.Started.{Started};
ghost use Rattle.image_pack.specs.declared.spec.SealError.{SealError};
ghost use Rattle.image_pack.specs.declared.spec.SealSpec.{SealSpec};
ghost use Rattle.image_pack.specs.Faults.{IsSealFault, IsSealed, block_offset};
ghost use Rattle.image_pack.specs.Filling.{whole_sectors, whole_words};
ghost use Rattle.image_pack.specs.declared.parts.Parts.{Parts};
ghost use Rattle.image_pack.specs.Sealing.{digest_text, own_loads, parts_in, relinked, sealed_text, sram_loads};
ghost use Rattle.image_pack.specs.Within.{IsWithin};
ghost use Rattle.load_map.specs.declared.load.Load.{Load};
ghost use Rattle.load_map.specs.Given.{byte_at};
ghost use Rattle.load_map.specs.Stored.{AreStoredIn};
ghost use Rattle.block_codec.specs.Words.{word_bytes};
ghost use Rattle.image_check.specs.declared.why.Why.{Why};
ghost use Rattle.image_pack.specs.declared.spec.SealError.TheVariants.{Unsealable};
ghost use Rattle.image_pack.specs.Faults.{IsRightSpec, IsSealable};
ghost use Rattle.image_pack.specs.ReadBack.{IsHalves, IsReadBack, MeetsRollback, SaysSpec};
ghost use Rattle.image_pack.specs.Starts.{IsLoadedFrom, LinkIsOutsideTable, StartsAs, StartsBy, Stays, TableIsStoredIn, start_of};
ghost use Rattle.image_pack.specs.Unsealable.{IsUnsealable, KeepsRules};
ghost use Rattle.block_codec.specs.declared.definition.EntryPoint.{EntryPoint};
ghost use Rattle.pico_board.specs.declared.boot.Cpu.{Cpu};
ghost use Rattle.pico_board.specs.declared.boot.Cpu.TheVariants.{Arm, Riscv};

/// A binary and a spec have at most one fault, and none where the binary is sealed.
pub fn at_most_one_fault()
    ensures one { (binary : List ℕ) (spec : SealSpec) (e f : SealError)
        → IsSealFault binary spec e → IsSealFault binary spec f → e ≡ f }
    ensures none { (binary : List ℕ) (spec : SealSpec) (e : SealError)
        → IsSealed binary spec → IsSealFault binary spec e → ⊥ }
{}

/// A sealed image is valid, with trial images allowed, in each window of a flash that has 0xff
/// after the image. This holds for every OTP whose rows the image is not below. Its record is the
/// same but for the window, and its definition is the new block.
pub fn a_sealed_image_is_valid_in_a_flash()
    ensures valid { (binary : List ℕ) (spec : SealSpec) (sealed : IsSealed binary spec)
        (c : Content) (w : Window) (f : List ℕ) → AreErased f
        → window_bytes c w ≡ whole_sectors (sealed_text binary spec) ++ f
        → flash_base + length (whole_sectors (sealed_text binary spec) ++ f) ≤ SRAM_START
        → NotBelow c.otp sealed.started → Valid c w spec.cpu true (moved_to w sealed.started) }
    ensures block { (binary : List ℕ) (spec : SealSpec) (sealed : IsSealed binary spec)
        (w : Window) → (moved_to w sealed.started).block ≡ block_offset binary }
{}

/// A window of a flash has a sealed image with 0xff after it. In each such window the image is
/// read back as the spec asks:
/// - Its definition is the new block. It has the spec's version, rollback version, rows and trial
///   bit. It keeps the ENTRY_POINT of the binary's definition, or else its VECTOR_TABLE.
/// - Its first load is all bytes before the new block. The other loads are those of the binary
///   that go into SRAM.
/// - The covered bytes begin with all bytes before the new block. Their SHA-256 is the value of
///   the HASH_VALUE item.
/// - The record of the image there says what the spec asks for. It is not below its rows for
///   exactly those OTPs that meet the spec's rollback rule.
/// - The image starts as the binary's definition says: by its ENTRY_POINT. Without an ENTRY_POINT,
///   for Arm it starts by the vector table that its VECTOR_TABLE names, or else by the one at the
///   window's start, with the sealed image's loads.
/// - The window has no other definition, and the definition has no other loads.
pub fn a_sealed_image_is_read_back()
    ensures image { (binary : List ℕ) (spec : SealSpec) → IsSealed binary spec
        → IsHalves spec.version → (f : List ℕ) → AreErased f
        → flash_base + length (whole_sectors (sealed_text binary spec) ++ f) ≤ SRAM_START
        → IsReadBack binary spec (whole_sectors (sealed_text binary spec) ++ f) }
    ensures record { (binary : List ℕ) (spec : SealSpec) (sealed : IsSealed binary spec)
        → IsHalves spec.version → (w : Window) → SaysSpec spec (moved_to w sealed.started) }
    ensures not_below { (binary : List ℕ) (spec : SealSpec) (sealed : IsSealed binary spec)
        → IsHalves spec.version → (otp : List ℕ)
        → NotBelow otp sealed.started ↔ MeetsRollback otp spec }
    ensures entry { (binary : List ℕ) (spec : SealSpec) (sealed : IsSealed binary spec)
        → IsHalves spec.version → (own : KeepsRules spec.cpu (whole_sectors binary))
        (e : EntryPoint) → own.image.def.entry_point ≡ Some e
        → (w : Window) → StartsAs e (moved_to w sealed.started) }
    ensures start { (binary : List ℕ) (spec : SealSpec) (sealed : IsSealed binary spec)
        → IsHalves spec.version → (own : KeepsRules spec.cpu (whole_sectors binary))
        (f : List ℕ) → AreErased f
        → flash_base + length (whole_sectors (sealed_text binary spec) ++ f) ≤ SRAM_START
        → (back : IsReadBack binary spec (whole_sectors (sealed_text binary spec) ++ f))
        (w : Window) → StartsBy spec.cpu own.image.def
        (whole_sectors (sealed_text binary spec) ++ f) back.loads (moved_to w sealed.started) }
    ensures only { (binary : List ℕ) (spec : SealSpec) (bytes : List ℕ)
        (back : IsReadBack binary spec bytes) (loop : List BlockView) (image : Defined)
        (loads : List Load) → IsDefined spec.cpu bytes loop image
        → map_loads in_flash (length bytes) image.block image.def ≡ Ok loads
        → (image ≡ back.image) × (loads ≡ back.loads) }
{}

/// A sealed image starts as its binary does. Suppose that the binary is itself a valid image in
/// some window that has 0xff after it, for some OTP. Then the sealed image has its PC, its SP and
/// its limit, in each window. Without an ENTRY_POINT that limit is 0. This holds without more
/// where the binary's definition has an ENTRY_POINT, and for RISC-V. Where the start comes from a
/// vector table, no byte of the table may be one of the four of the link word that sealing
/// rewrites. Where the table is loaded into SRAM, those of its bytes that a load stores have to
/// come from the binary. They may not come from the 0xff after it, where the new block comes to
/// stand. The link word is outside the table where the definition is the last block of the
/// binary's loop, as it is in a loop of one block.
pub fn a_sealed_image_starts_as_its_binary()
    ensures entry { (binary : List ℕ) (spec : SealSpec) (sealed : IsSealed binary spec)
        → IsHalves spec.version → (g : List ℕ) → AreErased g → (w : Window) (trial : Bool)
        (otp : List ℕ) (s : Started)
        (valid : IsValidImage in_flash w spec.cpu trial otp (whole_sectors binary ++ g) s)
        (e : EntryPoint) → valid.image.def.entry_point ≡ Some e
        → (v : Window) → StartsAs (start_of s) (moved_to v sealed.started) }
    ensures riscv { (binary : List ℕ) (spec : SealSpec) (sealed : IsSealed binary spec)
        → IsHalves spec.version → (g : List ℕ) → AreErased g → (w : Window) (trial : Bool)
        (otp : List ℕ) (s : Started)
        → IsValidImage in_flash w spec.cpu trial otp (whole_sectors binary ++ g) s
        → spec.cpu ≡ Riscv → (v : Window) → StartsAs (start_of s) (moved_to v sealed.started) }
    ensures flash { (binary : List ℕ) (spec : SealSpec) (sealed : IsSealed binary spec)
        → IsHalves spec.version → (g : List ℕ) → AreErased g → (w : Window) (trial : Bool)
        (otp : List ℕ) (s : Started)
        (valid : IsValidImage in_flash w spec.cpu trial otp (whole_sectors binary ++ g) s)
        → length (whole_sectors binary ++ g) ≤ MOST_FLASH_BYTES
        → (p : Parts) → parts_in spec.cpu (whole_sectors binary) ≡ Ok p
        → table_address flash_base valid.image.def < SRAM_START
        → LinkIsOutsideTable valid.sound.loads (table_address flash_base valid.image.def) p.link_at
        → (v : Window) → StartsAs (start_of s) (moved_to v sealed.started) }
    ensures loaded { (binary : List ℕ) (spec : SealSpec) (sealed : IsSealed binary spec)
        → IsHalves spec.version → (g : List ℕ) → AreErased g → (w : Window) (trial : Bool)
        (otp : List ℕ) (s : Started)
        (valid : IsValidImage in_flash w spec.cpu trial otp (whole_sectors binary ++ g) s)
        → length (whole_sectors binary ++ g) ≤ MOST_FLASH_BYTES
        → (p : Parts) → parts_in spec.cpu (whole_sectors binary) ≡ Ok p
        → TableIsStoredIn (block_offset binary) valid.sound.loads
        (table_address flash_base valid.image.def)
        → LinkIsOutsideTable valid.sound.loads (table_address flash_base valid.image.def) p.link_at
        → (v : Window) → StartsAs (start_of s) (moved_to v sealed.started) }
    ensures outside { (binary g : List ℕ) → AreErased g → (w : Window) (trial : Bool)
        (otp : List ℕ) (s : Started)
        (valid : IsValidImage in_flash w Arm trial otp (whole_sectors binary ++ g) s)
        → valid.image.def.entry_point ≡ None
        → (p : Parts) → parts_in Arm (whole_sectors binary) ≡ Ok p
        → p.last ≡ valid.image.block.at
        → LinkIsOutsideTable valid.sound.loads (table_address flash_base valid.image.def)
        p.link_at }
{}

/// A window of a flash has a sealed image with 0xff after it. In each such window each byte of the
/// binary is as it was, but those of the link word that is rewritten. At each address of SRAM the
/// loads that are read back give the byte that the loads of the binary's own image give, or none
/// where those give none. This leaves out bytes that are stored in the link word, or after the
/// binary.
pub fn a_sealed_image_gives_the_bytes_of_its_binary()
    ensures flash { (binary : List ℕ) (spec : SealSpec) → IsSealed binary spec → (f : List ℕ)
        (p : Parts) → parts_in spec.cpu (whole_sectors binary) ≡ Ok p
        → (offset : ℕ) → Stays (block_offset binary) p.link_at offset
        → slice_index (whole_sectors (sealed_text binary spec) ++ f) offset
        ≡ slice_index (whole_sectors binary) offset }
    ensures sram { (binary : List ℕ) (spec : SealSpec) → IsSealed binary spec → (f : List ℕ)
        (p : Parts) → parts_in spec.cpu (whole_sectors binary) ≡ Ok p
        → (own : KeepsRules spec.cpu (whole_sectors binary))
        → flash_base + length (whole_sectors (sealed_text binary spec) ++ f) ≤ SRAM_START
        → (back : IsReadBack binary spec (whole_sectors (sealed_text binary spec) ++ f))
        (address : ℕ) → SRAM_START ≤ address
        → ((offset : ℕ) → IsLoadedFrom own.loads address offset
        → Stays (block_offset binary) p.link_at offset)
        → byte_at flash_base (whole_sectors (sealed_text binary spec) ++ f) back.loads address
        ≡ byte_at flash_base (whole_sectors binary) own.loads address }
{}

/// Suppose that the loads of the binary's own image are stored in the binary, filled to whole
/// words. Then the loads that a sealed image takes over are the same, and the sealed image stores
/// nothing past its end. The new block stands after the binary, within the sealed image.
pub fn a_sealed_image_stores_nothing_past_its_end()
    ensures stored { (binary : List ℕ) (spec : SealSpec) (bytes : List ℕ)
        (back : IsReadBack binary spec bytes) (own : KeepsRules spec.cpu (whole_sectors binary))
        → AreStoredIn (block_offset binary) own.loads
        → AreStoredIn (length (sealed_text binary spec)) back.loads }
    ensures same { (binary : List ℕ) (spec : SealSpec) (bytes : List ℕ)
        (back : IsReadBack binary spec bytes) (own : KeepsRules spec.cpu (whole_sectors binary))
        → AreStoredIn (block_offset binary) own.loads → back.copied ≡ sram_loads own.loads }
    ensures behind { (binary : List ℕ) → length binary ≤ block_offset binary }
    ensures within { (binary : List ℕ) (spec : SealSpec)
        → block_offset binary ≤ length (sealed_text binary spec) }
{}

/// The rules here are those of a valid image from the first block to the items, and the one on the
/// load map. The binary is filled with 0xff to whole sectors. It cannot be sealed for a reason
/// exactly where that is the answer of the first of these rules that it fails. Otherwise it keeps
/// all of them. Exactly one of these cases holds.
pub fn why_a_binary_cannot_be_sealed()
    ensures fault { (binary : List ℕ) (spec : SealSpec) (why : Why)
        → IsSealFault binary spec (Unsealable why)
        ↔ (IsRightSpec spec × IsUnsealable spec.cpu (whole_sectors binary) why) }
    ensures sealable { (binary : List ℕ) (spec : SealSpec)
        → IsSealable binary spec
        ↔ (IsRightSpec spec × KeepsRules spec.cpu (whole_sectors binary)) }
    ensures some { (cpu : Cpu) (bytes : List ℕ)
        → KeepsRules cpu bytes ⊎ ((why : Why) × IsUnsealable cpu bytes why) }
    ensures not_both { (cpu : Cpu) (bytes : List ℕ) (why : Why)
        → KeepsRules cpu bytes → IsUnsealable cpu bytes why → ⊥ }
    ensures one { (cpu : Cpu) (bytes : List ℕ) (why other : Why)
        → IsUnsealable cpu bytes why → IsUnsealable cpu bytes other → why ≡ other }
{}

/// The bytes before the new block are the binary's, but for the link word of the last block of its
/// loop. This word leads from that block to the end of these bytes, and lies within the binary.
pub fn the_binary_stays_but_for_one_link()
    ensures within { (binary : List ℕ) (cpu : Cpu) (p : Parts) → length binary ≤ MOST_FLASH_BYTES
        → parts_in cpu (whole_sectors binary) ≡ Ok p
        → IsWithin p (length (whole_words binary)) }
    ensures long { (bytes : List ℕ) (p : Parts) → IsWithin p (length bytes)
        → length (relinked bytes (Some p)) ≡ length bytes }
    ensures others { (bytes : List ℕ) (p : Parts) (i : ℕ) → IsWithin p (length bytes)
        → (i < p.link_at) ⊎ (p.link_at + 4 ≤ i)
        → slice_index (relinked bytes (Some p)) i ≡ slice_index bytes i }
    ensures link { (bytes : List ℕ) (p : Parts) → IsWithin p (length bytes)
        → take 4 (drop p.link_at (relinked bytes (Some p)))
        ≡ word_bytes (length bytes - p.last) }
    ensures none { (bytes : List ℕ) → relinked bytes None ≡ bytes }
{}

/// The digest of a new block covers all bytes before it first.
pub fn all_bytes_before_the_new_block_are_covered()
    ensures { (spec : SealSpec) (bytes entry : List ℕ) (loads : List Load) (at : ℕ)
        → (rest : List ℕ)
        × (digest_text spec bytes entry (own_loads (length bytes) at loads) ≡ bytes ++ rest) }
{}
