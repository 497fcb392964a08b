//! Laws of load maps, each the contract of a function without a body.

ghost use Rattle.std.specs.Prelude.{◌≡◌, ◌≢◌, ◌↔◌, ◌⊎◌, ℕ, pos, negsuc, ◌+ℤ◌, ◌+◌, ◌-◌, ◌*◌, ◌/◌, ◌%◌, ◌^◌, ◌<◌, ◌≤◌, ◌++◌, ◌∷◌, [], Bool, false, true, List, length, take, filter_map, slice_get, slice_index, slice_set, Ok, Err, Some, None};
ghost use Rattle.std.specs.Int.{cast_signed, w32};
ghost use Rattle.sha2.specs.Sha256.{sha256};
ghost use Rattle.block_codec.specs.Blocks.{BlockView, block_words};
ghost use Rattle.block_codec.specs.FirstFault.{AreSound, IsFirst};
ghost use Rattle.block_codec.specs.HighByte.{changed_block};
ghost use Rattle.block_codec.specs.Items.{items_of};
ghost use Rattle.block_codec.specs.Words.{bytes_of, word_of};
ghost use Rattle.block_codec.specs.declared.definition.Def.{Def};
ghost use Rattle.block_codec.specs.declared.items.Item.{Item};
ghost use Rattle.load_map.specs.Addresses.{is_sram};
ghost use Rattle.load_map.specs.Agree.{AgreeOn, HaveSameEntries, SameButTrial};
ghost use Rattle.load_map.specs.Covered.{covered, covered_digest, covered_load, masked_words};
ghost use Rattle.load_map.specs.Faults.{IsLoadedToSram, IsShared, IsUsedInPlace};
ghost use Rattle.load_map.specs.Given.{byte_at, load_has_address, in_window, given_word};
ghost use Rattle.load_map.specs.Loads.{IsMapAt, entries_of, entry_count, is_absolute, is_load_map};
ghost use Rattle.load_map.specs.Reading.{covers_block, entry_fault, is_runtime_right, load_of, loads_of, setting_of};
ghost use Rattle.load_map.specs.Stored.{AreClearOf, AreRuntimeRight, AreStoredIn, IsClearOf, IsStoredIn};
ghost use Rattle.load_map.specs.declared.addresses.TheConstants.{SRAM_END, SRAM_START};
ghost use Rattle.load_map.specs.declared.entry.Entry.{Entry};
ghost use Rattle.load_map.specs.declared.load.Load.{Load};
ghost use Rattle.load_map.specs.declared.setting.Setting.{Setting};

use crate::load::MapFault;

/// A LOAD_MAP item has as many entries as bits 0 to 6 of its fourth header byte say. Each entry
/// has three words, and one entry follows the other.
pub fn three_words_an_entry()
    ensures count { (words : List ℕ) (item : Item)
        → length (entries_of words item) ≡ item.high % 128 }
    ensures words { (words : List ℕ) (item : Item) (i : ℕ) → i < item.high % 128
        → slice_get (entries_of words item) i ≡ Some (record {
          place = slice_index words (item.first + 1 + 3 * i);
          runtime = slice_index words (item.first + 1 + 3 * i + 1);
          extent = slice_index words (item.first + 1 + 3 * i + 2);
        }) }
{}

/// A LOAD_MAP item has either spelling of its type byte. After its header it has three words for
/// each entry.
pub fn a_load_map_item()
    ensures { (b : BlockView) (k : ℕ) (item : Item) → slice_get (items_of b.items) k ≡ Some item
        → IsMapAt b k
        ↔ (((item.kind ≡ 0x06) ⊎ (item.kind ≡ 0x86)) × (item.words ≡ 1 + 3 * (item.high % 128))) }
{}

/// What an entry loads. An entry with a first word of 0 is a clear entry of the size in its third
/// word. A relative entry is stored from the signed offset in its first word on, counted from the
/// first byte of the LOAD_MAP item. An absolute entry is stored between two addresses. Either has
/// no load, which is the fault Storage, where its range is wrong: the range leaves the window,
/// starts below the window's first address or ends before it starts.
pub fn what_an_entry_loads()
    ensures clear { (s : Setting) (absolute : Bool) (entry : Entry) → entry.place ≡ 0
        → load_of s absolute entry
        ≡ Some (record { storage = None; runtime = entry.runtime; size = entry.extent }) }
    ensures relative { (s : Setting) (entry : Entry) (x : ℕ) → entry.place ≢ 0
        → pos s.item_at +ℤ cast_signed w32 entry.place ≡ pos x → x + entry.extent ≤ s.len
        → load_of s false entry
        ≡ Some (record { storage = Some x; runtime = entry.runtime; size = entry.extent }) }
    ensures past { (s : Setting) (entry : Entry) (x : ℕ) → entry.place ≢ 0
        → pos s.item_at +ℤ cast_signed w32 entry.place ≡ pos x → s.len < x + entry.extent
        → load_of s false entry ≡ None }
    ensures before { (s : Setting) (entry : Entry) (x : ℕ) → entry.place ≢ 0
        → pos s.item_at +ℤ cast_signed w32 entry.place ≡ negsuc x → load_of s false entry ≡ None }
    ensures absolute { (s : Setting) (entry : Entry) → entry.place ≢ 0 → s.base ≤ entry.place
        → entry.place ≤ entry.extent → entry.extent ≤ s.base + s.len
        → load_of s true entry ≡ Some (record {
          storage = Some
              (entry.place - s.base);
          runtime = entry.runtime;
          size = entry.extent - entry.place;
        }) }
    ensures outside { (s : Setting) (entry : Entry) → entry.place ≢ 0 → (entry.place < s.base)
        ⊎ (entry.extent < entry.place) ⊎ (s.base + s.len < entry.extent)
        → load_of s true entry ≡ None }
{}

/// A load is right where its runtime address is the one at which its storage is seen. It is also
/// right where it lies in SRAM as a whole and need not be used where it is stored.
pub fn where_a_load_is_right()
    ensures { (s : Setting) (load : Load) → (is_runtime_right s load ≡ true)
        ↔ (IsUsedInPlace s.base load.storage load.runtime ⊎ IsLoadedToSram s.in_place load) }
{}

/// A storage covers the block where they have a byte in common; a clear entry has no storage.
pub fn what_covers_a_block()
    ensures stored { (b : BlockView) (x size : ℕ) → (covers_block b (Some x) size ≡ true)
        ↔ ((k : ℕ) × IsShared b x size k) }
    ensures clear { (b : BlockView) (size : ℕ) → covers_block b None size ≡ false }
{}

/// The faults of an entry: its storage is judged first, then its runtime address, then whether it
/// covers the block.
pub fn an_entrys_faults()
    ensures storage { (s : Setting) (b : BlockView) (absolute : Bool) (before : List Entry)
        (entry : Entry) → load_of s absolute entry ≡ None
        → entry_fault s b absolute before entry ≡ Some (MapFault.Storage (length before)) }
    ensures runtime { (s : Setting) (b : BlockView) (absolute : Bool) (before : List Entry)
        (entry : Entry) (load : Load) → load_of s absolute entry ≡ Some load
        → is_runtime_right s load ≡ false → entry_fault s b absolute before entry
        ≡ Some (MapFault.Runtime (length before)) }
    ensures covers { (s : Setting) (b : BlockView) (absolute : Bool) (before : List Entry)
        (entry : Entry) (load : Load) → load_of s absolute entry ≡ Some load
        → is_runtime_right s load ≡ true → covers_block b load.storage load.size ≡ true
        → entry_fault s b absolute before entry ≡ Some (MapFault.CoversBlock (length before)) }
    ensures none { (s : Setting) (b : BlockView) (absolute : Bool) (before : List Entry)
        (entry : Entry) (load : Load) → load_of s absolute entry ≡ Some load
        → is_runtime_right s load ≡ true → covers_block b load.storage load.size ≡ false
        → entry_fault s b absolute before entry ≡ None }
{}

/// A load map's fault is that of the first entry that has one; without a fault it gives the load
/// of each entry, in order.
pub fn the_first_fault()
    ensures fault { (base n : ℕ) (in_place : Bool) (b : BlockView) (item : Item)
        (fault : MapFault) → (loads_of base in_place n b item ≡ Err fault)
        ↔ ((i : ℕ) × IsFirst (entry_fault (setting_of base in_place n b item) b
        (is_absolute item)) (entries_of (block_words b) item) i fault) }
    ensures sound { (base n : ℕ) (in_place : Bool) (b : BlockView) (item : Item)
        (loads : List Load) → loads_of base in_place n b item ≡ Ok loads
        → AreSound (entry_fault (setting_of base in_place n b item) b (is_absolute item))
        (entries_of (block_words b) item) (entry_count item) }
    ensures loads { (base n : ℕ) (in_place : Bool) (b : BlockView) (item : Item)
        → AreSound (entry_fault (setting_of base in_place n b item) b (is_absolute item))
        (entries_of (block_words b) item) (entry_count item)
        → loads_of base in_place n b item ≡ Ok
        (filter_map (load_of (setting_of base in_place n b item) (is_absolute item))
        (entries_of (block_words b) item)) }
{}

/// A map without a fault has one load for each entry. The loads are stored in the window and share
/// no byte with the map's block. Each is used where it is stored, or lies in SRAM as a whole.
pub fn loads_without_a_fault()
    ensures stored { (base n : ℕ) (in_place : Bool) (b : BlockView) (item : Item)
        (loads : List Load) → loads_of base in_place n b item ≡ Ok loads → AreStoredIn n loads }
    ensures clear { (base n : ℕ) (in_place : Bool) (b : BlockView) (item : Item)
        (loads : List Load) → loads_of base in_place n b item ≡ Ok loads → AreClearOf b loads }
    ensures right { (base n : ℕ) (in_place : Bool) (b : BlockView) (item : Item)
        (loads : List Load) → loads_of base in_place n b item ≡ Ok loads
        → AreRuntimeRight (setting_of base in_place n b item) loads }
    ensures count { (base n : ℕ) (in_place : Bool) (b : BlockView) (item : Item)
        (loads : List Load) → loads_of base in_place n b item ≡ Ok loads
        → length loads ≡ entry_count item }
{}

/// A storage lies in a window where it ends in it. It is clear of a block where they have no byte
/// in common. A clear entry has no storage.
pub fn where_storages_lie()
    ensures inside { (n x size : ℕ) → IsStoredIn n (Some x) size ↔ (x + size ≤ n) }
    ensures apart { (b : BlockView) (x size : ℕ)
        → IsClearOf b (Some x) size ↔ ((k : ℕ) → IsShared b x size k → ⊥) }
    ensures clear { (b : BlockView) (n size : ℕ) → IsStoredIn n None size × IsClearOf b None size }
{}

/// A map without a fault has the same loads in a longer window.
pub fn a_longer_window_has_the_same_loads()
    ensures { (base n m : ℕ) (in_place : Bool) (b : BlockView) (item : Item) (loads : List Load)
        → n ≤ m → loads_of base in_place n b item ≡ Ok loads
        → loads_of base in_place m b item ≡ Ok loads }
{}

/// Loads depend on four things alone: the block's offset and size, the words of the map's entries,
/// and the length of the window. So the trial bit in the header of another item changes no load.
pub fn what_loads_depend_on()
    ensures entries { (base n : ℕ) (in_place : Bool) (b c : BlockView) (item : Item)
        → HaveSameEntries item b c → loads_of base in_place n c item
        ≡ loads_of base in_place n b item }
    ensures trial { (base n : ℕ) (in_place : Bool) (b c : BlockView) (i j : ℕ) (image map : Item)
        → i ≢ j → slice_get (items_of b.items) i ≡ Some image
        → slice_get (items_of b.items) j ≡ Some map → 1 ≤ image.words → is_load_map map ≡ true
        → SameButTrial image.first b c → loads_of base in_place n c map
        ≡ loads_of base in_place n b map }
{}

/// The byte at an address is the window's where one is seen there. Otherwise, in SRAM, the last
/// load whose runtime range holds the address gives it: its storage byte, or 0 of a clear entry.
/// Otherwise no byte is given.
pub fn the_byte_at_an_address()
    ensures window { (base : ℕ) (w : List ℕ) (loads : List Load) (a : ℕ) → base ≤ a
        → a < base + length w → byte_at base w loads a ≡ Some (slice_index w (a - base)) }
    ensures stored { (base : ℕ) (w : List ℕ) (loads : List Load) (a i x : ℕ) (load : Load)
        → (a < base) ⊎ (base + length w ≤ a) → SRAM_START ≤ a → a < SRAM_END
        → slice_get loads i ≡ Some load → load.runtime ≤ a → a < load.runtime + load.size
        → ((j : ℕ) (later : Load) → i < j → slice_get loads j ≡ Some later
        → load_has_address a later ≡ false) → load.storage ≡ Some x
        → byte_at base w loads a ≡ Some (slice_index w (x + (a - load.runtime))) }
    ensures clear { (base : ℕ) (w : List ℕ) (loads : List Load) (a i : ℕ) (load : Load)
        → (a < base) ⊎ (base + length w ≤ a) → SRAM_START ≤ a → a < SRAM_END
        → slice_get loads i ≡ Some load → load.runtime ≤ a → a < load.runtime + load.size
        → ((j : ℕ) (later : Load) → i < j → slice_get loads j ≡ Some later
        → load_has_address a later ≡ false) → load.storage ≡ None
        → byte_at base w loads a ≡ Some 0 }
    ensures not_loaded { (base : ℕ) (w : List ℕ) (loads : List Load) (a : ℕ) → (a < base)
        ⊎ (base + length w ≤ a) → ((i : ℕ) (load : Load) → slice_get loads i ≡ Some load
        → load_has_address a load ≡ false) → byte_at base w loads a ≡ None }
    ensures elsewhere { (base : ℕ) (w : List ℕ) (loads : List Load) (a : ℕ) → (a < base)
        ⊎ (base + length w ≤ a) → (a < SRAM_START) ⊎ (SRAM_END ≤ a)
        → byte_at base w loads a ≡ None }
{}

/// A load's runtime range holds the addresses from its runtime address on, as many as its size.
pub fn the_addresses_of_a_load()
    ensures { (a : ℕ) (load : Load) → (load_has_address a load ≡ true)
        ↔ ((load.runtime ≤ a) × (a < load.runtime + load.size)) }
{}

/// A word is given exactly where its four bytes are, the lowest first.
pub fn the_word_at_an_address()
    ensures given { (base : ℕ) (w : List ℕ) (loads : List Load) (at a b c d : ℕ)
        → byte_at base w loads at ≡ Some a → byte_at base w loads (at + 1) ≡ Some b
        → byte_at base w loads (at + 2) ≡ Some c → byte_at base w loads (at + 3) ≡ Some d
        → given_word base w loads at ≡ Some (word_of (a ∷ b ∷ c ∷ d ∷ [])) }
    ensures none { (base : ℕ) (w : List ℕ) (loads : List Load) (at k : ℕ) → k < 4
        → byte_at base w loads (at + k) ≡ None → given_word base w loads at ≡ None }
{}

/// Given bytes depend on the window's byte at their place and on the bytes where the loads are
/// stored alone.
pub fn what_given_bytes_depend_on()
    ensures byte { (base : ℕ) (w v : List ℕ) (loads : List Load) (a : ℕ) → AgreeOn loads w v
        → (in_window base (length w) a ≡ true
        → slice_index v (a - base) ≡ slice_index w (a - base))
        → byte_at base v loads a ≡ byte_at base w loads a }
    ensures word { (base : ℕ) (w v : List ℕ) (loads : List Load) (a : ℕ) → AgreeOn loads w v
        → ((k : ℕ) → k < 4 → in_window base (length w) (a + k) ≡ true
        → slice_index v (a + k - base) ≡ slice_index w (a + k - base))
        → given_word base v loads a ≡ given_word base w loads a }
{}

/// The covered text is that of each load in order, and then that of the block's words. The trial
/// bit of the IMAGE_TYPE word is read as 0. The digest is the SHA-256 of that text; the definition
/// names the number of words and the place of the IMAGE_TYPE word.
pub fn the_covered_text()
    ensures load { (w : List ℕ) (load : Load) (loads : List Load) (b : BlockView) (n k : ℕ)
        → covered w (load ∷ loads) b n k ≡ covered_load w load ++ covered w loads b n k }
    ensures words { (w : List ℕ) (b : BlockView) (n k : ℕ)
        → covered w [] b n k ≡ bytes_of (take n (masked_words (block_words b) k)) }
    ensures digest { (w : List ℕ) (b : BlockView) (def : Def) (loads : List Load)
        → covered_digest w b def loads ≡ sha256 (covered w loads b def.hash_words def.image_word) }
{}

/// The topmost bit of a block's word at the given place is read as 0, and of no other word. Where
/// that word lies after the hashed words, these are the block's own.
pub fn the_trial_bit_is_masked()
    ensures here { (words : List ℕ) (k : ℕ) → k < length words
        → slice_index (masked_words words k) k ≡ slice_index words k % 2 ^ 31 }
    ensures others { (words : List ℕ) (k j : ℕ) → j ≢ k
        → slice_index (masked_words words k) j ≡ slice_index words j }
    ensures count { (words : List ℕ) (k : ℕ) → length (masked_words words k) ≡ length words }
    ensures behind { (words : List ℕ) (k n : ℕ) → n ≤ k
        → take n (masked_words words k) ≡ take n words }
{}

/// The covered bytes and their digest depend on two things alone: the bytes where the loads are
/// stored, and the block's words without the trial bit. This holds wherever the IMAGE_TYPE word
/// stands and however many words are hashed.
pub fn what_covered_bytes_depend_on()
    ensures text { (w v : List ℕ) (loads : List Load) (b c : BlockView) (n k : ℕ)
        → AgreeOn loads w v → SameButTrial k b c → covered v loads c n k ≡ covered w loads b n k }
    ensures digest { (w v : List ℕ) (loads : List Load) (b c : BlockView) (def other : Def)
        → AgreeOn loads w v → SameButTrial def.image_word b c → other.hash_words ≡ def.hash_words
        → other.image_word ≡ def.image_word → covered_digest v c other loads
        ≡ covered_digest w b def loads }
{}

/// A window agrees with itself. A block with a changed word is the same but for the trial bit
/// where that word is the same without this bit.
pub fn a_changed_trial_bit()
    ensures window { (loads : List Load) (w : List ℕ) → AgreeOn loads w w }
    ensures block { (a u : ℕ) (b : BlockView) → a % 4 ≡ b.at % 4 → b.at + 4 ≤ a
        → a < b.at + 4 + 4 * length b.items → u % 2 ^ 31
        ≡ slice_index (block_words b) ((a - b.at) / 4) % 2 ^ 31
        → SameButTrial ((a - b.at) / 4) b (changed_block a u b) }
{}

/// A window with more bytes after it covers the same bytes. Where it ends below SRAM, as in flash,
/// each byte and each word that was given is given as it was.
pub fn a_longer_window_gives_and_covers_the_same()
    ensures text { (w f : List ℕ) (loads : List Load) (b : BlockView) (n k : ℕ)
        → AreStoredIn (length w) loads → covered (w ++ f) loads b n k ≡ covered w loads b n k }
    ensures digest { (w f : List ℕ) (loads : List Load) (b : BlockView) (def : Def)
        → AreStoredIn (length w) loads
        → covered_digest (w ++ f) b def loads ≡ covered_digest w b def loads }
    ensures byte { (base : ℕ) (w f : List ℕ) (loads : List Load) (a x : ℕ)
        → AreStoredIn (length w) loads → base + length (w ++ f) ≤ SRAM_START
        → byte_at base w loads a ≡ Some x → byte_at base (w ++ f) loads a ≡ Some x }
    ensures word { (base : ℕ) (w f : List ℕ) (loads : List Load) (a x : ℕ)
        → AreStoredIn (length w) loads → base + length (w ++ f) ≤ SRAM_START
        → given_word base w loads a ≡ Some x → given_word base (w ++ f) loads a ≡ Some x }
{}

/// Windows agree on loads though a byte differs where none of the loads is stored. Blocks have the
/// same entries though a word differs that is no word of an entry.
pub fn what_agreement_leaves_out()
    ensures byte { (w : List ℕ) (load : Load) (start i x : ℕ) → load.storage ≡ Some start
        → (i < start) ⊎ (start + load.size ≤ i) → AgreeOn (load ∷ []) w (slice_set w i x) }
    ensures clear { (w : List ℕ) (load : Load) (i x : ℕ) → load.storage ≡ None
        → AgreeOn (load ∷ []) w (slice_set w i x) }
    ensures word { (b : BlockView) (item : Item) (k u : ℕ) → k < length b.items
        → (k + 1 ≤ item.first) ⊎ (item.first + 3 * entry_count item < k + 1)
        → HaveSameEntries item b
        (record { at = b.at; items = slice_set b.items k u; link = b.link }) }
{}
