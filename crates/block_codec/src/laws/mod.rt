//! Laws of blocks, each the contract of a function without a body.

ghost use Rattle.std.specs.Prelude.{◌≡◌, ◌≢◌, ◌↔◌, ℕ, ℤ, List, Option, ◌+◌, ◌-◌, ◌<◌, ◌≤◌, ◌∷◌, ◌++◌, [], take, drop, length, map, ◌*◌, ◌/◌, negsuc, slice_index, All};
ghost use Rattle.std.specs.Option.{option_map};
ghost use Rattle.block_codec.specs.Words.{bytes_of, word_of};
ghost use Rattle.block_codec.specs.Items.{type_byte, size_of, AreItems, items_of};
ghost use Rattle.block_codec.specs.Blocks.{BlockView, block_size, IsBlock, BlockAt};
ghost use Rattle.block_codec.specs.Reading.{front_block, block_at};
ghost use Rattle.block_codec.specs.Erased.{AreErased, IsErasedFrom};
ghost use Rattle.block_codec.specs.HighByte.{ChangesHighByte, changed_block, with_high};
ghost use Rattle.block_codec.specs.Pages.{IsPartlyWritten, HasHeadersOf};

/// The reader of the definitions finds exactly the blocks that stand at an offset.
pub fn block_at_exact()
    ensures found { (w : List ℕ) (x : ℕ) (b : BlockView) → (block_at w x ≡ Some b) ↔ BlockAt w x b }
    ensures none { (w : List ℕ) (x : ℕ)
        → (block_at w x ≡ None) ↔ ((b : BlockView) → BlockAt w x b → ⊥) }
    ensures unique { (w : List ℕ) (x : ℕ) (b c : BlockView) → BlockAt w x b → BlockAt w x c
        → b ≡ c }
{}

/// A block begins a list of bytes in at most one way, and no block is a proper prefix of another.
pub fn one_block()
    ensures one { (bytes : List ℕ) (n m : ℕ) (items others : List ℕ) (link other : ℤ)
        → IsBlock (take n bytes) items link → IsBlock (take m bytes) others other
        → (items ≡ others) × (link ≡ other) }
    ensures whole { (p rest items others : List ℕ) (link other : ℤ) → IsBlock p items link
        → IsBlock (p ++ rest) others other → rest ≡ [] }
{}

/// A block is read again whatever follows it.
pub fn read_again()
    ensures { (x : ℕ) (p items rest : List ℕ) (link : ℤ) → IsBlock p items link
        → front_block x (p ++ rest) ≡ Some (record { at = x; items = items; link = link }) }
{}

/// Words are items where three things hold: the first word is a header with a type other than 0xff
/// and a size of at least 1; there are that many words; and the words after these are items.
pub fn items_by_headers()
    ensures { (h : ℕ) (ws : List ℕ)
        → AreItems (h ∷ ws) ↔ ((type_byte h ≢ 255) × (1 ≤ size_of h)
        × (size_of h ≤ length (h ∷ ws)) × AreItems (drop (size_of h) (h ∷ ws))) }
{}

/// A block begins with the byte 0xd3 and ends with 0xab. So erased bytes after a list add no block
/// and take none away, and no block stands in an erased range.
pub fn erased_bytes()
    ensures first { (w : List ℕ) (x : ℕ) (b : BlockView) → BlockAt w x b → slice_index w x ≡ 0xd3 }
    ensures last { (w : List ℕ) (x : ℕ) (b : BlockView) → BlockAt w x b
        → slice_index w (x + (block_size b - 1)) ≡ 0xab }
    ensures behind { (w f : List ℕ) (x : ℕ) → AreErased f → block_at (w ++ f) x ≡ block_at w x }
    ensures within { (w : List ℕ) (from end_ x : ℕ) → IsErasedFrom w from end_ → from ≤ x
        → x < end_ → block_at w x ≡ None }
{}

/// The fourth byte of a word with first byte 0x42 changes, as that of an IMAGE_TYPE header. This
/// moves no block and resizes none: each block is the former one with the changed word in it.
pub fn high_byte_changed()
    ensures blocks { (w v : List ℕ) (a x : ℕ) → ChangesHighByte w v a
        → block_at v x ≡ option_map (changed_block a (word_of (drop a v))) (block_at w x) }
    ensures place { (a u : ℕ) (b : BlockView) → (changed_block a u b).at ≡ b.at }
    ensures size { (a u : ℕ) (b : BlockView) → block_size (changed_block a u b) ≡ block_size b }
    ensures items { (w v : List ℕ) (a x : ℕ) (b : BlockView) → ChangesHighByte w v a
        → BlockAt w x b → b.at + 4 ≤ a → a < b.at + 4 + 4 * length b.items
        → items_of (changed_block a (word_of (drop a v)) b).items
        ≡ map (with_high ((a - b.at) / 4) (word_of (drop a v))) (items_of b.items) }
{}

/// Flash was erased, and programmed in part, page by page. Where a block stands in it then, the
/// finished flash has a block of the same headers and the same link.
pub fn partly_written()
    ensures { (w v : List ℕ) (x : ℕ) (b : BlockView) → IsPartlyWritten w v → All (λ n. n < 256) w
        → BlockAt v x b → (c : BlockView) × BlockAt w x c × HasHeadersOf b c }
{}

/// Worked blocks: the minimal block of an image; the same block, but the fourth byte of its last
/// item is not 0; and a block with an item of size 0.
pub fn worked_blocks()
    ensures minimal { block_at (bytes_of
        (7 ∷ 0xffffded3 ∷ 0x10210142 ∷ 0x1ff ∷ 0xffffffec ∷ 0xab123579 ∷ 7 ∷ [])) 4
        ≡ Some (record { at = 4; items = 0x10210142 ∷ []; link = negsuc 19 }) }
    ensures fourth_byte { block_at
        (bytes_of (0xffffded3 ∷ 0x10210142 ∷ 0x010001ff ∷ 0 ∷ 0xab123579 ∷ [])) 0 ≡ None }
    ensures no_size { block_at (bytes_of
        (0xffffded3 ∷ 0x10210142 ∷ 0x48 ∷ 0x2ff ∷ 0 ∷ 0xab123579 ∷ [])) 0 ≡ None }
    ensures unaligned { block_at (7 ∷ bytes_of (0xffffded3 ∷ 0x1ff ∷ 0 ∷ 0xab123579 ∷ [])) 1
        ≡ None }
{}
