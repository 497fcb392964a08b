//! Laws of block loops, each the contract of a function without a body.

ghost use Rattle.std.specs.Prelude.{◌≡◌, ◌≢◌, ◌↔◌, ◌⊎◌, ℕ, List, ◌+◌, ◌*◌, ◌<◌, ◌≤◌, ◌++◌, ◌∷◌, [], pos, negsuc, replicate, drop, map, length, slice_get};
ghost use Rattle.block_codec.specs.Words.{bytes_of, word_of};
ghost use Rattle.block_codec.specs.Blocks.{BlockView};
ghost use Rattle.block_codec.specs.Reading.{block_at};
ghost use Rattle.block_codec.specs.Erased.{AreErased, IsErasedFrom};
ghost use Rattle.block_codec.specs.HighByte.{ChangesHighByte, changed_block};
ghost use Rattle.block_loop.specs.Loop.{loop_of, IsLoop, IsLoopFault};
ghost use Rattle.block_loop.specs.Offsets.{offsets_of};
ghost use Rattle.block_loop.specs.Cycles.{IsSameCycle, BeginsAmong, KeepsLinks};

use crate::fault::LoopFault;

/// The function that goes from link to link answers exactly the loop, or exactly the fault, of the
/// relations over whole chains.
pub fn loop_of_exact()
    ensures loop_ { (w : List ℕ) (bs : List BlockView) → (loop_of w ≡ Ok bs) ↔ IsLoop w bs }
    ensures fault { (w : List ℕ) (f : LoopFault) → (loop_of w ≡ Err f) ↔ IsLoopFault w f }
{}

/// A window has at most one loop, and either a loop or exactly one fault.
pub fn one_loop_or_fault()
    ensures one_loop { (w : List ℕ) (bs cs : List BlockView) → IsLoop w bs → IsLoop w cs → bs ≡ cs }
    ensures one_fault { (w : List ℕ) (f g : LoopFault) → IsLoopFault w f → IsLoopFault w g → f ≡ g }
    ensures not_both { (w : List ℕ) (bs : List BlockView) (f : LoopFault) → IsLoop w bs
        → IsLoopFault w f → ⊥ }
    ensures either { (w : List ℕ)
        → ((bs : List BlockView) × IsLoop w bs) ⊎ ((f : LoopFault) × IsLoopFault w f) }
{}

/// Windows in which the same blocks stand have the same loop or fault. So erased bytes after a
/// window leave its loop or fault. A window whose first 4096 bytes are erased has no block.
pub fn same_blocks()
    ensures same { (w v : List ℕ) → ((x : ℕ) → block_at w x ≡ block_at v x)
        → loop_of w ≡ loop_of v }
    ensures behind { (w f : List ℕ) → AreErased f → loop_of (w ++ f) ≡ loop_of w }
    ensures blank { (w : List ℕ) → IsErasedFrom w 0 4096 → loop_of w ≡ Err LoopFault.NoBlock }
{}

/// A change of the fourth byte of an IMAGE_TYPE header among the items of block k of a loop keeps
/// the loop: block k has the changed word, and the other blocks are as they were.
pub fn high_byte_changed()
    ensures loop_ { (w v : List ℕ) (a k : ℕ) (bs : List BlockView) (d : BlockView)
        → ChangesHighByte w v a → IsLoop w bs → slice_get bs k ≡ Some d → d.at + 4 ≤ a
        → a < d.at + 4 + 4 * length d.items
        → loop_of v ≡ Ok (map (changed_block a (word_of (drop a v))) bs) }
    ensures others { (w v : List ℕ) (a k : ℕ) (bs : List BlockView) (d : BlockView)
        → ChangesHighByte w v a → IsLoop w bs → slice_get bs k ≡ Some d → d.at + 4 ≤ a
        → a < d.at + 4 + 4 * length d.items → (i : ℕ) (b : BlockView) → i ≢ k
        → slice_get bs i ≡ Some b → changed_block a (word_of (drop a v)) b ≡ b }
{}

/// Suppose that one window's loop begins where a block of another window's loop stands. Suppose
/// also that in the first window the blocks at the offsets of that other loop have its links. Then
/// both are the same loop: as many blocks, each at the same offset and with the same link.
pub fn same_cycle()
    ensures same { (w v : List ℕ) (bs cs : List BlockView) → IsLoop w bs → IsLoop v cs
        → BeginsAmong bs cs → KeepsLinks bs v → IsSameCycle bs cs }
    ensures offsets { (bs cs : List BlockView) → IsSameCycle bs cs → offsets_of cs ≡ offsets_of bs }
{}

/// A list of blocks begins among others exactly where its first block stands where one of them
/// does.
pub fn a_list_begins_among_others()
    ensures { (bs cs : List BlockView) (c : BlockView) → BeginsAmong bs (c ∷ cs)
        ↔ ((i : ℕ) × (b : BlockView) × (slice_get bs i ≡ Some b) × (c.at ≡ b.at)) }
{}

/// Worked loops: two blocks, a link that is no multiple of 4, and a third block that links to the
/// second.
pub fn worked_loops()
    ensures two { loop_of (bytes_of
        (replicate 4 7 ++ (0xffffded3 ∷ 0x10210142 ∷ 0x1ff ∷ 0x20 ∷ 0xab123579 ∷ 7 ∷ 7 ∷ 7
        ∷ 0xffffded3 ∷ 0x11010142 ∷ 0x1ff ∷ 0xffffffe0 ∷ 0xab123579 ∷ [])))
        ≡ Ok (record { at = 16; items = 0x10210142 ∷ []; link = pos 32 }
        ∷ record { at = 48; items = 0x11010142 ∷ []; link = negsuc 31 } ∷ []) }
    ensures broken { loop_of (bytes_of
        (replicate 4 7 ++ (0xffffded3 ∷ 0x10210142 ∷ 0x1ff ∷ 2 ∷ 0xab123579 ∷ 7 ∷ [])))
        ≡ Err (LoopFault.Broken 16) }
    ensures overlap { loop_of (bytes_of
        (0xffffded3 ∷ 0xff ∷ 0x10 ∷ 0xab123579
        ∷ 0xffffded3 ∷ 0xff ∷ 0x10 ∷ 0xab123579
        ∷ 0xffffded3 ∷ 0xff ∷ 0xfffffff0 ∷ 0xab123579 ∷ [])) ≡ Err (LoopFault.Overlap 1 3) }
{}
