//! Worked examples of the makers. Each is the `ensures` of a function that does nothing.

ghost use Rattle.std.specs.Prelude.{◌≡◌, List, [], ◌∷◌, replicate, ◌++◌};
ghost use Rattle.worked_flashes.specs.Flashes.{framed, region};

/// The minimal block for the Arm cores has five words, and a region of it is 0xff after them.
#[tactic(auto, unfolding(block_codec::specs::Words::word_bytes))]
pub fn the_least_block()
    ensures words { framed (0x10210142 ∷ []) 0
        ≡ 0xffffded3 ∷ 0x10210142 ∷ 0x000001ff ∷ 0 ∷ 0xab123579 ∷ [] }
    ensures bytes { region 12 (0x04030201 ∷ 0x08070605 ∷ [])
        ≡ 1 ∷ 2 ∷ 3 ∷ 4 ∷ 5 ∷ 6 ∷ 7 ∷ 8 ∷ replicate 4 255 }
{}
