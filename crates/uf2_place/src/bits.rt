//! Bits in words of 64.

ghost use Rattle.std.specs.Prelude.{◌≡◌, ℕ, ◌*◌, ◌<◌, false, true, if◌then◌else◌, length, nat_eq};
ghost use Rattle.uf2_place.specs.Marks.{is_marked};

/// Whether bit `i` is set.
#[tactic(auto, unfolding(crate::specs::Marks::is_marked))]
pub fn has_bit(words: &[u64], i: u32) -> bool
    requires { i < 64 * length words.now }
    ensures { result ≡ is_marked words.now i }
{
    words[i as usize / 64] >> (i % 64) & 1 == 1
}

/// Sets bit `i`.
#[tactic(auto, unfolding(crate::specs::Marks::is_marked))]
pub fn set_bit(words: &mut [u64], i: u32)
    requires { i < 64 * length words.old }
    ensures { (j : ℕ) → is_marked words.new j
        ≡ (if nat_eq i j then true else is_marked words.old j) }
{
    let word = words[i as usize / 64];
    words[i as usize / 64] = word | 1 << (i % 64);
}

/// Clears all bits.
#[tactic(auto, unfolding(crate::specs::Marks::is_marked))]
pub fn clear_bits(words: &mut [u64])
    ensures { (j : ℕ) → is_marked words.new j ≡ false }
{
    words.fill(0);
}
