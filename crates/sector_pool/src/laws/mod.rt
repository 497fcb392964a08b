//! Laws of the definitions in which a call that borrows from a pool says what it leaves as it was.

ghost use Rattle.std.specs.Prelude.{◌≡◌, ◌≢◌, ℕ, ◌<◌, ◌≤◌, All, IsSomeAnd, List, None, Option, Some, true, false, length, slice_get};
ghost use Rattle.sector_pool.specs.Keeping.{HandsOver, KeepsOut, KeepsOutBut};
ghost use Rattle.sector_pool.specs.Pool.{HasFree, IsNewPool, Pool, free_count, leased, returned, pool_with_sector};

/// A pool that is left alone keeps what is out, and two calls that do keep it one after the other.
pub fn keeping_composes()
    ensures none { (pool : Pool) → KeepsOut pool pool }
    ensures two { (a b c : Pool) → KeepsOut a b → KeepsOut b c → KeepsOut a c }
    ensures none_but { (k : ℕ) (pool : Pool) → KeepsOutBut k pool pool }
    ensures two_but { (k : ℕ) (a b c : Pool) → KeepsOutBut k a b → KeepsOutBut k b c
        → KeepsOutBut k a c }
    ensures all_but { (k : ℕ) (a b : Pool) → KeepsOut a b → KeepsOutBut k a b }
{}

/// A write through the lease of sector `k` changes no byte of a sector with another number.
pub fn writing_leaves_others()
    ensures others { (pool : Pool) (k j : ℕ) (bytes : List ℕ) → j ≢ k
        → slice_get (pool_with_sector pool k bytes).sectors j ≡ slice_get pool.sectors j }
    ensures keeps { (pool : Pool) (k : ℕ) (bytes : List ℕ)
        → KeepsOutBut k pool (pool_with_sector pool k bytes) }
{}

/// A free sector is lent, written while it is out and given back. Every other sector that is out
/// is then as it was.
pub fn lending_leaves_others()
    ensures { (old new : Pool) (k : ℕ) → slice_get old.out k ≡ Some false
        → KeepsOutBut k (leased old k) new → KeepsOut old (returned new k) }
{}

/// A caller hands over what it holds where it leases, writes through its lease or gives it back.
/// So do two such calls.
pub fn handing_over_composes()
    ensures leased { (old : Pool) (k : ℕ) → slice_get old.out k ≡ Some false
        → HandsOver None (Some k) old (leased old k) }
    ensures written { (old : Pool) (k : ℕ) (bytes : List ℕ) → slice_get old.out k ≡ Some true
        → HandsOver (Some k) (Some k) old (pool_with_sector old k bytes) }
    ensures returned { (old : Pool) (k : ℕ) → slice_get old.out k ≡ Some true
        → HandsOver (Some k) None old (returned old k) }
    ensures none { (old new : Pool) → KeepsOut old new → HandsOver None None old new }
    ensures two { (a b c : Option ℕ) (p q r : Pool) → HandsOver a b p q → HandsOver b c q r
        → HandsOver a c p r }
{}

/// A new pool has as many sectors as it was made with and no more. Each is free and has 4096 bytes.
pub fn new_pools_are_free()
    ensures numbers { (n k : ℕ) (pool : Pool) → IsNewPool n pool → k < n
        → slice_get pool.out k ≡ Some false }
    ensures no_more { (n k : ℕ) (pool : Pool) → IsNewPool n pool → n ≤ k
        → slice_get pool.out k ≡ None }
    ensures sectors { (n k : ℕ) (pool : Pool) → IsNewPool n pool → k < n
        → IsSomeAnd (slice_get pool.sectors k) (λ bytes. length bytes ≡ 4096) }
    ensures no_more_sectors { (n k : ℕ) (pool : Pool) → IsNewPool n pool → n ≤ k
        → slice_get pool.sectors k ≡ None }
{}

/// A pool has a free sector exactly where some number is not out; one is enough.
pub fn a_free_sector_is_not_out()
    ensures some { (pool : Pool) (k : ℕ) → slice_get pool.out k ≡ Some false → HasFree pool }
    ensures none { (pool : Pool) → All (λ is_out. is_out ≡ true) pool.out → HasFree pool → ⊥ }
{}

/// Keeping what is out says something of each number and of each sector that is out. Another list
/// of numbers out does not keep it. Other bytes in a sector that is out do not keep it either, but
/// for the one sector that may be written.
pub fn keeping_is_of_every_sector()
    ensures numbers { (old new : Pool) → new.out ≢ old.out → ¬ (KeepsOut old new) }
    ensures bytes { (old new : Pool) (j : ℕ) → slice_get old.out j ≡ Some true
        → slice_get new.sectors j ≢ slice_get old.sectors j → ¬ (KeepsOut old new) }
    ensures numbers_but { (k : ℕ) (old new : Pool) → new.out ≢ old.out → ¬ (KeepsOutBut k old new) }
    ensures bytes_but { (k : ℕ) (old new : Pool) (j : ℕ) → j ≢ k → slice_get old.out j ≡ Some true
        → slice_get new.sectors j ≢ slice_get old.sectors j → ¬ (KeepsOutBut k old new) }
{}

/// Handing over says which number was free and is out, and which one was out and is free. Every
/// other number is as it was, and its sector keeps its bytes where it is out.
pub fn handing_over_is_of_every_sector()
    ensures mine { (had : Option ℕ) (k : ℕ) (old new : Pool) → slice_get new.out k ≢ Some true
        → ¬ (HandsOver had (Some k) old new) }
    ensures fresh { (k : ℕ) (old new : Pool) → slice_get old.out k ≢ Some false
        → ¬ (HandsOver None (Some k) old new) }
    ensures back { (k : ℕ) (old new : Pool) → slice_get new.out k ≢ Some false
        → ¬ (HandsOver (Some k) None old new) }
    ensures others { (had has : Option ℕ) (j : ℕ) (old new : Pool) → had ≢ Some j → has ≢ Some j
        → slice_get new.out j ≢ slice_get old.out j → ¬ (HandsOver had has old new) }
    ensures bytes { (had has : Option ℕ) (j : ℕ) (old new : Pool) → had ≢ Some j → has ≢ Some j
        → slice_get old.out j ≡ Some true → slice_get new.sectors j ≢ slice_get old.sectors j
        → ¬ (HandsOver had has old new) }
{}
