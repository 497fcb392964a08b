//! The pool and its leases.

ghost use Rattle.std.specs.Prelude.{◌≡◌, ℕ, ◌<◌, ◌≤◌, ◌↔◌, length, All, IfOk, IfSome, IsNone, IsSome, IfNone, Some, true, false, slice_get, slice_set};
ghost use Rattle.std.specs.Borrow.{sem};
ghost use Rattle.sector_pool.specs.Pool.{HasFree, IsNewPool, free_count, leased, returned};
ghost use Rattle.sector_pool.specs.Lending.{LendsSector};

use std::alloc::{AllocError, Global};
use std::marker::Model;

/// The number of bytes of a sector.
const SECTOR: usize = 4096;

/// The right to one sector of the pool that gave it, seen as the sector's number.
///
/// It can't be copied. Where it is dropped and not given back, its sector stays out for good.
#[derive(Drop)]
pub struct Lease {
    number: u32,
}

impl Model for Lease {
    ghost use Rattle.std.specs.Prelude.{ℕ};

    ghost Value = { ℕ };

    ghost view = { λ lease. lease.number };
}

/// A number of sectors of 4096 bytes each, of which some are out.
///
/// Contracts see for each number whether it is out, and the bytes of each sector.
#[derive(Drop)]
pub struct SectorPool {
    out: Vec<bool>,
    sectors: Vec<[u8; SECTOR]>,
}

impl Model for SectorPool {
    ghost use Rattle.std.specs.Prelude.{◌≡◌, ◌≤◌, length};
    ghost use Rattle.sector_pool.specs.Pool.{Pool};

    ghost Value = { Pool };

    ghost view = { λ pool. record { out = pool.out.items; sectors = pool.sectors.items } };

    ghost invariant = { λ pool. (length pool.out.items ≡ length pool.sectors.items)
        × (length pool.out.items ≤ 16) };
}

impl SectorPool {
    /// A pool of `n` sectors, from 1 to 16, with none out. It fails only where memory is out.
    pub fn make(alloc: Global, n: u32) -> Result<SectorPool, AllocError>
        requires some { 1 ≤ n }
        requires few { n ≤ 16 }
        ensures { IfOk result (IsNewPool n) }
    {
        let mut out = Vec::new(alloc);
        let mut sectors = Vec::new(alloc);
        out.resize(n as usize, false)?;
        sectors.resize(n as usize, [0xff; SECTOR])?;
        Ok(SectorPool { out, sectors })
    }

    /// How many sectors are not out.
    pub fn free(&self) -> u32
        ensures { result ≡ free_count self.now }
    {
        self.out.iter().filter(|is_out| !**is_out).count() as u32
    }

    /// Lends the free sector of the lowest number, with all its bytes 0xff. None exactly where all
    /// are out.
    pub fn lease(&mut self) -> Option<Lease>
        ensures none { IsNone result ↔ All (λ is_out. is_out ≡ true) self.old.out }
        ensures some { HasFree self.old → IsSome result }
        ensures free { IfSome result (λ k. slice_get self.old.out k ≡ Some false) }
        ensures least { IfSome result
            (λ k. (j : ℕ) → j < k → slice_get self.old.out j ≡ Some true) }
        ensures lent { IfSome result (λ k. self.new ≡ leased self.old k) }
        ensures out { IfSome result (λ k. slice_get self.new.out k ≡ Some true) }
        ensures still_out { (j : ℕ) → slice_get self.old.out j ≡ Some true
            → slice_get self.new.out j ≡ Some true }
        ensures unchanged { IfNone result (self.new ≡ self.old) }
    {
        self.take_least()
    }

    /// The lease of the lowest free number, as [`SectorPool::lease`] gives it.
    #[tactic(auto, unfolding(crate::specs::Pool::erased))]
    fn take_least(&mut self) -> Option<Lease>
        ensures none { IsNone result ↔ All (λ is_out. is_out ≡ true) self.old.out }
        ensures free { IfSome result (λ k. slice_get self.old.out k ≡ Some false) }
        ensures least { IfSome result
            (λ k. (j : ℕ) → j < k → slice_get self.old.out j ≡ Some true) }
        ensures lent { IfSome result (λ k. self.new ≡ leased self.old k) }
        ensures unchanged { IfNone result (self.new ≡ self.old) }
    {
        let number = self.out.iter().position(|is_out| !*is_out)?;
        self.out[number] = true;
        self.sectors[number] = [0xff; SECTOR];
        Some(Lease {
            number: number as u32,
        })
    }

    /// The 4096 bytes of a sector that is out here.
    pub fn bytes(&self, lease: &Lease) -> &[u8]
        requires { slice_get self.now.out lease.now ≡ Some true }
        ensures value { slice_get self.now.sectors lease.now ≡ Some result.now }
        ensures len { length result.now ≡ 4096 }
    {
        whole(&self.sectors[lease.number as usize])
    }

    /// The 4096 bytes of a sector that is out here, for writing. Nothing else of the pool is
    /// changed through them.
    pub fn bytes_mut(&mut self, lease: &Lease) -> &mut [u8]
        requires { slice_get self.old.out lease.now ≡ Some true }
        ensures* writes_back { sem 𝓛 (LendsSector self.entry lease.now result) }
        ensures value { slice_get self.old.sectors lease.now ≡ Some result.now }
        ensures len { length result.now ≡ 4096 }
    {
        // The prover takes from this call that the sector has 4096 bytes.
        let _length = self.bytes(lease).len();
        self.sectors[lease.number as usize].as_mut_slice()
    }

    /// Takes a lease that is out here back: its sector is free again, and its bytes stay as they
    /// are.
    pub fn give_back(&mut self, lease: Lease)
        requires { slice_get self.old.out lease ≡ Some true }
        ensures { self.new ≡ returned self.old lease }
    {
        self.out[lease.number as usize] = false;
    }
}

/// A whole sector as a slice.
fn whole(sector: &[u8; SECTOR]) -> &[u8]
    ensures value { result.now ≡ sector.now }
    ensures len { length result.now ≡ 4096 }
{
    sector
}
