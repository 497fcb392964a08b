//! A pool for the calls of a boot.

ghost use Rattle.std.specs.Prelude.{◌≤◌, IfOk};
ghost use Rattle.sector_pool.specs.Pool.{HasFree, free_count};

use sector_pool::SectorPool;
use std::alloc::{AllocError, Global};

/// A pool with four free sectors. It fails only where memory is out.
pub fn new_pool(alloc: Global) -> Result<SectorPool, AllocError>
    ensures free { IfOk result (λ pool. HasFree pool) }
    ensures four { IfOk result (λ pool. 4 ≤ free_count pool) }
{
    SectorPool::make(alloc, 4)
}
