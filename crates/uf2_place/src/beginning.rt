//! How a download begins, and how it ends.

ghost use Rattle.std.specs.Prelude.{◌≡◌, ◌≤◌, IfSome, None, [], is_some};
ghost use Rattle.sector_pool.specs.Keeping.{HandsOver};
ghost use Rattle.sector_pool.specs.Pool.{HasFree};
ghost use Rattle.uf2_place.specs.Blocks.{IsUf2};
ghost use Rattle.uf2_place.specs.Downloads.{Follows, IsOut, lease_in, lease_of};
ghost use Rattle.uf2_place.specs.Placement.{HasWholeSectors};

use crate::block::Uf2;
use crate::current::{Current, Held};
use crate::marks::Marks;
use part_table::Target;
use sector_pool::SectorPool;

/// Drops a download, and gives its lease back.
pub fn release(pool: &mut SectorPool, current: Option<Current>)
    requires { IsOut pool.old (lease_of current) }
    ensures pool { HandsOver (lease_of current) None pool.old pool.new }
    ensures free { (lease_of current ≡ None → HasFree pool.old) → HasFree pool.new }
{
    if let Some(current) = current {
        give_back(pool, current.held);
    }
}

/// Gives the lease of held pages back.
fn give_back(pool: &mut SectorPool, held: Option<Held>)
    requires { IsOut pool.old (lease_in held) }
    ensures pool { HandsOver (lease_in held) None pool.old pool.new }
    ensures free { (lease_in held ≡ None → HasFree pool.old) → HasFree pool.new }
{
    if let Some(held) = held {
        pool.give_back(held.lease);
    }
}

/// No held pages yet of a gated target, in a sector of the pool.
fn hold_none(pool: &mut SectorPool, target: Target) -> Option<Held>
    requires { HasFree pool.old }
    ensures pool { HandsOver None (lease_in result) pool.old pool.new }
    ensures free { lease_in result ≡ None → HasFree pool.new }
    ensures gated { is_some result ≡ target.gated }
    ensures pages { IfSome result (λ h. h.pages ≡ 0) }
{
    if !target.gated {
        return None;
    }
    match pool.lease() {
        Some(lease) => Some(Held { lease, pages: 0 }),
        None => unreachable!(),
    }
}

/// A download of the block's family and count that has no block yet, in place of a former one.
pub fn begin(
    pool: &mut SectorPool,
    marks: &mut Marks,
    former: Option<Current>,
    target: Target,
    block: &Uf2,
) -> Current
    requires out { IsOut pool.old (lease_of former) }
    requires free { lease_of former ≡ None → HasFree pool.old }
    requires block { IsUf2 block.now }
    ensures pool { HandsOver (lease_of former) (lease_in result.held) pool.old pool.new }
    ensures free { lease_in result.held ≡ None → HasFree pool.new }
    ensures target { result.target ≡ target }
    ensures family { result.family ≡ block.now.family }
    ensures count { result.count ≡ block.now.count }
    ensures left { result.left ≡ block.now.count }
    ensures follows { HasWholeSectors target.window → Follows pool.new marks.new result [] }
{
    release(pool, former);
    marks.clear();
    Current {
        family: block.family,
        count: block.count,
        target,
        left: block.count,
        held: hold_none(pool, target),
    }
}
