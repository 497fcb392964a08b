//! The images that stand in windows of a board. Each is judged once, so that no cut makes its
//! digest again.

ghost use Rattle.std.specs.Prelude.{◌≡◌, All, IfOk, IfSome, IsTrue, OnOk, false, length};
ghost use Rattle.pico_board.specs.MemBoard.{state_of};
ghost use Rattle.sector_pool.specs.Keeping.{KeepsOut};
ghost use Rattle.sector_pool.specs.Pool.{HasFree};
ghost use Rattle.image_check.specs.Digests.{Knows};
ghost use Rattle.boot_rules.specs.Choosing.{images_in};
ghost use Rattle.boot_rules.specs.Picking.{AreInside, IsInside};
ghost use Rattle.boot_cuts.specs.Classing.{is_image, stands_in};
ghost use Rattle.boot_cuts.specs.Standings.{AreStanding, IsStanding};

use crate::standing::Standing;
use boot_rules::boot_units_in;
use boot_sweep::is_same_started;
use image_check::{Digests, Started, check_by};
use pico_board::{Cpu, MemBoard, Window};
use sector_pool::SectorPool;
use slot_choice::SlotUnit;
use std::alloc::{AllocError, Global};

/// A window of a board, and its image.
fn standing_in(
    board: &MemBoard,
    pool: &mut SectorPool,
    digests: &mut Digests,
    window: Window,
    cpu: Cpu,
) -> Standing
    requires power { IsTrue (state_of board.now).powered }
    requires free { HasFree pool.old }
    requires knows { Knows digests.old (state_of board.now).content }
    requires inside { IsInside (length (state_of board.now).content.flash) window }
    ensures standing { IsStanding (state_of board.now).content cpu result }
    ensures window { result.window ≡ window }
    ensures knows { Knows digests.new (state_of board.now).content }
    ensures kept { KeepsOut pool.old pool.new }
{
    let image = check_by(board, pool, digests, window, cpu, false).ok();
    Standing { window, image }
}

/// Adds the images of a unit's members.
fn add_unit(
    known: &mut Vec<Standing>,
    board: &MemBoard,
    pool: &mut SectorPool,
    digests: &mut Digests,
    unit: &SlotUnit,
    cpu: Cpu,
) -> Result<(), AllocError>
    requires power { IsTrue (state_of board.now).powered }
    requires free { HasFree pool.old }
    requires knows { Knows digests.old (state_of board.now).content }
    requires inside { AreInside (length (state_of board.now).content.flash) unit.now }
    requires known { AreStanding (state_of board.now).content cpu known.old.items }
    ensures known { OnOk result (AreStanding (state_of board.now).content cpu known.new.items) }
    ensures knows { Knows digests.new (state_of board.now).content }
    ensures kept { KeepsOut pool.old pool.new }
{
    known.push(standing_in(board, pool, digests, unit.a, cpu))?;
    if let Some(window) = unit.b {
        known.push(standing_in(board, pool, digests, window, cpu))?;
    }
    Ok(())
}

/// The images of the members of the board's boot units. A digest is made only where it is not
/// remembered.
pub fn images_of(
    alloc: Global,
    board: &MemBoard,
    pool: &mut SectorPool,
    digests: &mut Digests,
    cpu: Cpu,
) -> Result<Vec<Standing>, AllocError>
    requires power { IsTrue (state_of board.now).powered }
    requires free { HasFree pool.old }
    requires knows { Knows digests.old (state_of board.now).content }
    ensures known { IfOk result (λ known.
        AreStanding (state_of board.now).content cpu known.items) }
    ensures knows { Knows digests.new (state_of board.now).content }
    ensures kept { KeepsOut pool.old pool.new }
{
    let units = boot_units_in(board, cpu);
    let mut known = Vec::new(alloc);
    for unit in units.as_slice() {
        add_unit(&mut known, board, pool, digests, unit, cpu)?;
    }
    Ok(known)
}

/// Whether what stands in a window is this image.
fn is_image(image: &Started, standing: &Option<Started>) -> bool
    ensures { result ≡ is_image image.now standing.now }
{
    match standing {
        Some(standing) => is_same_started(standing, image),
        None => false,
    }
}

/// Whether the image stands in a board, where no trial image is allowed. It is judged only where
/// its window is not among those that are known.
pub fn stands_in(
    board: &MemBoard,
    pool: &mut SectorPool,
    known: &[Standing],
    cpu: Cpu,
    image: &Started,
) -> bool
    requires power { IsTrue (state_of board.now).powered }
    requires free { HasFree pool.old }
    requires known { AreStanding (state_of board.now).content cpu known.now }
    requires inside { IsInside (length (state_of board.now).content.flash) image.now.window }
    ensures exact { result ≡ stands_in cpu (state_of board.now).content image.now }
    ensures kept { KeepsOut pool.old pool.new }
{
    for standing in known {
        if standing.window.is_same(image.window) {
            return is_image(image, &standing.image);
        }
    }
    let mut digests = Digests::none();
    let standing = standing_in(board, pool, &mut digests, image.window, cpu);
    is_image(image, &standing.image)
}
