//! The check of an image in RAM.

ghost use Rattle.std.specs.Prelude.{◌≡◌, ◌↔◌, ◌+◌, ◌≤◌, IsTrue, Ok, Err, length};
ghost use Rattle.image_def.specs.declared.started.Started.{Started};
ghost use Rattle.image_check.specs.declared.why.Why.{Why};
ghost use Rattle.load_map.specs.declared.addresses.TheConstants.{SRAM_END};
ghost use Rattle.sector_pool.specs.Keeping.{KeepsOut};
ghost use Rattle.sector_pool.specs.Pool.{HasFree};
ghost use Rattle.ram_start.specs.Images.{ram_image, ValidRam, WhyNotRam};

use image_check::{Addressing, Started, Why, check_view};
use pico_board::{Board, Cpu, View, Window};
use sector_pool::SectorPool;

/// The image of a view, or the first rule that fails.
fn ram_image<B: Board, V: View>(
    board: &B,
    pool: &mut SectorPool,
    view: &V,
    base: u32,
    cpu: Cpu,
) -> Result<Started, Why>
    requires power { IsTrue (B.state board.now).powered }
    requires free { HasFree pool.old }
    requires inside { base + length (V.bytes view.now) ≤ SRAM_END }
    ensures exact { result ≡ ram_image (B.state board.now).content (V.bytes view.now) base cpu }
    ensures kept { KeepsOut pool.old pool.new }
{
    let window = Window {
        start: base,
        len: view.len(),
    };
    let addressing = Addressing {
        base,
        in_place: true,
    };
    check_view(board, pool, view, window, addressing, cpu, false)
}

/// The image of a view that is seen from `base` on, or exactly the first rule that fails. All rules
/// of a valid image hold as in flash, with the base in place of the flash's. Each load map entry is
/// used where it stands, and no trial image is allowed. It takes no memory, and the pool keeps what
/// is out. (This project's own where the datasheet is open.)
pub fn ram_check<B: Board, V: View>(
    board: &B,
    pool: &mut SectorPool,
    view: &V,
    base: u32,
    cpu: Cpu,
) -> Result<Started, Why>
    requires power { IsTrue (B.state board.now).powered }
    requires free { HasFree pool.old }
    requires inside { base + length (V.bytes view.now) ≤ SRAM_END }
    ensures exact { result ≡ ram_image (B.state board.now).content (V.bytes view.now) base cpu }
    ensures valid { (s : Started)
        → (result ≡ Ok s) ↔ ValidRam (B.state board.now).content (V.bytes view.now) base cpu s }
    ensures why_not { (y : Why) → (result ≡ Err y) ↔ WhyNotRam (B.state board.now).content
        (V.bytes view.now) base cpu y }
    ensures kept { KeepsOut pool.old pool.new }
{
    ram_image(board, pool, view, base, cpu)
}
