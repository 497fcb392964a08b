//! The image that a normal boot starts, and the one beside it.

ghost use Rattle.std.specs.Prelude.{◌≡◌, IsTrue};
ghost use Rattle.pico_board.specs.MemBoard.{state_of};
ghost use Rattle.pico_board.specs.Content.{Content};
ghost use Rattle.pico_board.specs.declared.boot.BootKind.TheVariants.{Normal};
ghost use Rattle.sector_pool.specs.Pool.{HasFree};
ghost use Rattle.sector_pool.specs.Keeping.{KeepsOut};
ghost use Rattle.boot_rules.specs.Chosen.{Chosen};
ghost use Rattle.check_images.specs.Boots.{IsBooted};
ghost use Rattle.check_images.specs.Starting.{IsFallback, IsStart};

use crate::found::{ImageFacts, JudgedWindow};
use crate::judging::{facts_of, image_in};
use boot_rules::Decision;
use pico_board::{Cpu, MemBoard};
use sector_pool::SectorPool;

/// What is told of the image that a normal boot starts, which decides so. None where it falls.
pub fn start_of(end: &MemBoard, cpu: Cpu, decision: &Decision) -> Option<ImageFacts>
    requires power { IsTrue (state_of end.now).powered }
    requires chosen { Chosen (state_of end.now).content cpu Normal decision.now }
    ensures { IsStart (state_of end.now).content cpu result }
{
    match decision {
        Decision::Start(choice) => Some(facts_of(end, cpu, &choice.image)),
        Decision::Bootsel(_) => None,
    }
}

/// The other member of the unit that a normal boot starts, which decides so, with its image on the
/// board after that boot. None where nothing starts, or there is no other member. The pool keeps
/// what is out.
pub fn fallback_of(
    after: &MemBoard,
    pool: &mut SectorPool,
    cpu: Cpu,
    decision: &Decision,
) -> Option<JudgedWindow>
    requires power { IsTrue (state_of after.now).powered }
    requires lease { HasFree pool.old }
    requires booted { (z : Content) × IsBooted z cpu (state_of after.now).content decision.now }
    ensures fallback { (z : Content) → IsBooted z cpu (state_of after.now).content decision.now
        → IsFallback z cpu result }
    ensures pool { KeepsOut pool.old pool.new }
{
    let Decision::Start(choice) = decision else {
        return None;
    };
    let window = choice.other?;
    let image = image_in(after, pool, cpu, window, false);
    Some(JudgedWindow { window, image })
}
