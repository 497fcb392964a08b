//! What is told of the image of a window.

ghost use Rattle.std.specs.Prelude.{◌≡◌, ◌+◌, ◌≤◌, ◌↔◌, Bool, IsTrue, length, true};
ghost use Rattle.pico_board.specs.Content.{window_bytes};
ghost use Rattle.pico_board.specs.MemBoard.{state_of};
ghost use Rattle.sector_pool.specs.Keeping.{KeepsOut};
ghost use Rattle.sector_pool.specs.Pool.{HasFree};
ghost use Rattle.image_check.specs.Image.{defined_in};
ghost use Rattle.image_check.specs.Valid.{Valid};
ghost use Rattle.boot_sweep.specs.Firms.{Firm};
ghost use Rattle.check_images.specs.Images.{IsHashed, IsImageOf, IsJudged};

use crate::found::{Hashed, ImageFacts};
use block_codec::Def;
use boot_sweep::firm;
use image_check::{Started, Why, check, defined_in};
use pico_board::{Cpu, FlashView, MemBoard, Window};
use sector_pool::SectorPool;

/// Whether an image of this definition has a digest, and what that covers.
fn hash_of(def: &Def) -> Hashed
    ensures { IsHashed def.now result }
{
    match (def.digest.is_some(), def.map_item.is_some()) {
        (true, true) => Hashed::Yes,
        (true, false) => Hashed::Bare,
        (false, _) => Hashed::No,
    }
}

/// What is told of a valid image, with a trial image allowed or not.
pub(crate) fn facts_of(board: &MemBoard, cpu: Cpu, image: &Started) -> ImageFacts
    requires power { IsTrue (state_of board.now).powered }
    requires inside { image.now.window.start + image.now.window.len
        ≤ length (state_of board.now).content.flash }
    requires valid { (trial : Bool)
        × Valid (state_of board.now).content image.now.window cpu trial image.now }
    ensures { (trial : Bool)
        → Valid (state_of board.now).content image.now.window cpu trial image.now
        → IsImageOf (state_of board.now).content image.now.window cpu trial result }
{
    let view = FlashView {
        board,
        window: image.window,
    };
    let defined = match defined_in(&view, cpu) {
        Ok(defined) => defined,
        Err(_) => unreachable!(),
    };
    ImageFacts {
        version: image.version,
        rollback: image.rollback,
        trial: image.trial,
        hash: hash_of(&defined.def),
        firm: firm(&view, image, cpu),
    }
}

/// What is told of the image of a window, with a trial image allowed or not, or the first rule that
/// it fails. A digest is made only where every rule before it holds. It takes no memory, and the
/// pool keeps what is out.
pub fn image_in(
    board: &MemBoard,
    pool: &mut SectorPool,
    cpu: Cpu,
    window: Window,
    trial_ok: bool,
) -> Result<ImageFacts, Why>
    requires power { IsTrue (state_of board.now).powered }
    requires lease { HasFree pool.old }
    requires inside { window.start + window.len ≤ length (state_of board.now).content.flash }
    ensures judged { IsJudged (state_of board.now).content window cpu trial_ok result }
    ensures pool { KeepsOut pool.old pool.new }
{
    match check(board, pool, window, cpu, trial_ok) {
        Ok(image) => Ok(facts_of(board, cpu, &image)),
        Err(why) => Err(why),
    }
}
