//! The check of a window with what is remembered of digests.

ghost use Rattle.std.specs.Prelude.{◌≡◌, ◌+◌, ◌≤◌, Bool, IsTrue, Ok, Some, length};
ghost use Rattle.sector_pool.specs.Keeping.{KeepsOut};
ghost use Rattle.sector_pool.specs.Pool.{HasFree};
ghost use Rattle.image_def.specs.Guarantees.{IsDefinition};
ghost use Rattle.load_map.specs.Stored.{AreStoredIn};
ghost use Rattle.pico_board.specs.Content.{window_bytes};
ghost use Rattle.image_check.specs.Digests.{asked, candidate_fault, candidate_of, Knows, MakesAtMost, remembered};
ghost use Rattle.image_check.specs.Examined.{confirmed_in};
ghost use Rattle.image_check.specs.Image.{image_at};

use crate::addressing::Addressing;
use crate::checking::{digest_fault, record_of};
use crate::digests::{Digested, Digests, answer_of};
use crate::examining::{Candidate, examine};
use crate::why::Why;
use image_def::Started;
use pico_board::{Board, Cpu, FlashView, Window};
use sector_pool::SectorPool;

/// The answer of the digest rule, remembered or made. An image without a HASH_VALUE has no digest,
/// and nothing is remembered of it.
fn digest_fault_by<B: Board>(
    board: &B,
    pool: &mut SectorPool,
    digests: &mut Digests,
    window: Window,
    cpu: Cpu,
    candidate: &Candidate,
) -> Option<Why>
    requires power { IsTrue (B.state board.now).powered }
    requires free { HasFree pool.old }
    requires inside { window.start + window.len ≤ length (B.state board.now).content.flash }
    requires sound { IsDefinition candidate.now.block candidate.now.def }
    requires stored { AreStoredIn
        (length (window_bytes (B.state board.now).content window)) candidate.now.loads.items }
    requires stands { candidate_of cpu (window_bytes (B.state board.now).content window)
        ≡ Ok candidate.now }
    requires knows { Knows digests.old (B.state board.now).content }
    ensures exact { result
        ≡ candidate_fault (window_bytes (B.state board.now).content window) candidate.now }
    ensures knows { Knows digests.new (B.state board.now).content }
    ensures asked { digests.new ≡ asked window cpu candidate.now.def.digest result digests.old }
    ensures kept { KeepsOut pool.old pool.new }
{
    candidate.def.digest?;
    match digests.remembered(window, cpu) {
        Some(right) => answer_of(right),
        None => {
            let answer = digest_fault(&FlashView { board, window }, pool, candidate);
            let right = answer.is_none();
            digests.note(Digested { window, cpu, right });
            answer
        }
    }
}

/// The image of a window that every rule before the digest rule lets pass, or the answer of the
/// digest rule or the delta rule. What is remembered of the window's digest is taken. Otherwise the
/// digest is made, once, where the image has one, and remembered.
pub fn confirm_by<B: Board>(
    board: &B,
    pool: &mut SectorPool,
    digests: &mut Digests,
    window: Window,
    cpu: Cpu,
    candidate: &Candidate,
) -> Result<Started, Why>
    requires power { IsTrue (B.state board.now).powered }
    requires free { HasFree pool.old }
    requires inside { window.start + window.len ≤ length (B.state board.now).content.flash }
    requires sound { IsDefinition candidate.now.block candidate.now.def }
    requires stored { AreStoredIn
        (length (window_bytes (B.state board.now).content window)) candidate.now.loads.items }
    requires stands { candidate_of cpu (window_bytes (B.state board.now).content window)
        ≡ Ok candidate.now }
    requires knows { Knows digests.old (B.state board.now).content }
    ensures exact { result ≡ confirmed_in window
        (window_bytes (B.state board.now).content window) candidate.now }
    ensures knows { Knows digests.new (B.state board.now).content }
    ensures asked { digests.new ≡ asked window cpu candidate.now.def.digest
        (candidate_fault (window_bytes (B.state board.now).content window) candidate.now)
        digests.old }
    ensures made { MakesAtMost 1 digests.old digests.new }
    ensures kept { KeepsOut pool.old pool.new }
{
    match digest_fault_by(board, pool, digests, window, cpu, candidate) {
        Some(why) => Err(why),
        None => record_of(window, candidate),
    }
}

/// What `check` answers, with what is remembered of digests. A digest that is remembered is not
/// made again, and one that is made is made once.
pub fn check_by<B: Board>(
    board: &B,
    pool: &mut SectorPool,
    digests: &mut Digests,
    window: Window,
    cpu: Cpu,
    trial_ok: bool,
) -> Result<Started, Why>
    requires power { IsTrue (B.state board.now).powered }
    requires free { HasFree pool.old }
    requires inside { window.start + window.len ≤ length (B.state board.now).content.flash }
    requires knows { Knows digests.old (B.state board.now).content }
    ensures exact { result ≡ image_at (B.state board.now).content window cpu trial_ok }
    ensures knows { Knows digests.new (B.state board.now).content }
    ensures again { (right : Bool) → remembered window cpu digests.old.entries.items ≡ Some right
        → digests.new ≡ digests.old }
    ensures made { MakesAtMost 1 digests.old digests.new }
    ensures kept { KeepsOut pool.old pool.new }
{
    let view = FlashView { board, window };
    match examine(board, &view, Addressing::FLASH, cpu, trial_ok) {
        Ok(candidate) => confirm_by(board, pool, digests, window, cpu, &candidate),
        Err(why) => Err(why),
    }
}
