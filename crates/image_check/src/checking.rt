//! Whether a window holds a valid image.

ghost use Rattle.std.specs.Prelude.{◌≡◌, ◌+◌, ◌*◌, ◌↔◌, ◌≤◌, ◌^◌, ℕ, IsTrue, IsErrOf, IfOk, IfErr, Ok, Err, length};
ghost use Rattle.sector_pool.specs.Keeping.{KeepsOut};
ghost use Rattle.sector_pool.specs.Pool.{HasFree};
ghost use Rattle.image_def.specs.Guarantees.{IsDefinition};
ghost use Rattle.image_def.specs.declared.started.Started.{Started};
ghost use Rattle.load_map.specs.Stored.{AreStoredIn};
ghost use Rattle.image_check.specs.Addressing.{in_flash};
ghost use Rattle.image_check.specs.Examined.{confirmed_in, record_in};
ghost use Rattle.image_check.specs.Image.{image_at, image_in, started_of};
ghost use Rattle.image_check.specs.Rules.{delta_fault, digest_fault};
ghost use Rattle.image_check.specs.SameImage.{HoldsImage};
ghost use Rattle.pico_board.specs.Content.{window_bytes};
ghost use Rattle.image_check.specs.Valid.{IsValidImage, Valid};
ghost use Rattle.image_check.specs.WhyNot.{IsWhyNot, WhyNot};

use crate::addressing::Addressing;
use crate::examining::{Candidate, examine};
use crate::why::Why;
use block_codec::copy_rows;
use image_def::Started;
use load_map::covered_digest;
use pico_board::{Board, Cpu, FlashView, View, Window};
use sector_pool::SectorPool;

/// The answer of the digest rule. A digest is made only where the image has one.
pub(crate) fn digest_fault<V: View>(
    view: &V,
    pool: &mut SectorPool,
    candidate: &Candidate,
) -> Option<Why>
    requires free { HasFree pool.old }
    requires sound { IsDefinition candidate.now.block candidate.now.def }
    requires stored { AreStoredIn (length (V.bytes view.now)) candidate.now.loads.items }
    ensures exact { result ≡ digest_fault (V.bytes view.now) candidate.now.block candidate.now.def
        candidate.now.loads.items candidate.now.def.digest }
    ensures kept { KeepsOut pool.old pool.new }
{
    let value = candidate.def.digest?;
    let digest = covered_digest(
        view,
        pool,
        &candidate.block,
        &candidate.def,
        &candidate.loads,
    );
    if value == digest {
        None
    } else {
        Some(Why::Digest)
    }
}

/// The record of an image in its window.
fn started_of(window: Window, candidate: &Candidate) -> Started
    requires sound { IsDefinition candidate.now.block candidate.now.def }
    ensures { result ≡ started_of window (record {
      block = candidate.now.block;
      def = candidate.now.def;
    })
        candidate.now.entry }
{
    let def = &candidate.def;
    Started {
        window,
        block: candidate.block.at(),
        image_at: candidate.block.at() + 4 * def.image_word,
        pc: candidate.entry.pc,
        sp: candidate.entry.sp,
        limit: candidate.entry.limit,
        version: def.version,
        rollback: def.rollback,
        rows: copy_rows(&def.rows),
        trial: def.flags / 32768 % 2 == 1,
    }
}

/// The record of a candidate whose digest is right, or the answer of the delta rule.
pub(crate) fn record_of(window: Window, candidate: &Candidate) -> Result<Started, Why>
    requires sound { IsDefinition candidate.now.block candidate.now.def }
    ensures exact { result ≡ record_in window candidate.now }
{
    if candidate.def.delta != 0 {
        return Err(Why::Delta);
    }
    Ok(started_of(window, candidate))
}

/// The image of the view that every rule before the digest rule lets pass, or the answer of the
/// digest rule or the delta rule. The record names the window. It takes no memory, and the pool
/// keeps what is out.
pub fn confirm<V: View>(
    view: &V,
    pool: &mut SectorPool,
    window: Window,
    candidate: &Candidate,
) -> Result<Started, Why>
    requires free { HasFree pool.old }
    requires sound { IsDefinition candidate.now.block candidate.now.def }
    requires stored { AreStoredIn (length (V.bytes view.now)) candidate.now.loads.items }
    ensures exact { result ≡ confirmed_in window (V.bytes view.now) candidate.now }
    ensures kept { KeepsOut pool.old pool.new }
{
    if let Some(why) = digest_fault(view, pool, candidate) {
        return Err(why);
    }
    record_of(window, candidate)
}

/// The image of a view, or the answer of the first rule that fails. The view's first byte is seen
/// at the address of `addressing`. The record names the window. A trial image is allowed where
/// `trial_ok` is true. A digest is made only where every rule before it holds. It takes no memory,
/// and the pool keeps what is out.
pub fn check_view<B: Board, V: View>(
    board: &B,
    pool: &mut SectorPool,
    view: &V,
    window: Window,
    addressing: Addressing,
    cpu: Cpu,
    trial_ok: bool,
) -> Result<Started, Why>
    requires power { IsTrue (B.state board.now).powered }
    requires free { HasFree pool.old }
    requires room { addressing.base + length (V.bytes view.now) ≤ 2 ^ 32 }
    ensures exact { result ≡ image_in addressing window cpu trial_ok (B.state board.now).content.otp
        (V.bytes view.now) }
    ensures kept { KeepsOut pool.old pool.new }
{
    match examine(board, view, addressing, cpu, trial_ok) {
        Ok(candidate) => confirm(view, pool, window, &candidate),
        Err(why) => Err(why),
    }
}

/// The image of a window of a flash, or the answer of the first rule that fails. A trial image is
/// allowed where `trial_ok` is true. (RP2350 Datasheet, chapter 5, Bootrom; this project's own
/// where the datasheet is open.) A digest is made only where every rule before it holds. It takes
/// no memory, and the pool keeps what is out.
pub fn check<B: Board>(
    board: &B,
    pool: &mut SectorPool,
    window: Window,
    cpu: Cpu,
    trial_ok: bool,
) -> Result<Started, Why>
    requires power { IsTrue (B.state board.now).powered }
    requires free { HasFree pool.old }
    requires inside { window.start + window.len ≤ length (B.state board.now).content.flash }
    ensures exact { result ≡ image_at (B.state board.now).content window cpu trial_ok }
    ensures valid { (s : Started) → (result ≡ Ok s)
        ↔ Valid (B.state board.now).content window cpu trial_ok s }
    ensures why_not { (y : Why) → (result ≡ Err y)
        ↔ WhyNot (B.state board.now).content window cpu trial_ok y }
    ensures held { IfOk result (λ s. HoldsImage cpu
        (window_bytes (B.state board.now).content window) s) }
    ensures window { IfOk result (λ s. s.window ≡ window) }
    ensures kept { KeepsOut pool.old pool.new }
{
    let view = FlashView { board, window };
    check_view(board, pool, &view, window, Addressing::FLASH, cpu, trial_ok)
}
