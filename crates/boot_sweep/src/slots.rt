//! The slot that a session writes. While its steps lie in one member of a pair, the decision of a
//! normal boot depends on that member's image alone. So the images of the others are judged again
//! only where it has become another one.

ghost use Rattle.std.specs.Prelude.{◌≡◌, ◌+◌, ◌≤◌, false, true, IfSome, IsTrue, Some, length};
ghost use Rattle.std.specs.List.{list_all};
ghost use Rattle.pico_board.specs.declared.boot.BootKind.TheVariants.{Normal};
ghost use Rattle.pico_board.specs.Content.{Content};
ghost use Rattle.block_codec.specs.Erased.{AreErased, IsErasedFrom};
ghost use Rattle.sector_pool.specs.Keeping.{KeepsOut};
ghost use Rattle.sector_pool.specs.Pool.{HasFree};
ghost use Rattle.image_check.specs.Digests.{Knows as KnowsDigests};
ghost use Rattle.boot_rules.specs.Choosing.{decision_in, images_in};
ghost use Rattle.boot_rules.specs.Tables.{table_in};
ghost use Rattle.boot_sweep.specs.Comparing.{result_by};
ghost use Rattle.boot_session.specs.Slots.{is_confined};
ghost use Rattle.boot_sweep.specs.Verdicts.{IsBeside, IsKnown, IsSweptSlot, Knows, verdict_by};

use crate::comparing::is_same_started;
use crate::results::{CutResult, Ends, Verdict, result_from, result_on, verdict_on};
use boot_rules::{boot_units_in, find_table};
use boot_session::{is_confined, slot_among};
use image_check::{Digests, Started, check_by};
use pico_board::{Board, Cpu, FlashView, SECTOR, Step, View, Window};
use sector_pool::SectorPool;

/// A member of a pair, in which the steps of a session lie.
#[derive(Clone, Copy)]
pub struct Slot {
    /// The member's window.
    pub window: Window,
    /// Whether the flash has a partition table.
    pub has_table: bool,
}

/// A decision, by the image that the slot had.
#[derive(Drop)]
pub struct Last {
    /// The image, with no trial image allowed.
    pub image: Option<Started>,
    /// Which decision it was.
    pub verdict: Verdict,
}

/// Whether all the steps lie in the window.
pub fn are_confined(window: Window, steps: &[Step]) -> bool
    ensures { result ≡ list_all (is_confined window) steps.now }
{
    steps.iter().all(|step| is_confined(window, step))
}

/// The member of a pair in which the steps lie, where they lie in one.
pub fn slot_of<B: Board>(board: &B, cpu: Cpu, steps: &[Step]) -> Option<Slot>
    requires power { IsTrue (B.state board.now).powered }
    ensures { IfSome result (IsSweptSlot (B.state board.now).content cpu steps.now) }
{
    let first = steps.first()?;
    let units = boot_units_in(board, cpu);
    let window = slot_among(units.as_slice(), first)?;
    if !are_confined(window, steps) {
        return None;
    }
    Some(Slot {
        window,
        has_table: find_table(board).is_some(),
    })
}

/// Whether each of the bytes is 0xff.
fn are_erased(bytes: &[u8]) -> bool
    ensures { result ≡ true → AreErased bytes.now }
{
    for byte in bytes {
        if *byte != 0xff {
            return false;
        }
    }
    true
}

/// Whether the first sector of the view, which is read into the buffer, is erased.
fn is_erased_in<V: View>(view: &V, sector: &mut [u8]) -> bool
    requires long { 4096 ≤ length (V.bytes view.now) }
    requires sector { length sector.old ≡ 4096 }
    ensures { result ≡ true → IsErasedFrom (V.bytes view.now) 0 4096 }
{
    view.read(0, sector);
    are_erased(sector)
}

/// Whether the first sector of the view is erased. Its window then has no image.
fn is_erased<V: View>(view: &V) -> bool
    ensures { result ≡ true → IsErasedFrom (V.bytes view.now) 0 4096 }
{
    if view.len() < SECTOR {
        return false;
    }
    let mut sector = [0u8; SECTOR as usize];
    is_erased_in(view, &mut sector[..])
}

/// The slot's image, with no trial image allowed, where the board has the table of the content
/// before the session. None where it may have another one. A digest is made only where it is not
/// remembered.
fn image_beside<B: Board>(
    board: &B,
    pool: &mut SectorPool,
    digests: &mut Digests,
    cpu: Cpu,
    slot: Slot,
) -> Option<Option<Started>>
    requires power { IsTrue (B.state board.now).powered }
    requires free { HasFree pool.old }
    requires knows { KnowsDigests digests.old (B.state board.now).content }
    requires inside { slot.window.start + slot.window.len
        ≤ length (B.state board.now).content.flash }
    ensures table { (c : Content) → IsBeside c cpu slot (B.state board.now).content
        → IfSome result (λ image. table_in (B.state board.now).content ≡ table_in c) }
    ensures image { IfSome result (λ image. image
        ≡ images_in (B.state board.now).content cpu slot.window false) }
    ensures knows { KnowsDigests digests.new (B.state board.now).content }
    ensures kept { KeepsOut pool.old pool.new }
{
    let window = slot.window;
    if is_erased(&FlashView { board, window }) {
        return Some(None);
    }
    if slot.has_table || find_table(board).is_none() {
        return Some(check_by(board, pool, digests, window, cpu, false).ok());
    }
    None
}

/// Whether the images are the same, or there is none.
fn is_same_image(one: &Option<Started>, two: &Option<Started>) -> bool
    ensures { result ≡ true → one.now ≡ two.now }
{
    match (one, two) {
        (None, None) => true,
        (Some(one), Some(two)) => is_same_started(one, two),
        _ => false,
    }
}

/// The decision that was made last, where the slot had this image.
fn recalled(last: &Option<Last>, image: &Option<Started>) -> Option<Verdict>
    ensures { IfSome result (λ verdict. (known : Last) × (last.now ≡ Some known)
        × (known.image ≡ image.now) × (known.verdict ≡ verdict)) }
{
    match last {
        Some(known) => {
            if is_same_image(&known.image, image) {
                Some(known.verdict)
            } else {
                None
            }
        }
        None => None,
    }
}

/// Which decision a normal boot makes on the board, which is that of before where the slot has the
/// image of before. A digest is made only where it is not remembered.
pub fn verdict_beside<B: Board, Z: Board>(
    board: &B,
    pool: &mut SectorPool,
    digests: &mut Digests,
    ends: &Ends<'_, Z>,
    slot: Slot,
    last: &mut Option<Last>,
) -> Verdict
    requires power { IsTrue (B.state board.now).powered }
    requires free { HasFree pool.old }
    requires knows { KnowsDigests digests.old (B.state board.now).content }
    requires known { (c : Content) × IsKnown c ends.now.cpu ends.now.former ends.now.finished slot
        last.old (B.state board.now).content }
    ensures exact { result ≡ verdict_by ends.now.former ends.now.finished
        (decision_in (B.state board.now).content ends.now.cpu Normal) }
    ensures known { (c : Content) → IsKnown c ends.now.cpu ends.now.former ends.now.finished slot
        last.old (B.state board.now).content
        → IsKnown c ends.now.cpu ends.now.former ends.now.finished slot last.new
        (B.state board.now).content }
    ensures knows { KnowsDigests digests.new (B.state board.now).content }
    ensures kept { KeepsOut pool.old pool.new }
{
    let Some(image) = image_beside(board, pool, digests, ends.cpu, slot) else {
        return verdict_on(board, pool, digests, ends);
    };
    if let Some(verdict) = recalled(last, &image) {
        return verdict;
    }
    let verdict = verdict_on(board, pool, digests, ends);
    *last = Some(Last { image, verdict });
    verdict
}

/// What a normal boot makes of the board's content, where its steps lie in this slot, if in one.
pub fn result_beside<B: Board, Z: Board>(
    board: &B,
    pool: &mut SectorPool,
    ends: &Ends<'_, Z>,
    slot: Option<Slot>,
    last: &mut Option<Last>,
) -> CutResult
    requires power { IsTrue (B.state board.now).powered }
    requires free { HasFree pool.old }
    requires finished { IsTrue (Z.state ends.now.board.now).powered }
    requires long { length (Z.state ends.now.board.now).content.flash
        ≡ length (B.state board.now).content.flash }
    requires known { (c : Content) × Knows c ends.now.cpu ends.now.former ends.now.finished slot
        last.old (B.state board.now).content }
    ensures exact { result ≡ result_by ends.now.former ends.now.finished ends.now.cpu
        (B.state board.now).content (Z.state ends.now.board.now).content }
    ensures known { (c : Content) → Knows c ends.now.cpu ends.now.former ends.now.finished slot
        last.old (B.state board.now).content
        → Knows c ends.now.cpu ends.now.former ends.now.finished slot last.new
        (B.state board.now).content }
    ensures kept { KeepsOut pool.old pool.new }
{
    match slot {
        Some(slot) => {
            let mut digests = Digests::none();
            let verdict = verdict_beside(board, pool, &mut digests, ends, slot, last);
            result_from(board, ends, verdict)
        }
        None => result_on(board, pool, ends),
    }
}
