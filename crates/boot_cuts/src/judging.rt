//! What a normal boot makes of a content that a loss of power leaves.

ghost use Rattle.std.specs.Prelude.{◌≡◌, IsTrue, length};
ghost use Rattle.pico_board.specs.declared.boot.BootKind.TheVariants.{Normal};
ghost use Rattle.pico_board.specs.Content.{window_bytes};
ghost use Rattle.pico_board.specs.MemBoard.{state_of};
ghost use Rattle.sector_pool.specs.Keeping.{KeepsOut};
ghost use Rattle.sector_pool.specs.Pool.{HasFree};
ghost use Rattle.image_check.specs.SameImage.{HoldsImage};
ghost use Rattle.boot_sweep.specs.Comparing.{is_same_image};
ghost use Rattle.boot_rules.specs.Chosen.{Chosen};
ghost use Rattle.boot_cuts.specs.Answers.{answer_of};
ghost use Rattle.boot_cuts.specs.Classing.{class_by, has_image_of, is_as_on, is_mended, is_tail, start_class, stood_in};
ghost use Rattle.boot_cuts.specs.Judging.{AreEnds};
ghost use Rattle.boot_cuts.specs.Standings.{AreStanding};
ghost use Rattle.boot_rules.specs.Picking.{IsInside};
ghost use Rattle.boot_cuts.specs.Tears.{is_left_torn};

use crate::answers::Answer;
use crate::images::stands_in;
use crate::standing::Standing;
use crate::tails::{agrees_to_end, is_unmapped};
use crate::tears::is_left_torn;
use boot_machine::Watched;
use boot_rules::Decision;
use boot_sweep::{Ends as SweepEnds, is_same_decision};
use cut_class::Class;
use image_check::{Started, same_content};
use pico_board::{Board, BootKind, Cpu, FlashView, MemBoard, Step};
use sector_pool::SectorPool;

/// Where a script leads from and to: the boards before it and after it, and what a normal boot
/// decides on each.
#[derive(Drop)]
pub struct Ends<'a> {
    /// The board before the script.
    pub start: &'a MemBoard,
    /// The processor, the decisions before the script and after it, and the board after it.
    pub ends: SweepEnds<'a, MemBoard>,
    /// The steps that the script leaves torn.
    pub torn: &'a [Step],
    /// Images of windows before the script.
    pub stood: &'a [Standing],
    /// Images of windows after it.
    pub left: &'a [Standing],
}

/// Whether the decision is a start in a window that is not left torn.
fn is_mended(torn: &[Step], decision: &Decision) -> bool
    ensures { result ≡ is_mended torn.now decision.now }
{
    match decision {
        Decision::Start(choice) => !is_left_torn(torn, choice.image.window),
        Decision::Bootsel(_) => false,
    }
}

/// Whether a board has the bytes of an image that another one holds.
fn has_bytes_of(base: &MemBoard, board: &MemBoard, cpu: Cpu, image: &Started) -> bool
    requires power { IsTrue (state_of board.now).powered }
    requires base { IsTrue (state_of base.now).powered }
    requires long { length (state_of board.now).content.flash
        ≡ length (state_of base.now).content.flash }
    requires inside { IsInside (length (state_of base.now).content.flash) image.now.window }
    requires held { HoldsImage cpu (window_bytes (state_of base.now).content image.now.window)
        image.now }
    ensures { result ≡ is_same_image cpu
        (window_bytes (state_of base.now).content image.now.window)
        (window_bytes (state_of board.now).content image.now.window) }
{
    let window = image.window;
    let first = FlashView {
        board: base,
        window,
    };
    let here = FlashView { board, window };
    same_content(&first, &here, image, cpu)
}

/// Whether a board has the bytes of the image that starts on another one, if one does.
fn has_image_of(base: &MemBoard, board: &MemBoard, cpu: Cpu, decision: &Decision) -> bool
    requires power { IsTrue (state_of board.now).powered }
    requires base { IsTrue (state_of base.now).powered }
    requires long { length (state_of board.now).content.flash
        ≡ length (state_of base.now).content.flash }
    requires chosen { Chosen (state_of base.now).content cpu Normal decision.now }
    ensures { result ≡ has_image_of cpu (state_of base.now).content (state_of board.now).content
        decision.now }
{
    match decision {
        Decision::Start(choice) => has_bytes_of(base, board, cpu, &choice.image),
        Decision::Bootsel(_) => true,
    }
}

/// Whether a decision is that on another board, and its image has the same bytes.
fn is_as_on(
    base: &MemBoard,
    board: &MemBoard,
    cpu: Cpu,
    decided: &Decision,
    decision: &Decision,
) -> bool
    requires power { IsTrue (state_of board.now).powered }
    requires base { IsTrue (state_of base.now).powered }
    requires long { length (state_of board.now).content.flash
        ≡ length (state_of base.now).content.flash }
    requires chosen { Chosen (state_of base.now).content cpu Normal decided.now }
    ensures { result ≡ is_as_on decided.now cpu (state_of base.now).content
        (state_of board.now).content decision.now }
{
    is_same_decision(decision, decided) && has_image_of(base, board, cpu, decided)
}

/// Whether an image stands in another board, and the board has its bytes.
fn stood_in(
    base: &MemBoard,
    known: &[Standing],
    board: &MemBoard,
    pool: &mut SectorPool,
    cpu: Cpu,
    image: &Started,
) -> bool
    requires power { IsTrue (state_of board.now).powered }
    requires base { IsTrue (state_of base.now).powered }
    requires free { HasFree pool.old }
    requires known { AreStanding (state_of base.now).content cpu known.now }
    requires long { length (state_of board.now).content.flash
        ≡ length (state_of base.now).content.flash }
    requires inside { IsInside (length (state_of base.now).content.flash) image.now.window }
    ensures exact { result ≡ stood_in cpu (state_of base.now).content
        (state_of board.now).content image.now }
    ensures kept { KeepsOut pool.old pool.new }
{
    if !stands_in(base, pool, known, cpu, image) {
        return false;
    }
    has_bytes_of(base, board, cpu, image)
}

/// Whether an image stands in another board without a load map, and the board has its window up to
/// its furthest block.
fn is_tail(
    base: &MemBoard,
    known: &[Standing],
    board: &MemBoard,
    pool: &mut SectorPool,
    cpu: Cpu,
    image: &Started,
) -> bool
    requires power { IsTrue (state_of board.now).powered }
    requires base { IsTrue (state_of base.now).powered }
    requires free { HasFree pool.old }
    requires known { AreStanding (state_of base.now).content cpu known.now }
    requires long { length (state_of board.now).content.flash
        ≡ length (state_of base.now).content.flash }
    requires inside { IsInside (length (state_of base.now).content.flash) image.now.window }
    ensures exact { result ≡ is_tail cpu (state_of base.now).content
        (state_of board.now).content image.now }
    ensures kept { KeepsOut pool.old pool.new }
{
    if !stands_in(base, pool, known, cpu, image) {
        return false;
    }
    let window = image.window;
    let whole = FlashView {
        board: base,
        window,
    };
    let here = FlashView { board, window };
    is_unmapped(&whole, cpu) && agrees_to_end(&whole, &here)
}

/// The class of a start of an image on a board, which is not that before the script or after it.
fn start_class(board: &MemBoard, pool: &mut SectorPool, ends: &Ends<'_>, image: &Started) -> Class
    requires power { IsTrue (state_of board.now).powered }
    requires free { HasFree pool.old }
    requires ends { AreEnds ends.now (length (state_of board.now).content.flash) }
    requires inside { IsInside (length (state_of board.now).content.flash) image.now.window }
    ensures exact { result ≡ start_class ends.now.ends.cpu (state_of ends.now.start.now).content
        (state_of ends.now.ends.board.now).content
        (is_left_torn ends.now.torn.now image.now.window) (state_of board.now).content image.now }
    ensures kept { KeepsOut pool.old pool.new }
{
    let cpu = ends.ends.cpu;
    if stood_in(ends.start, ends.stood, board, pool, cpu, image) {
        return Class::Whole;
    }
    if is_left_torn(ends.torn, image.window) {
        return Class::Mixed;
    }
    if stood_in(ends.ends.board, ends.left, board, pool, cpu, image) {
        return Class::Whole;
    }
    if is_tail(ends.ends.board, ends.left, board, pool, cpu, image) {
        return Class::Tail;
    }
    Class::Mixed
}

/// The class of a decision on a board, which a normal boot makes there.
pub fn class_on(
    board: &MemBoard,
    pool: &mut SectorPool,
    ends: &Ends<'_>,
    decision: &Decision,
) -> Class
    requires power { IsTrue (state_of board.now).powered }
    requires free { HasFree pool.old }
    requires ends { AreEnds ends.now (length (state_of board.now).content.flash) }
    requires chosen { Chosen (state_of board.now).content ends.now.ends.cpu Normal decision.now }
    ensures exact { result ≡ class_by ends.now.ends.former ends.now.ends.finished
        ends.now.ends.cpu (state_of ends.now.start.now).content
        (state_of ends.now.ends.board.now).content ends.now.torn.now
        (state_of board.now).content decision.now }
    ensures kept { KeepsOut pool.old pool.new }
{
    let end = &ends.ends;
    if is_as_on(ends.start, board, end.cpu, &end.former, decision) {
        return Class::Former;
    }
    if is_mended(ends.torn, &end.finished)
        && is_as_on(end.board, board, end.cpu, &end.finished, decision)
    {
        return Class::Finished;
    }
    match decision {
        Decision::Start(choice) => start_class(board, pool, ends, &choice.image),
        Decision::Bootsel(_) => Class::Bootsel,
    }
}

/// What a normal boot makes of a board. A digest is made only where it is not remembered.
pub fn answer_on(board: &mut Watched<MemBoard>, pool: &mut SectorPool, ends: &Ends<'_>) -> Answer
    requires power { IsTrue (state_of board.old).powered }
    requires free { HasFree pool.old }
    requires ends { AreEnds ends.now (length (state_of board.old).content.flash) }
    ensures exact { result ≡ answer_of (state_of ends.now.start.now).content
        (state_of ends.now.ends.board.now).content ends.now.torn.now ends.now.ends.cpu
        (state_of board.old).content }
    ensures same { board.new ≡ board.old }
    ensures kept { KeepsOut pool.old pool.new }
{
    let decision = board.decide(pool, ends.ends.cpu, BootKind::Normal);
    let class = class_on(board.board(), pool, ends, &decision);
    Answer { class, decision }
}
