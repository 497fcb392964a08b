//! What a normal boot makes of a content that a cut left.

ghost use Rattle.std.specs.Prelude.{◌≡◌, IsTrue, length};
ghost use Rattle.sector_pool.specs.Keeping.{KeepsOut};
ghost use Rattle.sector_pool.specs.Pool.{HasFree};
ghost use Rattle.image_check.specs.Digests.{Knows};
ghost use Rattle.boot_sweep.specs.Comparing.{is_whole, result_by};
ghost use Rattle.pico_board.specs.declared.boot.BootKind.TheVariants.{Normal};
ghost use Rattle.boot_sweep.specs.Verdicts.{verdict_by};
ghost use Rattle.boot_rules.specs.Choosing.{decision_in};
ghost use Rattle.boot_rules.specs.Chosen.{Chosen};

use crate::comparing::is_same_decision;
use boot_rules::{Decision, Digests, decide_by};
use image_check::same_content;
use pico_board::{Board, BootKind, Cpu, FlashView, Step};
use sector_pool::SectorPool;

/// What a normal boot makes of a content that a cut of a session left.
#[derive(Clone, Copy, Debug, PartialEq, Eq)]
pub enum CutResult {
    /// The boot decides as before the session.
    Former,
    /// The boot starts the image that it starts after the whole session, with the same bytes.
    Finished,
    /// Neither.
    Chance,
}

/// What a normal boot makes of a loss of power in a step of a session.
#[derive(Clone, Copy, Debug, PartialEq, Eq)]
pub struct StepResults {
    /// Before the step.
    pub before: CutResult,
    /// Within it, where the loss leaves what the pattern says.
    pub within: CutResult,
}

/// What a sweep finds.
#[derive(Drop)]
pub struct SweepResults {
    /// The steps of the session.
    pub steps: Vec<Step>,
    /// The results of each step, in their order.
    pub cuts: Vec<StepResults>,
    /// The result of the whole session.
    pub end: CutResult,
}

/// Which decision a normal boot makes.
#[derive(Clone, Copy)]
pub enum Verdict {
    /// The decision before the session.
    Before,
    /// Another decision, which is that after the whole session.
    After,
    /// Neither.
    Other,
}

/// What a session comes to: the board after it, and what a normal boot decides before it and after
/// it.
#[derive(Drop)]
pub struct Ends<'a, Z: Board> {
    /// The processor that boots.
    pub cpu: Cpu,
    /// The decision before the session.
    pub former: Decision,
    /// The decision after the session.
    pub finished: Decision,
    /// The board after the session.
    pub board: &'a Z,
}

/// Whether the decision is a start of an image that has the same bytes after the whole session.
fn is_whole<B: Board, Z: Board>(board: &B, finished: &Z, cpu: Cpu, decision: &Decision) -> bool
    requires power { IsTrue (B.state board.now).powered }
    requires finished { IsTrue (Z.state finished.now).powered }
    requires long { length (Z.state finished.now).content.flash
        ≡ length (B.state board.now).content.flash }
    requires chosen { Chosen (B.state board.now).content cpu Normal decision.now }
    ensures { result ≡ is_whole cpu (B.state board.now).content (Z.state finished.now).content
        decision.now }
{
    match decision {
        Decision::Start(choice) => {
            let window = choice.image.window;
            let here = FlashView { board, window };
            let whole = FlashView {
                board: finished,
                window,
            };
            same_content(&here, &whole, &choice.image, cpu)
        }
        Decision::Bootsel(_) => false,
    }
}

/// Which decision a normal boot makes on the board. A digest is made only where it is not
/// remembered.
pub fn verdict_on<B: Board, Z: Board>(
    board: &B,
    pool: &mut SectorPool,
    digests: &mut Digests,
    ends: &Ends<'_, Z>,
) -> Verdict
    requires power { IsTrue (B.state board.now).powered }
    requires free { HasFree pool.old }
    requires knows { Knows digests.old (B.state board.now).content }
    ensures exact { result ≡ verdict_by ends.now.former ends.now.finished
        (decision_in (B.state board.now).content ends.now.cpu Normal) }
    ensures knows { Knows digests.new (B.state board.now).content }
    ensures kept { KeepsOut pool.old pool.new }
{
    let decision = decide_by(board, pool, digests, ends.cpu, BootKind::Normal);
    if is_same_decision(&decision, &ends.former) {
        return Verdict::Before;
    }
    if is_same_decision(&decision, &ends.finished) {
        return Verdict::After;
    }
    Verdict::Other
}

/// What a normal boot makes of the board's content, on which it makes this decision.
pub fn result_from<B: Board, Z: Board>(board: &B, ends: &Ends<'_, Z>, verdict: Verdict) -> CutResult
    requires power { IsTrue (B.state board.now).powered }
    requires finished { IsTrue (Z.state ends.now.board.now).powered }
    requires long { length (Z.state ends.now.board.now).content.flash
        ≡ length (B.state board.now).content.flash }
    requires verdict { verdict ≡ verdict_by ends.now.former ends.now.finished
        (decision_in (B.state board.now).content ends.now.cpu Normal) }
    ensures { result ≡ result_by ends.now.former ends.now.finished ends.now.cpu
        (B.state board.now).content (Z.state ends.now.board.now).content }
{
    match verdict {
        Verdict::Before => CutResult::Former,
        Verdict::After => {
            if is_whole(board, ends.board, ends.cpu, &ends.finished) {
                CutResult::Finished
            } else {
                CutResult::Chance
            }
        }
        Verdict::Other => CutResult::Chance,
    }
}

/// What a normal boot makes of the board's content.
pub fn result_on<B: Board, Z: Board>(
    board: &B,
    pool: &mut SectorPool,
    ends: &Ends<'_, Z>,
) -> CutResult
    requires power { IsTrue (B.state board.now).powered }
    requires free { HasFree pool.old }
    requires finished { IsTrue (Z.state ends.now.board.now).powered }
    requires long { length (Z.state ends.now.board.now).content.flash
        ≡ length (B.state board.now).content.flash }
    ensures exact { result ≡ result_by ends.now.former ends.now.finished ends.now.cpu
        (B.state board.now).content (Z.state ends.now.board.now).content }
    ensures kept { KeepsOut pool.old pool.new }
{
    let verdict = verdict_on(board, pool, &mut Digests::none(), ends);
    result_from(board, ends, verdict)
}
