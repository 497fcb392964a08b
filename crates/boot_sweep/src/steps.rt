//! Steps of a board that complete, and steps in which power is lost.

ghost use Rattle.std.specs.Prelude.{◌≡◌, length};
ghost use Rattle.pico_board.specs.Cuts.{IsPattern, cut_by, cut_with};
ghost use Rattle.pico_board.specs.Steps.{IsStepIn, after};
ghost use Rattle.boot_session.specs.Standing.{IsUnarmed};

use pico_board::{Bench, Step, do_step};

/// Does a step whole.
pub fn complete<B: Bench>(board: &mut B, step: &Step)
    requires ready { IsUnarmed (B.state board.old) }
    requires range { IsStepIn (length (B.state board.old).content.flash) step.now }
    ensures ready { IsUnarmed (B.state board.new) }
    ensures done { (B.state board.new).content ≡ after (B.state board.old).content step.now }
    ensures size { length (B.state board.new).content.flash
        ≡ length (B.state board.old).content.flash }
{
    match do_step(board, step) {
        Ok(()) => {}
        Err(_) => unreachable!(),
    }
}

/// Loses power within a step or before it, which leaves what the pattern says, and powers the
/// board again.
pub fn cut<B: Bench>(board: &mut B, step: &Step, within: bool, pattern: &[u8])
    requires ready { IsUnarmed (B.state board.old) }
    requires range { IsStepIn (length (B.state board.old).content.flash) step.now }
    requires pattern { IsPattern within pattern.now }
    ensures ready { IsUnarmed (B.state board.new) }
    ensures torn { (B.state board.new).content
        ≡ cut_by (cut_with 0 within pattern.now) (B.state board.old).content step.now }
    ensures size { length (B.state board.new).content.flash
        ≡ length (B.state board.old).content.flash }
{
    board.arm_cut(0, within, pattern);
    match do_step(board, step) {
        Ok(()) => unreachable!(),
        Err(_) => {}
    }
    board.power_on();
}
