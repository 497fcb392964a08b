//! A worked staged session, which meets the premises of the laws, and worked steps of stages.

pub mod told;

ghost use Rattle.std.specs.Prelude.{◌≡◌, [], ◌∷◌, ◌++◌, replicate};
ghost use Rattle.pico_board.specs.declared.Step.TheVariants.{Erase, Program};
ghost use Rattle.pico_board.specs.declared.boot.Cpu.TheVariants.{Arm};
ghost use Rattle.pico_board.specs.Content.{window_bytes};
ghost use Rattle.pico_board.specs.Steps.{after_all};
ghost use Rattle.block_codec.specs.Blocks.{BlockView};
ghost use Rattle.block_loop.specs.Loop.{IsFirstBlock};
ghost use Rattle.boot_rules.specs.declared.decision.Decision.TheVariants.{Start};
ghost use Rattle.worked_flashes.specs.Choices.{former_start};
ghost use Rattle.worked_flashes.specs.Flashes.{bare, beside_former};
ghost use Rattle.worked_flashes.specs.Writes.{plain_steps, slot};
ghost use Rattle.law_staged.specs.Staged.{StagedSession};
ghost use Rattle.law_staged.specs.StagedPlans.{rest_steps, stage_steps};

use boot_session::examples::session::a_cut_between_two_pages;

/// Version 1.10, an image without a digest and with one block, is written beside 1.9: the slot's
/// first sector is erased, and the page of the block comes last.
pub fn a_staged_session()
    ensures session { StagedSession (beside_former bare) slot Arm plain_steps (Start former_start) }
    ensures first { (b : BlockView)
        × IsFirstBlock (window_bytes (after_all (beside_former bare) plain_steps) slot) b }
{
    a_cut_between_two_pages();
}

/// A stage of two pages and a byte, with the second page last, or the first one, or the byte's. A
/// part without bytes has no step.
pub fn the_steps_of_a_stage()
    ensures middle { stage_steps 4 1 (replicate 256 1 ++ (replicate 256 2 ++ 3 ∷ []))
        ≡ Erase 4 ∷ Program 64 (replicate 256 1) ∷ Program 66 (3 ∷ replicate 255 0)
        ∷ Program 65 (replicate 256 2) ∷ [] }
    ensures first { stage_steps 4 0 (replicate 256 1 ++ (replicate 256 2 ++ 3 ∷ []))
        ≡ Erase 4 ∷ Program 65 (replicate 256 2) ∷ Program 66 (3 ∷ replicate 255 0)
        ∷ Program 64 (replicate 256 1) ∷ [] }
    ensures last { stage_steps 4 2 (replicate 256 1 ++ (replicate 256 2 ++ 3 ∷ []))
        ≡ Erase 4 ∷ Program 64 (replicate 256 1) ∷ Program 65 (replicate 256 2)
        ∷ Program 66 (3 ∷ replicate 255 0) ∷ [] }
    ensures rest { rest_steps 5 (7 ∷ [])
        ≡ Erase 5 ∷ Program 80 (7 ∷ replicate 255 0) ∷ [] }
{}
