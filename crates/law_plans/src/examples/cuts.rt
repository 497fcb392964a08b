//! Worked cuts and blocks, by computing: each is the `ensures` of a function that does nothing but
//! cite others.

ghost use Rattle.std.specs.Prelude.{◌≡◌, ◌++◌, ℕ, Contains, List, false};
ghost use Rattle.pico_board.specs.Steps.{after_all};
ghost use Rattle.pico_board.specs.declared.Step.TheVariants.{Program};
ghost use Rattle.pico_board.specs.declared.boot.Cpu.TheVariants.{Arm};
ghost use Rattle.worked_flashes.specs.Flashes.{arm_member, arm_slot, bare, bare_slot};
ghost use Rattle.boot_sweep.specs.declared.results.CutResult.TheVariants.{Chance, Finished, Former};
ghost use Rattle.worked_flashes.specs.Flashes.{begins_with, beside_former, beside_small, data_page, mapped_page, small_with, vector_page};
ghost use Rattle.worked_flashes.specs.Writes.{longer_steps, mapped_steps};
ghost use Rattle.worked_flashes.specs.Choices.{small_slot};
ghost use Rattle.boot_sweep.specs.Firms.{Stray};
ghost use Rattle.boot_sweep.specs.Results.{IsCutResult};
ghost use Rattle.boot_sweep.specs.Sweeps.{Line, sweep_lines};

use boot_session::examples::session::{
    a_cut_behind_the_image, a_cut_between_two_pages, a_cut_within_the_image,
};
use boot_sweep::laws::sweep::results_are_judged;

/// The three results of a cut: the former decision between two pages; the finished image, while a
/// page after it is still erased; and an image that lacks a page.
pub fn the_three_results_of_a_cut()
    ensures former { IsCutResult (beside_former bare) (beside_former (arm_member 0x0001000a))
        (beside_former (begins_with vector_page)) Arm Former }
    ensures finished { IsCutResult (beside_small bare_slot)
        (after_all (beside_small bare_slot) mapped_steps)
        (beside_small (small_with (vector_page ++ mapped_page 0x0001000a))) Arm Finished }
    ensures chance { IsCutResult (beside_small bare_slot)
        (after_all (beside_small bare_slot) longer_steps)
        (beside_small (arm_slot 0x0001000a)) Arm Chance }
{
    a_cut_between_two_pages();
    a_cut_behind_the_image();
    a_cut_within_the_image();
}

/// A line of a cut before a step that says `chance`, whatever the pattern. The last page of an
/// image without a load map is still erased.
pub fn a_line_before_a_step_that_says_chance()
    ensures { (pattern : List ℕ) → Contains
        (sweep_lines (beside_small bare_slot) Arm pattern longer_steps)
        (record { number = 3; step = Program 66 data_page; within = false; result = Chance }) }
{
    the_three_results_of_a_cut();
    results_are_judged();
}

/// Blocks that are stray and that are not. A block is stray where no block stood, or where a block
/// with other items stood. It is not where a block with the same headers and link stood, of
/// another version.
pub fn blocks_that_are_stray_and_that_are_not()
    ensures new { Stray (beside_small bare_slot) (beside_small (arm_slot 0x0001000a)) small_slot }
    ensures other_items { Stray
        (beside_small (small_with (vector_page ++ mapped_page 0x0001000a)))
        (beside_small (arm_slot 0x0001000a)) small_slot }
    ensures other_version { Stray (beside_small (arm_slot 0x00010009))
        (beside_small (arm_slot 0x0001000a)) small_slot → ⊥ }
{}
