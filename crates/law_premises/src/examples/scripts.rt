//! Premises on scripts, their texts and downloads.

ghost use Rattle.std.specs.Prelude.{◌∷◌, [], true, false, Some, codes};
ghost use Rattle.boot_script.specs.Events.{EventView};
ghost use Rattle.script_words.specs.Saying.{HasEventBytes, IsEvent};
ghost use Rattle.script_text.specs.Meaning.{IsWithinLimits};
ghost use Rattle.boot_machine.specs.Plays.{IsOfBytes};
ghost use Rattle.boot_machine.specs.Standing.{Carries};
ghost use Rattle.law_downloads.specs.Copied.{AreLostUpdates, IsCutDownload};
ghost use Rattle.law_downloads.specs.Examples.{second_slot, two_page_image};
ghost use Rattle.pico_board.specs.declared.boot.Cpu.TheVariants.{Arm};
ghost use Rattle.uf2_place.specs.Accepting.{StandsFor};
ghost use Rattle.uf2_place.specs.Placement.{AreBlocks};
ghost use Rattle.uf2_place.specs.Progress.{MayComeNext};
ghost use Rattle.worked_flashes.specs.Choices.{former_start, to};
ghost use Rattle.worked_flashes.specs.Flashes.{bare, beside_former, begins_with, vector_page};
ghost use Rattle.worked_flashes.specs.Writes.{slot};
ghost use Rattle.law_premises.specs.Examples.{begun_download, current_of_two, first_of_two, free_pool, no_download, second_of_two};
ghost use Rattle.cli_course.specs.Ends.{LacksOne};

use law_downloads::examples::copy::an_update_that_lost_its_supply;

/// A cut within a step, with a pattern of one byte.
pub fn an_event_of_a_script()
    ensures cut { IsEvent (EventView.Cut 1 true (0xa5 ∷ [])) }
    ensures power { IsEvent EventView.PowerOn }
    ensures bytes { HasEventBytes (EventView.Cut 1 true (0xa5 ∷ [])) }
    ensures of_bytes { IsOfBytes (EventView.Cut 1 true (0xa5 ∷ [])) }
    ensures not_of_bytes { IsOfBytes (EventView.Cut 1 true (256 ∷ [])) → ⊥ }
    ensures no_byte { HasEventBytes (EventView.Cut 1 true (256 ∷ [])) → ⊥ }
{}

/// A script of one event.
pub fn a_script_within_the_limits()
    ensures within { IsWithinLimits (EventView.PowerOn ∷ []) }
{}

/// A download of two blocks into a slot, and the second block, which may come after the first.
pub fn blocks_of_a_download()
    ensures both { AreBlocks (to slot true false) 0xe48bff59 2 (first_of_two ∷ second_of_two ∷ []) }
    ensures next { MayComeNext current_of_two (first_of_two ∷ []) second_of_two }
    ensures again { MayComeNext current_of_two (first_of_two ∷ []) first_of_two → ⊥ }
{}

/// What is kept of a download after its first block stands for that block. A host that places the
/// download carries it. Without a download only no download is carried.
pub fn a_download_behind_its_first_block()
    ensures stands { StandsFor begun_download free_pool (to slot false false)
        (first_of_two ∷ []) }
    ensures other { StandsFor begun_download free_pool (to slot false false)
        (second_of_two ∷ []) → ⊥ }
    ensures carries { Carries begun_download free_pool
        (Some (record { target = to slot false false; blocks = first_of_two ∷ [] })) }
    ensures carries_none { Carries no_download free_pool None }
    ensures loses_none { Carries begun_download free_pool None → ⊥ }
{}

/// A download of version 1.10 next to 1.9, in which power is lost before its second page; and the
/// contents of one such loss.
pub fn a_download_that_loses_power()
    ensures cut { IsCutDownload (beside_former bare) Arm 0xe48bff59 second_slot two_page_image
        (beside_former (begins_with vector_page)) }
    ensures updates { AreLostUpdates (beside_former bare) Arm 0xe48bff59 second_slot
        two_page_image former_start (beside_former (begins_with vector_page) ∷ []) }
{
    an_update_that_lost_its_supply();
}

/// Files that lack the one input.
pub fn files_that_lack_an_input()
    ensures lacking { LacksOne (Some []) (record { name = codes "flash"; limit = 9 } ∷ []) }
{}
