//! Premises on sessions in which power is lost.

ghost use Rattle.std.specs.Prelude.{◌≢◌, ◌∷◌, []};
ghost use Rattle.boot_rules.specs.declared.decision.Decision.TheVariants.{Start};
ghost use Rattle.boot_script.specs.Events.{EventView};
ghost use Rattle.boot_session.specs.CutSessions.{ConfinedSession, IsInNoUnit, StartsOutside};
ghost use Rattle.boot_sweep.specs.Verdicts.{IsBeside};
ghost use Rattle.boot_machine.specs.Plays.{powerless};
ghost use Rattle.boot_sweep.specs.Firms.{HasOwnDigests, covered_by};
ghost use Rattle.image_check.specs.SameImage.{HoldsImage};
ghost use Rattle.law_boot_cuts.specs.Running.{LosesBuy, RunsTrial};
ghost use Rattle.law_boot_cuts.specs.Examples.{whole_unit};
ghost use Rattle.worked_flashes.specs.Choices.{running_trial};
ghost use Rattle.boot_session.specs.Examples.{update_block};
ghost use Rattle.boot_session.specs.Sessions.{StaysIn, entered_host};
ghost use Rattle.picoboot_cmd.specs.Commands.{written_command};
ghost use Rattle.picoboot_cmd.specs.Examples.{erase_command};
ghost use Rattle.pico_board.specs.Content.{window_bytes};
ghost use Rattle.pico_board.specs.declared.boot.Cpu.TheVariants.{Arm};
ghost use Rattle.worked_flashes.specs.Choices.{former_start};
ghost use Rattle.worked_flashes.specs.Flashes.{bare, bare_owner, begins_with, beside_former, owned_content, vector_page};
ghost use Rattle.worked_flashes.specs.Writes.{plain_steps, slot};
ghost use Rattle.law_premises.specs.Examples.{armed_machine, digested_flash, digested_image, first_program, lost_machine, owned_second, swept_slot, trial_flash, trial_machine};

use boot_machine::laws::plays::{told_moves_are_determined, told_plays_are_determined};
use boot_session::examples::session::a_cut_between_two_pages;

/// Version 1.10 is written next to 1.9, and power is lost before its second page. This is a
/// session on one slot of a pair, with a table, and the former answer is elsewhere.
pub fn a_confined_session()
    ensures session { ConfinedSession (beside_former bare) slot Arm plain_steps
        (beside_former (begins_with vector_page)) (Start former_start) }
    ensures elsewhere { StartsOutside slot (Start former_start) }
{
    a_cut_between_two_pages();
}

/// A script with a command, an event that is ignored, and a block. None of them asks for a boot.
pub fn a_script_that_stays_in_bootsel()
    ensures { StaysIn (beside_former bare) Arm (entered_host (beside_former bare))
        (EventView.Command (written_command (erase_command 0x10020000 0x1000)) []
        ∷ EventView.Buy ∷ update_block 0 vector_page ∷ []) }
{}

/// A partition of data, which is in no boot unit; the window of an image's partition is in one.
pub fn a_partition_in_no_unit()
    ensures data { IsInNoUnit (owned_content bare_owner bare_owner) Arm owned_second }
    ensures image { IsInNoUnit (beside_former bare) Arm slot → ⊥ }
{}

/// A content that power was lost on differs from the one before in the slot alone.
pub fn a_content_beside_another()
    ensures { IsBeside (beside_former bare) Arm swept_slot
        (beside_former (begins_with vector_page)) }
{
    a_confined_session();
}

/// Two contents that differ in what the image of the window covers: the load map stores its vector
/// table, which has another PC in the second. The digests differ too.
pub fn contents_that_differ_in_what_is_covered()
    ensures held { HoldsImage Arm (window_bytes (digested_flash 0x20000001) digested_image.window)
        digested_image }
    ensures differ { (held : HoldsImage Arm
        (window_bytes (digested_flash 0x20000001) digested_image.window) digested_image)
        → covered_by (window_bytes (digested_flash 0x20000005) digested_image.window)
        held.image held.sound.loads
        ≢ covered_by (window_bytes (digested_flash 0x20000001) digested_image.window)
        held.image held.sound.loads }
    ensures own { HasOwnDigests (digested_flash 0x20000001) (digested_flash 0x20000005)
        digested_image.window Arm digested_image }
{}

/// Power comes back to a flash with a trial image alone, which a normal boot passes over. Then a
/// reset asks for an update boot of its window, and this boot starts the image.
pub fn a_run_that_starts_a_trial_image()
    ensures { RunsTrial (powerless trial_flash Arm) trial_machine running_trial }
{
    told_plays_are_determined();
}

/// In the same run a cut is armed, and then the image buys itself. Power is lost after the image's
/// sector is erased, before its first page is programmed.
pub fn a_buy_in_which_power_is_lost()
    ensures { LosesBuy (powerless trial_flash Arm) armed_machine lost_machine running_trial
        whole_unit first_program }
{
    told_moves_are_determined();
    told_plays_are_determined();
}
