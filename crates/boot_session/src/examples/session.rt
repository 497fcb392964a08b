//! Worked sessions, proved by computing: each is the `ensures` of a function that does nothing.

ghost use Rattle.std.specs.Prelude.{◌≡◌, ◌≤◌, ◌++◌, [], ◌∷◌, List, length, true};
ghost use Rattle.boot_rules.specs.AccidentalImages.{HasNoAccidentalImage};
ghost use Rattle.boot_rules.specs.Chosen.{Chosen};
ghost use Rattle.worked_flashes.specs.Flashes.{arm_member, arm_slot, bare, bare_slot, tables_content};
ghost use Rattle.boot_rules.specs.declared.decision.Decision.TheVariants.{Start};
ghost use Rattle.boot_script.specs.Events.{EventView};
ghost use Rattle.worked_flashes.specs.Flashes.{begins_with, beside_former, beside_small, block_page, mapped_page, small_with, vector_page};
ghost use Rattle.worked_flashes.specs.Choices.{former_start, small_finished, small_former, small_slot};
ghost use Rattle.worked_flashes.specs.Writes.{longer_steps, mapped_steps, plain_steps, slot};
ghost use Rattle.boot_session.specs.Examples.{update_block};
ghost use Rattle.boot_session.specs.CutSessions.{CutSession, StartsFinished};
ghost use Rattle.boot_session.specs.Recordings.{first_steps, kept_steps, step_limit};
ghost use Rattle.boot_session.specs.Sessions.{IsSlotOf, session};
ghost use Rattle.image_check.specs.SameImage.{SameImage};
ghost use Rattle.script_plan.specs.Plans.{plan_events};
ghost use Rattle.pico_board.specs.Sessions.{Unfinished};
ghost use Rattle.pico_board.specs.Steps.{after_all};
ghost use Rattle.pico_board.specs.declared.Step.{Step};
ghost use Rattle.pico_board.specs.declared.Step.TheVariants.{Erase};
ghost use Rattle.pico_board.specs.declared.boot.BootKind.TheVariants.{Normal};
ghost use Rattle.pico_board.specs.declared.boot.Cpu.TheVariants.{Arm};
ghost use Rattle.picoboot_cmd.specs.Commands.{written_command};
ghost use Rattle.picoboot_cmd.specs.Examples.{erase_command};
ghost use Rattle.slot_choice.specs.Examples.{window_at};

/// Version 1.10 is written beside 1.9, and power is lost before its second page: all premises of
/// the law hold. The content is unfinished and has no accidental image in the slot, and a normal
/// boot decides as before.
pub fn a_cut_between_two_pages()
    ensures session { CutSession (beside_former bare) slot Arm plain_steps
        (beside_former (begins_with vector_page)) (Start former_start) }
    ensures done { after_all (beside_former bare) plain_steps
        ≡ beside_former (arm_member 0x0001000a) }
    ensures unfinished { Unfinished (beside_former bare) plain_steps slot
        (beside_former (begins_with vector_page)) }
    ensures accident_free { HasNoAccidentalImage (beside_former bare)
        (beside_former (arm_member 0x0001000a))
        (beside_former (begins_with vector_page)) slot Arm }
    ensures former { Chosen (beside_former (begins_with vector_page)) Arm Normal
        (Start former_start) }
    ensures not_finished { StartsFinished (beside_former (arm_member 0x0001000a))
        (beside_former (begins_with vector_page)) Arm → ⊥ }
{}

/// Behind an image with a load map without entries stands a page of other bytes, and power is lost
/// before that. A normal boot makes the finished start, though the content is not the finished
/// one.
pub fn a_cut_behind_the_image()
    ensures session { CutSession (beside_small bare_slot) small_slot Arm mapped_steps
        (beside_small (small_with (vector_page ++ mapped_page 0x0001000a)))
        (Start small_former) }
    ensures unfinished { Unfinished (beside_small bare_slot) mapped_steps small_slot
        (beside_small (small_with (vector_page ++ mapped_page 0x0001000a))) }
    ensures finished { StartsFinished (after_all (beside_small bare_slot) mapped_steps)
        (beside_small (small_with (vector_page ++ mapped_page 0x0001000a))) Arm }
    ensures not_former { Chosen (beside_small
        (small_with (vector_page ++ mapped_page 0x0001000a))) Arm Normal (Start small_former)
        → ⊥ }
{}

/// Without a load map the image is the whole slot: the same start is made, but the image lacks a
/// page. So it is not the finished one, but an accidental image.
pub fn a_cut_within_the_image()
    ensures unfinished { Unfinished (beside_small bare_slot) longer_steps small_slot
        (beside_small (arm_slot 0x0001000a)) }
    ensures here { Chosen (beside_small (arm_slot 0x0001000a)) Arm Normal
        (Start small_finished) }
    ensures after { Chosen (after_all (beside_small bare_slot) longer_steps) Arm Normal
        (Start small_finished) }
    ensures not_same { SameImage (beside_small (arm_slot 0x0001000a))
        (after_all (beside_small bare_slot) longer_steps) small_finished.image Arm → ⊥ }
    ensures not_finished { StartsFinished (after_all (beside_small bare_slot) longer_steps)
        (beside_small (arm_slot 0x0001000a)) Arm → ⊥ }
    ensures accident { HasNoAccidentalImage (beside_small bare_slot)
        (after_all (beside_small bare_slot) longer_steps) (beside_small (arm_slot 0x0001000a))
        small_slot Arm → ⊥ }
{}

/// The session of a plan, and that of a download of the same two pages: the erase of the slot's
/// first sector, and its pages. The first block of the download does the erase alone. Other events
/// than a host's are passed over, and what comes behind the boot that is asked for is left out.
pub fn sessions_of_a_plan_and_a_download()
    ensures plan { session (beside_former bare) Arm
        (plan_events 0x20000 (vector_page ++ block_page 0x0001000a)) ≡ plain_steps }
    ensures first { session (beside_former bare) Arm (update_block 0 vector_page ∷ [])
        ≡ Erase 32 ∷ [] }
    ensures download { session (beside_former bare) Arm
        (update_block 0 vector_page ∷ update_block 1 (block_page 0x0001000a) ∷ []) ≡ plain_steps }
    ensures passed_over { session (beside_former bare) Arm
        (EventView.PowerOn ∷ update_block 0 vector_page ∷ EventView.Reset Normal ∷ EventView.Buy
        ∷ EventView.Cut 0 true (0 ∷ []) ∷ update_block 1 (block_page 0x0001000a) ∷ [])
        ≡ plain_steps }
    ensures behind { session (beside_former bare) Arm
        (update_block 0 vector_page ∷ update_block 1 (block_page 0x0001000a)
        ∷ EventView.Command (written_command (erase_command 0x10002000 0x1000)) [] ∷ [])
        ≡ plain_steps }
{}

/// Which windows are slots: those of the partitions of a table, and without one the members of the
/// pair. The whole of a flash is none.
pub fn slots_of_contents()
    ensures first { IsSlotOf (beside_former bare) Arm (window_at 0x2000 0x1e000) }
    ensures second { IsSlotOf (beside_former bare) Arm slot }
    ensures whole { IsSlotOf (beside_former bare) Arm (window_at 0 0x40000) → ⊥ }
    ensures tableless { IsSlotOf (tables_content 1 (arm_slot 0x10009) bare_slot) Arm
        (window_at 0x2000 0x2000) }
    ensures tableless_first { IsSlotOf (tables_content 1 (arm_slot 0x10009) bare_slot) Arm
        (window_at 0 0x2000) }
    ensures tableless_whole { IsSlotOf (tables_content 1 (arm_slot 0x10009) bare_slot) Arm
        (window_at 0 0x6000) → ⊥ }
{}

/// A session is swept up to 262,144 steps, and one step more is kept.
pub fn the_most_steps()
    ensures limit { step_limit ≡ 262144 }
    ensures whole { (steps : List Step) → length steps ≤ 262144 → kept_steps steps ≡ steps }
    ensures kept { (steps : List Step) → length steps ≤ 262145 → first_steps steps ≡ steps }
{}
