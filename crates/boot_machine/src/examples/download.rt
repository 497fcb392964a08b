//! Worked examples of the blocks of a download in BOOTSEL, proved by computing: each is the
//! `ensures` of a function that does nothing.

ghost use Rattle.std.specs.Prelude.{◌≡◌, Err, None, Ok, Some, [], ◌∷◌, codes, false, replicate, true};
ghost use Rattle.text_lines.specs.declared.outcome.EventOutcome.TheVariants as event_outcomes;
ghost use Rattle.text_lines.specs.declared.outcome.BlockOutcome.TheVariants.{BadForm};
ghost use Rattle.text_lines.specs.Outcomes.{accepted_outcome, refused_outcome};
ghost use Rattle.uf2_place.specs.declared.block.Uf2Fault.TheVariants.{Magic};
ghost use Rattle.boot_machine.specs.Machines.{InBootsel};
ghost use Rattle.boot_machine.specs.Examples.{arm_uf2_of_two, begun_download, busy, guarded_busy, host_with, idle, slot_one, slot_two, target_at, uf2_block};
ghost use Rattle.boot_machine.specs.Serving.{block_served, done_boot, is_like, ruling_on, served_event, only_told};
ghost use Rattle.boot_machine.specs.Standing.{IsDoneIn};
ghost use Rattle.boot_rules.specs.Examples.{found_in_slot};
ghost use Rattle.boot_script.specs.Events.{EventView};
ghost use Rattle.worked_flashes.specs.Tables.{guarded_table};
ghost use Rattle.pico_board.specs.Content.{Content};
ghost use Rattle.pico_board.specs.declared.Step.TheVariants.{Erase, Program};
ghost use Rattle.pico_board.specs.declared.boot.BootKind.TheVariants.{Normal, Update};
ghost use Rattle.pico_board.specs.declared.boot.Cpu.{Cpu};
ghost use Rattle.uf2_place.specs.declared.answer.Accepted.TheVariants.{Again, Done, Skipped, Taken};
ghost use Rattle.uf2_place.specs.declared.answer.PlaceFault.TheVariants.{NoTarget, NotPermitted, Outside};
ghost use Rattle.uf2_place.specs.declared.answer.Ruling.TheVariants.{Answered, Begins, Continues};
ghost use Rattle.uf2_place.specs.declared.block.Uf2.{Uf2};

/// The ruling on a block: where it begins a download, and where it continues one.
pub fn rulings_on_blocks()
    ensures first { ruling_on 262144 None (Some (slot_two false)) None (arm_uf2_of_two 0x10000000 0)
        ≡ Begins (slot_two false) }
    ensures continues { ruling_on 262144 None (Some slot_one) (Some begun_download)
        (arm_uf2_of_two 0x10000000 1) ≡ Continues (slot_two false) }
    ensures again { ruling_on 262144 None None (Some begun_download) (arm_uf2_of_two 0x10000000 0)
        ≡ Answered (Ok Again) }
    ensures another_count { ruling_on 262144 None (Some slot_one) (Some begun_download)
        (uf2_block 0x2000 0x10000000 1 3 0xe48bff59) ≡ Begins slot_one }
    ensures another_family { ruling_on 262144 None (Some slot_one) (Some begun_download)
        (uf2_block 0x2000 0x10000000 1 2 0xe48bff5a) ≡ Begins slot_one }
    ensures no_target { ruling_on 262144 None None None (arm_uf2_of_two 0x10000000 0)
        ≡ Answered (Err NoTarget) }
    ensures none_for_another { ruling_on 262144 None None (Some begun_download)
        (uf2_block 0x2000 0x10000000 1 3 0xe48bff59) ≡ Answered (Err NoTarget) }
    ensures last_page { ruling_on 262144 None (Some (slot_two false)) None
        (arm_uf2_of_two 0x1001df00 0) ≡ Begins (slot_two false) }
    ensures outside { ruling_on 262144 None (Some (slot_two false)) None
        (arm_uf2_of_two 0x1001e000 0)
        ≡ Answered (Err Outside) }
    ensures below { ruling_on 262144 None (Some (slot_two false)) None (arm_uf2_of_two 0x0fffff00 0)
        ≡ Answered (Err Outside) }
    ensures continued_outside { ruling_on 262144 None None (Some begun_download)
        (arm_uf2_of_two 0x1001e000 1) ≡ Answered (Err Outside) }
    ensures forbidden { ruling_on 262144 (Some guarded_table) (Some slot_one) None
        (arm_uf2_of_two 0x10000000 0) ≡ Answered (Err NotPermitted) }
    ensures allowed { ruling_on 262144 (Some guarded_table) (Some (slot_two false)) None
        (arm_uf2_of_two 0x10000000 0) ≡ Begins (slot_two false) }
{}

/// Where two rulings could come, the first of skipped, again, without a target, outside and not
/// permitted comes.
pub fn the_first_ruling_comes()
    ensures skipped_again { ruling_on 262144 None None (Some begun_download)
        (uf2_block 0x2001 0x10000000 0 2 0xe48bff59) ≡ Answered (Ok Skipped) }
    ensures skipped_targetless { ruling_on 262144 None None None
        (uf2_block 0 0x10000000 0 2 0xe48bff59) ≡ Answered (Ok Skipped) }
    ensures again_outside { ruling_on 262144 None None (Some begun_download)
        (arm_uf2_of_two 0x1001e000 0) ≡ Answered (Ok Again) }
    ensures targetless_outside { ruling_on 262144 None None None (arm_uf2_of_two 0x0fffff00 0)
        ≡ Answered (Err NoTarget) }
    ensures outside_forbidden { ruling_on 262144 (Some guarded_table) (Some slot_one) None
        (arm_uf2_of_two 0x0fffff00 0) ≡ Answered (Err Outside) }
{}

/// What is left of a block: a download that it begins, goes on with, or ends; a former download
/// stays where it is refused.
pub fn what_a_block_leaves()
    ensures first { block_served idle (arm_uf2_of_two 0x10001000 0) (Begins (slot_two false))
        ≡ record {
          steps = Erase 32 ∷ Erase 33 ∷ Program 0x210 (replicate 256 0x55) ∷ [];
          place = InBootsel busy;
          outcome = accepted_outcome 0 Taken;
          boot = None;
        } }
    ensures last { block_served busy (arm_uf2_of_two 0x10000100 1) (Continues (slot_two false))
        ≡ record {
          steps = Program 0x201 (replicate 256 0x55) ∷ [];
          place = InBootsel idle;
          outcome = accepted_outcome 1 (Done (slot_two false));
          boot = Some (Update 0x10020000);
        } }
    ensures stays { block_served busy (arm_uf2_of_two 0x10000100 1) (Continues (slot_two true))
        ≡ record {
          steps = Program 0x201 (replicate 256 0x55) ∷ [];
          place = InBootsel idle;
          outcome = accepted_outcome 1 (Done (slot_two true));
          boot = None;
        } }
    ensures anew { block_served guarded_busy (uf2_block 0x2000 0x10000100 2 3 0xe48bff58)
        (Begins slot_one) ≡ record {
          steps = Erase 2 ∷ Program 0x21 (replicate 256 0x55) ∷ [];
          place = InBootsel (host_with (Some (found_in_slot 1 guarded_table)) (Some (record {
            target = slot_one;
            blocks = uf2_block 0x2000 0x10000100 2 3 0xe48bff58 ∷ [];
          })));
          outcome = accepted_outcome 2 Taken;
          boot = None;
        } }
    ensures data { (block_served idle (uf2_block 0x2000 0x10000000 0 1 0xe48bff58)
        (Begins slot_one)).boot ≡ Some Normal }
    ensures refused { block_served busy (arm_uf2_of_two 0x10000000 0) (Answered (Err Outside))
        ≡ only_told busy (refused_outcome Outside) }
    ensures again { block_served busy (arm_uf2_of_two 0x10001000 0) (Answered (Ok Again))
        ≡ only_told busy (accepted_outcome 0 Again) }
    ensures form { (c : Content) (cpu : Cpu)
        → served_event c cpu busy (EventView.Uf2 (replicate 512 0))
        ≡ only_told busy (event_outcomes.Block (BadForm Magic)) }
{}

/// The boot after a download. For the three families of executables it is an update of its window,
/// and for others a normal boot. There is none where the target stays.
pub fn boots_after_downloads()
    ensures arm { done_boot 0xe48bff59 (slot_two false) ≡ Some (Update 0x10020000) }
    ensures riscv { done_boot 0xe48bff5a (slot_two false) ≡ Some (Update 0x10020000) }
    ensures arm_ns { done_boot 0xe48bff5b (slot_two false) ≡ Some (Update 0x10020000) }
    ensures data { done_boot 0xe48bff58 (slot_two false) ≡ Some Normal }
    ensures absolute { done_boot 0xe48bff57 (slot_two false) ≡ Some Normal }
    ensures rp2040 { done_boot 0xe48bff56 (slot_two false) ≡ Some Normal }
    ensures stays { done_boot 0xe48bff59 (slot_two true) ≡ None }
    ensures data_stays { done_boot 0xe48bff58 (slot_two true) ≡ None }
{}

/// A block is of the family and the count of the first block of a download; where there is none no
/// block is.
pub fn blocks_of_a_download()
    ensures none { (b : Uf2) → is_like [] b ≡ false }
    ensures same { is_like (arm_uf2_of_two 0x10000000 0 ∷ []) (arm_uf2_of_two 0x10000100 1) ≡ true }
    ensures another_count { is_like (arm_uf2_of_two 0x10000000 0 ∷ [])
        (uf2_block 0x2000 0x10000000 1 3 0xe48bff59) ≡ false }
    ensures another_family { is_like (arm_uf2_of_two 0x10000000 0 ∷ [])
        (uf2_block 0x2000 0x10000000 1 2 0xe48bff5a) ≡ false }
{}

/// The target of a done download starts within the greatest flash.
pub fn targets_of_done_downloads()
    ensures last { IsDoneIn (Done (target_at 0xff_ffff)) }
    ensures past { ¬ (IsDoneIn (Done (target_at 0x100_0000))) }
{}
