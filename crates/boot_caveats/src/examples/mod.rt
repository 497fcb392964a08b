//! Worked examples of the definitions, proved by computing: each is the `ensures` of a function
//! that does nothing.

pub mod lines;
pub mod members;

ghost use Rattle.std.specs.Prelude.{◌≡◌, [], ◌∷◌, None, Some, Ok, Err, true, false};
ghost use Rattle.pico_board.specs.declared.boot.BootKind.TheVariants.{Normal, Update};
ghost use Rattle.image_check.specs.declared.why.Why.{Why};
ghost use Rattle.image_check.specs.declared.why.Why.TheVariants.{Below};
ghost use Rattle.image_check.specs.declared.why.EntryFault.{EntryFault};
ghost use Rattle.image_def.specs.declared.fault.DefFault.{DefFault};
ghost use Rattle.load_map.specs.declared.load.MapFault.{MapFault};
ghost use Rattle.block_loop.specs.declared.fault.LoopFault.{LoopFault};
ghost use Rattle.slot_choice.specs.declared.unit.Member.TheVariants.{A, B};
ghost use Rattle.boot_rules.specs.declared.decision.Decision.TheVariants.{Bootsel, Start};
ghost use Rattle.boot_rules.specs.declared.decision.Fall.{Fall};
ghost use Rattle.boot_rules.specs.Tables.{slot_window};
ghost use Rattle.boot_reasons.specs.declared.looks.UnitReason.{UnitReason};
ghost use Rattle.worked_flashes.specs.Images.{image_of_version};
ghost use Rattle.slot_caveats.specs.declared.caveat.Caveat.{Caveat};
ghost use Rattle.boot_caveats.specs.ChoiceCaveats.{first_tie, moved_by, update_of_slot};
ghost use Rattle.boot_caveats.specs.StartCaveats.{is_filled, row_caveats};
ghost use Rattle.boot_caveats.specs.ImageCaveats.{begins_otherwise, ends_late, first_places, is_doubtful, look_may_start, may_start, read_windows, reads_blocks};
ghost use Rattle.slot_caveats.specs.Examples.{block_with, first, first_pair, in_slot, lone_report, lone_third, otp_from, pair_report, second, start_of, taken_by, third};

/// A tie of the first unit that takes an image. The window that is taken comes first.
pub fn ties_of_units()
    ensures tie { first_tie (pair_report (taken_by A first UnitReason.Tie) ∷ [])
        ≡ Some (Caveat.Tie first second) }
    ensures version { first_tie (pair_report (taken_by A first UnitReason.Version) ∷ []) ≡ None }
    ensures behind { first_tie (lone_report None
        ∷ pair_report (taken_by A first UnitReason.Tie) ∷ []) ≡ Some (Caveat.Tie first second) }
    ensures unreached { first_tie (lone_report (taken_by A third UnitReason.Only)
        ∷ pair_report (taken_by A first UnitReason.Tie) ∷ []) ≡ None }
    ensures none { first_tie (pair_report None ∷ lone_report None ∷ []) ≡ None }
{}

/// An update of the address of a table slot, where there is a table.
pub fn updates_of_slots()
    ensures first { update_of_slot (Update 0x10000000) 0x2000 in_slot
        ≡ Some (Caveat.UpdateOfSlot 0x10000000) }
    ensures second { update_of_slot (Update 0x10002000) 0x2000 in_slot
        ≡ Some (Caveat.UpdateOfSlot 0x10002000) }
    ensures smaller { update_of_slot (Update 0x10001000) 0x2000 in_slot ≡ None }
    ensures behind { update_of_slot (Update 0x10004000) 0x2000 in_slot ≡ None }
    ensures offset { update_of_slot (Update 0x2000) 0x2000 in_slot ≡ None }
    ensures no_table { update_of_slot (Update 0x10000000) 0x2000 None ≡ None }
    ensures no_update { update_of_slot Normal 0x2000 in_slot ≡ None }
{}

/// An update that moves a unit names the partition of the unit's A, also where B is updated.
pub fn updates_that_move_a_unit()
    ensures front { moved_by (first_pair ∷ lone_third ∷ []) 0x10004000 ≡ None }
    ensures lone { moved_by (first_pair ∷ lone_third ∷ []) 0x10006000 ≡ Some 2 }
    ensures second_member { moved_by (lone_third ∷ first_pair ∷ []) 0x10004000 ≡ Some 0 }
    ensures first_member { moved_by (lone_third ∷ first_pair ∷ []) 0x10002000 ≡ Some 0 }
    ensures elsewhere { moved_by (lone_third ∷ first_pair ∷ []) 0x10003000 ≡ None }
    ensures below { moved_by (lone_third ∷ first_pair ∷ []) 0x2000 ≡ None }
{}

/// The rows of an image that starts: its rollback version against 24 times their number, and the
/// first gap in listed order.
pub fn rows_of_images()
    ensures none { row_caveats [] first (Some 24) [] ≡ [] }
    ensures plain { row_caveats (otp_from 0xc0 (7 ∷ 7 ∷ 0 ∷ [])) first (Some 23) (0xc0 ∷ [])
        ≡ Caveat.RollbackRows first ∷ [] }
    ensures full { row_caveats (otp_from 0xc0 (7 ∷ 7 ∷ 0 ∷ [])) first (Some 24) (0xc0 ∷ [])
        ≡ Caveat.RollbackRows first ∷ Caveat.RollbackFull first ∷ [] }
    ensures two_rows { row_caveats [] first (Some 24) (0xc0 ∷ 0xc3 ∷ [])
        ≡ Caveat.RollbackRows first ∷ [] }
    ensures no_version { row_caveats [] first None (0xc0 ∷ []) ≡ Caveat.RollbackRows first ∷ [] }
    ensures gap { row_caveats (otp_from 0xc0 (7 ∷ 7 ∷ 0 ∷ 5 ∷ 0 ∷ 5 ∷ 4 ∷ 4 ∷ 4 ∷ [])) first
        (Some 48) (0xc6 ∷ 0xc0 ∷ 0xc3 ∷ [])
        ≡ Caveat.RollbackRows first ∷ Caveat.RollbackGap 0xc6 ∷ [] }
    ensures alone { row_caveats (otp_from 0xc0 (7 ∷ 2 ∷ 3 ∷ [])) first None (0xc0 ∷ [])
        ≡ Caveat.RollbackRows first ∷ [] }
    ensures full_with_gap { row_caveats (otp_from 0xc0 (5 ∷ 5 ∷ 0 ∷ [])) first (Some 24) (0xc0 ∷ [])
        ≡ Caveat.RollbackRows first ∷ Caveat.RollbackFull first ∷ Caveat.RollbackGap 0xc0 ∷ [] }
{}

/// Values that are one less than a power of two, as 0 is.
pub fn values_without_a_gap()
    ensures zero { is_filled 0 ≡ true }
    ensures one { is_filled 1 ≡ true }
    ensures two { is_filled 2 ≡ false }
    ensures three { is_filled 3 ≡ true }
    ensures five { is_filled 5 ≡ false }
    ensures six { is_filled 6 ≡ false }
    ensures all { is_filled 0xffffff ≡ true }
    ensures highest { is_filled 0x7fffff ≡ true }
    ensures alone { is_filled 0x800000 ≡ false }
{}

/// The windows that are read: the slots, then the members in the order of looking, each window
/// once.
pub fn windows_that_are_read()
    ensures order { read_windows 0x1000 (pair_report None ∷ lone_report None ∷ [])
        ≡ slot_window 0x1000 0 ∷ slot_window 0x1000 1 ∷ first ∷ second ∷ third ∷ [] }
    ensures once { first_places [] (first ∷ second ∷ first ∷ third ∷ second ∷ [])
        ≡ first ∷ second ∷ third ∷ [] }
    ensures lengths { first_places [] (slot_window 0x1000 0 ∷ slot_window 0x2000 0 ∷ [])
        ≡ slot_window 0x1000 0 ∷ slot_window 0x2000 0 ∷ [] }
    ensures start { reads_blocks (Start (start_of first)) ≡ true }
    ensures no_image { reads_blocks (Bootsel Fall.NoImage) ≡ true }
    ensures off { reads_blocks (Bootsel Fall.FlashOff) ≡ false }
    ensures requested { reads_blocks (Bootsel Fall.Requested) ≡ false }
{}

/// A block that ends with the first 4096 bytes does not end late. The order of a block's items, by
/// their first one.
pub fn blocks_of_windows()
    ensures with { ends_late (block_with 4080 []) ≡ false }
    ensures behind { ends_late (block_with 4084 []) ≡ true }
    ensures longer { ends_late (block_with 4076 (0x10210142 ∷ 0x10210142 ∷ [])) ≡ true }
    ensures first { begins_otherwise (block_with 0 (0x10210142 ∷ 0x00000248 ∷ 0 ∷ [])) ≡ false }
    ensures later { begins_otherwise (block_with 0 (0x00000248 ∷ 0 ∷ 0x10210142 ∷ [])) ≡ true }
{}

/// The rules that the chip may not judge, and those that it does.
pub fn rules_that_are_in_doubt()
    ensures row { is_doubtful (Why.Items (DefFault.BadRow 0x04e)) ≡ true }
    ensures twice { is_doubtful (Why.Items (DefFault.RepeatedRow 0x0c0)) ≡ true }
    ensures hash_def { is_doubtful (Why.Items (DefFault.BadItem 0x47)) ≡ true }
    ensures hash_value { is_doubtful (Why.Items (DefFault.BadItem 0x4b)) ≡ true }
    ensures version { is_doubtful (Why.Items (DefFault.BadItem 0x48)) ≡ true }
    ensures other_item { is_doubtful (Why.Items (DefFault.BadItem 0x44)) ≡ false }
    ensures repeated { is_doubtful (Why.Items (DefFault.Repeated 0x47)) ≡ false }
    ensures covers { is_doubtful (Why.Map (MapFault.CoversBlock 0)) ≡ true }
    ensures runtime { is_doubtful (Why.Map (MapFault.Runtime 3)) ≡ true }
    ensures storage { is_doubtful (Why.Map (MapFault.Storage 3)) ≡ false }
    ensures entry { is_doubtful (Why.Entry EntryFault.Pc) ≡ true }
    ensures entry_table { is_doubtful (Why.Entry EntryFault.Table) ≡ true }
    ensures entry_in_block { is_doubtful (Why.Entry EntryFault.InBlock) ≡ true }
    ensures delta { is_doubtful Why.Delta ≡ true }
    ensures digest { is_doubtful Why.Digest ≡ false }
    ensures trial { is_doubtful Why.Trial ≡ false }
    ensures required { is_doubtful Why.RollbackRequired ≡ false }
    ensures below { is_doubtful (Below 1 2) ≡ false }
    ensures broken { is_doubtful (Why.Loop (LoopFault.Broken 0)) ≡ false }
    ensures members { look_may_start None (pair_report None)
        ≡ Caveat.MayStart second Why.Delta ∷ [] }
    ensures lone { look_may_start None (lone_report None) ≡ [] }
{}

/// An image that fails the rule on rollback rows is told where a boot without this rule starts in
/// its window, and nowhere else.
pub fn images_below_their_rows()
    ensures below { may_start (Some second) second (Err (Below 1 2))
        ≡ Some (Caveat.MayStart second (Below 1 2)) }
    ensures required { may_start (Some second) second (Err Why.RollbackRequired)
        ≡ Some (Caveat.MayStart second Why.RollbackRequired) }
    ensures elsewhere { may_start (Some first) second (Err (Below 1 2)) ≡ None }
    ensures nowhere { may_start None second (Err (Below 1 2)) ≡ None }
    ensures other_rule { may_start (Some second) second (Err Why.Digest) ≡ None }
    ensures doubtful { may_start None second (Err Why.Delta)
        ≡ Some (Caveat.MayStart second Why.Delta) }
    ensures image { may_start (Some second) second (Ok (image_of_version second 1 0 false)) ≡ None }
{}
