//! Worked examples of tables, targets and data, proved by computing: each is the `ensures` of a
//! function that does nothing.

ghost use Rattle.std.specs.Prelude.{◌≡◌, [], ◌∷◌, true, false, Some, None, Ok, Err};
ghost use Rattle.block_loop.specs.declared.fault.LoopFault.TheVariants.{NoBlock};
ghost use Rattle.part_table.specs.declared.table.TableFault.TheVariants.{Range};
ghost use Rattle.part_table.specs.Examples.{block_with};
ghost use Rattle.worked_flashes.specs.Tables.{pair_table};
ghost use Rattle.worked_flashes.specs.Tables.{lone_unit};
ghost use Rattle.slot_choice.specs.Examples.{window_at};
ghost use Rattle.slot_choice.specs.Units.{slot_pair, whole_flash};
ghost use Rattle.slot_choice.specs.declared.unit.Member.TheVariants.{A, B};
ghost use Rattle.boot_rules.specs.declared.slots.SlotFault.{SlotFault};
ghost use Rattle.boot_rules.specs.Data.{data_of};
ghost use Rattle.boot_rules.specs.Examples.{crossed_table, data_pair, first, found_in_slot, fourth, image_block, image_pair, second, small_versioned_block, small_table, start_in, third, zeroth};
ghost use Rattle.worked_flashes.specs.Flashes.{empty_table};
ghost use Rattle.worked_flashes.specs.Choices.{to};
ghost use Rattle.boot_rules.specs.Tables.{answer_in_loop, found_of, slot_window};
ghost use Rattle.boot_rules.specs.Targets.{deciding_unit, is_executable, member_for, pair_target, is_staying_target};

/// Of the tables of two slots the greater version is taken, by major and then minor, that of slot 0
/// where they are equal, and the only one. A singleton in slot 0 is taken in any case.
pub fn a_table_is_found()
    ensures none { found_of None None ≡ None }
    ensures only_first { found_of (Some (empty_table false 0 0)) None
        ≡ Some (found_in_slot 0 (empty_table false 0 0)) }
    ensures only_second { found_of None (Some (empty_table false 0 0))
        ≡ Some (found_in_slot 1 (empty_table false 0 0)) }
    ensures minor { found_of (Some (empty_table false 1 9)) (Some (empty_table false 1 10))
        ≡ Some (found_in_slot 1 (empty_table false 1 10)) }
    ensures minor_first { found_of (Some (empty_table false 1 10)) (Some (empty_table false 1 9))
        ≡ Some (found_in_slot 0 (empty_table false 1 10)) }
    ensures major { found_of (Some (empty_table false 2 0)) (Some (empty_table false 1 10))
        ≡ Some (found_in_slot 0 (empty_table false 2 0)) }
    ensures major_second { found_of (Some (empty_table false 1 10)) (Some (empty_table false 2 0))
        ≡ Some (found_in_slot 1 (empty_table false 2 0)) }
    ensures tie { found_of (Some (empty_table false 1 9)) (Some (empty_table true 1 9))
        ≡ Some (found_in_slot 0 (empty_table false 1 9)) }
    ensures singleton { found_of (Some (empty_table true 1 0)) (Some (empty_table false 2 0))
        ≡ Some (found_in_slot 0 (empty_table true 1 0)) }
    ensures singletons { found_of (Some (empty_table true 1 0)) (Some (empty_table true 2 0))
        ≡ Some (found_in_slot 0 (empty_table true 1 0)) }
    ensures second_singleton { found_of (Some (empty_table false 2 0)) (Some (empty_table true 1 0))
        ≡ Some (found_in_slot 0 (empty_table false 2 0)) }
    ensures slots { slot_window 0x2000 0 ≡ window_at 0 0x2000 }
    ensures slot_one { slot_window 0x2000 1 ≡ window_at 0x2000 0x2000 }
{}

/// The answer of a loop is that of its last block with a table, and tells why there is none. The
/// table's last partition ends at the last sector, and its first begins at the first free one.
pub fn the_last_table_counts()
    ensures only { answer_in_loop 64 2 (Ok (small_versioned_block 0x10000 ∷ [])) ≡ Ok
        (small_table false 1 0) }
    ensures last { answer_in_loop 64 2 (Ok
        (small_versioned_block 0x20000 ∷ small_versioned_block 0x10000 ∷ []))
        ≡ Ok (small_table false 1 0) }
    ensures before_image { answer_in_loop 64 2
        (Ok (small_versioned_block 0x10000 ∷ image_block ∷ []))
        ≡ Ok (small_table false 1 0) }
    ensures behind_image { answer_in_loop 64 2
        (Ok (image_block ∷ small_versioned_block 0x10000 ∷ []))
        ≡ Ok (small_table false 1 0) }
    ensures last_is_faulty { answer_in_loop 64 2
        (Ok (small_versioned_block 0x10000 ∷ block_with (0x0100040a ∷ 0 ∷ 0 ∷ 0 ∷ []) ∷ []))
        ≡ Err (SlotFault.Table (Range 0)) }
    ensures first_is_faulty { answer_in_loop 64 2
        (Ok (block_with (0x0100040a ∷ 0 ∷ 0 ∷ 0 ∷ []) ∷ small_versioned_block 0x10000 ∷ []))
        ≡ Ok (small_table false 1 0) }
    ensures without { answer_in_loop 64 2 (Ok (image_block ∷ [])) ≡ Err SlotFault.NoTable }
    ensures no_loop { answer_in_loop 64 2 (Err NoBlock) ≡ Err (SlotFault.Loop NoBlock) }
    ensures fits { answer_in_loop 6 2 (Ok (small_versioned_block 0x10000 ∷ [])) ≡ Ok
        (small_table false 1 0) }
    ensures too_long { answer_in_loop 5 2 (Ok (small_versioned_block 0x10000 ∷ []))
        ≡ Err (SlotFault.Table (Range 1)) }
    ensures slots_before { answer_in_loop 64 3 (Ok (small_versioned_block 0x10000 ∷ []))
        ≡ Err (SlotFault.Table (Range 0)) }
{}

/// The unit that decides on the member is that of the A's owner where the A has one, and
/// otherwise the unit itself.
pub fn deciding_units()
    ensures owned { deciding_unit (Some crossed_table) data_pair ≡ image_pair }
    ensures owned_alone { deciding_unit (Some crossed_table) (lone_unit fourth 4) ≡ image_pair }
    ensures image { deciding_unit (Some crossed_table) image_pair ≡ image_pair }
    ensures whole { deciding_unit (Some crossed_table) (whole_flash 0xc000) ≡ whole_flash 0xc000 }
    ensures without_table { deciding_unit None data_pair ≡ data_pair }
    ensures slots { deciding_unit None (slot_pair 0x2000) ≡ slot_pair 0x2000 }
{}

/// A download goes to B where A would be taken, and to A where B would be, or none.
pub fn the_other_member_is_written()
    ensures first { member_for (Some A) ≡ B }
    ensures second { member_for (Some B) ≡ A }
    ensures none { member_for None ≡ A }
{}

/// Of the UF2 families the three of RP2350 executables are gated, and not their neighbours.
pub fn executable_families()
    ensures data { is_executable 0xe48bff58 ≡ false }
    ensures arm_s { is_executable 0xe48bff59 ≡ true }
    ensures riscv { is_executable 0xe48bff5a ≡ true }
    ensures arm_ns { is_executable 0xe48bff5b ≡ true }
    ensures next { is_executable 0xe48bff5c ≡ false }
    ensures absolute { is_executable 0xe48bff57 ≡ false }
    ensures rp2040 { is_executable 0xe48bff56 ≡ false }
    ensures zero_family { is_executable 0 ≡ false }
{}

/// Whether a download stays is what its own partition says.
pub fn partitions_that_stay()
    ensures other { is_staying_target (Some crossed_table) (Some 1) ≡ false }
    ensures staying { is_staying_target (Some crossed_table) (Some 2) ≡ true }
    ensures staying_second { is_staying_target (Some crossed_table) (Some 3) ≡ true }
    ensures other_second { is_staying_target (Some crossed_table) (Some 0) ≡ false }
    ensures no_partition { is_staying_target (Some crossed_table) None ≡ false }
    ensures no_table { is_staying_target None (Some 2) ≡ false }
    ensures nothing { is_staying_target None None ≡ false }
{}

/// The target in a member has its window, is gated for the families of executables, and stays
/// where its own partition says so.
pub fn targets_in_a_pair()
    ensures first { pair_target (Some crossed_table) 0xe48bff59 image_pair third A ≡ to first true
        false }
    ensures second { pair_target (Some crossed_table) 0xe48bff59 image_pair third B
        ≡ to third true true }
    ensures data { pair_target (Some crossed_table) 0xe48bff58 data_pair zeroth A
        ≡ to second false true }
    ensures data_second { pair_target (Some crossed_table) 0xe48bff58 data_pair zeroth B
        ≡ to zeroth false false }
    ensures slots { pair_target None 0xe48bff5a (slot_pair 0x2000) (window_at 0x2000 0x2000) B
        ≡ to (window_at 0x2000 0x2000) true false }
{}

/// The data of a start are the partitions that the unit's A owns. Where A started it is these
/// themselves, and where B did it is their B, if they have one. There are none where no partition
/// is the unit's A, or without a table.
pub fn data_of_starts()
    ensures first { data_of (Some crossed_table) (start_in first A (Some third))
        ≡ second ∷ fourth ∷ [] }
    ensures second { data_of (Some crossed_table) (start_in third B (Some first))
        ≡ zeroth ∷ fourth ∷ [] }
    ensures not_owner { data_of (Some crossed_table) (start_in third A None) ≡ [] }
    ensures other_length { data_of (Some crossed_table)
        (start_in (window_at 0x4000 0x1000) A (Some third)) ≡ [] }
    ensures other_start { data_of (Some crossed_table)
        (start_in (window_at 0x5000 0x2000) A (Some third)) ≡ [] }
    ensures no_first { data_of (Some crossed_table) (start_in first B None) ≡ [] }
    ensures no_table { data_of None (start_in first A (Some third)) ≡ [] }
{}
