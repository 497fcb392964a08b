//! Worked examples of targets by the rules and of boot members, on whole flashes.

ghost use Rattle.std.specs.Prelude.{◌≡◌, None, Some, false, true};
ghost use Rattle.pico_board.specs.declared.boot.Cpu.TheVariants.{Arm, Riscv};
ghost use Rattle.worked_flashes.specs.Tables.{owned_table, pair_table};
ghost use Rattle.part_table.specs.declared.target.Target.{Target};
ghost use Rattle.slot_choice.specs.Examples.{window_at};
ghost use Rattle.boot_rules.specs.Chosen.{IsBootMember};
ghost use Rattle.worked_flashes.specs.Flashes.{arm_member, arm_owner, arm_slot, bare, bare_slot, owned_content, pair_content, tables_content};
ghost use Rattle.boot_rules.specs.Examples.{found_in_slot};
ghost use Rattle.worked_flashes.specs.Choices.{to};
ghost use Rattle.boot_rules.specs.Starts.{IsOfKeptUnit};
ghost use Rattle.boot_rules.specs.Tables.{table_in};
ghost use Rattle.boot_rules.specs.Targets.{target_of};
ghost use Rattle.law_targets.specs.Examples.{flags_table, lone_flash, lone_target_table, pair_flash};
ghost use Rattle.law_targets.specs.HomeRules.{IsInKeptPair};
ghost use Rattle.law_targets.specs.TargetRules.{IsTarget};

/// A pair's A holds version 1.9 and B nothing. By the rules a download of rp2350-arm-s goes into
/// B, and nowhere else; it is gated. A family that no partition accepts goes nowhere.
pub fn a_pair_by_the_words()
    ensures second { IsTarget (pair_content 0 (arm_member 0x10009) bare) (Some pair_table) Arm
        0xe48bff59 (to (window_at 0x20000 0x1e000) true false) }
    ensures not_first { ¬ (IsTarget (pair_content 0 (arm_member 0x10009) bare) (Some pair_table) Arm
        0xe48bff59 (to (window_at 0x2000 0x1e000) true false)) }
    ensures not_ungated { ¬ (IsTarget (pair_content 0 (arm_member 0x10009) bare) (Some pair_table)
        Arm 0xe48bff59 (to (window_at 0x20000 0x1e000) false false)) }
    ensures neither { IsTarget (pair_content 0 bare bare) (Some pair_table) Arm 0xe48bff59
        (to (window_at 0x2000 0x1e000) true false) }
    ensures nowhere { (target : Target)
        → ¬ (IsTarget (pair_content 0 bare bare) (Some pair_table) Arm 0xe48bff58 target) }
{}

/// Owned data go into B where the owner's A would be taken, here on a tie. They go into A where
/// the owner's B would be taken.
pub fn owned_data_by_the_words()
    ensures second { IsTarget (owned_content (arm_owner 0x10009) (arm_owner 0x10009))
        (Some owned_table) Arm 0xe48bff58 (to (window_at 0x1a000 0x8000) false false) }
    ensures first { IsTarget (owned_content (arm_owner 0x10009) (arm_owner 0x1000a))
        (Some owned_table) Arm 0xe48bff58 (to (window_at 0x12000 0x8000) false false) }
    ensures not_second { ¬ (IsTarget (owned_content (arm_owner 0x10009) (arm_owner 0x1000a))
        (Some owned_table) Arm 0xe48bff58 (to (window_at 0x1a000 0x8000) false false)) }
{}

/// Data that go into a pair are not gated. The pair may well be a boot unit, as the two slots of a
/// flash without a table are. So a target that is not gated may be a boot member.
pub fn an_ungated_target_may_be_a_boot_member()
    ensures table { table_in (tables_content 1 (arm_slot 0x10009) bare_slot) ≡ None }
    ensures target { target_of (tables_content 1 (arm_slot 0x10009) bare_slot) None Arm 0xe48bff58
        ≡ Some (to (window_at 0x2000 0x2000) false false) }
    ensures boot_member { IsBootMember (tables_content 1 (arm_slot 0x10009) bare_slot)
        (window_at 0x2000 0x2000)
        Arm }
{}

/// The members of a pair are boot members for the processor that does not ignore its A. For the
/// other processor they are no boot members, and a download into the pair is gated nevertheless. A
/// partition alone is no boot member.
pub fn boot_members_of_a_table()
    ensures table { table_in (pair_flash 0x400 0) ≡ Some (found_in_slot 0 (flags_table 0x400 0)) }
    ensures first { IsBootMember (pair_flash 0x400 0) (window_at 0x2000 0x2000) Arm }
    ensures second { IsBootMember (pair_flash 0x400 0) (window_at 0x4000 0x2000) Arm }
    ensures ignored { ¬ (IsBootMember (pair_flash 0x400 0) (window_at 0x2000 0x2000) Riscv) }
    ensures kept { IsInKeptPair (flags_table 0x400 0) Riscv (window_at 0x2000 0x2000) }
    ensures gated { target_of (pair_flash 0x400 0) (Some (flags_table 0x400 0)) Riscv 0xe48bff59
        ≡ Some (to (window_at 0x2000 0x2000) true false) }
    ensures stays { target_of (pair_flash 0x2000 0) (Some (flags_table 0x2000 0)) Arm 0xe48bff59
        ≡ Some (to (window_at 0x2000 0x2000) true true) }
    ensures not_by_the_second { target_of (pair_flash 0 0x2000) (Some (flags_table 0 0x2000)) Arm
        0xe48bff59 ≡ Some (to (window_at 0x2000 0x2000) true false) }
    ensures lone_table { table_in lone_flash ≡ Some (found_in_slot 0 lone_target_table) }
    ensures lone { ¬ (IsBootMember lone_flash (window_at 0x2000 0x2000) Arm) }
    ensures lone_target { target_of lone_flash (Some lone_target_table) Arm 0xe48bff59
        ≡ Some (to (window_at 0x2000 0x2000) false false) }
{}

/// A B's own bit for a processor is not read: here A is not ignored, and the members of the pair
/// are boot members. `IsOfKeptUnit` reads the flags of any partition, of a B too, so it holds of
/// such a boot member as well. `IsInKeptPair` reads the flags of an A alone, and does not hold.
pub fn the_flags_of_a_second()
    ensures boot_member { IsBootMember (pair_flash 0 0x400) (window_at 0x4000 0x2000) Riscv }
    ensures of_a_kept_unit { IsOfKeptUnit (pair_flash 0 0x400) Riscv (window_at 0x4000 0x2000) }
    ensures in_no_kept_pair { ¬ (IsInKeptPair (flags_table 0 0x400) Riscv
        (window_at 0x4000 0x2000)) }
{}
