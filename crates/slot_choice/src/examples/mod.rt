//! Worked examples of the definitions, proved by computing: each is the `ensures` of a function
//! that does nothing.

ghost use Rattle.std.specs.Prelude.{◌≡◌, ℕ, [], ◌∷◌, true, false, Some, None};
ghost use Rattle.block_codec.specs.declared.versions.Version.{Version};
ghost use Rattle.part_table.specs.Examples.{owned_table, pair_table};
ghost use Rattle.part_table.specs.Families.{absolute_family, arm_ns_family, arm_s_family, data_family, riscv_family, rp2040_family};
ghost use Rattle.pico_board.specs.declared.boot.Cpu.TheVariants.{Arm, Riscv};
ghost use Rattle.slot_choice.specs.Examples.{family_table, lone_unit, pair_unit, small_pair, small_unit, the_pair, three_table, tiny_unit, unit_one, unit_three, unit_two, version, window_at};
ghost use Rattle.slot_choice.specs.LoadUnits.{load_unit};
ghost use Rattle.slot_choice.specs.Units.{slot_pair, units, whole_flash};
ghost use Rattle.slot_choice.specs.Updates.{update_order, updated_member};
ghost use Rattle.slot_choice.specs.Versions.{better};
ghost use Rattle.slot_choice.specs.declared.unit.Member.TheVariants.{A, B};

/// The units of a pair, of a pair of data that the pair of images owns, and of partitions that a
/// processor ignores. Also of a flash without a table, in slots of the smallest size and of
/// greater ones.
pub fn units_are_listed()
    ensures pair { units (Some pair_table) 0x40000 0x1000 Arm ≡ the_pair ∷ [] }
    ensures owned { units (Some owned_table) 0x40000 0x1000 Arm
        ≡ pair_unit (window_at 0x2000 0x8000) 0 (window_at 0xa000 0x8000) 1 ∷ [] }
    ensures arm { units (Some three_table) 0x40000 0x1000 Arm ≡ unit_one ∷ unit_two ∷ [] }
    ensures riscv { units (Some three_table) 0x40000 0x1000 Riscv ≡ unit_one ∷ unit_three ∷ [] }
    ensures whole { units None 0x40000 0x1000 Arm ≡ whole_flash 0x40000 ∷ [] }
    ensures above { units None 0x40000 0x1001 Riscv ≡ slot_pair 0x1001 ∷ [] }
    ensures slots { units None 0x40000 0x20000 Arm ≡ slot_pair 0x20000 ∷ [] }
    ensures slot { slot_pair 0x20000
        ≡ record {
          a = window_at 0 0x20000;
          b = Some (window_at 0x20000 0x20000);
          a_part = None;
          b_part = None;
        } }
{}

/// Of a pair only A's flags are read: a B that is ignored stays in its unit, and a pair with an
/// ignored A is no unit. A B that accepts a family takes no download of it.
pub fn flags_of_a_are_read()
    ensures arm { units (Some (small_pair 0x20000 0x10602)) 0x40000 0x1000 Arm ≡ small_unit ∷ [] }
    ensures riscv { units (Some (small_pair 0x20000 0x10602)) 0x40000 0x1000 Riscv
        ≡ small_unit ∷ [] }
    ensures ignored { units (Some (small_pair 0x20200 0x20002)) 0x40000 0x1000 Arm ≡ [] }
    ensures kept { units (Some (small_pair 0x20200 0x20002)) 0x40000 0x1000 Riscv
        ≡ small_unit ∷ [] }
    ensures loaded { load_unit (Some (small_pair 0x20200 0x20002)) 0x40000 0x1000 arm_s_family
        ≡ Some small_unit }
    ensures first { load_unit (Some (small_pair 0x20000 0x10602)) 0x40000 0x1000 arm_s_family
        ≡ Some small_unit }
    ensures second { load_unit (Some (small_pair 0x20000 0x10602)) 0x40000 0x1000 data_family
        ≡ None }
{}

/// The units of downloads: by the family's bit, owned, ignored, to the whole flash, and of
/// families that nothing takes.
pub fn load_units_are_found()
    ensures arm { load_unit (Some pair_table) 0x40000 0x1000 arm_s_family ≡ Some the_pair }
    ensures riscv { load_unit (Some pair_table) 0x40000 0x1000 riscv_family ≡ None }
    ensures owned { load_unit (Some owned_table) 0x40000 0x1000 data_family
        ≡ Some (pair_unit (window_at 0x12000 0x8000) 2 (window_at 0x1a000 0x8000) 3) }
    ensures ignored { load_unit (Some three_table) 0x40000 0x1000 arm_s_family ≡ Some unit_two }
    ensures absolute { load_unit (Some pair_table) 0x40000 0x1000 absolute_family
        ≡ Some (whole_flash 0x40000) }
    ensures refused { load_unit (Some three_table) 0x40000 0x1000 absolute_family ≡ None }
{}

/// Each family goes to the first partition that accepts it; the absolute one to none of them.
pub fn families_have_units()
    ensures rp2040 { load_unit (Some family_table) 0x40000 0x20000 rp2040_family
        ≡ Some (lone_unit (window_at 0x2000 0x2000) 0) }
    ensures data { load_unit (Some family_table) 0x40000 0x20000 data_family
        ≡ Some (lone_unit (window_at 0x4000 0x2000) 1) }
    ensures arm_s { load_unit (Some family_table) 0x40000 0x20000 arm_s_family
        ≡ Some (lone_unit (window_at 0x6000 0x2000) 2) }
    ensures riscv { load_unit (Some family_table) 0x40000 0x20000 riscv_family
        ≡ Some (lone_unit (window_at 0x8000 0x2000) 3) }
    ensures arm_ns { load_unit (Some family_table) 0x40000 0x20000 arm_ns_family
        ≡ Some (lone_unit (window_at 0xa000 0x2000) 4) }
    ensures extra { load_unit (Some family_table) 0x40000 0x20000 0x11111111
        ≡ Some (lone_unit (window_at 0xc000 0x2000) 5) }
    ensures absolute { load_unit (Some family_table) 0x40000 0x20000 absolute_family ≡ None }
    ensures unknown { load_unit (Some family_table) 0x40000 0x20000 0xe48bff5c ≡ None }
{}

/// Without a table the one boot unit takes data and the three executable families of the RP2350.
/// The whole flash takes the absolute family.
pub fn families_without_table_have_units()
    ensures data { load_unit None 0x40000 0x20000 data_family ≡ Some (slot_pair 0x20000) }
    ensures arm_s { load_unit None 0x40000 0x20000 arm_s_family ≡ Some (slot_pair 0x20000) }
    ensures riscv { load_unit None 0x40000 0x20000 riscv_family ≡ Some (slot_pair 0x20000) }
    ensures arm_ns { load_unit None 0x40000 0x20000 arm_ns_family ≡ Some (slot_pair 0x20000) }
    ensures absolute { load_unit None 0x40000 0x20000 absolute_family ≡ Some (whole_flash 0x40000) }
    ensures rp2040 { load_unit None 0x40000 0x20000 rp2040_family ≡ None }
    ensures unknown { load_unit None 0x40000 0x20000 0xe48bff5c ≡ None }
    ensures small { load_unit None 0x40000 0x1000 data_family ≡ Some (whole_flash 0x40000) }
    ensures above { load_unit None 0x40000 0x1001 data_family ≡ Some (slot_pair 0x1001) }
{}

/// Version 1.9 is below 1.10, and that below 2.0; a tie is A's, and so is a member without a
/// rival.
pub fn versions_are_compared()
    ensures minor { better (Some (version 1 9)) (Some (version 1 10)) ≡ Some B }
    ensures minor_first { better (Some (version 1 10)) (Some (version 1 9)) ≡ Some A }
    ensures major { better (Some (version 2 0)) (Some (version 1 10)) ≡ Some A }
    ensures major_second { better (Some (version 1 10)) (Some (version 2 0)) ≡ Some B }
    ensures tie { better (Some (version 1 9)) (Some (version 1 9)) ≡ Some A }
    ensures alone { better None (Some (version 0 0)) ≡ Some B }
    ensures rivalless { better (Some (version 0 0)) None ≡ Some A }
    ensures none { better None None ≡ None }
{}

/// Updates of a pair's B and A, of a place where no member starts, of an offset that is no
/// address, and of a unit after others. Of two members at one place A is taken, and of two units
/// the first.
pub fn updates_are_found()
    ensures second { updated_member (the_pair ∷ []) 0x10020000 ≡ Some B }
    ensures first { updated_member (the_pair ∷ []) 0x10002000 ≡ Some A }
    ensures inside { updated_member (the_pair ∷ []) 0x10003000 ≡ None }
    ensures offset { updated_member (the_pair ∷ []) 0x00020000 ≡ None }
    ensures start { updated_member (slot_pair 0x20000 ∷ []) 0x10000000 ≡ Some A }
    ensures below { updated_member (slot_pair 0x20000 ∷ []) 0x0fffffff ≡ None }
    ensures both { updated_member (tiny_unit 0x6000 0x6000 ∷ []) 0x10006000 ≡ Some A }
    ensures earlier { updated_member
        (tiny_unit 0x5000 0x6000 ∷ tiny_unit 0x6000 0x7000 ∷ []) 0x10006000
        ≡ Some B }
    ensures earlier_order { update_order
        (unit_one ∷ tiny_unit 0x5000 0x6000 ∷ tiny_unit 0x6000 0x7000 ∷ []) 0x10006000
        ≡ tiny_unit 0x5000 0x6000 ∷ unit_one ∷ tiny_unit 0x6000 0x7000 ∷ [] }
    ensures moved { update_order (unit_one ∷ unit_two ∷ unit_three ∷ []) 0x10006000
        ≡ unit_three ∷ unit_one ∷ unit_two ∷ [] }
    ensures middle { update_order (unit_one ∷ unit_two ∷ unit_three ∷ []) 0x10004000
        ≡ unit_two ∷ unit_one ∷ unit_three ∷ [] }
    ensures stays { update_order (unit_one ∷ unit_two ∷ []) 0x10006000 ≡ unit_one ∷ unit_two ∷ [] }
    ensures below_order { update_order (unit_one ∷ slot_pair 0x20000 ∷ []) 0x0fffffff
        ≡ unit_one ∷ slot_pair 0x20000 ∷ [] }
{}
