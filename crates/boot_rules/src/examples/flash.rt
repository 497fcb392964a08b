//! Worked examples of whole flashes, byte for byte, proved by computing: each is the `ensures` of a
//! function that does nothing.

ghost use Rattle.std.specs.Prelude.{◌≡◌, [], ◌∷◌, ◌++◌, true, false, Some, None};
ghost use Rattle.pico_board.specs.declared.boot.BootKind.TheVariants.{Normal, Update, Bootsel as AskBootsel};
ghost use Rattle.pico_board.specs.declared.boot.Cpu.TheVariants.{Arm, Riscv};
ghost use Rattle.worked_flashes.specs.Tables.{one_part, owned_table, plain_partition, sectors};
ghost use Rattle.part_table.specs.Examples.{table_with};
ghost use Rattle.slot_choice.specs.Examples.{small_unit, window_at};
ghost use Rattle.slot_choice.specs.Units.{slot_pair};
ghost use Rattle.boot_rules.specs.Choosing.{decision_in};
ghost use Rattle.worked_flashes.specs.Flashes.{arm_owner, arm_slot, bare_owner, bare_slot, framed, image_region, owned_content, region, several, small_items, tables_content};
ghost use Rattle.boot_rules.specs.Examples.{arm_table, found_in_slot, in_small_a, in_small_b, open_table, single, small_content, small_table, starts_small_a, starts_small_b};
ghost use Rattle.worked_flashes.specs.Images.{image_of_version};
ghost use Rattle.worked_flashes.specs.Choices.{small_first, small_slot, to};
ghost use Rattle.boot_rules.specs.Picking.{pick};
ghost use Rattle.boot_rules.specs.Tables.{table_in};
ghost use Rattle.boot_rules.specs.Targets.{target_of};
ghost use Rattle.boot_rules.specs.declared.decision.Decision.TheVariants.{Bootsel, Start};
ghost use Rattle.boot_rules.specs.declared.decision.Fall.TheVariants.{FlashOff, NoImage, Requested};

/// Flashes of 24 KiB with slots of 4 KiB. There is a table in one of the slots, or there are two of
/// different versions, of equal ones, or a singleton.
pub fn tables_in_slots()
    ensures none { table_in (tables_content 0 (region 0x1000 []) (region 0x1000 [])) ≡ None }
    ensures first { table_in
        (tables_content 0 (region 0x1000 (framed (small_items several 0x10000) 0))
        (region 0x1000 [])) ≡ Some (found_in_slot 0 (small_table false 1 0)) }
    ensures second { table_in (tables_content 0 (region 0x1000 [])
        (region 0x1000 (framed (small_items several 0x10000) 0)))
        ≡ Some (found_in_slot 1 (small_table false 1 0)) }
    ensures greater { table_in
        (tables_content 0 (region 0x1000 (framed (small_items several 0x10009) 0))
        (region 0x1000 (framed (small_items several 0x1000a) 0)))
        ≡ Some (found_in_slot 1 (small_table false 1 10)) }
    ensures tie { table_in
        (tables_content 0 (region 0x1000 (framed (small_items several 0x10009) 0))
        (region 0x1000 (framed (small_items several 0x10009) 0)))
        ≡ Some (found_in_slot 0 (small_table false 1 9)) }
    ensures singleton { table_in
        (tables_content 0 (region 0x1000 (framed (small_items single 0x10009) 0))
        (region 0x1000 (framed (small_items several 0x1000a) 0)))
        ≡ Some (found_in_slot 0 (small_table true 1 9)) }
    ensures broken { table_in
        (tables_content 0 (region 0x1000 (framed (small_items several 0x1000a) 0x1000))
        (region 0x1000 (framed (small_items several 0x10009) 0)))
        ≡ Some (found_in_slot 1 (small_table false 1 9)) }
{}

/// Slots of 8 KiB by row 0x055. The second begins at 0x2000. A partition begins at sector 4 or
/// behind it, and ends with the last sector of the flash or before.
pub fn tables_in_greater_slots()
    ensures first { table_in
        (tables_content 1 (region 0x2000 (framed (one_part (sectors 4 5) 0xfc020000) 0))
        (region 0x2000 []))
        ≡ Some (found_in_slot 0 (table_with (plain_partition (sectors 4 5) 0xfc020000 ∷ []))) }
    ensures second { table_in
        (tables_content 1 (region 0x2000 [])
        (region 0x2000 (framed (one_part (sectors 4 5) 0xfc020000) 0)))
        ≡ Some (found_in_slot 1 (table_with (plain_partition (sectors 4 5) 0xfc020000 ∷ []))) }
    ensures before { table_in
        (tables_content 1 (region 0x2000 (framed (one_part (sectors 3 5) 0xfc020000) 0))
        (region 0x2000 [])) ≡ None }
    ensures behind { table_in
        (tables_content 1 (region 0x2000 (framed (one_part (sectors 4 6) 0xfc020000) 0))
        (region 0x2000 [])) ≡ None }
    ensures third_slot { table_in
        (tables_content 0 (region 0x1000 [])
        (region 0x2000 [] ++ region 0x1000 (framed (one_part (sectors 4 5) 0xfc020000) 0)))
        ≡ None }
{}

/// A pair in a flash of 24 KiB. The greater version starts, A on a tie, and the updated member
/// before both. Nothing starts where both are bare, where the flash is off, or where BOOTSEL is
/// asked for.
pub fn a_pair_boots()
    ensures greater { decision_in
        (small_content 0 (arm_slot 0x10009) (arm_slot 0x1000a))
        Arm Normal ≡ Start (starts_small_b false (in_small_b 1 10 false)) }
    ensures tie { decision_in
        (small_content 0 (arm_slot 0x10009) (arm_slot 0x10009))
        Arm Normal ≡ Start (starts_small_a false (in_small_a 1 9 false)) }
    ensures update { decision_in
        (small_content 0 (arm_slot 0x10000) (image_region 0x2000 0x90210142 0x10001))
        Arm (Update 0x10004000) ≡ Start (starts_small_b true (in_small_b 1 1 true)) }
    ensures other_processor { decision_in
        (small_content 0 (arm_slot 0x10009) bare_slot)
        Riscv Normal ≡ Bootsel NoImage }
    ensures off { decision_in (small_content 2 (arm_slot 0x10009) bare_slot) Arm
        Normal ≡ Bootsel FlashOff }
    ensures off_update { decision_in
        (small_content 2 (arm_slot 0x10009) bare_slot) Arm (Update 0x10004000)
        ≡ Bootsel FlashOff }
    ensures off_and_bare { decision_in (small_content 2 bare_slot bare_slot) Arm Normal
        ≡ Bootsel FlashOff }
    ensures required_is_not_off { decision_in (small_content 1 bare_slot bare_slot) Arm Normal
        ≡ Bootsel NoImage }
    ensures no_image { decision_in (small_content 0 bare_slot bare_slot) Arm Normal
        ≡ Bootsel NoImage }
    ensures requested { decision_in
        (small_content 0 (arm_slot 0x10009) bare_slot) Arm AskBootsel
        ≡ Bootsel Requested }
    ensures requested_and_off { decision_in (small_content 2 bare_slot bare_slot) Arm AskBootsel
        ≡ Bootsel Requested }
{}

/// The downloads of a pair go to the member that a normal boot would not take, and to A where it
/// would take none.
pub fn a_pair_is_written()
    ensures second { target_of
        (small_content 0 (arm_slot 0x10009) (image_region 0x2000 0x90210142 0x10000))
        (Some arm_table) Arm 0xe48bff59 ≡ Some (to small_slot true false) }
    ensures first { target_of
        (small_content 0 (arm_slot 0x10009) (arm_slot 0x1000a))
        (Some arm_table) Arm 0xe48bff59 ≡ Some (to small_first true false) }
    ensures tie { target_of (small_content 0 (arm_slot 0x10009) (arm_slot 0x10009))
        (Some arm_table) Arm 0xe48bff59 ≡ Some (to small_slot true false) }
    ensures none { target_of (small_content 0 bare_slot bare_slot) (Some arm_table) Arm 0xe48bff59
        ≡ Some (to small_first true false) }
    ensures absolute { target_of (small_content 0 bare_slot bare_slot) (Some arm_table) Arm 0xe48bff57
        ≡ Some (to (window_at 0 0x6000) false false) }
    ensures data { target_of (small_content 0 bare_slot bare_slot) (Some arm_table) Arm 0xe48bff58
        ≡ None }
    ensures slots { target_of (small_content 0 bare_slot bare_slot) None Arm 0xe48bff59
        ≡ Some (to (window_at 0 0x6000) false false) }
{}

/// Where the pair's A accepts all six families, each goes to the member that a normal boot of the
/// asked processor would not take. The three of executables are gated. An unknown family has no
/// target. Where A accepts rp2350-arm-s alone, the others have none.
pub fn families_of_a_pair()
    ensures riscv { target_of (small_content 0 (arm_slot 0x10009) bare_slot) (Some open_table) Arm
        0xe48bff5a ≡ Some (to small_slot true false) }
    ensures riscv_boot { target_of (small_content 0 (arm_slot 0x10009) bare_slot) (Some open_table)
        Riscv 0xe48bff5a ≡ Some (to small_first true false) }
    ensures arm_ns { target_of (small_content 0 (arm_slot 0x10009) bare_slot) (Some open_table) Arm
        0xe48bff5b ≡ Some (to small_slot true false) }
    ensures rp2040 { target_of (small_content 0 (arm_slot 0x10009) bare_slot) (Some open_table) Arm
        0xe48bff56 ≡ Some (to small_slot false false) }
    ensures data { target_of (small_content 0 (arm_slot 0x10009) bare_slot) (Some open_table) Arm
        0xe48bff58 ≡ Some (to small_slot false false) }
    ensures unknown { target_of (small_content 0 (arm_slot 0x10009) bare_slot) (Some open_table) Arm
        0xe48bff5c ≡ None }
    ensures no_riscv { target_of (small_content 0 (arm_slot 0x10009) bare_slot) (Some arm_table) Arm
        0xe48bff5a ≡ None }
    ensures no_arm_ns { target_of (small_content 0 (arm_slot 0x10009) bare_slot) (Some arm_table) Arm
        0xe48bff5b ≡ None }
    ensures no_rp2040 { target_of (small_content 0 (arm_slot 0x10009) bare_slot) (Some arm_table) Arm
        0xe48bff56 ≡ None }
{}

/// Without a table the slots of 8 KiB are written likewise, by the three families of executables
/// and by data. The absolute family has the whole flash. The family rp2040 and an unknown one have
/// no target.
pub fn slots_are_written()
    ensures second { target_of (tables_content 1 (arm_slot 0x10009) bare_slot) None Arm 0xe48bff59
        ≡ Some (to (window_at 0x2000 0x2000) true false) }
    ensures first { target_of (tables_content 1 (arm_slot 0x10009) (arm_slot 0x1000a)) None Arm
        0xe48bff59 ≡ Some (to (window_at 0 0x2000) true false) }
    ensures tie { target_of (tables_content 1 (arm_slot 0x10009) (arm_slot 0x10009)) None Arm
        0xe48bff5b ≡ Some (to (window_at 0x2000 0x2000) true false) }
    ensures riscv { target_of (tables_content 1 (arm_slot 0x10009) bare_slot) None Riscv 0xe48bff5a
        ≡ Some (to (window_at 0 0x2000) true false) }
    ensures data { target_of (tables_content 1 (arm_slot 0x10009) bare_slot) None Arm 0xe48bff58
        ≡ Some (to (window_at 0x2000 0x2000) false false) }
    ensures absolute { target_of (tables_content 1 (arm_slot 0x10009) bare_slot) None Arm 0xe48bff57
        ≡ Some (to (window_at 0 0x6000) false false) }
    ensures rp2040 { target_of (tables_content 1 (arm_slot 0x10009) bare_slot) None Arm 0xe48bff56
        ≡ None }
    ensures unknown { target_of (tables_content 1 (arm_slot 0x10009) bare_slot) None Arm 0xe48bff5c
        ≡ None }
{}

/// A pair of data that a pair of images owns is written in B where a normal boot would take the A
/// of the images, and in A where it would take their B, or none. The images go to the member that
/// it would not take.
pub fn owned_data_is_written()
    ensures table { table_in (owned_content (arm_owner 0x10009) (arm_owner 0x10009))
        ≡ Some (found_in_slot 0 owned_table) }
    ensures second { target_of (owned_content (arm_owner 0x10009) (arm_owner 0x10009))
        (Some owned_table) Arm 0xe48bff58 ≡ Some (to (window_at 0x1a000 0x8000) false false) }
    ensures first { target_of (owned_content (arm_owner 0x10009) (arm_owner 0x1000a))
        (Some owned_table) Arm 0xe48bff58 ≡ Some (to (window_at 0x12000 0x8000) false false) }
    ensures none { target_of (owned_content bare_owner bare_owner) (Some owned_table) Arm 0xe48bff58
        ≡ Some (to (window_at 0x12000 0x8000) false false) }
    ensures owner { target_of (owned_content (arm_owner 0x10009) (arm_owner 0x10009))
        (Some owned_table) Arm 0xe48bff59 ≡ Some (to (window_at 0xa000 0x8000) true false) }
{}

/// Of a pair the image of the greater version is picked, A's on a tie, or the only one. A trial
/// does not count. None is picked where both members are bare or the processor is another.
pub fn images_are_picked()
    ensures second { pick (small_content 0 (arm_slot 0x10009) (arm_slot 0x1000a)) small_unit Arm
        ≡ Some (in_small_b 1 10 false) }
    ensures first { pick (small_content 0 (arm_slot 0x1000a) (arm_slot 0x10009)) small_unit Arm
        ≡ Some (in_small_a 1 10 false) }
    ensures tie { pick (small_content 0 (arm_slot 0x10009) (arm_slot 0x10009)) small_unit Arm
        ≡ Some (in_small_a 1 9 false) }
    ensures only_first { pick
        (small_content 0 (arm_slot 0x10000) (image_region 0x2000 0x90210142 0x10001)) small_unit Arm
        ≡ Some (in_small_a 1 0 false) }
    ensures only_second { pick (small_content 0 bare_slot (arm_slot 0x10009)) small_unit Arm
        ≡ Some (in_small_b 1 9 false) }
    ensures none { pick (small_content 0 bare_slot bare_slot) small_unit Arm ≡ None }
    ensures other_processor { pick (small_content 0 (arm_slot 0x10009) (arm_slot 0x1000a))
        small_unit Riscv ≡ None }
    ensures slots { pick (tables_content 1 (arm_slot 0x10009) (arm_slot 0x1000a)) (slot_pair 0x2000)
        Arm ≡ Some (image_of_version (window_at 0x2000 0x2000) 1 10 false) }
{}
